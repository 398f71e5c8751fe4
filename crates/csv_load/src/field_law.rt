//! What the field of a whole column says, as a law.

ghost use Rattle.std.specs.Prelude.{◌≡◌, ℕ, ℤ, List, Some};
ghost use Rattle.fb_types.specs.declared.fields.FieldAnswer.{FieldAnswer};
ghost use Rattle.fb_types.specs.declared.types.ColType.{ColType};
ghost use Rattle.fb_types.specs.Field.{field_answer};
ghost use Rattle.fb_types.specs.Types.{ends_of};
ghost use Rattle.csv_load.specs.FieldGrammar.{FieldSays};

/// What is read of the field of a whole column, whose type has these ends, is what the field says by its grammar; and it
/// says nothing else.
pub fn the_fields_of_whole_columns()
    ensures says { (field : List ℕ) (ty : ColType) (ends : ℤ × ℤ) → ends_of ty ≡ Some ends → FieldSays field ends (field_answer field ty) }
    ensures only { (field : List ℕ) (ty : ColType) (ends : ℤ × ℤ) (answer : FieldAnswer) → ends_of ty ≡ Some ends → FieldSays field ends answer
        → field_answer field ty ≡ answer }
{}
