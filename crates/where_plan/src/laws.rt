//! What plans mean.

ghost use Rattle.std.specs.Prelude.{◌≡◌, ◌∷◌, ◌++◌, [], ℕ, pos, negsuc, true, not, List, Option, Some, None, map};
ghost use Rattle.std.specs.List.{list_all, list_any};
ghost use Rattle.fb_types.specs.Cells.{RecordFits};
ghost use Rattle.fb_types.specs.declared.cells.Cell.{Cell};
ghost use Rattle.fb_types.specs.declared.schemas.Column.{Column};
ghost use Rattle.fb_types.specs.declared.types.ColType.{ColType};
ghost use Rattle.where_grammar.specs.declared.clause.Atom.{Atom};
ghost use Rattle.where_grammar.specs.declared.clause.Clause.{Clause};
ghost use Rattle.where_grammar.specs.declared.clause.Op.{Op};
ghost use Rattle.where_grammar.specs.Holds.{odd_many};
ghost use Rattle.where_plan.specs.declared.plan.Plan.{Plan};
ghost use Rattle.where_plan.specs.declared.plan.PlanAtom.{PlanAtom};
ghost use Rattle.where_plan.specs.Plans.{IsPlan, atoms_of, joined};
ghost use Rattle.where_plan.specs.PlanOf.{plan_of};
ghost use Rattle.where_plan.specs.Refusals.{refusal_of};
ghost use Rattle.where_plan.specs.Sorts.{column_named};
ghost use Rattle.where_plan.specs.SpansOf.{span};
ghost use Rattle.where_plan.specs.PlanHolds.{is_asked_for, plan_atom_holds, plan_holds};

use crate::plan::Plan;
use where_grammar::Clause;

/// A plan holds of a record that fits the schema exactly where the clause does. The record may lack the last columns.
pub fn the_truth_of_plans()
    ensures whole { (columns : List Column) (asked : Option Clause) (planned : Plan) (cells : List Cell)
        → IsPlan columns asked planned → RecordFits cells columns
        → plan_holds planned cells ≡ is_asked_for asked columns cells }
    ensures front { (front more : List Column) (asked : Option Clause) (planned : Plan) (cells : List Cell)
        → IsPlan (front ++ more) asked planned → RecordFits cells front
        → plan_holds planned cells ≡ is_asked_for asked (front ++ more) cells }
{}

/// A clause has at most one plan under a schema.
pub fn at_most_one_plan()
    ensures { (columns : List Column) (asked : Option Clause) (first second : Plan)
        → IsPlan columns asked first → IsPlan columns asked second → first ≡ second }
{}

/// A clause that isn't refused has the plan that is defined, and no other.
pub fn the_plan_of_a_clause()
    ensures only { (columns : List Column) (asked : Option Clause) (planned : Plan)
        → IsPlan columns asked planned → planned ≡ plan_of columns asked }
    ensures found { (columns : List Column) (asked : Option Clause)
        → refusal_of columns asked ≡ None → IsPlan columns asked (plan_of columns asked) }

    // `a < 5 and a != 3`, where `a` is a column of bytes.
    ensures on_bytes { (columns : List Column) (a : List ℕ) (col : ℕ) → column_named columns a ≡ Some (col, ColType.Byte)
        → plan_of columns (Some (Clause.And (Clause.One (Atom.Compare a Op.Less (pos 5))
        ∷ Clause.One (Atom.Compare a Op.Differs (pos 3)) ∷ [])))
        ≡ Plan.And (Plan.One (PlanAtom.Whole col (span (negsuc 127) (pos 4) ∷ []))
        ∷ Plan.One (PlanAtom.Whole col (span (negsuc 127) (pos 2) ∷ span (pos 4) (pos 127) ∷ [])) ∷ []) }
{}

/// A plan holds as its parts do, as a clause does.
pub fn the_truth_of_plan_parts()
    ensures all { (cells : List Cell) → plan_holds Plan.All cells ≡ true }
    ensures one { (condition : PlanAtom) (cells : List Cell)
        → plan_holds (Plan.One condition) cells ≡ plan_atom_holds condition cells }
    ensures not { (part : Plan) (cells : List Cell)
        → plan_holds (Plan.Not part) cells ≡ not (plan_holds part cells) }
    ensures or { (parts : List Plan) (cells : List Cell)
        → plan_holds (Plan.Or parts) cells ≡ list_any (λ part. plan_holds part cells) parts }
    ensures and { (parts : List Plan) (cells : List Cell)
        → plan_holds (Plan.And parts) cells ≡ list_all (λ part. plan_holds part cells) parts }
    ensures xor { (parts : List Plan) (cells : List Cell)
        → plan_holds (Plan.Xor parts) cells ≡ odd_many (map (λ part. plan_holds part cells) parts) }
{}

/// The conditions of a plan are those of its parts, in order.
pub fn the_conditions_of_plans()
    ensures all { atoms_of Plan.All ≡ [] }
    ensures one { (condition : PlanAtom) → atoms_of (Plan.One condition) ≡ condition ∷ [] }
    ensures not { (part : Plan) → atoms_of (Plan.Not part) ≡ atoms_of part }
    ensures or { (parts : List Plan) → atoms_of (Plan.Or parts) ≡ joined (map atoms_of parts) }
    ensures and { (parts : List Plan) → atoms_of (Plan.And parts) ≡ joined (map atoms_of parts) }
    ensures xor { (parts : List Plan) → atoms_of (Plan.Xor parts) ≡ joined (map atoms_of parts) }
{}
