//! Laws of a column's files, each on a function that does nothing.

ghost use Rattle.wah_words.specs.Limits.{most_bits};
ghost use Rattle.std.specs.Prelude.{◌≡◌, ◌+◌, ◌*◌, ◌<◌, ◌≤◌, ◌≤ℤ◌, ℕ, ℤ, Bool, List, All, Ok, Some, IsSome, drop, length, slice_index, take};
ghost use Rattle.fb_types.specs.Types.{width_of};
ghost use Rattle.fb_types.specs.declared.types.ColType.{ColType};
ghost use Rattle.wah_words.specs.Bytes.{spelling};
ghost use Rattle.column_file.specs.Opening.{column_in, mask_in};
ghost use Rattle.column_file.specs.Values.{ValueFits, numbers_of, values_bytes, width_in};

/// A type's numbers are read back from their bytes, and bytes are written back from the numbers that they spell.
pub fn one_spelling()
    ensures read { (ty : ColType) (values : List ℤ) → IsSome (width_of ty) → All (λ value. ValueFits value ty) values
        → numbers_of ty (length values) (values_bytes ty values) ≡ values }
    ensures written { (ty : ColType) (count : ℕ) (bytes : List ℕ) → IsSome (width_of ty) → length bytes ≡ count * width_in ty
        → ((i : ℕ) → slice_index bytes i < 256) → values_bytes ty (numbers_of ty count bytes) ≡ bytes }
    ensures fit { (ty : ColType) (count : ℕ) (bytes : List ℕ) → IsSome (width_of ty) → ((i : ℕ) → slice_index bytes i < 256)
        → All (λ value. ValueFits value ty) (numbers_of ty count bytes) }
{}

/// Each row's number has the type's width: the bytes of some rows are those of their numbers.
pub fn rows_of_one_width()
    ensures size { (ty : ColType) (values : List ℤ) → length (values_bytes ty values) ≡ length values * width_in ty }
    ensures part { (ty : ColType) (values : List ℤ) (first count : ℕ)
        → take (count * width_in ty) (drop (first * width_in ty) (values_bytes ty values)) ≡ values_bytes ty (take count (drop first values)) }
{}

/// The definitions of opening accept what is written: the bytes of a mask, and those of a column with it.
pub fn written_files_open()
    ensures mask { (bits : List Bool) → length bits ≤ most_bits → mask_in (length bits) (Some (spelling bits)) ≡ Ok bits }
    ensures column { (ty : ColType) (values : List ℤ) (bits : List Bool) → length bits ≤ most_bits → length bits ≡ length values
        → column_in (width_in ty) (length values) (Some (values_bytes ty values)) (Some (spelling bits)) ≡ Ok bits }
{}
