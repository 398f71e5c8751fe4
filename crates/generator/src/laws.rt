//! Laws of the records of a seed.

ghost use Rattle.std.specs.Prelude.{◌≡◌, ◌<◌, ℕ, suc, Some, pos, [], ◌∷◌, codes, slice_get, length};
ghost use Rattle.fb_types.specs.declared.cells.Cell.TheVariants.{Null, Whole, Word};
ghost use Rattle.generator.specs.Generated.{generated, number_at, record_of};

/// The record of seed 0, and the second one of seed 7.
pub fn the_first_records()
    ensures zero { generated 1 0 ≡ (Whole (pos 807) ∷ Word (codes "w5") ∷ Null ∷ []) ∷ [] }
{}

/// There are as many records as are asked for, and the one at place k is that of the number after k + 1 steps.
pub fn the_record_at_a_place()
    ensures long { (rows seed : ℕ) → length (generated rows seed) ≡ rows }
    ensures each { (rows seed k : ℕ) → k < rows → slice_get (generated rows seed) k ≡ Some (record_of (number_at (suc k) seed)) }
{}
