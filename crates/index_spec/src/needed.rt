//! Laws of the bitmaps that a run of bins needs, on a function that does nothing.
ghost use Rattle.std.specs.Prelude.{◌≡◌, ℕ, ◌+◌, ◌-◌, ◌*◌, ◌<◌, ◌≤◌, Some, All, length, min};
ghost use Rattle.std.specs.Int.{div_ceil};
ghost use Rattle.std.specs.List.Sorted.{IsStrictlyIncreasing};
ghost use Rattle.index_spec.specs.declared.spec.Coarse.{Coarse};
ghost use Rattle.index_spec.specs.declared.spec.EncodingSpec.{EncodingSpec as Encodings};
ghost use Rattle.index_spec.specs.Counts.{bitmap_count, groups_of, HasGroups};
ghost use Rattle.index_spec.specs.Members.{needed, most_needed};

use crate::spec::EncodingSpec;

/// The bitmaps of the run of bins `i` to `j - 1` of `n` stand in rising order, each among those that the encoding
/// keeps, and are few: the shorter of the run and of what lies outside it under equality, at most 2 under range and
/// interval, and under two levels at most those of the coarse level and `2 (g - 1)` more, with groups of `g` bins.
pub fn needed_bitmaps()
    ensures rising { (e : Encodings) (n i j q : ℕ) → HasGroups e → i < j → j ≤ n → bitmap_count e n ≡ Some q → IsStrictlyIncreasing (needed e n i j) }
    ensures kept { (e : Encodings) (n i j q : ℕ) → HasGroups e → i < j → j ≤ n → bitmap_count e n ≡ Some q → All (λ k. k < q) (needed e n i j) }
    ensures equality { (n i j : ℕ) → i < j → j ≤ n → length (needed EncodingSpec.Equality n i j) ≡ min (j - i) (n - (j - i)) }
    ensures range { (n i j : ℕ) → length (needed EncodingSpec.Range n i j) ≤ 2 }
    ensures interval { (n i j : ℕ) → length (needed EncodingSpec.Interval n i j) ≤ 2 }
    ensures two_level { (level : Coarse) (m n i j : ℕ) → 1 ≤ m → i < j → j ≤ n → length (needed (EncodingSpec.TwoLevel level m) n i j) ≤ most_needed level (groups_of n m) + 2 * (div_ceil n m - 1) }
{}
