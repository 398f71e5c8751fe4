//! Laws of bins, each on a function that does nothing.
ghost use Rattle.std.specs.Prelude.{◌≡◌, ◌≤ℤ◌, List, Option, Bool, true, ℤ, map, length};
ghost use Rattle.wah_logic.specs.Logic.{union};
ghost use Rattle.binning.specs.Keys.{key, rising, Rises, IsKeying};
ghost use Rattle.binning.specs.Bins.{cells, present, bins_of};
ghost use Rattle.binning.specs.Order.{BinsRise, HasEndsOf};
ghost use Rattle.binning.specs.Gathered.{is_in};
ghost use Rattle.binning.specs.Encodings.{vectors};
ghost use Rattle.binning.specs.Members.{AreBins};
ghost use Rattle.binning.specs.declared.rules.Keying.{Keying};

/// The numbers of a list in rising order rise and are those of the list.
pub fn rising_numbers()
    ensures rises { (ks : List ℤ) → Rises (rising ks) }
    ensures same { (k : ℤ) (ks : List ℤ) → is_in k (rising ks) ≡ is_in k ks }
{}

/// No row is in two bins of a column, and a row is in one of them exactly where the mask is true.
pub fn bins_of_a_column()
    ensures apart { (keys : Keying) (mask : List Bool) (values : List ℤ) → length mask ≡ length values → AreBins (length mask) (vectors (bins_of keys (cells mask values))) }
    ensures all { (keys : Keying) (mask : List Bool) (values : List ℤ) → length mask ≡ length values → union (length mask) (vectors (bins_of keys (cells mask values))) ≡ mask }
{}

/// A key rises, or stays, as the value rises. So the ranges of a column's bins are disjoint and rise. The least and the
/// greatest of a bin are values of the column with the bin's key.
pub fn bins_in_order()
    ensures keys { (keys : Keying) (v w : ℤ) → IsKeying keys → v ≤ℤ w → key keys v ≤ℤ key keys w }
    ensures ranges { (keys : Keying) (column : List (Option ℤ)) → IsKeying keys → BinsRise (bins_of keys column) }
    ensures there { (keys : Keying) (column : List (Option ℤ)) (k : ℤ) → is_in k (map (key keys) (present column)) ≡ true → HasEndsOf keys column k }
{}
