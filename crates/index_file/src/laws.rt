//! Laws of index files, each on a function that does nothing.

ghost use Rattle.std.specs.Prelude.{◌≡◌, ◌≤◌, ◌↔◌, ℕ, Bool, List, None, Ok, Some, drop, length, slice_get, slice_index, take};
ghost use Rattle.std.specs.List.{AllByRecursion};
ghost use Rattle.index_spec.specs.declared.spec.Spec.{Spec};
ghost use Rattle.wah_words.specs.Bytes.{spelling};
ghost use Rattle.index_file.specs.Fetching.{bitmap_in};
ghost use Rattle.index_file.specs.IndexFile.{EdgeFits, IsIndex, index_bytes, places_of};
ghost use Rattle.index_file.specs.Opening.{head_in};
ghost use Rattle.index_file.specs.Order.{AreInOrder, first_out_of_order};
ghost use Rattle.index_file.specs.Places.{ArePlaced, first_wrong_place, room_at};
ghost use Rattle.index_file.specs.declared.edge.Edge.{Edge};
ghost use Rattle.wah_words.specs.Limits.{most_bits};

/// What is written opens, and each of its bitmaps is fetched.
pub fn written_indexes_open()
    ensures head { (rows : ℕ) (spec : Spec) (edges : List Edge) (bitmaps : List (List Bool)) → IsIndex rows spec edges bitmaps → rows ≤ most_bits
        → AllByRecursion EdgeFits edges
        → head_in rows (index_bytes rows spec edges bitmaps) ≡ Ok (record { spec = spec; bins = edges; places = places_of spec edges bitmaps }) }
    ensures there { (rows : ℕ) (spec : Spec) (edges : List Edge) (bitmaps : List (List Bool)) (k : ℕ) (bits : List Bool) → slice_get bitmaps k ≡ Some bits
        → take (room_at (places_of spec edges bitmaps) k) (drop (slice_index (places_of spec edges bitmaps) k) (index_bytes rows spec edges bitmaps))
        ≡ spelling bits }
    ensures bitmap { (k rows size : ℕ) (bits : List Bool) → length bits ≤ most_bits → length bits ≡ rows → length (spelling bits) ≡ size
        → bitmap_in k rows size (spelling bits) ≡ Ok bits }
{}

/// Bins are in order exactly where each has values and they are above those of the one before it.
pub fn bins_in_order()
    ensures { (edges : List Edge) → (first_out_of_order edges ≡ None) ↔ AreInOrder edges }
{}

/// Where no place is wrong, the bitmaps stand behind the head and one behind another, up to the file's end.
pub fn places_in_order()
    ensures { (head size : ℕ) (places : List ℕ) → first_wrong_place head size places ≡ None → ArePlaced head size places }
{}
