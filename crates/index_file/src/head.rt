//! The head of an index file.

ghost use Rattle.std.specs.Prelude.{◌≡◌, ◌+◌, ◌-◌, ◌*◌, ◌^◌, ◌<◌, ◌≤◌, None, Some, Ok, length};
ghost use Rattle.index_spec.specs.Counts.{bitmap_count};
ghost use Rattle.index_spec.specs.Language.{spec_of};
ghost use Rattle.index_spec.specs.Printed.{printed};
ghost use Rattle.index_file.specs.Order.{first_out_of_order};
ghost use Rattle.index_file.specs.Places.{first_wrong_place, head_size, last_place};

use crate::edge::Edge;
use fb_outside::FileName;
use index_spec::Spec;
use sqlite_items::Items;

/// The head of an index file that was opened: how the column is indexed, its bins in order, and where each bitmap
/// begins and the last ends.
#[derive(Drop)]
pub struct IndexHead {
    pub name: FileName,
    pub rows: u32,
    pub spec: Spec,
    pub bins: Items<Edge>,
    pub offsets: Items<u64>,
    ghost few_bins: { length bins < 2 ^ 32 },
    ghost few_bitmaps: { length offsets ≤ 2 ^ 32 },
    ghost given: { spec_of (printed spec) ≡ Ok spec },
    ghost ordered: { first_out_of_order bins ≡ None },
    ghost counted: { bitmap_count spec.encoding (length bins) ≡ Some (length offsets - 1) },
    ghost placed: { first_wrong_place (head_size (length (printed spec)) (length bins) (length offsets - 1)) (last_place offsets) offsets ≡ None },
}
