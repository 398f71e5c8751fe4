//! The keys of groups.

ghost use Rattle.std.specs.Prelude.{◌≡◌, fold};
ghost use Rattle.select_group.specs.Keys.{cell_input, cells_input};
ghost use Rattle.select_group.specs.Rows.{cells_cmp, cells_eq};

use crate::cells::cells_cmp;
use fb_types::Cell;
use sqlite_items::Items;
use std::cmp::Ordering;
use std::hash::{Hash, Hasher};
use std::marker::Model;

/// What makes a group: a cell for each item, null where the item is over the group. Seen as the list of them.
#[derive(Drop)]
pub struct GroupKey {
    cells: Items<Cell>,
}

impl Model for GroupKey {
    ghost use Rattle.std.specs.Prelude.{List};
    ghost use Rattle.fb_types.specs.declared.cells.Cell.{Cell};

    ghost Value = { List Cell };

    ghost view = { λ k. k.cells };
}

impl GroupKey {
    pub(crate) fn from_cells(cells: Items<Cell>) -> GroupKey
        ensures { result ≡ cells }
    {
        GroupKey { cells }
    }

    pub(crate) fn into_cells(self) -> Items<Cell>
        ensures { result ≡ self }
    {
        self.cells
    }

    fn cells(&self) -> &[Cell]
        ensures { result.now ≡ self.now }
    {
        self.cells.as_slice()
    }
}

impl PartialEq for GroupKey {
    ghost use Rattle.select_group.specs.Rows.{cells_eq};
    ghost use Rattle.select_group.specs.Keys.{cells_eq-partial};

    ghost eq = { cells_eq };

    fn eq(&self, other: &GroupKey) -> bool {
        cells_cmp(self.cells(), other.cells()).is_eq()
    }

    ghost laws = { cells_eq-partial };
}

impl Eq for GroupKey {
    ghost use Rattle.select_group.specs.Keys.{cells_eq-equivalence};

    ghost laws = { cells_eq-equivalence };
}

impl PartialOrd for GroupKey {
    ghost use Rattle.std.specs.Prelude.{Some};
    ghost use Rattle.select_group.specs.Rows.{cells_cmp};
    ghost use Rattle.select_group.specs.Keys.{cells_cmp-partial};

    ghost partial_cmp = { λ a b. Some (cells_cmp a b) };

    fn partial_cmp(&self, other: &GroupKey) -> Option<Ordering> {
        Some(cells_cmp(self.cells(), other.cells()))
    }

    ghost laws = { cells_cmp-partial };
}

impl Ord for GroupKey {
    ghost use Rattle.std.specs.Prelude.{refl};
    ghost use Rattle.select_group.specs.Rows.{cells_cmp};
    ghost use Rattle.select_group.specs.Keys.{cells_cmp-total};

    ghost cmp = { cells_cmp };

    fn cmp(&self, other: &GroupKey) -> Ordering {
        cells_cmp(self.cells(), other.cells())
    }

    ghost total = { cells_cmp-total };

    ghost matches_partial_cmp = { λ x y. refl };

    ghost matches_eq = { λ x y. refl };
}

/// Feeds a cell.
fn feed<H: Hasher>(cell: &Cell, state: &mut H)
    ensures { state.new ≡ fold H.write state.old (cell_input cell.now) }
{
    match cell {
        Cell::Null => state.write_u8(0),
        Cell::Whole(n) => state.write_i128(*n),
        Cell::Word(w) => state.write(w.bytes()),
    }
}

/// Feeds the cells, one after the other.
fn feed_all<H: Hasher>(cells: &[Cell], state: &mut H)
    ensures { state.new ≡ fold H.write state.old (cells_input cells.now) }
{
    for cell in cells {
        feed(cell, state);
    }
}

impl Hash for GroupKey {
    ghost use Rattle.select_group.specs.Keys.{cells_input, cells_input-same};

    ghost hash_input = { cells_input };

    ghost respects_eq = { cells_input-same };

    fn hash<H: Hasher>(&self, state: &mut H) {
        feed_all(self.cells(), state);
    }
}
