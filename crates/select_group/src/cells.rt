//! Cells in order.

ghost use Rattle.std.specs.Prelude.{◌≡◌, slice_index_or};
ghost use Rattle.fb_types.specs.declared.cells.Cell.TheVariants.{Null};
ghost use Rattle.select_group.specs.Rows.{cell_cmp, cells_cmp, number_cell};
ghost use Rattle.fb_types.specs.Slots.{whole_in};

use fb_types::Cell;
use std::cmp::Ordering;

/// Null comes first, then numbers by value, then words by their bytes.
pub(crate) fn cell_cmp(a: &Cell, b: &Cell) -> Ordering
    ensures { result ≡ cell_cmp a.now b.now }
{
    match (a, b) {
        (Cell::Null, Cell::Null) => Ordering::Equal,
        (Cell::Null, _) => Ordering::Less,
        (Cell::Whole(_), Cell::Null) => Ordering::Greater,
        (Cell::Whole(n), Cell::Whole(m)) => n.cmp(m),
        (Cell::Whole(_), Cell::Word(_)) => Ordering::Less,
        (Cell::Word(w), Cell::Word(v)) => w.bytes().cmp(v.bytes()),
        (Cell::Word(_), _) => Ordering::Greater,
    }
}

/// Cell by cell, the first two that differ decide.
pub(crate) fn cells_cmp(a: &[Cell], b: &[Cell]) -> Ordering
    ensures { result ≡ cells_cmp a.now b.now }
{
    let mut front = a;
    let mut other = b;
    while let [c, behind @ ..] = front {
        match other {
            [] => return Ordering::Greater,
            [d, rest @ ..] => {
                let order = cell_cmp(c, d);
                if order.is_ne() {
                    return order;
                }
                front = behind;
                other = rest;
            }
        }
    }
    if other.is_empty() {
        Ordering::Equal
    } else {
        Ordering::Less
    }
}

/// The number in a cell.
pub(crate) fn whole_in(cell: &Cell) -> Option<i128>
    ensures { result ≡ whole_in cell.now }
{
    match cell {
        Cell::Whole(n) => Some(*n),
        _ => None,
    }
}

pub(crate) fn number_cell(number: Option<i128>) -> Cell
    ensures { result ≡ number_cell number }
{
    match number {
        Some(n) => Cell::Whole(n),
        None => Cell::Null,
    }
}
