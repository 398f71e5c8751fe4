//! Rows in the order of a query.

ghost use Rattle.std.specs.Prelude.{◌≡◌, slice_index_or, OnOk};
ghost use Rattle.fb_types.specs.declared.cells.Cell.TheVariants.{Null};
ghost use Rattle.select_group.specs.Answer.{first_rows};
ghost use Rattle.select_group.specs.Rows.{cell_cmp};
ghost use Rattle.select_group.specs.Order.{comes_before, in_direction, row_cmp, sorted};

use crate::cells::cell_cmp;
use fb_types::Cell;
use query_grammar::OrderPlace;
use sqlite_items::Items;
use std::alloc::AllocError;
use std::cmp::Ordering;

/// The cell at a place, or the one that stands for it where there is none.
fn cell_at<'a>(cells: &'a [Cell], place: usize, none: &'a Cell) -> &'a Cell
    ensures { result.now ≡ slice_index_or cells.now place none.now }
{
    if place < cells.len() {
        &cells[place]
    } else {
        none
    }
}

/// By the cells at a place; a row that has none there counts as null.
fn place_cmp(a: &[Cell], b: &[Cell], place: usize) -> Ordering
    ensures { result ≡ cell_cmp (slice_index_or a.now place Null) (slice_index_or b.now place Null) }
{
    let null = Cell::Null;
    cell_cmp(cell_at(a, place, &null), cell_at(b, place, &null))
}

fn in_direction(down: bool, order: Ordering) -> Ordering
    ensures { result ≡ in_direction down order }
{
    if down { order.reverse() } else { order }
}

/// By the cells in the places of the order, the first two that differ decide.
fn row_cmp(order: &[OrderPlace], a: &[Cell], b: &[Cell]) -> Ordering
    ensures { result ≡ row_cmp order.now a.now b.now }
{
    for by in order {
        let found = in_direction(by.down, place_cmp(a, b, by.place));
        if found.is_ne() {
            return found;
        }
    }
    Ordering::Equal
}

/// Puts rows in order; those that tie stay in theirs.
pub(crate) fn sort_rows(order: &[OrderPlace], rows: &mut Vec<Items<Cell>>) -> Result<(), AllocError>
    ensures { OnOk result (rows.new.items ≡ sorted (comes_before order.now) rows.old.items) }
{
    rows.sort_by(
        |a: &Items<Cell>, b: &Items<Cell>| -> Ordering
            ensures { result ≡ row_cmp order.entry.now a.now b.now }
        { row_cmp(order, a.as_slice(), b.as_slice()) },
    )
}

/// Keeps the first rows.
pub(crate) fn keep_first(rows: &mut Vec<Items<Cell>>, limit: Option<u64>)
    ensures { rows.new.items ≡ first_rows limit rows.old.items }
{
    if let Some(limit) = limit {
        rows.truncate(limit as usize);
    }
}
