//! The totals of a group, one for each item.

ghost use Rattle.std.specs.Prelude.{◌≡◌, ◌<◌, ◌^◌, ◌+ℤ◌, if◌then◌else◌, length, slice_index_or, slice_set, None, IfOk, IfSome, OnOk};
ghost use Rattle.std.specs.Int.{int_max, int_min};
ghost use Rattle.std.specs.List.{AllByRecursion};
ghost use Rattle.fb_types.specs.Slots.{whole_in};
ghost use Rattle.query_grammar.specs.Picks.{is_total};
ghost use Rattle.select_group.specs.Answer.{key_of};
ghost use Rattle.select_group.specs.Gathered.{IsSmall};
ghost use Rattle.select_group.specs.Totals.{IsTotalWithin, IsWithin, both, counted, row_of_totals, total_with, totals_with, numbers_of, first_totals};

use crate::cells::{number_cell, whole_in};
use crate::keys::GroupKey;
use fb_types::Cell;
use query_grammar::PickItem;
use sqlite_items::Items;
use std::alloc::{AllocError, Global};

/// The totals of a group, one for each item; None where there is none.
pub(crate) type Totals = Items<Option<i128>>;

/// Whether the item is over a group.
fn is_total(item: PickItem) -> bool
    ensures { result ≡ is_total item }
{
    match item {
        PickItem::Plain(_) => false,
        PickItem::CountAll => true,
        PickItem::Least(_) => true,
        PickItem::Greatest(_) => true,
        PickItem::Sum(_) => true,
    }
}

/// One record more. Fewer than 2^32 have been counted.
fn counted(total: Option<i128>) -> Option<i128>
    requires { IfSome total (IsWithin (2 ^ 32)) }
    ensures { result ≡ counted total }
{
    match total {
        None => Some(1),
        Some(n) => Some(n + 1),
    }
}

fn least(total: Option<i128>, number: Option<i128>) -> Option<i128>
    ensures { result ≡ both int_min total number }
{
    match (total, number) {
        (None, number) => number,
        (Some(n), None) => Some(n),
        (Some(n), Some(m)) => Some(n.min(m)),
    }
}

fn greatest(total: Option<i128>, number: Option<i128>) -> Option<i128>
    ensures { result ≡ both int_max total number }
{
    match (total, number) {
        (None, number) => number,
        (Some(n), None) => Some(n),
        (Some(n), Some(m)) => Some(n.max(m)),
    }
}

/// The sum of a total of fewer than 2^32 records and a number.
fn summed(total: Option<i128>, number: Option<i128>) -> Option<i128>
    requires total { IfSome total (IsWithin (2 ^ 32)) }
    requires number { IfSome number IsSmall }
    ensures { result ≡ both (λ a b. a +ℤ b) total number }
{
    match (total, number) {
        (None, number) => number,
        (Some(n), None) => Some(n),
        (Some(n), Some(m)) => Some(n + m),
    }
}

/// A total with the number of one more record; None before the first. Fewer than 2^32 records are in it.
fn total_with(item: PickItem, total: Option<i128>, number: Option<i128>) -> Option<i128>
    requires total { IfSome total (IsWithin (2 ^ 32)) }
    requires number { IfSome number IsSmall }
    ensures { result ≡ total_with item total number }
{
    match item {
        PickItem::Plain(_) => None,
        PickItem::CountAll => counted(total),
        PickItem::Least(_) => least(total, number),
        PickItem::Greatest(_) => greatest(total, number),
        PickItem::Sum(_) => summed(total, number),
    }
}

/// The totals with the numbers of one more record.
pub(crate) fn add_numbers(items: &[PickItem], totals: &mut Totals, numbers: &[Option<i128>])
    requires totals { length totals.old ≡ length items.now }
    requires numbers { length numbers.now ≡ length items.now }
    requires within { AllByRecursion (IsTotalWithin (2 ^ 32)) totals.old }
    requires small { AllByRecursion (λ n. IfSome n IsSmall) numbers.now }
    ensures { totals.new ≡ totals_with items.now totals.old numbers.now }
{
    for (place, item) in items.iter().enumerate() {
        let total = totals.as_slice()[place];
        totals.set(place, total_with(*item, total, numbers[place]));
    }
}

/// The totals of a group's first record, from its numbers.
pub(crate) fn first_totals(
    alloc: Global,
    items: &[PickItem],
    numbers: &[Option<i128>],
) -> Result<Totals, AllocError>
    requires numbers { length numbers.now ≡ length items.now }
    requires small { AllByRecursion (λ n. IfSome n IsSmall) numbers.now }
    ensures { IfOk result (λ totals. totals ≡ first_totals items.now numbers.now) }
{
    let mut totals = Vec::with_capacity(alloc, items.len())?;
    for (place, item) in items.iter().enumerate() {
        totals.push(total_with(*item, None, numbers[place]))?;
    }
    Ok(Items::from_vec(totals))
}

/// The number of a cell in the place of an item that is over a group.
fn number_of(item: PickItem, cell: &Cell) -> Option<i128>
    ensures { result ≡ (if is_total item then whole_in cell.now else None) }
{
    if is_total(item) { whole_in(cell) } else { None }
}

/// Puts the numbers of a record into `numbers`, in the places of the items that are over a group.
pub(crate) fn take_numbers(
    items: &[PickItem],
    cells: &[Cell],
    numbers: &mut Vec<Option<i128>>,
) -> Result<(), AllocError>
    requires { length cells.now ≡ length items.now }
    ensures { OnOk result (numbers.new.items ≡ numbers_of items.now cells.now) }
{
    numbers.clear();
    for (place, item) in items.iter().enumerate() {
        numbers.push(number_of(*item, &cells[place]))?;
    }
    Ok(())
}

/// Puts a cell into the place of an item that is over a group; that of a plain item stays.
fn set_total(item: PickItem, cells: &mut Items<Cell>, place: usize, cell: Cell)
    requires { place < length cells.old }
    ensures { cells.new ≡ slice_set cells.old place (if is_total item then cell else slice_index_or cells.old place Cell.Null) }
{
    if is_total(item) {
        cells.set(place, cell);
    }
}

/// The key of the group that a record is of.
pub(crate) fn key_of(items: &[PickItem], cells: Items<Cell>) -> GroupKey
    requires { length cells ≡ length items.now }
    ensures { result ≡ key_of items.now cells }
{
    let mut cells = cells;
    for (place, item) in items.iter().enumerate() {
        set_total(*item, &mut cells, place, Cell::Null);
    }
    GroupKey::from_cells(cells)
}

/// The row of a group.
pub(crate) fn row_of_totals(
    items: &[PickItem],
    key: GroupKey,
    totals: &[Option<i128>],
) -> Items<Cell>
    requires key { length key ≡ length items.now }
    requires totals { length totals.now ≡ length items.now }
    ensures { result ≡ row_of_totals items.now key totals.now }
{
    let mut cells = key.into_cells();
    for (place, item) in items.iter().enumerate() {
        set_total(*item, &mut cells, place, number_cell(totals[place]));
    }
    cells
}
