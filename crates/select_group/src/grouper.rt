//! Records gathered into the rows of an answer.

ghost use Rattle.std.specs.Prelude.{◌≡◌, ◌+◌, ◌<◌, ◌^◌, ◌++◌, ◌∷◌, [], List, length, IfOk, IfSome, OnOk, OnErr};
ghost use Rattle.std.specs.List.{AllByRecursion};
ghost use Rattle.fb_types.specs.declared.cells.Cell.{Cell};
ghost use Rattle.select_group.specs.Answer.{answer_of, groups_of};
ghost use Rattle.select_group.specs.Gathered.{AreGroupsOf, CanBeAdded, Gathered, IsSmall, SameTotals};
ghost use Rattle.select_group.specs.Totals.{AllFit, GrowsAt, HasOneEach, OneMore, rows_of};

use crate::keys::GroupKey;
use crate::ordering::{keep_first, sort_rows};
use crate::totals::{Totals, add_numbers, first_totals, key_of, row_of_totals, take_numbers};
use fb_types::Cell;
use indexmap::IndexMap;
use query_grammar::{Pick, PickItem};
use sqlite_items::Items;
use std::alloc::{AllocError, Global};
use std::marker::Model;

/// Records so far, as rows or as the totals of groups. Contracts see the selection, the number of records, the rows and
/// the groups.
#[derive(Drop)]
pub struct Grouper {
    alloc: Global,
    pick: Pick,
    added: u64,
    rows: Vec<Items<Cell>>,
    groups: IndexMap<GroupKey, Totals>,
    /// Those of the record that is added, kept for their room.
    numbers: Vec<Option<i128>>,
}

impl Model for Grouper {
    ghost use Rattle.std.specs.Prelude.{◌≤◌, ◌^◌};
    ghost use Rattle.select_group.specs.Gathered.{Held};
    ghost use Rattle.select_group.specs.Totals.{AllFit};

    ghost Value = { Held };

    ghost view = { λ g. record { pick = g.pick; added = g.added; rows = g.rows.items; groups = g.groups.entries } };

    ghost invariant = { λ g. AllFit g.pick.items g.added g.groups.entries × (g.added ≤ 2 ^ 32) };
}

/// Adds numbers to the totals of the group with this key. A refused call leaves the groups as they were.
fn put_numbers(
    alloc: Global,
    groups: &mut IndexMap<GroupKey, Totals>,
    items: &[PickItem],
    key: GroupKey,
    numbers: &[Option<i128>],
) -> Result<(), AllocError>
    requires numbers { length numbers.now ≡ length items.now }
    requires small { AllByRecursion (λ n. IfSome n IsSmall) numbers.now }
    requires fits { AllFit items.now (2 ^ 32) groups.old.entries }
    ensures grown { OnOk result (GrowsAt items.now key numbers.now groups.old.entries groups.new.entries) }
    ensures kept { OnErr result (SameTotals groups.old.entries groups.new.entries) }
{
    if let Some(totals) = groups.get_mut(&key) {
        add_numbers(items, totals, numbers);
        return Ok(());
    }
    groups.insert(key, first_totals(alloc, items, numbers)?)?;
    Ok(())
}

/// Adds a record to its group. A refused call leaves the groups as they were.
fn add_to_group(
    alloc: Global,
    groups: &mut IndexMap<GroupKey, Totals>,
    numbers: &mut Vec<Option<i128>>,
    items: &[PickItem],
    cells: Vec<Cell>,
) -> Result<(), AllocError>
    requires can { CanBeAdded items.now cells.items }
    requires fits { AllFit items.now (2 ^ 32) groups.old.entries }
    ensures grown { OnOk result (OneMore items.now cells.items groups.old.entries groups.new.entries) }
    ensures kept { OnErr result (SameTotals groups.old.entries groups.new.entries) }
{
    take_numbers(items, &cells, numbers)?;
    let key = key_of(items, Items::from_vec(cells));
    put_numbers(alloc, groups, items, key, numbers.as_slice())
}

/// The rows of groups, in their order.
fn rows_of(
    alloc: Global,
    groups: IndexMap<GroupKey, Totals>,
    items: &[PickItem],
) -> Result<Vec<Items<Cell>>, AllocError>
    requires { AllByRecursion (HasOneEach items.now) groups.entries }
    ensures { IfOk result (λ rows. rows.items ≡ rows_of items.now groups.entries) }
{
    let mut rows = Vec::with_capacity(alloc, groups.len())?;
    for (key, totals) in groups {
        let row = row_of_totals(items, key, totals.as_slice());
        rows.push(row)?;
    }
    Ok(rows)
}

/// The rows of groups, in rising order of key.
fn group_rows(
    alloc: Global,
    groups: IndexMap<GroupKey, Totals>,
    items: &[PickItem],
) -> Result<Vec<Items<Cell>>, AllocError>
    requires fits { AllFit items.now (2 ^ 32) groups.entries }
    ensures { IfOk result (λ rows. (records : List (List Cell)) → AreGroupsOf items.now groups.entries records → rows.items ≡ groups_of items.now records) }
{
    let mut groups = groups;
    groups.sort_unstable_keys()?;
    rows_of(alloc, groups, items)
}

impl Grouper {
    /// No record yet.
    pub fn make(alloc: Global, pick: Pick) -> Grouper
        ensures pick { result.pick ≡ pick }
        ensures added { result.added ≡ 0 }
        ensures gathered { Gathered result [] }
    {
        Grouper {
            alloc,
            pick,
            added: 0,
            rows: Vec::new(alloc),
            groups: IndexMap::new(alloc),
            numbers: Vec::new(alloc),
        }
    }

    /// Adds a record: one cell for each item, that of the item's column, and null for `count(*)`. There may be 2^32
    /// records in all. A refused call leaves the grouper as it was.
    pub fn add(&mut self, cells: Vec<Cell>) -> Result<(), AllocError>
        requires can { CanBeAdded self.old.pick.items cells.items }
        requires few { self.old.added < 2 ^ 32 }
        ensures pick { self.new.pick ≡ self.old.pick }
        ensures added { OnOk result (self.new.added ≡ self.old.added + 1) }
        ensures gathered { OnOk result ((rows : List (List Cell)) → Gathered self.old rows → Gathered self.new (rows ++ cells.items ∷ [])) }
        ensures refused { OnErr result ((rows : List (List Cell)) → Gathered self.old rows → Gathered self.new rows) }
        ensures as_many { OnErr result (self.new.added ≡ self.old.added) }
    {
        if self.pick.grouped {
            let alloc = self.alloc;
            let items = self.pick.items.as_slice();
            add_to_group(alloc, &mut self.groups, &mut self.numbers, items, cells)?;
            self.added += 1;
            return Ok(());
        }
        self.rows.push(Items::from_vec(cells))?;
        self.added += 1;
        Ok(())
    }

    /// The rows of the answer over all records.
    pub fn finish(self) -> Result<Vec<Items<Cell>>, AllocError>
        ensures { IfOk result (λ answer. (rows : List (List Cell)) → Gathered self rows → answer.items ≡ answer_of self.pick rows) }
    {
        let Grouper {
            alloc,
            pick,
            added: _,
            rows,
            groups,
            numbers: _,
        } = self;
        let mut rows = if pick.grouped {
            group_rows(alloc, groups, pick.items.as_slice())?
        } else {
            rows
        };
        sort_rows(pick.order.as_slice(), &mut rows)?;
        keep_first(&mut rows, pick.limit);
        Ok(rows)
    }
}
