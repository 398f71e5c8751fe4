//! Rows that are put into groups as they come.
ghost use Rattle.std.specs.Prelude.{◌≡◌, ℤ, ◌+◌, ◌<◌, ◌≤◌, List, Option, Some, None, [], ◌∷◌, ◌++◌, if◌then◌else◌, length, map, IfOk, IfSome, OnOk};
ghost use Rattle.std.specs.List.{AllByRecursion, range_with_len};
ghost use Rattle.wah_words.specs.Limits.{most_bits};
ghost use Rattle.binning.specs.Spans.{IsInRange};
ghost use Rattle.binning.specs.Bins.{cells, bins_of};
ghost use Rattle.binning.specs.Gathered.{Gathered, Knows, AreDistinct, keys_in, place_of, groups_after, held};
ghost use Rattle.binning.specs.Groups.{rows_at};
ghost use Rattle.binning.specs.BinFor.{bin_for};
ghost use Rattle.binning.specs.declared.rules.Keying.{Keying};

use crate::groups::{Group, KeyPlace, by_key, place};
use crate::key_places::{KeyPlaces, NO_PLACE};
use crate::place_rows::{PlaceRows, rows_by_place};
use crate::rules::Rule;
use std::alloc::{AllocError, Global};
use std::marker::Model;
use wah_iter::from_rows;
use wah_words::Wah;

/// The values with one key: the least and the greatest of them, and their rows.
#[derive(Drop)]
pub struct Bin {
    pub least: i128,
    pub greatest: i128,
    pub rows: Wah,
}

/// The rows of a column so far, put into groups by a rule. Contracts see the rule, the groups, and the place of each
/// row's group.
#[derive(Drop)]
pub struct Grouped {
    alloc: Global,
    rule: Rule,
    known: KeyPlaces,
    groups: Vec<Group>,
    places: Vec<u32>,
}

impl Model for Grouped {
    ghost use Rattle.std.specs.Prelude.{◌≤◌, length};
    ghost use Rattle.wah_words.specs.Limits.{most_bits};
    ghost use Rattle.binning.specs.Gathered.{Held, Knows, keys_in, AreDistinct};

    ghost Value = { Held };

    ghost view = { λ g. record { rule = g.rule; groups = g.groups.items; places = g.places.items } };

    ghost invariant = { λ g. Knows g.known.map (keys_in g.groups.items) × AreDistinct (keys_in g.groups.items) × (length g.groups.items ≤ length g.places.items) × (length g.places.items ≤ most_bits) };
}

/// The value of a row, where there is one.
#[inline(always)]
pub(crate) fn cell(is_there: bool, v: i128) -> Option<i128>
    ensures { result ≡ (if is_there then Some v else None) }
{
    if is_there { Some(v) } else { None }
}

/// Adds a row, and tells its place. The group at `last` is looked at first.
#[inline(always)]
fn put_row(
    known: &mut KeyPlaces,
    groups: &mut Vec<Group>,
    places: &mut Vec<u32>,
    rule: &Rule,
    last: u32,
    cell: Option<i128>,
) -> Result<u32, AllocError>
    requires within { IfSome cell IsInRange }
    requires knows { Knows known.old.map (keys_in groups.old.items) }
    requires distinct { AreDistinct (keys_in groups.old.items) }
    requires few { length groups.old.items < most_bits }
    ensures groups { OnOk result (groups.new.items ≡ groups_after rule.now groups.old.items cell) }
    ensures places { OnOk result (places.new.items ≡ places.old.items ++ place_of rule.now (keys_in groups.old.items) cell ∷ []) }
    ensures knows { OnOk result (Knows known.new.map (keys_in groups.new.items)) }
{
    let Some(v) = cell else {
        places.push(NO_PLACE)?;
        return Ok(NO_PLACE);
    };
    let at_place = place(known, groups, last, rule.key(v), v)?;
    places.push(at_place)?;
    Ok(at_place)
}

/// Adds rows, of which some are there.
fn put_rows(
    known: &mut KeyPlaces,
    groups: &mut Vec<Group>,
    places: &mut Vec<u32>,
    rule: &Rule,
    is_there: &[bool],
    values: &[i128],
) -> Result<(), AllocError>
    requires same { length is_there.now ≡ length values.now }
    requires within { AllByRecursion IsInRange values.now }
    requires knows { Knows known.old.map (keys_in groups.old.items) }
    requires distinct { AreDistinct (keys_in groups.old.items) }
    requires few { length groups.old.items ≤ length places.old.items }
    requires room { length places.old.items + length values.now ≤ most_bits }
    ensures knows { OnOk result (Knows known.new.map (keys_in groups.new.items)) }
    ensures distinct { OnOk result (AreDistinct (keys_in groups.new.items)) }
    ensures few { OnOk result (length groups.new.items ≤ length places.new.items) }
    ensures rows { OnOk result (length places.new.items ≡ length places.old.items + length values.now) }
    ensures gathered { OnOk result ((column : List (Option ℤ)) → Gathered (held rule.now groups.old.items places.old.items) column → Gathered (held rule.now groups.new.items places.new.items) (column ++ cells is_there.now values.now)) }
{
    let mut last = NO_PLACE;
    for (row, v) in values.iter().enumerate() {
        let cell = cell(is_there[row], *v);
        last = put_row(known, groups, places, rule, last, cell)?;
    }
    Ok(())
}

impl Grouped {
    /// No row yet.
    pub(crate) fn make(alloc: Global, rule: Rule) -> Grouped
        ensures rule { result.rule ≡ rule }
        ensures rows { length result.places ≡ 0 }
        ensures gathered { Gathered result [] }
    {
        Grouped {
            alloc,
            rule,
            known: KeyPlaces::new(alloc),
            groups: Vec::new(alloc),
            places: Vec::new(alloc),
        }
    }

    /// Further rows, of which some are there.
    pub(crate) fn put(self, is_there: &[bool], values: &[i128]) -> Result<Grouped, AllocError>
        requires same { length is_there.now ≡ length values.now }
        requires within { AllByRecursion IsInRange values.now }
        requires room { length self.places + length values.now ≤ most_bits }
        ensures rule { IfOk result (λ all. all.rule ≡ self.rule) }
        ensures rows { IfOk result (λ all. length all.places ≡ length self.places + length values.now) }
        ensures gathered { IfOk result (λ all. (column : List (Option ℤ)) → Gathered self column → Gathered all (column ++ cells is_there.now values.now)) }
    {
        let Grouped {
            alloc,
            rule,
            mut known,
            mut groups,
            mut places,
        } = self;
        known.make_room(values.len())?;
        put_rows(
            &mut known,
            &mut groups,
            &mut places,
            &rule,
            is_there,
            values,
        )?;
        Ok(Grouped {
            alloc,
            rule,
            known,
            groups,
            places,
        })
    }

    /// The bins of all rows: one for each key, in rising order of key.
    pub(crate) fn finish(&self) -> Result<Vec<Bin>, AllocError>
        ensures { IfOk result (λ bins. (column : List (Option ℤ)) → Gathered self.now column → bins.items ≡ bins_of self.now.rule column) }
    {
        let bins = bins_of_groups(self.alloc, &self.groups, &self.places)?;
        Ok(bins)
    }
}

/// The bin of a group, whose rows are these.
fn bin_at(
    alloc: Global,
    groups: &[Group],
    rows: &PlaceRows,
    places: &[u32],
    place: u32,
) -> Result<Bin, AllocError>
    requires within { place < length groups.now }
    requires rows { rows.now ≡ map (rows_at places.now) (range_with_len 0 (length groups.now)) }
    requires limit { length places.now ≤ most_bits }
    ensures { IfOk result (λ bin. bin ≡ bin_for groups.now places.now place) }
{
    let group = groups[place as usize];
    let at_place = rows.at(place);
    Ok(Bin {
        least: group.least,
        greatest: group.greatest,
        rows: from_rows(alloc, at_place, places.len() as u32)?,
    })
}

/// The bins of the groups, in the order of the pairs.
fn bins_in_order(
    alloc: Global,
    order: &[KeyPlace],
    groups: &[Group],
    rows: &PlaceRows,
    places: &[u32],
) -> Result<Vec<Bin>, AllocError>
    requires within { AllByRecursion (λ pair. pair.place < length groups.now) order.now }
    requires rows { rows.now ≡ map (rows_at places.now) (range_with_len 0 (length groups.now)) }
    requires limit { length places.now ≤ most_bits }
    ensures { IfOk result (λ bins. bins.items ≡ map (λ pair. bin_for groups.now places.now pair.place) order.now) }
{
    let mut bins = Vec::with_capacity(alloc, order.len())?;
    for pair in order {
        bins.push(bin_at(alloc, groups, rows, places, pair.place)?)?;
    }
    Ok(bins)
}

/// The bins of groups, where these are the rows' places.
fn bins_of_groups(alloc: Global, groups: &[Group], places: &[u32]) -> Result<Vec<Bin>, AllocError>
    requires few { length groups.now ≤ most_bits }
    requires limit { length places.now ≤ most_bits }
    ensures { IfOk result (λ bins. (rule : Keying) (column : List (Option ℤ)) → Gathered (held rule groups.now places.now) column → bins.items ≡ bins_of rule column) }
{
    let rows = rows_by_place(alloc, places, groups.len())?;
    let order = by_key(alloc, groups)?;
    let bins = bins_in_order(alloc, &order, groups, &rows, places)?;
    Ok(bins)
}
