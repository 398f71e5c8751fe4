//! The groups of a column's values, one for each key.
ghost use Rattle.std.specs.Prelude.{◌≡◌, ◌+◌, ◌<◌, ◌≤◌, ◌==◌, ◌∷◌, [], ◌++◌, if◌then◌else◌, Some, None, length, slice_index_or, slice_set, false, IfOk, OnOk, IfSome};
ghost use Rattle.std.specs.List.{AllByRecursion};
ghost use Rattle.wah_words.specs.Limits.{most_bits};
ghost use Rattle.binning.specs.Gathered.{AreDistinct, is_in, place_in, keys_in, Knows, with_value};
ghost use Rattle.binning.specs.Groups.{place_if, grown, pairs_from, ByKey};

use crate::key_places::KeyPlaces;
use std::alloc::{AllocError, Global};

/// The least and the greatest value of a key.
#[derive(Clone, Copy, Debug)]
pub struct Group {
    pub key: i128,
    pub least: i128,
    pub greatest: i128,
}

/// The place `last`, where it is that of the key's group.
#[inline(always)]
fn if_at(groups: &[Group], last: usize, key: i128) -> Option<u32>
    requires few { length groups.now ≤ most_bits }
    requires distinct { AreDistinct (keys_in groups.now) }
    ensures { IfSome result (λ place. Some place ≡ place_if key (keys_in groups.now)) }
{
    if last < groups.len() && groups[last].key == key {
        return Some(last as u32);
    }
    None
}

/// The place of a key's group. The group of the row before, at `last`, is looked at first, then the one that is
/// guessed.
#[inline(always)]
fn find(known: &mut KeyPlaces, groups: &[Group], last: u32, key: i128) -> Option<u32>
    requires knows { Knows known.old.map (keys_in groups.now) }
    requires few { length groups.now ≤ most_bits }
    requires distinct { AreDistinct (keys_in groups.now) }
    ensures place { result ≡ place_if key (keys_in groups.now) }
    ensures same { known.new.map ≡ known.old.map }
{
    if let Some(place) = if_at(groups, last as usize, key) {
        return Some(place);
    }
    if let Some(place) = if_at(groups, known.guess(key) as usize, key) {
        return Some(place);
    }
    known.place(key)
}

/// Adds a value to its group.
#[inline(always)]
fn grow(groups: &mut Vec<Group>, place: usize, v: i128)
    requires { place < length groups.old.items }
    ensures { groups.new.items ≡ grown groups.old.items place v }
{
    let group = &mut groups[place];
    group.least = group.least.min(v);
    group.greatest = group.greatest.max(v);
}

/// A new group for a new key, and its place.
fn add_group(
    known: &mut KeyPlaces,
    groups: &mut Vec<Group>,
    key: i128,
    v: i128,
) -> Result<u32, AllocError>
    requires knows { Knows known.old.map (keys_in groups.old.items) }
    requires few { length groups.old.items < most_bits }
    requires absent { is_in key (keys_in groups.old.items) ≡ false }
    ensures groups { OnOk result (groups.new.items ≡ with_value groups.old.items key v) }
    ensures place { IfOk result (λ place. place ≡ length groups.old.items) }
    ensures knows { OnOk result (Knows known.new.map (keys_in groups.new.items)) }
{
    let place = groups.len() as u32;
    known.map.insert(key, place)?;
    groups.push(Group {
        key,
        least: v,
        greatest: v,
    })?;
    Ok(place)
}

/// The place of a value's group, to which the value is added; a new group for a new key.
pub(crate) fn place(
    known: &mut KeyPlaces,
    groups: &mut Vec<Group>,
    last: u32,
    key: i128,
    v: i128,
) -> Result<u32, AllocError>
    requires knows { Knows known.old.map (keys_in groups.old.items) }
    requires few { length groups.old.items < most_bits }
    requires distinct { AreDistinct (keys_in groups.old.items) }
    ensures groups { OnOk result (groups.new.items ≡ with_value groups.old.items key v) }
    ensures place { IfOk result (λ place. place ≡ place_in key (keys_in groups.old.items)) }
    ensures knows { OnOk result (Knows known.new.map (keys_in groups.new.items)) }
{
    match find(known, groups, last, key) {
        Some(place) => {
            grow(groups, place as usize, v);
            Ok(place)
        }
        None => add_group(known, groups, key, v),
    }
}

/// A key and the place of its group.
#[derive(Clone, Copy, Debug)]
pub struct KeyPlace {
    pub key: i128,
    pub place: u32,
}

/// The groups' keys, each with its place.
fn key_places(alloc: Global, groups: &[Group]) -> Result<Vec<KeyPlace>, AllocError>
    requires few { length groups.now ≤ most_bits }
    ensures { IfOk result (λ pairs. pairs.items ≡ pairs_from 0 groups.now) }
{
    let mut pairs = Vec::with_capacity(alloc, groups.len())?;
    for (place, group) in groups.iter().enumerate() {
        pairs.push(KeyPlace {
            key: group.key,
            place: place as u32,
        })?;
    }
    Ok(pairs)
}

/// The groups' keys, each with its place, in rising order.
pub(crate) fn by_key(alloc: Global, groups: &[Group]) -> Result<Vec<KeyPlace>, AllocError>
    requires few { length groups.now ≤ most_bits }
    ensures { IfOk result (λ order. ByKey groups.now order.items) }
{
    let mut order = key_places(alloc, groups)?;
    order.sort_unstable_by_key(|pair| pair.key);
    Ok(order)
}
