//! Where the bitmaps of an index file stand.

ghost use Rattle.std.specs.Prelude.{◌≡◌, ◌+◌, ◌*◌, ◌^◌, ◌<◌, ◌≤◌, None, Some, IfErr, IfOk, IfSome, length};
ghost use Rattle.std.specs.List.{flat_map};
ghost use Rattle.index_file.specs.IndexFile.{places_bytes};
ghost use Rattle.index_file.specs.Opening.{IsAnswer, StopsParts, places_at, places_in};
ghost use Rattle.index_file.specs.Places.{first_close, first_wrong_place, last_from, places_from};

use crate::fault::IndexFault;
use sqlite_items::Items;
use std::alloc::{AllocError, Global};
use wah_words::Wah;

/// Where each bitmap begins, the first at a place, and where the last ends.
pub(crate) fn places_behind(
    alloc: Global,
    start: u64,
    bitmaps: &[Wah],
) -> Result<Vec<u64>, AllocError>
    requires start { start < 2 ^ 40 }
    requires few { length bitmaps.now < 2 ^ 32 }
    ensures { IfOk result (λ places. places.items ≡ places_from start bitmaps.now) }
{
    let mut places = Vec::with_capacity(alloc, bitmaps.len() + 1)?;
    let mut at = start;
    places.push(at)?;
    for bitmap in bitmaps {
        at += 8 + 4 * u64::from(bitmap.words());
        places.push(at)?;
    }
    Ok(places)
}

/// The places of so many bitmaps and of the end that the bytes spell, behind a head and in a file of these sizes.
pub(crate) fn offsets_of(
    alloc: Global,
    bytes: &[u8],
    bitmaps: u32,
    head: u64,
    size: u64,
) -> Result<Items<u64>, IndexFault>
    requires { length bytes.now ≡ 8 * (bitmaps + 1) }
    ensures exact { IsAnswer result (places_in head size bitmaps bytes.now) }
    ensures placed { IfOk result (λ places. first_wrong_place head size places ≡ None) }
    ensures spelled { IfOk result (λ places. places_bytes places ≡ bytes.now) }
    ensures len { IfOk result (λ places. length places ≡ bitmaps + 1) }
    ensures stop { IfErr result StopsParts }
{
    let Ok(places) = places_of(alloc, bytes, bitmaps) else {
        return Err(IndexFault::OutOfMemory);
    };
    match wrong_place(&places, head, size) {
        Some(k) => Err(IndexFault::Offsets(k)),
        None => Ok(Items::from_vec(places)),
    }
}

#[tactic(auto, unfolding(crate::specs::Opening::places_at))]
fn places_of(alloc: Global, bytes: &[u8], bitmaps: u32) -> Result<Vec<u64>, AllocError>
    requires { length bytes.now ≡ 8 * (bitmaps + 1) }
    ensures value { IfOk result (λ places. places.items ≡ places_at (bitmaps + 1) bytes.now) }
    ensures len { IfOk result (λ places. length places.items ≡ bitmaps + 1) }
{
    let (pieces, _) = bytes.as_chunks::<8>();
    let mut places = Vec::with_capacity(alloc, pieces.len())?;
    for piece in pieces {
        places.push(u64::from_le_bytes(*piece))?;
    }
    Ok(places)
}

/// The number of the first wrong place: the first isn't where the head ends, one isn't 8 or more past the one before it,
/// or the last isn't where the file ends.
fn wrong_place(places: &[u64], head: u64, size: u64) -> Option<u32>
    requires { length places.now ≤ 2 ^ 32 }
    ensures { result ≡ first_wrong_place head size places.now }
{
    let [first, later @ ..] = places else {
        return Some(0);
    };
    if *first != head {
        return Some(0);
    }
    match close(*first, later) {
        Some(k) => Some(k + 1),
        None if last(*first, later) == size => None,
        None => Some(later.len() as u32),
    }
}

/// The number of the first place that isn't 8 or more past the one before it.
fn close(before: u64, places: &[u64]) -> Option<u32>
    requires { length places.now < 2 ^ 32 }
    ensures value { result ≡ first_close before places.now }
    ensures within { IfSome result (λ k. k < length places.now) }
{
    let mut last = before;
    for (k, place) in places.iter().enumerate() {
        if *place < last || *place - last < 8 {
            return Some(k as u32);
        }
        last = *place;
    }
    None
}

fn last(first: u64, later: &[u64]) -> u64
    ensures { result ≡ last_from first later.now }
{
    if later.is_empty() {
        first
    } else {
        later[later.len() - 1]
    }
}
