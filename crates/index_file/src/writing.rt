//! Index files written.

ghost use Rattle.std.specs.Prelude.{◌≡◌, ◌+◌, ◌-◌, ◌<◌, ◌≤◌, ◌^◌, ◌++◌, IfErr, IfOk, IsErrOf, OnOk, length, sum_by};
ghost use Rattle.std.specs.List.{flat_map};
ghost use Rattle.fb_outside.specs.Causes.{HasCause};
ghost use Rattle.fb_outside.specs.Files.{PutLeaves, Puts, SameFiles};
ghost use Rattle.wah_words.specs.Bytes.{spelling};
ghost use Rattle.wah_words.specs.Spelling.{words_of};
ghost use Rattle.index_file.specs.Fetching.{StopsWriting};
ghost use Rattle.index_file.specs.IndexFile.{IsIndex, edge_bytes, edges_bytes, front_bytes, head_bytes, index_bytes, places_bytes};

use crate::edge::Edge;
use crate::fault::IndexFault;
use crate::front::{Front, VERSION};
use crate::numbers::{push_i128, push_u32, push_u64};
use crate::places::places_behind;
use fb_outside::{FileName, Store, Trouble};
use index_spec::{Spec, print_spec};
use std::alloc::{AllocError, Global};
use std::sync::ledger::Ledger;
use steps::Steps;
use wah_words::Wah;

/// Writes the index file of a column with so many rows: its specification, its bins in order and the bitmaps that its
/// encoding has of them.
pub fn write_index<S: Store, L: Ledger>(
    alloc: Global,
    store: &mut S,
    name: &FileName,
    rows: u32,
    spec: &Spec,
    bins: &[Edge],
    bitmaps: &[Wah],
    steps: &mut Steps<L>,
) -> Result<(), IndexFault>
    requires { IsIndex rows spec.now bins.now bitmaps.now }
    ensures cause { HasCause (S.faults store.old) (S.faults store.new) (IsErrOf result IndexFault.Store) }
    ensures ok { OnOk result (Puts (S.files store.old) (S.files store.new) name.now (index_bytes rows spec.now bins.now bitmaps.now)) }
    ensures store { IsErrOf result IndexFault.Store → PutLeaves name.now (index_bytes rows spec.now bins.now bitmaps.now) (S.files store.old) (S.files store.new) }
    ensures memory { IsErrOf result IndexFault.OutOfMemory → SameFiles (S.files store.old) (S.files store.new) }
    ensures stop { IfErr result StopsWriting }
    ensures reads { S.reads store.new ≡ S.reads store.old }
    ensures steps { OnOk result (steps.new ≡ steps.old + sum_by words_of bitmaps.now) }
    ensures few { steps.new ≤ steps.old + sum_by words_of bitmaps.now }
{
    let Ok(bytes) = bytes_of(alloc, rows, spec, bins, bitmaps, steps) else {
        return Err(IndexFault::OutOfMemory);
    };
    match store.put(name.as_str(), &bytes) {
        Ok(()) => Ok(()),
        Err(Trouble::Failed) => Err(IndexFault::Store),
        Err(Trouble::OutOfMemory) => Err(IndexFault::OutOfMemory),
    }
}

/// The bytes of an index file.
#[tactic(auto, unfolding(crate::specs::IndexFile::index_bytes))]
fn bytes_of<L: Ledger>(
    alloc: Global,
    rows: u32,
    spec: &Spec,
    bins: &[Edge],
    bitmaps: &[Wah],
    steps: &mut Steps<L>,
) -> Result<Vec<u8>, AllocError>
    requires { IsIndex rows spec.now bins.now bitmaps.now }
    ensures bytes { IfOk result (λ bytes. bytes.items ≡ index_bytes rows spec.now bins.now bitmaps.now) }
    ensures steps { OnOk result (steps.new ≡ steps.old + sum_by words_of bitmaps.now) }
    ensures few { steps.new ≤ steps.old + sum_by words_of bitmaps.now }
{
    let text = print_spec(alloc, spec)?;
    let front = Front {
        bins: bins.len() as u32,
        bitmaps: bitmaps.len() as u32,
        text: text.len() as u32,
    };
    let places = places_behind(alloc, front.size(), bitmaps)?;
    let mut bytes = head_of(alloc, rows, front, &text, bins, &places)?;
    push_bitmaps(alloc, &mut bytes, bitmaps, steps)?;
    Ok(bytes)
}

/// The bytes of the head, with room for the bitmaps behind it.
#[tactic(auto, unfolding(crate::specs::IndexFile::head_bytes, crate::specs::IndexFile::parts_bytes))]
fn head_of(
    alloc: Global,
    rows: u32,
    front: Front,
    text: &[u8],
    bins: &[Edge],
    places: &[u64],
) -> Result<Vec<u8>, AllocError>
    requires bins { length bins.now ≡ front.bins }
    requires bitmaps { length places.now ≡ front.bitmaps + 1 }
    requires text { length text.now ≡ front.text }
    ensures { IfOk result (λ bytes. bytes.items ≡ head_bytes rows text.now bins.now places.now) }
{
    let size = places[places.len() - 1];
    let mut bytes = Vec::with_capacity(alloc, size as usize)?;
    push_front(&mut bytes, rows, front)?;
    bytes.extend_from_slice(text)?;
    push_edges(&mut bytes, bins)?;
    push_places(&mut bytes, places)?;
    Ok(bytes)
}

fn push_front(bytes: &mut Vec<u8>, rows: u32, front: Front) -> Result<(), AllocError>
    ensures { OnOk result (bytes.new.items ≡ bytes.old.items ++ front_bytes rows front.bins front.bitmaps front.text) }
{
    bytes.extend_from_slice(b"FBIX")?;
    push_u32(bytes, VERSION)?;
    push_u32(bytes, rows)?;
    push_u32(bytes, front.bins)?;
    push_u32(bytes, front.bitmaps)?;
    push_u32(bytes, front.text)?;
    Ok(())
}

#[tactic(auto, unfolding(crate::specs::IndexFile::edges_bytes))]
fn push_edges(bytes: &mut Vec<u8>, edges: &[Edge]) -> Result<(), AllocError>
    ensures { OnOk result (bytes.new.items ≡ bytes.old.items ++ edges_bytes edges.now) }
{
    for edge in edges {
        push_edge(bytes, *edge)?;
    }
    Ok(())
}

fn push_edge(bytes: &mut Vec<u8>, edge: Edge) -> Result<(), AllocError>
    ensures { OnOk result (bytes.new.items ≡ bytes.old.items ++ edge_bytes edge) }
{
    push_i128(bytes, edge.least)?;
    push_i128(bytes, edge.greatest)?;
    Ok(())
}

#[tactic(auto, unfolding(crate::specs::IndexFile::places_bytes))]
fn push_places(bytes: &mut Vec<u8>, places: &[u64]) -> Result<(), AllocError>
    ensures { OnOk result (bytes.new.items ≡ bytes.old.items ++ places_bytes places.now) }
{
    for place in places {
        push_u64(bytes, *place)?;
    }
    Ok(())
}

/// Spells the vectors, one after another.
#[tactic(auto, using(crate::proofs::PlacesLemmas::words_taken))]
fn push_bitmaps<L: Ledger>(
    alloc: Global,
    bytes: &mut Vec<u8>,
    bitmaps: &[Wah],
    steps: &mut Steps<L>,
) -> Result<(), AllocError>
    ensures bytes { OnOk result (bytes.new.items ≡ bytes.old.items ++ flat_map spelling bitmaps.now) }
    ensures steps { OnOk result (steps.new ≡ steps.old + sum_by words_of bitmaps.now) }
    ensures few { steps.new ≤ steps.old + sum_by words_of bitmaps.now }
{
    for bitmap in bitmaps {
        let words = bitmap.to_bytes(alloc, steps)?;
        bytes.extend_from_slice(&words)?;
    }
    Ok(())
}
