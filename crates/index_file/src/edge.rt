//! The bins of an index by their ends.

ghost use Rattle.std.specs.Prelude.{◌≡◌, ◌+◌, ◌*◌, ◌^◌, ◌<◌, None, Some, IfErr, IfOk, IfSome, length};
ghost use Rattle.index_file.specs.IndexFile.{edges_bytes};
ghost use Rattle.index_file.specs.Opening.{IsAnswer, StopsParts, bins_in, edge_at, edges_at};
ghost use Rattle.index_file.specs.Order.{first_misplaced, first_out_of_order};

use crate::fault::IndexFault;
use sqlite_items::Items;
use std::alloc::{AllocError, Global};

/// The ends of a bin: its least and its greatest value.
#[derive(Clone, Copy, Debug, PartialEq, Eq)]
pub struct Edge {
    pub least: i128,
    pub greatest: i128,
}

/// So many bins that the bytes spell, which have to be in order.
pub(crate) fn bins_of(alloc: Global, bytes: &[u8], count: u32) -> Result<Items<Edge>, IndexFault>
    requires { length bytes.now ≡ 32 * count }
    ensures exact { IsAnswer result (bins_in count bytes.now) }
    ensures ordered { IfOk result (λ bins. first_out_of_order bins ≡ None) }
    ensures spelled { IfOk result (λ bins. edges_bytes bins ≡ bytes.now) }
    ensures len { IfOk result (λ bins. length bins ≡ count) }
    ensures stop { IfErr result StopsParts }
{
    let Ok(edges) = edges_of(alloc, bytes, count) else {
        return Err(IndexFault::OutOfMemory);
    };
    match out_of_order(&edges) {
        Some(k) => Err(IndexFault::Order(k)),
        None => Ok(Items::from_vec(edges)),
    }
}

/// The ends that the bytes spell.
#[tactic(auto, unfolding(crate::specs::Opening::edges_at))]
fn edges_of(alloc: Global, bytes: &[u8], count: u32) -> Result<Vec<Edge>, AllocError>
    requires { length bytes.now ≡ 32 * count }
    ensures value { IfOk result (λ edges. edges.items ≡ edges_at count bytes.now) }
    ensures len { IfOk result (λ edges. length edges.items ≡ count) }
{
    let (pieces, _) = bytes.as_chunks::<32>();
    let mut edges = Vec::with_capacity(alloc, pieces.len())?;
    for piece in pieces {
        edges.push(edge_of(piece))?;
    }
    Ok(edges)
}

#[tactic(auto, unfolding(crate::specs::Opening::end_at))]
fn edge_of(piece: &[u8; 32]) -> Edge
    ensures { result ≡ edge_at piece.now }
{
    let Some((least, rest)) = piece.split_first_chunk::<16>() else {
        unreachable!()
    };
    let Some((greatest, _)) = rest.split_first_chunk::<16>() else {
        unreachable!()
    };
    Edge {
        least: i128::from_le_bytes(*least),
        greatest: i128::from_le_bytes(*greatest),
    }
}

/// The number of the first bin whose least value is above its greatest, or not above the bin before it.
fn out_of_order(edges: &[Edge]) -> Option<u32>
    requires { length edges.now < 2 ^ 32 }
    ensures { result ≡ first_out_of_order edges.now }
{
    let [first, later @ ..] = edges else {
        return None;
    };
    if first.greatest < first.least {
        return Some(0);
    }
    match misplaced(first.greatest, later) {
        Some(k) => Some(k + 1),
        None => None,
    }
}

/// The same of bins behind one with this greatest value.
fn misplaced(before: i128, edges: &[Edge]) -> Option<u32>
    requires { length edges.now < 2 ^ 32 }
    ensures value { result ≡ first_misplaced before edges.now }
    ensures within { IfSome result (λ k. k < length edges.now) }
{
    let mut last = before;
    for (k, edge) in edges.iter().enumerate() {
        if edge.greatest < edge.least || edge.least <= last {
            return Some(k as u32);
        }
        last = edge.greatest;
    }
    None
}
