//! Groups of neighbouring bins.
ghost use Rattle.std.specs.Prelude.{◌≡◌, ◌+◌, ◌-◌, ◌^◌, ◌<◌, ◌≤◌, All, IfOk, drop, length, min, take};
ghost use Rattle.wah_logic.specs.Logic.{union};
ghost use Rattle.std.specs.Int.{div_ceil};
ghost use Rattle.binning.specs.Members.{AreBins};
ghost use Rattle.binning.specs.Encodings.{vectors};
ghost use Rattle.enc_two_level.specs.Grouped.{group_rows};
ghost use Rattle.wah_words.specs.Limits.{most_bits};

use binning::Bin;
use std::alloc::{AllocError, Global};
use std::sync::ledger::Ledger;
use steps::Steps;
use wah_logic::or_many;

/// The whole groups that a run of bins has: `from` to `to - 1` of all groups, which are the bins `begin` to `after - 1`.
#[derive(Clone, Copy)]
pub(crate) struct Whole {
    pub(crate) groups: u32,
    pub(crate) from: u32,
    pub(crate) to: u32,
    pub(crate) begin: u32,
    pub(crate) after: u32,
}

impl Whole {
    ghost use Rattle.std.specs.Int.{div_ceil};
    ghost use Rattle.enc_two_level.specs.Whole.{IsWholeOf};

    /// Those of the run of bins `first` to `end - 1` of `bins`, in groups of `size`.
    pub(crate) fn of(bins: u32, size: u32, first: u32, end: u32) -> Option<Whole>
        requires some { 1 ≤ size }
        requires order { first < end }
        requires within { end ≤ bins }
        ensures { IsWholeOf bins size (div_ceil bins size) first end result }
    {
        let groups = bins.div_ceil(size);
        let from = first.div_ceil(size);
        let to = if end == bins { groups } else { end / size };
        if from >= to {
            return None;
        }
        Some(Whole {
            groups,
            from,
            to,
            begin: from * size,
            after: if end == bins { bins } else { to * size },
        })
    }
}

/// Where the group of `size` bins that begins at `begin` ends, among `bins` in all.
fn group_end(begin: usize, size: usize, bins: usize) -> usize
    requires some { 0 < size }
    requires below { begin < bins }
    ensures value { result ≡ min (begin + size) bins }
    ensures after { begin < result }
    ensures within { result ≤ bins }
{
    if bins - begin < size {
        bins
    } else {
        begin + size
    }
}

/// The bins from `begin` to the one before `end` as one.
fn joined<L: Ledger>(
    alloc: Global,
    bins: &[Bin],
    begin: usize,
    end: usize,
    rows: u32,
    steps: &mut Steps<L>,
) -> Result<Bin, AllocError>
    requires some { begin < end }
    requires within { end ≤ length bins.now }
    requires limit { rows ≤ most_bits }
    requires long { All (λ b. length b.rows ≡ rows) bins.now }
    ensures { IfOk result (λ b. b.rows ≡ union rows (vectors (take (end - begin) (drop begin bins.now)))) }
{
    let group = &bins[begin..end];
    Ok(Bin {
        least: bins[begin].least,
        greatest: bins[end - 1].greatest,
        rows: or_many(alloc, group, rows, steps)?,
    })
}

/// Each group of `size` bins as one bin.
#[tactic(auto, using(crate::proofs::NumbersLemmas::first_below))]
pub(crate) fn grouped<L: Ledger>(
    alloc: Global,
    bins: &[Bin],
    size: u32,
    rows: u32,
    steps: &mut Steps<L>,
) -> Result<Vec<Bin>, AllocError>
    requires some { 1 ≤ size }
    requires limit { rows ≤ most_bits }
    requires few { length bins.now < 2 ^ 32 }
    requires long { All (λ b. length b.rows ≡ rows) bins.now }
    ensures number { IfOk result (λ v. length v.items ≡ div_ceil (length bins.now) size) }
    ensures long { IfOk result (λ v. All (λ b. length b.rows ≡ rows) v.items) }
    ensures groups { IfOk result (λ v. AreBins rows (vectors bins.now) → vectors v.items ≡ group_rows rows size (vectors bins.now) (div_ceil (length bins.now) size)) }
{
    let size = size as usize;
    let count = bins.len().div_ceil(size);
    let mut groups = Vec::with_capacity(alloc, count)?;
    for t in 0..count {
        let begin = t * size;
        let end = group_end(begin, size, bins.len());
        let group = joined(alloc, bins, begin, end, rows, steps)?;
        groups.push(group)?;
    }
    Ok(groups)
}
