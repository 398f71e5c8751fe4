ghost use Rattle.std.specs.Prelude.{◌≡◌, ◌-◌, ◌<◌, [], All, IfOk, length, map, nat_le, slice_index_or};
ghost use Rattle.wah_logic.specs.Logic.{each_place, or};
ghost use Rattle.index_spec.specs.Members.{from_to};
ghost use Rattle.binning.specs.Members.{AreBins, union_of};
ghost use Rattle.binning.specs.Encodings.{vectors};

use binning::{Bin, EncFault, Encoding};
use std::alloc::{AllocError, Global};
use std::sync::ledger::Ledger;
use steps::Steps;
use wah_logic::{AndNot, Or, combined};
use wah_words::Wah;

/// The most bins that have bitmaps.
const MAX_BINS: usize = 1024;

/// The range encoding: one bitmap for each bin but the last, of that bin and all before it.
#[derive(Clone, Copy, Debug)]
pub struct RangeCode;

impl Encoding for RangeCode {
    ghost use Rattle.index_spec.specs.declared.spec.EncodingSpec.TheVariants.{Range};

    ghost encoding = { λ _. Range };

    fn bitmaps<L: Ledger>(
        &self,
        alloc: Global,
        bins: &[Bin],
        rows: u32,
        steps: &mut Steps<L>,
    ) -> Result<Vec<Wah>, EncFault> {
        if bins.len() > MAX_BINS {
            return Err(EncFault::TooManyBins {
                bins: bins.len() as u32,
                limit: MAX_BINS as u32,
            });
        }
        Ok(running_unions(alloc, bins, rows, steps)?)
    }

    fn needs(
        &self,
        alloc: Global,
        bins: u32,
        first: u32,
        end: u32,
    ) -> Result<Vec<u32>, AllocError> {
        let mut places = Vec::with_capacity(alloc, 2)?;
        if first > 0 {
            places.push(first - 1)?;
        }
        if end < bins {
            places.push(end - 1)?;
        }
        Ok(places)
    }

    fn eval<L: Ledger>(
        &self,
        alloc: Global,
        bins: u32,
        first: u32,
        end: u32,
        fetched: &[Wah],
        mask: &Wah,
        steps: &mut Steps<L>,
    ) -> Result<Wah, AllocError> {
        let _ = (bins, end);
        match fetched {
            [] => mask.copy(alloc, steps),
            [upto] if first == 0 => upto.copy(alloc, steps),
            [before] => combined::<AndNot, L>(alloc, mask, before, steps),
            [before, upto, ..] => combined::<AndNot, L>(alloc, upto, before, steps),
        }
    }
}

/// The union of the bins up to this one, after the unions up to each one before.
fn next_union<L: Ledger>(
    alloc: Global,
    before: &[Wah],
    bin: &Bin,
    steps: &mut Steps<L>,
) -> Result<Wah, AllocError>
    requires { All (λ v. length v ≡ length bin.now.rows) before.now }
    ensures length { IfOk result (λ v. length v ≡ length bin.now.rows) }
    ensures first { length before.now ≡ 0 → IfOk result (λ v. v ≡ bin.now.rows) }
    ensures more { 0 < length before.now → IfOk result (λ v. v ≡ each_place or (slice_index_or before.now (length before.now - 1) []) bin.now.rows) }
{
    match before {
        [] => bin.rows.copy(alloc, steps),
        [.., last] => combined::<Or, L>(alloc, last, &bin.rows, steps),
    }
}

/// The union of the bins up to each one but the last.
fn running_unions<L: Ledger>(
    alloc: Global,
    bins: &[Bin],
    rows: u32,
    steps: &mut Steps<L>,
) -> Result<Vec<Wah>, AllocError>
    requires { All (λ b. length b.rows ≡ rows) bins.now }
    ensures { IfOk result (λ v. AreBins rows (vectors bins.now) → v.items ≡ map (λ k. union_of rows (λ b. nat_le b k) (vectors bins.now)) (from_to 0 (length bins.now - 1))) }
{
    let count = bins.len().saturating_sub(1);
    let mut unions = Vec::with_capacity(alloc, count)?;
    for bin in &bins[..count] {
        let next = next_union(alloc, &unions, bin, steps)?;
        unions.push(next)?;
    }
    Ok(unions)
}
