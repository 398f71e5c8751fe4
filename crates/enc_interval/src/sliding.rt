ghost use Rattle.std.specs.Prelude.{◌≡◌, ◌-◌, ◌+◌, ◌<◌, ◌≤◌, All, IfOk, length, map};
ghost use Rattle.std.specs.Int.{div_ceil};
ghost use Rattle.wah_logic.specs.Logic.{each_place, xor};
ghost use Rattle.index_spec.specs.Members.{from_to};
ghost use Rattle.binning.specs.Members.{AreBins};
ghost use Rattle.binning.specs.Encodings.{vectors};
ghost use Rattle.enc_interval.specs.Halves.{rows_from};
ghost use Rattle.wah_words.specs.Limits.{most_bits};

use binning::Bin;
use std::alloc::{AllocError, Global};
use std::sync::ledger::Ledger;
use steps::Steps;
use wah_logic::{Xor, combined, or_many};
use wah_words::Wah;

/// The union without the rows of the bin that leaves and with those of the bin that enters.
fn slid<L: Ledger>(
    alloc: Global,
    union: &Wah,
    leaves: &Bin,
    enters: &Bin,
    steps: &mut Steps<L>,
) -> Result<Wah, AllocError>
    requires same { length leaves.now.rows ≡ length union.now }
    requires long { length enters.now.rows ≡ length union.now }
    ensures values { IfOk result (λ v. v ≡ each_place xor union.now (each_place xor leaves.now.rows enters.now.rows)) }
    ensures length { IfOk result (λ v. length v ≡ length union.now) }
{
    // the two bins are small beside the union
    let change = combined::<Xor, L>(alloc, &leaves.rows, &enters.rows, steps)?;
    combined::<Xor, L>(alloc, union, &change, steps)
}

/// The union of each run of bins that is half of all, rounded up, each from the one before it.
pub(crate) fn sliding_unions<L: Ledger>(
    alloc: Global,
    bins: &[Bin],
    rows: u32,
    steps: &mut Steps<L>,
) -> Result<Vec<Wah>, AllocError>
    requires some { 0 < length bins.now }
    requires limit { rows ≤ most_bits }
    requires long { All (λ b. length b.rows ≡ rows) bins.now }
    ensures { IfOk result (λ v. AreBins rows (vectors bins.now) → v.items ≡ map (rows_from rows (div_ceil (length bins.now) 2) (vectors bins.now)) (from_to 0 (length bins.now - div_ceil (length bins.now) 2 + 1))) }
{
    let half = bins.len().div_ceil(2);
    let slides = bins.len() - half;
    let mut unions = Vec::with_capacity(alloc, slides + 1)?;
    unions.push(or_many(alloc, &bins[..half], rows, steps)?)?;
    for k in 0..slides {
        let next = slid(alloc, &unions[k], &bins[k], &bins[k + half], steps)?;
        unions.push(next)?;
    }
    Ok(unions)
}
