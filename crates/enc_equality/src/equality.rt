ghost use Rattle.std.specs.Prelude.{◌≡◌, ◌-◌, ◌*◌, ◌≤◌, ◌++◌, IfOk, OnOk, nat_le};
ghost use Rattle.index_spec.specs.Members.{from_to};
ghost use Rattle.binning.specs.Encodings.{vectors};

use binning::{Bin, EncFault, Encoding};
use std::alloc::{AllocError, Global};
use std::sync::ledger::Ledger;
use steps::Steps;
use wah_logic::{AndNot, combined, or_many};
use wah_words::Wah;

/// The equality encoding: one bitmap for each bin.
#[derive(Clone, Copy, Debug)]
pub struct Equality;

impl Encoding for Equality {
    ghost use Rattle.index_spec.specs.declared.spec.EncodingSpec.TheVariants as encodings;

    ghost encoding = { λ _. encodings.Equality };

    fn bitmaps<L: Ledger>(
        &self,
        alloc: Global,
        bins: &[Bin],
        rows: u32,
        steps: &mut Steps<L>,
    ) -> Result<Vec<Wah>, EncFault> {
        let _ = rows;
        Ok(copies(alloc, bins, steps)?)
    }

    fn needs(
        &self,
        alloc: Global,
        bins: u32,
        first: u32,
        end: u32,
    ) -> Result<Vec<u32>, AllocError> {
        let mut places = Vec::new(alloc);
        if is_short(bins, first, end) {
            append_places(&mut places, first, end)?;
        } else {
            append_places(&mut places, 0, first)?;
            append_places(&mut places, end, bins)?;
        }
        Ok(places)
    }

    fn eval<L: Ledger>(
        &self,
        alloc: Global,
        bins: u32,
        first: u32,
        end: u32,
        fetched: &[Wah],
        mask: &Wah,
        steps: &mut Steps<L>,
    ) -> Result<Wah, AllocError> {
        let union = or_many(alloc, fetched, mask.len(), steps)?;
        if is_short(bins, first, end) {
            return Ok(union);
        }
        combined::<AndNot, L>(alloc, mask, &union, steps)
    }
}

/// Appends the numbers of the bins from `first` to the one before `end`.
pub fn append_places(places: &mut Vec<u32>, first: u32, end: u32) -> Result<(), AllocError>
    requires { first ≤ end }
    ensures { OnOk result (places.new.items ≡ places.old.items ++ from_to first end) }
{
    for place in first..end {
        places.push(place)?;
    }
    Ok(())
}

/// Whether the run from `first` to `end` has at most half of the bins, so that its own bitmaps are read and not those of
/// the bins outside of it.
fn is_short(bins: u32, first: u32, end: u32) -> bool
    requires order { first ≤ end }
    requires within { end ≤ bins }
    ensures { result ≡ nat_le (2 * (end - first)) bins }
{
    end - first <= bins - (end - first)
}

/// The rows of each bin again.
fn copies<L: Ledger>(
    alloc: Global,
    bins: &[Bin],
    steps: &mut Steps<L>,
) -> Result<Vec<Wah>, AllocError>
    ensures { IfOk result (λ v. v.items ≡ vectors bins.now) }
{
    let mut copies = Vec::with_capacity(alloc, bins.len())?;
    for bin in bins {
        copies.push(bin.rows.copy(alloc, steps)?)?;
    }
    Ok(copies)
}
