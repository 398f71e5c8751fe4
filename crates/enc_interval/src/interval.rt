ghost use Rattle.std.specs.Prelude.{◌<◌, ◌≤◌};
ghost use Rattle.std.specs.Int.{div_ceil};
ghost use Rattle.enc_interval.specs.Halves.{IsCase};

use crate::sliding::sliding_unions;
use binning::{Bin, EncFault, Encoding};
use std::alloc::{AllocError, Global};
use std::sync::ledger::Ledger;
use steps::Steps;
use wah_logic::{And, AndNot, Or, combined};
use wah_words::Wah;

/// The most bins that have bitmaps.
const MAX_BINS: usize = 1024;

/// The interval encoding: a bitmap for each run of neighbouring bins that is half of all, rounded up.
#[derive(Clone, Copy, Debug)]
pub struct IntervalCode;

impl Encoding for IntervalCode {
    ghost use Rattle.index_spec.specs.declared.spec.EncodingSpec.TheVariants.{Interval};

    ghost encoding = { λ _. Interval };

    fn bitmaps<L: Ledger>(
        &self,
        alloc: Global,
        bins: &[Bin],
        rows: u32,
        steps: &mut Steps<L>,
    ) -> Result<Vec<Wah>, EncFault> {
        if bins.len() > MAX_BINS {
            return Err(EncFault::TooManyBins {
                bins: bins.len() as u32,
                limit: MAX_BINS as u32,
            });
        }
        if bins.is_empty() {
            return Ok(Vec::new(alloc));
        }
        Ok(sliding_unions(alloc, bins, rows, steps)?)
    }

    fn needs(
        &self,
        alloc: Global,
        bins: u32,
        first: u32,
        end: u32,
    ) -> Result<Vec<u32>, AllocError> {
        let mut places = Vec::with_capacity(alloc, 2)?;
        let half = bins.div_ceil(2);
        match case_of(bins, first, end) {
            Case::All => {}
            Case::Half => places.push(first)?,
            Case::More => {
                places.push(first)?;
                places.push(end - half)?;
            }
            Case::Low => {
                places.push(first)?;
                places.push(end)?;
            }
            Case::High => {
                places.push(first - half)?;
                places.push(end - half)?;
            }
            Case::Middle => {
                places.push(end - half)?;
                places.push(first)?;
            }
        }
        Ok(places)
    }

    fn eval<L: Ledger>(
        &self,
        alloc: Global,
        bins: u32,
        first: u32,
        end: u32,
        fetched: &[Wah],
        mask: &Wah,
        steps: &mut Steps<L>,
    ) -> Result<Wah, AllocError> {
        match fetched {
            [] => mask.copy(alloc, steps),
            [half] => half.copy(alloc, steps),
            [a, b, ..] => match case_of(bins, first, end) {
                Case::More => combined::<Or, L>(alloc, a, b, steps),
                Case::Low => combined::<AndNot, L>(alloc, a, b, steps),
                Case::High => combined::<AndNot, L>(alloc, b, a, steps),
                _ => combined::<And, L>(alloc, a, b, steps),
            },
        }
    }
}

/// How a run of bins lies to the half of the bins, rounded up, that each bitmap has.
#[derive(Clone, Copy)]
enum Case {
    /// All bins.
    All,
    /// As long as a half.
    Half,
    /// Longer than a half, but not all bins.
    More,
    /// Shorter, and it ends before a half would.
    Low,
    /// Shorter, and it begins after the last half does.
    High,
    /// Shorter, and both the half that begins with it and the half that ends with it are there.
    Middle,
}

fn case_of(bins: u32, first: u32, end: u32) -> Case
    requires order { first < end }
    requires within { end ≤ bins }
    ensures { IsCase bins (div_ceil bins 2) first end result }
{
    let half = bins.div_ceil(2);
    let run = end - first;
    if run == bins {
        Case::All
    } else if run == half {
        Case::Half
    } else if run > half {
        Case::More
    } else if end < half {
        Case::Low
    } else if first > bins - half {
        Case::High
    } else {
        Case::Middle
    }
}
