//! The two-level encoding.
ghost use Rattle.std.specs.Prelude.{◌≡◌, ◌++◌, OnOk};
ghost use Rattle.binning.specs.Encodings.{vectors};

use crate::groups::{Whole, grouped};
use crate::level::Level;
use binning::{Bin, EncFault, Encoding};
use enc_equality::append_places;
use index_spec::Coarse;
use std::alloc::{AllocError, Global};
use std::sync::ledger::Ledger;
use steps::Steps;
use wah_logic::{Or, combined, or_many};
use wah_words::Wah;

/// The most groups that have range or interval bitmaps.
const MAX_GROUPS: u32 = 1024;

/// At most `ncoarse` groups of neighbouring bins under an encoding of one level, and the bins themselves; `ncoarse` is 1
/// or more.
#[derive(Clone, Copy, Debug)]
pub struct TwoLevel {
    pub coarse: Coarse,
    pub ncoarse: u32,
}

impl TwoLevel {
    fn level(&self) -> Level
        ensures { result.coarse ≡ self.now.coarse }
    {
        Level {
            coarse: self.coarse,
        }
    }
}

impl Encoding for TwoLevel {
    ghost use Rattle.index_spec.specs.declared.spec.EncodingSpec.TheVariants as specs;

    ghost encoding = { λ t. specs.TwoLevel t.coarse t.ncoarse };

    fn bitmaps<L: Ledger>(
        &self,
        alloc: Global,
        bins: &[Bin],
        rows: u32,
        steps: &mut Steps<L>,
    ) -> Result<Vec<Wah>, EncFault> {
        let count = bins.len() as u32;
        if count == 0 {
            return Ok(Vec::new(alloc));
        }
        let size = count.div_ceil(self.ncoarse);
        if self.level().bitmap_count(count.div_ceil(size)).is_none() {
            return Err(EncFault::TooManyBins {
                bins: count.div_ceil(size),
                limit: MAX_GROUPS,
            });
        }
        let groups = grouped(alloc, bins, size, rows, steps)?;
        let mut bitmaps = self.level().bitmaps(alloc, &groups, rows, steps)?;
        append_copies(alloc, &mut bitmaps, bins, steps)?;
        Ok(bitmaps)
    }

    fn needs(
        &self,
        alloc: Global,
        bins: u32,
        first: u32,
        end: u32,
    ) -> Result<Vec<u32>, AllocError> {
        let size = bins.div_ceil(self.ncoarse);
        let level = self.level();
        let coarse = level.few_bitmaps(bins.div_ceil(size));
        match Whole::of(bins, size, first, end) {
            None => {
                let mut places = Vec::new(alloc);
                append_places(&mut places, coarse + first, coarse + end)?;
                Ok(places)
            }
            Some(whole) => {
                let mut places = level.needs(alloc, whole.groups, whole.from, whole.to)?;
                append_places(&mut places, coarse + first, coarse + whole.begin)?;
                append_places(&mut places, coarse + whole.after, coarse + end)?;
                Ok(places)
            }
        }
    }

    fn eval<L: Ledger>(
        &self,
        alloc: Global,
        bins: u32,
        first: u32,
        end: u32,
        fetched: &[Wah],
        mask: &Wah,
        steps: &mut Steps<L>,
    ) -> Result<Wah, AllocError> {
        let size = bins.div_ceil(self.ncoarse);
        match Whole::of(bins, size, first, end) {
            None => or_many(alloc, fetched, mask.len(), steps),
            Some(whole) => {
                let beside = (whole.begin - first) as usize + (end - whole.after) as usize;
                let (coarse, fine) = fetched.split_at(fetched.len() - beside);
                let inside = self.level().eval(
                    alloc,
                    whole.groups,
                    whole.from,
                    whole.to,
                    coarse,
                    mask,
                    steps,
                )?;
                let outside = or_many(alloc, fine, mask.len(), steps)?;
                combined::<Or, L>(alloc, &inside, &outside, steps)
            }
        }
    }
}

/// Appends the rows of each bin.
fn append_copies<L: Ledger>(
    alloc: Global,
    bitmaps: &mut Vec<Wah>,
    bins: &[Bin],
    steps: &mut Steps<L>,
) -> Result<(), AllocError>
    ensures { OnOk result (bitmaps.new.items ≡ bitmaps.old.items ++ vectors bins.now) }
{
    for bin in bins {
        bitmaps.push(bin.rows.copy(alloc, steps)?)?;
    }
    Ok(())
}
