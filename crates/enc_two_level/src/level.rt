//! The coarse level: an encoding of groups.
ghost use Rattle.std.specs.Prelude.{◌≡◌, unwrap_or};
ghost use Rattle.index_spec.specs.Counts.{coarse_count};
ghost use Rattle.binning.specs.Encodings.{HasCount};

use binning::{Bin, EncFault, Encoding};
use enc_equality::Equality;
use enc_interval::IntervalCode;
use enc_range::RangeCode;
use index_spec::{Coarse, EncodingSpec};
use std::alloc::{AllocError, Global};
use std::sync::ledger::Ledger;
use steps::Steps;
use wah_words::Wah;

/// One of the encodings of one level.
#[derive(Clone, Copy, Debug)]
pub(crate) struct Level {
    pub(crate) coarse: Coarse,
}

impl Level {
    /// How many bitmaps it has of so many bins.
    pub(crate) fn bitmap_count(self, bins: u32) -> Option<u64>
        ensures { result ≡ coarse_count self.coarse bins }
    {
        match self.coarse {
            Coarse::Equality => EncodingSpec::Equality.bitmap_count(bins),
            Coarse::Range => EncodingSpec::Range.bitmap_count(bins),
            Coarse::Interval => EncodingSpec::Interval.bitmap_count(bins),
        }
    }

    /// The same where there are bitmaps, and fewer than 2^32.
    pub(crate) fn few_bitmaps(self, bins: u32) -> u32
        requires { HasCount (coarse_count self.coarse bins) }
        ensures { result ≡ unwrap_or (coarse_count self.coarse bins) 0 }
    {
        match self.bitmap_count(bins) {
            Some(count) => count as u32,
            None => 0,
        }
    }
}

impl Encoding for Level {
    ghost use Rattle.enc_two_level.specs.Levels.{one_level};

    ghost encoding = { λ l. one_level l.coarse };

    fn bitmaps<L: Ledger>(
        &self,
        alloc: Global,
        bins: &[Bin],
        rows: u32,
        steps: &mut Steps<L>,
    ) -> Result<Vec<Wah>, EncFault> {
        match self.coarse {
            Coarse::Equality => Equality.bitmaps(alloc, bins, rows, steps),
            Coarse::Range => RangeCode.bitmaps(alloc, bins, rows, steps),
            Coarse::Interval => IntervalCode.bitmaps(alloc, bins, rows, steps),
        }
    }

    fn needs(
        &self,
        alloc: Global,
        bins: u32,
        first: u32,
        end: u32,
    ) -> Result<Vec<u32>, AllocError> {
        match self.coarse {
            Coarse::Equality => Equality.needs(alloc, bins, first, end),
            Coarse::Range => RangeCode.needs(alloc, bins, first, end),
            Coarse::Interval => IntervalCode.needs(alloc, bins, first, end),
        }
    }

    fn eval<L: Ledger>(
        &self,
        alloc: Global,
        bins: u32,
        first: u32,
        end: u32,
        fetched: &[Wah],
        mask: &Wah,
        steps: &mut Steps<L>,
    ) -> Result<Wah, AllocError> {
        match self.coarse {
            Coarse::Equality => Equality.eval(alloc, bins, first, end, fetched, mask, steps),
            Coarse::Range => RangeCode.eval(alloc, bins, first, end, fetched, mask, steps),
            Coarse::Interval => IntervalCode.eval(alloc, bins, first, end, fetched, mask, steps),
        }
    }
}
