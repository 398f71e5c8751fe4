//! Any of the encodings.

use crate::two_level::TwoLevel;
use binning::{Bin, EncFault, Encoding};
use enc_equality::Equality;
use enc_interval::IntervalCode;
use enc_range::RangeCode;
use index_spec::EncodingSpec;
use std::alloc::{AllocError, Global};
use std::sync::ledger::Ledger;
use steps::Steps;
use wah_words::Wah;

/// An encoding that a specification names.
#[derive(Clone, Copy, Debug)]
pub enum AnyEncoding {
    Equality,
    Range,
    Interval,
    TwoLevel(TwoLevel),
}

impl AnyEncoding {
    ghost use Rattle.std.specs.Prelude.{◌≡◌};
    ghost use Rattle.enc_two_level.specs.Named.{named};

    /// The encoding of the specification.
    pub fn of(spec: &EncodingSpec) -> AnyEncoding
        ensures { named result ≡ spec.now }
    {
        match *spec {
            EncodingSpec::Equality => AnyEncoding::Equality,
            EncodingSpec::Range => AnyEncoding::Range,
            EncodingSpec::Interval => AnyEncoding::Interval,
            EncodingSpec::TwoLevel { coarse, ncoarse } => {
                AnyEncoding::TwoLevel(TwoLevel { coarse, ncoarse })
            }
        }
    }
}

impl Encoding for AnyEncoding {
    ghost use Rattle.enc_two_level.specs.Named.{named};

    ghost encoding = { named };

    fn bitmaps<L: Ledger>(
        &self,
        alloc: Global,
        bins: &[Bin],
        rows: u32,
        steps: &mut Steps<L>,
    ) -> Result<Vec<Wah>, EncFault> {
        match self {
            AnyEncoding::Equality => Equality.bitmaps(alloc, bins, rows, steps),
            AnyEncoding::Range => RangeCode.bitmaps(alloc, bins, rows, steps),
            AnyEncoding::Interval => IntervalCode.bitmaps(alloc, bins, rows, steps),
            AnyEncoding::TwoLevel(levels) => levels.bitmaps(alloc, bins, rows, steps),
        }
    }

    fn needs(
        &self,
        alloc: Global,
        bins: u32,
        first: u32,
        end: u32,
    ) -> Result<Vec<u32>, AllocError> {
        match self {
            AnyEncoding::Equality => Equality.needs(alloc, bins, first, end),
            AnyEncoding::Range => RangeCode.needs(alloc, bins, first, end),
            AnyEncoding::Interval => IntervalCode.needs(alloc, bins, first, end),
            AnyEncoding::TwoLevel(levels) => levels.needs(alloc, bins, first, end),
        }
    }

    fn eval<L: Ledger>(
        &self,
        alloc: Global,
        bins: u32,
        first: u32,
        end: u32,
        fetched: &[Wah],
        mask: &Wah,
        steps: &mut Steps<L>,
    ) -> Result<Wah, AllocError> {
        match self {
            AnyEncoding::Equality => Equality.eval(alloc, bins, first, end, fetched, mask, steps),
            AnyEncoding::Range => RangeCode.eval(alloc, bins, first, end, fetched, mask, steps),
            AnyEncoding::Interval => {
                IntervalCode.eval(alloc, bins, first, end, fetched, mask, steps)
            }
            AnyEncoding::TwoLevel(levels) => {
                levels.eval(alloc, bins, first, end, fetched, mask, steps)
            }
        }
    }
}
