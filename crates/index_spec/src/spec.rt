//! What a specification says.

ghost use Rattle.std.specs.Prelude.{◌≡◌, ◌≤◌, IfOk, IfSome};
ghost use Rattle.index_spec.specs.Counts.{coarse_count, bitmap_count, HasGroups};

use sqlite_items::Items;
use std::alloc::{AllocError, AllocFailed, Global};
use thiserror::Error;

/// How the values of a column fall into bins. A value's key decides its bin.
#[derive(Debug, Drop)]
pub enum Binning {
    /// A bin for each value: the key is the value.
    Each,
    /// 1 to 4,096 strictly rising bounds: the key is how many of them are at most the value.
    Bounds(Items<i128>),
    /// `count` equal widths from `start` to `end`, where `start < end`; `count` is 1 to 100,000.
    Width { start: i128, end: i128, count: u32 },
    /// `count` bins of about as many rows each; 1 to 100,000.
    Weight { count: u32 },
    /// The key is the value with all but its first `digits` decimal digits 0; 1 to 18.
    Precision { digits: u32 },
}

/// The encoding of the coarse level of a two-level index.
#[derive(Clone, Copy, Debug, PartialEq, Eq)]
pub enum Coarse {
    Equality,
    Range,
    Interval,
}

/// Which bitmaps an index keeps of its bins.
#[derive(Clone, Copy, Debug, PartialEq, Eq)]
pub enum EncodingSpec {
    Equality,
    Range,
    Interval,
    /// At most `ncoarse` groups of neighbouring bins, 1 to 100,000, and the bins themselves.
    TwoLevel { coarse: Coarse, ncoarse: u32 },
}

/// How a column is indexed.
#[derive(Debug, Drop)]
pub struct Spec {
    pub binning: Binning,
    pub encoding: EncodingSpec,
}

/// Why a text isn't a specification, or doesn't fit a table.
#[derive(Clone, Copy, Debug, PartialEq, Eq)]
pub enum SpecKind {
    /// Over 131,072 bytes.
    TooLong,
    /// Not the form of a specification, or an element's options aren't one of its sets.
    Syntax,
    /// An option stands twice in an element.
    Repeated,
    /// A number below -2^63 or above 2^64 - 1.
    Number,
    /// A count that isn't 1 to 100,000, a precision that isn't 1 to 18, or a width whose start isn't below its end.
    Count,
    /// Over 4,096 bounds, or bounds that don't rise strictly.
    Bounds,
    /// A column that the table lacks. Callers that look at a table give it.
    Unknown,
    /// A column that can't have an index. Callers that look at a table give it.
    WrongType,
}

#[derive(Debug, Drop, Error)]
pub enum SpecFault {
    #[error("specification: {kind:?}")]
    Bad { kind: SpecKind },
    #[error("out of memory")]
    OutOfMemory,
}

impl From<AllocError> for SpecFault {
    ghost use Rattle.std.specs.Prelude.{◌≡◌};
    ghost use Rattle.index_spec.specs.declared.spec.SpecFault.TheVariants.{OutOfMemory};

    ghost from_gives = { λ _ e. e ≡ OutOfMemory };

    fn from(_e: AllocError) -> SpecFault {
        SpecFault::OutOfMemory
    }
}

impl Binning {
    fn copy(&self, alloc: Global) -> Result<Binning, AllocError>
        ensures { IfOk result (λ copy. copy ≡ self.now) }
    {
        Ok(match self {
            Binning::Each => Binning::Each,
            Binning::Bounds(bounds) => Binning::Bounds(Items::from_slice(
                alloc,
                bounds.as_slice(),
            )?),
            Binning::Width { start, end, count } => Binning::Width {
                start: *start,
                end: *end,
                count: *count,
            },
            Binning::Weight { count } => Binning::Weight { count: *count },
            Binning::Precision { digits } => Binning::Precision { digits: *digits },
        })
    }
}

impl Spec {
    pub fn copy(&self, alloc: Global) -> Result<Spec, AllocError>
        ensures { IfOk result (λ copy. copy ≡ self.now) }
    {
        Ok(Spec {
            binning: self.binning.copy(alloc)?,
            encoding: self.encoding,
        })
    }
}

/// The most bins, or coarse groups, that range and interval encodings take.
const MAX_NESTED: u32 = 1024;

impl Coarse {
    fn bitmap_count(self, bins: u32) -> Option<u64>
        ensures value { result ≡ coarse_count self bins }
        ensures small { IfSome result (λ count. count ≤ bins) }
    {
        match self {
            Coarse::Equality => Some(u64::from(bins)),
            _ if bins > MAX_NESTED => None,
            _ if bins == 0 => Some(0),
            Coarse::Range => Some(u64::from(bins - 1)),
            // bins 0 to w-1 make the first bitmap, where w is half of the bins, rounded up
            Coarse::Interval => Some(u64::from(bins - bins.div_ceil(2) + 1)),
        }
    }
}

fn two_level_count(coarse: Coarse, ncoarse: u32, bins: u32) -> Option<u64>
    requires { 1 ≤ ncoarse }
    ensures { result ≡ bitmap_count (EncodingSpec.TwoLevel coarse ncoarse) bins }
{
    if bins == 0 {
        return Some(0);
    }
    let group = bins.div_ceil(ncoarse);
    match coarse.bitmap_count(bins.div_ceil(group)) {
        None => None,
        Some(count) => Some(u64::from(bins) + count),
    }
}

impl EncodingSpec {
    /// How many bitmaps an index of `bins` bins has. None exactly where range or interval is to encode more than
    /// 1,024 bins or coarse groups.
    pub fn bitmap_count(&self, bins: u32) -> Option<u64>
        requires { HasGroups self.now }
        ensures { result ≡ bitmap_count self.now bins }
    {
        match self {
            EncodingSpec::Equality => Coarse::Equality.bitmap_count(bins),
            EncodingSpec::Range => Coarse::Range.bitmap_count(bins),
            EncodingSpec::Interval => Coarse::Interval.bitmap_count(bins),
            EncodingSpec::TwoLevel { coarse, ncoarse } => two_level_count(*coarse, *ncoarse, bins),
        }
    }
}
