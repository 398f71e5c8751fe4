//! Why an index isn't built.

use dataset::{DamageKind, PartFault};
use fb_outside::FileName;
use std::alloc::AllocError;
use thiserror::Error;

/// Why an index isn't built: the first that holds.
#[derive(Debug, Drop, Error)]
pub enum BuildFault {
    /// A file of the column isn't what it has to be. Where the kind has two numbers, `want` had to be there and `have` is.
    #[error("a file is damaged: {kind:?}")]
    Damaged {
        file: FileName,
        kind: DamageKind,
        want: u64,
        have: u64,
    },
    /// So many bins, or groups of bins, are more than the encoding takes.
    #[error("{bins} bins, over {limit}")]
    TooManyBins {
        bins: u32,
        limit: u32,
    },
    /// A call on the store failed. It is answered as soon as that is so.
    #[error("the store failed")]
    Store,
    #[error("out of memory")]
    OutOfMemory,
}

impl From<AllocError> for BuildFault {
    ghost use Rattle.std.specs.Prelude.{◌≡◌};
    ghost use Rattle.index_build.specs.declared.fault.BuildFault.TheVariants.{OutOfMemory};

    ghost from_gives = { λ _ e. e ≡ OutOfMemory };

    fn from(_e: AllocError) -> BuildFault {
        BuildFault::OutOfMemory
    }
}
