//! Why a plan isn't answered.

use dataset::DamageKind;
use fb_outside::FileName;
use std::alloc::AllocError;
use thiserror::Error;

/// Why a plan isn't answered over a dataset.
#[derive(Debug, Drop, Error)]
pub enum AskFault {
    /// A file isn't what it has to be. Where the kind has two numbers, `want` had to be there and `have` is.
    #[error("a file is damaged: {kind:?}")]
    Damaged {
        file: FileName,
        kind: DamageKind,
        want: u64,
        have: u64,
    },
    /// A call on the store failed. It is answered as soon as that is so.
    #[error("the store failed")]
    Store,
    #[error("out of memory")]
    OutOfMemory,
}

impl From<AllocError> for AskFault {
    ghost use Rattle.std.specs.Prelude.{◌≡◌};
    ghost use Rattle.query_engine.specs.declared.fault.AskFault.TheVariants.{OutOfMemory};

    ghost from_gives = { λ _ fault. fault ≡ OutOfMemory };

    fn from(_error: AllocError) -> AskFault {
        AskFault::OutOfMemory
    }
}
