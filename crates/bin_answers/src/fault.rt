//! Why the bins of an index don't answer.

ghost use Rattle.std.specs.Prelude.{◌≡◌};
ghost use Rattle.bin_answers.specs.Fetched.{index_fault};

use index_file::IndexFault;
use std::alloc::AllocError;
use thiserror::Error;

/// Why the bins of an index don't answer: a bitmap of it is refused, or the store failed there.
#[derive(Debug, Drop, Error)]
pub enum BinsFault {
    #[error("{0}")]
    Index(IndexFault),
    #[error("out of memory")]
    OutOfMemory,
}

impl From<AllocError> for BinsFault {
    ghost use Rattle.std.specs.Prelude.{◌≡◌};
    ghost use Rattle.bin_answers.specs.declared.fault.BinsFault.TheVariants.{OutOfMemory};

    ghost from_gives = { λ _ e. e ≡ OutOfMemory };

    fn from(_e: AllocError) -> BinsFault {
        BinsFault::OutOfMemory
    }
}

/// A fault of the index's file.
pub(crate) fn of_index(fault: IndexFault) -> BinsFault
    ensures { result ≡ index_fault fault }
{
    match fault {
        IndexFault::OutOfMemory => BinsFault::OutOfMemory,
        fault => BinsFault::Index(fault),
    }
}
