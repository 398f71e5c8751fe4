ghost use Rattle.std.specs.Prelude.{◌≡◌};
ghost use Rattle.dataset.specs.Damage.{fault_of_trouble};
ghost use Rattle.dataset.specs.declared.fault.OpenFault.TheVariants as open_;
ghost use Rattle.dataset.specs.declared.fault.PartFault.TheVariants as part_;

use fb_outside::{FileName, Trouble};
use std::alloc::AllocError;
use thiserror::Error;

/// What is wrong with a file of a dataset.
#[derive(Clone, Copy, Debug, PartialEq, Eq)]
pub enum DamageKind {
    /// The catalog lists it, but it is absent.
    Missing,
    /// It is no catalog's or part's text.
    Text,
    /// Its length isn't that of its rows.
    Length,
    /// It is no mask of its rows.
    Mask,
    /// They aren't starts of texts of its rows.
    Starts,
    /// It is no dictionary.
    Words,
    /// It is no index of its rows.
    Index,
}

/// Why a dataset isn't opened: the first that holds, of the catalog and then of each part in order.
#[derive(Debug, Drop, Error)]
pub enum OpenFault {
    /// There is no catalog.
    #[error("there is no dataset")]
    NoDataset,
    /// A file isn't what it has to be. Where the kind has two numbers, `want` had to be there and `have` is.
    #[error("a file is damaged: {kind:?}")]
    Damaged {
        file: FileName,
        kind: DamageKind,
        want: u64,
        have: u64,
    },
    /// A call on the store failed. It is answered as soon as that is so.
    #[error("the store failed")]
    Store,
    #[error("out of memory")]
    OutOfMemory,
}

impl From<AllocError> for OpenFault {
    ghost from_gives = { λ _ fault. fault ≡ open_.OutOfMemory };

    fn from(_error: AllocError) -> OpenFault {
        OpenFault::OutOfMemory
    }
}

impl From<Trouble> for OpenFault {
    ghost from_gives = { λ trouble fault. fault ≡ fault_of_trouble trouble };

    fn from(trouble: Trouble) -> OpenFault {
        match trouble {
            Trouble::Failed => OpenFault::Store,
            Trouble::OutOfMemory => OpenFault::OutOfMemory,
        }
    }
}

/// Why a part's column isn't opened.
#[derive(Debug, Drop, Error)]
pub enum PartFault {
    /// A file isn't what it has to be. Where the kind has two numbers, `want` had to be there and `have` is.
    #[error("a file is damaged: {kind:?}")]
    Damaged {
        file: FileName,
        kind: DamageKind,
        want: u64,
        have: u64,
    },
    /// A call on the store failed. It is answered as soon as that is so.
    #[error("the store failed")]
    Store,
    #[error("out of memory")]
    OutOfMemory,
}

impl From<AllocError> for PartFault {
    ghost from_gives = { λ _ fault. fault ≡ part_.OutOfMemory };

    fn from(_error: AllocError) -> PartFault {
        PartFault::OutOfMemory
    }
}

/// Why rows aren't appended to a dataset: the first that holds.
#[derive(Debug, Drop, Error)]
pub enum AppendFault {
    /// The first column, from 1, whose name or type differs, or that one side lacks.
    #[error("the schema differs at column {column}")]
    SchemaDiffers { column: u32 },
    /// The dataset would have so many parts.
    #[error("{number} parts, over {limit}")]
    TooManyParts { number: u64, limit: u64 },
    /// The next part would have this number.
    #[error("part number {number}, over {limit}")]
    TooManyNumbers { number: u64, limit: u64 },
    /// A call on the store failed. It is answered as soon as that is so.
    #[error("the store failed")]
    Store,
    #[error("out of memory")]
    OutOfMemory,
}
