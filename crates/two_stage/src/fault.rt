//! Why a condition isn't answered.

ghost use Rattle.std.specs.Prelude.{◌≡◌};
ghost use Rattle.two_stage.specs.Faults.{bins_fault, column_fault, found_fault, index_fault, texts_fault, words_fault};

use bin_answers::BinsFault;
use candidates::FindFault;
use column_file::ColFault;
use index_file::IndexFault;
use std::alloc::AllocError;
use text_column::{DicFault, TextFault};
use thiserror::Error;

/// Why a plan isn't answered: a file of a column that it names is refused, or the store failed there. The number is the
/// column's place in the schema.
#[derive(Debug, Drop, Error)]
pub enum EvalFault {
    /// The mask, or the values of a column of numbers or codes.
    #[error("column {0}: {1}")]
    Col(usize, ColFault),
    /// The index.
    #[error("the index of column {0}: {1}")]
    Index(usize, IndexFault),
    /// The dictionary of a category.
    #[error("the words of column {0}: {1}")]
    Words(usize, DicFault),
    /// A file of a column of texts.
    #[error("the texts of column {0}: {1}")]
    Text(usize, TextFault),
    #[error("out of memory")]
    OutOfMemory,
}

impl From<AllocError> for EvalFault {
    ghost use Rattle.std.specs.Prelude.{◌≡◌};
    ghost use Rattle.two_stage.specs.declared.fault.EvalFault.TheVariants.{OutOfMemory};

    ghost from_gives = { λ _ e. e ≡ OutOfMemory };

    fn from(_e: AllocError) -> EvalFault {
        EvalFault::OutOfMemory
    }
}

/// A fault of a column's mask or values.
pub(crate) fn of_column(col: usize, fault: ColFault) -> EvalFault
    ensures { result ≡ column_fault col fault }
{
    match fault {
        ColFault::OutOfMemory => EvalFault::OutOfMemory,
        fault => EvalFault::Col(col, fault),
    }
}

/// A fault of its index.
pub(crate) fn of_index(col: usize, fault: IndexFault) -> EvalFault
    ensures { result ≡ index_fault col fault }
{
    match fault {
        IndexFault::OutOfMemory => EvalFault::OutOfMemory,
        fault => EvalFault::Index(col, fault),
    }
}

/// A fault of its dictionary.
pub(crate) fn of_words(col: usize, fault: DicFault) -> EvalFault
    ensures { result ≡ words_fault col fault }
{
    match fault {
        DicFault::OutOfMemory => EvalFault::OutOfMemory,
        fault => EvalFault::Words(col, fault),
    }
}

/// A fault of its texts.
pub(crate) fn of_texts(col: usize, fault: TextFault) -> EvalFault
    ensures { result ≡ texts_fault col fault }
{
    match fault {
        TextFault::OutOfMemory => EvalFault::OutOfMemory,
        fault => EvalFault::Text(col, fault),
    }
}

/// A fault of the bins of its index.
pub(crate) fn of_bins(col: usize, fault: BinsFault) -> EvalFault
    ensures { result ≡ bins_fault col fault }
{
    match fault {
        BinsFault::Index(fault) => of_index(col, fault),
        BinsFault::OutOfMemory => EvalFault::OutOfMemory,
    }
}

/// A fault of its candidates.
pub(crate) fn of_found(col: usize, fault: FindFault) -> EvalFault
    ensures { result ≡ found_fault col fault }
{
    match fault {
        FindFault::Values(fault) => of_column(col, fault),
        FindFault::Texts(fault) => of_texts(col, fault),
        FindFault::OutOfMemory => EvalFault::OutOfMemory,
    }
}
