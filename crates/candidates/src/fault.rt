use column_file::ColFault;
use std::alloc::AllocError;
use text_column::TextFault;
use thiserror::Error;

/// Why the values of candidates weren't read: the first that holds.
#[derive(Debug, Drop, PartialEq, Eq, Error)]
pub enum FindFault {
    /// The values of a column of numbers or codes.
    #[error("the values can't be read: {0}")]
    Values(ColFault),
    /// The texts of a column of texts.
    #[error("the texts can't be read: {0}")]
    Texts(TextFault),
    #[error("out of memory")]
    OutOfMemory,
}

impl From<AllocError> for FindFault {
    ghost use Rattle.std.specs.Prelude.{◌≡◌};
    ghost use Rattle.candidates.specs.declared.fault.FindFault.TheVariants.{OutOfMemory};

    ghost from_gives = { λ _ e. e ≡ OutOfMemory };

    fn from(_e: AllocError) -> FindFault {
        FindFault::OutOfMemory
    }
}
