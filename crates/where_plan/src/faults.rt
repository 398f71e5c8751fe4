//! Why a clause has no plan.

ghost use Rattle.std.specs.Prelude.{◌≡◌};

use std::alloc::AllocError;
use thiserror::Error;
use where_grammar::QueryKind;

/// Why a clause has no plan under a schema.
#[derive(Debug, Drop, Error)]
pub enum NameFault {
    /// `Unknown` or `WrongType`.
    #[error("query: {kind:?}")]
    Bad { kind: QueryKind },
    #[error("out of memory")]
    OutOfMemory,
}

impl From<AllocError> for NameFault {
    ghost use Rattle.std.specs.Prelude.{◌≡◌};
    ghost use Rattle.where_plan.specs.declared.faults.NameFault.TheVariants.{OutOfMemory};

    ghost from_gives = { λ _ e. e ≡ OutOfMemory };

    fn from(_e: AllocError) -> NameFault {
        NameFault::OutOfMemory
    }
}

pub(crate) fn bad(kind: QueryKind) -> NameFault
    ensures { result ≡ NameFault.Bad kind }
{
    NameFault::Bad { kind }
}
