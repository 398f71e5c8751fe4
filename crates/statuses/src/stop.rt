ghost use Rattle.std.specs.Prelude.{◌≡◌};
ghost use Rattle.statuses.specs.declared.stop.Stop.TheVariants as stop;
ghost use Rattle.statuses.specs.declared.stop.Unanswered.TheVariants as unanswered;

use crate::Status;
use std::alloc::AllocError;

/// Why a load stops before it prints: it is refused with a status, the outside failed, or memory ran out.
#[derive(Debug, Drop)]
pub enum Stop {
    Refused(Status),
    ReadFault,
    StoreFault,
    OutOfMemory,
}

impl From<AllocError> for Stop {
    ghost from_gives = { λ _ s. s ≡ stop.OutOfMemory };

    fn from(_error: AllocError) -> Stop {
        Stop::OutOfMemory
    }
}

/// Why what is asked of a dataset isn't answered: it is refused with a status, the store failed, or memory ran out.
#[derive(Debug, Drop)]
pub enum Unanswered {
    Refused(Status),
    StoreFault,
    OutOfMemory,
}

impl From<AllocError> for Unanswered {
    ghost from_gives = { λ _ u. u ≡ unanswered.OutOfMemory };

    fn from(_error: AllocError) -> Unanswered {
        Unanswered::OutOfMemory
    }
}
