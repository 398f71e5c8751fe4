//! How commands end one after another.

ghost use Rattle.std.specs.Prelude.{◌≡◌, ◌≢◌};
ghost use Rattle.gen_run.specs.Ran.{ending_of, status_of};

use fb_outside::Trouble;
use statuses::Status;

/// Whether what follows a command may run. A refusal is a reply like others.
pub(crate) fn ending_of(status: Status) -> Result<(), Trouble>
    requires unread { status ≢ Status.ReadFault }
    requires unstored { status ≢ Status.StoreFault }
    ensures { result ≡ ending_of status }
{
    match status {
        Status::SinkFault => Err(Trouble::Failed),
        Status::OutOfMemory => Err(Trouble::OutOfMemory),
        _ => Ok(()),
    }
}

/// How all of them end.
pub(crate) fn status_of(ending: Result<(), Trouble>) -> Status
    ensures { result ≡ status_of ending }
{
    match ending {
        Ok(()) => Status::Done,
        Err(Trouble::Failed) => Status::SinkFault,
        Err(Trouble::OutOfMemory) => Status::OutOfMemory,
    }
}
