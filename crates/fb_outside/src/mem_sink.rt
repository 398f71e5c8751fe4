ghost use Rattle.std.specs.Prelude.{◌≡◌, ◌++◌, [], ◌∷◌, Some, IfOk, OnOk, OnErr, IsErrOf, IsOk, IsNone, IsSome, map};
ghost use Rattle.fb_outside.specs.Causes.{HasCause};
ghost use Rattle.fb_outside.specs.Streams.{Grows, GrowsInPart};

use crate::outside::{Sink, Trouble};
use crate::schedule::Schedule;
use std::alloc::{AllocError, Global};
use std::marker::Model;

/// A sink that keeps what is put, and some of whose calls fail. A call that fails leaves nothing of its piece.
/// Contracts see it as what was written, and which calls fail.
#[derive(Debug, Drop)]
pub struct MemSink {
    written: Vec<u8>,
    schedule: Schedule,
}

impl Model for MemSink {
    ghost use Rattle.fb_outside.specs.Memory.{SinkState};

    ghost Value = { SinkState };

    ghost view = { λ s. record { written = s.written.items; counted = s.schedule } };
}

impl MemSink {
    ghost use Rattle.fb_outside.specs.Memory.{uncalled, plain_fail};

    /// A sink with nothing written. The calls with these numbers, from 0, fail.
    pub fn make(alloc: Global, fails: &[u64]) -> Result<MemSink, AllocError>
        ensures { IfOk result (λ s. s ≡ record { written = []; counted = uncalled (map plain_fail fails.now) }) }
    {
        let schedule = Schedule::at_calls(alloc, fails)?;
        Ok(MemSink {
            written: Vec::new(alloc),
            schedule,
        })
    }

    /// What was put so far.
    pub fn written(&self) -> &[u8]
        ensures { result.now ≡ self.now.written }
    {
        self.written.as_slice()
    }
}

impl Sink for MemSink {
    ghost use Rattle.fb_outside.specs.Memory.{called, next_fault};

    ghost faults = { λ s. s.counted.faults };

    ghost written = { λ s. Some s.written };

    fn put(&mut self, piece: &[u8]) -> Result<(), Trouble>
        ensures cause { HasCause self.old.counted.faults self.new.counted.faults (IsErrOf result Trouble.Failed) }
        ensures ok { OnOk result (Grows (Some self.old.written) (Some self.new.written) piece.now) }
        ensures failed { IsErrOf result Trouble.Failed → GrowsInPart (Some self.old.written) (Some self.new.written) piece.now }
        ensures memory { IsErrOf result Trouble.OutOfMemory → Some self.new.written ≡ Some self.old.written }

        // The calls that fail are those of the schedule, and they leave nothing.
        ensures fails { IsErrOf result Trouble.Failed → IsSome (next_fault self.old.counted) }
        ensures passes { IsOk result → IsNone (next_fault self.old.counted) }
        ensures never { self.old.counted.fails ≡ [] → IsErrOf result Trouble.Failed → ⊥ }
        ensures counted { self.new.counted ≡ called self.old.counted }
        ensures kept { OnErr result (self.new.written ≡ self.old.written) }
    {
        if self.schedule.count().is_some() {
            return Err(Trouble::Failed);
        }
        match self.written.extend_from_slice(piece) {
            Ok(()) => Ok(()),
            Err(_) => Err(Trouble::OutOfMemory),
        }
    }
}
