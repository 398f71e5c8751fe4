ghost use Rattle.std.specs.Prelude.{◌≡◌, None, OnOk, OnErr, IsErrOf};
ghost use Rattle.std.specs.Io.KnownBytes.{Appends};
ghost use Rattle.fb_outside.specs.Causes.{HasCause};
ghost use Rattle.fb_outside.specs.Streams.{Grows, GrowsInPart, AppendsInPart};

use crate::faults::Faults;
use crate::outside::{Sink, Trouble};
use crate::writing::write_all;
use std::io::Write;
use std::marker::Model;

/// A sink over a writer of the runtime, as standard output: pass `io::writer(&rt)`. A piece is flushed
/// before its `put` ends.
/// Contracts see it as the writer and the count of faults. As a sink it tells nothing of its bytes, since
/// the system's writer doesn't.
#[derive(Drop)]
pub struct StdSink<W: Write> {
    writer: W,
    faults: Faults,
}

impl<W: Write> Model for StdSink<W> {
    ghost use Rattle.std.specs.Prelude.{ℕ};
    ghost use Rattle.std.specs.Coded.{coded×, coded_ℕ};

    ghost Value = { W × ℕ };

    ghost coded = { coded× W.code coded_ℕ };

    ghost view = { λ s. (s.writer, s.faults) };
}

impl<W: Write> StdSink<W> {
    pub fn make(writer: W) -> StdSink<W>
        ensures { result ≡ (writer, 0) }
    {
        StdSink {
            writer,
            faults: Faults::none(),
        }
    }
}

impl<W: Write> Sink for StdSink<W> {
    ghost faults = { λ s. s.1 };

    ghost written = { λ _. None };

    fn put(&mut self, piece: &[u8]) -> Result<(), Trouble>
        ensures cause { HasCause self.old.1 self.new.1 (IsErrOf result Trouble.Failed) }
        ensures ok { OnOk result (Grows None None piece.now) }
        ensures failed { IsErrOf result Trouble.Failed → GrowsInPart None None piece.now }

        // It takes no memory. Where the writer tells its bytes, the piece is behind them, or a front of it.
        ensures memory { IsErrOf result Trouble.OutOfMemory → ⊥ }
        ensures bytes { OnOk result (Appends (W.contents self.old.0) (W.contents self.new.0) piece.now) }
        ensures part { OnErr result (AppendsInPart (W.contents self.old.0) (W.contents self.new.0) piece.now) }
    {
        match write_all(&mut self.writer, piece) {
            Ok(()) => Ok(()),
            Err(_) => {
                self.faults.raise();
                Err(Trouble::Failed)
            }
        }
    }
}
