ghost use Rattle.std.specs.Prelude.{◌≡◌, ◌<◌, ◌≤◌, None, [], IfOk, IsErr, OnErr, length, take};
ghost use Rattle.std.specs.Io.KnownBytes.{ReadConsumes};
ghost use Rattle.fb_outside.specs.Causes.{HasCause};
ghost use Rattle.fb_outside.specs.Streams.{Takes, IsAtEnd};

use crate::faults::Faults;
use crate::outside::{Failed, Source};
use std::io::Read;
use std::marker::Model;

/// A source over a reader of the runtime, as standard input: pass `rt.reader()`.
/// Contracts see it as the reader and the count of faults. As a source it tells nothing of its bytes, since
/// the system's reader doesn't.
#[derive(Drop)]
pub struct StdSource<R: Read> {
    reader: R,
    faults: Faults,
}

impl<R: Read> Model for StdSource<R> {
    ghost use Rattle.std.specs.Prelude.{ℕ};
    ghost use Rattle.std.specs.Coded.{coded×, coded_ℕ};

    ghost Value = { R × ℕ };

    ghost coded = { coded× R.code coded_ℕ };

    ghost view = { λ s. (s.reader, s.faults) };
}

impl<R: Read> StdSource<R> {
    pub fn make(reader: R) -> StdSource<R>
        ensures { result ≡ (reader, 0) }
    {
        StdSource {
            reader,
            faults: Faults::none(),
        }
    }
}

impl<R: Read> Source for StdSource<R> {
    ghost faults = { λ s. s.1 };

    ghost left = { λ _. None };

    fn take(&mut self, buf: &mut [u8]) -> Result<usize, Failed>
        ensures cause { HasCause self.old.1 self.new.1 (IsErr result) }
        ensures count { IfOk result (λ n. n ≤ length buf.new) }
        ensures taken { IfOk result (λ n. Takes None None (take n buf.new)) }
        ensures end { IfOk result (λ n. n ≡ 0 → 0 < length buf.new → IsAtEnd None) }
        ensures failed { OnErr result (Takes None None []) }

        // Where the reader tells its bytes, they are these.
        ensures bytes { ReadConsumes (R.remaining self.old.0) (R.remaining self.new.0) result buf.new }
    {
        match self.reader.read(buf) {
            Ok(n) => Ok(n),
            Err(_) => {
                self.faults.raise();
                Err(Failed)
            }
        }
    }
}
