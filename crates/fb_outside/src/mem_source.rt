ghost use Rattle.std.specs.Prelude.{◌≡◌, ◌+◌, ◌<◌, ◌≤◌, [], IfOk, OnErr, IsErr, IsOk, length, map, take, min, Some, is_some, is_err};
ghost use Rattle.fb_outside.specs.Causes.{HasCause};
ghost use Rattle.fb_outside.specs.Streams.{Takes, IsAtEnd};

use crate::outside::{Failed, Source};
use crate::schedule::Schedule;
use std::alloc::{AllocError, Global};
use std::marker::Model;

/// A source over bytes in memory, some of whose calls fail. Contracts see it as what is left, the most that
/// a call gives, and which calls fail.
#[derive(Debug, Drop)]
pub struct MemSource {
    bytes: Vec<u8>,
    at: usize,
    piece: usize,
    schedule: Schedule,
}

impl Model for MemSource {
    ghost use Rattle.std.specs.Prelude.{◌≤◌, drop, vec_len};
    ghost use Rattle.fb_outside.specs.Memory.{SourceState};

    ghost Value = { SourceState };

    ghost view = { λ s. record { left = drop s.at s.bytes.items; piece = s.piece; counted = s.schedule } };

    ghost invariant = { λ s. (s.at ≤ vec_len s.bytes) × (1 ≤ s.piece) };
}

impl MemSource {
    ghost use Rattle.fb_outside.specs.Memory.{uncalled, plain_fail};

    /// Gives these bytes, at most `piece` a call. The calls with the numbers in `fails`, from 0, fail.
    pub fn make(
        alloc: Global,
        bytes: &[u8],
        piece: usize,
        fails: &[u64],
    ) -> Result<MemSource, AllocError>
        requires { 1 ≤ piece }
        ensures { IfOk result (λ s. s ≡ record { left = bytes.now; piece = piece; counted = uncalled (map plain_fail fails.now) }) }
    {
        let bytes = Vec::from_slice(alloc, bytes)?;
        let schedule = Schedule::at_calls(alloc, fails)?;
        Ok(MemSource {
            bytes,
            at: 0,
            piece,
            schedule,
        })
    }
}

impl Source for MemSource {
    ghost use Rattle.fb_outside.specs.Memory.{called, next_fault};

    ghost faults = { λ s. s.counted.faults };

    ghost left = { λ s. Some s.left };

    fn take(&mut self, buf: &mut [u8]) -> Result<usize, Failed>
        ensures cause { HasCause self.old.counted.faults self.new.counted.faults (IsErr result) }
        ensures count { IfOk result (λ n. n ≤ length buf.new) }
        ensures taken { IfOk result (λ n. Takes (Some self.old.left) (Some self.new.left) (take n buf.new)) }
        ensures end { IfOk result (λ n. n ≡ 0 → 0 < length buf.new → IsAtEnd (Some self.old.left)) }
        ensures failed { OnErr result (Some self.new.left ≡ Some self.old.left) }

        // The calls that fail are those of the schedule, and the others give all that may go.
        ensures fails { is_err result ≡ is_some (next_fault self.old.counted) }
        ensures gives { IfOk result (λ n. n ≡ min (min (length self.old.left) self.old.piece) (length buf.old)) }
        ensures never { self.old.counted.fails ≡ [] → IsOk result }
        ensures counted { self.new.counted ≡ called self.old.counted }
        ensures piece { self.new.piece ≡ self.old.piece }
    {
        if self.schedule.count().is_some() {
            return Err(Failed);
        }
        let left = &self.bytes[self.at..];
        let n = left.len().min(self.piece).min(buf.len());
        buf[..n].copy_from_slice(&left[..n]);
        self.at += n;
        Ok(n)
    }
}
