ghost use Rattle.std.specs.Prelude.{◌≡◌, ◌+◌, ◌<◌, ◌≤◌, ℕ, List, Option, take, length, IsErr, IfOk, IfSome, OnOk, OnErr, IsErrOf, option_map};
ghost use Rattle.fb_outside.specs.Causes.{HasCause};
ghost use Rattle.fb_outside.specs.Streams.{Takes, IsAtEnd, Grows, GrowsInPart};
ghost use Rattle.fb_outside.specs.Files.{Files, file_at, bytes_at, SameFiles, Puts, PutLeaves};
ghost use Rattle.fb_outside.specs.Reads.{Look, AddsRead};
ghost use Rattle.fb_outside.specs.Names.{IsFileName};
ghost use Rattle.fb_outside.specs.declared.outside.Trouble.TheVariants as trouble_;

use std::alloc::AllocError;
use thiserror::Error;

/// The outside failed: the count of faults of the object that was called rose.
#[derive(Clone, Copy, Debug, PartialEq, Eq, Error)]
#[error("the outside failed")]
pub struct Failed;

/// Why something couldn't be put.
#[derive(Clone, Copy, Debug, PartialEq, Eq, Error)]
pub enum Trouble {
    #[error("the outside failed")]
    Failed,
    #[error("out of memory")]
    OutOfMemory,
}

impl From<AllocError> for Trouble {
    ghost from_gives = { λ _ trouble. trouble ≡ trouble_.OutOfMemory };

    fn from(_error: AllocError) -> Trouble {
        Trouble::OutOfMemory
    }
}

/// Bytes that come in.
pub trait Source {
    /// How often the outside has failed.
    ghost faults: { Self → ℕ };

    /// The bytes that are still to come, where they are told.
    ghost left: { Self → Option (List ℕ) };

    /// Moves bytes from the front of what is left into `buf`, and answers how many.
    /// 0 on a buffer that has room is the end.
    fn take(&mut self, buf: &mut [u8]) -> Result<usize, Failed>
        ensures cause { HasCause (faults self.old) (faults self.new) (IsErr result) }
        ensures count { IfOk result (λ n. n ≤ length buf.new) }
        ensures taken { IfOk result (λ n. Takes (left self.old) (left self.new) (take n buf.new)) }
        ensures end { IfOk result (λ n. n ≡ 0 → 0 < length buf.new → IsAtEnd (left self.old)) }
        ensures failed { OnErr result (left self.new ≡ left self.old) };
}

/// Where bytes go out.
pub trait Sink {
    /// How often the outside has failed.
    ghost faults: { Self → ℕ };

    /// The bytes that went out, where they are told.
    ghost written: { Self → Option (List ℕ) };

    /// Puts the whole piece behind what was written. Where the outside fails, a front of it may be there.
    fn put(&mut self, piece: &[u8]) -> Result<(), Trouble>
        ensures cause { HasCause (faults self.old) (faults self.new) (IsErrOf result Trouble.Failed) }
        ensures ok { OnOk result (Grows (written self.old) (written self.new) piece.now) }
        ensures failed { IsErrOf result Trouble.Failed → GrowsInPart (written self.old) (written self.new) piece.now }
        ensures memory { IsErrOf result Trouble.OutOfMemory → written self.new ≡ written self.old };
}

/// Files under names.
pub trait Store {
    /// How often the outside has failed.
    ghost faults: { Self → ℕ };

    /// The files, where they are told. Whether they are never changes.
    ghost files: { Self → Option Files };

    /// The reads so far of names that have a file, where they are told. Where they are told after a call,
    /// they were told before it.
    ghost reads: { Self → Option (List Look) };

    /// The number of the file's bytes, or None where there is no such file.
    fn len(&mut self, name: &str) -> Result<Option<u64>, Failed>
        requires { IsFileName name.now }
        ensures cause { HasCause (faults self.old) (faults self.new) (IsErr result) }
        ensures len { IfOk result (λ len. IfSome (files self.old) (λ m. len ≡ option_map length (file_at m name.now))) }
        ensures files { SameFiles (files self.old) (files self.new) }
        ensures reads { reads self.new ≡ reads self.old };

    /// Gives the file's bytes from `at` on, all that fit in `buf`, and answers how many: none where there
    /// is no such file, or where `at` is at its end or past it.
    fn read_at(&mut self, name: &str, at: u64, buf: &mut [u8]) -> Result<usize, Failed>
        requires { IsFileName name.now }
        ensures cause { HasCause (faults self.old) (faults self.new) (IsErr result) }
        ensures count { IfOk result (λ n. n ≤ length buf.new) }
        ensures given { IfOk result (λ n. IfSome (files self.old)
            (λ m. take n buf.new ≡ bytes_at m name.now at (length buf.new))) }
        ensures files { SameFiles (files self.old) (files self.new) }
        ensures reads { AddsRead (files self.old) (reads self.old) (reads self.new)
            (record { name = name.now; offset = at; room = length buf.new }) };

    /// Makes these the bytes of the file, whether or not it is there. Every other file stays. Where the
    /// outside fails, the file is as before or has the new bytes.
    fn put(&mut self, name: &str, bytes: &[u8]) -> Result<(), Trouble>
        requires { IsFileName name.now }
        ensures cause { HasCause (faults self.old) (faults self.new) (IsErrOf result Trouble.Failed) }
        ensures ok { OnOk result (Puts (files self.old) (files self.new) name.now bytes.now) }
        ensures failed { IsErrOf result Trouble.Failed → PutLeaves name.now bytes.now (files self.old) (files self.new) }
        ensures memory { IsErrOf result Trouble.OutOfMemory → SameFiles (files self.old) (files self.new) }
        ensures reads { reads self.new ≡ reads self.old };
}
