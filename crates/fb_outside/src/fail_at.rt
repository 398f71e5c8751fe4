ghost use Rattle.std.specs.Prelude.{◌≡◌, IfOk, map};
ghost use Rattle.fb_outside.specs.Memory.{fault_at, plain_fail};

use std::alloc::{AllocError, Global};

/// A call that fails, by its number: the calls of an object count from 0.
#[derive(Clone, Copy, Debug, PartialEq, Eq)]
pub struct FailAt {
    pub call: u64,
    /// Whether a `put` that fails leaves the new bytes. Else it leaves what was there.
    pub keep_new: bool,
}

/// Whether this call fails, and then what it leaves. The first entry of the call counts.
pub(crate) fn fault_in(fails: &[FailAt], call: u64) -> Option<bool>
    ensures { result ≡ fault_at fails.now call }
{
    for fail in fails {
        if fail.call == call {
            return Some(fail.keep_new);
        }
    }
    None
}

/// Plain failures at these calls.
pub(crate) fn plain_fails(alloc: Global, calls: &[u64]) -> Result<Vec<FailAt>, AllocError>
    ensures { IfOk result (λ fails. fails.items ≡ map plain_fail calls.now) }
{
    calls
        .iter()
        .map(|call| FailAt {
            call: *call,
            keep_new: false,
        })
        .collect(alloc)
}
