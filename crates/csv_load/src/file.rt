ghost use Rattle.std.specs.Prelude.{◌≡◌, ◌≤◌, Some, IfOk, IfErr, IfSome, IsErrOf, length};
ghost use Rattle.fb_outside.specs.Causes.{HasCause};
ghost use Rattle.fb_outside.specs.Files.{SameFiles, file_at};
ghost use Rattle.fb_outside.specs.Reads.{AddsOnly, AddsRead};
ghost use Rattle.csv_load.specs.File.{IsFileFault, IsBeforeRead, IsLookWithin, IsOver};

use fb_outside::{FileName, Store, Trouble, read_whole};
use std::alloc::Global;
use thiserror::Error;

/// Why a file isn't had whole.
#[derive(Debug, Drop, Error)]
pub enum FileFault {
    #[error("there is no such file")]
    Missing,
    #[error("the store failed")]
    Store,
    #[error("a file of {have} bytes, over {limit}")]
    TooLong { have: u64, limit: u64 },
    /// Fewer bytes came than the store had told.
    #[error("the file ended before its length")]
    Short,
    #[error("out of memory")]
    OutOfMemory,
}

/// All bytes of a file of up to `limit` bytes: by a question for its length and one read of so many.
pub fn read_file<S: Store>(
    alloc: Global,
    store: &mut S,
    name: &FileName,
    limit: u64,
) -> Result<Vec<u8>, FileFault>
    ensures cause { HasCause (S.faults store.old) (S.faults store.new) (IsErrOf result FileFault.Store) }
    ensures given { IfOk result (λ bytes. IfSome (S.files store.old) (λ m. file_at m name.now ≡ Some bytes.items)) }
    ensures within { IfOk result (λ bytes. length bytes.items ≤ limit) }
    ensures fault { IfErr result (λ fault. IfSome (S.files store.old) (λ m. IsFileFault limit (file_at m name.now) fault)) }
    ensures over { IfErr result (IsOver limit) }
    ensures files { SameFiles (S.files store.old) (S.files store.new) }

    // A file is looked at once, and not where its length refuses it.
    ensures reads { AddsOnly (IsLookWithin limit (S.files store.old) name.now) (S.reads store.old) (S.reads store.new) }
    ensures once { IfOk result (λ bytes. AddsRead (S.files store.old) (S.reads store.old) (S.reads store.new)
        (record { name = name.now; offset = 0; room = length bytes.items })) }
    ensures unread { IfErr result (λ fault. IsBeforeRead fault → S.reads store.new ≡ S.reads store.old) }
{
    let have = match store.len(name.as_str()) {
        Ok(Some(len)) => len,
        Ok(None) => return Err(FileFault::Missing),
        Err(_) => return Err(FileFault::Store),
    };
    if have > limit {
        return Err(FileFault::TooLong { have, limit });
    }
    match read_whole(alloc, store, name, have as usize) {
        Ok(bytes) if bytes.len() as u64 == have => Ok(bytes),
        Ok(_) => Err(FileFault::Short),
        Err(Trouble::OutOfMemory) => Err(FileFault::OutOfMemory),
        Err(Trouble::Failed) => Err(FileFault::Store),
    }
}
