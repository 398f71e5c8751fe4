ghost use Rattle.std.specs.Prelude.{◌≡◌, ◌≤◌, length, IfOk, IfSome, OnOk, IsErrOf, option_map};
ghost use Rattle.fb_outside.specs.Causes.{HasCause};
ghost use Rattle.fb_outside.specs.Files.{bytes_at, file_at, SameFiles};
ghost use Rattle.fb_outside.specs.Reads.{AddsOnly, AddsRead, IsWholeLook, whole_look};

use crate::file_name::FileName;
use crate::outside::{Store, Trouble};
use std::alloc::Global;

/// The first `len` bytes of a file by one read of so many from its beginning; fewer where the store gives
/// fewer, and none where there is no such file. Where memory runs out nothing was read.
pub fn read_whole<S: Store>(
    alloc: Global,
    store: &mut S,
    name: &FileName,
    len: usize,
) -> Result<Vec<u8>, Trouble>
    ensures cause { HasCause (S.faults store.old) (S.faults store.new) (IsErrOf result Trouble.Failed) }
    ensures given { IfOk result (λ bytes. IfSome (S.files store.old) (λ m. bytes.items ≡ bytes_at m name.now 0 len)) }
    ensures within { IfOk result (λ bytes. length bytes.items ≤ len) }
    ensures files { SameFiles (S.files store.old) (S.files store.new) }
    ensures read { (IsErrOf result Trouble.OutOfMemory → ⊥) → AddsRead (S.files store.old) (S.reads store.old) (S.reads store.new)
        (record { name = name.now; offset = 0; room = len }) }
    ensures unread { IsErrOf result Trouble.OutOfMemory → S.reads store.new ≡ S.reads store.old }

    // What is read in either case, as a layer above joins it with its other reads.
    ensures reads { AddsOnly (λ look. look ≡ record { name = name.now; offset = 0; room = len }) (S.reads store.old) (S.reads store.new) }
{
    let Ok(mut bytes) = vec![in alloc; 0; len] else {
        return Err(Trouble::OutOfMemory);
    };
    match store.read_at(name.as_str(), 0, &mut bytes) {
        Ok(n) => {
            bytes.truncate(n);
            Ok(bytes)
        }
        Err(_) => Err(Trouble::Failed),
    }
}

/// All bytes of a file, or None where there is no such file: by a question for its length and one read of so many.
pub fn file_bytes<S: Store>(
    alloc: Global,
    store: &mut S,
    name: &FileName,
) -> Result<Option<Vec<u8>>, Trouble>
    ensures cause { HasCause (S.faults store.old) (S.faults store.new) (IsErrOf result Trouble.Failed) }
    ensures given { IfOk result (λ bytes. IfSome (S.files store.old) (λ m. option_map (λ v. v.items) bytes ≡ file_at m name.now)) }
    ensures files { SameFiles (S.files store.old) (S.files store.new) }
    ensures reads { AddsOnly (IsWholeLook (S.files store.old) name.now) (S.reads store.old) (S.reads store.new) }
    ensures once { OnOk result (IfSome (S.files store.old) (λ m. AddsRead (Some m) (S.reads store.old) (S.reads store.new) (whole_look m name.now))) }
{
    match store.len(name.as_str()) {
        Ok(None) => Ok(None),
        Ok(Some(len)) => match read_whole(alloc, store, name, len as usize) {
            Ok(bytes) => Ok(Some(bytes)),
            Err(trouble) => Err(trouble),
        },
        Err(_) => Err(Trouble::Failed),
    }
}
