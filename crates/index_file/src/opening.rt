//! Index files opened by their heads.

ghost use Rattle.std.specs.Prelude.{◌≡◌, ◌≤◌, None, IfErr, IfOk, IfSome, IsErrOf, OnOk, length, option_map, slice_index};
ghost use Rattle.fb_outside.specs.Causes.{HasCause};
ghost use Rattle.fb_outside.specs.Files.{SameFiles, bytes_at, file_at};
ghost use Rattle.fb_outside.specs.Reads.{AddsOnly, AddsRead};
ghost use Rattle.index_spec.specs.Printed.{printed};
ghost use Rattle.index_file.specs.Front.{front_in, rest_size, size_of};
ghost use Rattle.index_file.specs.IndexFile.{front_bytes, head_bytes};
ghost use Rattle.index_file.specs.Opening.{EndsBy, IsAnswer, IsHeadLook, StopsFront, StopsOpening, StopsRest, front_look, index_in, listed, opened_index, rest_in, rest_look, some_head, with_front};

use crate::fault::IndexFault;
use crate::front::{FRONT_BYTES, Front, front_of};
use crate::head::IndexHead;
use crate::parts::head_of;
use fb_outside::{FileName, Store};
use std::alloc::Global;

/// Opens an index of so many rows by two reads, of the first 24 bytes of its file and of the rest of its head; None where
/// there is no such file.
pub fn open_index<S: Store>(
    alloc: Global,
    store: &mut S,
    name: &FileName,
    rows: u32,
) -> Result<Option<IndexHead>, IndexFault>
    ensures cause { HasCause (S.faults store.old) (S.faults store.new) (IsErrOf result IndexFault.Store) }
    ensures named { IfOk result (λ index. IfSome index (λ head. (head.name ≡ name.now) × (head.rows ≡ rows))) }
    ensures stop { IfErr result (StopsOpening rows) }

    // The file's head is that of such an index, or has a first fault.
    ensures exact { IfSome (S.files store.old) (λ m. IsAnswer (opened_index result) (index_in rows (file_at m name.now))) }

    // Without the definitions of the faults: a file that is opened begins with the head's bytes.
    ensures found { IfOk result (λ index. IfSome index (λ head. IfSome (S.files store.old) (λ m.
        bytes_at m name.now 0 (slice_index head.offsets 0) ≡ head_bytes rows (printed head.spec) head.bins head.offsets))) }
    ensures files { SameFiles (S.files store.old) (S.files store.new) }

    // Each read ends within the first 24 bytes or the head whose length these give; where it opens, before the bitmaps.
    ensures reads { AddsOnly (IsHeadLook (S.files store.old) name.now) (S.reads store.old) (S.reads store.new) }
    ensures before { IfOk result (λ index. IfSome index (λ head. AddsOnly (EndsBy name.now (slice_index head.offsets 0)) (S.reads store.old) (S.reads store.new))) }
{
    match file_size(store, name)? {
        Some(size) => open_sized(alloc, store, name, rows, size),
        None => Ok(None),
    }
}

/// The bytes of the file, or None where there is no such file.
fn file_size<S: Store>(store: &mut S, name: &FileName) -> Result<Option<u64>, IndexFault>
    ensures cause { HasCause (S.faults store.old) (S.faults store.new) (IsErrOf result IndexFault.Store) }
    ensures size { IfOk result (λ size. IfSome (S.files store.old) (λ m. size ≡ option_map length (file_at m name.now))) }
    ensures stop { IfErr result (λ fault. fault ≡ IndexFault.Store) }
    ensures files { SameFiles (S.files store.old) (S.files store.new) }
    ensures reads { S.reads store.new ≡ S.reads store.old }
{
    match store.len(name.as_str()) {
        Ok(size) => Ok(size),
        Err(_) => Err(IndexFault::Store),
    }
}

/// The index in a file of this size.
fn open_sized<S: Store>(
    alloc: Global,
    store: &mut S,
    name: &FileName,
    rows: u32,
    size: u64,
) -> Result<Option<IndexHead>, IndexFault>
    ensures cause { HasCause (S.faults store.old) (S.faults store.new) (IsErrOf result IndexFault.Store) }
    ensures named { IfOk result (λ index. IfSome index (λ head. (head.name ≡ name.now) × (head.rows ≡ rows))) }
    ensures stop { IfErr result (StopsOpening rows) }
    ensures exact { IfSome (S.files store.old) (λ m. IsAnswer (opened_index result)
        (some_head (with_front size (λ front. bytes_at m name.now 24 (rest_size front)) (front_in rows (bytes_at m name.now 0 24))))) }
    ensures found { IfOk result (λ index. IfSome index (λ head. IfSome (S.files store.old) (λ m.
        bytes_at m name.now 0 (slice_index head.offsets 0) ≡ head_bytes rows (printed head.spec) head.bins head.offsets))) }
    ensures files { SameFiles (S.files store.old) (S.files store.new) }
    ensures reads { AddsOnly (IsHeadLook (S.files store.old) name.now) (S.reads store.old) (S.reads store.new) }
    ensures before { IfOk result (λ index. IfSome index (λ head. AddsOnly (EndsBy name.now (slice_index head.offsets 0)) (S.reads store.old) (S.reads store.new))) }
{
    let front = read_front(store, name, rows)?;
    let rest = read_rest(alloc, store, name, front, size)?;
    let head = head_of(alloc, name, rows, size, front, &rest)?;
    Ok(Some(head))
}

/// What the first 24 bytes say of an index of so many rows.
fn read_front<S: Store>(store: &mut S, name: &FileName, rows: u32) -> Result<Front, IndexFault>
    ensures cause { HasCause (S.faults store.old) (S.faults store.new) (IsErrOf result IndexFault.Store) }
    ensures stop { IfErr result (StopsFront rows) }
    ensures exact { IfSome (S.files store.old) (λ m. IsAnswer result (front_in rows (bytes_at m name.now 0 24))) }
    ensures spelled { IfOk result (λ front. IfSome (S.files store.old) (λ m. bytes_at m name.now 0 24 ≡ front_bytes rows front.bins front.bitmaps front.text)) }
    ensures files { SameFiles (S.files store.old) (S.files store.new) }
    ensures reads { AddsRead (S.files store.old) (S.reads store.old) (S.reads store.new) (front_look name.now) }
{
    let mut bytes = [0; FRONT_BYTES];
    match store.read_at(name.as_str(), 0, &mut bytes) {
        Ok(have) => front_of(&bytes[..have], rows),
        Err(_) => Err(IndexFault::Store),
    }
}

/// The bytes of the head behind the first 24, where a file of this size has them. No memory is taken for a head that
/// the file hasn't.
fn read_rest<S: Store>(
    alloc: Global,
    store: &mut S,
    name: &FileName,
    front: Front,
    size: u64,
) -> Result<Vec<u8>, IndexFault>
    ensures cause { HasCause (S.faults store.old) (S.faults store.new) (IsErrOf result IndexFault.Store) }
    ensures len { IfOk result (λ bytes. length bytes.items ≡ rest_size front) }
    ensures given { IfOk result (λ bytes. IfSome (S.files store.old) (λ m. bytes_at m name.now 24 (rest_size front) ≡ bytes.items)) }
    ensures within { OnOk result (size_of front ≤ size) }
    ensures stop { IfErr result StopsRest }
    ensures exact { IfSome (S.files store.old) (λ m. IsAnswer (listed result) (rest_in size front (bytes_at m name.now 24 (rest_size front)))) }
    ensures files { SameFiles (S.files store.old) (S.files store.new) }
    ensures reads { AddsRead None (S.reads store.old) (S.reads store.new) (rest_look name.now front) }
    ensures once { OnOk result (AddsRead (S.files store.old) (S.reads store.old) (S.reads store.new) (rest_look name.now front)) }
{
    let end = front.size();
    if size < end {
        return Err(IndexFault::Short);
    }
    let want = end - FRONT_BYTES as u64;
    let Ok(mut bytes) = vec![in alloc; 0; want as usize] else {
        return Err(IndexFault::OutOfMemory);
    };
    match store.read_at(name.as_str(), FRONT_BYTES as u64, &mut bytes) {
        Ok(have) if have as u64 == want => Ok(bytes),
        Ok(_) => Err(IndexFault::Short),
        Err(_) => Err(IndexFault::Store),
    }
}
