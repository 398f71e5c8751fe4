//! Bitmaps of an opened index file, each read by itself.

ghost use Rattle.std.specs.Prelude.{◌≡◌, ◌+◌, ◌<◌, None, IfErr, IfOk, IfSome, IsErrOf, length, slice_index};
ghost use Rattle.fb_outside.specs.Causes.{HasCause};
ghost use Rattle.fb_outside.specs.Files.{SameFiles, bytes_at};
ghost use Rattle.fb_outside.specs.Reads.{AddsRead};
ghost use Rattle.wah_words.specs.Bytes.{spelling, vector_at};
ghost use Rattle.index_file.specs.Fetching.{StopsFetching, bitmap_in, room_in, to_its_end};
ghost use Rattle.index_file.specs.Opening.{IsAnswer, listed};
ghost use Rattle.index_file.specs.Places.{bitmap_look, room_at};

use crate::fault::IndexFault;
use crate::head::IndexHead;
use fb_outside::{FileName, Store};
use std::alloc::Global;
use wah_words::{Wah, WordsFault};

/// Bitmap `k` of an opened index, by one read of just its bytes.
pub fn fetch<S: Store>(
    alloc: Global,
    store: &mut S,
    head: &IndexHead,
    k: u32,
) -> Result<Wah, IndexFault>
    requires { k + 1 < length head.now.offsets }
    ensures cause { HasCause (S.faults store.old) (S.faults store.new) (IsErrOf result IndexFault.Store) }
    ensures rows { IfOk result (λ bits. length bits ≡ head.now.rows) }
    ensures stop { IfErr result (StopsFetching k) }

    // The bytes between the places are one vector of so many bits, to their end, or have a first fault.
    ensures exact { IfSome (S.files store.old) (λ m. IsAnswer result (bitmap_in k head.now.rows (room_at head.now.offsets k)
        (bytes_at m head.now.name (slice_index head.now.offsets k) (room_at head.now.offsets k)))) }

    // Without the definitions of the faults: a bitmap that is fetched is spelled there.
    ensures found { IfOk result (λ bits. IfSome (S.files store.old) (λ m.
        bytes_at m head.now.name (slice_index head.now.offsets k) (room_at head.now.offsets k) ≡ spelling bits)) }
    ensures files { SameFiles (S.files store.old) (S.files store.new) }

    // One read of just these bytes; it may be wanting where memory runs out.
    ensures once { (IsErrOf result IndexFault.OutOfMemory → ⊥)
        → AddsRead (S.files store.old) (S.reads store.old) (S.reads store.new) (bitmap_look head.now.name head.now.offsets k) }
    ensures reads { AddsRead None (S.reads store.old) (S.reads store.new) (bitmap_look head.now.name head.now.offsets k) }
{
    let offsets = head.offsets.as_slice();
    let at = offsets[k as usize];
    let size = offsets[k as usize + 1] - at;
    let bytes = read_bitmap(alloc, store, &head.name, k, at, size)?;
    bitmap_of(alloc, &bytes, k, head.rows)
}

/// The bytes of bitmap `k`, of which there are so many from a place on.
fn read_bitmap<S: Store>(
    alloc: Global,
    store: &mut S,
    name: &FileName,
    k: u32,
    at: u64,
    size: u64,
) -> Result<Vec<u8>, IndexFault>
    ensures cause { HasCause (S.faults store.old) (S.faults store.new) (IsErrOf result IndexFault.Store) }
    ensures size { IfOk result (λ bytes. length bytes.items ≡ size) }
    ensures stop { IfErr result (StopsFetching k) }
    ensures given { IfOk result (λ bytes. IfSome (S.files store.old) (λ m. bytes_at m name.now at size ≡ bytes.items)) }
    ensures exact { IfSome (S.files store.old) (λ m. IsAnswer (listed result) (room_in k size (bytes_at m name.now at size))) }
    ensures files { SameFiles (S.files store.old) (S.files store.new) }
    ensures once { (IsErrOf result IndexFault.OutOfMemory → ⊥)
        → AddsRead (S.files store.old) (S.reads store.old) (S.reads store.new) (record { name = name.now; offset = at; room = size }) }
    ensures reads { AddsRead None (S.reads store.old) (S.reads store.new) (record { name = name.now; offset = at; room = size }) }
{
    let Ok(mut bytes) = vec![in alloc; 0; size as usize] else {
        return Err(IndexFault::OutOfMemory);
    };
    match store.read_at(name.as_str(), at, &mut bytes) {
        Ok(have) if have as u64 == size => Ok(bytes),
        Ok(_) => Err(IndexFault::Bitmap(k, WordsFault::Short)),
        Err(_) => Err(IndexFault::Store),
    }
}

/// Bitmap `k` of so many rows, whose bytes these are.
fn bitmap_of(alloc: Global, bytes: &[u8], k: u32, rows: u32) -> Result<Wah, IndexFault>
    ensures exact { IsAnswer result (to_its_end k rows (length bytes.now) (vector_at bytes.now)) }
    ensures found { IfOk result (λ bits. bytes.now ≡ spelling bits) }
    ensures rows { IfOk result (λ bits. length bits ≡ rows) }
    ensures stop { IfErr result (StopsFetching k) }
    ensures unfailed { IsErrOf result IndexFault.Store → ⊥ }
{
    match Wah::from_bytes(alloc, bytes) {
        Ok((bits, used)) if used < bytes.len() => Err(IndexFault::BitmapTrailing(k)),
        Ok((bits, _)) if bits.len() != rows => Err(IndexFault::BitmapLength(k)),
        Ok((bits, _)) => Ok(bits),
        Err(WordsFault::OutOfMemory) => Err(IndexFault::OutOfMemory),
        Err(fault) => Err(IndexFault::Bitmap(k, fault)),
    }
}
