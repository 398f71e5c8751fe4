//! The mask file: a bit for each row, 1 where the row has a value.

ghost use Rattle.std.specs.Prelude.{◌≡◌, ◌==◌, ◌+◌, ◌≤◌, if◌then◌else◌, Bool, List, Ok, Some, IfErr, IfOk, IfSome, IsErrOf, OnOk, length};
ghost use Rattle.fb_outside.specs.Causes.{HasCause};
ghost use Rattle.fb_outside.specs.Files.{PutLeaves, Puts, SameFiles, file_at, told_at};
ghost use Rattle.fb_outside.specs.Reads.{AddsOnly, AddsRead, IsWholeLook, whole_look};
ghost use Rattle.wah_words.specs.Bytes.{spelling, vector_at};
ghost use Rattle.wah_words.specs.Spelling.{words_of};
ghost use Rattle.answers.specs.Answers.{Answers};
ghost use Rattle.wah_words.specs.Limits.{most_bits};
ghost use Rattle.column_file.specs.Opening.{IsOfMask, StopsMask, StopsWriting, mask_in, to_its_end, told_by_files};

use crate::fault::ColFault;
use crate::values::put_bytes;
use fb_outside::{FileName, Store, Trouble, file_bytes};
use std::alloc::Global;
use std::sync::ledger::Ledger;
use steps::Steps;
use wah_words::{Wah, WordsFault};

/// Writes the mask file of a column: the vector's bytes.
pub fn write_mask<S: Store, L: Ledger>(
    alloc: Global,
    store: &mut S,
    name: &FileName,
    mask: &Wah,
    steps: &mut Steps<L>,
) -> Result<(), ColFault>
    ensures cause { HasCause (S.faults store.old) (S.faults store.new) (IsErrOf result ColFault.Store) }
    ensures ok { OnOk result (Puts (S.files store.old) (S.files store.new) name.now (spelling mask.now)) }
    ensures store { IsErrOf result ColFault.Store → PutLeaves name.now (spelling mask.now) (S.files store.old) (S.files store.new) }
    ensures memory { IsErrOf result ColFault.OutOfMemory → SameFiles (S.files store.old) (S.files store.new) }
    ensures stop { IfErr result StopsWriting }
    ensures reads { S.reads store.new ≡ S.reads store.old }
    ensures steps { OnOk result (steps.new ≡ steps.old + words_of mask.now) }
    ensures few { steps.new ≤ steps.old + words_of mask.now }
{
    let Ok(bytes) = mask.to_bytes(alloc, steps) else {
        return Err(ColFault::OutOfMemory);
    };
    put_bytes(store, name, &bytes)
}

/// The mask of a column with so many rows, by one read of its whole file.
pub fn open_mask<S: Store>(
    alloc: Global,
    store: &mut S,
    name: &FileName,
    rows: u32,
) -> Result<Wah, ColFault>
    ensures cause { HasCause (S.faults store.old) (S.faults store.new) (IsErrOf result ColFault.Store) }
    ensures rows { IfOk result (λ mask. length mask ≡ rows) }
    ensures stop { IfErr result (StopsMask rows) }

    // The file is one vector of so many bits, to its end, or has a first fault.
    ensures exact { IfSome (S.files store.old) (λ m. Answers told_by_files result (mask_in rows (file_at m name.now))) }

    // Without the definitions of the faults: a mask that is opened is spelled so, and what is spelled so is opened.
    ensures found { IfOk result (λ mask. IfSome (S.files store.old) (λ m. file_at m name.now ≡ Some (spelling mask))) }
    ensures only { (bits : List Bool) → length bits ≡ rows → length bits ≤ most_bits → told_at (S.files store.old) name.now ≡ Some (spelling bits)
        → Answers told_by_files result (Ok bits) }
    ensures files { SameFiles (S.files store.old) (S.files store.new) }
    ensures reads { AddsOnly (IsWholeLook (S.files store.old) name.now) (S.reads store.old) (S.reads store.new) }
    ensures once { OnOk result (IfSome (S.files store.old) (λ m. AddsRead (Some m) (S.reads store.old) (S.reads store.new) (whole_look m name.now))) }
    ensures refused_once { IfErr result (λ fault. IsOfMask fault → IfSome (S.files store.old) (λ m. AddsRead (Some m) (S.reads store.old) (S.reads store.new) (whole_look m name.now))) }
{
    match file_bytes(alloc, store, name) {
        Ok(Some(bytes)) => mask_of(alloc, &bytes, rows),
        Ok(None) => Err(ColFault::MaskMissing),
        Err(Trouble::Failed) => Err(ColFault::Store),
        Err(Trouble::OutOfMemory) => Err(ColFault::OutOfMemory),
    }
}

/// The mask that the bytes of a whole file spell.
fn mask_of(alloc: Global, bytes: &[u8], rows: u32) -> Result<Wah, ColFault>
    ensures exact { Answers told_by_files result (to_its_end rows (length bytes.now) (vector_at bytes.now)) }
    ensures found { IfOk result (λ mask. bytes.now ≡ spelling mask) }
    ensures rows { IfOk result (λ mask. length mask ≡ rows) }
    ensures stop { IfErr result (StopsMask rows) }
    ensures unfailed { IsErrOf result ColFault.Store → ⊥ }
{
    match Wah::from_bytes(alloc, bytes) {
        Ok((mask, used)) if used == bytes.len() => with_rows(mask, rows),
        Ok(_) => Err(ColFault::MaskTrailing),
        Err(WordsFault::OutOfMemory) => Err(ColFault::OutOfMemory),
        Err(fault) => Err(ColFault::Mask(fault)),
    }
}

/// The mask, where it has a bit for each row.
fn with_rows(mask: Wah, rows: u32) -> Result<Wah, ColFault>
    ensures { result ≡ (if length mask == rows then Ok mask else Err (ColFault.MaskLength rows (length mask))) }
{
    let have = mask.len();
    if have == rows {
        Ok(mask)
    } else {
        Err(ColFault::MaskLength { want: rows, have })
    }
}
