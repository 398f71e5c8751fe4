//! Opening a text column: its starts, its mask, and how long its text file is.

ghost use Rattle.std.specs.Prelude.{◌≡◌, ◌==◌, ◌+◌, ◌*◌, ◌^◌, ◌<◌, ◌≤◌, ◌⊎◌, ℕ, Bool, List, [], ◌∷◌, Ok, Err, Some, IfErr, IfOk, IfSome, IsErrOf, OnOk, length, slice_index, option_map};
ghost use Rattle.fb_outside.specs.Causes.{HasCause};
ghost use Rattle.fb_outside.specs.Files.{SameFiles, file_at, told_at};
ghost use Rattle.fb_outside.specs.Reads.{AddsOnly, AddsRead, AddsReads, IsWholeLook, whole_look};
ghost use Rattle.wah_words.specs.Bytes.{spelling};
ghost use Rattle.column_file.specs.Opening.{mask_in};
ghost use Rattle.answers.specs.Answers.{Answers};
ghost use Rattle.wah_words.specs.Limits.{most_bits};
ghost use Rattle.text_column.specs.OpenedTexts.{StopsMasked, StopsOpeningText, StopsStarts, and_mask, listed, masked, opened_text, starts_in, text_in, told_by_files};
ghost use Rattle.text_column.specs.Texts.{first_below, first_wrong, starts_at, starts_bytes, starts_of, text_file};

use crate::fault::TextFault;
use crate::text_ref::TextRef;
use column_file::{ColFault, open_mask};
use fb_outside::{FileName, Store, Trouble, file_bytes};
use std::alloc::{AllocError, Global};
use wah_words::Wah;

/// Opens a text column with so many rows: asks how long its text file is, and reads its starts file and its mask file.
pub fn open_text<S: Store>(
    alloc: Global,
    store: &mut S,
    name: &FileName,
    starts_name: &FileName,
    mask_name: &FileName,
    rows: u32,
) -> Result<TextRef, TextFault>
    ensures cause { HasCause (S.faults store.old) (S.faults store.new) (IsErrOf result TextFault.Store) }
    ensures opened { IfOk result (λ text. (text.name ≡ name.now) × (text.rows ≡ rows) × (length text.mask ≡ rows)) }
    ensures stop { IfErr result (StopsOpeningText rows) }

    // The three files are those of such a column, or have a first fault.
    ensures exact { IfSome (S.files store.old) (λ m. Answers told_by_files (opened_text result)
        (text_in rows (file_at m name.now) (file_at m starts_name.now) (file_at m mask_name.now))) }

    // What is written is opened.
    ensures only { (texts : List (List ℕ)) (bits : List Bool) → length texts ≡ rows → length bits ≡ rows → length bits ≤ most_bits
        → length (text_file texts) < 2 ^ 64 → told_at (S.files store.old) name.now ≡ Some (text_file texts)
        → told_at (S.files store.old) starts_name.now ≡ Some (starts_bytes (starts_of texts))
        → told_at (S.files store.old) mask_name.now ≡ Some (spelling bits) → Answers told_by_files (opened_text result) (Ok (starts_of texts, bits)) }
    ensures files { SameFiles (S.files store.old) (S.files store.new) }

    // The starts and then the mask are read, each whole and once.
    ensures reads { AddsOnly (λ look. IsWholeLook (S.files store.old) starts_name.now look ⊎ IsWholeLook (S.files store.old) mask_name.now look)
        (S.reads store.old) (S.reads store.new) }
    ensures once { OnOk result (IfSome (S.files store.old) (λ m. AddsReads (S.reads store.old) (S.reads store.new)
        (λ added. added ≡ whole_look m starts_name.now ∷ whole_look m mask_name.now ∷ []))) }
{
    open_files(alloc, store, name, starts_name, mask_name, rows)
}

fn open_files<S: Store>(
    alloc: Global,
    store: &mut S,
    name: &FileName,
    starts_name: &FileName,
    mask_name: &FileName,
    rows: u32,
) -> Result<TextRef, TextFault>
    ensures cause { HasCause (S.faults store.old) (S.faults store.new) (IsErrOf result TextFault.Store) }
    ensures opened { IfOk result (λ text. (text.name ≡ name.now) × (text.rows ≡ rows) × (length text.mask ≡ rows)) }
    ensures stop { IfErr result (StopsOpeningText rows) }
    ensures exact { IfSome (S.files store.old) (λ m. Answers told_by_files (opened_text result)
        (text_in rows (file_at m name.now) (file_at m starts_name.now) (file_at m mask_name.now))) }
    ensures files { SameFiles (S.files store.old) (S.files store.new) }
    ensures reads { AddsOnly (λ look. IsWholeLook (S.files store.old) starts_name.now look ⊎ IsWholeLook (S.files store.old) mask_name.now look)
        (S.reads store.old) (S.reads store.new) }
    ensures once { OnOk result (IfSome (S.files store.old) (λ m. AddsReads (S.reads store.old) (S.reads store.new)
        (λ added. added ≡ whole_look m starts_name.now ∷ whole_look m mask_name.now ∷ []))) }
{
    match store.len(name.as_str()) {
        Ok(Some(size)) => open_sized(alloc, store, name, starts_name, mask_name, size, rows),
        Ok(None) => Err(TextFault::Missing),
        Err(_) => Err(TextFault::Store),
    }
}

/// The column, its text file having this size.
fn open_sized<S: Store>(
    alloc: Global,
    store: &mut S,
    name: &FileName,
    starts_name: &FileName,
    mask_name: &FileName,
    size: u64,
    rows: u32,
) -> Result<TextRef, TextFault>
    ensures cause { HasCause (S.faults store.old) (S.faults store.new) (IsErrOf result TextFault.Store) }
    ensures opened { IfOk result (λ text. (text.name ≡ name.now) × (text.rows ≡ rows) × (length text.mask ≡ rows)) }
    ensures stop { IfErr result (StopsOpeningText rows) }
    ensures exact { IfSome (S.files store.old) (λ m. Answers told_by_files (opened_text result)
        (and_mask (starts_in size rows (file_at m starts_name.now)) (masked (mask_in rows (file_at m mask_name.now))))) }
    ensures files { SameFiles (S.files store.old) (S.files store.new) }
    ensures reads { AddsOnly (λ look. IsWholeLook (S.files store.old) starts_name.now look ⊎ IsWholeLook (S.files store.old) mask_name.now look)
        (S.reads store.old) (S.reads store.new) }
    ensures once { OnOk result (IfSome (S.files store.old) (λ m. AddsReads (S.reads store.old) (S.reads store.new)
        (λ added. added ≡ whole_look m starts_name.now ∷ whole_look m mask_name.now ∷ []))) }
{
    let starts = read_starts(alloc, store, starts_name, size, rows)?;
    let mask = read_mask(alloc, store, mask_name, rows)?;
    let Ok(name) = name.copy(alloc) else {
        return Err(TextFault::OutOfMemory);
    };
    Ok(TextRef {
        name,
        rows,
        mask,
        starts,
    })
}

/// The mask of so many rows.
fn read_mask<S: Store>(
    alloc: Global,
    store: &mut S,
    name: &FileName,
    rows: u32,
) -> Result<Wah, TextFault>
    ensures cause { HasCause (S.faults store.old) (S.faults store.new) (IsErrOf result TextFault.Store) }
    ensures rows { IfOk result (λ mask. length mask ≡ rows) }
    ensures stop { IfErr result (StopsMasked rows) }
    ensures exact { IfSome (S.files store.old) (λ m. Answers told_by_files result (masked (mask_in rows (file_at m name.now)))) }
    ensures files { SameFiles (S.files store.old) (S.files store.new) }
    ensures reads { AddsOnly (IsWholeLook (S.files store.old) name.now) (S.reads store.old) (S.reads store.new) }
    ensures once { OnOk result (IfSome (S.files store.old) (λ m. AddsRead (Some m) (S.reads store.old) (S.reads store.new) (whole_look m name.now))) }
{
    match open_mask(alloc, store, name, rows) {
        Ok(mask) => Ok(mask),
        Err(ColFault::Store) => Err(TextFault::Store),
        Err(ColFault::OutOfMemory) => Err(TextFault::OutOfMemory),
        Err(fault) => Err(TextFault::Mask(fault)),
    }
}

/// The starts of so many rows of a text file of this size, by one read of their whole file.
fn read_starts<S: Store>(
    alloc: Global,
    store: &mut S,
    name: &FileName,
    size: u64,
    rows: u32,
) -> Result<Vec<u64>, TextFault>
    ensures cause { HasCause (S.faults store.old) (S.faults store.new) (IsErrOf result TextFault.Store) }
    ensures counted { IfOk result (λ starts. length starts.items ≡ rows + 1) }
    ensures rising { IfOk result (λ starts. first_wrong starts.items ≡ None) }
    ensures stop { IfErr result (StopsStarts rows) }
    ensures exact { IfSome (S.files store.old) (λ m. Answers told_by_files (listed result) (starts_in size rows (file_at m name.now))) }
    ensures files { SameFiles (S.files store.old) (S.files store.new) }
    ensures reads { AddsOnly (IsWholeLook (S.files store.old) name.now) (S.reads store.old) (S.reads store.new) }
    ensures once { OnOk result (IfSome (S.files store.old) (λ m. AddsRead (Some m) (S.reads store.old) (S.reads store.new) (whole_look m name.now))) }
{
    match file_bytes(alloc, store, name) {
        Ok(Some(bytes)) => starts_of_bytes(alloc, &bytes, size, rows),
        Ok(None) => Err(TextFault::StartsMissing),
        Err(Trouble::Failed) => Err(TextFault::Store),
        Err(Trouble::OutOfMemory) => Err(TextFault::OutOfMemory),
    }
}

/// The starts that the bytes of a whole file spell.
fn starts_of_bytes(alloc: Global, bytes: &[u8], size: u64, rows: u32) -> Result<Vec<u64>, TextFault>
    ensures exact { Answers told_by_files (listed result) (starts_in size rows (Some bytes.now)) }
    ensures counted { IfOk result (λ starts. length starts.items ≡ rows + 1) }
    ensures rising { IfOk result (λ starts. first_wrong starts.items ≡ None) }
    ensures stop { IfErr result (StopsStarts rows) }
    ensures unfailed { IsErrOf result TextFault.Store → ⊥ }
{
    let want = 8 * (u64::from(rows) + 1);
    let have = bytes.len() as u64;
    if have != want {
        return Err(TextFault::StartsLength { want, have });
    }
    let Ok(starts) = numbers_of(alloc, bytes, rows) else {
        return Err(TextFault::OutOfMemory);
    };
    if let Some(place) = wrong_start(&starts) {
        return Err(TextFault::NotRising(place));
    }
    let last = starts[rows as usize];
    if last == size {
        Ok(starts)
    } else {
        Err(TextFault::LastStart {
            want: size,
            have: last,
        })
    }
}

/// The numbers of eight bytes each, one more than the rows.
#[tactic(auto, unfolding(crate::specs::Texts::starts_at))]
fn numbers_of(alloc: Global, bytes: &[u8], rows: u32) -> Result<Vec<u64>, AllocError>
    requires { length bytes.now ≡ 8 * (rows + 1) }
    ensures value { IfOk result (λ numbers. numbers.items ≡ starts_at (rows + 1) bytes.now) }
    ensures len { IfOk result (λ numbers. length numbers.items ≡ rows + 1) }
{
    let (pieces, _) = bytes.as_chunks::<8>();
    let mut numbers = Vec::with_capacity(alloc, pieces.len())?;
    for piece in pieces {
        numbers.push(u64::from_le_bytes(*piece))?;
    }
    Ok(numbers)
}

/// The place of the first start that is below the one before it; the first one has to be 0.
fn wrong_start(starts: &[u64]) -> Option<u32>
    requires { length starts.now ≤ 2 ^ 32 }
    ensures value { result ≡ first_wrong starts.now }
    ensures within { IfSome result (λ place. place < length starts.now) }
{
    let [first, later @ ..] = starts else {
        return None;
    };
    if *first != 0 {
        return Some(0);
    }
    match place_below(later) {
        Some(place) => Some(place + 1),
        None => None,
    }
}

/// The place of the first number that is below the one before it.
fn place_below(numbers: &[u64]) -> Option<u32>
    requires { length numbers.now < 2 ^ 32 }
    ensures value { result ≡ first_below 0 numbers.now }
    ensures within { IfSome result (λ place. place < length numbers.now) }
{
    let mut last = 0;
    for (place, number) in numbers.iter().enumerate() {
        if *number < last {
            return Some(place as u32);
        }
        last = *number;
    }
    None
}
