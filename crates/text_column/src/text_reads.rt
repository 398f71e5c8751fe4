//! Texts of an opened text column, read by rows.

ghost use Rattle.std.specs.Prelude.{◌≡◌, ◌+◌, ◌-◌, ◌<◌, ◌≤◌, ℕ, List, Some, IfErr, IfOk, IfSome, IsErrOf, OnErr, OnOk, drop, length, slice_index, take};
ghost use Rattle.fb_outside.specs.Causes.{HasCause};
ghost use Rattle.fb_outside.specs.Files.{SameFiles, bytes_at, told_at};
ghost use Rattle.fb_outside.specs.Reads.{AddsOnly, AddsRead};
ghost use Rattle.answers.specs.Answers.{Answers};
ghost use Rattle.text_column.specs.OpenedTexts.{StopsReadingTexts, listed, part_in, read_in, told_by_files};
ghost use Rattle.text_column.specs.Texts.{AreWithin, size_between, starts_between, starts_of, text_file, texts_at};

use crate::fault::TextFault;
use crate::text_ref::TextRef;
use fb_outside::{FileName, Store};
use fb_types::Label;
use std::alloc::{AllocError, Global};

/// Reads the texts of the rows from `first` to `end - 1`, in order, by one read of just their bytes into one buffer,
/// and by none where they have no bytes.
pub fn read_texts<S: Store>(
    alloc: Global,
    store: &mut S,
    text: &TextRef,
    first: u32,
    end: u32,
) -> Result<Vec<Label>, TextFault>
    requires order { first ≤ end }
    requires rows { end ≤ text.now.rows }
    ensures cause { HasCause (S.faults store.old) (S.faults store.new) (IsErrOf result TextFault.Store) }
    ensures stop { IfErr result StopsReadingTexts }
    ensures count { IfOk result (λ texts. length texts.items ≡ end - first) }

    // The texts are those whose bytes stand there, or some of the bytes are missing.
    ensures exact { IfSome (S.files store.old) (λ m. Answers told_by_files (listed result)
        (read_in (size_between text.now.starts.items first end) (starts_between text.now.starts.items first end)
        (bytes_at m text.now.name (slice_index text.now.starts.items first) (size_between text.now.starts.items first end)))) }

    // Over a file that has the last start's length no bytes are missing, and over the bytes of texts the rows are those.
    ensures whole { (bytes : List ℕ) → told_at (S.files store.old) text.now.name ≡ Some bytes
        → length bytes ≡ slice_index text.now.starts.items text.now.rows
        → IsErrOf result TextFault.ShortRead → ⊥ }
    ensures rows { (texts : List (List ℕ)) → text.now.starts.items ≡ starts_of texts
        → told_at (S.files store.old) text.now.name ≡ Some (text_file texts)
        → IfOk result (λ read. read.items ≡ take (end - first) (drop first texts)) }
    ensures files { SameFiles (S.files store.old) (S.files store.new) }

    // One read of just these bytes, or of none.
    ensures reads { AddsOnly (λ look. look ≡ record { name = text.now.name; offset = slice_index text.now.starts.items first; room = size_between text.now.starts.items first end })
        (S.reads store.old) (S.reads store.new) }
    ensures once { (IsErrOf result TextFault.OutOfMemory → ⊥) → 0 < size_between text.now.starts.items first end
        → AddsRead (S.files store.old) (S.reads store.old) (S.reads store.new)
        (record { name = text.now.name; offset = slice_index text.now.starts.items first; room = size_between text.now.starts.items first end }) }
    ensures none { size_between text.now.starts.items first end ≡ 0 → S.reads store.new ≡ S.reads store.old }
{
    texts_between(alloc, store, text, first, end)
}

fn texts_between<S: Store>(
    alloc: Global,
    store: &mut S,
    text: &TextRef,
    first: u32,
    end: u32,
) -> Result<Vec<Label>, TextFault>
    requires order { first ≤ end }
    requires rows { end ≤ text.now.rows }
    ensures cause { HasCause (S.faults store.old) (S.faults store.new) (IsErrOf result TextFault.Store) }
    ensures stop { IfErr result StopsReadingTexts }
    ensures count { IfOk result (λ texts. length texts.items ≡ end - first) }
    ensures exact { IfSome (S.files store.old) (λ m. Answers told_by_files (listed result)
        (read_in (size_between text.now.starts.items first end) (starts_between text.now.starts.items first end)
        (bytes_at m text.now.name (slice_index text.now.starts.items first) (size_between text.now.starts.items first end)))) }
    ensures files { SameFiles (S.files store.old) (S.files store.new) }
    ensures reads { AddsOnly (λ look. look ≡ record { name = text.now.name; offset = slice_index text.now.starts.items first; room = size_between text.now.starts.items first end })
        (S.reads store.old) (S.reads store.new) }
    ensures once { (IsErrOf result TextFault.OutOfMemory → ⊥) → 0 < size_between text.now.starts.items first end
        → AddsRead (S.files store.old) (S.reads store.old) (S.reads store.new)
        (record { name = text.now.name; offset = slice_index text.now.starts.items first; room = size_between text.now.starts.items first end }) }
    ensures none { size_between text.now.starts.items first end ≡ 0 → S.reads store.new ≡ S.reads store.old }
{
    let starts = text.starts.as_slice();
    let at = starts[first as usize];
    let size = starts[end as usize] - at;
    let bytes = read_part(alloc, store, &text.name, at, size)?;
    let between = &starts[first as usize..end as usize + 1];
    match texts_of(alloc, between, &bytes) {
        Ok(texts) => Ok(texts),
        Err(_) => Err(TextFault::OutOfMemory),
    }
}

/// So many bytes of a file from a place on, by one read, and by none where there are none.
fn read_part<S: Store>(
    alloc: Global,
    store: &mut S,
    name: &FileName,
    at: u64,
    size: u64,
) -> Result<Vec<u8>, TextFault>
    ensures cause { HasCause (S.faults store.old) (S.faults store.new) (IsErrOf result TextFault.Store) }
    ensures stop { IfErr result StopsReadingTexts }
    ensures size { IfOk result (λ bytes. length bytes.items ≡ size) }
    ensures exact { IfSome (S.files store.old) (λ m. Answers told_by_files (listed result) (part_in size (bytes_at m name.now at size))) }
    ensures files { SameFiles (S.files store.old) (S.files store.new) }
    ensures reads { AddsOnly (λ look. look ≡ record { name = name.now; offset = at; room = size }) (S.reads store.old) (S.reads store.new) }
    ensures once { (IsErrOf result TextFault.OutOfMemory → ⊥) → 0 < size → AddsRead (S.files store.old) (S.reads store.old) (S.reads store.new)
        (record { name = name.now; offset = at; room = size }) }
    ensures none { size ≡ 0 → S.reads store.new ≡ S.reads store.old }
{
    if size == 0 {
        return Ok(Vec::new(alloc));
    }
    let Ok(mut bytes) = vec![in alloc; 0; size as usize] else {
        return Err(TextFault::OutOfMemory);
    };
    match store.read_at(name.as_str(), at, &mut bytes) {
        Ok(have) if have as u64 == size => Ok(bytes),
        Ok(_) => Err(TextFault::ShortRead),
        Err(_) => Err(TextFault::Store),
    }
}

/// The texts that the starts part in bytes that begin at the first of them.
fn texts_of(alloc: Global, starts: &[u64], bytes: &[u8]) -> Result<Vec<Label>, AllocError>
    requires { AreWithin starts.now bytes.now }
    ensures { IfOk result (λ texts. texts.items ≡ texts_at starts.now bytes.now) }
{
    let mut texts = Vec::with_capacity(alloc, starts.len())?;
    let mut starts = starts;
    let mut bytes = bytes;
    while let [start, next, ..] = starts {
        let (text, rest) = bytes.split_at((next - start) as usize);
        texts.push(Label::from_bytes(alloc, text)?)?;
        starts = &starts[1..];
        bytes = rest;
    }
    Ok(texts)
}
