//! The values of options.
ghost use Rattle.std.specs.Prelude.{◌≡◌, ◌≤◌, ◌<◌, ◌^◌, IfOk, IfSome, IsUtf8};
ghost use Rattle.fb_outside.specs.Names.{IsPath};
ghost use Rattle.command_words.specs.Places.{value_of};
ghost use Rattle.command_words.specs.Words.{csv_path_of, dir_of, file_of, number_of, path_of, per_part_of, rows_of, skip_of};
ghost use Rattle.command_words.specs.Valid.{IsCsvPath};

use crate::given::Given;
use fb_outside::FileName;
use fb_types::{Label, natural};
use std::alloc::{AllocError, Global};

/// The dataset's path.
pub(crate) fn dir(alloc: Global, given: &Given) -> Result<Option<FileName>, AllocError>
    ensures dir { IfOk result (λ found. found ≡ dir_of given.now) }
    ensures path { IfOk result (λ found. IfSome found IsPath) }
{
    match given.value(b'd') {
        Some(word) => path(alloc, word),
        None => Ok(None),
    }
}

/// The file of a load, if it names one; None where that is no path that ends in `.csv`.
pub(crate) fn file(alloc: Global, given: &Given) -> Result<Option<Option<FileName>>, AllocError>
    ensures file { IfOk result (λ found. found ≡ file_of given.now) }
    ensures path { IfOk result (λ found. IfSome found (λ file. IfSome file IsCsvPath)) }
{
    let Some(word) = given.value(b't') else {
        return Ok(Some(None));
    };
    match csv_path(alloc, word)? {
        Some(name) => Ok(Some(Some(name))),
        None => Ok(None),
    }
}

fn csv_path(alloc: Global, word: &str) -> Result<Option<FileName>, AllocError>
    ensures file { IfOk result (λ found. found ≡ csv_path_of word.now) }
    ensures path { IfOk result (λ found. IfSome found IsCsvPath) }
{
    if word.as_bytes().ends_with(b".csv") {
        path(alloc, word)
    } else {
        Ok(None)
    }
}

/// The path that a word is.
fn path(alloc: Global, word: &str) -> Result<Option<FileName>, AllocError>
    ensures path { IfOk result (λ found. found ≡ path_of word.now) }
    ensures valid { IfOk result (λ found. IfSome found IsPath) }
{
    let Some(name) = FileName::from_str(alloc, word)? else {
        return Ok(None);
    };
    if name.is_path() {
        Ok(Some(name))
    } else {
        Ok(None)
    }
}

/// An option's value as text.
pub(crate) fn label(alloc: Global, given: &Given, letter: u8) -> Result<Option<Label>, AllocError>
    ensures label { IfOk result (λ found. found ≡ value_of given.now letter) }
    ensures text { IfOk result (λ found. IfSome found IsUtf8) }
{
    match given.value(letter) {
        Some(word) => Ok(Some(Label::from_bytes(alloc, word.as_bytes())?)),
        None => Ok(None),
    }
}

/// The rows of a part.
pub(crate) fn per_part(given: &Given) -> Option<u64>
    ensures rows { result ≡ per_part_of given.now }
    ensures some { IfSome result (λ n. 1 ≤ n) }
    ensures short { IfSome result (λ n. n < 10 ^ 18) }
{
    let rows = match given.value(b'p') {
        Some(word) => number(word)?,
        None => 1_000_000,
    };
    if rows >= 1 { Some(rows) } else { None }
}

/// How many records are dropped.
pub(crate) fn skip(given: &Given) -> Option<u64>
    ensures records { result ≡ skip_of given.now }
    ensures short { IfSome result (λ n. n < 10 ^ 18) }
{
    match given.value(b's') {
        Some(word) => number(word),
        None => Some(0),
    }
}

/// The rows of a table that is made.
pub(crate) fn row_count(word: &str) -> Option<u32>
    ensures rows { result ≡ rows_of word.now }
    ensures some { IfSome result (λ n. 1 ≤ n) }
    ensures few { IfSome result (λ n. n ≤ 1000000) }
{
    let rows = number(word)?;
    if (1..=1_000_000).contains(&rows) {
        Some(rows as u32)
    } else {
        None
    }
}

/// The number of 1 to 18 digits that a word is.
pub(crate) fn number(word: &str) -> Option<u64>
    ensures number { result ≡ number_of word.now }
    ensures short { IfSome result (λ n. n < 10 ^ 18) }
{
    if word.len() > 18 {
        return None;
    }
    let number = natural(word.as_bytes())?;
    Some(number as u64)
}
