//! What the cells of a column leave in its files, gathered row by row.

ghost use Rattle.std.specs.Prelude.{◌≡◌, ◌+◌, ◌*◌, ◌^◌, ◌<◌, ◌≤◌, ℕ, List, [], ◌∷◌, ◌++◌, Some, IfOk, IsNone, IsSome, OnOk, length, map, take, drop, unwrap_or};
ghost use Rattle.std.specs.List.{All};
ghost use Rattle.fb_types.specs.Cells.{CellFits};
ghost use Rattle.fb_types.specs.Types.{ends_of};
ghost use Rattle.column_file.specs.Values.{ValueFits};
ghost use Rattle.text_column.specs.TextFiles.{AreFilesOf};
ghost use Rattle.text_column.specs.Words.{IsWord, code_in, with_word, most_words};
ghost use Rattle.wah_words.specs.Places.{places};
ghost use Rattle.world.specs.Cells.{code_of, dictionary_of, is_present, number_of, texts_of, word_of};
ghost use Rattle.dataset.specs.WrittenColumns.{IsCodeOf, cell_of, with_cell};
ghost use Rattle.fb_types.specs.declared.types.ColType.TheVariants.{Category};
ghost use Rattle.part_meta.specs.PartText.{most_rows};

use crate::part_column::PartColumn;
use fb_types::Label;
use std::alloc::{AllocError, Global};
use text_column::{Dictionary, TextFiles};
use wah_words::{Builder, Wah};

// ---- numbers

/// The numbers of a whole column, 0 where a row has none.
pub(crate) fn numbers_of(alloc: Global, part: &PartColumn<'_>) -> Result<Vec<i128>, AllocError>
    requires { IsSome (ends_of part.now.column.ty) }
    ensures numbers { IfOk result (λ numbers. numbers.items ≡ map number_of part.now.cells) }
    ensures fit { IfOk result (λ numbers. All (λ number. ValueFits number part.now.column.ty) numbers.items) }
{
    let rows = part.len();
    let mut numbers = Vec::with_capacity(alloc, rows as usize)?;
    for row in 0..rows {
        numbers.push(number_at(part, row))?;
    }
    Ok(numbers)
}

fn number_at(part: &PartColumn<'_>, row: u32) -> i128
    requires row { row < length part.now.cells }
    requires column { IsSome (ends_of part.now.column.ty) }
    ensures { result ≡ number_of (cell_of part.now row) }
{
    part.whole(row).unwrap_or(0)
}

// ---- masks

/// Which rows have a value, a group of 31 rows after another.
pub(crate) fn mask_of(alloc: Global, part: &PartColumn<'_>) -> Result<Wah, AllocError>
    ensures { IfOk result (λ mask. mask ≡ map is_present part.now.cells) }
{
    let rows = part.len();
    let groups = rows / 31;
    let rest = rows % 31;
    let mut mask = whole_groups(alloc, part, groups)?;
    if rest != 0 {
        mask.push_tail(group_of(part, 31 * groups, rest), rest);
    }
    Ok(mask.finish())
}

/// The mask of so many groups of 31 rows, from the top.
fn whole_groups(alloc: Global, part: &PartColumn<'_>, groups: u32) -> Result<Builder, AllocError>
    requires there { 31 * groups ≤ length part.now.cells }
    requires few { length part.now.cells ≤ most_rows }
    ensures values { IfOk result (λ mask. mask.values ≡ map is_present (take (31 * groups) part.now.cells)) }
{
    let mut mask = Builder::with_room(alloc, groups)?;
    for group in 0..groups {
        mask.push_literal(group_of(part, 31 * group, 31));
    }
    Ok(mask)
}

/// Which of so many rows have a value, the first in the highest place.
fn group_of(part: &PartColumn<'_>, first: u32, count: u32) -> u32
    requires rows { first + count ≤ length part.now.cells }
    requires few { count ≤ 31 }
    requires small { length part.now.cells ≤ most_rows }
    ensures places { places count result ≡ map is_present (take count (drop first part.now.cells)) }
    ensures fits { result < 2 ^ count }
{
    let mut group = 0;
    for row in 0..count {
        group = 2 * group + part.is_present(first + row) as u32;
    }
    group
}

// ---- codes of words

/// The codes of a category's rows, 0 where a row has no word, and the words in the order in which they are first seen.
pub(crate) fn codes_of(
    alloc: Global,
    part: &PartColumn<'_>,
) -> Result<(Vec<i128>, Dictionary), AllocError>
    requires { part.now.column.ty ≡ Category }
    ensures words { IfOk result (λ coded. coded.1 ≡ dictionary_of part.now.cells) }
    ensures codes { IfOk result (λ coded. coded.0.items ≡ map (code_of (dictionary_of part.now.cells)) part.now.cells) }
    ensures fit { IfOk result (λ coded. All (λ code. ValueFits code Category) coded.0.items) }
{
    let rows = part.len();
    let mut codes = Vec::with_capacity(alloc, rows as usize)?;
    let mut words = Dictionary::make(alloc);
    for row in 0..rows {
        let code = code_at(alloc, part, row, &mut words)?;
        codes.push(i128::from(code))?;
    }
    Ok((codes, words))
}

/// The code of a row's word, which is added where it is new; 0 where the row has none.
fn code_at(
    alloc: Global,
    part: &PartColumn<'_>,
    row: u32,
    words: &mut Dictionary,
) -> Result<u32, AllocError>
    requires row { row < length part.now.cells }
    requires fit { All (λ cell. CellFits cell part.now.column.ty) part.now.cells }
    requires column { IsNone (ends_of part.now.column.ty) }
    requires few { length words.old < most_words }
    ensures words { OnOk result (words.new ≡ with_cell words.old (cell_of part.now row)) }
    ensures code { IfOk result (IsCodeOf words.new (cell_of part.now row)) }
{
    match part.word(row) {
        Some(word) => code_for(alloc, words, word),
        None => Ok(0),
    }
}

/// The code of a word, which is added where it is new.
fn code_for(alloc: Global, words: &mut Dictionary, word: &[u8]) -> Result<u32, AllocError>
    requires word { IsWord word.now }
    requires few { length words.old < most_words }
    ensures words { OnOk result (words.new ≡ with_word words.old word.now) }
    ensures code { IfOk result (λ code. code_in words.new word.now ≡ Some code) }
{
    if let Some(code) = words.code_of(word) {
        return Ok(code);
    }
    let word = Label::from_bytes(alloc, word)?;
    words.add(word)
}

// ---- texts

/// The two files of a text column's texts.
pub(crate) fn texts_of(alloc: Global, part: &PartColumn<'_>) -> Result<TextFiles, AllocError>
    requires { IsNone (ends_of part.now.column.ty) }
    ensures { IfOk result (λ files. AreFilesOf files (texts_of part.now.cells)) }
{
    let mut files = TextFiles::make(alloc)?;
    for row in 0..part.len() {
        files.push(text_at(part, row))?;
    }
    Ok(files)
}

/// The text of a row, empty where it has none.
fn text_at<'a>(part: &'a PartColumn<'_>, row: u32) -> &'a [u8]
    requires row { row < length part.now.cells }
    requires column { IsNone (ends_of part.now.column.ty) }
    ensures { result.now ≡ unwrap_or (word_of (cell_of part.now row)) [] }
{
    match part.word(row) {
        Some(text) => text,
        None => &[],
    }
}
