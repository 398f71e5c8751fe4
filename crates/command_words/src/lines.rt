//! The words of a line of a session.
ghost use Rattle.std.specs.Prelude.{◌≡◌, ◌++◌, ℕ, List, [], IfOk, encode_utf8, map, option_map, string_bytes};
ghost use Rattle.command_words.specs.Ahead.{all_words};
ghost use Rattle.command_words.specs.Lines.{is_skipped as is_skipped_line, text_words as words_of_text, without_return as without_return_at_end, words_of};
ghost use Rattle.fb_types.specs.Field.{is_blank as is_blank_byte};

use std::alloc::{AllocError, Global};

/// The words of a line, cut at its line feed: none for a line that is skipped, and None where a quote isn't closed or
/// the line isn't UTF-8.
pub fn line_words(alloc: Global, line: &[u8]) -> Result<Option<Vec<String>>, AllocError>
    ensures words { IfOk result (λ found. option_map (λ words. map string_bytes words.items) found ≡ words_of line.now) }
{
    let line = without_return(line);
    if is_skipped(line) {
        return Ok(Some(Vec::new(alloc)));
    }
    match str::from_utf8(line) {
        Ok(text) => text_words(alloc, text),
        Err(_) => Ok(None),
    }
}

fn without_return(line: &[u8]) -> &[u8]
    ensures { result.now ≡ without_return_at_end line.now }
{
    if line.ends_with(b"\r") {
        &line[..line.len() - 1]
    } else {
        line
    }
}

fn is_skipped(line: &[u8]) -> bool
    ensures { result ≡ is_skipped_line line.now }
{
    match line.iter().find(|b| **b != b' ' && **b != b'\t') {
        Some(b) => *b == b'#',
        None => true,
    }
}

/// Where the reader of a line stands: between words, in a word, or in a quoted piece of one.
#[derive(Drop)]
enum Place {
    Between,
    InWord(String),
    InQuotes(String),
}

/// The words of a text, by one pass from left to right.
fn text_words(alloc: Global, text: &str) -> Result<Option<Vec<String>>, AllocError>
    ensures { IfOk result (λ found. option_map (λ words. map string_bytes words.items) found ≡ words_of_text text.now) }
{
    let mut words = Vec::new(alloc);
    let mut place = Place::Between;
    for c in text.chars() {
        place = read_char(alloc, place, c, &mut words)?;
    }
    finish(words, place)
}

/// The place behind one character more; a blank behind a word ends it.
fn read_char(
    alloc: Global,
    place: Place,
    c: char,
    words: &mut Vec<String>,
) -> Result<Place, AllocError>
    ensures { IfOk result (λ after. (rest : List ℕ) → all_words words.old.items place (encode_utf8 c ++ rest) ≡ all_words words.new.items after rest) }
{
    match place {
        Place::Between => match c {
            '\'' => Ok(Place::InQuotes(String::new(alloc))),
            _ if is_blank(c) => Ok(Place::Between),
            _ => Ok(Place::InWord(longer(String::new(alloc), c)?)),
        },
        Place::InWord(word) => match c {
            '\'' => Ok(Place::InQuotes(word)),
            _ if is_blank(c) => {
                words.push(word)?;
                Ok(Place::Between)
            }
            _ => Ok(Place::InWord(longer(word, c)?)),
        },
        Place::InQuotes(word) => match c {
            '\'' => Ok(Place::InWord(word)),
            _ => Ok(Place::InQuotes(longer(word, c)?)),
        },
    }
}

fn is_blank(c: char) -> bool
    ensures { result ≡ is_blank_byte c }
{
    c == ' ' || c == '\t'
}

fn longer(mut word: String, c: char) -> Result<String, AllocError>
    ensures { IfOk result (λ longer. string_bytes longer ≡ string_bytes word ++ encode_utf8 c) }
{
    word.push(c)?;
    Ok(word)
}

/// The words, where the text ends.
fn finish(mut words: Vec<String>, place: Place) -> Result<Option<Vec<String>>, AllocError>
    ensures { IfOk result (λ found. option_map (λ words. map string_bytes words.items) found ≡ all_words words.items place []) }
{
    match place {
        Place::Between => Ok(Some(words)),
        Place::InWord(word) => {
            words.push(word)?;
            Ok(Some(words))
        }
        Place::InQuotes(_) => Ok(None),
    }
}
