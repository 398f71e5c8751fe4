//! Which words behind a command are options and flags, and the values of the options.
ghost use Rattle.std.specs.Prelude.{◌≡◌, ◌+◌, ◌<◌, ◌^◌, All, Some, None, IfOk, IfSome, IsUtf8, length, map, nat_le, option_map, string_bytes, if◌then◌else◌};
ghost use Rattle.std.specs.List.{list_all};
ghost use Rattle.command_words.specs.Places.{are_in_order, given_by, has as is_there, is_known, is_read_at, is_value, letters_by, plain_places, spells as is_spelled, spells_one, times as how_often, value_of, word_at};

use std::alloc::{AllocError, Global};
use std::marker::Model;

/// The words behind a command, and those of their places that have no value.
#[derive(Drop)]
pub(crate) struct Given<'a> {
    words: &'a [String],
    places: Vec<usize>,
}

impl<'a> Model for Given<'a> {
    ghost use Rattle.std.specs.Prelude.{◌+◌, ◌<◌, ◌^◌, All, map, string_bytes};
    ghost use Rattle.command_words.specs.Places.{Given as PlacedWords};

    ghost Value = { PlacedWords };

    ghost view = { λ g. record { words = map string_bytes g.words.now; places = g.places.items } };

    ghost invariant = { λ g. All (λ place. place + 1 < 2 ^ 64) g.places.items };
}

impl Given<'_> {
    /// Whether the option or flag of a letter is there.
    pub(crate) fn has(&self, letter: u8) -> bool
        ensures { result ≡ is_there self.now letter }
    {
        self.places.iter().any(|place| self.is_read(letter, *place))
    }

    /// An option's value.
    pub(crate) fn value(&self, letter: u8) -> Option<&str>
        ensures value { option_map (λ word. word.now) result ≡ value_of self.now letter }
        ensures text { IfSome result (λ word. IsUtf8 word.now) }
    {
        for place in &self.places {
            if self.is_read(letter, *place) {
                return Some(self.word(*place + 1));
            }
        }
        None
    }

    /// Whether each word that is no value is an option or a flag.
    fn are_known(&self, options: &[u8], flags: &[u8]) -> bool
        ensures { result ≡ list_all (λ place. is_known (letters_by options.now flags.now) (word_at self.now.words place)) self.now.places }
    {
        self.places.iter().all(|place| {
            let word = self.word(*place);
            spells_any(options, word) || spells_any(flags, word)
        })
    }

    /// Whether none of these letters stands twice.
    fn are_single(&self, letters: &[u8]) -> bool
        ensures { result ≡ list_all (λ letter. nat_le (how_often self.now letter) 1) letters.now }
    {
        letters.iter().all(|letter| self.times(*letter) <= 1)
    }

    fn times(&self, letter: u8) -> usize
        ensures { result ≡ how_often self.now letter }
    {
        self.places
            .iter()
            .filter(|place| self.is_read(letter, **place))
            .count()
    }

    /// The word at a place, which is empty behind the last.
    fn word(&self, place: usize) -> &str
        ensures { result.now ≡ word_at self.now.words place }
    {
        match self.words.get(place) {
            Some(word) => word.as_str(),
            None => "",
        }
    }

    fn is_read(&self, letter: u8, place: usize) -> bool
        ensures { result ≡ is_read_at self.now letter place }
    {
        spells(letter, self.word(place))
    }
}

/// The words behind a command whose options and flags have these letters, or None where they aren't in order.
#[tactic(auto, unfolding(crate::specs::Places::are_in_order))]
pub(crate) fn read_given<'a>(
    alloc: Global,
    options: &[u8],
    flags: &[u8],
    words: &'a [String],
) -> Result<Option<Given<'a>>, AllocError>
    ensures { let letters = letters_by options.now flags.now in
        let given = given_by letters (map string_bytes words.now) in
        IfOk result (λ found. found ≡ (if are_in_order letters given then Some given else None)) }
{
    let Some(places) = plain_places_of(alloc, options, words)? else {
        return Ok(None);
    };
    let given = Given { words, places };
    if given.are_known(options, flags) && given.are_single(options) && given.are_single(flags) {
        Ok(Some(given))
    } else {
        Ok(None)
    }
}

/// The places of the words that are no values, by one pass from left to right; None where the last word is an option
/// without a value.
fn plain_places_of(
    alloc: Global,
    options: &[u8],
    words: &[String],
) -> Result<Option<Vec<usize>>, AllocError>
    ensures places { let all = map string_bytes words.now in
        IfOk result (λ found. option_map (λ places. places.items) found
        ≡ (if is_value options.now all (length all) then None else Some (plain_places options.now all))) }
    ensures within { IfOk result (λ found. IfSome found (λ places. All (λ place. place + 1 < 2 ^ 64) places.items)) }
{
    let mut places = Vec::new(alloc);
    let mut at_value = false;
    for (place, word) in words.iter().enumerate() {
        if !at_value {
            places.push(place)?;
        }
        at_value = !at_value && spells_any(options, word.as_str());
    }
    if at_value {
        return Ok(None);
    }
    Ok(Some(places))
}

/// Whether a word is an option or a flag of one of these letters.
fn spells_any(letters: &[u8], word: &str) -> bool
    ensures { result ≡ spells_one letters.now word.now }
{
    letters.iter().any(|letter| spells(*letter, word))
}

/// Whether a word is `-` and this letter.
fn spells(letter: u8, word: &str) -> bool
    ensures { result ≡ is_spelled letter word.now }
{
    match word.as_bytes() {
        [b'-', found] => *found == letter,
        _ => false,
    }
}
