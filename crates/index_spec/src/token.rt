//! The tokens of a specification's text.

ghost use Rattle.std.specs.Prelude.{◌≡◌, ◌≤◌, ◌^◌, length, IfOk};
ghost use Rattle.std.specs.Option.{option_map};
ghost use Rattle.std.specs.List.{prefix_len};
ghost use Rattle.std.specs.Char.{is_ascii_digit};
ghost use Rattle.lexing.specs.Digits.{signed};
ghost use Rattle.index_spec.specs.Tokens.{is_letter, in_word, sign_of, word_at, number_at, reader, token_at, tokens_of};
ghost use Rattle.index_spec.specs.Shorter.{reader-shorter};

use crate::word::{Word, word_of};
use lexing::{Lexeme, natural_at};
use sqlite_items::Items;
use std::alloc::{AllocError, Global};

/// A token. A number whose magnitude passes 2^64 stands as that magnitude, which no specification takes.
#[derive(Clone, Copy, Debug)]
pub(crate) enum Token {
    Less,
    Slash,
    Greater,
    Equals,
    Open,
    Close,
    Comma,
    Word(Word),
    Number(i128),
}

fn is_letter(byte: u8) -> bool
    ensures { result ≡ is_letter byte }
{
    byte >= b'a' && byte <= b'z'
}

fn in_word(byte: u8) -> bool
    ensures { result ≡ in_word byte }
{
    is_letter(byte) || byte == b'-'
}

fn sign_of(byte: u8) -> Option<Token>
    ensures { result ≡ sign_of byte }
{
    match byte {
        b'<' => Some(Token::Less),
        b'/' => Some(Token::Slash),
        b'>' => Some(Token::Greater),
        b'=' => Some(Token::Equals),
        b'(' => Some(Token::Open),
        b')' => Some(Token::Close),
        b',' => Some(Token::Comma),
        _ => None,
    }
}

fn word_len(text: &[u8]) -> usize
    ensures value { result ≡ prefix_len in_word text.now }
    ensures within { result ≤ length text.now }
{
    text.iter().take_while(|b| in_word(**b)).count()
}

/// Where magnitudes are cut off: no number of a specification reaches it.
const MAX_MAGNITUDE: u128 = 1 << 64;

fn signed(is_negative: bool, magnitude: u128) -> i128
    requires { magnitude ≤ 2 ^ 64 }
    ensures { result ≡ signed is_negative magnitude }
{
    let number = magnitude as i128;
    if is_negative { -number } else { number }
}

/// The word at the front, which begins with a letter, and what follows it.
#[tactic(auto, unfolding(crate::specs::Tokens::word_at))]
fn word_at(text: &[u8]) -> Option<(Token, &[u8])>
    ensures { option_map (λ found. (found.0, found.1.now)) result ≡ word_at text.now }
{
    let (front, rest) = text.split_at(word_len(text));
    match word_of(front) {
        None => None,
        Some(word) => Some((Token::Word(word), rest)),
    }
}

/// The number whose digits are at the front, and what follows it.
#[tactic(auto, unfolding(crate::specs::Tokens::number_at))]
fn number_at(is_negative: bool, text: &[u8]) -> Option<(Token, &[u8])>
    ensures { option_map (λ found. (found.0, found.1.now)) result ≡ number_at is_negative text.now }
{
    let (number, rest) = natural_at(text)?;
    Some((
        Token::Number(signed(is_negative, number.min(MAX_MAGNITUDE))),
        rest,
    ))
}

/// The token at the front, which is no blank, and what follows it.
#[tactic(auto, unfolding(crate::specs::Tokens::token_at))]
fn token_at(text: &[u8]) -> Option<(Token, &[u8])>
    ensures { option_map (λ found. (found.0, found.1.now)) result ≡ token_at text.now }
{
    if text.is_empty() {
        return None;
    }
    let first = text[0];
    if first == b'-' {
        number_at(true, text.split_at(1).1)
    } else if is_letter(first) {
        word_at(text)
    } else if first.is_ascii_digit() {
        number_at(false, text)
    } else {
        match sign_of(first) {
            None => None,
            Some(sign) => Some((sign, text.split_at(1).1)),
        }
    }
}

/// No token of the language stands there.
#[derive(Clone, Copy, Debug)]
pub(crate) struct NoToken;

impl Lexeme for Token {
    type Fault = NoToken;

    ghost reader = { reader };

    fn read(
        _alloc: Global,
        _at: u32,
        text: &[u8],
    ) -> Result<Result<(Token, &[u8]), NoToken>, AllocError> {
        match token_at(text) {
            Some(found) => Ok(Ok(found)),
            None => Ok(Err(NoToken)),
        }
    }

    ghost shorter = { reader-shorter };
}

/// The tokens of a text, None where it isn't a list of tokens with blanks between.
#[tactic(auto, unfolding(crate::specs::Tokens::tokens_of))]
pub(crate) fn tokens(alloc: Global, text: &[u8]) -> Result<Option<Items<Token>>, AllocError>
    requires { length text.now ≤ 131072 }
    ensures { IfOk result (λ found. found ≡ tokens_of text.now) }
{
    match lexing::tokens(alloc, text)? {
        Ok(tokens) => Ok(Some(tokens)),
        Err(NoToken) => Ok(None),
    }
}
