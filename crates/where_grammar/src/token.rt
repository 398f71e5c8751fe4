//! The tokens of a query's text.

ghost use Rattle.std.specs.Prelude.{◌≡◌, ◌≤◌, List, if◌then◌else◌, length, Some, None, Ok, Err, IfOk, IfErr, IfSome};
ghost use Rattle.std.specs.Option.{option_map};
ghost use Rattle.std.specs.List.{prefix_len};
ghost use Rattle.std.specs.Str.{str_to_ascii_lowercase};
ghost use Rattle.lexing.specs.Digits.{signed};
ghost use Rattle.where_grammar.specs.declared.clause.QueryKind.{QueryKind};
ghost use Rattle.where_grammar.specs.declared.token.Placed.{Placed};
ghost use Rattle.answers.specs.Answers.{Answers, Tells};
ghost use Rattle.where_grammar.specs.Language.{HasTokens, NoTokens, read_tokens, refusal};
ghost use Rattle.where_grammar.specs.Shorter.{reader-shorter};
ghost use Rattle.where_grammar.specs.Tokens.{begins_word, double_sign, excess, fits_128, in_word, number_at, reader, seen, sign_at, single_sign, text_at, token_at, unquoted, within_limits, word_at};

use crate::clause::{ClauseFault, Op, QueryKind, bad};
use crate::nesting::is_deep;
use fb_types::Label;
use lexing::{Lexeme, natural_at};
use sqlite_items::Items;
use std::alloc::{AllocError, Global};

/// A sign. Some are written in two ways.
#[derive(Clone, Copy, Debug, PartialEq, Eq)]
pub enum Sign {
    Op(Op),
    And,
    Or,
    Not,
    Open,
    Close,
    Comma,
    Star,
}

/// A token of a query.
#[derive(Debug, Drop)]
pub enum Token {
    /// A word, in lower case.
    Word(Label),
    Number(i128),
    /// What stands between two quotes.
    Text(Label),
    Sign(Sign),
}

/// A token, and the place in the text of its first byte.
#[derive(Debug, Drop)]
pub struct Placed {
    pub at: u32,
    pub token: Token,
}

fn begins_word(byte: u8) -> bool
    ensures { result ≡ begins_word byte }
{
    byte.is_ascii_lowercase() || byte.is_ascii_uppercase() || byte == b'_'
}

fn in_word(byte: u8) -> bool
    ensures { result ≡ in_word byte }
{
    begins_word(byte) || byte.is_ascii_digit()
}

/// How many letters, digits and `_` stand at the front.
pub(crate) fn word_len(text: &[u8]) -> usize
    ensures value { result ≡ prefix_len in_word text.now }
    ensures within { result ≤ length text.now }
{
    text.iter().take_while(|b| in_word(**b)).count()
}

/// The number of this size, None outside signed 128 bits.
fn number(is_negative: bool, magnitude: u128) -> Option<i128>
    ensures { result ≡ (if fits_128 (signed is_negative magnitude) then Some (signed is_negative magnitude) else None) }
{
    match i128::try_from(magnitude) {
        Ok(value) if is_negative => Some(-value),
        Ok(value) => Some(value),
        Err(_) if is_negative && magnitude == 1 << 127 => Some(i128::MIN),
        Err(_) => None,
    }
}

/// The number whose digits are at the front, and what follows it.
#[tactic(auto, unfolding(crate::specs::Tokens::number_at))]
fn number_at(is_negative: bool, text: &[u8]) -> Result<(Token, &[u8]), QueryKind>
    ensures { seen result ≡ within_limits (number_at is_negative text.now) }
{
    let Some((magnitude, rest)) = natural_at(text) else {
        return Err(QueryKind::Syntax);
    };
    match number(is_negative, magnitude) {
        Some(value) => Ok((Token::Number(value), rest)),
        None => Err(QueryKind::Literal),
    }
}

fn lowered(alloc: Global, bytes: &[u8]) -> Result<Label, AllocError>
    ensures { IfOk result (λ word. word ≡ str_to_ascii_lowercase bytes.now) }
{
    Ok(Label::from_vec(bytes.to_ascii_lowercase(alloc)?))
}

/// The word at the front, in lower case, and what follows it.
#[tactic(auto, unfolding(crate::specs::Tokens::word_at))]
fn word_at(alloc: Global, text: &[u8]) -> Result<(Token, &[u8]), AllocError>
    ensures value { IfOk result (λ found. (found.0, found.1.now) ≡ word_at text.now) }
    ensures within { IfOk result (λ found. excess found.0 ≡ None) }
{
    let (front, rest) = text.split_at(word_len(text));
    Ok((Token::Word(lowered(alloc, front)?), rest))
}

/// The bytes up to the quote that ends a text, where two quotes stand for one, and what follows that.
fn unquoted(alloc: Global, quote: u8, text: &[u8]) -> Result<Option<(Vec<u8>, &[u8])>, AllocError>
    ensures { IfOk result (λ found. option_map (λ f. (f.0.items, f.1.now)) found ≡ unquoted quote text.now) }
{
    let mut word = Vec::new(alloc);
    let mut rest = text;
    while !rest.is_empty() {
        let (first, after) = (rest[0], rest.split_at(1).1);
        if first != quote {
            rest = after;
        } else if !after.is_empty() && after[0] == quote {
            rest = after.split_at(1).1;
        } else {
            return Ok(Some((word, after)));
        }
        word.push(first)?;
    }
    Ok(None)
}

/// The most bytes of a text.
const MAX_TEXT: usize = 65_535;

/// The text up to the quote that ends it, and what follows that.
#[tactic(auto, unfolding(crate::specs::Tokens::text_at))]
fn text_at(
    alloc: Global,
    quote: u8,
    text: &[u8],
) -> Result<Result<(Token, &[u8]), QueryKind>, AllocError>
    ensures { IfOk result (λ found. seen found ≡ within_limits (text_at quote text.now)) }
{
    match unquoted(alloc, quote, text)? {
        None => Ok(Err(QueryKind::Syntax)),
        Some((word, _)) if word.len() > MAX_TEXT => Ok(Err(QueryKind::TextLength)),
        Some((word, rest)) => Ok(Ok((Token::Text(Label::from_vec(word)), rest))),
    }
}

fn double_sign(first: u8, second: u8) -> Option<Sign>
    ensures { result ≡ double_sign first second }
{
    match (first, second) {
        (b'<', b'=') => Some(Sign::Op(Op::LessEq)),
        (b'>', b'=') => Some(Sign::Op(Op::GreaterEq)),
        (b'=', b'=') => Some(Sign::Op(Op::Equal)),
        (b'!', b'=') | (b'<', b'>') => Some(Sign::Op(Op::Differs)),
        (b'&', b'&') => Some(Sign::And),
        (b'|', b'|') => Some(Sign::Or),
        _ => None,
    }
}

fn single_sign(byte: u8) -> Option<Sign>
    ensures { result ≡ single_sign byte }
{
    match byte {
        b'<' => Some(Sign::Op(Op::Less)),
        b'>' => Some(Sign::Op(Op::Greater)),
        b'=' => Some(Sign::Op(Op::Equal)),
        b'!' => Some(Sign::Not),
        b'(' => Some(Sign::Open),
        b')' => Some(Sign::Close),
        b',' => Some(Sign::Comma),
        b'*' => Some(Sign::Star),
        _ => None,
    }
}

/// The longest sign at the front, and what follows it.
#[tactic(auto, unfolding(crate::specs::Tokens::sign_at))]
fn sign_at(text: &[u8]) -> Option<(Token, &[u8])>
    ensures value { option_map (λ found. (found.0, found.1.now)) result ≡ sign_at text.now }
    ensures within { IfSome result (λ found. excess found.0 ≡ None) }
{
    if let [first, second, rest @ ..] = text {
        if let Some(sign) = double_sign(*first, *second) {
            return Some((Token::Sign(sign), rest));
        }
    }
    match text {
        [] => None,
        [first, rest @ ..] => {
            let sign = single_sign(*first)?;
            Some((Token::Sign(sign), rest))
        }
    }
}

/// The token at the front, which is no blank, and what follows it, or what is wrong there.
#[tactic(auto, unfolding(crate::specs::Tokens::token_at))]
fn token_at(alloc: Global, text: &[u8]) -> Result<Result<(Token, &[u8]), QueryKind>, AllocError>
    ensures { IfOk result (λ found. seen found ≡ within_limits (token_at text.now)) }
{
    if text.is_empty() {
        return Ok(Err(QueryKind::Syntax));
    }
    let first = text[0];
    if first == b'-' {
        Ok(number_at(true, text.split_at(1).1))
    } else if first == b'+' {
        Ok(number_at(false, text.split_at(1).1))
    } else if first.is_ascii_digit() {
        Ok(number_at(false, text))
    } else if begins_word(first) {
        let found = word_at(alloc, text)?;
        Ok(Ok(found))
    } else if first == b'"' || first == b'\'' {
        text_at(alloc, first, text.split_at(1).1)
    } else {
        match sign_at(text) {
            Some(found) => Ok(Ok(found)),
            None => Ok(Err(QueryKind::Syntax)),
        }
    }
}

impl Lexeme for Placed {
    type Fault = QueryKind;

    ghost reader = { reader };

    fn read(
        alloc: Global,
        at: u32,
        text: &[u8],
    ) -> Result<Result<(Placed, &[u8]), QueryKind>, AllocError> {
        match token_at(alloc, text)? {
            Ok((token, rest)) => Ok(Ok((Placed { at, token }, rest))),
            Err(kind) => Ok(Err(kind)),
        }
    }

    ghost shorter = { reader-shorter };
}

/// The most bytes of a text.
const MAX_LENGTH: usize = 1_048_576;

#[tactic(auto, unfolding(crate::specs::Language::read_tokens))]
fn lexed(alloc: Global, text: &str) -> Result<Items<Placed>, ClauseFault>
    ensures { Answers refusal result (read_tokens text.now) }
{
    if text.len() > MAX_LENGTH {
        return Err(bad(QueryKind::Length));
    }
    match lexing::tokens(alloc, text.as_bytes())? {
        Ok(tokens) if is_deep(tokens.as_slice()) => Err(bad(QueryKind::Depth)),
        Ok(tokens) => Ok(tokens),
        Err(kind) => Err(bad(kind)),
    }
}

/// The tokens of a query's text, or the first refusal: `Length`; then, in order of place, `Syntax` where no token
/// stands, `Literal` for a number outside signed 128 bits, `TextLength` for a text of over 65,535 bytes; then `Depth`.
pub fn tokens(alloc: Global, text: &str) -> Result<Items<Placed>, ClauseFault>
    // What is given are the text's tokens, and where it has tokens, they are given.
    ensures found { IfOk result (HasTokens text.now) }
    ensures only { (tokens : List Placed) → HasTokens text.now tokens → Answers refusal result (Ok tokens) }

    // A refusal is the first one that holds, and where one holds, it is given.
    ensures refused { IfErr result (Tells refusal (NoTokens text.now)) }
    ensures refuses { (kind : QueryKind) → NoTokens text.now kind → Answers {T = List Placed} refusal result (Err kind) }

    ensures exact { Answers refusal result (read_tokens text.now) }
{
    lexed(alloc, text)
}
