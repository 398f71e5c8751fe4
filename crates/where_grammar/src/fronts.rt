//! What stands at the front of tokens.

ghost use Rattle.std.specs.Prelude.{◌≡◌, ◌≤◌, Some, IfOk, length};
ghost use Rattle.std.specs.List.{prefix_len};
ghost use Rattle.std.specs.Option.{option_map};
ghost use Rattle.where_grammar.specs.Nesting.{is_not, is_sign, is_word};
ghost use Rattle.where_grammar.specs.Parsing.{after, bare, name_in, number_in, op_in, seen_at, taken, text_in};

use crate::clause::Op;
use crate::token::{Placed, Sign, Token};
use fb_types::{ColName, Label};
use std::alloc::{AllocError, Global};

/// The first token, and those behind it.
pub fn first(tokens: &[Placed]) -> Option<(&Token, &[Placed])>
    ensures { option_map (λ f. (f.0.now, bare f.1.now)) result ≡ taken (λ token. Some token) (bare tokens.now) }
{
    match tokens {
        [] => None,
        [first, rest @ ..] => Some((&first.token, rest)),
    }
}

/// The number at the front, and what follows it.
pub fn number_at(tokens: &[Placed]) -> Option<(i128, &[Placed])>
    ensures { seen_at result ≡ taken number_in (bare tokens.now) }
{
    match first(tokens) {
        Some((Token::Number(value), rest)) => Some((*value, rest)),
        _ => None,
    }
}

pub(crate) fn op_at(tokens: &[Placed]) -> Option<(Op, &[Placed])>
    ensures { seen_at result ≡ taken op_in (bare tokens.now) }
{
    match first(tokens) {
        Some((Token::Sign(Sign::Op(op)), rest)) => Some((*op, rest)),
        _ => None,
    }
}

/// The column name at the front, and what follows it.
pub fn name_at(alloc: Global, tokens: &[Placed]) -> Result<Option<(ColName, &[Placed])>, AllocError>
    ensures { IfOk result (λ found. seen_at found ≡ taken name_in (bare tokens.now)) }
{
    match first(tokens) {
        Some((Token::Word(word), rest)) => match ColName::from_bytes(alloc, word.bytes())? {
            Some(name) => Ok(Some((name, rest))),
            None => Ok(None),
        },
        _ => Ok(None),
    }
}

pub(crate) fn text_at(
    alloc: Global,
    tokens: &[Placed],
) -> Result<Option<(Label, &[Placed])>, AllocError>
    ensures { IfOk result (λ found. seen_at found ≡ taken text_in (bare tokens.now)) }
{
    match first(tokens) {
        Some((Token::Text(text), rest)) => {
            let text = text.copy(alloc)?;
            Ok(Some((text, rest)))
        }
        _ => Ok(None),
    }
}

/// What follows this word.
pub fn after_word<'a>(tokens: &'a [Placed], word: &str) -> Option<&'a [Placed]>
    ensures { option_map (λ rest. bare rest.now) result ≡ after (is_word word.now) (bare tokens.now) }
{
    match first(tokens) {
        Some((token, rest)) if token.is_word(word) => Some(rest),
        _ => None,
    }
}

/// What follows this sign, which is no operator.
pub fn after_sign(tokens: &[Placed], sign: Sign) -> Option<&[Placed]>
    ensures { option_map (λ rest. bare rest.now) result ≡ after (is_sign sign) (bare tokens.now) }
{
    match first(tokens) {
        Some((token, rest)) if token.is_sign(sign) => Some(rest),
        _ => None,
    }
}

/// How many `not`s stand at the front.
pub(crate) fn nots_len(tokens: &[Placed]) -> usize
    ensures value { result ≡ prefix_len is_not (bare tokens.now) }
    ensures within { result ≤ length tokens.now }
{
    let mut n = 0;
    for placed in tokens {
        if !placed.token.is_not() {
            return n;
        }
        n += 1;
    }
    n
}
