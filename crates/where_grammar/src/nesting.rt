//! How deep tokens nest.

ghost use Rattle.std.specs.Prelude.{◌≡◌, ◌≤◌};
ghost use Rattle.where_grammar.specs.Nesting.{is_deep, is_not, is_sign, is_word, same_sign};
ghost use Rattle.where_grammar.specs.Parsing.{bare};

use crate::token::{Placed, Sign, Token};

impl Token {
    /// Whether the token is this word.
    pub fn is_word(&self, text: &str) -> bool
        ensures { result ≡ is_word text.now self.now }
    {
        match self {
            Token::Word(word) => word.bytes() == text.as_bytes(),
            _ => false,
        }
    }

    /// Whether the token is this sign, which is no operator.
    pub fn is_sign(&self, sign: Sign) -> bool
        ensures { result ≡ is_sign sign self.now }
    {
        match self {
            Token::Sign(found) => same_sign(sign, *found),
            _ => false,
        }
    }

    pub(crate) fn is_not(&self) -> bool
        ensures { result ≡ is_not self.now }
    {
        self.is_word("not") || self.is_sign(Sign::Not)
    }
}

fn same_sign(a: Sign, b: Sign) -> bool
    ensures { result ≡ same_sign a b }
{
    matches!(
        (a, b),
        (Sign::And, Sign::And)
            | (Sign::Or, Sign::Or)
            | (Sign::Not, Sign::Not)
            | (Sign::Open, Sign::Open)
            | (Sign::Close, Sign::Close)
            | (Sign::Comma, Sign::Comma)
            | (Sign::Star, Sign::Star)
    )
}

/// The most open parentheses.
pub(crate) const MAX_OPEN: u32 = 64;

/// The most `not`s in a row.
const MAX_NOTS: u32 = 16;

/// Whether the tokens nest too deep for a query. Parentheses that close make room, also where none is open.
pub(crate) fn is_deep(tokens: &[Placed]) -> bool
    ensures { result ≡ is_deep (bare tokens.now) }
{
    let mut room = MAX_OPEN as usize;
    let mut nots = 0;
    for placed in tokens {
        let token = &placed.token;
        if token.is_not() {
            if nots == MAX_NOTS {
                return true;
            }
            nots += 1;
        } else {
            nots = 0;
            if token.is_sign(Sign::Open) {
                if room == 0 {
                    return true;
                }
                room -= 1;
            } else if token.is_sign(Sign::Close) {
                room += 1;
            }
        }
    }
    false
}
