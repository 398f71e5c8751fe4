//! The tokens of a text.

ghost use Rattle.std.specs.Prelude.{◌≡◌, ◌+◌, ◌^◌, ◌<◌, ◌≤◌, ℕ, List, Result, Ok, length, IfOk};
ghost use Rattle.std.specs.Result.{result_map_both};
ghost use Rattle.lexing.specs.Tokens.{tokens_of};

use crate::blanks::is_blank;
use sqlite_items::Items;
use std::alloc::{AllocError, Global};

/// A token of a language.
pub trait Lexeme: Drop + Sized {
    /// What can be wrong where a token has to stand.
    type Fault: Drop;

    ghost reader: { ℕ → List ℕ → Result (Self × List ℕ) Self.Fault };

    /// The token at the front of the text, which begins with no blank, and what follows it. The text begins at this
    /// place of the whole.
    fn read(
        alloc: Global,
        at: u32,
        text: &[u8],
    ) -> Result<Result<(Self, &[u8]), Self::Fault>, AllocError>
        ensures { IfOk result (λ found. result_map_both (λ f. (f.0, f.1.now)) (λ fault. fault) found ≡ reader at text.now) };

    ghost shorter: { (at : ℕ) (text : List ℕ) (found : Self × List ℕ) → reader at text ≡ Ok found → length found.1 < length text };
}

/// The tokens of a text, with blanks between, or what is wrong first.
pub fn tokens<T: Lexeme>(
    alloc: Global,
    text: &[u8],
) -> Result<Result<Items<T>, T::Fault>, AllocError>
    requires { length text.now < 2 ^ 32 }
    ensures { IfOk result (λ found. found ≡ tokens_of T.reader text.now) }
{
    let mut tokens = Items::new(alloc);
    let mut rest = text;
    while !rest.is_empty() {
        if is_blank(rest[0]) {
            rest = rest.split_at(1).1;
        } else {
            let at = (text.len() - rest.len()) as u32;
            match T::read(alloc, at, rest)? {
                Ok((token, after)) => {
                    tokens.push(token)?;
                    rest = after;
                }
                Err(fault) => return Ok(Err(fault)),
            }
        }
    }
    Ok(Ok(tokens))
}
