//! Texts read token by token, whatever a token is of the language; and what languages share: blanks, digits and the
//! numbers that these write.
#![tactic(auto)]

mod blanks;
mod digits;
mod reading;
#[cfg(test)]
mod tests;

pub use blanks::{blanks_len, is_blank};
pub use digits::{natural, natural_at};
pub use reading::{Lexeme, tokens};
