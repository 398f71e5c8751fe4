//! Word-aligned hybrid vectors: lists of truth values kept as literal and fill words of 32 bits with an active word
//! (Wu, Otoo and Shoshani, "Optimizing Bitmap Indices with Efficient Compression", TODS 2006). Each list has one
//! spelling here, and a `Wah` always has it. Each look at a word is counted.
#![tactic(auto)]

mod builder;
mod cursor;
mod fault;
mod laws;
mod reading;
mod run;
mod wah;
mod words;
mod writing;

pub use builder::Builder;
pub use cursor::Cursor;
pub use fault::WordsFault;
pub use laws::{one_length, one_list, one_spelling};
pub use run::Run;
pub use wah::{MAX_LEN, Wah};

#[cfg(test)]
mod tests;
