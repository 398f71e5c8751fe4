//! The two-level encoding of bins: the bitmaps of groups of neighbouring bins under one of the other encodings, and then a
//! bitmap for each bin, so that a run is told by its whole groups and few bins beside them (Wu, Shoshani and Stockinger,
//! "Analyses of multi-level and multi-component compressed bitmap indexes", TODS 2010); and any encoding, as a
//! specification names it.
#![tactic(auto)]

mod any;
mod groups;
mod level;
mod two_level;

pub use any::AnyEncoding;
pub use two_level::TwoLevel;

#[cfg(test)]
mod tests;
