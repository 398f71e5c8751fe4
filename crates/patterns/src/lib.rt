//! Patterns of texts.
#![tactic(auto)]

mod laws;
mod matching;
#[cfg(test)]
mod tests;

pub use laws::{the_pieces_of_patterns, the_truth_of_patterns};
pub use matching::like;
