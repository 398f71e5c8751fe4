//! What the bins of an open index say of a condition by spans, on each row: Yes or No where the row's bin decides it, else
//! Unknown.
//!
//! Neighbouring bins with one answer are a run (`bin_runs`). Only the bitmaps that the runs need are fetched, one by one by
//! their places, and of these the encoding makes the rows of each run (`open_index`). No value is read.
#![tactic(auto)]

mod bin_runs;
mod fault;
mod laws;
mod lists;
mod open_index;
mod run_rows;

pub use fault::BinsFault;
pub use laws::{runs_of_bins, written_indexes_have_their_bins};
pub use open_index::OpenIndex;

#[cfg(test)]
mod sample_indexes;
#[cfg(test)]
mod tests;
