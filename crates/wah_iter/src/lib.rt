//! Counts, places, joins and parts of compressed vectors, and vectors made from rows, by words and never by values.
#![tactic(auto)]

mod appender;
mod counts;
mod laws;
mod making;
mod packing;
mod piece;
mod walks;

pub use appender::Appender;
pub use counts::{count_ones, get};
pub use laws::maximal_runs;
pub use making::{concat, slice};
pub use packing::from_rows;
pub use walks::{OneWalk, RowRuns, ones, row_runs};

#[cfg(test)]
mod tests;
