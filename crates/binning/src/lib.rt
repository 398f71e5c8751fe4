//! Bins of a column: which numbers a condition asks for, which bin a value falls into, the bins of the values, and what
//! an encoding makes of bins.
//!
//! A rule gives each value a key; the values with one key make a bin. Keys rise with the values, so that the bins stand
//! in order of their values, too.
#![tactic(auto)]

mod against_bins;
mod bin_rows;
mod bounds;
mod digits;
mod encodings;
mod gathering;
mod groups;
mod kept_rows;
mod key_places;
mod laws;
mod listed;
mod masks;
mod place_rows;
mod rules;
mod span_lists;

pub use against_bins::{Three, against};
pub use encodings::{EncFault, Encoding};
pub use gathering::Bin;
pub use groups::Group;
pub use kept_rows::{Gatherer, bins};
pub use laws::{bins_in_order, bins_of_a_column, rising_numbers};
pub use rules::{Keying, Rule, make_rule};
pub use span_lists::{Span, Spans};

#[cfg(test)]
mod tests;
