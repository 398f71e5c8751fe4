//! A large table from a number: records of three columns, drawn by a linear congruential generator.
#![tactic(auto)]

mod drawing;
mod laws;
#[cfg(test)]
mod tests;

pub use drawing::generate;
pub use laws::{the_first_records, the_record_at_a_place};
