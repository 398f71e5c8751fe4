//! The command `ibis -l`: the schema of a dataset, and its parts with the indexes of their columns.
#![tactic(auto)]

mod listing;
#[cfg(test)]
mod tests;

pub use listing::list;
