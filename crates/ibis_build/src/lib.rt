//! The command `ibis -b`: indexes of columns, built part by part.
#![tactic(auto)]

mod blanks;
mod building;
mod columns;
mod laws;

pub use building::build_indexes;
pub use laws::{the_columns_of_a_request, the_end_of_a_request, the_indexes_of_a_request};

#[cfg(test)]
mod tests;
