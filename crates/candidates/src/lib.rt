//! Candidates: rows of an open column whose values are read, in runs of neighbours, since nothing that was read before
//! decides a condition on them.
#![tactic(auto)]

mod fault;
mod found;
mod numbers;
mod texts;
mod walk;

pub use fault::FindFault;
pub use numbers::numbers_found;
pub use texts::texts_found;

#[cfg(test)]
mod tests;
