//! The rows of a partition on which a plan is true, in two stages.
//!
//! First each condition is settled as far as its column's bins decide it, and the plan's three-valued answers are made of
//! these. Where that leaves rows Unknown, values are read, of each condition only on its candidates: the rows on which both
//! it and the plan are Unknown. What the conditions are over is for the trait `Conditions` to say.
#![tactic(auto)]

mod conditions;
mod first;
mod gathering;
mod laws;
mod lists;
mod second;
mod walk;

pub use conditions::{Conditions, Settled};
pub use laws::estimates_enclose_hits;
pub use walk::{Bounds, Hits, estimate, evaluate};

#[cfg(test)]
mod tests;
