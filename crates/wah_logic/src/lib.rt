//! Logic of two compressed vectors in lockstep: and, or, xor and and-not over words, in at most as many steps as the
//! two vectors have words. Nothing here expands a vector but the union of many that have many words, which gathers its
//! result in plain groups.
#![tactic(auto)]

mod groups;
mod has_rows;
mod lockstep;
mod logic;
mod ops;
mod put;
mod side;
mod turn;
mod unions;

pub use has_rows::HasRows;
pub use lockstep::{Lockstep, Pair};
pub use logic::{combine, combined, common, complement};
pub use ops::{And, AndNot, BitOp, Or, Xor};
pub use unions::or_many;

#[cfg(test)]
mod tests;
