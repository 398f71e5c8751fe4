//! The equality encoding of bins: bitmap `k` has the rows of bin `k` (O'Neil and Quass, "Improved query performance with
//! variant indexes", SIGMOD 1997).
#![tactic(auto)]

mod equality;

pub use equality::{Equality, append_places};
