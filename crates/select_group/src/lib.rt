//! The rows that a query answers of the records it chose: their groups with counts, least and greatest numbers and
//! sums, the order, the limit, and the text.
#![tactic(auto)]

mod cells;
mod grouper;
mod keys;
mod laws;
mod ordering;
mod printing;
#[cfg(test)]
mod tests;
mod totals;

pub use grouper::Grouper;
pub use laws::{the_keys_of_groups, the_order_of_rows, the_text_of_blocks};
pub use printing::print_rows;
