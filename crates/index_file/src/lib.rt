//! Index files: a column's specification, its bins and its bitmaps, each of which is read by itself.
#![tactic(auto)]

mod bitmaps;
mod edge;
mod fault;
mod front;
mod head;
mod laws;
mod numbers;
mod opening;
mod parts;
mod places;
#[cfg(test)]
mod tests;
mod writing;

pub use bitmaps::fetch;
pub use edge::Edge;
pub use fault::IndexFault;
pub use head::IndexHead;
pub use laws::{bins_in_order, places_in_order, written_indexes_open};
pub use opening::open_index;
pub use writing::write_index;
