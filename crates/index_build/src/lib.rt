//! Indexes made of columns.
#![tactic(auto)]

mod build_law;
mod building;
mod fault;
mod gathering;
mod opening;
mod reading;
mod writing;

pub use build_law::{the_rows_of_a_world, the_store_after_a_build, the_world_after_a_build};
pub use building::build;
pub use fault::BuildFault;
pub use writing::Built;

#[cfg(test)]
mod tests;
