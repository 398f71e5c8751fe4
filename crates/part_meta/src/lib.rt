//! The names of a dataset's files, and the texts that list its parts and say what a part has.
#![tactic(auto)]

mod catalog;
mod catalog_reading;
mod fault;
mod lines;
mod names;
mod part;
mod part_reading;
mod reading;
#[cfg(test)]
mod tests;

pub use catalog::{Catalog, one_catalog, print_catalog};
pub use catalog_reading::parse_catalog;
pub use fault::MetaTextFault;
pub use names::{FileKind, catalog_of, different_names, file_of};
pub use part::{PartMeta, one_part, print_part};
pub use part_reading::parse_part;
