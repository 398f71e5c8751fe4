//! Datasets: opened from their catalog and the texts of their parts, made, and grown by loads.
#![tactic(auto)]

mod appending;
mod column_writing;
mod content;
mod fault;
mod gathering;
mod growing;
mod laws;
mod load_law;
mod opening;
mod part_column;
mod part_columns;
mod part_indexes;
mod part_words;
mod part_writing;
mod refusing;
#[cfg(test)]
mod tests;

pub use appending::append;
pub use content::{Dataset, create};
pub use fault::{AppendFault, DamageKind, OpenFault, PartFault};
pub use laws::{
    one_damage, one_dataset, the_columns_of_a_world, the_datasets_of_a_world,
    what_is_found_in_a_world,
};
pub use load_law::{
    the_catalog_before_a_load, the_files_of_a_load, the_names_of_a_load, the_refusals_of_loads,
    the_store_after_a_load, the_world_after_a_load,
};
pub use opening::open_dataset;
pub use part_columns::{column_damage, open_part_column};
pub use part_indexes::{index_damage, open_part_index};
pub use part_words::open_part_dictionary;
