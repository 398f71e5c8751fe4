//! Input to columns: the bytes of an input or a file, and the records of a CSV text as the columns of a table.
#![tactic(auto)]

mod field_law;
mod fields;
mod file;
mod input;
mod load;
mod rows;

pub use field_law::the_fields_of_whole_columns;
pub use fields::RecordKind;
pub use file::{FileFault, read_file};
pub use input::{InputFault, read_input};
pub use load::{RecordFault, records};

#[cfg(test)]
mod tests;
