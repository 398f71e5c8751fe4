//! The files of a column whose values are numbers: one file of numbers of one width, and one of the rows that have one.
#![tactic(auto)]

mod column;
mod fault;
mod laws;
mod masks;
mod numbers;
#[cfg(test)]
mod tests;
mod values;

pub use column::{ColumnRef, MAX_ROWS_READ, open_column, read_rows};
pub use fault::ColFault;
pub use laws::{one_spelling, rows_of_one_width, written_files_open};
pub use masks::{open_mask, write_mask};
pub use values::{numbers_of_bytes, write_column};
