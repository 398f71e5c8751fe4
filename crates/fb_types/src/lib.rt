//! What a table's columns are: their types, names and schemas, the text that spells a schema,
//! what a field says, and records of cells under a schema.
#![tactic(auto)]

mod cells;
mod fields;
mod labels;
mod names;
mod schema_text;
mod schemas;
mod slots;
mod table;
#[cfg(test)]
mod tests;
mod types;

pub use cells::{Cell, record_fits};
pub use fields::{FieldAnswer, natural, parse_whole};
pub use labels::Label;
pub use names::ColName;
pub use schema_text::{MetaFault, SchemaKind, parse_schema, print_schema};
pub use schemas::{Column, Schema};
pub use table::Columns;
pub use types::ColType;
