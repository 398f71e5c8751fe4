//! What a part of a dataset means to the conditions of plans: what is known of a condition on each row before any value is
//! read, which bitmaps that needs, and which reads of the part's files are of what.
//!
//! The crate has definitions (`specs/`), and laws about them: functions without a body's work, whose contracts are proved.
#![tactic(auto)]

mod examples;
mod laws;

pub use examples::{
    the_answers_of_words, the_bitmaps_of_conditions, the_numbers_of_plans, the_reads_of_columns,
    the_records_of_plans,
};
pub use laws::{
    estimates_enclose_hits, the_bins_of_columns, the_reads_of_bitmaps, the_rows_of_clauses,
    what_is_known, what_spans_say,
};
