//! The three-valued answers of a plan, over vectors: on each row Yes, No or Unknown, as far as the bins of the columns
//! decide it.
//!
//! Each condition gives such answers. `combined` makes those of the whole plan of them by Kleene's tables. Where that
//! leaves rows Unknown, the conditions are made exact on these rows alone, and `true_rows` takes the plan's answers
//! again, which are then the truth (`laws`). No row is looked at one by one.
#![tactic(auto)]

mod connectives;
mod deciding;
mod evaluation;
mod laws;
mod row_answers;

pub use connectives::Join;
pub use deciding::{candidates, exact, true_rows};
pub use evaluation::{Held, combined};
pub use laws::{
    estimates_enclose, known_answers_are_the_truth, sound_answers, the_answers_of_plans,
    the_truth_from_conditions, unknown_rows_decide,
};
pub use row_answers::Answers;

#[cfg(test)]
mod tests;
