//! What a clause asks of the columns of a schema: the plan of a clause, whose conditions name columns by their places
//! and sets of numbers by their spans.
#![tactic(auto)]

mod faults;
mod laws;
mod numbers;
mod plan;
mod planning;
mod sorts;
#[cfg(test)]
mod tests;
mod words;

pub use faults::NameFault;
pub use laws::{
    at_most_one_plan, the_conditions_of_plans, the_plan_of_a_clause, the_truth_of_plan_parts,
    the_truth_of_plans,
};
pub use plan::{Plan, PlanAtom};
pub use planning::resolve;
pub use sorts::{Sort, sort_of};
pub use words::word_spans;
