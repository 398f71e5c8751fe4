//! The conditions of queries: clauses from their text, and when a clause holds of a record.
#![tactic(auto)]

mod atoms;
mod clause;
mod fronts;
mod nesting;
mod parsing;
mod printing;
#[cfg(test)]
mod tests;
mod token;
mod truth;

pub use clause::{Atom, Clause, ClauseFault, ClauseRead, Op, QueryKind};
pub use fronts::{after_sign, after_word, first, name_at, number_at};
pub use parsing::{after_where, clause_of, long_of, parse_where, the_grammar_is_unambiguous};
pub use printing::print_where;
pub use token::{Placed, Sign, Token, tokens};
pub use truth::{
    the_truth_of_a_negation, the_truth_of_clauses, the_truth_of_numbers, the_truth_of_words,
};
