//! Queries from their text: what is selected, on which records, in which order and how many; and the columns of a
//! schema that the selected items name.
#![tactic(auto)]

mod fronts;
mod parsing;
mod picking;
mod query;
#[cfg(test)]
mod tests;

pub use parsing::{parse_query, the_grammar_of_queries_is_unambiguous};
pub use picking::{OrderPlace, Pick, PickItem, SelectFault, SelectKind, resolve_select};
pub use query::{Item, OrderItem, Query};
