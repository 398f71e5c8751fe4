//! What a plan says.

use binning::Spans;
use sqlite_items::{Boxed, Items};
use where_grammar::Atom;

/// A condition on the column at a place of the schema. It is false where the cell is null.
#[derive(Debug, Drop)]
pub enum PlanAtom {
    /// The number is one of the spans'. The column is one of whole numbers.
    Whole { col: usize, spans: Spans },
    /// The word meets the condition, which is one on text. The column is a category or text column.
    Word { col: usize, atom: Atom },
    /// The cell isn't null.
    Exists { col: usize },
}

/// The condition of a query, under a schema.
#[derive(Drop)]
pub enum Plan {
    /// True of every record.
    All,
    /// Some part is true.
    Or(Items<Plan>),
    /// An odd number of parts is true.
    Xor(Items<Plan>),
    /// All parts are true.
    And(Items<Plan>),
    /// The part is false.
    Not(Boxed<Plan>),
    One(PlanAtom),
}
