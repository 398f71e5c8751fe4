//! What a query says.

ghost use Rattle.std.specs.Prelude.{◌≡◌};
ghost use Rattle.query_grammar.specs.Picks.{is_aggregate, same_item};

use fb_types::ColName;
use sqlite_items::Items;
use where_grammar::Clause;

/// What one column of an answer shows.
#[derive(Debug, Drop)]
pub enum Item {
    /// The cells of a column, as they are.
    Plain(ColName),
    /// `count(*)`, the number of records.
    CountAll,
    /// `min`, the least number of a column.
    Least(ColName),
    /// `max`, the greatest number of a column.
    Greatest(ColName),
    /// `sum`, all numbers of a column together.
    Sum(ColName),
}

/// An item by which an answer is ordered.
#[derive(Debug, Drop)]
pub struct OrderItem {
    pub item: Item,
    /// Whether the greatest comes first, `desc`.
    pub down: bool,
}

/// A query.
#[derive(Drop)]
pub struct Query {
    /// The columns of the answer; None where only the records are counted.
    pub select: Option<Items<Item>>,
    /// Which records; None for all.
    pub clause: Option<Clause>,
    pub order: Items<OrderItem>,
    /// How many rows of the answer, at most 999,999,999,999,999,999; None for all.
    pub limit: Option<u64>,
}

/// A query as the grammar has it, whose limit may be any number and whose lists may be of any length.
#[derive(Drop)]
pub(crate) struct Asked {
    pub select: Option<Items<Item>>,
    pub clause: Option<Clause>,
    pub order: Items<OrderItem>,
    pub limit: Option<i128>,
}

impl Item {
    /// Whether the item is over all records of a group.
    pub fn is_aggregate(&self) -> bool
        ensures { result ≡ is_aggregate self.now }
    {
        match self {
            Item::Plain(_) => false,
            Item::CountAll => true,
            Item::Least(_) => true,
            Item::Greatest(_) => true,
            Item::Sum(_) => true,
        }
    }

    /// Whether both show the same.
    pub fn is_same(&self, other: &Item) -> bool
        ensures { result ≡ same_item self.now other.now }
    {
        match (self, other) {
            (Item::Plain(name), Item::Plain(other)) => name.bytes() == other.bytes(),
            (Item::CountAll, Item::CountAll) => true,
            (Item::Least(name), Item::Least(other)) => name.bytes() == other.bytes(),
            (Item::Greatest(name), Item::Greatest(other)) => name.bytes() == other.bytes(),
            (Item::Sum(name), Item::Sum(other)) => name.bytes() == other.bytes(),
            _ => false,
        }
    }
}
