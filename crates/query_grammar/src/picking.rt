//! The columns that a query selects, under a schema.

ghost use Rattle.std.specs.Prelude.{◌≡◌, Option, Some, Ok, Err, IfOk, IfErr, IfSome, position, map};
ghost use Rattle.std.specs.List.{list_any};
ghost use Rattle.answers.specs.Answers.{Answers, Tells};
ghost use Rattle.query_grammar.specs.declared.picking.Pick.{Pick};
ghost use Rattle.query_grammar.specs.declared.picking.SelectKind.{SelectKind};
ghost use Rattle.query_grammar.specs.Picks.{ArePicked, ArePlaced, IsOfNumbers, IsPick, IsPicked, IsPickOf, IsSoundPick, column_named, is_aggregate, same_item};
ghost use Rattle.query_grammar.specs.Refusals.{TellsRefusal, first_some, item_refusal, list_refusal, number_refusal, order_refusal, refusal, select_refusal, unknown_refusal};
ghost use Rattle.fb_types.specs.Schemas.{place_of};

use crate::query::{Item, OrderItem, Query};
use fb_types::{ColName, ColType, Schema};
use sqlite_items::{Items, at};
use std::alloc::{AllocError, Global};
use thiserror::Error;

/// What one column of an answer shows, with the place of the schema's column.
#[derive(Clone, Copy, Debug)]
pub enum PickItem {
    Plain(usize),
    CountAll,
    Least(usize),
    Greatest(usize),
    Sum(usize),
}

/// A column of an answer, by its place, by which the answer is ordered.
#[derive(Clone, Copy, Debug)]
pub struct OrderPlace {
    pub place: usize,
    /// Whether the greatest comes first.
    pub down: bool,
}

/// What a query selects.
#[derive(Debug, Drop)]
pub struct Pick {
    pub items: Items<PickItem>,
    pub order: Items<OrderPlace>,
    pub limit: Option<u64>,
    /// Whether some item is over all records of a group.
    pub grouped: bool,
}

/// Why nothing is selected.
#[derive(Debug, Drop)]
pub enum SelectKind {
    /// A column that the schema lacks.
    Unknown(ColName),
    /// `min`, `max` or `sum` of a column that isn't of whole numbers.
    WrongType(ColName),
    /// An order item that isn't in the select list.
    NotSelected,
}

/// Why a query selects nothing under a schema.
#[derive(Debug, Drop, Error)]
pub enum SelectFault {
    #[error("query: {kind:?}")]
    Bad { kind: SelectKind },
    #[error("out of memory")]
    OutOfMemory,
}

impl From<AllocError> for SelectFault {
    ghost use Rattle.std.specs.Prelude.{◌≡◌};
    ghost use Rattle.query_grammar.specs.declared.picking.SelectFault.TheVariants.{OutOfMemory};

    ghost from_gives = { λ _ e. e ≡ OutOfMemory };

    fn from(_e: AllocError) -> SelectFault {
        SelectFault::OutOfMemory
    }
}

/// A fault that names the column.
fn unknown(alloc: Global, name: &ColName) -> SelectFault
    ensures { Tells refusal (λ kind. kind ≡ SelectKind.Unknown name.now) result }
{
    match name.copy(alloc) {
        Ok(name) => SelectFault::Bad {
            kind: SelectKind::Unknown(name),
        },
        Err(_) => SelectFault::OutOfMemory,
    }
}

/// A fault that names the column.
fn wrong_type(alloc: Global, name: &ColName) -> SelectFault
    ensures { Tells refusal (λ kind. kind ≡ SelectKind.WrongType name.now) result }
{
    match name.copy(alloc) {
        Ok(name) => SelectFault::Bad {
            kind: SelectKind::WrongType(name),
        },
        Err(_) => SelectFault::OutOfMemory,
    }
}

/// The place of a column.
fn column_place(alloc: Global, name: &ColName, schema: &Schema) -> Result<usize, SelectFault>
    ensures found { IfOk result (λ col. place_of schema.now name.now ≡ Some col) }
    ensures refused { TellsRefusal (unknown_refusal schema.now name.now) result }
{
    match schema.place(name.bytes()) {
        Some(col) => Ok(col),
        None => Err(unknown(alloc, name)),
    }
}

/// The place and the type of the column of that name.
fn column_named(schema: &Schema, name: &[u8]) -> Option<(usize, ColType)>
    ensures { result ≡ column_named schema.now name.now }
{
    let col = schema.place(name)?;
    let column = at(schema.columns(), col)?;
    Some((col, column.ty))
}

/// The place of a column, where its type is one of whole numbers.
fn number_at(
    alloc: Global,
    name: &ColName,
    schema: &Schema,
    col: usize,
    ty: ColType,
) -> Result<usize, SelectFault>
    requires { column_named schema.now name.now ≡ Some (col, ty) }
    ensures found { IfOk result (IsOfNumbers schema.now name.now) }
    ensures refused { TellsRefusal (number_refusal schema.now name.now) result }
{
    match ty.ends() {
        Some(_) => Ok(col),
        None => Err(wrong_type(alloc, name)),
    }
}

/// The place of a column of whole numbers.
fn number_place(alloc: Global, name: &ColName, schema: &Schema) -> Result<usize, SelectFault>
    ensures found { IfOk result (IsOfNumbers schema.now name.now) }
    ensures refused { TellsRefusal (number_refusal schema.now name.now) result }
{
    match column_named(schema, name.bytes()) {
        Some((col, ty)) => number_at(alloc, name, schema, col, ty),
        None => Err(unknown(alloc, name)),
    }
}

fn picked(alloc: Global, item: &Item, schema: &Schema) -> Result<PickItem, SelectFault>
    ensures found { IfOk result (IsPicked schema.now item.now) }
    ensures refused { TellsRefusal (item_refusal schema.now item.now) result }
{
    match item {
        Item::Plain(name) => Ok(PickItem::Plain(column_place(alloc, name, schema)?)),
        Item::CountAll => Ok(PickItem::CountAll),
        Item::Least(name) => Ok(PickItem::Least(number_place(alloc, name, schema)?)),
        Item::Greatest(name) => Ok(PickItem::Greatest(number_place(alloc, name, schema)?)),
        Item::Sum(name) => Ok(PickItem::Sum(number_place(alloc, name, schema)?)),
    }
}

fn all_picked(
    alloc: Global,
    items: &[Item],
    schema: &Schema,
) -> Result<Items<PickItem>, SelectFault>
    ensures found { IfOk result (ArePicked schema.now items.now) }
    ensures refused { TellsRefusal (first_some (map (item_refusal schema.now) items.now)) result }
{
    let mut picks = Items::new(alloc);
    for item in items {
        picks.push(picked(alloc, item, schema)?)?;
    }
    Ok(picks)
}

/// Where the select list shows an item first.
fn place_in(items: &[Item], wanted: &Item) -> Option<usize>
    ensures { result ≡ position (same_item wanted.now) items.now }
{
    items.iter().position(|item| wanted.is_same(item))
}

fn all_placed(
    alloc: Global,
    items: &[Item],
    order: &[OrderItem],
) -> Result<Items<OrderPlace>, SelectFault>
    ensures found { IfOk result (ArePlaced items.now order.now) }
    ensures refused { TellsRefusal (first_some (map (order_refusal items.now) order.now)) result }
{
    let mut places = Items::new(alloc);
    for by in order {
        match place_in(items, &by.item) {
            Some(place) => places.push(OrderPlace {
                place,
                down: by.down,
            })?,
            None => {
                return Err(SelectFault::Bad {
                    kind: SelectKind::NotSelected,
                });
            }
        }
    }
    Ok(places)
}

fn is_grouped(items: &[Item]) -> bool
    ensures { result ≡ list_any is_aggregate items.now }
{
    items.iter().any(|item| item.is_aggregate())
}

/// What items and an order select under a schema.
fn pick_of(
    alloc: Global,
    items: &[Item],
    order: &[OrderItem],
    limit: Option<u64>,
    schema: &Schema,
) -> Result<Pick, SelectFault>
    ensures found { IfOk result (IsPick schema.now items.now order.now limit) }
    ensures refused { TellsRefusal (list_refusal schema.now (Some items.now) order.now) result }
{
    Ok(Pick {
        items: all_picked(alloc, items, schema)?,
        order: all_placed(alloc, items, order)?,
        limit,
        grouped: is_grouped(items),
    })
}

fn resolved(alloc: Global, query: &Query, schema: &Schema) -> Result<Option<Pick>, SelectFault>
    ensures found { IfOk result (IsPickOf schema.now query.now) }
    ensures refused { TellsRefusal (select_refusal schema.now query.now) result }
{
    match &query.select {
        None => Ok(None),
        Some(items) => {
            let order = query.order.as_slice();
            let pick = pick_of(alloc, items.as_slice(), order, query.limit, schema)?;
            Ok(Some(pick))
        }
    }
}

/// What a query selects under a schema, None where it has no select list. It is refused for its first item whose column
/// isn't in the schema, as `Unknown`, or isn't of whole numbers though it is of `min`, `max` or `sum`, as `WrongType`;
/// then for its first order item that isn't in the select list, as `NotSelected`.
pub fn resolve_select(
    alloc: Global,
    query: &Query,
    schema: &Schema,
) -> Result<Option<Pick>, SelectFault>
    // What is given is what the query selects, and where it selects something, that is given.
    ensures found { IfOk result (IsPickOf schema.now query.now) }
    ensures only { (picked : Option Pick) → IsPickOf schema.now query.now picked → Answers refusal result (Ok picked) }

    // A refusal is the first one, and where there is one, it is given.
    ensures refused { TellsRefusal (select_refusal schema.now query.now) result }
    ensures refuses { (kind : SelectKind) → select_refusal schema.now query.now ≡ Some kind
        → Answers {T = Option Pick} refusal result (Err kind) }

    ensures sound { IfOk result (λ picked. IfSome picked IsSoundPick) }
{
    resolved(alloc, query, schema)
}
