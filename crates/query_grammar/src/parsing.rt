//! Queries from their text.

ghost use Rattle.std.specs.Prelude.{◌≡◌, ◌||◌, false, is_some, List, Ok, Err, Some, IfOk, IfErr, IfSome};
ghost use Rattle.std.specs.Option.{option_map};
ghost use Rattle.answers.specs.Answers.{Answers, Tells};
ghost use Rattle.where_grammar.specs.declared.clause.QueryKind.{QueryKind};
ghost use Rattle.where_grammar.specs.declared.token.Token.{Token};
ghost use Rattle.where_grammar.specs.Language.{refusal};
ghost use Rattle.where_grammar.specs.Limits.{most_open};
ghost use Rattle.where_grammar.specs.Nesting.{is_crowded};
ghost use Rattle.where_grammar.specs.Parsing.{bare};
ghost use Rattle.query_grammar.specs.declared.query.Asked.{Asked};
ghost use Rattle.query_grammar.specs.declared.query.Query.{Query};
ghost use Rattle.query_grammar.specs.Grammar.{IsQuery};
ghost use Rattle.query_grammar.specs.Language.{NoQuery, SpellsQuery, asked_or_refused, clause_or_refused, has_long_list, is_long, is_long_select, kept, kept_if_read, limited, read_query};
ghost use Rattle.query_grammar.specs.Reading.{parts_of, ended, filled, only_rows, ordered_parts, query_of, seen_parts, seen_where};

use crate::fronts::{limit_at, order_at, select_at, where_at};
use crate::query::{Asked, Item, OrderItem, Query};
use sqlite_items::Items;
use std::alloc::{AllocError, Global};
use where_grammar::{Clause, ClauseFault, Placed, QueryKind, clause_of, long_of, tokens};

/// A query whose clause is still tokens.
#[derive(Drop)]
pub(crate) struct PartsRead<'a> {
    select: Option<Items<Item>>,
    clause: Option<&'a [Placed]>,
    order: Items<OrderItem>,
    limit: Option<i128>,
}

fn only_rows(select: &Option<Items<Item>>, order: &[OrderItem], limit: &Option<i128>) -> bool
    ensures { result ≡ only_rows select.now order.now limit.now }
{
    select.is_some() || (order.is_empty() && limit.is_none())
}

/// The order and the limit behind the select list and the clause, and nothing behind them.
#[tactic(auto, unfolding(crate::specs::Reading::ordered_parts))]
fn ordered_parts<'a>(
    alloc: Global,
    select: Option<Items<Item>>,
    clause: Option<&'a [Placed]>,
    tokens: &[Placed],
) -> Result<Option<PartsRead<'a>>, AllocError>
    ensures { IfOk result (λ found. option_map seen_parts found ≡ ordered_parts select (seen_where clause.entry) (bare tokens.now)) }
{
    let Some((order, rest)) = order_at(alloc, tokens)? else {
        return Ok(None);
    };
    let Some((limit, rest)) = limit_at(rest) else {
        return Ok(None);
    };
    if !rest.is_empty() || !only_rows(&select, order.as_slice(), &limit) {
        return Ok(None);
    }
    Ok(Some(PartsRead {
        select,
        clause,
        order,
        limit,
    }))
}

/// The parts of a query that the tokens are.
#[tactic(auto, unfolding(crate::specs::Reading::parts_of))]
fn parts_of(alloc: Global, tokens: &[Placed]) -> Result<Option<PartsRead<'_>>, AllocError>
    ensures { IfOk result (λ found. option_map seen_parts found ≡ parts_of (bare tokens.now)) }
{
    let Some((select, rest)) = select_at(alloc, tokens)? else {
        return Ok(None);
    };
    let (clause, rest) = where_at(rest);
    ordered_parts(alloc, select, clause, rest)
}

/// The clause of a query, where it has one.
#[tactic(auto, using(crate::proofs::QueryLaws::clause_on, crate::proofs::QueryLaws::clause_off))]
fn clause_in(alloc: Global, tokens: Option<&[Placed]>) -> Result<Option<Clause>, ClauseFault>
    requires { IfSome (seen_where tokens) (λ clause. is_crowded most_open clause ≡ false) }
    ensures { Answers refusal result (clause_or_refused (seen_where tokens.entry)) }
{
    match tokens {
        Some(tokens) => {
            let read = clause_of(alloc, tokens)?;
            Ok(Some(read.clause))
        }
        None => Ok(None),
    }
}

/// The query of these parts.
#[tactic(auto, using(crate::proofs::QueryLaws::filled_on, crate::proofs::QueryLaws::filled_off))]
fn asked_of(alloc: Global, parts: PartsRead<'_>) -> Result<Asked, ClauseFault>
    requires { IfSome (seen_where parts.clause) (λ clause. is_crowded most_open clause ≡ false) }
    ensures { Answers refusal result (asked_or_refused (filled (seen_parts parts.entry) (seen_where parts.entry.clause))) }
{
    let PartsRead {
        select,
        clause,
        order,
        limit,
    } = parts;
    let clause = clause_in(alloc, clause)?;
    Ok(Asked {
        select,
        clause,
        order,
        limit,
    })
}

/// The query that the tokens are.
#[tactic(auto, unfolding(crate::specs::Reading::query_of))]
fn asked_by(alloc: Global, tokens: &[Placed]) -> Result<Asked, ClauseFault>
    requires { is_crowded most_open (bare tokens.now) ≡ false }
    ensures { Answers refusal result (asked_or_refused (query_of (bare tokens.now))) }
{
    match parts_of(alloc, tokens)? {
        Some(parts) => asked_of(alloc, parts),
        None => Err(syntax()),
    }
}

fn syntax() -> ClauseFault
    ensures { result ≡ ClauseFault.Bad QueryKind.Syntax }
{
    ClauseFault::Bad {
        kind: QueryKind::Syntax,
    }
}

/// The most items of a select list, and of an order.
const MAX_ITEMS: usize = 255;

/// The greatest limit.
const MAX_ROWS: i128 = 999_999_999_999_999_999;

fn is_long_select(select: &Option<Items<Item>>) -> bool
    ensures { result ≡ is_long_select select.now }
{
    match select {
        Some(items) => items.len() > MAX_ITEMS,
        None => false,
    }
}

fn has_long_list(asked: &Asked, tokens: &[Placed]) -> bool
    ensures { result ≡ has_long_list asked.now tokens.now }
{
    is_long_select(&asked.select) || long_of(tokens).is_some() || asked.order.len() > MAX_ITEMS
}

/// The query with its limit as a count of rows.
fn limited(asked: Asked) -> Result<Query, ClauseFault>
    ensures { Answers refusal result (limited asked asked.limit) }
{
    let limit = match asked.limit {
        None => None,
        Some(limit) if 0 <= limit && limit <= MAX_ROWS => Some(limit as u64),
        Some(_) => {
            return Err(ClauseFault::Bad {
                kind: QueryKind::Literal,
            });
        }
    };
    Ok(Query {
        select: asked.select,
        clause: asked.clause,
        order: asked.order,
        limit,
    })
}

/// The query, where its lists and its limit are within the limits.
fn kept(asked: Asked, tokens: &[Placed]) -> Result<Query, ClauseFault>
    ensures { Answers refusal result (kept asked tokens.now) }
{
    if has_long_list(&asked, tokens) {
        return Err(ClauseFault::Bad {
            kind: QueryKind::ListLength,
        });
    }
    limited(asked)
}

/// The query that the tokens are, where its lists and its limit are within the limits.
#[tactic(auto, using(crate::proofs::TextLaws::read_on, crate::proofs::TextLaws::read_off))]
fn query_by(alloc: Global, tokens: &[Placed]) -> Result<Query, ClauseFault>
    requires { is_crowded most_open (bare tokens.now) ≡ false }
    ensures { Answers refusal result (kept_if_read tokens.now (query_of (bare tokens.now))) }
{
    let asked = asked_by(alloc, tokens)?;
    kept(asked, tokens)
}

#[tactic(auto, unfolding(crate::specs::Language::read_query))]
fn parsed(alloc: Global, text: &str) -> Result<Query, ClauseFault>
    ensures { Answers refusal result (read_query text.now) }
{
    let tokens = tokens(alloc, text)?;
    query_by(alloc, tokens.as_slice())
}

/// The query that the text is, or the first refusal: those of a clause's text; then `Syntax` where the tokens are no
/// query; then `ListLength` where a list behind `in` has more than 4,096 items, or the select list or the order more
/// than 255; then `Literal` where the limit isn't 0 to 999,999,999,999,999,999.
pub fn parse_query(alloc: Global, text: &str) -> Result<Query, ClauseFault>
    // What is read is spelled so, and what is spelled so is read.
    ensures found { IfOk result (λ q. SpellsQuery q text.now) }
    ensures only { (q : Query) → SpellsQuery q text.now → Answers refusal result (Ok q) }

    // A refusal is the first one that holds, and where one holds, it is given.
    ensures refused { IfErr result (Tells refusal (NoQuery text.now)) }
    ensures refuses { (kind : QueryKind) → NoQuery text.now kind → Answers {T = Query} refusal result (Err kind) }

    ensures exact { Answers refusal result (read_query text.now) }
{
    parsed(alloc, text)
}

/// A list of tokens is at most one query.
pub fn the_grammar_of_queries_is_unambiguous()
    ensures { (tokens : List Token) (one other : Asked) → IsQuery one tokens → IsQuery other tokens → one ≡ other }
{}
