//! The parts of a query, each from the front of tokens.

ghost use Rattle.std.specs.Prelude.{◌≡◌, ◌≤◌, not, length, IfOk};
ghost use Rattle.std.specs.List.{prefix_len};
ghost use Rattle.std.specs.Option.{option_map};
ghost use Rattle.where_grammar.specs.Parsing.{At, bare, seen_at};
ghost use Rattle.query_grammar.specs.Shorter.{Shrinks};
ghost use Rattle.query_grammar.specs.Reading.{clause_len, counted_at, directed, ends_clause, item_at, item_from, limit_at, listed_at, name_called, order_at, order_item_at, plain_item, seen_where, select_at, where_at};

use crate::query::{Item, OrderItem};
use fb_types::ColName;
use sqlite_items::Items;
use std::alloc::{AllocError, Global};
use where_grammar::{Placed, Sign, Token, after_sign, after_word, first, name_at, number_at};

/// One of a list whose items stand with commas between.
pub(crate) trait ListItem: Drop + Sized {
    ghost part: { At Self };

    /// The one at the front, and what follows it.
    fn at(alloc: Global, tokens: &[Placed]) -> Result<Option<(Self, &[Placed])>, AllocError>
        ensures { IfOk result (λ found. seen_at found ≡ part (bare tokens.now)) };

    ghost shrinks: { Shrinks part };
}

/// A name in parentheses, behind the word of an aggregate.
#[tactic(auto, unfolding(crate::specs::Reading::name_called))]
fn name_called(alloc: Global, tokens: &[Placed]) -> Result<Option<(ColName, &[Placed])>, AllocError>
    ensures { IfOk result (λ found. seen_at found ≡ name_called (bare tokens.now)) }
{
    let Some(rest) = after_sign(tokens, Sign::Open) else {
        return Ok(None);
    };
    let Some((name, rest)) = name_at(alloc, rest)? else {
        return Ok(None);
    };
    match after_sign(rest, Sign::Close) {
        Some(rest) => Ok(Some((name, rest))),
        None => Ok(None),
    }
}

/// A `*` in parentheses, behind `count`.
#[tactic(auto, unfolding(crate::specs::Reading::counted_at))]
fn counted_at(tokens: &[Placed]) -> Option<(Item, &[Placed])>
    ensures { seen_at result ≡ counted_at (bare tokens.now) }
{
    let rest = after_sign(tokens, Sign::Open)?;
    let rest = after_sign(rest, Sign::Star)?;
    let rest = after_sign(rest, Sign::Close)?;
    Some((Item::CountAll, rest))
}

/// The item that begins with this token, and what follows it.
fn item_from<'a>(
    alloc: Global,
    token: &Token,
    tokens: &'a [Placed],
) -> Result<Option<(Item, &'a [Placed])>, AllocError>
    ensures { IfOk result (λ found. seen_at found ≡ item_from token.now (bare tokens.now)) }
{
    if token.is_word("count") {
        return Ok(counted_at(tokens));
    }
    if token.is_word("min") {
        let found = name_called(alloc, tokens)?;
        return Ok(found.map(|(name, rest)| (Item::Least(name), rest)));
    }
    if token.is_word("max") {
        let found = name_called(alloc, tokens)?;
        return Ok(found.map(|(name, rest)| (Item::Greatest(name), rest)));
    }
    if token.is_word("sum") {
        let found = name_called(alloc, tokens)?;
        return Ok(found.map(|(name, rest)| (Item::Sum(name), rest)));
    }
    plain_item(alloc, token, tokens)
}

/// The item that is this token, where it is a name, and what follows it.
fn plain_item<'a>(
    alloc: Global,
    token: &Token,
    tokens: &'a [Placed],
) -> Result<Option<(Item, &'a [Placed])>, AllocError>
    ensures { IfOk result (λ found. seen_at found ≡ plain_item token.now (bare tokens.now)) }
{
    match token {
        Token::Word(word) => match ColName::from_bytes(alloc, word.bytes())? {
            Some(name) => Ok(Some((Item::Plain(name), tokens))),
            None => Ok(None),
        },
        _ => Ok(None),
    }
}

impl ListItem for Item {
    ghost use Rattle.query_grammar.specs.Reading.{item_at};
    ghost use Rattle.query_grammar.specs.Shorter.{item_at-shorter};

    ghost part = { item_at };

    fn at(alloc: Global, tokens: &[Placed]) -> Result<Option<(Item, &[Placed])>, AllocError> {
        match first(tokens) {
            Some((token, rest)) => item_from(alloc, token, rest),
            None => Ok(None),
        }
    }

    ghost shrinks = { item_at-shorter };
}

/// The item with the direction behind it, and what follows.
fn directed(item: Item, tokens: &[Placed]) -> (OrderItem, &[Placed])
    ensures { (result.0, bare result.1.now) ≡ directed item (bare tokens.now) }
{
    if let Some(rest) = after_word(tokens, "asc") {
        return (OrderItem { item, down: false }, rest);
    }
    match after_word(tokens, "desc") {
        Some(rest) => (OrderItem { item, down: true }, rest),
        None => (OrderItem { item, down: false }, tokens),
    }
}

impl ListItem for OrderItem {
    ghost use Rattle.query_grammar.specs.Reading.{order_item_at};
    ghost use Rattle.query_grammar.specs.Shorter.{order_item_at-shorter};

    ghost part = { order_item_at };

    fn at(alloc: Global, tokens: &[Placed]) -> Result<Option<(OrderItem, &[Placed])>, AllocError> {
        match Item::at(alloc, tokens)? {
            Some((item, rest)) => Ok(Some(directed(item, rest))),
            None => Ok(None),
        }
    }

    ghost shrinks = { order_item_at-shorter };
}

/// One or more with commas between, and what follows them.
fn listed<T: ListItem>(
    alloc: Global,
    tokens: &[Placed],
) -> Result<Option<(Items<T>, &[Placed])>, AllocError>
    ensures { IfOk result (λ found. seen_at found ≡ listed_at T.part (bare tokens.now)) }
{
    let Some((item, after)) = T::at(alloc, tokens)? else {
        return Ok(None);
    };
    let mut list = Items::new(alloc);
    list.push(item)?;
    let mut rest = after;
    while let Some(behind) = after_sign(rest, Sign::Comma) {
        match T::at(alloc, behind)? {
            Some((item, after)) => {
                list.push(item)?;
                rest = after;
            }
            None => return Ok(None),
        }
    }
    Ok(Some((list, rest)))
}

/// The select list, None where there is none, and what follows it.
pub(crate) fn select_at(
    alloc: Global,
    tokens: &[Placed],
) -> Result<Option<(Option<Items<Item>>, &[Placed])>, AllocError>
    ensures { IfOk result (λ found. seen_at found ≡ select_at (bare tokens.now)) }
{
    let Some(rest) = after_word(tokens, "select") else {
        return Ok(Some((None, tokens)));
    };
    match listed(alloc, rest)? {
        Some((items, rest)) => Ok(Some((Some(items), rest))),
        None => Ok(None),
    }
}

fn ends_clause(token: &Token) -> bool
    ensures { result ≡ ends_clause token.now }
{
    token.is_word("order") || token.is_word("limit")
}

/// How many tokens a clause at the front has.
fn clause_len(tokens: &[Placed]) -> usize
    ensures value { result ≡ clause_len (bare tokens.now) }
    ensures within { result ≤ length tokens.now }
{
    let mut n = 0;
    for placed in tokens {
        if ends_clause(&placed.token) {
            return n;
        }
        n += 1;
    }
    n
}

/// The tokens of the clause, None where there is none, and what follows them.
pub(crate) fn where_at(tokens: &[Placed]) -> (Option<&[Placed]>, &[Placed])
    ensures { (seen_where result.0, bare result.1.now) ≡ where_at (bare tokens.now) }
{
    match after_word(tokens, "where") {
        Some(rest) => {
            let (clause, rest) = rest.split_at(clause_len(rest));
            (Some(clause), rest)
        }
        None => (None, tokens),
    }
}

/// The items of the order, none where there is none, and what follows them.
pub(crate) fn order_at(
    alloc: Global,
    tokens: &[Placed],
) -> Result<Option<(Items<OrderItem>, &[Placed])>, AllocError>
    ensures { IfOk result (λ found. seen_at found ≡ order_at (bare tokens.now)) }
{
    let Some(rest) = after_word(tokens, "order") else {
        return Ok(Some((Items::new(alloc), tokens)));
    };
    match after_word(rest, "by") {
        Some(rest) => listed(alloc, rest),
        None => Ok(None),
    }
}

/// The limit, None where there is none, and what follows it.
pub(crate) fn limit_at(tokens: &[Placed]) -> Option<(Option<i128>, &[Placed])>
    ensures { seen_at result ≡ limit_at (bare tokens.now) }
{
    let Some(rest) = after_word(tokens, "limit") else {
        return Some((None, tokens));
    };
    let (limit, rest) = number_at(rest)?;
    Some((Some(limit), rest))
}
