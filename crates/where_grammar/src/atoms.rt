//! Conditions from tokens.

ghost use Rattle.std.specs.Prelude.{◌≡◌, Option, IfOk};
ghost use Rattle.where_grammar.specs.declared.token.Token.{Token};
ghost use Rattle.where_grammar.specs.Grammar.{turned};
ghost use Rattle.where_grammar.specs.Parsing.{atom_from, bare, between_at, compared_at, exists_at, items_from, like_at, list_at, named_at, number_in, numbered_at, numbers_at, seen_at, taken, text_in, texts_at, turned_at, worded};

use crate::clause::{Atom, Op};
use crate::fronts::{after_sign, after_word, first, name_at, number_at, op_at, text_at};
use crate::token::{Placed, Sign, Token};
use fb_types::{ColName, Label};
use sqlite_items::Items;
use std::alloc::{AllocError, Global};

/// An item of a list.
pub(crate) trait Item: Drop + Sized {
    ghost part: { Token → Option Self };

    ghost as_token: { Self → Token };

    /// The item at the front, and what follows it.
    fn at(alloc: Global, tokens: &[Placed]) -> Result<Option<(Self, &[Placed])>, AllocError>
        ensures { IfOk result (λ found. seen_at found ≡ taken part (bare tokens.now)) };

    /// The token that is this item.
    fn to_token(&self, alloc: Global) -> Result<Token, AllocError>
        ensures { IfOk result (λ token. token ≡ as_token self.now) };
}

impl Item for i128 {
    ghost part = { number_in };

    ghost as_token = { λ value. Token.Number value };

    fn at(_alloc: Global, tokens: &[Placed]) -> Result<Option<(i128, &[Placed])>, AllocError> {
        Ok(number_at(tokens))
    }

    fn to_token(&self, _alloc: Global) -> Result<Token, AllocError> {
        Ok(Token::Number(*self))
    }
}

impl Item for Label {
    ghost part = { text_in };

    ghost as_token = { λ text. Token.Text text };

    fn at(alloc: Global, tokens: &[Placed]) -> Result<Option<(Label, &[Placed])>, AllocError> {
        text_at(alloc, tokens)
    }

    fn to_token(&self, alloc: Global) -> Result<Token, AllocError> {
        Ok(Token::Text(self.copy(alloc)?))
    }
}

/// The items of a list from the first one on, and what follows the `)` behind them.
fn items<T: Item>(
    alloc: Global,
    tokens: &[Placed],
) -> Result<Option<(Items<T>, &[Placed])>, AllocError>
    ensures { IfOk result (λ found. seen_at found ≡ items_from T.part (bare tokens.now)) }
{
    let Some((item, after)) = T::at(alloc, tokens)? else {
        return Ok(None);
    };
    let mut list = Items::new(alloc);
    list.push(item)?;
    let mut rest = after;
    while let Some((token, behind)) = first(rest) {
        if token.is_sign(Sign::Close) {
            return Ok(Some((list, behind)));
        }
        if !token.is_sign(Sign::Comma) {
            return Ok(None);
        }
        match T::at(alloc, behind)? {
            Some((item, after)) => {
                list.push(item)?;
                rest = after;
            }
            None => return Ok(None),
        }
    }
    Ok(None)
}

/// Behind a name, `in` and `(`, where a number stands.
fn numbers_at(
    alloc: Global,
    name: ColName,
    tokens: &[Placed],
) -> Result<Option<(Atom, &[Placed])>, AllocError>
    ensures { IfOk result (λ found. seen_at found ≡ numbers_at name (bare tokens.now)) }
{
    match items(alloc, tokens)? {
        Some((list, rest)) => Ok(Some((Atom::Numbers { name, list }, rest))),
        None => Ok(None),
    }
}

/// Behind a name, `in` and `(`, where a text stands.
fn texts_at(
    alloc: Global,
    name: ColName,
    tokens: &[Placed],
) -> Result<Option<(Atom, &[Placed])>, AllocError>
    ensures { IfOk result (λ found. seen_at found ≡ texts_at name (bare tokens.now)) }
{
    match items(alloc, tokens)? {
        Some((list, rest)) => Ok(Some((Atom::Texts { name, list }, rest))),
        None => Ok(None),
    }
}

/// Behind a name and `in`.
fn list_at(
    alloc: Global,
    name: ColName,
    tokens: &[Placed],
) -> Result<Option<(Atom, &[Placed])>, AllocError>
    ensures { IfOk result (λ found. seen_at found ≡ list_at name (bare tokens.now)) }
{
    let Some(tokens) = after_sign(tokens, Sign::Open) else {
        return Ok(None);
    };
    match first(tokens) {
        Some((Token::Number(_), _)) => numbers_at(alloc, name, tokens),
        Some((Token::Text(_), _)) => texts_at(alloc, name, tokens),
        _ => Ok(None),
    }
}

/// Behind a name and an operator.
fn compared_at(
    alloc: Global,
    name: ColName,
    op: Op,
    tokens: &[Placed],
) -> Result<Option<(Atom, &[Placed])>, AllocError>
    ensures { IfOk result (λ found. seen_at found ≡ compared_at name op (bare tokens.now)) }
{
    match first(tokens) {
        Some((Token::Number(value), rest)) => {
            let value = *value;
            Ok(Some((Atom::Compare { name, op, value }, rest)))
        }
        Some((Token::Text(text), rest)) => {
            let text = text.copy(alloc)?;
            match op {
                Op::Equal => Ok(Some((Atom::Same { name, text }, rest))),
                Op::Differs => Ok(Some((Atom::Other { name, text }, rest))),
                _ => Ok(None),
            }
        }
        _ => Ok(None),
    }
}

/// Behind a name and `between`.
#[tactic(auto, unfolding(crate::specs::Parsing::between_at))]
fn between_at(name: ColName, tokens: &[Placed]) -> Option<(Atom, &[Placed])>
    ensures { seen_at result ≡ between_at name (bare tokens.now) }
{
    let (low, rest) = number_at(tokens)?;
    let rest = after_word(rest, "and")?;
    let (high, rest) = number_at(rest)?;
    Some((Atom::Between { name, low, high }, rest))
}

/// Behind a name and `like`.
fn like_at(
    alloc: Global,
    name: ColName,
    tokens: &[Placed],
) -> Result<Option<(Atom, &[Placed])>, AllocError>
    ensures { IfOk result (λ found. seen_at found ≡ like_at name (bare tokens.now)) }
{
    match text_at(alloc, tokens)? {
        Some((pattern, rest)) => Ok(Some((Atom::Like { name, pattern }, rest))),
        None => Ok(None),
    }
}

/// Behind a name and a token that is no operator.
fn worded<'a>(
    alloc: Global,
    name: ColName,
    token: &Token,
    tokens: &'a [Placed],
) -> Result<Option<(Atom, &'a [Placed])>, AllocError>
    ensures { IfOk result (λ found. seen_at found ≡ worded name token.now (bare tokens.now)) }
{
    if token.is_word("between") {
        Ok(between_at(name, tokens))
    } else if token.is_word("in") {
        list_at(alloc, name, tokens)
    } else if token.is_word("like") {
        like_at(alloc, name, tokens)
    } else {
        Ok(None)
    }
}

/// Behind a name.
fn named_at(
    alloc: Global,
    name: ColName,
    tokens: &[Placed],
) -> Result<Option<(Atom, &[Placed])>, AllocError>
    ensures { IfOk result (λ found. seen_at found ≡ named_at name (bare tokens.now)) }
{
    match first(tokens) {
        None => Ok(None),
        Some((Token::Sign(Sign::Op(op)), rest)) => compared_at(alloc, name, *op, rest),
        Some((token, rest)) => worded(alloc, name, token, rest),
    }
}

/// The operator with its sides exchanged.
pub(crate) fn turned(op: Op) -> Op
    ensures { result ≡ turned op }
{
    match op {
        Op::Less => Op::Greater,
        Op::LessEq => Op::GreaterEq,
        Op::Greater => Op::Less,
        Op::GreaterEq => Op::LessEq,
        Op::Equal => Op::Equal,
        Op::Differs => Op::Differs,
    }
}

/// Behind a number and an operator.
fn turned_at(
    alloc: Global,
    low: i128,
    left: Op,
    tokens: &[Placed],
) -> Result<Option<(Atom, &[Placed])>, AllocError>
    ensures { IfOk result (λ found. seen_at found ≡ turned_at low left (bare tokens.now)) }
{
    let Some((name, rest)) = name_at(alloc, tokens)? else {
        return Ok(None);
    };
    let left = turned(left);
    let Some((right, behind)) = op_at(rest) else {
        let atom = Atom::Compare {
            name,
            op: left,
            value: low,
        };
        return Ok(Some((atom, rest)));
    };
    match number_at(behind) {
        Some((high, rest)) => {
            let atom = Atom::Double {
                name,
                left,
                low,
                right,
                high,
            };
            Ok(Some((atom, rest)))
        }
        None => Ok(None),
    }
}

/// Behind a number.
fn numbered_at(
    alloc: Global,
    low: i128,
    tokens: &[Placed],
) -> Result<Option<(Atom, &[Placed])>, AllocError>
    ensures { IfOk result (λ found. seen_at found ≡ numbered_at low (bare tokens.now)) }
{
    match op_at(tokens) {
        Some((left, rest)) => turned_at(alloc, low, left, rest),
        None => Ok(None),
    }
}

/// Behind `exists`.
#[tactic(auto, unfolding(crate::specs::Parsing::exists_at))]
fn exists_at(alloc: Global, tokens: &[Placed]) -> Result<Option<(Atom, &[Placed])>, AllocError>
    ensures { IfOk result (λ found. seen_at found ≡ exists_at (bare tokens.now)) }
{
    let Some(rest) = after_sign(tokens, Sign::Open) else {
        return Ok(None);
    };
    let Some((name, rest)) = name_at(alloc, rest)? else {
        return Ok(None);
    };
    match after_sign(rest, Sign::Close) {
        Some(rest) => Ok(Some((Atom::Exists { name }, rest))),
        None => Ok(None),
    }
}

/// The condition that begins with this token, and what follows it.
pub(crate) fn atom_from<'a>(
    alloc: Global,
    token: &Token,
    tokens: &'a [Placed],
) -> Result<Option<(Atom, &'a [Placed])>, AllocError>
    ensures { IfOk result (λ found. seen_at found ≡ atom_from token.now (bare tokens.now)) }
{
    match token {
        Token::Word(word) => {
            if token.is_word("exists") {
                return exists_at(alloc, tokens);
            }
            match ColName::from_bytes(alloc, word.bytes())? {
                Some(name) => named_at(alloc, name, tokens),
                None => Ok(None),
            }
        }
        Token::Number(low) => numbered_at(alloc, *low, tokens),
        _ => Ok(None),
    }
}
