//! Clauses from their text.

ghost use Rattle.std.specs.Prelude.{◌≡◌, false, ℕ, List, Some, Ok, Err, IfOk, IfErr, IfSome};
ghost use Rattle.std.specs.Option.{option_map};
ghost use Rattle.where_grammar.specs.declared.clause.Clause.{Clause};
ghost use Rattle.where_grammar.specs.declared.clause.QueryKind.{QueryKind};
ghost use Rattle.where_grammar.specs.declared.token.Token.{Token};
ghost use Rattle.where_grammar.specs.Grammar.{IsClause, group, joins};
ghost use Rattle.answers.specs.Answers.{Answers, Tells};
ghost use Rattle.where_grammar.specs.Language.{FollowsWhere, IsNoClause, NoClause, SpellsClause, after_where, clause_read, read_where, refusal};
ghost use Rattle.where_grammar.specs.Limits.{most_open};
ghost use Rattle.where_grammar.specs.Nesting.{is_crowded};
ghost use Rattle.where_grammar.specs.Parsing.{after, bare, clause_of, clause_within, commas_before_close, enclosed_at, is_long, is_tighter, joined_at, long_of, not_times, nots_at, part_at, part_from, part_goes_on, parts_behind, seen_at, unit_at};

use crate::atoms::atom_from;
use crate::clause::{Clause, ClauseFault, ClauseRead, Join, QueryKind, bad};
use crate::fronts::{after_sign, first, nots_len};
use crate::nesting::MAX_OPEN;
use crate::token::{Placed, Sign, Token, tokens, word_len};
use lexing::blanks_len;
use sqlite_items::{Boxed, Items};
use std::alloc::{AllocError, Global};

/// What follows a joint of this level.
fn after_joint(join: Join, tokens: &[Placed]) -> Option<&[Placed]>
    ensures { option_map (λ rest. bare rest.now) result ≡ after (joins join) (bare tokens.now) }
{
    match first(tokens) {
        Some((token, rest)) if joins(join, token) => Some(rest),
        _ => None,
    }
}

fn joins(join: Join, token: &Token) -> bool
    ensures { result ≡ joins join token.now }
{
    match join {
        Join::Or => token.is_word("or") || token.is_sign(Sign::Or),
        Join::Xor => token.is_word("xor"),
        Join::And => token.is_word("and") || token.is_sign(Sign::And),
    }
}

fn is_tighter(join: Join, token: &Token) -> bool
    ensures { result ≡ is_tighter join token.now }
{
    match join {
        Join::Or => joins(Join::Xor, token) || joins(Join::And, token),
        Join::Xor => joins(Join::And, token),
        Join::And => false,
    }
}

/// Whether a part of this level goes on behind its first unit.
fn part_goes_on(join: Join, tokens: &[Placed]) -> bool
    ensures { result ≡ part_goes_on join (bare tokens.now) }
{
    match tokens {
        [] => false,
        [next, ..] => is_tighter(join, &next.token),
    }
}

fn group(join: Join, parts: Items<Clause>) -> Clause
    ensures { result ≡ group join parts }
{
    match join {
        Join::Or => Clause::Or(parts),
        Join::Xor => Clause::Xor(parts),
        Join::And => Clause::And(parts),
    }
}

/// Parts joined by `or`.
#[cycle(clauses)]
fn joined(
    alloc: Global,
    depth: u32,
    tokens: &[Placed],
) -> Result<Option<(Clause, &[Placed])>, AllocError>
    ensures { IfOk result (λ found. seen_at found ≡ joined_at Join.Or (part_at Join.Or (clause_within depth)) (bare tokens.now)) }
{
    match part(alloc, Join::Or, depth, tokens)? {
        Some((first, rest)) => more_joined(alloc, Join::Or, depth, first, rest),
        None => Ok(None),
    }
}

/// A part and those that are joined to it.
#[cycle(clauses)]
fn more_joined(
    alloc: Global,
    join: Join,
    depth: u32,
    first: Clause,
    tokens: &[Placed],
) -> Result<Option<(Clause, &[Placed])>, AllocError>
    ensures { IfOk result (λ found. seen_at found ≡ parts_behind join (part_at join (clause_within depth)) first (bare tokens.now)) }
{
    if after_joint(join, tokens).is_none() {
        return Ok(Some((first, tokens)));
    }
    let mut parts = Items::new(alloc);
    parts.push(first)?;
    let mut rest = tokens;
    while let Some(behind) = after_joint(join, rest) {
        match part(alloc, join, depth, behind)? {
            Some((next, after)) => {
                parts.push(next)?;
                rest = after;
            }
            None => return Ok(None),
        }
    }
    Ok(Some((group(join, parts), rest)))
}

/// One part of this level. Most are one unit, which isn't handed through each tighter level.
#[cycle(clauses)]
fn part(
    alloc: Global,
    join: Join,
    depth: u32,
    tokens: &[Placed],
) -> Result<Option<(Clause, &[Placed])>, AllocError>
    ensures { IfOk result (λ found. seen_at found ≡ part_at join (clause_within depth) (bare tokens.now)) }
{
    match nots(alloc, depth, tokens)? {
        Some((first, rest)) => {
            if part_goes_on(join, rest) {
                part_from(alloc, join, depth, first, rest)
            } else {
                Ok(Some((first, rest)))
            }
        }
        None => Ok(None),
    }
}

/// A part of this level from its first unit on.
#[cycle(clauses)]
fn part_from(
    alloc: Global,
    join: Join,
    depth: u32,
    first: Clause,
    tokens: &[Placed],
) -> Result<Option<(Clause, &[Placed])>, AllocError>
    ensures { IfOk result (λ found. seen_at found ≡ part_from join (clause_within depth) first (bare tokens.now)) }
{
    match join {
        Join::Or => match more_joined(alloc, Join::And, depth, first, tokens)? {
            Some((first, rest)) => more_joined(alloc, Join::Xor, depth, first, rest),
            None => Ok(None),
        },
        Join::Xor => more_joined(alloc, Join::And, depth, first, tokens),
        Join::And => Ok(Some((first, tokens))),
    }
}

/// A unit behind `not`s.
#[cycle(clauses)]
fn nots(
    alloc: Global,
    depth: u32,
    tokens: &[Placed],
) -> Result<Option<(Clause, &[Placed])>, AllocError>
    ensures { IfOk result (λ found. seen_at found ≡ nots_at (clause_within depth) (bare tokens.now)) }
{
    let n = nots_len(tokens);
    if n == 0 {
        return unit(alloc, depth, tokens);
    }
    negated(alloc, depth, n, tokens.split_at(n).1)
}

/// A unit, negated so many times.
#[cycle(clauses)]
fn negated(
    alloc: Global,
    depth: u32,
    times: usize,
    tokens: &[Placed],
) -> Result<Option<(Clause, &[Placed])>, AllocError>
    ensures { IfOk result (λ found. seen_at found ≡ option_map (λ f. (not_times times f.0, f.1)) (unit_at (clause_within depth) (bare tokens.now))) }
{
    match unit(alloc, depth, tokens)? {
        Some((clause, rest)) => {
            let clause = not_times(alloc, times, clause)?;
            Ok(Some((clause, rest)))
        }
        None => Ok(None),
    }
}

fn not_times(alloc: Global, n: usize, clause: Clause) -> Result<Clause, AllocError>
    ensures { IfOk result (λ c. c ≡ not_times n clause) }
{
    let mut clause = clause;
    for _time in 0..n {
        clause = Clause::Not(Boxed::new(alloc, clause)?);
    }
    Ok(clause)
}

/// A clause in parentheses, or a condition.
#[cycle(clauses)]
fn unit(
    alloc: Global,
    depth: u32,
    tokens: &[Placed],
) -> Result<Option<(Clause, &[Placed])>, AllocError>
    ensures { IfOk result (λ found. seen_at found ≡ unit_at (clause_within depth) (bare tokens.now)) }
{
    match first(tokens) {
        None => Ok(None),
        Some((token, rest)) => {
            if token.is_sign(Sign::Open) {
                enclosed(alloc, depth, rest)
            } else {
                match atom_from(alloc, token, rest)? {
                    Some((atom, rest)) => Ok(Some((Clause::One(atom), rest))),
                    None => Ok(None),
                }
            }
        }
    }
}

/// A clause behind `(`, and its `)`.
#[cycle(clauses)]
fn enclosed(
    alloc: Global,
    depth: u32,
    tokens: &[Placed],
) -> Result<Option<(Clause, &[Placed])>, AllocError>
    ensures { IfOk result (λ found. seen_at found ≡ enclosed_at (clause_within depth) (bare tokens.now)) }
{
    if depth == 0 {
        return Ok(None);
    }
    match joined(alloc, depth - 1, tokens)? {
        Some((clause, rest)) => match after_sign(rest, Sign::Close) {
            Some(rest) => Ok(Some((clause, rest))),
            None => Ok(None),
        },
        None => Ok(None),
    }
}

/// How many commas stand before the first `)`.
fn commas_before_close(tokens: &[Placed]) -> usize
    ensures { result ≡ commas_before_close (bare tokens.now) }
{
    let mut commas = 0;
    for placed in tokens {
        if placed.token.is_sign(Sign::Close) {
            return commas;
        }
        if placed.token.is_sign(Sign::Comma) {
            commas += 1;
        }
    }
    commas
}

/// The fewest commas of a list that is too long.
const MAX_ITEMS: usize = 4_096;

fn is_long(token: &Token, tokens: &[Placed]) -> bool
    ensures { result ≡ is_long token.now (bare tokens.now) }
{
    token.is_word("in") && commas_before_close(tokens) >= MAX_ITEMS
}

/// The place of the name before the first list of more than 4,096 items.
pub fn long_of(tokens: &[Placed]) -> Option<u32>
    ensures { result ≡ long_of tokens.now }
{
    let mut rest = tokens;
    while let [name, behind @ ..] = rest {
        if let [token, items @ ..] = behind {
            if is_long(&token.token, items) {
                return Some(name.at);
            }
        }
        rest = behind;
    }
    None
}

#[tactic(auto, unfolding(crate::specs::Parsing::clause_of))]
fn whole(alloc: Global, tokens: &[Placed]) -> Result<Option<Clause>, AllocError>
    ensures { IfOk result (λ found. found ≡ clause_of (bare tokens.now)) }
{
    match joined(alloc, MAX_OPEN, tokens)? {
        Some((clause, rest)) => match rest {
            [] => Ok(Some(clause)),
            [_, ..] => Ok(None),
        },
        None => Ok(None),
    }
}

fn clause_read(alloc: Global, tokens: &[Placed]) -> Result<ClauseRead, ClauseFault>
    ensures { Answers refusal result (clause_read tokens.now (clause_of (bare tokens.now))) }
{
    match whole(alloc, tokens)? {
        Some(clause) => Ok(ClauseRead {
            clause,
            long: long_of(tokens),
        }),
        None => Err(bad(QueryKind::Syntax)),
    }
}

/// The clause that the tokens are. They stand one after the other in a list that `tokens` gives, and no more than 64
/// of their parentheses are open at a place. `Syntax` comes exactly where they are no clause.
pub fn clause_of(alloc: Global, tokens: &[Placed]) -> Result<ClauseRead, ClauseFault>
    requires { is_crowded most_open (bare tokens.now) ≡ false }
    ensures found { IfOk result (λ read. IsClause read.clause (bare tokens.now)) }
    ensures long { IfOk result (λ read. read.long ≡ long_of tokens.now) }
    ensures only { (c : Clause) → IsClause c (bare tokens.now) → Answers refusal result (Ok (record { clause = c; long = long_of tokens.now })) }
    ensures refused { IfErr result (Tells refusal (IsNoClause tokens.now)) }

    ensures exact { Answers refusal result (clause_read tokens.now (clause_of (bare tokens.now))) }
{
    clause_read(alloc, tokens)
}

#[tactic(auto, unfolding(crate::specs::Language::read_where))]
fn parsed(alloc: Global, text: &str) -> Result<Clause, ClauseFault>
    ensures { Answers refusal result (read_where text.now) }
{
    let tokens = tokens(alloc, text)?;
    let read = clause_read(alloc, tokens.as_slice())?;
    match read.long {
        Some(_) => Err(bad(QueryKind::ListLength)),
        None => Ok(read.clause),
    }
}

/// The clause that the text is, or the first refusal: those of `tokens`, then `Syntax` where the tokens are no clause,
/// then `ListLength` where some list has more than 4,096 items.
pub fn parse_where(alloc: Global, text: &str) -> Result<Clause, ClauseFault>
    // What is read is spelled so, and what is spelled so is read.
    ensures found { IfOk result (λ c. SpellsClause c text.now) }
    ensures only { (c : Clause) → SpellsClause c text.now → Answers refusal result (Ok c) }

    // A refusal is the first one that holds, and where one holds, it is given.
    ensures refused { IfErr result (Tells refusal (NoClause text.now)) }
    ensures refuses { (kind : QueryKind) → NoClause text.now kind → Answers {T = Clause} refusal result (Err kind) }

    ensures exact { Answers refusal result (read_where text.now) }
{
    parsed(alloc, text)
}

/// A list of tokens is at most one clause.
pub fn the_grammar_is_unambiguous()
    ensures { (tokens : List Token) (c d : Clause) → IsClause c tokens → IsClause d tokens → c ≡ d }
{}

#[tactic(auto, unfolding(crate::specs::Language::after_where))]
fn behind_where(text: &str) -> Option<&str>
    ensures { option_map (λ rest. rest.now) result ≡ after_where text.now }
{
    let (_, query) = text.split_at(blanks_len(text.as_bytes()));
    let (word, rest) = query.split_at(word_len(query.as_bytes()));
    if word.eq_ignore_ascii_case("where") {
        Some(rest)
    } else {
        None
    }
}

/// What follows the word `where`, in either case, with which a query begins behind blanks; None where it begins
/// with another word or with none.
pub fn after_where(text: &str) -> Option<&str>
    ensures found { IfSome result (λ rest. FollowsWhere text.now rest.now) }
    ensures only { (rest : List ℕ) → FollowsWhere text.now rest → option_map (λ found. found.now) result ≡ Some rest }

    ensures exact { option_map (λ rest. rest.now) result ≡ after_where text.now }
{
    behind_where(text)
}
