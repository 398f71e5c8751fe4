//! The one printed form of a clause.

ghost use Rattle.std.specs.Prelude.{◌≡◌, ◌++◌, true, [], ◌∷◌, codes, map, IfOk, OnOk};
ghost use Rattle.where_grammar.specs.declared.token.Token.{Token};
ghost use Rattle.where_grammar.specs.Grammar.{behind_commas, keyword, operator};
ghost use Rattle.where_grammar.specs.Language.{read_where};
ghost use Rattle.where_grammar.specs.Printed.{IsGiven, as_part, atom_tokens, clause_text, clause_tokens, is_tight, joined, list_tokens, more_joined, op_text, piece_of, reread, sign_text, token_text, with_commas, written};
ghost use Rattle.where_grammar.specs.Tokens.{doubled};

use crate::atoms::{Item, turned};
use crate::clause::{Atom, Clause, Op};
use crate::token::{Sign, Token};
use fb_types::Label;
use sqlite_items::Items;
use std::alloc::{AllocError, Global};

fn push_word(alloc: Global, out: &mut Items<Token>, word: &[u8]) -> Result<(), AllocError>
    ensures { OnOk result (out.new ≡ out.old ++ Token.Word word.now ∷ []) }
{
    out.push(Token::Word(Label::from_bytes(alloc, word)?))
}

/// Items, a comma before each.
fn push_more<T: Item>(alloc: Global, out: &mut Items<Token>, items: &[T]) -> Result<(), AllocError>
    ensures { OnOk result (out.new ≡ out.old ++ behind_commas (map T.as_token items.now)) }
{
    for item in items {
        out.push(Token::Sign(Sign::Comma))?;
        out.push(item.to_token(alloc)?)?;
    }
    Ok(())
}

/// Items with commas between.
fn push_items<T: Item>(alloc: Global, out: &mut Items<Token>, items: &[T]) -> Result<(), AllocError>
    ensures { OnOk result (out.new ≡ out.old ++ with_commas (map T.as_token items.now)) }
{
    match items {
        [] => Ok(()),
        [first, rest @ ..] => {
            out.push(first.to_token(alloc)?)?;
            push_more(alloc, out, rest)
        }
    }
}

/// A condition that the name's cell is in a list.
fn push_list<T: Item>(
    alloc: Global,
    out: &mut Items<Token>,
    name: &[u8],
    items: &[T],
) -> Result<(), AllocError>
    ensures { OnOk result (out.new ≡ out.old ++ list_tokens name.now (map T.as_token items.now)) }
{
    push_word(alloc, out, name)?;
    push_word(alloc, out, b"in")?;
    out.push(Token::Sign(Sign::Open))?;
    push_items(alloc, out, items)?;
    out.push(Token::Sign(Sign::Close))
}

/// The tokens of a condition.
fn push_atom(alloc: Global, out: &mut Items<Token>, atom: &Atom) -> Result<(), AllocError>
    ensures { OnOk result (out.new ≡ out.old ++ atom_tokens atom.now) }
{
    match atom {
        Atom::Compare { name, op, value } => {
            push_word(alloc, out, name.bytes())?;
            out.push(Token::Sign(Sign::Op(*op)))?;
            out.push(Token::Number(*value))
        }
        Atom::Double {
            name,
            left,
            low,
            right,
            high,
        } => {
            out.push(Token::Number(*low))?;
            out.push(Token::Sign(Sign::Op(turned(*left))))?;
            push_word(alloc, out, name.bytes())?;
            out.push(Token::Sign(Sign::Op(*right)))?;
            out.push(Token::Number(*high))
        }
        Atom::Between { name, low, high } => {
            push_word(alloc, out, name.bytes())?;
            push_range(alloc, out, *low, *high)
        }
        Atom::Numbers { name, list } => push_list(alloc, out, name.bytes(), list.as_slice()),
        Atom::Same { name, text } => push_compared(alloc, out, name.bytes(), Op::Equal, text),
        Atom::Other { name, text } => push_compared(alloc, out, name.bytes(), Op::Differs, text),
        Atom::Texts { name, list } => push_list(alloc, out, name.bytes(), list.as_slice()),
        Atom::Like { name, pattern } => {
            push_word(alloc, out, name.bytes())?;
            push_word(alloc, out, b"like")?;
            out.push(Token::Text(pattern.copy(alloc)?))
        }
        Atom::Exists { name } => {
            push_word(alloc, out, b"exists")?;
            out.push(Token::Sign(Sign::Open))?;
            push_word(alloc, out, name.bytes())?;
            out.push(Token::Sign(Sign::Close))
        }
    }
}

/// A bound of a range, behind its word.
fn push_bound(
    alloc: Global,
    out: &mut Items<Token>,
    word: &[u8],
    bound: i128,
) -> Result<(), AllocError>
    ensures { OnOk result (out.new ≡ out.old ++ Token.Word word.now ∷ Token.Number bound ∷ []) }
{
    push_word(alloc, out, word)?;
    out.push(Token::Number(bound))
}

/// Both bounds of a range.
fn push_range(
    alloc: Global,
    out: &mut Items<Token>,
    low: i128,
    high: i128,
) -> Result<(), AllocError>
    ensures { OnOk result (out.new ≡ out.old ++ keyword (codes "between") ∷ Token.Number low ∷ keyword (codes "and") ∷ Token.Number high ∷ []) }
{
    push_bound(alloc, out, b"between", low)?;
    push_bound(alloc, out, b"and", high)
}

fn push_compared(
    alloc: Global,
    out: &mut Items<Token>,
    name: &[u8],
    op: Op,
    text: &Label,
) -> Result<(), AllocError>
    ensures { OnOk result (out.new ≡ out.old ++ Token.Word name.now ∷ operator op ∷ Token.Text text.now ∷ []) }
{
    push_word(alloc, out, name)?;
    out.push(Token::Sign(Sign::Op(op)))?;
    out.push(Token::Text(text.copy(alloc)?))
}

fn is_group(clause: &Clause) -> bool
    ensures { result ≡ (piece_of clause.now).is_group }
{
    match clause {
        Clause::Or(_) => true,
        Clause::Xor(_) => true,
        Clause::And(_) => true,
        Clause::Not(_) => false,
        Clause::One(_) => false,
    }
}

/// The tokens of a clause.
#[cycle(printing)]
fn push_clause(alloc: Global, out: &mut Items<Token>, clause: &Clause) -> Result<(), AllocError>
    ensures { OnOk result (out.new ≡ out.old ++ clause_tokens clause.now) }
{
    match clause {
        Clause::Or(parts) => push_parts(alloc, out, b"or", parts.as_slice()),
        Clause::Xor(parts) => push_parts(alloc, out, b"xor", parts.as_slice()),
        Clause::And(parts) => push_parts(alloc, out, b"and", parts.as_slice()),
        Clause::Not(part) => {
            push_word(alloc, out, b"not")?;
            push_part(alloc, out, part.get())
        }
        Clause::One(atom) => push_atom(alloc, out, atom),
    }
}

/// The tokens of a part: one of several parts stands in parentheses.
#[cycle(printing)]
fn push_part(alloc: Global, out: &mut Items<Token>, part: &Clause) -> Result<(), AllocError>
    ensures { OnOk result (out.new ≡ out.old ++ as_part (piece_of part.now)) }
{
    if is_group(part) {
        out.push(Token::Sign(Sign::Open))?;
        push_clause(alloc, out, part)?;
        out.push(Token::Sign(Sign::Close))
    } else {
        push_clause(alloc, out, part)
    }
}

/// The tokens of parts with a word between.
#[cycle(printing)]
fn push_parts(
    alloc: Global,
    out: &mut Items<Token>,
    word: &[u8],
    parts: &[Clause],
) -> Result<(), AllocError>
    ensures { OnOk result (out.new ≡ out.old ++ joined word.now (map piece_of parts.now)) }
{
    match parts {
        [] => Ok(()),
        [first, rest @ ..] => {
            push_part(alloc, out, first)?;
            for part in rest {
                push_word(alloc, out, word)?;
                push_part(alloc, out, part)?;
            }
            Ok(())
        }
    }
}

fn op_text(op: Op) -> &'static str
    ensures { result.now ≡ op_text op }
{
    match op {
        Op::Less => "<",
        Op::LessEq => "<=",
        Op::Greater => ">",
        Op::GreaterEq => ">=",
        Op::Equal => "=",
        Op::Differs => "!=",
    }
}

fn sign_text(sign: Sign) -> &'static str
    ensures { result.now ≡ sign_text sign }
{
    match sign {
        Sign::Op(op) => op_text(op),
        Sign::And => "&&",
        Sign::Or => "||",
        Sign::Not => "!",
        Sign::Open => "(",
        Sign::Close => ")",
        Sign::Comma => ",",
        Sign::Star => "*",
    }
}

/// The bytes, with each `"` doubled.
fn push_doubled(out: &mut Vec<u8>, text: &[u8]) -> Result<(), AllocError>
    ensures { OnOk result (out.new.items ≡ out.old.items ++ doubled 34 text.now) }
{
    for byte in text {
        out.push(*byte)?;
        if *byte == b'"' {
            out.push(b'"')?;
        }
    }
    Ok(())
}

fn push_token(alloc: Global, out: &mut Vec<u8>, token: &Token) -> Result<(), AllocError>
    ensures { OnOk result (out.new.items ≡ out.old.items ++ token_text token.now) }
{
    match token {
        Token::Word(word) => out.extend_from_slice(word.bytes()),
        Token::Number(value) => {
            let digits = format!(in alloc; "{value}")?;
            out.extend_from_slice(digits.as_str().as_bytes())
        }
        Token::Text(text) => {
            out.push(b'"')?;
            push_doubled(out, text.bytes())?;
            out.push(b'"')?;
            Ok(())
        }
        Token::Sign(sign) => out.extend_from_slice(sign_text(*sign).as_bytes()),
    }
}

fn is_tight(token: &Token) -> bool
    ensures { result ≡ is_tight token.now }
{
    token.is_sign(Sign::Close) || token.is_sign(Sign::Comma)
}

/// The tokens with one blank between, none behind `(` and none before `)` and `,`.
fn written(alloc: Global, tokens: &[Token]) -> Result<Vec<u8>, AllocError>
    ensures { IfOk result (λ text. text.items ≡ written true tokens.now) }
{
    let mut text = Vec::new(alloc);
    let mut starts = true;
    for token in tokens {
        if !starts && !is_tight(token) {
            text.push(b' ')?;
        }
        push_token(alloc, &mut text, token)?;
        starts = token.is_sign(Sign::Open);
    }
    Ok(text)
}

/// The printed form of the clause: its tokens, with one blank between, none behind `(` and none before `)` and `,`. A
/// part of several parts stands in parentheses, also under `not`.
pub fn print_where(alloc: Global, clause: &Clause) -> Result<Label, AllocError>
    ensures text { IfOk result (λ text. text ≡ clause_text clause.now) }

    // The print of each clause of the grammar is read as the clause again, or refused for the first limit it passes.
    ensures read_again { IsGiven clause.now → read_where (clause_text clause.now) ≡ reread clause.now }
{
    let mut tokens = Items::new(alloc);
    push_clause(alloc, &mut tokens, clause)?;
    Ok(Label::from_vec(written(alloc, tokens.as_slice())?))
}
