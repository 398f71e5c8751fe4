//! Which columns a condition fits.

ghost use Rattle.std.specs.Prelude.{◌≡◌, IfOk};
ghost use Rattle.where_grammar.specs.Holds.{column_of};
ghost use Rattle.where_plan.specs.Sorts.{column_named, sort_of};

use fb_types::{ColName, ColType, Label, Schema};
use sqlite_items::{Items, at};
use std::alloc::{AllocError, Global};
use where_grammar::Atom;

/// What a condition is on.
#[derive(Clone, Copy, Debug, PartialEq, Eq)]
pub enum Sort {
    /// Whole numbers.
    Number,
    /// The words of a category, or texts.
    Text,
    /// Any column.
    Any,
}

/// What the condition is on.
pub fn sort_of(condition: &Atom) -> Sort
    ensures { result ≡ sort_of condition.now }
{
    match condition {
        Atom::Compare { .. } => Sort::Number,
        Atom::Double { .. } => Sort::Number,
        Atom::Between { .. } => Sort::Number,
        Atom::Numbers { .. } => Sort::Number,
        Atom::Same { .. } => Sort::Text,
        Atom::Other { .. } => Sort::Text,
        Atom::Texts { .. } => Sort::Text,
        Atom::Like { .. } => Sort::Text,
        Atom::Exists { .. } => Sort::Any,
    }
}

/// The name of the condition's column.
pub(crate) fn name_of(condition: &Atom) -> &ColName
    ensures { result.now ≡ column_of condition.now }
{
    match condition {
        Atom::Compare { name, .. } => name,
        Atom::Double { name, .. } => name,
        Atom::Between { name, .. } => name,
        Atom::Numbers { name, .. } => name,
        Atom::Same { name, .. } => name,
        Atom::Other { name, .. } => name,
        Atom::Texts { name, .. } => name,
        Atom::Like { name, .. } => name,
        Atom::Exists { name } => name,
    }
}

/// The place and the type of the column of that name.
pub(crate) fn column_named(schema: &Schema, name: &[u8]) -> Option<(usize, ColType)>
    ensures { result ≡ column_named schema.now name.now }
{
    let col = schema.place(name)?;
    let column = at(schema.columns(), col)?;
    Some((col, column.ty))
}

fn copied_texts(alloc: Global, texts: &[Label]) -> Result<Items<Label>, AllocError>
    ensures { IfOk result (λ copy. copy ≡ texts.now) }
{
    let mut copy = Items::new(alloc);
    for text in texts {
        copy.push(text.copy(alloc)?)?;
    }
    Ok(copy)
}

/// A condition on texts once more.
pub(crate) fn copied(alloc: Global, condition: &Atom) -> Result<Atom, AllocError>
    requires { sort_of condition.now ≡ Sort.Text }
    ensures { IfOk result (λ copy. copy ≡ condition.now) }
{
    match condition {
        Atom::Same { name, text } => Ok(Atom::Same {
            name: name.copy(alloc)?,
            text: text.copy(alloc)?,
        }),
        Atom::Other { name, text } => Ok(Atom::Other {
            name: name.copy(alloc)?,
            text: text.copy(alloc)?,
        }),
        Atom::Texts { name, list } => Ok(Atom::Texts {
            name: name.copy(alloc)?,
            list: copied_texts(alloc, list.as_slice())?,
        }),
        Atom::Like { name, pattern } => Ok(Atom::Like {
            name: name.copy(alloc)?,
            pattern: pattern.copy(alloc)?,
        }),
        _ => unreachable!(),
    }
}
