//! Which columns get an index.

ghost use Rattle.std.specs.Prelude.{◌≡◌, ◌==◌, ◌∷◌, ◌++◌, [], Ok, IfErr, IfOk, List, OnOk, map};
ghost use Rattle.std.specs.List.{list_any};
ghost use Rattle.fb_types.specs.SchemaText.{items_of};
ghost use Rattle.ibis_build.specs.Causes.{RefusesBy};
ghost use Rattle.ibis_build.specs.Columns.{can_have_index_at, chosen_columns, column_or_refusal, columns_behind, every_column, listed_columns, place_in};

use crate::blanks::trimmed;
use fb_types::{ColName, Label, Schema};
use index_spec::SpecKind;
use statuses::{Status, Unanswered};
use std::alloc::{AllocError, Global};

/// The columns that get an index, by their places in the schema: those that the list names, from left to right, or
/// without a list all that can have one.
pub(crate) fn chosen_columns(
    alloc: Global,
    schema: &Schema,
    list: &Option<Label>,
) -> Result<Vec<usize>, Unanswered>
    ensures ok { IfOk result (λ cols. chosen_columns schema.now list.now ≡ Ok cols.items) }
    ensures stop { IfErr result (RefusesBy (chosen_columns schema.now list.now)) }
{
    match list {
        Some(list) => listed_columns(alloc, schema, list.bytes()),
        None => Ok(every_column(alloc, schema)?),
    }
}

/// All columns that can have an index.
fn every_column(alloc: Global, schema: &Schema) -> Result<Vec<usize>, AllocError>
    ensures { IfOk result (λ cols. cols.items ≡ every_column schema.now) }
{
    schema
        .columns()
        .iter()
        .enumerate()
        .filter(|(_, column)| column.ty.width().is_some())
        .map(|(col, _)| col)
        .collect(alloc)
}

/// The columns that the list names, or the first refusal.
fn listed_columns(alloc: Global, schema: &Schema, list: &[u8]) -> Result<Vec<usize>, Unanswered>
    ensures ok { IfOk result (λ cols. listed_columns schema.now list.now ≡ Ok cols.items) }
    ensures stop { IfErr result (RefusesBy (listed_columns schema.now list.now)) }
{
    let pieces = pieces(alloc, list)?;
    let mut cols = Vec::with_capacity(alloc, pieces.len())?;
    for piece in &pieces {
        let col = listed_column(alloc, schema, &cols, piece)?;
        add(&mut cols, col)?;
    }
    Ok(cols)
}

fn add(cols: &mut Vec<usize>, col: usize) -> Result<(), AllocError>
    ensures { OnOk result (cols.new.items ≡ cols.old.items ++ col ∷ []) }
{
    cols.push(col)?;
    Ok(())
}

/// What stands between the commas.
fn pieces(alloc: Global, list: &[u8]) -> Result<Vec<&[u8]>, AllocError>
    ensures { IfOk result (λ pieces. map (λ piece. piece.now) pieces.items ≡ items_of list.now) }
{
    list.split(|b| *b == b',').collect(alloc)
}

/// The column of a piece that stands behind those of the earlier pieces, or its refusal.
fn listed_column(
    alloc: Global,
    schema: &Schema,
    before: &[usize],
    piece: &[u8],
) -> Result<usize, Unanswered>
    ensures ok { IfOk result (λ col. column_or_refusal schema.now before.now (place_in schema.now piece.now) ≡ Ok col) }
    ensures stop { IfErr result (RefusesBy (column_or_refusal schema.now before.now (place_in schema.now piece.now))) }
{
    let Some(col) = place_in(alloc, schema, piece)? else {
        return Err(bad_spec(SpecKind::Unknown));
    };
    if !can_have_index(schema, col) {
        return Err(bad_spec(SpecKind::WrongType));
    }
    if has(before, col) {
        return Err(bad_spec(SpecKind::Repeated));
    }
    Ok(col)
}

/// Where the column stands that the piece names.
fn place_in(alloc: Global, schema: &Schema, piece: &[u8]) -> Result<Option<usize>, AllocError>
    ensures { IfOk result (λ found. found ≡ place_in schema.now piece.now) }
{
    match ColName::from_bytes(alloc, trimmed(piece))? {
        Some(name) => Ok(schema.place(name.bytes())),
        None => Ok(None),
    }
}

fn can_have_index(schema: &Schema, col: usize) -> bool
    ensures { result ≡ can_have_index_at schema.now col }
{
    match schema.columns().get(col) {
        Some(column) => column.ty.width().is_some(),
        None => false,
    }
}

fn has(cols: &[usize], col: usize) -> bool
    ensures { result ≡ list_any (λ other. other == col) cols.now }
{
    cols.iter().any(|other| *other == col)
}

pub(crate) fn bad_spec(kind: SpecKind) -> Unanswered
    ensures { result ≡ Unanswered.Refused (Status.BadSpec kind) }
{
    Unanswered::Refused(Status::BadSpec { kind })
}
