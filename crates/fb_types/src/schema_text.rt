ghost use Rattle.std.specs.Prelude.{◌≡◌, ◌<◌, [], ◌∷◌, ◌++◌, List, length, map, count_by, IfSome, IfOk, IfErr, Ok, OnOk};
ghost use Rattle.std.specs.List.{after_first, before_first, list_all, list_any, position};
ghost use Rattle.std.specs.Str.{bytes_eq};
ghost use Rattle.fb_types.specs.Field.{is_blank as is_blank_byte};
ghost use Rattle.fb_types.specs.FirstFault.{IsFirstFault};
ghost use Rattle.fb_types.specs.SchemaText.{AreRead, IsFaultIn, IsFaultOf, Spells, column_or_fault, column_text, columns_of, is_colon, is_comma, items_of, name_in, read_schema, schema_text, separator_before, type_in};
ghost use Rattle.fb_types.specs.Schemas.{IsSchema};
ghost use Rattle.fb_types.specs.declared.schemas.Column.{Column};

use crate::fields::{is_blank, trimmed};
use crate::labels::Label;
use crate::names::ColName;
use crate::schemas::{Column, Schema};
use crate::types::ColType;
use std::alloc::{AllocError, Global};
use thiserror::Error;

/// What is wrong at a column of a schema text.
#[derive(Clone, Copy, Debug, PartialEq, Eq)]
pub enum SchemaKind {
    Empty,
    TooMany,
    BadName,
    BadType,
    Repeated,
}

/// Why a schema text is refused. Columns count from 1; `Empty` is told at column 0.
#[derive(Debug, Drop, Error)]
pub enum MetaFault {
    #[error("schema at column {column}: {kind:?}")]
    Bad { column: u32, kind: SchemaKind },
    #[error("out of memory")]
    OutOfMemory,
}

impl From<AllocError> for MetaFault {
    ghost use Rattle.std.specs.Prelude.{◌≡◌};
    ghost use Rattle.fb_types.specs.declared.schema_text.MetaFault.TheVariants.{OutOfMemory};

    ghost from_gives = { λ _ fault. fault ≡ OutOfMemory };

    fn from(_: AllocError) -> MetaFault {
        MetaFault::OutOfMemory
    }
}

/// Reads a schema text: items joined by commas, each a column name in letters of either case, `:` and a type's word,
/// with spaces and tabs round each of both. The fault is the first that holds: `Empty` (column 0) where the text is
/// blank, `TooMany` (column 256) where it has more than 255 items; then, item by item, `BadName` where what stands
/// before the item's first `:` is no name, `BadType` where the rest is no type, `Repeated` where an earlier item has
/// the name.
pub fn parse_schema(alloc: Global, text: &str) -> Result<Schema, MetaFault>
    ensures ok { IfOk result (λ schema. read_schema text.now ≡ Ok schema) }
    ensures bad { IfErr result (λ fault. IsFaultOf fault text.now) }

    // What is read is spelled by the text, and a schema that it spells is read.
    ensures spelled { IfOk result (λ schema. Spells text.now schema) }
    ensures only { (schema : List Column) → IsSchema schema → Spells text.now schema → AreRead schema result }

    // The fault is the first in the text.
    ensures first { IfErr result (λ fault. IsFirstFault fault text.now) }
{
    read(alloc, text.as_bytes())
}

fn read(alloc: Global, text: &[u8]) -> Result<Schema, MetaFault>
    ensures ok { IfOk result (λ schema. read_schema text.now ≡ Ok schema) }
    ensures bad { IfErr result (λ fault. IsFaultOf fault text.now) }
{
    if is_blank_text(text) {
        return Err(MetaFault::Bad {
            column: 0,
            kind: SchemaKind::Empty,
        });
    }
    if commas(text) >= 255 {
        return Err(MetaFault::Bad {
            column: 256,
            kind: SchemaKind::TooMany,
        });
    }
    let items = items(alloc, text)?;
    match columns(alloc, &items) {
        Ok(columns) => Ok(Schema::from_columns(columns)),
        Err(fault) => Err(fault),
    }
}

fn is_blank_text(text: &[u8]) -> bool
    ensures { result ≡ list_all is_blank_byte text.now }
{
    text.iter().all(|b| is_blank(*b))
}

fn commas(text: &[u8]) -> usize
    ensures { result ≡ count_by is_comma text.now }
{
    text.iter().filter(|b| **b == b',').count()
}

/// What stands between the commas.
fn items(alloc: Global, text: &[u8]) -> Result<Vec<&[u8]>, AllocError>
    ensures { IfOk result (λ items. map (λ item. item.now) items.items ≡ items_of text.now) }
{
    text.split(|b| *b == b',').collect(alloc)
}

/// The columns of the items, or the first fault.
fn columns(alloc: Global, items: &[&[u8]]) -> Result<Vec<Column>, MetaFault>
    requires { length items.now < 256 }
    ensures ok { IfOk result (λ columns. columns_of (map (λ item. item.now) items.now) ≡ Ok columns.items) }
    ensures bad { IfErr result (λ fault. IsFaultIn fault (columns_of (map (λ item. item.now) items.now))) }
{
    let mut columns = Vec::with_capacity(alloc, items.len())?;
    for (at, item) in items.iter().enumerate() {
        match column_after(alloc, &columns, item)? {
            Ok(column) => add(&mut columns, column)?,
            Err(kind) => {
                return Err(MetaFault::Bad {
                    column: at as u32 + 1,
                    kind,
                });
            }
        }
    }
    Ok(columns)
}

fn add(columns: &mut Vec<Column>, column: Column) -> Result<(), AllocError>
    ensures { OnOk result (columns.new.items ≡ columns.old.items ++ column ∷ []) }
{
    columns.push(column)?;
    Ok(())
}

/// The column of an item that stands after those of the earlier columns, or what is wrong with it.
#[tactic(auto, using(crate::proofs::EachFacts::taken_of))]
fn column_after(
    alloc: Global,
    earlier: &[Column],
    item: &[u8],
) -> Result<Result<Column, SchemaKind>, AllocError>
    ensures { IfOk result (λ read. read ≡ column_or_fault (map (λ column. column.name) earlier.now) (name_in item.now) (type_in item.now)) }
{
    let (name, ty) = split_at_colon(item);
    let Some(name) = ColName::from_bytes(alloc, trimmed(name))? else {
        return Ok(Err(SchemaKind::BadName));
    };
    let Some(ty) = ColType::named(trimmed(ty)) else {
        return Ok(Err(SchemaKind::BadType));
    };
    if is_taken(&name, earlier) {
        return Ok(Err(SchemaKind::Repeated));
    }
    Ok(Ok(Column { name, ty }))
}

fn is_taken(name: &ColName, columns: &[Column]) -> bool
    ensures { result ≡ list_any (λ column. bytes_eq name.now column.name) columns.now }
{
    columns
        .iter()
        .any(|column| name.bytes() == column.name.bytes())
}

/// What stands before the first colon, and after it.
fn split_at_colon(item: &[u8]) -> (&[u8], &[u8])
    ensures before { result.0.now ≡ before_first is_colon item.now }
    ensures after { result.1.now ≡ after_first is_colon item.now }
{
    match colon(item) {
        Some(at) => (&item[..at], &item[at + 1..]),
        None => (item, &[]),
    }
}

fn colon(item: &[u8]) -> Option<usize>
    ensures place { result ≡ position is_colon item.now }
    ensures within { IfSome result (λ at. at < length item.now) }
{
    item.iter().position(|b| *b == b':')
}

/// Prints a schema as `name:type`, joined by commas.
pub fn print_schema(alloc: Global, schema: &Schema) -> Result<Label, AllocError>
    ensures text { IfOk result (λ text. text ≡ schema_text schema.now) }
    ensures reads_back { IfOk result (λ text. read_schema text ≡ Ok schema.now) }
{
    let mut text = Vec::new(alloc);
    for (at, column) in schema.columns().iter().enumerate() {
        push_separator(&mut text, at)?;
        push_column(&mut text, column)?;
    }
    Ok(Label::from_vec(text))
}

/// The comma between two columns.
fn push_separator(text: &mut Vec<u8>, at: usize) -> Result<(), AllocError>
    ensures { OnOk result (text.new.items ≡ text.old.items ++ separator_before at) }
{
    if at > 0 {
        text.push(b',')?;
    }
    Ok(())
}

fn push_column(text: &mut Vec<u8>, column: &Column) -> Result<(), AllocError>
    ensures { OnOk result (text.new.items ≡ text.old.items ++ column_text column.now) }
{
    text.extend_from_slice(column.name.bytes())?;
    text.push(b':')?;
    text.extend_from_slice(column.ty.name().as_bytes())
}
