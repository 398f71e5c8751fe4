//! The fields of one record, as the cells of its columns.
ghost use Rattle.std.specs.Prelude.{◌≡◌, ◌^◌, ◌+◌, ◌<◌, ◌≤◌, Ok, IfOk, IfErr, length};
ghost use Rattle.csv.specs.Records.{fields_of};
ghost use Rattle.fb_types.specs.Cells.{CellFits, RecordFits};
ghost use Rattle.csv_load.specs.Answers.{IsFieldFault, numbered};
ghost use Rattle.csv_load.specs.Loaded.{field_cell, record_cells, word_cell};
ghost use Rattle.csv_load.specs.declared.fields.FieldFault.TheVariants as at_field;

use csv::ByteRecord;
use fb_types::{Cell, ColType, Column, FieldAnswer, Label, parse_whole};
use std::alloc::{AllocError, AllocFailed, Global};

/// What is wrong with a record.
#[derive(Clone, Copy, Debug, PartialEq, Eq)]
pub enum RecordKind {
    /// There are fewer fields than columns, or more.
    FieldCount,
    /// The field of a whole column is neither blank nor a number.
    NotWhole,
    /// The number is outside the column's type.
    OutOfRange,
    /// The field of a category or text column has more than 65,535 bytes.
    TextLength,
}

/// Why a record gives no cells.
#[derive(Drop)]
pub(crate) enum FieldFault {
    Bad { field: u32, kind: RecordKind },
    OutOfMemory,
}

impl From<AllocError> for FieldFault {
    ghost from_gives = { λ _ fault. fault ≡ at_field.OutOfMemory };

    fn from(_error: AllocError) -> FieldFault {
        FieldFault::OutOfMemory
    }
}

impl<T: Drop> From<AllocFailed<T>> for FieldFault {
    ghost from_gives = { λ _ fault. fault ≡ at_field.OutOfMemory };

    fn from(_error: AllocFailed<T>) -> FieldFault {
        FieldFault::OutOfMemory
    }
}

/// The most bytes that a word or a text may have.
const LONGEST_TEXT: usize = 65535;

/// The cells of a record, one for each column.
pub(crate) fn cells_of(
    alloc: Global,
    columns: &[Column],
    row: &ByteRecord,
) -> Result<Vec<Cell>, FieldFault>
    requires { length columns.now ≤ 255 }
    ensures cells { IfOk result (λ cells. record_cells columns.now (fields_of row.now) ≡ Ok cells.items) }
    ensures fits { IfOk result (λ cells. RecordFits cells.items columns.now) }
    ensures fault { IfErr result (λ fault. IsFieldFault fault (record_cells columns.now (fields_of row.now))) }
{
    if row.len() != columns.len() {
        let field = row.len().min(columns.len()) as u32 + 1;
        return Err(FieldFault::Bad {
            field,
            kind: RecordKind::FieldCount,
        });
    }
    let mut cells = Vec::with_capacity(alloc, columns.len())?;
    for (index, column) in columns.iter().enumerate() {
        let field = row.get(index).unwrap();
        cells.push(cell_of(alloc, column.ty, field, index as u32 + 1)?)?;
    }
    Ok(cells)
}

// The cell of the field of that number.
fn cell_of(alloc: Global, ty: ColType, bytes: &[u8], number: u32) -> Result<Cell, FieldFault>
    ensures cell { IfOk result (λ cell. field_cell ty bytes.now ≡ Ok cell) }
    ensures fits { IfOk result (λ cell. CellFits cell ty) }
    ensures fault { IfErr result (λ fault. IsFieldFault fault (numbered number (field_cell ty bytes.now))) }
{
    if ty.ends().is_none() {
        return word_of(alloc, bytes, number);
    }
    let kind = match parse_whole(bytes, ty) {
        FieldAnswer::Null => return Ok(Cell::Null),
        FieldAnswer::Value(number) => return Ok(Cell::Whole(number)),
        FieldAnswer::OutOfRange => RecordKind::OutOfRange,
        FieldAnswer::NotWhole => RecordKind::NotWhole,
    };
    Err(FieldFault::Bad {
        field: number,
        kind,
    })
}

// The cell of a field of a category or text column.
fn word_of(alloc: Global, bytes: &[u8], number: u32) -> Result<Cell, FieldFault>
    ensures cell { IfOk result (λ cell. word_cell bytes.now ≡ Ok cell) }
    ensures fault { IfErr result (λ fault. IsFieldFault fault (numbered number (word_cell bytes.now))) }
{
    if bytes.is_empty() {
        return Ok(Cell::Null);
    }
    if bytes.len() > LONGEST_TEXT {
        return Err(FieldFault::Bad {
            field: number,
            kind: RecordKind::TextLength,
        });
    }
    Ok(Cell::Word(Label::from_bytes(alloc, bytes)?))
}
