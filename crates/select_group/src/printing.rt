//! The text of rows.

ghost use Rattle.std.specs.Prelude.{◌≡◌, ◌++◌, ◌∷◌, [], map, IfOk, OnOk};
ghost use Rattle.csv.specs.Records.{fields_of, partial_of};
ghost use Rattle.select_group.specs.Printed.{cell_text, rows_text};

use csv::{ByteRecord, WriterBuilder};
use fb_types::Cell;
use itoa::Buffer;
use sqlite_items::Items;
use std::alloc::{AllocError, Global};

/// Adds a cell as a field.
fn push_cell(line: &mut ByteRecord, buffer: &mut Buffer, cell: &Cell) -> Result<(), AllocError>
    requires { partial_of line.old ≡ [] }
    ensures fields { OnOk result (fields_of line.new ≡ fields_of line.old ++ cell_text cell.now ∷ []) }
    ensures partial { OnOk result (partial_of line.new ≡ []) }
{
    match cell {
        Cell::Null => line.push_field(b""),
        Cell::Whole(n) => line.push_field(buffer.format(*n).as_bytes()),
        Cell::Word(w) => line.push_field(w.bytes()),
    }
}

/// Makes the record that of a row.
fn fill(line: &mut ByteRecord, buffer: &mut Buffer, row: &[Cell]) -> Result<(), AllocError>
    ensures { OnOk result (fields_of line.new ≡ map cell_text row.now) }
{
    line.clear();
    for cell in row {
        push_cell(line, buffer, cell)?;
    }
    Ok(())
}

/// The text of rows as records of CSV: null as an empty field, numbers in decimal, words as their bytes. The rows are
/// of one length, at least 1: with rows of several lengths the writer gives up, which is answered as want of memory.
pub fn print_rows(alloc: Global, rows: &[Items<Cell>]) -> Result<Vec<u8>, AllocError>
    ensures { IfOk result (λ text. text.items ≡ rows_text rows.now) }
{
    let mut writer = WriterBuilder::new().from_writer(Vec::new(alloc));
    let mut line = ByteRecord::new(alloc);
    let mut buffer = Buffer::new();
    for row in rows {
        fill(&mut line, &mut buffer, row.as_slice())?;
        match writer.write_byte_record(&line) {
            Ok(()) => {}
            Err(_) => return Err(AllocError),
        }
    }
    match writer.into_inner() {
        Ok(text) => Ok(text),
        Err(_) => Err(AllocError),
    }
}
