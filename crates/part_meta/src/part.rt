//! What is kept of a part beside its columns' files, and the text that says it.

ghost use Rattle.std.specs.Prelude.{◌≡◌, ◌++◌, ℕ, length, IfOk, OnOk, decimal};
ghost use lib.Chars.{codes};
ghost use Rattle.part_meta.specs.FileNames.{folder_name};
ghost use Rattle.part_meta.specs.Lines.{joined, line};
ghost use Rattle.part_meta.specs.PartText.{IsPart, column_lines, header_lines, number_line, part_text};

use crate::names::digit;
use fb_types::{Column, Schema};
use std::alloc::{AllocError, Global};

/// What a part's text says: the part's number, below 4,096, how many rows it has, 1 to 4,194,304, and its columns.
#[derive(Debug, Drop)]
pub struct PartMeta {
    pub number: u32,
    pub rows: u32,
    pub schema: Schema,
}

/// Different parts have different texts.
pub fn one_part()
    ensures { (a b : PartMeta) → IsPart a → IsPart b → part_text a ≡ part_text b → a ≡ b }
{}

/// The part's text. A number of five digits or more loses all but the last four.
pub fn print_part(alloc: Global, part: &PartMeta) -> Result<Vec<u8>, AllocError>
    ensures { IfOk result (λ text. text.items ≡ part_text part.now) }
{
    let columns = part.schema.columns();
    let mut text = header(alloc, part.number, part.rows, columns.len())?;
    for column in columns {
        push_column(&mut text, column)?;
    }
    Ok(text)
}

/// The lines before the columns.
fn header(alloc: Global, number: u32, rows: u32, count: usize) -> Result<Vec<u8>, AllocError>
    ensures { IfOk result (λ text. text.items ≡ joined (header_lines number rows count)) }
{
    let numbers = format!(in alloc;
        "Number_of_rows = {rows}\nNumber_of_columns = {count}\nEND HEADER\n"
    )?;
    let mut text = Vec::from_slice(alloc, b"BEGIN HEADER\n")?;
    push_number(&mut text, number)?;
    text.extend_from_slice(numbers.as_bytes())?;
    Ok(text)
}

/// The line that names the part's folder.
fn push_number(text: &mut Vec<u8>, number: u32) -> Result<(), AllocError>
    ensures { OnOk result (text.new.items ≡ text.old.items ++ number_line number) }
{
    text.extend_from_slice(b"Name = p")?;
    let digits = [
        digit(number / 1000),
        digit(number / 100),
        digit(number / 10),
        digit(number),
        b'\n',
    ];
    text.extend_from_slice(&digits)?;
    Ok(())
}

fn push_column(text: &mut Vec<u8>, column: &Column) -> Result<(), AllocError>
    ensures { OnOk result (text.new.items ≡ text.old.items ++ joined (column_lines column.now)) }
{
    text.extend_from_slice(b"Begin Column\nname = ")?;
    text.extend_from_slice(column.name.bytes())?;
    text.extend_from_slice(b"\ndata_type = ")?;
    text.extend_from_slice(column.ty.name().as_bytes())?;
    text.extend_from_slice(b"\nEnd Column\n")?;
    Ok(())
}
