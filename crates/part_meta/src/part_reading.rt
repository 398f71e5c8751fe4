//! Parts' texts, read line by line.

ghost use Rattle.std.specs.Prelude.{◌≡◌, ◌≢◌, ◌<◌, ◌≤◌, ◌-◌, ◌++◌, ◌↔◌, List, ℕ, length, MatchOption, IfOk, IfErr, IsTrue};
ghost use Rattle.std.specs.List.{All};
ghost use Rattle.fb_types.specs.Names.{IsColumnName};
ghost use Rattle.fb_types.specs.Types.{type_name};
ghost use Rattle.fb_types.specs.declared.types.ColType.{ColType};
ghost use Rattle.part_meta.specs.FileNames.{folder_name, four_digits};
ghost use Rattle.part_meta.specs.Lines.{Ends, GoesOn, IsFirstWrong};
ghost use Rattle.part_meta.specs.PartText.{IsPart, part_lines, part_text};
ghost use Rattle.part_meta.specs.PartFront.{IsBody, IsFront, IsHead, Takes, front_lines};
ghost use Rattle.answers.specs.Answers.{Tells};
ghost use Rattle.part_meta.specs.Faults.{Gives, wrong_line};
ghost use lib.Chars.{codes};

use crate::fault::MetaTextFault;
use crate::lines::{behind, is, number_within};
use crate::names::digit;
use crate::part::PartMeta;
use crate::reading::{Front, read};
use fb_types::{ColName, ColType, Column, Schema};
use std::alloc::{AllocError, Global};

/// What the lines before the columns say.
#[derive(Debug, Drop)]
pub(crate) struct Head {
    pub(crate) number: u32,
    pub(crate) rows: u32,
    pub(crate) count: u32,
}

/// The header, and the columns that were read whole.
#[derive(Debug, Drop)]
pub(crate) struct Body {
    pub(crate) head: Head,
    pub(crate) columns: Vec<Column>,
}

/// The column whose last line is still to come.
#[derive(Debug, Drop)]
pub(crate) enum Open {
    Nothing,
    Begun,
    Named(ColName),
    Typed(Column),
}

/// What the lines that were read so far say.
#[derive(Debug, Drop)]
pub(crate) enum PartFront {
    Nothing,
    Begun,
    Numbered(u32),
    Counted(u32, u32),
    Headed(Head),
    InColumns(Body, Open),
}

/// The part that the bytes spell, or the first line that no part's text has there.
pub fn parse_part(alloc: Global, bytes: &[u8]) -> Result<PartMeta, MetaTextFault>
    // What is read is spelled so, and what is spelled so is read.
    ensures found { IfOk result (λ part. bytes.now ≡ part_text part) }
    ensures valid { IfOk result IsPart }
    ensures exact { (part : PartMeta) → IsPart part → bytes.now ≡ part_text part → Gives result part }

    ensures fault { IfErr result (Tells wrong_line (IsFirstWrong IsPart part_lines bytes.now)) }
{
    read::<PartFront>(alloc, bytes)
}

impl Front for PartFront {
    type Whole = PartMeta;

    ghost is_of = { IsPart };

    ghost lines = { part_lines };

    ghost is_front = { IsFront };

    ghost front_lines = { front_lines };

    fn nothing() -> PartFront {
        PartFront::Nothing
    }

    fn with_line(self, alloc: Global, text: &[u8]) -> Result<Option<PartFront>, AllocError> {
        match self {
            PartFront::Nothing => Ok(with_begin(text)),
            PartFront::Begun => Ok(with_number(text)),
            PartFront::Numbered(number) => Ok(with_rows(number, text)),
            PartFront::Counted(number, rows) => Ok(with_count(number, rows, text)),
            PartFront::Headed(head) => Ok(with_header_end(alloc, head, text)),
            PartFront::InColumns(body, column) => match column {
                Open::Nothing => Ok(with_column(body, text)),
                Open::Begun => with_name(alloc, body, text),
                Open::Named(name) => Ok(with_type(body, name, text)),
                Open::Typed(column) => with_column_end(body, column, text),
            },
        }
    }

    fn whole(self) -> Option<PartMeta> {
        match self {
            PartFront::InColumns(body, column) => whole_column(body, column),
            _ => None,
        }
    }

    fn laws() {}
}

fn whole_column(body: Body, column: Open) -> Option<PartMeta>
    requires { IsFront (PartFront.InColumns body column) }
    ensures { Ends IsPart part_lines front_lines (PartFront.InColumns body column) result }
{
    match column {
        Open::Nothing => whole_body(body),
        _ => None,
    }
}

fn whole_body(body: Body) -> Option<PartMeta>
    requires valid { IsBody body }
    requires fits { length body.columns.items ≤ body.head.count }
    ensures { Ends IsPart part_lines front_lines (PartFront.InColumns body Open.Nothing) result }
{
    if body.columns.len() != body.head.count as usize {
        return None;
    }
    Some(PartMeta {
        number: body.head.number,
        rows: body.head.rows,
        schema: Schema::from_columns(body.columns),
    })
}

fn with_begin(text: &[u8]) -> Option<PartFront>
    ensures { GoesOn IsPart part_lines IsFront front_lines PartFront.Nothing text.now result }
{
    if is(text, "BEGIN HEADER") {
        Some(PartFront::Begun)
    } else {
        None
    }
}

fn with_number(text: &[u8]) -> Option<PartFront>
    ensures { GoesOn IsPart part_lines IsFront front_lines PartFront.Begun text.now result }
{
    match folder_number(text) {
        Some(number) => Some(PartFront::Numbered(number)),
        None => None,
    }
}

/// The number of the part whose folder the line names.
fn folder_number(text: &[u8]) -> Option<u32>
    ensures { MatchOption result ((n : ℕ) → n < 4096 → text.now ≢ codes "Name = " ++ folder_name n) (λ n. (n < 4096) × (text.now ≡ codes "Name = " ++ folder_name n)) }
{
    match behind(text, b"Name = p") {
        Some(digits) => four_digit_number(digits),
        None => None,
    }
}

/// The number below 4,096 that the four digits write.
fn four_digit_number(digits: &[u8]) -> Option<u32>
    ensures { MatchOption result ((n : ℕ) → n < 4096 → digits.now ≢ four_digits n) (λ n. (n < 4096) × (digits.now ≡ four_digits n)) }
{
    let [a, b, c, d] = digits else {
        return None;
    };
    let number = 1000 * value_of(*a) + 100 * value_of(*b) + 10 * value_of(*c) + value_of(*d);
    if number < 4096
        && *a == digit(number / 1000)
        && *b == digit(number / 100)
        && *c == digit(number / 10)
        && *d == digit(number)
    {
        Some(number)
    } else {
        None
    }
}

/// What the byte stands for as a digit.
fn value_of(byte: u8) -> u32
    ensures value { result ≡ byte - 48 }
    ensures small { result < 256 }
{
    u32::from(byte.saturating_sub(b'0'))
}

fn with_rows(number: u32, text: &[u8]) -> Option<PartFront>
    requires { number < 4096 }
    ensures { GoesOn IsPart part_lines IsFront front_lines (PartFront.Numbered number) text.now result }
{
    match number_within(text, b"Number_of_rows = ", 4_194_304) {
        Some(rows) => Some(PartFront::Counted(number, rows)),
        None => None,
    }
}

fn with_count(number: u32, rows: u32, text: &[u8]) -> Option<PartFront>
    requires { IsFront (PartFront.Counted number rows) }
    ensures { GoesOn IsPart part_lines IsFront front_lines (PartFront.Counted number rows) text.now result }
{
    match number_within(text, b"Number_of_columns = ", 255) {
        Some(count) => Some(PartFront::Headed(Head {
            number,
            rows,
            count,
        })),
        None => None,
    }
}

fn with_header_end(alloc: Global, head: Head, text: &[u8]) -> Option<PartFront>
    requires { IsHead head }
    ensures { GoesOn IsPart part_lines IsFront front_lines (PartFront.Headed head) text.now result }
{
    if !is(text, "END HEADER") {
        return None;
    }
    let columns = Vec::new(alloc);
    Some(PartFront::InColumns(Body { head, columns }, Open::Nothing))
}

fn with_column(body: Body, text: &[u8]) -> Option<PartFront>
    requires valid { IsBody body }
    requires fits { length body.columns.items ≤ body.head.count }
    ensures { GoesOn IsPart part_lines IsFront front_lines (PartFront.InColumns body Open.Nothing) text.now result }
{
    if body.columns.len() == body.head.count as usize {
        return None;
    }
    if is(text, "Begin Column") {
        Some(PartFront::InColumns(body, Open::Begun))
    } else {
        None
    }
}

fn with_name(alloc: Global, body: Body, text: &[u8]) -> Result<Option<PartFront>, AllocError>
    requires valid { IsBody body }
    requires room { length body.columns.items < body.head.count }
    ensures { IfOk result (GoesOn IsPart part_lines IsFront front_lines (PartFront.InColumns body Open.Begun) text.now) }
{
    let Some(name) = name_in(alloc, text)? else {
        return Ok(None);
    };
    if is_new(body.columns.as_slice(), name.bytes()) {
        Ok(Some(PartFront::InColumns(body, Open::Named(name))))
    } else {
        Ok(None)
    }
}

/// The column name that the line gives, as it is kept.
fn name_in(alloc: Global, text: &[u8]) -> Result<Option<ColName>, AllocError>
    ensures { IfOk result (λ found. MatchOption found ((name : List ℕ) → IsColumnName name → text.now ≢ codes "name = " ++ name)
        (λ name. IsColumnName name × (text.now ≡ codes "name = " ++ name))) }
{
    match behind(text, b"name = ") {
        Some(bytes) => kept_name(alloc, bytes),
        None => Ok(None),
    }
}

/// The column name that the bytes are, as it is kept.
fn kept_name(alloc: Global, bytes: &[u8]) -> Result<Option<ColName>, AllocError>
    ensures { IfOk result (λ found. MatchOption found ((name : List ℕ) → IsColumnName name → bytes.now ≢ name) (λ name. IsColumnName name × (bytes.now ≡ name))) }
{
    let Some(name) = ColName::from_bytes(alloc, bytes)? else {
        return Ok(None);
    };
    if name.bytes() == bytes {
        Ok(Some(name))
    } else {
        Ok(None)
    }
}

/// Whether no column has the name.
fn is_new(columns: &[Column], name: &[u8]) -> bool
    ensures { IsTrue result ↔ All (λ column. column.name ≢ name.now) columns.now }
{
    columns.iter().all(|column| column.name.bytes() != name)
}

fn with_type(body: Body, name: ColName, text: &[u8]) -> Option<PartFront>
    requires valid { IsBody body }
    requires takes { Takes body name }
    ensures { GoesOn IsPart part_lines IsFront front_lines (PartFront.InColumns body (Open.Named name)) text.now result }
{
    match type_in(text) {
        Some(ty) => Some(PartFront::InColumns(body, Open::Typed(Column { name, ty }))),
        None => None,
    }
}

/// The type that the line gives.
fn type_in(text: &[u8]) -> Option<ColType>
    ensures { MatchOption result ((ty : ColType) → text.now ≢ codes "data_type = " ++ type_name ty) (λ ty. text.now ≡ codes "data_type = " ++ type_name ty) }
{
    match behind(text, b"data_type = ") {
        Some(word) => ColType::named(word),
        None => None,
    }
}

fn with_column_end(
    mut body: Body,
    column: Column,
    text: &[u8],
) -> Result<Option<PartFront>, AllocError>
    requires valid { IsBody body }
    requires takes { Takes body column.name }
    ensures { IfOk result (GoesOn IsPart part_lines IsFront front_lines (PartFront.InColumns body (Open.Typed column)) text.now) }
{
    if !is(text, "End Column") {
        return Ok(None);
    }
    body.columns.push(column)?;
    Ok(Some(PartFront::InColumns(body, Open::Nothing)))
}
