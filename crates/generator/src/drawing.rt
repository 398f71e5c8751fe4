//! The records of a seed.

ghost use Rattle.std.specs.Prelude.{◌≡◌, ◌≤◌, ◌++◌, ◌/◌, ◌%◌, ◌^◌, codes, decimal, Some, IfOk};
ghost use Rattle.fb_types.specs.Names.{column_name};
ghost use Rattle.generator.specs.Generated.{generated, generated_columns, number_after, record_of, third_cell};

use fb_types::{Cell, ColName, ColType, Column, Columns, Label, Schema};
use std::alloc::{AllocError, Global};

const MULTIPLIER: u64 = 6_364_136_223_846_793_005;

const INCREMENT: u64 = 1_442_695_040_888_963_407;

/// The table of so many records, up to 1,000,000, that a seed spells: the columns `a:int` (0 to 999), `b:category`
/// (`w0` to `w6`) and `c:long` (0 to 99,999, and null in one record of ten).
pub fn generate(alloc: Global, rows: u32, seed: u64) -> Result<Columns, AllocError>
    requires some { 1 ≤ rows }
    requires few { rows ≤ 1000000 }
    ensures schema { IfOk result (λ table. table.schema ≡ generated_columns) }
    ensures records { IfOk result (λ table. table.records ≡ generated rows seed) }
{
    let schema = schema(alloc)?;
    let mut table = Columns::make(alloc, &schema)?;
    let mut x = seed;
    for _ in 0..rows {
        x = next_number(x);
        table.push(record(alloc, x)?)?;
    }
    Ok(table)
}

#[tactic(auto, unfolding(crate::specs::Generated::generated_columns, fb_types::specs::Names::keywords))]
fn schema(alloc: Global) -> Result<Schema, AllocError>
    ensures { IfOk result (λ schema. schema ≡ generated_columns) }
{
    let mut columns = Vec::with_capacity(alloc, 3)?;
    columns.push(column(alloc, b"a", ColType::Int)?)?;
    columns.push(column(alloc, b"b", ColType::Category)?)?;
    columns.push(column(alloc, b"c", ColType::Long)?)?;
    Ok(Schema::from_columns(columns))
}

fn column(alloc: Global, name: &[u8], ty: ColType) -> Result<Column, AllocError>
    requires named { column_name name.now ≡ Some name.now }
    ensures name { IfOk result (λ column. column.name ≡ name.now) }
    ensures ty { IfOk result (λ column. column.ty ≡ ty) }
{
    match ColName::from_bytes(alloc, name)? {
        Some(name) => Ok(Column { name, ty }),
        None => unreachable!(),
    }
}

fn next_number(x: u64) -> u64
    ensures { result ≡ number_after x }
{
    x.wrapping_mul(MULTIPLIER).wrapping_add(INCREMENT)
}

#[tactic(auto, unfolding(crate::specs::Generated::record_of))]
fn record(alloc: Global, x: u64) -> Result<Vec<Cell>, AllocError>
    ensures { IfOk result (λ cells. cells.items ≡ record_of x) }
{
    let number = i128::from((x >> 33) % 1000);
    let word = word(alloc, x)?;
    Ok(vec![in alloc; Cell::Whole(number), Cell::Word(word), third_cell(x)]?)
}

fn word(alloc: Global, x: u64) -> Result<Label, AllocError>
    ensures { IfOk result (λ word. word ≡ codes "w" ++ decimal (x / 2 ^ 43 % 7)) }
{
    let digit = (x >> 43) % 7;
    let word = format!(in alloc; "w{digit}")?;
    Label::from_bytes(alloc, word.as_bytes())
}

fn third_cell(x: u64) -> Cell
    ensures { result ≡ third_cell x }
{
    if (x >> 53) % 10 == 0 {
        Cell::Null
    } else {
        Cell::Whole(i128::from((x >> 20) % 100_000))
    }
}
