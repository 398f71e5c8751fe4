//! Rows that are only listed as they come: their bins, one for each value, are made of the rows in order of value. Where
//! nearly each row has a value of its own, that takes less time and room than finding each row's group by hash.
ghost use Rattle.std.specs.Prelude.{◌≡◌, ℤ, ◌+◌, ◌<◌, ◌≤◌, List, Option, [], ◌++◌, length, map, IfOk, OnOk};
ghost use Rattle.std.specs.List.{AllByRecursion};
ghost use Rattle.wah_words.specs.Limits.{most_bits};
ghost use Rattle.binning.specs.Spans.{IsInRange};
ghost use Rattle.binning.specs.Bins.{cells, bins_of};
ghost use Rattle.binning.specs.Gathered.{Gathered};
ghost use Rattle.binning.specs.Listed.{values_at, row_values, run_of_first, InOrder};
ghost use Rattle.binning.specs.declared.rules.Keying.TheVariants.{Each};

use crate::gathering::{Bin, Grouped, cell};
use crate::rules::Rule;
use std::alloc::{AllocError, Global};
use std::marker::Model;
use wah_iter::from_rows;

/// From so many rows on, the rows are put into groups, unless nearly each has a value of its own.
const MANY_ROWS: usize = 32_768;

/// A value and its row.
#[derive(Clone, Copy, Debug)]
pub struct RowValue {
    pub value: i128,
    pub row: u32,
}

/// The rows of a column, one after another. Contracts see their cells.
#[derive(Drop)]
pub struct Listed {
    alloc: Global,
    is_there: Vec<bool>,
    values: Vec<i128>,
}

impl Model for Listed {
    ghost use Rattle.std.specs.Prelude.{◌≡◌, ℤ, ◌≤◌, List, Option, length};
    ghost use Rattle.std.specs.List.{AllByRecursion};
    ghost use Rattle.wah_words.specs.Limits.{most_bits};
    ghost use Rattle.binning.specs.Spans.{IsInRange};
    ghost use Rattle.binning.specs.Bins.{cells};

    ghost Value = { List (Option ℤ) };

    ghost view = { λ l. cells l.is_there.items l.values.items };

    ghost invariant = { λ l. (length l.is_there.items ≡ length l.values.items) × (length l.values.items ≤ most_bits) × AllByRecursion IsInRange l.values.items };
}

/// Whether more than seven in eight of the values differ.
fn are_nearly_distinct(alloc: Global, values: &[i128]) -> Result<bool, AllocError> {
    let mut sample = Vec::from_slice(alloc, values)?;
    sample.sort_unstable();
    sample.dedup();
    Ok(sample.len() > values.len() / 8 * 7)
}

/// Adds the value of a row, where there is one.
#[inline(always)]
fn push_value(pairs: &mut Vec<RowValue>, row: u32, cell: Option<i128>) -> Result<(), AllocError>
    ensures { OnOk result (pairs.new.items ≡ pairs.old.items ++ values_at row cell) }
{
    if let Some(value) = cell {
        pairs.push(RowValue { value, row })?;
    }
    Ok(())
}

/// The values that are there, each with its row.
fn row_values(
    alloc: Global,
    is_there: &[bool],
    values: &[i128],
) -> Result<Vec<RowValue>, AllocError>
    requires same { length is_there.now ≡ length values.now }
    requires few { length values.now ≤ most_bits }
    ensures { IfOk result (λ pairs. pairs.items ≡ row_values 0 (cells is_there.now values.now)) }
{
    let mut pairs = Vec::with_capacity(alloc, values.len())?;
    for (row, v) in values.iter().enumerate() {
        push_value(&mut pairs, row as u32, cell(is_there[row], *v))?;
    }
    Ok(pairs)
}

/// The pairs' rows.
fn rows_of_pairs(alloc: Global, pairs: &[RowValue]) -> Result<Vec<u32>, AllocError>
    ensures { IfOk result (λ rows. rows.items ≡ map (λ pair. pair.row) pairs.now) }
{
    let mut rows = Vec::with_capacity(alloc, pairs.len())?;
    for pair in pairs {
        rows.push(pair.row)?;
    }
    Ok(rows)
}

/// How many pairs at the front have the value of the first.
#[inline(always)]
fn run_len(pairs: &[RowValue]) -> usize
    requires { 0 < length pairs.now }
    ensures { result ≡ run_of_first pairs.now }
{
    let value = pairs[0].value;
    let mut run = 1;
    while run < pairs.len() && pairs[run].value == value {
        run += 1;
    }
    run
}

/// The bins of a column, whose values are in order: each run of one value is a bin.
fn bins_of_runs(listed: &Listed, pairs: &[RowValue], rows: &[u32]) -> Result<Vec<Bin>, AllocError>
    requires order { InOrder listed.now pairs.now }
    requires rows { rows.now ≡ map (λ pair. pair.row) pairs.now }
    ensures { IfOk result (λ bins. bins.items ≡ bins_of Each listed.now) }
{
    let count = listed.len() as u32;
    let mut bins = Vec::new(listed.alloc);
    let mut done = 0;
    while done < pairs.len() {
        let value = pairs[done].value;
        let end = done + run_len(&pairs[done..]);
        let rows = from_rows(listed.alloc, &rows[done..end], count)?;
        bins.push(Bin {
            least: value,
            greatest: value,
            rows,
        })?;
        done = end;
    }
    Ok(bins)
}

impl Listed {
    /// No row yet.
    pub(crate) fn new(alloc: Global) -> Listed
        ensures { result ≡ [] }
    {
        Listed {
            alloc,
            is_there: Vec::new(alloc),
            values: Vec::new(alloc),
        }
    }

    /// How many rows there are.
    pub(crate) fn len(&self) -> usize
        ensures number { result ≡ length self.now }
        ensures few { result ≤ most_bits }
    {
        self.values.len()
    }

    /// Whether there are many rows.
    pub(crate) fn is_many(&self) -> bool {
        self.values.len() >= MANY_ROWS
    }

    /// Further rows, of which some are there.
    pub(crate) fn put(self, is_there: &[bool], values: &[i128]) -> Result<Listed, AllocError>
        requires same { length is_there.now ≡ length values.now }
        requires within { AllByRecursion IsInRange values.now }
        requires room { length self + length values.now ≤ most_bits }
        ensures { IfOk result (λ all. all ≡ self ++ cells is_there.now values.now) }
    {
        let mut all = self;
        all.is_there.extend_from_slice(is_there)?;
        all.values.extend_from_slice(values)?;
        Ok(all)
    }

    /// Whether there are many rows and the first of them share values.
    pub(crate) fn shares_values(&self) -> Result<bool, AllocError> {
        if self.values.len() < MANY_ROWS {
            return Ok(false);
        }
        let is_distinct = are_nearly_distinct(self.alloc, &self.values[..MANY_ROWS])?;
        Ok(!is_distinct)
    }

    /// The rows in groups.
    pub(crate) fn grouped(&self) -> Result<Grouped, AllocError>
        ensures rule { IfOk result (λ all. all.rule ≡ Each) }
        ensures gathered { IfOk result (λ all. Gathered all self.now) }
    {
        let grouped = Grouped::make(self.alloc, Rule::each());
        grouped.put(&self.is_there, &self.values)
    }

    /// The rows' values in order, those of one value in order of row.
    fn in_order(&self) -> Result<Vec<RowValue>, AllocError>
        ensures { IfOk result (λ pairs. InOrder self.now pairs.items) }
    {
        let mut pairs = row_values(self.alloc, &self.is_there, &self.values)?;
        pairs.sort_by_key(|pair| pair.value)?;
        Ok(pairs)
    }

    /// The bins of all rows, one for each value, in rising order.
    pub(crate) fn finish(&self) -> Result<Vec<Bin>, AllocError>
        ensures bins { IfOk result (λ bins. bins.items ≡ bins_of Each self.now) }
        ensures few { OnOk result (length self.now ≤ most_bits) }
    {
        let pairs = self.in_order()?;
        let rows = rows_of_pairs(self.alloc, &pairs)?;
        let bins = bins_of_runs(self, &pairs, &rows)?;
        Ok(bins)
    }
}
