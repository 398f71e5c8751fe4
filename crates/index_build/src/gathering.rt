//! The bins of a column's numbers.

ghost use Rattle.std.specs.Prelude.{◌≡◌, ◌+◌, ◌*◌, ◌≤◌, ℕ, ℤ, List, Some, IfErr, IfOk, IsErrOf, IsSome, OnErr, OnOk, All, drop, length, take};
ghost use Rattle.fb_outside.specs.Causes.{HasCause};
ghost use Rattle.fb_outside.specs.Files.{SameFiles, told_at};
ghost use Rattle.fb_outside.specs.Reads.{AddsOnly};
ghost use Rattle.fb_types.specs.Types.{width_of};
ghost use Rattle.column_file.specs.Values.{ValueFits, width_in};
ghost use Rattle.index_spec.specs.Language.{IsGivenBinning};
ghost use Rattle.part_meta.specs.PartText.{most_rows};
ghost use Rattle.index_build.specs.Index.{AreBinsOf, AreRead, IsOfOutside};
ghost use Rattle.world.specs.IndexFiles.{keys_by};

use crate::reading::{ReadFault, block_rows, read_block};
use binning::{Bin, Gatherer, Rule, bins, make_rule};
use column_file::{ColumnRef, MAX_ROWS_READ};
use fb_outside::Store;
use index_spec::{Binning, Spec};
use std::alloc::Global;
use std::sync::ledger::Ledger;
use steps::Steps;
use wah_iter::slice;

/// The bins of a column by a specification.
pub(crate) fn column_bins<S: Store, L: Ledger>(
    alloc: Global,
    store: &mut S,
    column: &ColumnRef,
    spec: &Spec,
    steps: &mut Steps<L>,
) -> Result<Vec<Bin>, ReadFault>
    requires given { IsGivenBinning spec.now.binning }
    requires width { IsSome (width_of column.now.ty) }
    requires mask { length column.now.mask ≡ column.now.rows }
    requires few { column.now.rows ≤ most_rows }
    ensures cause { HasCause (S.faults store.old) (S.faults store.new) (IsErrOf result ReadFault.Store) }
    ensures files { SameFiles (S.files store.old) (S.files store.new) }
    ensures reads { AddsOnly (λ look. look.name ≡ column.now.name) (S.reads store.old) (S.reads store.new) }
    ensures whole { (bytes : List ℕ) → told_at (S.files store.old) column.now.name ≡ Some bytes → length bytes ≡ column.now.rows * width_in column.now.ty
        → IfErr result IsOfOutside }
    ensures bins { IfOk result (λ found. AreBinsOf (S.files store.old) column.now (keys_by spec.now column.now.mask) found.items) }
{
    match &spec.binning {
        Binning::Weight { .. } => {
            let numbers = all_numbers(alloc, store, column)?;
            let rule = make_rule(alloc, &spec.binning, &numbers, &column.mask, steps)?;
            Ok(bins(alloc, &rule, &numbers, &column.mask, steps)?)
        }
        _ => {
            let none = slice(alloc, &column.mask, 0, 0, steps)?;
            let rule = make_rule(alloc, &spec.binning, &[], &none, steps)?;
            gathered(alloc, store, column, rule, steps)
        }
    }
}

/// All numbers of a column, row by row.
fn all_numbers<S: Store>(
    alloc: Global,
    store: &mut S,
    column: &ColumnRef,
) -> Result<Vec<i128>, ReadFault>
    requires width { IsSome (width_of column.now.ty) }
    ensures cause { HasCause (S.faults store.old) (S.faults store.new) (IsErrOf result ReadFault.Store) }
    ensures files { SameFiles (S.files store.old) (S.files store.new) }
    ensures reads { AddsOnly (λ look. look.name ≡ column.now.name) (S.reads store.old) (S.reads store.new) }
    ensures whole { (bytes : List ℕ) → told_at (S.files store.old) column.now.name ≡ Some bytes → length bytes ≡ column.now.rows * width_in column.now.ty
        → IfErr result IsOfOutside }
    ensures numbers { IfOk result (λ all. AreRead (S.files store.old) column.now column.now.rows all.items) }
{
    let mut all = Vec::with_capacity(alloc, column.rows as usize)?;
    let mut block = [0; MAX_ROWS_READ];
    let mut at = 0;
    while at < column.rows {
        let rows = block_rows(column.rows - at);
        read_block(store, column, at, &mut block[..rows])?;
        all.extend_from_slice(&block[..rows])?;
        at += rows as u32;
    }
    Ok(all)
}

/// The bins of a column by a rule, gathered block by block.
fn gathered<S: Store, L: Ledger>(
    alloc: Global,
    store: &mut S,
    column: &ColumnRef,
    rule: Rule,
    steps: &mut Steps<L>,
) -> Result<Vec<Bin>, ReadFault>
    requires width { IsSome (width_of column.now.ty) }
    requires mask { length column.now.mask ≡ column.now.rows }
    requires few { column.now.rows ≤ most_rows }
    ensures cause { HasCause (S.faults store.old) (S.faults store.new) (IsErrOf result ReadFault.Store) }
    ensures files { SameFiles (S.files store.old) (S.files store.new) }
    ensures reads { AddsOnly (λ look. look.name ≡ column.now.name) (S.reads store.old) (S.reads store.new) }
    ensures whole { (bytes : List ℕ) → told_at (S.files store.old) column.now.name ≡ Some bytes → length bytes ≡ column.now.rows * width_in column.now.ty
        → IfErr result IsOfOutside }
    ensures bins { IfOk result (λ found. AreBinsOf (S.files store.old) column.now (λ numbers. rule) found.items) }
{
    let mut gatherer = Gatherer::make(alloc, rule);
    let mut block = [0; MAX_ROWS_READ];
    let mut at = 0;
    while at < column.rows {
        let rows = block_rows(column.rows - at);
        read_block(store, column, at, &mut block[..rows])?;
        let past = at + rows as u32;
        let present = slice(alloc, &column.mask, at, past, steps)?;
        gatherer = gatherer.add(&block[..rows], &present, steps)?;
        at = past;
    }
    Ok(gatherer.finish()?)
}
