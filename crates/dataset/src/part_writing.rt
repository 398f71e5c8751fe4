//! The files of parts, and the catalog behind them.

ghost use Rattle.std.specs.Prelude.{◌≡◌, ◌+◌, ◌*◌, ◌^◌, ◌<◌, ◌≤◌, [], ◌∷◌, ◌++◌, IfOk, IsErrOf, length, map};
ghost use Rattle.std.specs.List.{flat_map};
ghost use Rattle.fb_outside.specs.Causes.{HasCause};
ghost use Rattle.fb_outside.specs.Names.{IsPath};
ghost use Rattle.fb_outside.specs.Puts.{PutsInOrder};
ghost use Rattle.part_meta.specs.CatalogText.{catalog_text};
ghost use Rattle.part_meta.specs.FileNames.{catalog_name, part_name};
ghost use Rattle.part_meta.specs.PartText.{part_text, most_rows};
ghost use Rattle.world.specs.Effects.{new_part, new_parts, part_count};
ghost use Rattle.world.specs.PartFiles.{columns_files, part_data, part_files};
ghost use Rattle.dataset.specs.Opened.{catalog_in};
ghost use Rattle.dataset.specs.WrittenColumns.{part_from};

use crate::column_writing::{put_file, write_column_files};
use crate::content::Dataset;
use crate::growing::{count_of_parts, new_meta};
use crate::part_column::PartColumn;
use fb_outside::{FileName, Store, Trouble};
use fb_types::Columns;
use part_meta::{Catalog, FileKind, PartMeta, catalog_of, file_of, print_catalog, print_part};
use sqlite_items::Items;
use std::alloc::{AllocError, Global};
use std::sync::ledger::Ledger;
use steps::Steps;

/// Writes the files of the new parts, numbered from `next` on, part by part.
pub(crate) fn write_parts<S: Store, L: Ledger>(
    alloc: Global,
    store: &mut S,
    dir: &FileName,
    next: u32,
    columns: &Columns,
    per_part: u32,
    steps: &mut Steps<L>,
) -> Result<(), Trouble>
    requires path { IsPath dir.now }
    requires some { 1 ≤ per_part }
    requires few { per_part ≤ most_rows }
    requires numbers { next + part_count per_part (length columns.now.records) ≤ 4096 }
    ensures cause { HasCause (S.faults store.old) (S.faults store.new) (IsErrOf result Trouble.Failed) }
    ensures files { PutsInOrder (flat_map (part_files dir.now columns.now.schema) (new_parts next per_part columns.now.records)) result
        (S.files store.old) (S.files store.new) }
    ensures reads { S.reads store.new ≡ S.reads store.old }
{
    let count = count_of_parts(columns.rows(), per_part) as u32;
    for place in 0..count {
        let meta = new_meta(alloc, columns, next, per_part, place)?;
        let first = u64::from(place) * u64::from(per_part);
        write_part(alloc, store, dir, &meta, columns, first, steps)?;
    }
    Ok(())
}

/// Writes the files of a part that has the table's rows from one on: those of its columns in order, and its text.
fn write_part<S: Store, L: Ledger>(
    alloc: Global,
    store: &mut S,
    dir: &FileName,
    meta: &PartMeta,
    columns: &Columns,
    first: u64,
    steps: &mut Steps<L>,
) -> Result<(), Trouble>
    requires path { IsPath dir.now }
    requires number { meta.now.number < 4096 }
    requires few { meta.now.rows ≤ most_rows }
    requires within { first + meta.now.rows ≤ length columns.now.records }
    requires small { first + meta.now.rows < 2 ^ 64 }
    requires schema { meta.now.schema ≡ columns.now.schema }
    ensures cause { HasCause (S.faults store.old) (S.faults store.new) (IsErrOf result Trouble.Failed) }
    ensures files { PutsInOrder (part_files dir.now columns.now.schema (part_from columns.now meta.now.number first meta.now.rows)) result
        (S.files store.old) (S.files store.new) }
    ensures reads { S.reads store.new ≡ S.reads store.old }
{
    write_columns(alloc, store, dir, meta, columns, first, steps)?;
    write_part_text(alloc, store, dir, meta)
}

fn write_columns<S: Store, L: Ledger>(
    alloc: Global,
    store: &mut S,
    dir: &FileName,
    meta: &PartMeta,
    columns: &Columns,
    first: u64,
    steps: &mut Steps<L>,
) -> Result<(), Trouble>
    requires path { IsPath dir.now }
    requires number { meta.now.number < 4096 }
    requires few { meta.now.rows ≤ most_rows }
    requires within { first + meta.now.rows ≤ length columns.now.records }
    requires small { first + meta.now.rows < 2 ^ 64 }
    ensures cause { HasCause (S.faults store.old) (S.faults store.new) (IsErrOf result Trouble.Failed) }
    ensures files { PutsInOrder (columns_files dir.now (part_from columns.now meta.now.number first meta.now.rows) 0 columns.now.schema) result
        (S.files store.old) (S.files store.new) }
    ensures reads { S.reads store.new ≡ S.reads store.old }
{
    for (col, column) in columns.schema().columns().iter().enumerate() {
        let part = PartColumn {
            dir,
            number: meta.number,
            column,
            columns,
            col,
            first,
            rows: meta.rows,
        };
        write_column_files(alloc, store, &part, steps)?;
    }
    Ok(())
}

fn write_part_text<S: Store>(
    alloc: Global,
    store: &mut S,
    dir: &FileName,
    meta: &PartMeta,
) -> Result<(), Trouble>
    requires path { IsPath dir.now }
    requires number { meta.now.number < 4096 }
    ensures cause { HasCause (S.faults store.old) (S.faults store.new) (IsErrOf result Trouble.Failed) }
    ensures files { PutsInOrder (record { name = part_name dir.now meta.now.number; bytes = part_text meta.now } ∷ []) result
        (S.files store.old) (S.files store.new) }
    ensures reads { S.reads store.new ≡ S.reads store.old }
{
    let text = print_part(alloc, meta)?;
    let name = file_of(alloc, dir, meta.number, None, FileKind::PartText)?;
    put_file(store, &name, &text)
}

/// Writes the catalog of the dataset.
pub(crate) fn write_catalog<S: Store>(
    alloc: Global,
    store: &mut S,
    dataset: &Dataset,
) -> Result<(), Trouble>
    requires { IsPath dataset.now.dir }
    ensures cause { HasCause (S.faults store.old) (S.faults store.new) (IsErrOf result Trouble.Failed) }
    ensures files { PutsInOrder (record { name = catalog_name dataset.now.dir; bytes = catalog_text (catalog_in dataset.now) } ∷ []) result
        (S.files store.old) (S.files store.new) }
    ensures reads { S.reads store.new ≡ S.reads store.old }
{
    let catalog = catalog_for(alloc, dataset)?;
    let text = print_catalog(alloc, &catalog)?;
    let name = catalog_of(alloc, &dataset.dir)?;
    put_file(store, &name, &text)
}

fn catalog_for(alloc: Global, dataset: &Dataset) -> Result<Catalog, AllocError>
    ensures { IfOk result (λ catalog. catalog ≡ catalog_in dataset.now) }
{
    let schema = dataset.schema.copy(alloc)?;
    let parts = dataset.parts.as_slice();
    let numbers = parts.iter().map(|part| part.number).collect(alloc)?;
    Ok(Catalog {
        schema,
        next: dataset.next,
        parts: Items::from_vec(numbers),
    })
}
