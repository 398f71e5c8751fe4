//! Loads: records cut into parts behind those of a dataset.

ghost use Rattle.std.specs.Prelude.{◌≡◌, ◌≢◌, ◌+◌, ◌≤◌, [], ◌∷◌, ◌++◌, None, length, IfErr, IfOk, IsErrOf, OnErr, OnOk};
ghost use Rattle.fb_outside.specs.Causes.{HasCause};
ghost use Rattle.fb_outside.specs.Files.{SameFiles};
ghost use Rattle.fb_outside.specs.Puts.{PutsInOrder};
ghost use Rattle.std.specs.List.{flat_map};
ghost use Rattle.fb_outside.specs.Names.{IsPath};
ghost use Rattle.part_meta.specs.CatalogText.{catalog_text};
ghost use Rattle.part_meta.specs.FileNames.{catalog_name};
ghost use Rattle.world.specs.Effects.{new_parts, part_count};
ghost use Rattle.world.specs.PartFiles.{part_files};
ghost use Rattle.dataset.specs.Appended.{Refuses, append_files, appended, refusal};
ghost use Rattle.dataset.specs.Opened.{IsDataset, catalog_in};
ghost use Rattle.dataset.specs.Stops.{fault_for};
ghost use Rattle.part_meta.specs.PartText.{most_rows};

use crate::content::Dataset;
use crate::fault::AppendFault;
use crate::growing::{add_parts, take_back};
use crate::part_writing::{write_catalog, write_parts};
use crate::refusing::accepted;
use fb_outside::{Store, Trouble};
use fb_types::Columns;
use std::alloc::Global;
use std::sync::ledger::Ledger;
use steps::Steps;

/// Cuts the records into parts of `per_part`, the last one smaller, numbered behind those of the dataset, and writes
/// their files, part by part, and the catalog last. Answers the number of new parts. After an Err the dataset is as it
/// was, and the files are those of the old one, or, where the catalog's `put` failed, perhaps of the new one.
pub fn append<S: Store, L: Ledger>(
    alloc: Global,
    store: &mut S,
    dataset: &mut Dataset,
    columns: &Columns,
    per_part: u32,
    steps: &mut Steps<L>,
) -> Result<u32, AppendFault>
    requires valid { IsDataset dataset.old }
    requires some { 1 ≤ per_part }
    requires few { per_part ≤ most_rows }
    ensures cause { HasCause (S.faults store.old) (S.faults store.new) (IsErrOf result AppendFault.Store) }
    ensures reads { S.reads store.new ≡ S.reads store.old }
    ensures valid { IsDataset dataset.new }

    // The first refusal, and nothing is put; else all files in order, and a front of them where the store failed.
    ensures accepts { OnOk result (refusal (catalog_in dataset.old) columns.now.schema per_part (length columns.now.records) ≡ None) }
    ensures refuses { IfErr result (Refuses (refusal (catalog_in dataset.old) columns.now.schema per_part (length columns.now.records))) }
    ensures kept { refusal (catalog_in dataset.old) columns.now.schema per_part (length columns.now.records) ≢ None
        → SameFiles (S.files store.old) (S.files store.new) }
    ensures files { PutsInOrder (append_files dataset.old.dir (catalog_in dataset.old) per_part columns.now.records) result
        (S.files store.old) (S.files store.new) }

    ensures count { IfOk result (λ count. count ≡ part_count per_part (length columns.now.records)) }
    ensures grown { OnOk result (dataset.new ≡ appended dataset.old per_part columns.now.records) }
    ensures unchanged { OnErr result (dataset.new ≡ dataset.old) }
{
    let count = accepted(dataset, columns, per_part)?;
    extend(alloc, store, dataset, columns, per_part, count, steps)?;
    Ok(count)
}

/// Adds the parts that the records make to a dataset that takes them, and writes their files and the catalog. The parts
/// are listed before anything is written, so that nothing can fail behind the catalog's `put`.
fn extend<S: Store, L: Ledger>(
    alloc: Global,
    store: &mut S,
    dataset: &mut Dataset,
    columns: &Columns,
    per_part: u32,
    count: u32,
    steps: &mut Steps<L>,
) -> Result<(), AppendFault>
    requires path { IsPath dataset.old.dir }
    requires schema { dataset.old.schema ≡ columns.now.schema }
    requires some { 1 ≤ per_part }
    requires few { per_part ≤ most_rows }
    requires numbers { dataset.old.next + part_count per_part (length columns.now.records) ≤ 4096 }
    requires count { count ≡ part_count per_part (length columns.now.records) }
    ensures cause { HasCause (S.faults store.old) (S.faults store.new) (IsErrOf result AppendFault.Store) }
    ensures reads { S.reads store.new ≡ S.reads store.old }
    ensures files { PutsInOrder (append_files dataset.old.dir (catalog_in dataset.old) per_part columns.now.records) result
        (S.files store.old) (S.files store.new) }
    ensures grown { OnOk result (dataset.new ≡ appended dataset.old per_part columns.now.records) }
    ensures unchanged { OnErr result (dataset.new ≡ dataset.old) }
    ensures stop { IfErr result (λ fault. Refuses None fault) }
{
    let next = dataset.next;
    if add_parts(alloc, dataset, columns, per_part).is_err() {
        return Err(AppendFault::OutOfMemory);
    }
    match write_files(alloc, store, dataset, next, columns, per_part, steps) {
        Ok(()) => Ok(()),
        Err(trouble) => {
            take_back(dataset, next, count);
            Err(fault_for(trouble))
        }
    }
}

/// Writes the files of the new parts of a dataset that has them, numbered from `next` on, and then its catalog.
fn write_files<S: Store, L: Ledger>(
    alloc: Global,
    store: &mut S,
    dataset: &Dataset,
    next: u32,
    columns: &Columns,
    per_part: u32,
    steps: &mut Steps<L>,
) -> Result<(), Trouble>
    requires path { IsPath dataset.now.dir }
    requires some { 1 ≤ per_part }
    requires few { per_part ≤ most_rows }
    requires numbers { next + part_count per_part (length columns.now.records) ≤ 4096 }
    ensures cause { HasCause (S.faults store.old) (S.faults store.new) (IsErrOf result Trouble.Failed) }
    ensures files { PutsInOrder (flat_map (part_files dataset.now.dir columns.now.schema) (new_parts next per_part columns.now.records)
        ++ record { name = catalog_name dataset.now.dir; bytes = catalog_text (catalog_in dataset.now) } ∷ []) result
        (S.files store.old) (S.files store.new) }
    ensures reads { S.reads store.new ≡ S.reads store.old }
{
    write_parts(alloc, store, &dataset.dir, next, columns, per_part, steps)?;
    write_catalog(alloc, store, dataset)
}

/// What a load answers where a writer of its files stopped.
fn fault_for(trouble: Trouble) -> AppendFault
    ensures { result ≡ fault_for trouble }
{
    match trouble {
        Trouble::Failed => AppendFault::Store,
        Trouble::OutOfMemory => AppendFault::OutOfMemory,
    }
}
