//! The dataset that takes a load, and the load into it.

ghost use Rattle.std.specs.Prelude.{◌≡◌, ◌≢◌, ◌≤◌, ⊤, None, Ok, Err, IfErr, IfOk, IsErrOf, OnOk};
ghost use Rattle.fb_outside.specs.Causes.{HasCause};
ghost use Rattle.fb_outside.specs.Files.{SameFiles};
ghost use Rattle.fb_outside.specs.Names.{IsPath};
ghost use Rattle.fb_outside.specs.Puts.{PutsInOrder};
ghost use Rattle.fb_outside.specs.Reads.{AddsOnly};
ghost use Rattle.dataset.specs.Appended.{append_files};
ghost use Rattle.dataset.specs.Opened.{IsDataset, IsTextLook, catalog_in};
ghost use Rattle.ardea.specs.Answers.{GivesCatalog, StopsBy, refusal_of};
ghost use Rattle.ardea.specs.Load.{unless_refused};
ghost use Rattle.part_meta.specs.PartText.{most_rows};

use crate::reading::over;
use dataset::{AppendFault, Dataset, OpenFault, append, create, open_dataset};
use fb_outside::{FileName, Store};
use fb_types::{Columns, Schema};
use statuses::{LimitKind, Status, Stop};
use std::alloc::Global;
use std::sync::ledger::Ledger;
use steps::Steps;

/// The dataset at the path; where there is none, one of these columns.
pub(crate) fn dataset_of<S: Store>(
    alloc: Global,
    dir: &FileName,
    schema: &Schema,
    store: &mut S,
) -> Result<Dataset, Stop>
    requires path { IsPath dir.now }
    ensures cause { HasCause (S.faults store.old) (S.faults store.new) (IsErrOf result Stop.StoreFault) }
    ensures files { SameFiles (S.files store.old) (S.files store.new) }
    ensures reads { AddsOnly (IsTextLook dir.now) (S.reads store.old) (S.reads store.new) }
    ensures path { IfOk result (λ dataset. dataset.dir ≡ dir.now) }
    ensures valid { IfOk result IsDataset }
    ensures catalog { IfOk result (λ dataset. GivesCatalog dir.now schema.now (S.files store.old) (Ok (catalog_in dataset))) }
    ensures stop { IfErr result (StopsBy (λ status. GivesCatalog dir.now schema.now (S.files store.old) (Err status)) ⊥ ⊤) }
{
    match open_dataset(alloc, store, dir) {
        Ok(dataset) => Ok(dataset),
        Err(OpenFault::NoDataset) => {
            let dir = dir.copy(alloc)?;
            let schema = schema.copy(alloc)?;
            Ok(create(alloc, dir, schema))
        }
        Err(
            OpenFault::Damaged {
                file,
                kind,
                want,
                have,
            },
        ) => {
            Err(Stop::Refused(Status::Damaged {
                file,
                kind,
                want,
                have,
            }))
        }
        Err(OpenFault::Store) => Err(Stop::StoreFault),
        Err(OpenFault::OutOfMemory) => Err(Stop::OutOfMemory),
    }
}

/// Adds the records to the dataset, with so many in a part.
pub(crate) fn add<S: Store, L: Ledger>(
    alloc: Global,
    store: &mut S,
    dataset: &mut Dataset,
    columns: &Columns,
    per_part: u32,
    steps: &mut Steps<L>,
) -> Result<(), Stop>
    requires valid { IsDataset dataset.old }
    requires some { 1 ≤ per_part }
    requires few { per_part ≤ most_rows }
    ensures cause { HasCause (S.faults store.old) (S.faults store.new) (IsErrOf result Stop.StoreFault) }

    // The refusal, and nothing is put; else all files in order, and a front of them where the store failed.
    ensures accepts { OnOk result (refusal_of (catalog_in dataset.old) per_part columns.now ≡ None) }
    ensures stop { IfErr result (StopsBy
        (λ status. unless_refused columns.now (refusal_of (catalog_in dataset.old) per_part columns.now) ≡ Err status)
        ⊥ (refusal_of (catalog_in dataset.old) per_part columns.now ≡ None)) }
    ensures kept { refusal_of (catalog_in dataset.old) per_part columns.now ≢ None
        → SameFiles (S.files store.old) (S.files store.new) }
    ensures reads { S.reads store.new ≡ S.reads store.old }
    ensures files { PutsInOrder (append_files dataset.old.dir (catalog_in dataset.old) per_part columns.now.records) result
        (S.files store.old) (S.files store.new) }
{
    match append(alloc, store, dataset, columns, per_part, steps) {
        Ok(_) => Ok(()),
        Err(AppendFault::SchemaDiffers { column }) => {
            Err(Stop::Refused(Status::SchemaDiffers { column }))
        }
        Err(AppendFault::TooManyParts { number, limit }) => {
            Err(over(LimitKind::Parts, number, limit))
        }
        Err(AppendFault::TooManyNumbers { number, limit }) => {
            Err(over(LimitKind::Numbers, number, limit))
        }
        Err(AppendFault::Store) => Err(Stop::StoreFault),
        Err(AppendFault::OutOfMemory) => Err(Stop::OutOfMemory),
    }
}
