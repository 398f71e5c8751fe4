//! The schema of a dataset, its parts, and the indexes of their columns.

ghost use Rattle.std.specs.Prelude.{◌≡◌, ◌++◌, ◌<◌, IfOk, IsErrOf, OnOk};
ghost use Rattle.fb_outside.specs.Causes.{HasCause};
ghost use Rattle.fb_outside.specs.Files.{SameFiles};
ghost use Rattle.fb_outside.specs.Names.{IsPath};
ghost use Rattle.fb_outside.specs.Reads.{AddsOnly};
ghost use Rattle.dataset.specs.Opened.{IsDataset};
ghost use Rattle.dataset.specs.PartIndexes.{index_file};
ghost use Rattle.index_file.specs.Opening.{IsHeadLook};
ghost use Rattle.ibis.specs.Listing.{ListGives, ListsWorld, index_line, part_line, schema_line, text_of};
ghost use Rattle.ibis.specs.ListSteps.{DatasetGives, IndexGives, PartGives, stop_of_part};
ghost use Rattle.ibis.specs.Looks.{IsIndexLook, IsListLook, IsPartIndexLook};

use dataset::{Dataset, PartFault, open_part_index};
use fb_outside::{FileName, Store};
use fb_types::{ColName, Column, Schema, print_schema};
use index_spec::{Spec, print_spec};
use part_meta::PartMeta;
use statuses::{Unanswered, damaged, opened};
use std::alloc::{AllocError, Global};

/// The lines of the schema of the dataset at the path, and of its parts with the indexes of their columns. No file changes.
pub fn list<S: Store>(alloc: Global, dir: &FileName, store: &mut S) -> Result<Vec<u8>, Unanswered>
    requires path { IsPath dir.now }
    ensures cause { HasCause (S.faults store.old) (S.faults store.new) (IsErrOf result Unanswered.StoreFault) }
    ensures files { SameFiles (S.files store.old) (S.files store.new) }
    ensures reads { AddsOnly (IsListLook (S.files store.old) dir.now) (S.reads store.old) (S.reads store.new) }
    ensures gives { ListGives dir.now (S.files store.old) (text_of result) }

    // Where the files stand for a world, the listing is that of its dataset.
    ensures listed { ListsWorld dir.now (S.files store.old) (text_of result) }
{
    let dataset = match opened(alloc, store, dir) {
        Ok(dataset) => dataset,
        Err(stop) => return Err(stop),
    };
    dataset_text(alloc, store, &dataset)
}

fn dataset_text<S: Store>(
    alloc: Global,
    store: &mut S,
    dataset: &Dataset,
) -> Result<Vec<u8>, Unanswered>
    requires valid { IsDataset dataset.now }
    ensures cause { HasCause (S.faults store.old) (S.faults store.new) (IsErrOf result Unanswered.StoreFault) }
    ensures files { SameFiles (S.files store.old) (S.files store.new) }
    ensures reads { AddsOnly (IsIndexLook (S.files store.old) dataset.now) (S.reads store.old) (S.reads store.new) }
    ensures gives { DatasetGives (S.files store.old) dataset.now (text_of result) }
{
    let mut text = schema_text(alloc, &dataset.schema)?;
    for part in dataset.parts.as_slice() {
        push_part(alloc, store, &mut text, dataset, part)?;
    }
    Ok(text)
}

#[tactic(auto, unfolding(crate::specs::Listing::schema_line))]
fn schema_text(alloc: Global, schema: &Schema) -> Result<Vec<u8>, AllocError>
    ensures { IfOk result (λ text. text.items ≡ schema_line schema.now) }
{
    let columns = print_schema(alloc, schema)?;
    let mut text = Vec::from_slice(alloc, b"schema ")?;
    text.extend_from_slice(columns.bytes())?;
    text.push(b'\n')?;
    Ok(text)
}

/// The lines of a part: its own, and one for each of its columns that has an index, in the schema's order.
fn push_part<S: Store>(
    alloc: Global,
    store: &mut S,
    text: &mut Vec<u8>,
    dataset: &Dataset,
    part: &PartMeta,
) -> Result<(), Unanswered>
    requires path { IsPath dataset.now.dir }
    requires number { part.now.number < 4096 }
    ensures cause { HasCause (S.faults store.old) (S.faults store.new) (IsErrOf result Unanswered.StoreFault) }
    ensures files { SameFiles (S.files store.old) (S.files store.new) }
    ensures reads { AddsOnly (IsPartIndexLook (S.files store.old) dataset.now part.now) (S.reads store.old) (S.reads store.new) }
    ensures gives { PartGives (S.files store.old) dataset.now part.now text.old.items text.new.items result }
{
    push_part_line(alloc, text, part)?;
    for column in dataset.schema.columns() {
        push_index(alloc, store, text, dataset, part, column)?;
    }
    Ok(())
}

#[tactic(auto, unfolding(crate::specs::Listing::part_line))]
fn push_part_line(alloc: Global, text: &mut Vec<u8>, part: &PartMeta) -> Result<(), AllocError>
    ensures { OnOk result (text.new.items ≡ text.old.items ++ part_line part.now) }
{
    let number = part.number;
    let rows = part.rows;
    let line = format!(in alloc; "part {number} rows {rows}\n")?;
    text.extend_from_slice(line.as_bytes())?;
    Ok(())
}

/// The line of a column's index in the part; nothing where it has none. A text is never asked for one.
fn push_index<S: Store>(
    alloc: Global,
    store: &mut S,
    text: &mut Vec<u8>,
    dataset: &Dataset,
    part: &PartMeta,
    column: &Column,
) -> Result<(), Unanswered>
    requires path { IsPath dataset.now.dir }
    requires number { part.now.number < 4096 }
    ensures cause { HasCause (S.faults store.old) (S.faults store.new) (IsErrOf result Unanswered.StoreFault) }
    ensures files { SameFiles (S.files store.old) (S.files store.new) }
    ensures reads { AddsOnly (IsHeadLook (S.files store.old) (index_file dataset.now part.now column.now)) (S.reads store.old) (S.reads store.new) }
    ensures gives { IndexGives (S.files store.old) dataset.now part.now column.now text.old.items text.new.items result }
{
    if column.ty.width().is_none() {
        return Ok(());
    }
    match open_part_index(alloc, store, dataset, part, column) {
        Ok(Some(head)) => {
            push_index_line(alloc, text, &column.name, &head.spec)?;
            Ok(())
        }
        Ok(None) => Ok(()),
        Err(fault) => Err(stop_of_part(fault)),
    }
}

/// The answer to an index that isn't opened.
fn stop_of_part(fault: PartFault) -> Unanswered
    ensures { result ≡ stop_of_part fault }
{
    match fault {
        PartFault::Damaged {
            file,
            kind,
            want,
            have,
        } => damaged(file, kind, want, have),
        PartFault::Store => Unanswered::StoreFault,
        PartFault::OutOfMemory => Unanswered::OutOfMemory,
    }
}

#[tactic(auto, unfolding(crate::specs::Listing::index_line))]
fn push_index_line(
    alloc: Global,
    text: &mut Vec<u8>,
    name: &ColName,
    spec: &Spec,
) -> Result<(), AllocError>
    ensures { OnOk result (text.new.items ≡ text.old.items ++ index_line name.now spec.now) }
{
    let spec = print_spec(alloc, spec)?;
    text.extend_from_slice(b"index ")?;
    text.extend_from_slice(name.bytes())?;
    text.push(b' ')?;
    text.extend_from_slice(spec.as_slice())?;
    text.push(b'\n')?;
    Ok(())
}
