//! Indexes of the columns of a dataset, built one after another.

ghost use Rattle.std.specs.Prelude.{◌≡◌, ◌*◌, ◌≤◌, [], ◌∷◌, ℕ, Ok, Some, All, IfErr, IfOk, IsErrOf, IsUtf8, OnOk, is_ok, length, option_copied, slice_get, true};
ghost use Rattle.fb_outside.specs.Causes.{HasCause};
ghost use Rattle.fb_outside.specs.Files.{ChangesAmong};
ghost use Rattle.fb_outside.specs.Names.{IsPath};
ghost use Rattle.fb_outside.specs.Reads.{AddsOnly};
ghost use Rattle.index_spec.specs.Language.{IsGiven, spec_of};
ghost use Rattle.world.specs.PartFiles.{part_data};
ghost use Rattle.world.specs.Stands.{StandsFor};
ghost use Rattle.world.specs.World.{Content, Partition, World, content_at};
ghost use Rattle.dataset.specs.Found.{dataset_in};
ghost use Rattle.dataset.specs.Opened.{IsDataset};
ghost use Rattle.ibis_build.specs.Builds.{build_outcome, part_tasks, spec_or_refusal, tasks_in};
ghost use Rattle.ibis_build.specs.Causes.{AreAllSound, AreSound, BuildGives, BuildKeeps, BuildPuts, HasIndexes, HasPartIndexes, IsIndexName, IsPartIndex, RefusesBy, StopsIn, stop_of_build};
ghost use Rattle.ibis_build.specs.Columns.{can_have_index_at};
ghost use Rattle.ibis_build.specs.Leaves.{LeavesBuilt, LeavesTasks};
ghost use Rattle.ibis_build.specs.Looks.{IsBuildLook, IsLookAmong};

use crate::columns::{bad_spec, chosen_columns};
use dataset::Dataset;
use fb_outside::{FileName, Store};
use fb_types::{Column, Label, Schema};
use index_build::{BuildFault, build};
use index_spec::{Spec, SpecFault, parse_spec};
use part_meta::PartMeta;
use statuses::{LimitKind, Status, Unanswered, damaged, opened};
use std::alloc::Global;
use std::sync::ledger::Ledger;
use steps::Steps;

/// Builds indexes by the specification that `text` spells: part by part of the dataset at the path, and in each the columns
/// that `list` names, in its order, or without a list all that can have an index, in the schema's order. An index that is
/// there is replaced. Answers how many were built. A refused or failed build leaves those before it.
pub fn build_indexes<S: Store, L: Ledger>(
    alloc: Global,
    dir: &FileName,
    text: &Label,
    list: &Option<Label>,
    store: &mut S,
    steps: &mut Steps<L>,
) -> Result<u64, Unanswered>
    requires path { IsPath dir.now }
    requires text { IsUtf8 text.now }
    ensures cause { HasCause (S.faults store.old) (S.faults store.new) (IsErrOf result Unanswered.StoreFault) }
    ensures reads { AddsOnly (IsBuildLook dir.now list.now) (S.reads store.old) (S.reads store.new) }

    // The answer is the definition's, over what the path has, or a damaged or overfull column of those that are asked for; it is
    // done only where no file of these is damaged.
    ensures gives { BuildGives dir.now text.now list.now (S.files store.old) result }

    // Only the indexes of these columns change, and none where the request is refused before it builds. Where it is done, each
    // column whose files have rows has the index of these in each part.
    ensures kept { BuildKeeps dir.now text.now list.now (S.files store.old) (S.files store.new) }
    ensures puts { OnOk result (BuildPuts dir.now text.now list.now (S.files store.old) (S.files store.new)) }

    // Where the files stand for a world, they stand for the world after the definition's effects, or after a front of them if it stopped.
    ensures stands { (world : World) → StandsFor (S.files store.old) world
        → LeavesBuilt (build_outcome dir.now text.now list.now world) world result (S.files store.new) }

    // The store is asked where the specification isn't refused.
    ensures asks_store { IsErrOf result Unanswered.StoreFault → is_ok (spec_of text.now) ≡ true }
{
    let spec = spec_from(alloc, text)?;
    let dataset = opened(alloc, store, dir)?;
    let cols = chosen_columns(alloc, &dataset.schema, list)?;
    build_parts(alloc, store, &dataset, &cols, &spec, steps)?;
    Ok(index_count(&dataset, &cols))
}

/// How many indexes these columns have in all parts of the dataset.
fn index_count(dataset: &Dataset, cols: &[usize]) -> u64
    requires valid { IsDataset dataset.now }
    requires few { length cols.now ≤ 255 }
    ensures { result ≡ length dataset.now.parts * length cols.now }
{
    let parts = dataset.parts.as_slice();
    parts.len() as u64 * cols.len() as u64
}

/// The specification that the text spells.
fn spec_from(alloc: Global, text: &Label) -> Result<Spec, Unanswered>
    requires { IsUtf8 text.now }
    ensures ok { IfOk result (λ spec. spec_of text.now ≡ Ok spec) }
    ensures given { IfOk result IsGiven }
    ensures stop { IfErr result (RefusesBy (spec_or_refusal (spec_of text.now))) }
{
    let Ok(text) = str::from_utf8(text.bytes()) else {
        unreachable!()
    };
    match parse_spec(alloc, text) {
        Ok(spec) => Ok(spec),
        Err(SpecFault::Bad { kind }) => Err(bad_spec(kind)),
        Err(SpecFault::OutOfMemory) => Err(Unanswered::OutOfMemory),
    }
}

/// Builds the indexes of these columns in each part of the dataset.
fn build_parts<S: Store, L: Ledger>(
    alloc: Global,
    store: &mut S,
    dataset: &Dataset,
    cols: &[usize],
    spec: &Spec,
    steps: &mut Steps<L>,
) -> Result<(), Unanswered>
    requires valid { IsDataset dataset.now }
    requires cols { All (λ col. can_have_index_at dataset.now.schema col ≡ true) cols.now }
    requires given { IsGiven spec.now }
    ensures cause { HasCause (S.faults store.old) (S.faults store.new) (IsErrOf result Unanswered.StoreFault) }
    ensures reads { AddsOnly (IsLookAmong dataset.now cols.now) (S.reads store.old) (S.reads store.new) }
    ensures stop { IfErr result (StopsIn (S.files store.old) dataset.now (record { spec = spec.now; cols = cols.now })) }
    ensures kept { ChangesAmong (IsIndexName dataset.now cols.now) (S.files store.old) (S.files store.new) }
    ensures puts { OnOk result (HasIndexes (S.files store.old) dataset.now (record { spec = spec.now; cols = cols.now }) (S.files store.new)) }
    ensures sound { OnOk result (AreAllSound (S.files store.old) dataset.now cols.now) }
    ensures stands { (world : World) (content : Content) → StandsFor (S.files store.old) world
        → content_at world dataset.now.dir ≡ Some content → dataset.now ≡ dataset_in dataset.now.dir content
        → LeavesTasks dataset.now.dir spec.now world (tasks_in spec.now content.schema cols.now content.parts) result (S.files store.new) }
{
    for part in dataset.parts.as_slice() {
        build_part(alloc, store, dataset, part, cols, spec, steps)?;
    }
    Ok(())
}

/// The same in one part.
fn build_part<S: Store, L: Ledger>(
    alloc: Global,
    store: &mut S,
    dataset: &Dataset,
    part: &PartMeta,
    cols: &[usize],
    spec: &Spec,
    steps: &mut Steps<L>,
) -> Result<(), Unanswered>
    requires valid { IsDataset dataset.now }
    requires listed { (place : ℕ) × (slice_get dataset.now.parts place ≡ Some part.now) }
    requires cols { All (λ col. can_have_index_at dataset.now.schema col ≡ true) cols.now }
    requires given { IsGiven spec.now }
    ensures cause { HasCause (S.faults store.old) (S.faults store.new) (IsErrOf result Unanswered.StoreFault) }
    ensures reads { AddsOnly (IsLookAmong dataset.now cols.now) (S.reads store.old) (S.reads store.new) }
    ensures stop { IfErr result (StopsIn (S.files store.old) dataset.now (record { spec = spec.now; cols = cols.now })) }
    ensures kept { ChangesAmong (IsPartIndex dataset.now part.now cols.now) (S.files store.old) (S.files store.new) }
    ensures puts { OnOk result (HasPartIndexes (S.files store.old) dataset.now part.now (record { spec = spec.now; cols = cols.now })
        (S.files store.new)) }
    ensures sound { OnOk result (AreSound (S.files store.old) dataset.now part.now cols.now) }
    ensures stands { (world : World) (content : Content) (place : ℕ) (p : Partition) → StandsFor (S.files store.old) world
        → content_at world dataset.now.dir ≡ Some content → slice_get content.parts place ≡ Some p
        → content.schema ≡ dataset.now.schema → part.now ≡ part_data content.schema p
        → LeavesTasks dataset.now.dir spec.now world (part_tasks spec.now content.schema cols.now p) result (S.files store.new) }
{
    for col in cols {
        build_column(alloc, store, dataset, part, *col, spec, steps)?;
    }
    Ok(())
}

/// The same of one column.
fn build_column<S: Store, L: Ledger>(
    alloc: Global,
    store: &mut S,
    dataset: &Dataset,
    part: &PartMeta,
    col: usize,
    spec: &Spec,
    steps: &mut Steps<L>,
) -> Result<(), Unanswered>
    requires valid { IsDataset dataset.now }
    requires listed { (place : ℕ) × (slice_get dataset.now.parts place ≡ Some part.now) }
    requires can { can_have_index_at dataset.now.schema col ≡ true }
    requires given { IsGiven spec.now }
    ensures cause { HasCause (S.faults store.old) (S.faults store.new) (IsErrOf result Unanswered.StoreFault) }
    ensures reads { AddsOnly (IsLookAmong dataset.now (col ∷ [])) (S.reads store.old) (S.reads store.new) }
    ensures stop { IfErr result (StopsIn (S.files store.old) dataset.now (record { spec = spec.now; cols = col ∷ [] })) }
    ensures kept { ChangesAmong (IsPartIndex dataset.now part.now (col ∷ [])) (S.files store.old) (S.files store.new) }
    ensures puts { OnOk result (HasPartIndexes (S.files store.old) dataset.now part.now (record { spec = spec.now; cols = col ∷ [] })
        (S.files store.new)) }
    ensures sound { OnOk result (AreSound (S.files store.old) dataset.now part.now (col ∷ [])) }
    ensures stands { (world : World) (content : Content) (place : ℕ) (p : Partition) → StandsFor (S.files store.old) world
        → content_at world dataset.now.dir ≡ Some content → slice_get content.parts place ≡ Some p
        → content.schema ≡ dataset.now.schema → part.now ≡ part_data content.schema p
        → LeavesTasks dataset.now.dir spec.now world (part_tasks spec.now content.schema (col ∷ []) p) result (S.files store.new) }
{
    let Some(column) = column_at(&dataset.schema, col) else {
        unreachable!()
    };
    match build(alloc, store, dataset, part, column, spec, steps) {
        Ok(_) => Ok(()),
        Err(fault) => Err(stop_of_build(fault)),
    }
}

/// The column at a place of the schema.
fn column_at<'a>(schema: &'a Schema, col: usize) -> Option<&'a Column>
    ensures { option_copied result ≡ slice_get schema.now col }
{
    schema.columns().get(col)
}

/// The answer to an index that isn't built.
fn stop_of_build(fault: BuildFault) -> Unanswered
    ensures { result ≡ stop_of_build fault }
{
    match fault {
        BuildFault::Damaged {
            file,
            kind,
            want,
            have,
        } => damaged(file, kind, want, have),
        BuildFault::TooManyBins { bins, limit } => Unanswered::Refused(Status::Limit {
            what: LimitKind::Bins,
            number: u64::from(bins),
            limit: u64::from(limit),
        }),
        BuildFault::Store => Unanswered::StoreFault,
        BuildFault::OutOfMemory => Unanswered::OutOfMemory,
    }
}
