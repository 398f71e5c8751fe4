//! The index of a column of a part, built.

ghost use Rattle.std.specs.Prelude.{◌≡◌, ◌≢◌, ◌<◌, ◌≤◌, ℕ, ℤ, Bool, List, Ok, Some, IfErr, IsErrOf, IsSome, length, slice_get};
ghost use Rattle.fb_outside.specs.Causes.{HasCause};
ghost use Rattle.fb_outside.specs.Files.{ChangesOnly, Files, SameFiles};
ghost use Rattle.fb_outside.specs.Names.{IsPath};
ghost use Rattle.fb_outside.specs.Reads.{AddsOnly};
ghost use Rattle.fb_types.specs.Types.{width_of};
ghost use Rattle.index_spec.specs.Language.{IsGiven};
ghost use Rattle.part_meta.specs.FileNames.{index_name};
ghost use Rattle.part_meta.specs.PartText.{most_rows};
ghost use Rattle.world.specs.Effects.{Builds, after_one};
ghost use Rattle.world.specs.IndexFiles.{index_of};
ghost use Rattle.world.specs.PartFiles.{part_data};
ghost use Rattle.world.specs.Stands.{StandsFor};
ghost use Rattle.world.specs.World.{Partition, World};
ghost use Rattle.dataset.specs.Damage.{Damage, IsDamagedAt};
ghost use Rattle.dataset.specs.InWorld.{IsColumnOf};
ghost use Rattle.index_build.specs.Build.{AnswersOver, HasRows, IsColumnLook, IsShort, LeavesIndex, StopsColumn, StopsIn, TellsDamage, bin_count, fault_of_part};
ghost use Rattle.index_build.specs.Built.{StandsAfter};
ghost use Rattle.index_build.specs.Index.{HasNumbers};

use crate::fault::BuildFault;
use crate::gathering::column_bins;
use crate::opening::open_numbers;
use crate::reading::ReadFault;
use crate::writing::{Built, write_bins};
use column_file::ColumnRef;
use dataset::{DamageKind, Dataset, PartFault};
use fb_outside::{FileName, Store};
use fb_types::Column;
use index_spec::Spec;
use part_meta::{FileKind, PartMeta, file_of};
use std::alloc::Global;
use std::sync::ledger::Ledger;
use steps::Steps;

/// Builds the index of a column of a part by a specification, in place of one that is there: opens the column, reads a
/// category's dictionary, reads the column by blocks of at most 4,096 rows, and puts the index file as its last call. A
/// category's numbers are the codes of its words.
pub fn build<S: Store, L: Ledger>(
    alloc: Global,
    store: &mut S,
    dataset: &Dataset,
    part: &PartMeta,
    column: &Column,
    spec: &Spec,
    steps: &mut Steps<L>,
) -> Result<Built, BuildFault>
    requires path { IsPath dataset.now.dir }
    requires number { part.now.number < 4096 }
    requires rows { part.now.rows ≤ most_rows }
    requires listed { (place : ℕ) × (slice_get dataset.now.parts place ≡ Some part.now) }
    requires in_schema { (col : ℕ) × (slice_get dataset.now.schema col ≡ Some column.now) }
    requires width { IsSome (width_of column.now.ty) }
    requires given { IsGiven spec.now }
    ensures cause { HasCause (S.faults store.old) (S.faults store.new) (IsErrOf result BuildFault.Store) }

    // Where the files of the column have these rows, the index file is that of these by the specification, whatever was there.
    ensures leaves { (m : Files) (mask : List Bool) (numbers : List ℤ) → S.files store.old ≡ Some m
        → HasRows m dataset.now.dir part.now column.now mask numbers
        → LeavesIndex spec.now.encoding (bin_count spec.now mask numbers)
        (index_name dataset.now.dir part.now.number column.now.name) (index_of spec.now mask numbers)
        result (S.files store.old) (S.files store.new) }
    ensures answer { (m : Files) (mask : List Bool) (numbers : List ℤ) → S.files store.old ≡ Some m
        → HasRows m dataset.now.dir part.now column.now mask numbers
        → AnswersOver spec.now.encoding (bin_count spec.now mask numbers) result }

    // Where one of them is damaged, the first damage is told: of the values and the mask, and behind them of a category's dictionary.
    ensures damaged { (m : Files) (damage : Damage) → S.files store.old ≡ Some m
        → IsDamagedAt m dataset.now.dir part.now column.now damage → TellsDamage damage result }

    // Where they stand for a world with that column, they stand for the world after the build, or for that before if it stopped.
    ensures stands { (world : World) (p : Partition) (col : ℕ) → StandsFor (S.files store.old) world
        → IsColumnOf world dataset.now.dir p col column.now → part.now ≡ part_data dataset.now.schema p
        → StandsAfter result (S.files store.new) world
        (after_one world (Builds dataset.now.dir p.number col spec.now)) }

    // Over every store only that file changes, and none where the index isn't built.
    ensures kept { ChangesOnly (index_name dataset.now.dir part.now.number column.now.name) (S.files store.old) (S.files store.new) }
    ensures refused { IfErr result (λ fault. fault ≢ BuildFault.Store → SameFiles (S.files store.old) (S.files store.new)) }
    ensures stop { IfErr result (StopsIn (S.files store.old) dataset.now column.now.name) }
    ensures reads { AddsOnly (IsColumnLook dataset.now.dir column.now) (S.reads store.old) (S.reads store.new) }
{
    let found = match open_numbers(alloc, store, dataset, part, column) {
        Ok(found) => found,
        Err(fault) => return Err(fault_of_part(fault)),
    };
    let name = file_of(
        alloc,
        &dataset.dir,
        part.number,
        Some(&column.name),
        FileKind::Index,
    )?;
    build_column(alloc, store, &name, &found, spec, steps)
}

/// What a part's column that isn't opened is answered by.
fn fault_of_part(fault: PartFault) -> BuildFault
    ensures { result ≡ fault_of_part fault }
{
    match fault {
        PartFault::Damaged {
            file,
            kind,
            want,
            have,
        } => BuildFault::Damaged {
            file,
            kind,
            want,
            have,
        },
        PartFault::Store => BuildFault::Store,
        PartFault::OutOfMemory => BuildFault::OutOfMemory,
    }
}

/// Builds the index of an opened column, under a name.
fn build_column<S: Store, L: Ledger>(
    alloc: Global,
    store: &mut S,
    name: &FileName,
    column: &ColumnRef,
    spec: &Spec,
    steps: &mut Steps<L>,
) -> Result<Built, BuildFault>
    requires given { IsGiven spec.now }
    requires width { IsSome (width_of column.now.ty) }
    requires mask { length column.now.mask ≡ column.now.rows }
    requires few { column.now.rows ≤ most_rows }
    ensures cause { HasCause (S.faults store.old) (S.faults store.new) (IsErrOf result BuildFault.Store) }
    ensures leaves { (numbers : List ℤ) → HasNumbers (S.files store.old) column.now numbers
        → LeavesIndex spec.now.encoding (bin_count spec.now column.now.mask numbers) name.now
        (index_of spec.now column.now.mask numbers) result (S.files store.old) (S.files store.new) }
    ensures answer { (numbers : List ℤ) → HasNumbers (S.files store.old) column.now numbers
        → AnswersOver spec.now.encoding (bin_count spec.now column.now.mask numbers) result }
    ensures kept { ChangesOnly name.now (S.files store.old) (S.files store.new) }
    ensures refused { IfErr result (λ fault. fault ≢ BuildFault.Store → SameFiles (S.files store.old) (S.files store.new)) }
    ensures stop { IfErr result (StopsColumn (S.files store.old) column.now spec.now) }
    ensures reads { AddsOnly (λ look. look.name ≡ column.now.name) (S.reads store.old) (S.reads store.new) }
{
    let bins = match column_bins(alloc, store, column, spec, steps) {
        Ok(bins) => bins,
        Err(ReadFault::Short { want, have }) => return short(alloc, column, want, have),
        Err(ReadFault::Store) => return Err(BuildFault::Store),
        Err(ReadFault::OutOfMemory) => return Err(BuildFault::OutOfMemory),
    };
    write_bins(alloc, store, name, spec, &bins, column.rows, steps)
}

/// Fewer bytes of the values file came than it was told to have.
fn short(alloc: Global, column: &ColumnRef, want: u64, have: u64) -> Result<Built, BuildFault>
    ensures stop { IfErr result (IsShort column.now.name want have) }
    ensures never { (built : Built) → result ≢ Ok built }
{
    let file = column.name.copy(alloc)?;
    Err(BuildFault::Damaged {
        file,
        kind: DamageKind::Length,
        want,
        have,
    })
}
