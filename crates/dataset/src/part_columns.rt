//! Columns of a part, opened for reading.

ghost use Rattle.std.specs.Prelude.{◌≡◌, ◌<◌, ℕ, Some, IfErr, IfOk, IfSome, IsErrOf, IsSome, OnOk, slice_get};
ghost use Rattle.fb_outside.specs.Causes.{HasCause};
ghost use Rattle.fb_outside.specs.Files.{SameFiles};
ghost use Rattle.fb_outside.specs.Names.{IsPath};
ghost use Rattle.fb_outside.specs.Reads.{AddsOnly, AddsRead, IsWholeLook, whole_look};
ghost use Rattle.fb_types.specs.Types.{width_of};
ghost use Rattle.dataset.specs.Damage.{IsColumnDamaged};
ghost use Rattle.dataset.specs.PartColumns.{IfDamaged, IsOfColumn, IsOpened, OpensColumn, mask_file, part_fault};

use crate::content::Dataset;
use crate::fault::{DamageKind, PartFault};
use column_file::{ColFault, ColumnRef, open_column};
use fb_outside::{FileName, Store};
use fb_types::Column;
use part_meta::{FileKind, PartMeta, file_of};
use std::alloc::Global;

/// Opens a column of a width in a part of the dataset: asks how long its values file is, and reads its mask file.
pub fn open_part_column<S: Store>(
    alloc: Global,
    store: &mut S,
    dataset: &Dataset,
    part: &PartMeta,
    column: &Column,
) -> Result<ColumnRef, PartFault>
    requires path { IsPath dataset.now.dir }
    requires number { part.now.number < 4096 }
    requires width { IsSome (width_of column.now.ty) }
    ensures cause { HasCause (S.faults store.old) (S.faults store.new) (IsErrOf result PartFault.Store) }
    ensures opened { IfOk result (IsOpened dataset.now part.now column.now) }

    // The two files are those of such a column, or have a first damage, which is one of the dataset.
    ensures exact { IfSome (S.files store.old) (λ m. OpensColumn m dataset.now part.now column.now result) }
    ensures damaged { IfSome (S.files store.old) (λ m. (place col : ℕ) → slice_get dataset.now.parts place ≡ Some part.now
        → slice_get dataset.now.schema col ≡ Some column.now
        → IfErr result (λ fault. IfDamaged fault (IsColumnDamaged m dataset.now column.now.name))) }
    ensures named { IfErr result (λ fault. IfDamaged fault (IsOfColumn dataset.now part.now column.now)) }
    ensures files { SameFiles (S.files store.old) (S.files store.new) }
    ensures reads { AddsOnly (IsWholeLook (S.files store.old) (mask_file dataset.now part.now column.now)) (S.reads store.old) (S.reads store.new) }
    ensures once { OnOk result (IfSome (S.files store.old)
        (λ m. AddsRead (Some m) (S.reads store.old) (S.reads store.new) (whole_look m (mask_file dataset.now part.now column.now)))) }
{
    let values = file_of(
        alloc,
        &dataset.dir,
        part.number,
        Some(&column.name),
        FileKind::Values,
    )?;
    let mask = file_of(
        alloc,
        &dataset.dir,
        part.number,
        Some(&column.name),
        FileKind::Mask,
    )?;
    match open_column(alloc, store, &values, &mask, column.ty, part.rows) {
        Ok(column) => Ok(column),
        Err(fault) => Err(column_damage(values, mask, fault)),
    }
}

/// What a fault of the column with these files says of them.
pub fn column_damage(values: FileName, mask: FileName, fault: ColFault) -> PartFault
    ensures { result ≡ part_fault values mask fault }
{
    match fault {
        ColFault::Missing => damaged(values, DamageKind::Missing, 0, 0),
        ColFault::WrongLength { want, have } => damaged(values, DamageKind::Length, want, have),
        ColFault::MaskMissing => damaged(mask, DamageKind::Missing, 0, 0),
        ColFault::Mask(_) | ColFault::MaskTrailing => damaged(mask, DamageKind::Mask, 0, 0),
        ColFault::MaskLength { want, have } => {
            damaged(mask, DamageKind::Mask, u64::from(want), u64::from(have))
        }
        ColFault::Store => PartFault::Store,
        ColFault::OutOfMemory => PartFault::OutOfMemory,
    }
}

fn damaged(file: FileName, kind: DamageKind, want: u64, have: u64) -> PartFault
    ensures { result ≡ PartFault.Damaged file kind want have }
{
    PartFault::Damaged {
        file,
        kind,
        want,
        have,
    }
}
