//! Indexes of a part's columns, opened for reading.

ghost use Rattle.std.specs.Prelude.{◌≡◌, ◌<◌, IfErr, IfOk, IfSome, IsErrOf, slice_index};
ghost use Rattle.fb_outside.specs.Causes.{HasCause};
ghost use Rattle.fb_outside.specs.Files.{SameFiles, bytes_at};
ghost use Rattle.fb_outside.specs.Names.{IsPath};
ghost use Rattle.fb_outside.specs.Reads.{AddsOnly};
ghost use Rattle.index_spec.specs.Printed.{printed};
ghost use Rattle.index_file.specs.IndexFile.{head_bytes};
ghost use Rattle.index_file.specs.Opening.{EndsBy, IsHeadLook};
ghost use Rattle.dataset.specs.PartColumns.{IfDamaged};
ghost use Rattle.dataset.specs.PartIndexes.{IsOfIndex, IsOpenedIndex, OpensIndex, index_file, index_part_fault};

use crate::content::Dataset;
use crate::fault::{DamageKind, PartFault};
use fb_outside::{FileName, Store};
use fb_types::Column;
use index_file::{IndexFault, IndexHead, open_index};
use part_meta::{FileKind, PartMeta, file_of};
use std::alloc::Global;

/// Opens the index of a column in a part of the dataset by the head of its file; None where there is no such file.
pub fn open_part_index<S: Store>(
    alloc: Global,
    store: &mut S,
    dataset: &Dataset,
    part: &PartMeta,
    column: &Column,
) -> Result<Option<IndexHead>, PartFault>
    requires path { IsPath dataset.now.dir }
    requires number { part.now.number < 4096 }
    ensures cause { HasCause (S.faults store.old) (S.faults store.new) (IsErrOf result PartFault.Store) }
    ensures opened { IfOk result (λ index. IfSome index (IsOpenedIndex dataset.now part.now column.now)) }

    // The file's head is that of such an index, or has a first fault, which is a damage of that file.
    ensures exact { IfSome (S.files store.old) (λ m. OpensIndex m dataset.now part.now column.now result) }
    ensures named { IfErr result (λ fault. IfDamaged fault (IsOfIndex dataset.now part.now column.now)) }

    // A file that is opened begins with the head's bytes.
    ensures found { IfOk result (λ index. IfSome index (λ head. IfSome (S.files store.old) (λ m.
        bytes_at m (index_file dataset.now part.now column.now) 0 (slice_index head.offsets 0)
        ≡ head_bytes part.now.rows (printed head.spec) head.bins head.offsets))) }
    ensures files { SameFiles (S.files store.old) (S.files store.new) }

    // Each read ends within the first 24 bytes or the head whose length these give; where it opens, before the bitmaps.
    ensures reads { AddsOnly (IsHeadLook (S.files store.old) (index_file dataset.now part.now column.now)) (S.reads store.old) (S.reads store.new) }
    ensures before { IfOk result (λ index. IfSome index (λ head.
        AddsOnly (EndsBy (index_file dataset.now part.now column.now) (slice_index head.offsets 0)) (S.reads store.old) (S.reads store.new))) }
{
    let file = file_of(
        alloc,
        &dataset.dir,
        part.number,
        Some(&column.name),
        FileKind::Index,
    )?;
    match open_index(alloc, store, &file, part.rows) {
        Ok(index) => Ok(index),
        Err(fault) => Err(index_damage(file, fault)),
    }
}

/// What a fault of the index in this file says of it.
pub fn index_damage(file: FileName, fault: IndexFault) -> PartFault
    ensures { result ≡ index_part_fault file fault }
{
    match fault {
        IndexFault::Rows { want, have } => damaged(file, u64::from(want), u64::from(have)),
        IndexFault::Count { want, have } => damaged(file, want, have),
        IndexFault::Short
        | IndexFault::Magic
        | IndexFault::Version(_)
        | IndexFault::Spec
        | IndexFault::Order(_)
        | IndexFault::Offsets(_)
        | IndexFault::Bitmap(..)
        | IndexFault::BitmapTrailing(_)
        | IndexFault::BitmapLength(_) => damaged(file, 0, 0),
        IndexFault::Store => PartFault::Store,
        IndexFault::OutOfMemory => PartFault::OutOfMemory,
    }
}

fn damaged(file: FileName, want: u64, have: u64) -> PartFault
    ensures { result ≡ PartFault.Damaged file DamageKind.Index want have }
{
    PartFault::Damaged {
        file,
        kind: DamageKind::Index,
        want,
        have,
    }
}
