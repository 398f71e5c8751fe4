//! A column of numbers in a part, opened for its index.

ghost use Rattle.std.specs.Prelude.{◌≡◌, ◌<◌, IfOk, IfSome, IsErrOf, IsSome};
ghost use Rattle.fb_outside.specs.Causes.{HasCause};
ghost use Rattle.fb_outside.specs.Files.{SameFiles};
ghost use Rattle.fb_outside.specs.Names.{IsPath};
ghost use Rattle.fb_outside.specs.Reads.{AddsOnly};
ghost use Rattle.fb_types.specs.Types.{width_of};
ghost use Rattle.dataset.specs.PartColumns.{IsOpened};
ghost use Rattle.index_build.specs.Build.{IsColumnLook, OpensNumbers, ReadsWords};

use column_file::ColumnRef;
use dataset::{Dataset, PartFault, open_part_column, open_part_dictionary};
use fb_outside::Store;
use fb_types::{ColType, Column};
use part_meta::PartMeta;
use std::alloc::Global;

/// Opens a column of a width in a part. A category's dictionary is read, too, so that no index is built of codes without
/// words.
pub(crate) fn open_numbers<S: Store>(
    alloc: Global,
    store: &mut S,
    dataset: &Dataset,
    part: &PartMeta,
    column: &Column,
) -> Result<ColumnRef, PartFault>
    requires path { IsPath dataset.now.dir }
    requires number { part.now.number < 4096 }
    requires width { IsSome (width_of column.now.ty) }
    ensures cause { HasCause (S.faults store.old) (S.faults store.new) (IsErrOf result PartFault.Store) }
    ensures opened { IfOk result (IsOpened dataset.now part.now column.now) }

    // The column's files have no damage, or the one that is answered is the first.
    ensures exact { IfSome (S.files store.old) (λ m. OpensNumbers m dataset.now part.now column.now result) }
    ensures files { SameFiles (S.files store.old) (S.files store.new) }
    ensures reads { AddsOnly (IsColumnLook dataset.now.dir column.now) (S.reads store.old) (S.reads store.new) }
{
    let found = open_part_column(alloc, store, dataset, part, column)?;
    read_words(alloc, store, dataset, part, column)?;
    Ok(found)
}

/// Reads the dictionary of a category.
fn read_words<S: Store>(
    alloc: Global,
    store: &mut S,
    dataset: &Dataset,
    part: &PartMeta,
    column: &Column,
) -> Result<(), PartFault>
    requires path { IsPath dataset.now.dir }
    requires number { part.now.number < 4096 }
    ensures cause { HasCause (S.faults store.old) (S.faults store.new) (IsErrOf result PartFault.Store) }
    ensures exact { IfSome (S.files store.old) (λ m. ReadsWords m dataset.now part.now column.now result) }
    ensures files { SameFiles (S.files store.old) (S.files store.new) }
    ensures reads { AddsOnly (IsColumnLook dataset.now.dir column.now) (S.reads store.old) (S.reads store.new) }
{
    match column.ty {
        ColType::Category => match open_part_dictionary(alloc, store, dataset, part, column) {
            Ok(_) => Ok(()),
            Err(fault) => Err(fault),
        },
        _ => Ok(()),
    }
}
