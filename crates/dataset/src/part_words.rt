//! Dictionaries of a part's categories, opened for reading.

ghost use Rattle.std.specs.Prelude.{◌≡◌, ◌<◌, IfErr, IfSome, IsErrOf, OnOk};
ghost use Rattle.fb_outside.specs.Causes.{HasCause};
ghost use Rattle.fb_outside.specs.Files.{SameFiles};
ghost use Rattle.fb_outside.specs.Names.{IsPath};
ghost use Rattle.fb_outside.specs.Reads.{AddsOnly, AddsRead, IsWholeLook, whole_look};
ghost use Rattle.dataset.specs.PartColumns.{IfDamaged, OpensDictionary, words_fault, words_file};

use crate::content::Dataset;
use crate::fault::{DamageKind, PartFault};
use fb_outside::{FileName, Store};
use fb_types::Column;
use part_meta::{FileKind, PartMeta, file_of};
use std::alloc::Global;
use text_column::{DicFault, Dictionary, open_dictionary};

/// Opens the dictionary of a category in a part of the dataset: reads its file, whole.
pub fn open_part_dictionary<S: Store>(
    alloc: Global,
    store: &mut S,
    dataset: &Dataset,
    part: &PartMeta,
    column: &Column,
) -> Result<Dictionary, PartFault>
    requires path { IsPath dataset.now.dir }
    requires number { part.now.number < 4096 }
    ensures cause { HasCause (S.faults store.old) (S.faults store.new) (IsErrOf result PartFault.Store) }

    // The file is a dictionary, or has a first fault, which is a damage of that file.
    ensures exact { IfSome (S.files store.old) (λ m. OpensDictionary m dataset.now part.now column.now result) }
    ensures named { IfErr result (λ fault. IfDamaged fault (λ found. found.file ≡ words_file dataset.now part.now column.now)) }
    ensures files { SameFiles (S.files store.old) (S.files store.new) }
    ensures reads { AddsOnly (IsWholeLook (S.files store.old) (words_file dataset.now part.now column.now)) (S.reads store.old) (S.reads store.new) }
    ensures once { OnOk result (IfSome (S.files store.old)
        (λ m. AddsRead (Some m) (S.reads store.old) (S.reads store.new) (whole_look m (words_file dataset.now part.now column.now)))) }
{
    let words = file_of(
        alloc,
        &dataset.dir,
        part.number,
        Some(&column.name),
        FileKind::Words,
    )?;
    match open_dictionary(alloc, store, &words) {
        Ok(dictionary) => Ok(dictionary),
        Err(fault) => Err(dictionary_damage(words, fault)),
    }
}

/// What a fault of the dictionary in this file says of it.
fn dictionary_damage(words: FileName, fault: DicFault) -> PartFault
    ensures { result ≡ words_fault words fault }
{
    match fault {
        DicFault::Missing => damaged(words, DamageKind::Missing),
        DicFault::Short
        | DicFault::TooMany
        | DicFault::Empty(_)
        | DicFault::Repeated(_)
        | DicFault::Trailing => damaged(words, DamageKind::Words),
        DicFault::Store => PartFault::Store,
        DicFault::OutOfMemory => PartFault::OutOfMemory,
    }
}

fn damaged(file: FileName, kind: DamageKind) -> PartFault
    ensures { result ≡ PartFault.Damaged file kind 0 0 }
{
    PartFault::Damaged {
        file,
        kind,
        want: 0,
        have: 0,
    }
}
