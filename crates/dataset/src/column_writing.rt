//! The files of one column of a part.

ghost use Rattle.std.specs.Prelude.{◌≡◌, ◌≢◌, [], ◌∷◌, All, IfErr, IsErrOf, IsNone, IsSome, map};
ghost use Rattle.fb_outside.specs.Causes.{HasCause};
ghost use Rattle.fb_outside.specs.Puts.{PutsInOrder};
ghost use Rattle.fb_types.specs.Types.{ends_of, width_of};
ghost use Rattle.fb_types.specs.declared.types.ColType.TheVariants.{Category, Text};
ghost use Rattle.column_file.specs.Opening.{StopsWriting};
ghost use Rattle.column_file.specs.Values.{ValueFits, values_bytes};
ghost use Rattle.part_meta.specs.declared.names.FileKind.TheVariants as file;
ghost use Rattle.wah_words.specs.Bytes.{spelling};
ghost use Rattle.world.specs.PartFiles.{category_files, column_files, text_files, whole_files};
ghost use Rattle.world.specs.Cells.{is_present};
ghost use Rattle.dataset.specs.WrittenColumns.{file_in, files_in};
ghost use Rattle.dataset.specs.Stops.{IsSameTrouble};

use crate::gathering::{codes_of, mask_of, numbers_of, texts_of};
use crate::part_column::PartColumn;
use column_file::{ColFault, write_column, write_mask};
use fb_outside::{FileName, Store, Trouble};
use fb_types::ColType;
use part_meta::{FileKind, file_of};
use std::alloc::Global;
use std::sync::ledger::Ledger;
use steps::Steps;
use wah_words::Wah;

/// Writes the files of the column, in their order.
pub(crate) fn write_column_files<S: Store, L: Ledger>(
    alloc: Global,
    store: &mut S,
    part: &PartColumn<'_>,
    steps: &mut Steps<L>,
) -> Result<(), Trouble>
    ensures cause { HasCause (S.faults store.old) (S.faults store.new) (IsErrOf result Trouble.Failed) }
    ensures files { PutsInOrder (column_files part.now.dir part.now.number part.now.column part.now.cells) result
        (S.files store.old) (S.files store.new) }
    ensures reads { S.reads store.new ≡ S.reads store.old }
{
    match part.column.ty {
        ColType::Category => write_category(alloc, store, part, steps),
        ColType::Text => write_text(alloc, store, part, steps),
        _ => write_whole(alloc, store, part, steps),
    }
}

fn write_whole<S: Store, L: Ledger>(
    alloc: Global,
    store: &mut S,
    part: &PartColumn<'_>,
    steps: &mut Steps<L>,
) -> Result<(), Trouble>
    requires { IsSome (ends_of part.now.column.ty) }
    ensures cause { HasCause (S.faults store.old) (S.faults store.new) (IsErrOf result Trouble.Failed) }
    ensures files { PutsInOrder (files_in part.now (whole_files part.now.column.ty part.now.cells)) result (S.files store.old) (S.files store.new) }
    ensures reads { S.reads store.new ≡ S.reads store.old }
{
    let numbers = numbers_of(alloc, part)?;
    put_numbers(alloc, store, part, &numbers)?;
    put_mask(alloc, store, part, steps)
}

fn write_category<S: Store, L: Ledger>(
    alloc: Global,
    store: &mut S,
    part: &PartColumn<'_>,
    steps: &mut Steps<L>,
) -> Result<(), Trouble>
    requires { part.now.column.ty ≡ Category }
    ensures cause { HasCause (S.faults store.old) (S.faults store.new) (IsErrOf result Trouble.Failed) }
    ensures files { PutsInOrder (files_in part.now (category_files part.now.cells)) result (S.files store.old) (S.files store.new) }
    ensures reads { S.reads store.new ≡ S.reads store.old }
{
    let (codes, words) = codes_of(alloc, part)?;
    let words = words.to_bytes(alloc)?;
    put_numbers(alloc, store, part, &codes)?;
    put_mask(alloc, store, part, steps)?;
    put_bytes(alloc, store, part, FileKind::Words, &words)
}

fn write_text<S: Store, L: Ledger>(
    alloc: Global,
    store: &mut S,
    part: &PartColumn<'_>,
    steps: &mut Steps<L>,
) -> Result<(), Trouble>
    requires { part.now.column.ty ≡ Text }
    ensures cause { HasCause (S.faults store.old) (S.faults store.new) (IsErrOf result Trouble.Failed) }
    ensures files { PutsInOrder (files_in part.now (text_files part.now.cells)) result (S.files store.old) (S.files store.new) }
    ensures reads { S.reads store.new ≡ S.reads store.old }
{
    let (text, starts) = texts_of(alloc, part)?.finish();
    put_bytes(alloc, store, part, FileKind::Values, &text)?;
    put_mask(alloc, store, part, steps)?;
    put_bytes(alloc, store, part, FileKind::Starts, &starts)
}

// ---- single files

fn put_numbers<S: Store>(
    alloc: Global,
    store: &mut S,
    part: &PartColumn<'_>,
    numbers: &[i128],
) -> Result<(), Trouble>
    requires width { IsSome (width_of part.now.column.ty) }
    requires fit { All (λ number. ValueFits number part.now.column.ty) numbers.now }
    ensures cause { HasCause (S.faults store.old) (S.faults store.new) (IsErrOf result Trouble.Failed) }
    ensures files { PutsInOrder (file_in part.now file.Values (values_bytes part.now.column.ty numbers.now) ∷ []) result
        (S.files store.old) (S.files store.new) }
    ensures reads { S.reads store.new ≡ S.reads store.old }
{
    let column = part.column;
    let name = file_of(
        alloc,
        part.dir,
        part.number,
        Some(&column.name),
        FileKind::Values,
    )?;
    put_values(alloc, store, &name, column.ty, numbers)
}

#[tactic(auto, using(crate::proofs::FileLemmas::column_stopped))]
fn put_values<S: Store>(
    alloc: Global,
    store: &mut S,
    name: &FileName,
    ty: ColType,
    numbers: &[i128],
) -> Result<(), Trouble>
    requires width { IsSome (width_of ty) }
    requires fit { All (λ number. ValueFits number ty) numbers.now }
    ensures cause { HasCause (S.faults store.old) (S.faults store.new) (IsErrOf result Trouble.Failed) }
    ensures files { PutsInOrder (record { name = name.now; bytes = values_bytes ty numbers.now } ∷ []) result (S.files store.old) (S.files store.new) }
    ensures reads { S.reads store.new ≡ S.reads store.old }
{
    match write_column(alloc, store, name, ty, numbers) {
        Ok(()) => Ok(()),
        Err(fault) => Err(trouble_of(fault)),
    }
}

fn put_mask<S: Store, L: Ledger>(
    alloc: Global,
    store: &mut S,
    part: &PartColumn<'_>,
    steps: &mut Steps<L>,
) -> Result<(), Trouble>
    ensures cause { HasCause (S.faults store.old) (S.faults store.new) (IsErrOf result Trouble.Failed) }
    ensures files { PutsInOrder (file_in part.now file.Mask (spelling (map is_present part.now.cells)) ∷ []) result
        (S.files store.old) (S.files store.new) }
    ensures reads { S.reads store.new ≡ S.reads store.old }
{
    let mask = mask_of(alloc, part)?;
    let name = file_of(
        alloc,
        part.dir,
        part.number,
        Some(&part.column.name),
        FileKind::Mask,
    )?;
    put_vector(alloc, store, &name, &mask, steps)
}

#[tactic(auto, using(crate::proofs::FileLemmas::column_stopped))]
fn put_vector<S: Store, L: Ledger>(
    alloc: Global,
    store: &mut S,
    name: &FileName,
    mask: &Wah,
    steps: &mut Steps<L>,
) -> Result<(), Trouble>
    ensures cause { HasCause (S.faults store.old) (S.faults store.new) (IsErrOf result Trouble.Failed) }
    ensures files { PutsInOrder (record { name = name.now; bytes = spelling mask.now } ∷ []) result (S.files store.old) (S.files store.new) }
    ensures reads { S.reads store.new ≡ S.reads store.old }
{
    match write_mask(alloc, store, name, mask, steps) {
        Ok(()) => Ok(()),
        Err(fault) => Err(trouble_of(fault)),
    }
}

fn put_bytes<S: Store>(
    alloc: Global,
    store: &mut S,
    part: &PartColumn<'_>,
    kind: FileKind,
    bytes: &[u8],
) -> Result<(), Trouble>
    requires { kind ≢ file.PartText }
    ensures cause { HasCause (S.faults store.old) (S.faults store.new) (IsErrOf result Trouble.Failed) }
    ensures files { PutsInOrder (file_in part.now kind bytes.now ∷ []) result (S.files store.old) (S.files store.new) }
    ensures reads { S.reads store.new ≡ S.reads store.old }
{
    let name = file_of(alloc, part.dir, part.number, Some(&part.column.name), kind)?;
    put_file(store, &name, bytes)
}

pub(crate) fn put_file<S: Store>(
    store: &mut S,
    name: &FileName,
    bytes: &[u8],
) -> Result<(), Trouble>
    ensures cause { HasCause (S.faults store.old) (S.faults store.new) (IsErrOf result Trouble.Failed) }
    ensures files { PutsInOrder (record { name = name.now; bytes = bytes.now } ∷ []) result (S.files store.old) (S.files store.new) }
    ensures reads { S.reads store.new ≡ S.reads store.old }
{
    store.put(name.as_str(), bytes)
}

/// What a writer of a column's file answered.
fn trouble_of(fault: ColFault) -> Trouble
    requires { StopsWriting fault }
    ensures { IsSameTrouble fault result }
{
    match fault {
        ColFault::Store => Trouble::Failed,
        ColFault::OutOfMemory => Trouble::OutOfMemory,
        _ => unreachable!(),
    }
}
