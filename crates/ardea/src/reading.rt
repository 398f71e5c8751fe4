//! The table of a load: its schema, its text and its records.

ghost use Rattle.std.specs.Prelude.{◌≡◌, ◌≤◌, ⊤, true, false, None, Ok, Err, IfErr, IfOk, IsErrOf, IsSome, IsUtf8, OnOk, is_ok};
ghost use Rattle.fb_outside.specs.Causes.{HasCause};
ghost use Rattle.fb_outside.specs.Files.{SameFiles};
ghost use Rattle.fb_outside.specs.Streams.{ForSomeInput, IsAtEnd};
ghost use Rattle.fb_outside.specs.Reads.{AddsOnly};
ghost use Rattle.csv_load.specs.Loaded.{loaded};
ghost use Rattle.ardea.specs.Answers.{GivesFile, GivesInput, GivesTable, GivesText, StopsBy};
ghost use Rattle.part_meta.specs.PartText.{most_rows};
ghost use Rattle.ardea.specs.Load.{load_schema, most_input_bytes, records_or_refusal};
ghost use Rattle.ardea.specs.Looks.{IsInputLook};
ghost use Rattle.ardea.specs.Order.{load_takes_input};

use crate::{MOST_INPUT_BYTES, MOST_ROWS};
use command_words::Load;
use csv_load::{FileFault, InputFault, RecordFault, read_file, read_input, records};
use dataset::DamageKind;
use fb_outside::{FileName, Source, Store};
use fb_types::{Columns, MetaFault, Schema, parse_schema};
use statuses::{LimitKind, Status, Stop};
use std::alloc::Global;

/// The table of a load, which is refused before the store is looked at for a dataset.
pub(crate) fn table_of<I: Source, S: Store>(
    alloc: Global,
    load: &Load,
    input: &mut I,
    store: &mut S,
) -> Result<Columns, Stop>
    requires { IsUtf8 load.now.schema }
    ensures read_cause { HasCause (I.faults input.old) (I.faults input.new) (IsErrOf result Stop.ReadFault) }
    ensures store_cause { HasCause (S.faults store.old) (S.faults store.new) (IsErrOf result Stop.StoreFault) }
    ensures files { SameFiles (S.files store.old) (S.files store.new) }
    ensures reads { AddsOnly (IsInputLook load.now.file) (S.reads store.old) (S.reads store.new) }
    ensures end { load.now.file ≡ None → OnOk result (IsAtEnd (I.left input.new)) }
    ensures table { IfOk result (λ table. GivesTable load.now (I.left input.old) (S.files store.old) (Ok table)) }
    ensures few { OnOk result (load.now.per_part ≤ most_rows) }
    ensures stop { IfErr result (StopsBy
        (λ status. GivesTable load.now (I.left input.old) (S.files store.old) (Err status))
        (load_takes_input load.now ≡ true) (IsSome load.now.file × (is_ok (load_schema load.now) ≡ true))) }
    ensures untouched { load_takes_input load.now ≡ false
        → (I.left input.new ≡ I.left input.old) × (I.faults input.new ≡ I.faults input.old) }
{
    let schema = schema_of(alloc, load)?;
    let text = text_of(alloc, load, input, store)?;
    records_of(alloc, text.as_slice(), &schema, load.skip)
}

/// The schema that the load's text spells, where the rows of a part are few enough.
fn schema_of(alloc: Global, load: &Load) -> Result<Schema, Stop>
    requires { IsUtf8 load.now.schema }
    ensures ok { IfOk result (λ schema. load_schema load.now ≡ Ok schema) }
    ensures few { OnOk result (load.now.per_part ≤ most_rows) }
    ensures stop { IfErr result (StopsBy (λ status. load_schema load.now ≡ Err status) ⊥ ⊥) }
{
    let Ok(text) = str::from_utf8(load.schema.bytes()) else {
        unreachable!()
    };
    match parse_schema(alloc, text) {
        Ok(_) if load.per_part > MOST_ROWS => Err(over(LimitKind::Rows, load.per_part, MOST_ROWS)),
        Ok(schema) => Ok(schema),
        Err(MetaFault::Bad { column, kind }) => {
            Err(Stop::Refused(Status::BadSchema { column, kind }))
        }
        Err(MetaFault::OutOfMemory) => Err(Stop::OutOfMemory),
    }
}

pub(crate) fn over(what: LimitKind, number: u64, limit: u64) -> Stop
    ensures { result ≡ Stop.Refused (Status.Limit what number limit) }
{
    Stop::Refused(Status::Limit {
        what,
        number,
        limit,
    })
}

/// The bytes of the file that the load names, else of the input.
fn text_of<I: Source, S: Store>(
    alloc: Global,
    load: &Load,
    input: &mut I,
    store: &mut S,
) -> Result<Vec<u8>, Stop>
    ensures read_cause { HasCause (I.faults input.old) (I.faults input.new) (IsErrOf result Stop.ReadFault) }
    ensures store_cause { HasCause (S.faults store.old) (S.faults store.new) (IsErrOf result Stop.StoreFault) }
    ensures files { SameFiles (S.files store.old) (S.files store.new) }
    ensures reads { AddsOnly (IsInputLook load.now.file) (S.reads store.old) (S.reads store.new) }
    ensures end { load.now.file ≡ None → OnOk result (IsAtEnd (I.left input.new)) }
    ensures text { IfOk result (λ text. GivesText load.now (I.left input.old) (S.files store.old) (Ok text.items)) }
    ensures stop { IfErr result (StopsBy
        (λ status. GivesText load.now (I.left input.old) (S.files store.old) (Err status))
        (load.now.file ≡ None) (IsSome load.now.file)) }
    ensures untouched { IsSome load.now.file
        → (I.left input.new ≡ I.left input.old) × (I.faults input.new ≡ I.faults input.old) }
{
    match &load.file {
        None => text_of_input(alloc, input),
        Some(name) => text_of_file(alloc, name, store),
    }
}

fn text_of_input<I: Source>(alloc: Global, input: &mut I) -> Result<Vec<u8>, Stop>
    ensures cause { HasCause (I.faults input.old) (I.faults input.new) (IsErrOf result Stop.ReadFault) }
    ensures end { OnOk result (IsAtEnd (I.left input.new)) }
    ensures text { IfOk result (λ text. GivesInput (I.left input.old) (Ok text.items)) }
    ensures stop { IfErr result (StopsBy (λ status. GivesInput (I.left input.old) (Err status)) ⊤ ⊥) }
{
    match read_input(alloc, input, MOST_INPUT_BYTES) {
        Ok(bytes) => Ok(bytes),
        Err(InputFault::TooLong { limit }) => Err(over(LimitKind::Input, limit + 1, limit)),
        Err(InputFault::ReadFault) => Err(Stop::ReadFault),
        Err(InputFault::OutOfMemory) => Err(Stop::OutOfMemory),
    }
}

fn text_of_file<S: Store>(alloc: Global, name: &FileName, store: &mut S) -> Result<Vec<u8>, Stop>
    ensures cause { HasCause (S.faults store.old) (S.faults store.new) (IsErrOf result Stop.StoreFault) }
    ensures files { SameFiles (S.files store.old) (S.files store.new) }
    ensures reads { AddsOnly (λ look. look.name ≡ name.now) (S.reads store.old) (S.reads store.new) }
    ensures text { IfOk result (λ text. GivesFile name.now (S.files store.old) (Ok text.items)) }
    ensures stop { IfErr result (StopsBy (λ status. GivesFile name.now (S.files store.old) (Err status)) ⊥ ⊤) }
{
    match read_file(alloc, store, name, MOST_INPUT_BYTES) {
        Ok(bytes) => Ok(bytes),
        Err(FileFault::Missing) => {
            let file = name.copy(alloc)?;
            Err(Stop::Refused(Status::NoDataset { file }))
        }
        Err(FileFault::TooLong { have, limit }) => Err(over(LimitKind::Input, have, limit)),
        Err(FileFault::Short) => {
            let file = name.copy(alloc)?;
            Err(Stop::Refused(Status::Damaged {
                file,
                kind: DamageKind::Length,
                want: 0,
                have: 0,
            }))
        }
        Err(FileFault::Store) => Err(Stop::StoreFault),
        Err(FileFault::OutOfMemory) => Err(Stop::OutOfMemory),
    }
}

/// The records of the text, without the first `skip`.
fn records_of(alloc: Global, text: &[u8], schema: &Schema, skip: u64) -> Result<Columns, Stop>
    ensures schema { IfOk result (λ columns. columns.schema ≡ schema.now) }
    ensures records { IfOk result (λ columns. loaded text.now schema.now skip ≡ Ok columns.records) }
    ensures stop { IfErr result (StopsBy
        (λ status. records_or_refusal (loaded text.now schema.now skip) ≡ Err status) ⊥ ⊥) }
{
    match records(alloc, text, schema, skip) {
        Ok(columns) => Ok(columns),
        Err(
            RecordFault::Bad {
                number,
                field,
                kind,
            },
        ) => {
            Err(Stop::Refused(Status::BadInput {
                number,
                field,
                kind,
            }))
        }
        Err(RecordFault::OutOfMemory) => Err(Stop::OutOfMemory),
    }
}
