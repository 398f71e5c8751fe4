ghost use Rattle.std.specs.Prelude.{◌≡◌, ◌^◌, ◌+◌, ◌<◌, ◌≤◌, Ok, IfOk, IfErr, length, map};
ghost use Rattle.csv_load.specs.Answers.{IsRecordFault, at_number};
ghost use Rattle.csv_load.specs.Law.{IsFirstFault, each_record};
ghost use Rattle.csv_load.specs.Loaded.{loaded, loaded_from};
ghost use Rattle.csv_load.specs.RowsLeft.{IsPlain, rows_left};
ghost use Rattle.csv_load.specs.declared.load.RecordFault.TheVariants as at_record;

use crate::fields::{FieldFault, RecordKind, cells_of};
use crate::rows::{next_row, reader_over, skip_rows};
use csv::{ByteRecord, Reader};
use fb_types::{Columns, Schema};
use std::alloc::{AllocError, Global};
use thiserror::Error;

/// Why a text isn't loaded. Records and fields count from 1 in the whole text, records that are skipped too.
#[derive(Debug, Drop, Error)]
pub enum RecordFault {
    #[error("record {number} field {field}: {kind:?}")]
    Bad {
        number: u64,
        field: u32,
        kind: RecordKind,
    },
    #[error("out of memory")]
    OutOfMemory,
}

impl From<AllocError> for RecordFault {
    ghost from_gives = { λ _ fault. fault ≡ at_record.OutOfMemory };

    fn from(_error: AllocError) -> RecordFault {
        RecordFault::OutOfMemory
    }
}

/// The records of a CSV text, without the first `skip`, under a schema: no header, fields parted by commas and
/// quoted by double quotes, one for each column. The dropped records may be anything.
pub fn records(
    alloc: Global,
    bytes: &[u8],
    schema: &Schema,
    skip: u64,
) -> Result<Columns, RecordFault>
    ensures schema { IfOk result (λ columns. columns.schema ≡ schema.now) }
    ensures records { IfOk result (λ columns. loaded bytes.now schema.now skip ≡ Ok columns.records) }
    ensures fault { IfErr result (λ fault. IsRecordFault fault (loaded bytes.now schema.now skip)) }

    // The same without the definition: none is lost or moved, and the fault is the first.
    ensures each { IfOk result (λ columns. each_record bytes.now schema.now skip ≡ map Ok columns.records) }
    ensures first { IfErr result (λ fault. IsFirstFault fault bytes.now schema.now skip) }
{
    let mut rdr = reader_over(alloc, bytes);
    if !skip_rows(alloc, &mut rdr, skip)? {
        return Ok(Columns::make(alloc, schema)?);
    }
    load_rows(alloc, &mut rdr, schema, skip)
}

// The rest of the records, of which the first has the number after `skipped`.
fn load_rows(
    alloc: Global,
    rdr: &mut Reader<&[u8]>,
    schema: &Schema,
    skipped: u64,
) -> Result<Columns, RecordFault>
    requires plain { IsPlain rdr.old }
    requires fits { 0 < length (rows_left rdr.old) → skipped + length (rows_left rdr.old) < 2 ^ 64 }
    ensures schema { IfOk result (λ columns. columns.schema ≡ schema.now) }
    ensures records { IfOk result (λ columns. loaded_from (skipped + 1) schema.now (rows_left rdr.old) ≡ Ok columns.records) }
    ensures fault { IfErr result (λ fault. IsRecordFault fault (loaded_from (skipped + 1) schema.now (rows_left rdr.old))) }
{
    let mut columns = Columns::make(alloc, schema)?;
    let mut row = ByteRecord::new(alloc);
    let mut number = skipped;
    while next_row(rdr, &mut row)? {
        number += 1;
        match cells_of(alloc, schema.columns(), &row) {
            Ok(cells) => columns.push(cells)?,
            Err(fault) => return Err(in_record(fault, number)),
        }
    }
    Ok(columns)
}

// The fault of a field, as that of the record of that number.
fn in_record(fault: FieldFault, number: u64) -> RecordFault
    ensures { result ≡ at_number number fault }
{
    match fault {
        FieldFault::Bad { field, kind } => RecordFault::Bad {
            number,
            field,
            kind,
        },
        FieldFault::OutOfMemory => RecordFault::OutOfMemory,
    }
}
