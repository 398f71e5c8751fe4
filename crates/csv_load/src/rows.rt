//! A reader over a byte slice, seen as the records that it has still to give.
ghost use Rattle.std.specs.Prelude.{◌≡◌, [], ◌∷◌, true, if◌then◌else◌, drop, IfOk};
ghost use Rattle.csv.specs.Reading.{error_kind, stops_reader};
ghost use Rattle.csv.specs.Records.{fields_of};
ghost use Rattle.csv_load.specs.Loaded.{text_records};
ghost use Rattle.csv_load.specs.RowsLeft.{IsPlain, rows_left};

use csv::{ByteRecord, Error, Reader, ReaderBuilder};
use std::alloc::{AllocError, Global};

/// A reader of the records of `bytes`: no header, commas, double quotes, records of any lengths.
pub(crate) fn reader_over(alloc: Global, bytes: &[u8]) -> Reader<&[u8]>
    ensures plain { IsPlain result }
    ensures all { rows_left result ≡ text_records bytes.now }
{
    ReaderBuilder::new()
        .has_headers(false)
        .flexible(true)
        .from_reader(alloc, bytes)
}

/// Reads the next record into `row`, and answers whether there was one.
pub(crate) fn next_row(rdr: &mut Reader<&[u8]>, row: &mut ByteRecord) -> Result<bool, AllocError>
    requires { IsPlain rdr.old }
    ensures plain { IfOk result (λ found. found ≡ true → IsPlain rdr.new) }
    ensures row { IfOk result (λ found. rows_left rdr.old ≡ (if found then fields_of row.new ∷ rows_left rdr.new else [])) }
{
    match rdr.read_byte_record(row) {
        Ok(found) => Ok(found),
        Err(error) => Err(want_of_memory(error)),
    }
}

// With lengths free and no text asked for, only memory can fail a read of a slice. That the slice itself fails isn't
// ruled out by the contract of `Read`, and counts as want of memory.
fn want_of_memory(_error: Error) -> AllocError
    requires { stops_reader (error_kind _error) ≡ true }
{
    AllocError
}

/// Reads past the next `count` records, and answers whether there were that many.
pub(crate) fn skip_rows(
    alloc: Global,
    rdr: &mut Reader<&[u8]>,
    count: u64,
) -> Result<bool, AllocError>
    requires { IsPlain rdr.old }
    ensures plain { IfOk result (λ more. more ≡ true → IsPlain rdr.new) }
    ensures rows { IfOk result (λ more. drop count (rows_left rdr.old) ≡ (if more then rows_left rdr.new else [])) }
{
    let mut row = ByteRecord::new(alloc);
    for _ in 0..count {
        if !next_row(rdr, &mut row)? {
            return Ok(false);
        }
    }
    Ok(true)
}
