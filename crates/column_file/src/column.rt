//! A column of a partition, opened: its values are read by rows.

ghost use Rattle.std.specs.Prelude.{◌≡◌, ◌+◌, ◌*◌, ◌<◌, ◌≤◌, ◌≤ℤ◌, ℕ, ℤ, Bool, List, All, Ok, Some, IfErr, IfOk, IfSome, IsErrOf, IsSome, OnErr, OnOk, drop, length, take};
ghost use Rattle.fb_outside.specs.Causes.{HasCause};
ghost use Rattle.fb_outside.specs.Files.{SameFiles, bytes_at, file_at, told_at};
ghost use Rattle.fb_outside.specs.Reads.{AddsOnly, AddsRead, IsWholeLook, whole_look};
ghost use Rattle.fb_types.specs.Types.{width_of};
ghost use Rattle.wah_words.specs.Bytes.{spelling};
ghost use Rattle.answers.specs.Answers.{Answers};
ghost use Rattle.column_file.specs.Opening.{IsOfMask, StopsMask, StopsOpening, column_in, mask_in, opened_mask, told_by_files};
ghost use Rattle.column_file.specs.Rows.{ReadsRows, StopsReading, rows_in};
ghost use Rattle.column_file.specs.Values.{ValueFits, values_bytes, width_in};

use crate::fault::ColFault;
use crate::masks::open_mask;
use crate::values::numbers_of_bytes;
use fb_outside::{FileName, Store};
use fb_types::ColType;
use std::alloc::Global;
use wah_words::Wah;

/// The most rows that one call reads.
pub const MAX_ROWS_READ: usize = 4096;

/// So few rows are read through a small buffer: single candidates are the common case of a selective question.
const FEW_ROWS: usize = 16;

/// The bytes of so many rows of the widest type, which has 8.
const FEW_BYTES: usize = 128;

const MOST_BYTES: usize = 32_768;

/// A column whose values file has the length that its rows and its type ask for.
#[derive(Drop)]
pub struct ColumnRef {
    pub name: FileName,
    pub ty: ColType,
    pub rows: u32,
    pub mask: Wah,
}

/// Answers told_by_files a column with so many rows: asks how long its values file is, and reads its mask file.
pub fn open_column<S: Store>(
    alloc: Global,
    store: &mut S,
    name: &FileName,
    mask_name: &FileName,
    ty: ColType,
    rows: u32,
) -> Result<ColumnRef, ColFault>
    requires width { IsSome (width_of ty) }
    ensures cause { HasCause (S.faults store.old) (S.faults store.new) (IsErrOf result ColFault.Store) }
    ensures opened { IfOk result (λ column. (column.name ≡ name.now) × (column.ty ≡ ty) × (column.rows ≡ rows) × (length column.mask ≡ rows)) }
    ensures stop { IfErr result (StopsOpening (width_in ty) rows) }

    // The two files are those of such a column, or have a first fault.
    ensures exact { IfSome (S.files store.old) (λ m. Answers told_by_files (opened_mask result) (column_in (width_in ty) rows (file_at m name.now) (file_at m mask_name.now))) }
    ensures files { SameFiles (S.files store.old) (S.files store.new) }
    ensures reads { AddsOnly (IsWholeLook (S.files store.old) mask_name.now) (S.reads store.old) (S.reads store.new) }
    ensures once { OnOk result (IfSome (S.files store.old) (λ m. AddsRead (Some m) (S.reads store.old) (S.reads store.new) (whole_look m mask_name.now))) }
    ensures refused_once { IfErr result (λ fault. IsOfMask fault → IfSome (S.files store.old) (λ m. AddsRead (Some m) (S.reads store.old) (S.reads store.new) (whole_look m mask_name.now))) }
{
    let want = u64::from(rows) * number_width(ty) as u64;
    match store.len(name.as_str()) {
        Ok(Some(have)) if have == want => with_mask(alloc, store, name, mask_name, ty, rows),
        Ok(Some(have)) => Err(ColFault::WrongLength { want, have }),
        Ok(None) => Err(ColFault::Missing),
        Err(_) => Err(ColFault::Store),
    }
}

/// The column, its values file being as long as it has to be.
fn with_mask<S: Store>(
    alloc: Global,
    store: &mut S,
    name: &FileName,
    mask_name: &FileName,
    ty: ColType,
    rows: u32,
) -> Result<ColumnRef, ColFault>
    ensures cause { HasCause (S.faults store.old) (S.faults store.new) (IsErrOf result ColFault.Store) }
    ensures opened { IfOk result (λ column. (column.name ≡ name.now) × (column.ty ≡ ty) × (column.rows ≡ rows) × (length column.mask ≡ rows)) }
    ensures stop { IfErr result (StopsMask rows) }
    ensures exact { IfSome (S.files store.old) (λ m. Answers told_by_files (opened_mask result) (mask_in rows (file_at m mask_name.now))) }
    ensures files { SameFiles (S.files store.old) (S.files store.new) }
    ensures reads { AddsOnly (IsWholeLook (S.files store.old) mask_name.now) (S.reads store.old) (S.reads store.new) }
    ensures once { OnOk result (IfSome (S.files store.old) (λ m. AddsRead (Some m) (S.reads store.old) (S.reads store.new) (whole_look m mask_name.now))) }
    ensures refused_once { IfErr result (λ fault. IsOfMask fault → IfSome (S.files store.old) (λ m. AddsRead (Some m) (S.reads store.old) (S.reads store.new) (whole_look m mask_name.now))) }
{
    let mask = match open_mask(alloc, store, mask_name, rows) {
        Ok(mask) => mask,
        Err(fault) => return Err(fault),
    };
    match name.copy(alloc) {
        Ok(name) => Ok(ColumnRef {
            name,
            ty,
            rows,
            mask,
        }),
        Err(_) => Err(ColFault::OutOfMemory),
    }
}

/// Reads the values of as many rows as `out` has places, from the row `first` on, by one read of just their bytes. What
/// a row without a value has is what stands in the file. After an Err, `out` may hold anything.
pub fn read_rows<S: Store>(
    store: &mut S,
    column: &ColumnRef,
    first: u32,
    out: &mut [i128],
) -> Result<(), ColFault>
    requires width { IsSome (width_of column.now.ty) }
    requires rows { first + length out.old ≤ column.now.rows }
    requires few { length out.old ≤ 4096 }
    ensures cause { HasCause (S.faults store.old) (S.faults store.new) (IsErrOf result ColFault.Store) }
    ensures stop { IfErr result (StopsReading (length out.old * width_in column.now.ty)) }

    // The rows are those whose bytes stand there, or some of the bytes are missing.
    ensures exact { IfSome (S.files store.old) (λ m. ReadsRows result out.new (rows_in column.now.ty (length out.old)
        (bytes_at m column.now.name (first * width_in column.now.ty) (length out.old * width_in column.now.ty)))) }

    // Over a file of the right length no bytes are missing, and over the bytes of values the rows are those values.
    ensures whole { (bytes : List ℕ) → told_at (S.files store.old) column.now.name ≡ Some bytes → length bytes ≡ column.now.rows * width_in column.now.ty
        → OnErr result (IsErrOf result ColFault.Store) }
    ensures rows { (values : List ℤ) → told_at (S.files store.old) column.now.name ≡ Some (values_bytes column.now.ty values)
        → All (λ value. ValueFits value column.now.ty) values → OnOk result (out.new ≡ take (length out.old) (drop first values)) }
    ensures fit { OnOk result (All (λ value. ValueFits value column.now.ty) out.new) }
    ensures files { SameFiles (S.files store.old) (S.files store.new) }
    ensures reads { AddsRead (S.files store.old) (S.reads store.old) (S.reads store.new)
        (record { name = column.now.name; offset = first * width_in column.now.ty; room = length out.old * width_in column.now.ty }) }
{
    if out.len() <= FEW_ROWS {
        read_through::<FEW_BYTES, S>(store, column, first, out)
    } else {
        read_through::<MOST_BYTES, S>(store, column, first, out)
    }
}

/// The same, through a buffer of N bytes, which is cleared first: so few rows take a small one.
fn read_through<const N: usize, S: Store>(
    store: &mut S,
    column: &ColumnRef,
    first: u32,
    out: &mut [i128],
) -> Result<(), ColFault>
    requires width { IsSome (width_of column.now.ty) }
    requires rows { first + length out.old ≤ column.now.rows }
    requires room { length out.old * 8 ≤ N }
    requires small { N ≤ 32768 }
    ensures cause { HasCause (S.faults store.old) (S.faults store.new) (IsErrOf result ColFault.Store) }
    ensures stop { IfErr result (StopsReading (length out.old * width_in column.now.ty)) }
    ensures exact { IfSome (S.files store.old) (λ m. ReadsRows result out.new (rows_in column.now.ty (length out.old)
        (bytes_at m column.now.name (first * width_in column.now.ty) (length out.old * width_in column.now.ty)))) }
    ensures whole { (bytes : List ℕ) → told_at (S.files store.old) column.now.name ≡ Some bytes → length bytes ≡ column.now.rows * width_in column.now.ty
        → OnErr result (IsErrOf result ColFault.Store) }
    ensures rows { (values : List ℤ) → told_at (S.files store.old) column.now.name ≡ Some (values_bytes column.now.ty values)
        → All (λ value. ValueFits value column.now.ty) values → OnOk result (out.new ≡ take (length out.old) (drop first values)) }
    ensures fit { OnOk result (All (λ value. ValueFits value column.now.ty) out.new) }
    ensures files { SameFiles (S.files store.old) (S.files store.new) }
    ensures reads { AddsRead (S.files store.old) (S.reads store.old) (S.reads store.new)
        (record { name = column.now.name; offset = first * width_in column.now.ty; room = length out.old * width_in column.now.ty }) }
{
    let want = out.len() * number_width(column.ty);
    let mut buffer = [0; N];
    read_by(store, column, first, out, &mut buffer[..want])
}

/// The same, through a buffer of the bytes that the rows have.
fn read_by<S: Store>(
    store: &mut S,
    column: &ColumnRef,
    first: u32,
    out: &mut [i128],
    buffer: &mut [u8],
) -> Result<(), ColFault>
    requires width { IsSome (width_of column.now.ty) }
    requires rows { first + length out.old ≤ column.now.rows }
    requires buffer { length buffer.old ≡ length out.old * width_in column.now.ty }
    ensures cause { HasCause (S.faults store.old) (S.faults store.new) (IsErrOf result ColFault.Store) }
    ensures stop { IfErr result (StopsReading (length out.old * width_in column.now.ty)) }
    ensures exact { IfSome (S.files store.old) (λ m. ReadsRows result out.new (rows_in column.now.ty (length out.old)
        (bytes_at m column.now.name (first * width_in column.now.ty) (length out.old * width_in column.now.ty)))) }
    ensures whole { (bytes : List ℕ) → told_at (S.files store.old) column.now.name ≡ Some bytes → length bytes ≡ column.now.rows * width_in column.now.ty
        → OnErr result (IsErrOf result ColFault.Store) }
    ensures rows { (values : List ℤ) → told_at (S.files store.old) column.now.name ≡ Some (values_bytes column.now.ty values)
        → All (λ value. ValueFits value column.now.ty) values → OnOk result (out.new ≡ take (length out.old) (drop first values)) }
    ensures fit { OnOk result (All (λ value. ValueFits value column.now.ty) out.new) }
    ensures files { SameFiles (S.files store.old) (S.files store.new) }
    ensures reads { AddsRead (S.files store.old) (S.reads store.old) (S.reads store.new)
        (record { name = column.now.name; offset = first * width_in column.now.ty; room = length out.old * width_in column.now.ty }) }
{
    let want = buffer.len();
    let at = u64::from(first) * number_width(column.ty) as u64;
    match store.read_at(column.name.as_str(), at, buffer) {
        Ok(have) if have == want => {
            numbers_of_bytes(column.ty, buffer, out);
            Ok(())
        }
        Ok(have) => Err(ColFault::WrongLength {
            want: want as u64,
            have: have as u64,
        }),
        Err(_) => Err(ColFault::Store),
    }
}

/// The bytes that a number of the type takes.
fn number_width(ty: ColType) -> usize
    requires { IsSome (width_of ty) }
    ensures width { result ≡ width_in ty }
    ensures some { (0 < result) × (result ≤ 8) }
{
    match ty.width() {
        Some(width) => width as usize,
        None => unreachable!(),
    }
}
