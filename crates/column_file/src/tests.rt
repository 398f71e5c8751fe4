ghost use Rattle.std.specs.Prelude.{◌≡◌, ◌<◌, ◌≤◌, IsSome, length};
ghost use Rattle.std.specs.List.{AllByRecursion};
ghost use Rattle.fb_types.specs.Types.{width_of};
ghost use Rattle.column_file.specs.Values.{ValueFits};

use crate::{ColFault, ColumnRef, open_column, open_mask, read_rows, write_column, write_mask};
use fb_outside::{FailAt, FileName, MemStore, ReadNote, Store};
use fb_types::ColType;
use std::alloc::Global;
use std::marker::Brand;
use std::process::Abort;
use std::sync::ledger::Ledger;
use std::test::Fail;
use steps::{Blank, Count, Steps};
use wah_words::{Wah, WordsFault};

const VALUES: &str = "D/p0000/a";

const MASK: &str = "D/p0000/a.msk";

/// The bits 101.
const FEW: &[u8] = &[3, 0, 0, 0, 0, 0, 0, 0, 5, 0, 0, 0];

fn named<R: Abort + AllocGlobal>(rt: &R, text: &str) -> FileName {
    match FileName::from_str(rt.alloc(), text) {
        Ok(Some(name)) => name,
        _ => rt.panic("no name"),
    }
}

fn memory<R: Abort + AllocGlobal>(rt: &R, fails: &[FailAt]) -> MemStore {
    match MemStore::make(rt.alloc(), fails, 9) {
        Ok(store) => store,
        Err(_) => rt.panic("out of memory"),
    }
}

fn put<R: Abort + AllocGlobal>(rt: &R, store: &mut MemStore, text: &str, bytes: &[u8]) {
    let name = named(rt, text);
    match store.put(name.as_str(), bytes) {
        Ok(()) => (),
        Err(_) => rt.panic("not put"),
    }
}

fn has_file(store: &MemStore, text: &str, bytes: &[u8]) -> bool {
    match store.file(text) {
        Some(found) => found == bytes,
        None => false,
    }
}

fn vector<R: Abort + AllocGlobal>(rt: &R, bytes: &[u8]) -> Wah {
    match Wah::from_bytes(rt.alloc(), bytes) {
        Ok((vector, _)) => vector,
        Err(_) => rt.panic("no vector"),
    }
}

/// Writes the values, compares the file's bytes, and reads the values back.
fn check_file<R: Abort + AllocGlobal>(rt: &R, ty: ColType, values: &[i128], want: &[u8])
    requires width { IsSome (width_of ty) }
    requires values { AllByRecursion (λ value. ValueFits value ty) values.now }
{
    let mut store = memory(rt, &[]);
    match write_column(rt.alloc(), &mut store, &named(rt, VALUES), ty, values) {
        Ok(()) => (),
        Err(_) => rt.panic("not written"),
    }
    assert!(rt; has_file(&store, VALUES, want));
    let column = ColumnRef {
        name: named(rt, VALUES),
        ty,
        rows: 3,
        mask: vector(rt, FEW),
    };
    let mut out = [0; 3];
    match read_rows(&mut store, &column, 0, &mut out) {
        Ok(()) => assert!(rt; out.as_slice() == values),
        Err(_) => rt.panic("not read"),
    }
}

#[test]
fn writes_each_type(rt: HostRuntime) -> Result<(), Fail> {
    check_file(&rt, ColType::Byte, &[-128, -1, 127], b"\x80\xff\x7f");
    check_file(&rt, ColType::UByte, &[0, 128, 255], b"\x00\x80\xff");
    check_file(
        &rt,
        ColType::Short,
        &[-32768, -2, 32767],
        b"\x00\x80\xfe\xff\xff\x7f",
    );
    check_file(
        &rt,
        ColType::UShort,
        &[0, 258, 65535],
        b"\x00\x00\x02\x01\xff\xff",
    );
    check_file(
        &rt,
        ColType::Int,
        &[-1, 0, 258],
        b"\xff\xff\xff\xff\x00\x00\x00\x00\x02\x01\x00\x00",
    );
    check_file(
        &rt,
        ColType::Int,
        &[-2147483648, 66051, 2147483647],
        b"\x00\x00\x00\x80\x03\x02\x01\x00\xff\xff\xff\x7f",
    );
    Ok(())
}

#[test]
fn writes_wide_types(rt: HostRuntime) -> Result<(), Fail> {
    check_file(
        &rt,
        ColType::UInt,
        &[0, 16909060, 4294967295],
        b"\x00\x00\x00\x00\x04\x03\x02\x01\xff\xff\xff\xff",
    );
    check_file(
        &rt,
        ColType::Category,
        &[0, 1, 4294967295],
        b"\x00\x00\x00\x00\x01\x00\x00\x00\xff\xff\xff\xff",
    );
    check_file(
        &rt,
        ColType::Long,
        &[-9223372036854775808, -256, 9223372036854775807],
        b"\x00\x00\x00\x00\x00\x00\x00\x80\x00\xff\xff\xff\xff\xff\xff\xff\xff\xff\xff\xff\xff\xff\xff\x7f",
    );
    check_file(
        &rt,
        ColType::ULong,
        &[0, 72623859790382856, 18446744073709551615],
        b"\x00\x00\x00\x00\x00\x00\x00\x00\x08\x07\x06\x05\x04\x03\x02\x01\xff\xff\xff\xff\xff\xff\xff\xff",
    );
    Ok(())
}

/// Writes the mask, by a counter of its own.
fn put_mask<L: Ledger>(
    blank: Blank,
    alloc: Global,
    store: &mut MemStore,
    name: &FileName,
    mask: &Wah,
) -> Result<(), ColFault>
    requires ledger { blank.name ≡ L.name }
    requires parts { blank.parts ≡ L.parts }
    requires some { 0 < blank.parts }
{
    let mut steps = Steps::<L>::new(blank);
    write_mask(alloc, store, name, mask, &mut steps)
}

#[test]
fn a_mask_is_its_vector(rt: HostRuntime) -> Result<(), Fail> {
    let mut store = memory(&rt, &[]);
    let mask = vector(&rt, FEW);
    let name = named(&rt, MASK);
    match put_mask::<Brand>(rt.blank(), rt.alloc(), &mut store, &name, &mask) {
        Ok(()) => (),
        Err(_) => rt.panic("not written"),
    }
    assert!(rt; has_file(&store, MASK, FEW));
    match open_mask(rt.alloc(), &mut store, &name, 3) {
        Ok(opened) => assert!(rt; opened.len() == 3 && opened.words() == 1),
        Err(_) => rt.panic("not opened"),
    }
    Ok(())
}

/// A table of the values -1, null and 258.
fn three_rows<R: Abort + AllocGlobal>(rt: &R, fails: &[FailAt]) -> MemStore {
    let mut store = memory(rt, fails);
    put(
        rt,
        &mut store,
        VALUES,
        b"\xff\xff\xff\xff\x00\x00\x00\x00\x02\x01\x00\x00",
    );
    put(rt, &mut store, MASK, FEW);
    store
}

/// Opens the column with so many rows.
fn opened<R: Abort + AllocGlobal>(
    rt: &R,
    store: &mut MemStore,
    rows: u32,
) -> Result<ColumnRef, ColFault> {
    let (name, mask) = (named(rt, VALUES), named(rt, MASK));
    open_column(rt.alloc(), store, &name, &mask, ColType::Int, rows)
}

fn check_fault<R: Abort, T: Drop>(rt: &R, found: Result<T, ColFault>, want: ColFault) {
    match found {
        Err(fault) => assert!(rt; fault == want),
        Ok(_) => rt.panic("no fault"),
    }
}

fn has_notes(found: Option<&[ReadNote]>, notes: &[ReadNote]) -> bool {
    match found {
        None => false,
        Some(found) => found == notes,
    }
}

#[test]
fn reads_just_the_rows_asked(rt: HostRuntime) -> Result<(), Fail> {
    let mut store = three_rows(&rt, &[]);
    let fault = ColFault::WrongLength { want: 16, have: 12 };
    check_fault(&rt, opened(&rt, &mut store, 4), fault);
    let column = match opened(&rt, &mut store, 3) {
        Ok(column) => column,
        Err(_) => rt.panic("not opened"),
    };
    let mut out = [0];
    if column.rows == 3 && column.ty == ColType::Int {
        match read_rows(&mut store, &column, 2, &mut out) {
            Ok(()) => assert!(rt; out == [258]),
            Err(_) => rt.panic("not read"),
        }
    }
    let notes = [(1, 0, 12), (0, 8, 4)].map(|(file, at, length)| ReadNote { file, at, length });
    assert!(rt; has_notes(store.reads(), &notes));
    Ok(())
}

/// The mask file with these bytes, for three rows, has this fault.
fn check_mask<R: Abort + AllocGlobal>(rt: &R, bytes: &[u8], want: ColFault) {
    let mut store = memory(rt, &[]);
    put(rt, &mut store, MASK, bytes);
    let found = open_mask(rt.alloc(), &mut store, &named(rt, MASK), 3);
    check_fault(rt, found, want);
}

#[test]
fn damaged_masks_are_refused(rt: HostRuntime) {
    let mut store = memory(&rt, &[]);
    let found = open_mask(rt.alloc(), &mut store, &named(&rt, MASK), 3);
    check_fault(&rt, found, ColFault::MaskMissing);
    let table: [(&[u8], ColFault); 9] = [
        (&[], ColFault::Mask(WordsFault::Short)),
        (&FEW[..11], ColFault::Mask(WordsFault::Short)),
        (
            &[1, 0, 0x40, 0, 0, 0, 0, 0],
            ColFault::Mask(WordsFault::TooLong),
        ),
        (
            &[3, 0, 0, 0, 1, 0, 0, 0],
            ColFault::Mask(WordsFault::Groups),
        ),
        (
            &[31, 0, 0, 0, 0, 0, 0, 0],
            ColFault::Mask(WordsFault::Groups),
        ),
        (
            &[3, 0, 0, 0, 0, 0, 0, 0, 8, 0, 0, 0],
            ColFault::Mask(WordsFault::NotCanonical(0)),
        ),
        (
            &[4, 0, 0, 0, 0, 0, 0, 0, 5, 0, 0, 0],
            ColFault::MaskLength { want: 3, have: 4 },
        ),
        (
            &[0, 0, 0, 0, 0, 0, 0, 0],
            ColFault::MaskLength { want: 3, have: 0 },
        ),
        // one byte too many, after a vector of another length
        (
            &[4, 0, 0, 0, 0, 0, 0, 0, 5, 0, 0, 0, 0],
            ColFault::MaskTrailing,
        ),
    ];
    for (bytes, fault) in table {
        check_mask(&rt, bytes, fault);
    }
}

#[test]
fn the_values_file_is_looked_at_first(rt: HostRuntime) {
    let mut store = memory(&rt, &[]);
    check_fault(&rt, opened(&rt, &mut store, 3), ColFault::Missing);
    put(&rt, &mut store, VALUES, b"0123456789ab");
    check_fault(&rt, opened(&rt, &mut store, 3), ColFault::MaskMissing);
    put(&rt, &mut store, MASK, b"");
    let fault = ColFault::WrongLength { want: 8, have: 12 };
    check_fault(&rt, opened(&rt, &mut store, 2), fault);
    let fault = ColFault::Mask(WordsFault::Short);
    check_fault(&rt, opened(&rt, &mut store, 3), fault);
}

#[test]
fn tells_a_failed_store(rt: HostRuntime) {
    let fails = [2, 4, 7, 11].map(|call| FailAt {
        call,
        keep_new: false,
    });
    let mut store = three_rows(&rt, &fails);
    for _ in 0..3 {
        check_fault(&rt, opened(&rt, &mut store, 3), ColFault::Store);
    }
    let column = match opened(&rt, &mut store, 3) {
        Ok(column) => column,
        Err(_) => rt.panic("not opened"),
    };
    let mut out = [0; 2];
    if column.rows == 3 && column.ty == ColType::Int {
        let read = read_rows(&mut store, &column, 1, &mut out);
        check_fault(&rt, read, ColFault::Store);
        put(&rt, &mut store, VALUES, b"123456");
        let read = read_rows(&mut store, &column, 1, &mut out);
        let fault = ColFault::WrongLength { want: 8, have: 2 };
        check_fault(&rt, read, fault);
    }
}
