ghost use Rattle.std.specs.Prelude.{◌<◌, length};

use crate::{FileFault, InputFault, RecordFault, RecordKind, read_file, read_input, records};
use fb_outside::{FailAt, Failed, FileName, MemSource, MemStore, Store, Trouble};
use fb_types::{Columns, parse_schema};
use std::alloc::{AllocError, Global};
use std::process::Abort;
use std::test::Fail;

fn bytes_of(alloc: Global, count: usize) -> Result<Vec<u8>, AllocError> {
    vec![in alloc; 55u8; count]
}

#[test]
fn reads_an_input_to_its_end(rt: HostRuntime) -> Result<(), Fail> {
    let alloc = rt.alloc();
    for (piece, limit) in [(1, 3), (2, 3), (3, 3), (9, 100)] {
        let mut source = MemSource::make(alloc, b"abc", piece, &[])?;
        let bytes = read_input(alloc, &mut source, limit)?;
        assert_eq!(rt;
            bytes.as_slice(),
            b"abc".as_slice(),
            "{piece} at a time, up to {limit}"
        );
    }
    let mut source = MemSource::make(alloc, b"", 1, &[])?;
    assert!(rt; read_input(alloc, &mut source, 0)?.is_empty());

    let long = bytes_of(alloc, 200_001)?;
    let mut source = MemSource::make(alloc, &long, 70_000, &[])?;
    let bytes = read_input(alloc, &mut source, 200_001)?;
    assert!(rt; bytes == long);
    Ok(())
}

#[test]
fn refuses_an_input(rt: HostRuntime) -> Result<(), Fail> {
    let alloc = rt.alloc();
    for (piece, limit) in [(2, 2), (1, 2), (3, 0), (3, 1)] {
        let mut source = MemSource::make(alloc, b"abc", piece, &[])?;
        let answer = read_input(alloc, &mut source, limit);
        assert!(rt;
            is_too_long(&answer, limit),
            "{piece} at a time, up to {limit}"
        );
    }
    // The call that fails, from 0; the fourth finds the end.
    for call in [0, 2, 3] {
        let mut source = MemSource::make(alloc, b"abc", 1, &[call])?;
        let answer = read_input(alloc, &mut source, 3);
        assert!(rt;
            matches!(answer, Err(InputFault::ReadFault)),
            "at call {call}"
        );
    }
    Ok(())
}

fn is_too_long(answer: &Result<Vec<u8>, InputFault>, at: u64) -> bool {
    match answer {
        Err(InputFault::TooLong { limit }) => *limit == at,
        _ => false,
    }
}

// The numbers of the first column that aren't null.
fn numbers_of(alloc: Global, columns: &Columns) -> Result<Vec<i128>, AllocError> {
    let mut numbers = Vec::new(alloc);
    for row in 0..columns.rows() {
        if let Some(number) = number_at(columns, row) {
            numbers.push(number)?;
        }
    }
    Ok(numbers)
}

fn number_at(columns: &Columns, row: u64) -> Option<i128>
    requires { row < length columns.now.records }
{
    match columns.schema().columns().first() {
        Some(column) if column.ty.ends().is_some() => columns.whole(row, 0),
        _ => None,
    }
}

#[test]
fn loads_records(rt: HostRuntime) -> Result<(), Fail> {
    let alloc = rt.alloc();
    let schema = parse_schema(alloc, "a:int")?;
    for (text, skip, numbers) in [
        ("1\n2\n3\n", 0, [1, 2, 3].as_slice()),
        ("1\n2\n3", 0, &[1, 2, 3]),
        ("", 0, &[]),
        ("\n\r\n\n", 0, &[]),
        ("1\r\n2\r\n", 0, &[1, 2]),
        ("1\r2", 0, &[1, 2]),
        ("\n1\n\n\n2\n", 0, &[1, 2]),
        ("\u{feff}7\n", 0, &[7]),
        ("\"1\"\n\"-2\"\n", 0, &[1, -2]),
        (" 1 \n\t+2\n\" 3\"\n", 0, &[1, 2, 3]),
        (
            "2147483647\n-2147483648\n",
            0,
            &[2_147_483_647, -2_147_483_648],
        ),
        ("a\n1\n", 1, &[1]),
        ("a,\"b\nc\",d\n\n4\n5\n", 1, &[4, 5]),
        ("1\n2\n", 2, &[]),
        ("x\n", 9, &[]),
        ("1\n", 18_446_744_073_709_551_615, &[]),
    ] {
        let columns = records(alloc, text.as_bytes(), &schema, skip)?;
        assert_eq!(rt; columns.rows(), numbers.len() as u64, "rows of {text:?}");
        assert_eq!(rt;
            numbers_of(alloc, &columns)?.as_slice(),
            numbers,
            "{text:?}"
        );
    }
    Ok(())
}

#[test]
fn blank_fields_are_null(rt: HostRuntime) -> Result<(), Fail> {
    let alloc = rt.alloc();
    let schema = parse_schema(alloc, "a:int")?;
    let columns = records(alloc, b"\"\"\n1\n \t\n", &schema, 0)?;
    assert_eq!(rt; columns.rows(), 3);
    assert_eq!(rt; numbers_of(alloc, &columns)?.as_slice(), [1].as_slice());
    Ok(())
}

#[test]
fn names_the_first_fault(rt: HostRuntime) -> Result<(), Fail> {
    let alloc = rt.alloc();
    let schema = parse_schema(alloc, "a:int")?;
    for (text, skip, number, field, kind) in [
        ("1\n1,2\n", 0, 2, 2, RecordKind::FieldCount),
        ("1,\n", 0, 1, 2, RecordKind::FieldCount),
        ("x,y,z\n", 0, 1, 2, RecordKind::FieldCount),
        ("1\n \nx\n", 0, 3, 1, RecordKind::NotWhole),
        ("x\n1,2\n", 0, 1, 1, RecordKind::NotWhole),
        ("1,2\nx\n", 0, 1, 2, RecordKind::FieldCount),
        ("1.0\n", 0, 1, 1, RecordKind::NotWhole),
        ("\"1\n\"\n", 0, 1, 1, RecordKind::NotWhole),
        ("2147483648\n", 0, 1, 1, RecordKind::OutOfRange),
        ("\n\n0\n\n-2147483649\n", 0, 2, 1, RecordKind::OutOfRange),
        ("a,b\n1\nx\n", 1, 3, 1, RecordKind::NotWhole),
        ("1\n2\n3,4", 2, 3, 2, RecordKind::FieldCount),
    ] {
        let answer = records(alloc, text.as_bytes(), &schema, skip);
        assert_eq!(rt; fault_of(&answer), Some((number, field, kind)), "{text:?}");
    }
    Ok(())
}

fn fault_of(answer: &Result<Columns, RecordFault>) -> Option<(u64, u32, RecordKind)> {
    match answer {
        Err(
            RecordFault::Bad {
                number,
                field,
                kind,
            },
        ) => Some((*number, *field, *kind)),
        _ => None,
    }
}

fn named<R: Abort + AllocGlobal>(rt: &R, text: &str) -> FileName {
    match FileName::from_str(rt.alloc(), text) {
        Ok(Some(name)) => name,
        _ => rt.panic("no name"),
    }
}

fn is_fault(answer: &Result<Vec<u8>, FileFault>, fault: &str) -> bool {
    match answer {
        Ok(bytes) => fault == "" && bytes.as_slice() == b"abc".as_slice(),
        Err(FileFault::Missing) => fault == "missing",
        Err(FileFault::Store) => fault == "store",
        Err(FileFault::TooLong { have, limit }) => fault == "long" && *have == 3 && *limit < 3,
        Err(FileFault::Short) => fault == "short",
        Err(FileFault::OutOfMemory) => false,
    }
}

#[test]
fn reads_a_file(rt: HostRuntime) -> Result<(), Fail> {
    let alloc = rt.alloc();
    // The call that fails, from 0: the file is put, its length asked, its bytes read.
    for (name, limit, fails, fault) in [
        ("n.csv", 3, 9, ""),
        ("n.csv", 4, 9, ""),
        ("n.csv", 2, 9, "long"),
        ("n.csv", 0, 9, "long"),
        ("m.csv", 9, 9, "missing"),
        ("n.csv", 3, 1, "store"),
        ("n.csv", 3, 2, "store"),
        ("n.csv", 2, 2, "long"),
        ("m.csv", 3, 2, "missing"),
    ] {
        let fails = [FailAt {
            call: fails,
            keep_new: false,
        }];
        let mut store = MemStore::make(alloc, &fails, 1)?;
        let there = named(&rt, "n.csv");
        assert!(rt; store.put(there.as_str(), b"abc").is_ok());
        let answer = read_file(alloc, &mut store, &named(&rt, name), limit);
        assert!(rt; is_fault(&answer, fault), "{name} up to {limit}: {fault}");
    }
    Ok(())
}

/// A store that tells a length and gives no byte.
struct Empty;

impl Store for Empty {
    ghost use Rattle.std.specs.Prelude.{None};

    ghost faults = { λ _. 0 };

    ghost files = { λ _. None };

    ghost reads = { λ _. None };

    fn len(&mut self, _name: &str) -> Result<Option<u64>, Failed> {
        Ok(Some(3))
    }

    fn read_at(&mut self, _name: &str, _at: u64, _buf: &mut [u8]) -> Result<usize, Failed> {
        Ok(0)
    }

    fn put(&mut self, _name: &str, _bytes: &[u8]) -> Result<(), Trouble> {
        Err(Trouble::OutOfMemory)
    }
}

#[test]
fn tells_a_short_file(rt: HostRuntime) -> Result<(), Fail> {
    let mut store = Empty;
    let answer = read_file(rt.alloc(), &mut store, &named(&rt, "n.csv"), 3);
    assert!(rt; is_fault(&answer, "short"));
    let Empty = store;
    Ok(())
}
