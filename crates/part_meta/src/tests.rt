ghost use Rattle.std.specs.Prelude.{◌≢◌, ◌<◌};
ghost use Rattle.fb_outside.specs.Names.{IsPath};
ghost use Rattle.part_meta.specs.declared.names.FileKind.TheVariants.{PartText};

use crate::{
    Catalog, FileKind, MetaTextFault, PartMeta, catalog_of, file_of, parse_catalog, parse_part,
    print_catalog, print_part,
};
use fb_outside::FileName;
use fb_types::{ColName, parse_schema};
use sqlite_items::Items;
use std::alloc::{AllocError, Global};
use std::process::Abort;
use std::test::Fail;

/// A path that is known to be one.
fn path<R: Abort + AllocGlobal>(rt: &R, text: &str) -> FileName
    ensures { IsPath result }
{
    match FileName::from_str(rt.alloc(), text) {
        Ok(Some(name)) => {
            assert!(rt; name.is_path());
            name
        }
        _ => rt.panic("no path"),
    }
}

fn column<R: Abort + AllocGlobal>(rt: &R, text: &str) -> ColName {
    match ColName::from_bytes(rt.alloc(), text.as_bytes()) {
        Ok(Some(name)) => name,
        _ => rt.panic("no column"),
    }
}

/// Compares the name of a column's file.
fn check_file<R: Abort + AllocGlobal>(rt: &R, dir: &FileName, part: u32, kind: FileKind, want: &str)
    requires path { IsPath dir.now }
    requires part { part < 4096 }
    requires kind { kind ≢ PartText }
{
    let name = column(rt, "a");
    match file_of(rt.alloc(), dir, part, Some(&name), kind) {
        Ok(file) => assert!(rt; file.as_str() == want),
        Err(_) => rt.panic("out of memory"),
    }
}

#[test]
fn names_files(rt: HostRuntime) -> Result<(), Fail> {
    let dir = path(&rt, "data/D");
    check_file(&rt, &dir, 0, FileKind::Values, "data/D/p0000/a");
    check_file(&rt, &dir, 7, FileKind::Mask, "data/D/p0007/a.msk");
    check_file(&rt, &dir, 40, FileKind::Words, "data/D/p0040/a.dic");
    check_file(&rt, &dir, 321, FileKind::Starts, "data/D/p0321/a.sp");
    check_file(&rt, &dir, 0, FileKind::Index, "data/D/p0000/a.idx");
    check_file(&rt, &dir, 4095, FileKind::Index, "data/D/p4095/a.idx");
    let file = file_of(rt.alloc(), &dir, 4095, None, FileKind::PartText)?;
    assert_eq!(rt; file.as_str(), "data/D/p4095/-part.txt");
    let catalog = catalog_of(rt.alloc(), &dir)?;
    assert_eq!(rt; catalog.as_str(), "data/D/-catalog.txt");
    Ok(())
}

/// The line that is refused; 0 where the catalog is read.
fn catalog_fault(alloc: Global, text: &str) -> Result<u32, AllocError> {
    match parse_catalog(alloc, text.as_bytes()) {
        Ok(_) => Ok(0),
        Err(MetaTextFault::At { line }) => Ok(line),
        Err(MetaTextFault::OutOfMemory) => Err(AllocError),
    }
}

fn part_fault(alloc: Global, text: &str) -> Result<u32, AllocError> {
    match parse_part(alloc, text.as_bytes()) {
        Ok(_) => Ok(0),
        Err(MetaTextFault::At { line }) => Ok(line),
        Err(MetaTextFault::OutOfMemory) => Err(AllocError),
    }
}

const CATALOG: &str = "fastbit catalog 1\nschema a:int,b:category\nnext 2\npart 0\npart 1\n";

#[test]
fn catalogs_are_printed_and_read(rt: HostRuntime) -> Result<(), Fail> {
    let alloc = rt.alloc();
    let schema = parse_schema(alloc, "a:int,b:category")?;
    let parts = Items::from_vec(vec![in alloc; 0, 1]?);
    let catalog = Catalog {
        schema,
        next: 2,
        parts,
    };
    let text = print_catalog(alloc, &catalog)?;
    assert!(rt; text.as_slice() == CATALOG.as_bytes());
    let read = parse_catalog(alloc, text.as_slice())?;
    assert_eq!(rt; read.next, 2);
    assert!(rt; read.parts.as_slice() == [0, 1].as_slice());
    assert_eq!(rt; read.schema.columns().len(), 2);
    assert_eq!(rt; read.schema.place(b"b"), Some(1));
    Ok(())
}

#[test]
fn damaged_catalogs_are_refused(rt: HostRuntime) -> Result<(), Fail> {
    let alloc = rt.alloc();
    for (text, line) in [
        (CATALOG, 0),
        ("fastbit catalog 1\nschema a:int\nnext 0\n", 0),
        ("fastbit catalog 1\nschema a:int\nnext 4096\npart 4095\n", 0),
        ("", 1),
        ("\n", 1),
        ("fastbit catalog 1", 1),
        ("fastbit catalog 2\nschema a:int\nnext 0\n", 1),
        ("fastbit catalog 1\n", 2),
        ("fastbit catalog 1\nschema a:int, b:category\nnext 2\n", 2),
        ("fastbit catalog 1\nschema A:int\nnext 0\n", 2),
        ("fastbit catalog 1\nschema a:int,a:byte\nnext 0\n", 2),
        ("fastbit catalog 1\nschema \nnext 0\n", 2),
        ("fastbit catalog 1\nschema a:int\n", 3),
        ("fastbit catalog 1\nschema a:int\nnext 02\n", 3),
        ("fastbit catalog 1\nschema a:int\nnext +2\n", 3),
        ("fastbit catalog 1\nschema a:int\nnext 4097\n", 3),
        ("fastbit catalog 1\nschema a:int\nnext \n", 3),
        ("fastbit catalog 1\nschema a:int\nnext 2\npart 00\n", 4),
        ("fastbit catalog 1\nschema a:int\nnext 2\nnext 3\n", 4),
        (
            "fastbit catalog 1\nschema a:int\nnext 1\npart 0\npart 1\n",
            5,
        ),
        (
            "fastbit catalog 1\nschema a:int\nnext 2\npart 0\npart 0\n",
            5,
        ),
        (
            "fastbit catalog 1\nschema a:int\nnext 2\npart 1\npart 0\n",
            5,
        ),
        ("fastbit catalog 1\nschema a:int\nnext 2\npart 0\npart 1", 5),
        (
            "fastbit catalog 1\nschema a:int\nnext 2\npart 0\npart 1\n\n",
            6,
        ),
        (
            "fastbit catalog 1\nschema a:int\nnext 2\npart 0\npart 1\nx",
            6,
        ),
    ] {
        let found = catalog_fault(alloc, text)?;
        assert_eq!(rt; found, line);
    }
    Ok(())
}

/// The text of a catalog with so many parts.
fn catalog_of_parts(alloc: Global, count: u32) -> Result<String, AllocError> {
    let mut text = String::from_str(alloc, "fastbit catalog 1\nschema a:int\nnext 4096\n")?;
    for part in 0..count {
        writeln!(text, "part {part}")?;
    }
    Ok(text)
}

#[test]
fn a_catalog_has_at_most_1024_parts(rt: HostRuntime) -> Result<(), Fail> {
    let alloc = rt.alloc();
    let text = catalog_of_parts(alloc, 1024)?;
    assert_eq!(rt; catalog_fault(alloc, text.as_str())?, 0);
    let text = catalog_of_parts(alloc, 1025)?;
    assert_eq!(rt; catalog_fault(alloc, text.as_str())?, 1028);
    Ok(())
}

static PART: [&str; 13] = [
    "BEGIN HEADER",
    "Name = p0000",
    "Number_of_rows = 2",
    "Number_of_columns = 2",
    "END HEADER",
    "Begin Column",
    "name = a",
    "data_type = int",
    "End Column",
    "Begin Column",
    "name = b",
    "data_type = category",
    "End Column",
];

/// The part's text with that line, from 1, in the place of its own.
fn part_with(alloc: Global, number: usize, line: &str) -> Result<String, AllocError> {
    let mut text = String::new(alloc);
    for (at, own) in PART.iter().enumerate() {
        if at + 1 == number {
            writeln!(text, "{line}")?;
        } else {
            writeln!(text, "{own}")?;
        }
    }
    Ok(text)
}

#[test]
fn parts_are_printed_and_read(rt: HostRuntime) -> Result<(), Fail> {
    let alloc = rt.alloc();
    let part = PartMeta {
        number: 0,
        rows: 2,
        schema: parse_schema(alloc, "a:int,b:category")?,
    };
    let text = print_part(alloc, &part)?;
    let want = part_with(alloc, 0, "")?;
    assert!(rt; text.as_slice() == want.as_bytes());
    let read = parse_part(alloc, text.as_slice())?;
    assert_eq!(rt; read.number, 0);
    assert_eq!(rt; read.rows, 2);
    assert_eq!(rt; read.schema.columns().len(), 2);
    assert_eq!(rt; read.schema.place(b"b"), Some(1));
    Ok(())
}

#[test]
fn damaged_parts_are_refused(rt: HostRuntime) -> Result<(), Fail> {
    let alloc = rt.alloc();
    for (number, text, line) in [
        (2, "Name = p4095", 0),
        (3, "Number_of_rows = 4194304", 0),
        (12, "data_type = text", 0),
        (1, "BEGIN HEADER ", 1),
        (2, "Name = p000", 2),
        (2, "Name = p4096", 2),
        (2, "Name = p00000", 2),
        (2, "Name = p00a0", 2),
        (3, "Number_of_rows = 0", 3),
        (3, "Number_of_rows = 02", 3),
        (3, "Number_of_rows = 4194305", 3),
        (3, "Number_of_rows=2", 3),
        (4, "Number_of_columns = 0", 4),
        (4, "Number_of_columns = 256", 4),
        (4, "Number_of_columns = 1", 10),
        (4, "Number_of_columns = 3", 14),
        (5, "END HEADERS", 5),
        (6, "Begin column", 6),
        (7, "name = A", 7),
        (7, "name = select", 7),
        (7, "name = 1a", 7),
        (8, "data_type = real", 8),
        (8, "data_type = Int", 8),
        (9, "End", 9),
        (10, "End Column", 10),
        (11, "name = a", 11),
        (12, "data_type = ", 12),
        (13, "End", 13),
        (13, "End Column\n", 14),
        (13, "End Column\nBegin Column", 14),
    ] {
        let part = part_with(alloc, number, text)?;
        let found = part_fault(alloc, part.as_str())?;
        assert!(rt; found == line, "at {text}");
    }
    assert_eq!(rt; part_fault(alloc, "")?, 1);
    assert_eq!(rt; part_fault(alloc, "BEGIN HEADER")?, 1);
    assert_eq!(rt; part_fault(alloc, "BEGIN HEADER\n")?, 2);
    Ok(())
}
