ghost use Rattle.fb_outside.specs.Names.{IsPath};

use super::*;
use fb_outside::{FileName, MemStore, Store};
use statuses::Unanswered;
use std::alloc::{AllocError, Global};
use std::process::Abort;
use std::test::Fail;

const CATALOG: &[u8] = b"fastbit catalog 1\nschema a:int,b:category\nnext 3\npart 0\npart 2\n";

const PART_0: &[u8] =
    b"BEGIN HEADER\nName = p0000\nNumber_of_rows = 2\nNumber_of_columns = 2\nEND HEADER\nBegin Column\nname = a\ndata_type = int\nEnd Column\nBegin Column\nname = b\ndata_type = category\nEnd Column\n";

const PART_2: &[u8] =
    b"BEGIN HEADER\nName = p0002\nNumber_of_rows = 3\nNumber_of_columns = 2\nEND HEADER\nBegin Column\nname = a\ndata_type = int\nEnd Column\nBegin Column\nname = b\ndata_type = category\nEnd Column\n";

type File = (&'static str, &'static [u8]);

/// A dataset of two parts.
const FILES: &[File] = &[
    ("D/-catalog.txt", CATALOG),
    ("D/p0000/-part.txt", PART_0),
    ("D/p0002/-part.txt", PART_2),
];

fn named<R: Abort + AllocGlobal>(rt: &R, text: &str) -> FileName {
    match FileName::from_str(rt.alloc(), text) {
        Ok(Some(name)) => name,
        _ => rt.panic("no name"),
    }
}

/// A path.
fn path<R: Abort + AllocGlobal>(rt: &R, text: &str) -> FileName
    ensures { IsPath result }
{
    let name = named(rt, text);
    assert!(rt; name.is_path());
    name
}

fn store_of<R: Abort + AllocGlobal>(rt: &R) -> MemStore {
    let Ok(mut store) = MemStore::make(rt.alloc(), &[], 100) else {
        rt.panic("out of memory")
    };
    for (name, bytes) in FILES {
        assert!(rt; store.put(named(rt, name).as_str(), bytes).is_ok());
    }
    store
}

const LISTED: &[u8] = b"schema a:int,b:category\npart 0 rows 2\npart 2 rows 3\n";

/// The head of an index of 2 rows whose values are bins each, and of none: so the file ends behind it.
const EACH: &[u8] =
    b"FBIX\x01\x00\x00\x00\x02\x00\x00\x00\x00\x00\x00\x00\x00\x00\x00\x00\x23\x00\x00\x00<binning none/><encoding equality/>\x43\x00\x00\x00\x00\x00\x00\x00";

/// The same of 3 rows by their first digits.
const DIGITS: &[u8] =
    b"FBIX\x01\x00\x00\x00\x03\x00\x00\x00\x00\x00\x00\x00\x00\x00\x00\x00\x27\x00\x00\x00<binning precision=1/><encoding range/>\x47\x00\x00\x00\x00\x00\x00\x00";

const INDEXED: &[u8] =
    b"schema a:int,b:category\npart 0 rows 2\nindex b <binning none/><encoding equality/>\npart 2 rows 3\nindex a <binning precision=1/><encoding range/>\n";

fn put_file<R: Abort + AllocGlobal>(rt: &R, store: &mut MemStore, name: &str, bytes: &[u8]) {
    assert!(rt; store.put(named(rt, name).as_str(), bytes).is_ok());
}

/// The listing, or the refusal's line; None where the outside failed or memory ran out.
fn listed(
    alloc: Global,
    store: &mut MemStore,
    dir: &FileName,
) -> Result<Option<Vec<u8>>, AllocError>
    requires path { IsPath dir.now }
{
    match list(alloc, dir, store) {
        Ok(text) => Ok(Some(text)),
        Err(Unanswered::Refused(status)) => Ok(Some(status.line(alloc)?.into_bytes())),
        Err(_) => Ok(None),
    }
}

fn check_list<R: Abort + AllocGlobal>(
    rt: &R,
    store: &mut MemStore,
    dir: &FileName,
    want: &[u8],
) -> Result<(), AllocError>
    requires path { IsPath dir.now }
{
    match listed(rt.alloc(), store, dir)? {
        Some(have) => assert!(rt; have.as_slice() == want),
        None => rt.panic("a listing stopped"),
    }
    Ok(())
}

#[test]
fn the_parts_and_their_indexes_are_listed(rt: HostRuntime) -> Result<(), Fail> {
    let mut store = store_of(&rt);
    let dir = path(&rt, "D");
    check_list(&rt, &mut store, &dir, LISTED)?;
    put_file(&rt, &mut store, "D/p0000/b.idx", EACH);
    put_file(&rt, &mut store, "D/p0002/a.idx", DIGITS);
    check_list(&rt, &mut store, &dir, INDEXED)?;
    let absent = b"error 7 missing E/-catalog.txt\n";
    check_list(&rt, &mut store, &path(&rt, "E"), absent)?;
    Ok(())
}

/// The first one, in the order of the parts and of the schema; and nothing else is printed.
#[test]
fn a_damaged_index_is_told(rt: HostRuntime) -> Result<(), Fail> {
    let mut store = store_of(&rt);
    let dir = path(&rt, "D");
    put_file(&rt, &mut store, "D/p0000/b.idx", EACH);
    put_file(&rt, &mut store, "D/p0002/a.idx", EACH);
    let later = b"error 8 damaged D/p0002/a.idx Index\n";
    check_list(&rt, &mut store, &dir, later)?;
    put_file(&rt, &mut store, "D/p0000/b.idx", b"FBI");
    let first = b"error 8 damaged D/p0000/b.idx Index\n";
    check_list(&rt, &mut store, &dir, first)?;
    match list(rt.alloc(), &dir, &mut store) {
        Err(Unanswered::Refused(status)) => assert!(rt; status.code() == 8),
        _ => rt.panic("no refusal"),
    }
    Ok(())
}
