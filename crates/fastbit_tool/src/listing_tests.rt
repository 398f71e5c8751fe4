//! Indexes that are built, and then listed.

use crate::tests::{LOAD, expect_load, expect_words, keep};
use fb_outside::MemStore;
use std::test::Fail;
use steps::Count;

const TEN: &str = "1\n2\n3\n4\n5\n6\n7\n8\n9\n10\n";

const LIST: &[&str] = &["ibis", "-d", "D", "-l"];

type Row = (&'static [&'static str], u8, &'static str);

/// Requests behind a load of `TEN`, each with its status's number and its text: a listing has the printed form of what was
/// built last, and a refused request leaves it.
const BUILDS: &[Row] = &[
    (LIST, 0, "schema a:int\npart 0 rows 10\n"),
    (
        &["ibis", "-d", "D", "-b", "<binning bounds=(4,8)/>"],
        0,
        "built 1 indexes\n",
    ),
    (
        LIST,
        0,
        "schema a:int\npart 0 rows 10\nindex a <binning bounds=(4,8)/><encoding equality/>\n",
    ),
    (
        &["ibis", "-d", "D", "-b", "<binning none/>", "-k", "a,z"],
        5,
        "error 5 spec Unknown\n",
    ),
    (
        &["ibis", "-d", "D", "-b", "<binning none/>", "-k", "a,a"],
        5,
        "error 5 spec Repeated\n",
    ),
    (
        LIST,
        0,
        "schema a:int\npart 0 rows 10\nindex a <binning bounds=(4,8)/><encoding equality/>\n",
    ),
    (
        &["ibis", "-d", "D", "-b", "<binning nbins=3/>"],
        0,
        "built 1 indexes\n",
    ),
    (
        LIST,
        0,
        "schema a:int\npart 0 rows 10\nindex a <binning nbins=3/><encoding equality/>\n",
    ),
    (
        &["ibis", "-d", "D", "-b", "<binning nbins=0/>"],
        5,
        "error 5 spec Count\n",
    ),
    (
        &["ibis", "-d", "D", "-b", "<binning odd/>"],
        5,
        "error 5 spec Syntax\n",
    ),
];

#[test]
fn the_index_that_is_built_is_listed(rt: HostRuntime) -> Result<(), Fail> {
    let mut store = MemStore::make(rt.alloc(), &[], 0)?;
    let loaded = "loaded 10 rows\n";
    expect_load(&rt, rt.blank(), &mut store, LOAD, TEN, 0, loaded)?;
    for (words, code, printed) in BUILDS {
        expect_words(&rt, rt.blank(), &mut store, words, *code, printed)?;
    }
    keep(&rt, &mut store, "D/p0000/a.idx", b"FBIX\x02\0\0\0")?;
    let damaged = "error 8 damaged D/p0000/a.idx Index\n";
    expect_words(&rt, rt.blank(), &mut store, LIST, 8, damaged)?;
    Ok(())
}

const LINES: &str =
    "ardea -d P -m 'a:int,b:category,c:text' -p 2 -t n.csv\nibis -d P -b '<encoding range/>' -k b,a\nardea -d P -m 'a:int,b:category,c:text' -t n.csv\nibis -d P -l\n";

const REPLIES: &str =
    "loaded 3 rows\nbuilt 4 indexes\nloaded 3 rows\nschema a:int,b:category,c:text\npart 0 rows 2\nindex a <binning none/><encoding range/>\nindex b <binning none/><encoding range/>\npart 1 rows 1\nindex a <binning none/><encoding range/>\nindex b <binning none/><encoding range/>\npart 2 rows 3\n";

/// In the order of the schema, part by part; a part that was loaded since has none.
#[test]
fn indexes_of_several_parts_are_listed(rt: HostRuntime) -> Result<(), Fail> {
    let mut store = MemStore::make(rt.alloc(), &[], 0)?;
    keep(&rt, &mut store, "n.csv", b"1,x,u\n2,y,v\n3,x,w\n")?;
    expect_load(&rt, rt.blank(), &mut store, &["session"], LINES, 0, REPLIES)?;
    Ok(())
}
