ghost use Rattle.std.specs.Prelude.{◌≡◌, ◌<◌, IsUtf8};
ghost use Rattle.fb_outside.specs.Names.{IsPath};

use super::*;
use fb_outside::{FailAt, FileName, MemStore, Store};
use fb_types::Label;
use statuses::Unanswered;
use std::alloc::{AllocError, Global};
use std::marker::Brand;
use std::process::Abort;
use std::sync::ledger::Ledger;
use std::test::Fail;
use steps::{Blank, Count, Steps};

/// A dataset of two parts. Its column `a` has 7 and null, and then 4, 9 and 9; `c` has the words of codes 1 and 2, and
/// then 1, none and 1; `b` are texts.
const FILES: &[(&str, &[u8])] = &[
    (
        "D/-catalog.txt",
        b"fastbit catalog 1\nschema a:int,b:text,c:category\nnext 3\npart 0\npart 2\n",
    ),
    (
        "D/p0000/-part.txt",
        b"BEGIN HEADER\nName = p0000\nNumber_of_rows = 2\nNumber_of_columns = 3\nEND HEADER\nBegin Column\nname = a\ndata_type = int\nEnd Column\nBegin Column\nname = b\ndata_type = text\nEnd Column\nBegin Column\nname = c\ndata_type = category\nEnd Column\n",
    ),
    (
        "D/p0002/-part.txt",
        b"BEGIN HEADER\nName = p0002\nNumber_of_rows = 3\nNumber_of_columns = 3\nEND HEADER\nBegin Column\nname = a\ndata_type = int\nEnd Column\nBegin Column\nname = b\ndata_type = text\nEnd Column\nBegin Column\nname = c\ndata_type = category\nEnd Column\n",
    ),
    ("D/p0000/a", &[7, 0, 0, 0, 0, 0, 0, 0]),
    ("D/p0000/a.msk", &[2, 0, 0, 0, 0, 0, 0, 0, 2, 0, 0, 0]),
    ("D/p0000/c", &[1, 0, 0, 0, 2, 0, 0, 0]),
    ("D/p0000/c.msk", &[2, 0, 0, 0, 0, 0, 0, 0, 3, 0, 0, 0]),
    ("D/p0000/c.dic", b"\x02\0\0\0\x01\0x\x03\0a,b"),
    ("D/p0002/a", &[4, 0, 0, 0, 9, 0, 0, 0, 9, 0, 0, 0]),
    ("D/p0002/a.msk", &[3, 0, 0, 0, 0, 0, 0, 0, 7, 0, 0, 0]),
    ("D/p0002/c", &[1, 0, 0, 0, 0, 0, 0, 0, 1, 0, 0, 0]),
    ("D/p0002/c.msk", &[3, 0, 0, 0, 0, 0, 0, 0, 5, 0, 0, 0]),
    ("D/p0002/c.dic", b"\x01\0\0\0\x01\0y"),
];

/// So many puts make the store, whose calls count from 0.
const PUTS: u64 = 13;

const INDEXES: [&str; 4] = [
    "D/p0000/c.idx",
    "D/p0000/a.idx",
    "D/p0002/c.idx",
    "D/p0002/a.idx",
];

fn named<R: Abort + AllocGlobal>(rt: &R, text: &str) -> FileName {
    match FileName::from_str(rt.alloc(), text) {
        Ok(Some(name)) => name,
        _ => rt.panic("no name"),
    }
}

/// A path.
fn path<R: Abort + AllocGlobal>(rt: &R, text: &str) -> FileName
    ensures { IsPath result }
{
    let name = named(rt, text);
    assert!(rt; name.is_path());
    name
}

/// A store of the files, in which some calls fail.
fn store_of<R: Abort + AllocGlobal>(rt: &R, fails: &[FailAt]) -> MemStore {
    let Ok(mut store) = MemStore::make(rt.alloc(), fails, 100) else {
        rt.panic("out of memory")
    };
    for (name, bytes) in FILES {
        assert!(rt; store.put(named(rt, name).as_str(), bytes).is_ok());
    }
    store
}

/// What is asked of the store, and with which counter of steps.
fn answer<L: Ledger>(
    alloc: Global,
    blank: Blank,
    store: &mut MemStore,
    dir: &FileName,
    text: &Label,
    list: &Option<Label>,
) -> Result<u64, Unanswered>
    requires ledger { blank.name ≡ L.name }
    requires parts { blank.parts ≡ L.parts }
    requires some { 0 < blank.parts }
    requires path { IsPath dir.now }
    requires text { IsUtf8 text.now }
{
    let mut steps = Steps::<L>::new(blank);
    build_indexes(alloc, dir, text, list, store, &mut steps)
}

/// A request for indexes.
#[derive(Drop)]
struct Case {
    dir: &'static str,
    spec: &'static str,
    list: Option<&'static str>,
}

/// The request for `c` and then `a`, a bin for each value.
const BOTH: Case = Case {
    dir: "D",
    spec: "<binning none/>",
    list: Some("c,a"),
};

/// What a request answers: `done N`, a refusal's line, or `stopped`.
fn answered<R: Abort + AllocGlobal>(
    rt: &R,
    blank: Blank,
    store: &mut MemStore,
    case: &Case,
) -> Result<String, AllocError>
    requires { 0 < blank.parts }
{
    let dir = path(rt, case.dir);
    let text = Label::from_bytes(rt.alloc(), case.spec.as_bytes())?;
    let list = match case.list {
        Some(list) => Some(Label::from_bytes(rt.alloc(), list.as_bytes())?),
        None => None,
    };
    match answer::<Brand>(rt.alloc(), blank, store, &dir, &text, &list) {
        Ok(count) => format!(in rt.alloc(); "done {count}"),
        Err(Unanswered::Refused(status)) => status.line(rt.alloc()),
        Err(_) => String::from_str(rt.alloc(), "stopped"),
    }
}

/// How many of the indexes are there, which stand one behind another in the order of `INDEXES`.
fn built<R: Abort>(rt: &R, store: &MemStore) -> usize {
    let mut count = 0;
    for (place, name) in INDEXES.iter().enumerate() {
        if store.file(name).is_some() {
            assert!(rt; count == place);
            count = place + 1;
        }
    }
    count
}

#[test]
fn requests_are_answered(rt: HostRuntime) -> Result<(), Fail> {
    for (dir, spec, list, want, count) in [
        ("D", "<binning none/>", Some("\tC , a"), "done 4", 4),
        ("D", "<binning bounds=(4,8)/>", Some("c,a"), "done 4", 4),
        (
            "D",
            "<binning none/>",
            Some("a,z"),
            "error 5 spec Unknown\n",
            0,
        ),
        (
            "D",
            "<binning none/>",
            Some("c,"),
            "error 5 spec Unknown\n",
            0,
        ),
        (
            "D",
            "<binning none/>",
            Some("c,C"),
            "error 5 spec Repeated\n",
            0,
        ),
        (
            "D",
            "<binning none/>",
            Some("c,b,c"),
            "error 5 spec WrongType\n",
            0,
        ),
        (
            "D",
            "<binning bounds=(3,3)/>",
            Some("z"),
            "error 5 spec Bounds\n",
            0,
        ),
        ("E", "<binning odd/>", None, "error 5 spec Syntax\n", 0),
        (
            "E",
            "<binning none/>",
            Some("z"),
            "error 7 missing E/-catalog.txt\n",
            0,
        ),
    ] {
        let mut store = store_of(&rt, &[]);
        let case = Case { dir, spec, list };
        let have = answered(&rt, rt.blank(), &mut store, &case)?;
        assert!(rt; have.as_str() == want, "{have}");
        assert_eq!(rt; built(&rt, &store), count);
    }
    Ok(())
}

#[test]
fn every_column_but_a_text_is_indexed(rt: HostRuntime) -> Result<(), Fail> {
    let mut store = store_of(&rt, &[]);
    let case = Case {
        dir: "D",
        spec: "<binning none/>",
        list: None,
    };
    let have = answered(&rt, rt.blank(), &mut store, &case)?;
    assert_eq!(rt; have.as_str(), "done 4");
    assert_eq!(rt; built(&rt, &store), 4);
    assert!(rt; store.file("D/p0000/b.idx").is_none());
    Ok(())
}

#[test]
fn a_damaged_file_leaves_the_indexes_before_it(rt: HostRuntime) -> Result<(), Fail> {
    for (file, bytes, want, count) in [
        (
            "D/p0002/c",
            b"short".as_slice(),
            "error 8 damaged D/p0002/c Length\n",
            2,
        ),
        (
            "D/p0002/c.dic",
            b"\x01\0\0\0\0\0".as_slice(),
            "error 8 damaged D/p0002/c.dic Words\n",
            2,
        ),
        (
            "D/p0002/a.msk",
            b"".as_slice(),
            "error 8 damaged D/p0002/a.msk Mask\n",
            3,
        ),
    ] {
        let mut store = store_of(&rt, &[]);
        assert!(rt; store.put(named(&rt, file).as_str(), bytes).is_ok());
        let have = answered(&rt, rt.blank(), &mut store, &BOTH)?;
        assert!(rt; have.as_str() == want, "{have}");
        assert_eq!(rt; built(&rt, &store), count);
    }
    Ok(())
}

#[test]
fn each_call_of_the_store_fails_in_turn(rt: HostRuntime) -> Result<(), Fail> {
    for keep_new in [false, true] {
        let mut before = 0;
        let mut finished = false;
        for call in 0..60 {
            let fails = [FailAt {
                call: PUTS + call,
                keep_new,
            }];
            let mut store = store_of(&rt, &fails);
            let have = answered(&rt, rt.blank(), &mut store, &BOTH)?;
            let count = built(&rt, &store);
            assert!(rt; before <= count);
            before = count;
            if have.as_str() == "done 4" {
                assert_eq!(rt; count, 4);
                finished = true;
            } else {
                assert!(rt; have.as_str() == "stopped" && !finished);
            }
        }
        assert!(rt; finished);
    }
    Ok(())
}
