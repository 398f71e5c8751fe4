ghost use Rattle.std.specs.Prelude.{◌≡◌, ◌<◌};
ghost use Rattle.fb_outside.specs.Names.{IsPath};
ghost use Rattle.part_meta.specs.PartText.{IsPart};
ghost use Rattle.where_plan.specs.Plans.{FitsSchema};

use crate::sample_files::{CODES, File, NULLS, TEN, TEN_INTERVAL, TEN_RANGE, TEN_TWO_LEVEL, WORDS};
use crate::{EvalFault, Hits, PartConditions, estimate, evaluate};
use column_file::ColFault;
use fb_outside::{FailAt, FileName, MemStore, Store, file_bytes};
use index_file::IndexFault;
use part_meta::{PartMeta, parse_part};
use std::alloc::Global;
use std::marker::Brand;
use std::process::Abort;
use std::sync::ledger::Ledger;
use std::test::Fail;
use steps::{Blank, Count, Steps};
use text_column::{DicFault, TextFault};
use wah_iter::count_ones;
use where_grammar::parse_where;
use where_plan::{Plan, resolve};

/// The two numbers of an estimate, the number of hits, and of checks.
type Numbers = (u64, u64, u64, u64);

/// The path of a dataset, and the name of its part's text.
#[derive(Clone, Copy)]
struct Place {
    dir: &'static str,
    text: &'static str,
}

const D: Place = Place {
    dir: "D",
    text: "D/p0000/-part.txt",
};

const N: Place = Place {
    dir: "N",
    text: "N/p0000/-part.txt",
};

const W: Place = Place {
    dir: "W",
    text: "W/p0000/-part.txt",
};

fn named<R: Abort + AllocGlobal>(rt: &R, text: &str) -> FileName {
    match FileName::from_str(rt.alloc(), text) {
        Ok(Some(name)) => name,
        _ => rt.panic("no name"),
    }
}

fn path<R: Abort + AllocGlobal>(rt: &R, text: &str) -> FileName
    ensures { IsPath result }
{
    let name = named(rt, text);
    assert!(rt; name.is_path());
    name
}

fn put_all<R: Abort + AllocGlobal>(rt: &R, store: &mut MemStore, files: &[File]) {
    for (name, bytes) in files {
        assert!(rt; store.put(named(rt, name).as_str(), bytes).is_ok());
    }
}

/// A store of these files and then of those, whose calls with these numbers fail once the files are put.
fn store<R: Abort + AllocGlobal>(
    rt: &R,
    files: &[File],
    more: &[File],
    fails: &[FailAt],
) -> MemStore {
    let Ok(mut store) = MemStore::make(rt.alloc(), fails, 99) else {
        rt.panic("out of memory")
    };
    put_all(rt, &mut store, files);
    put_all(rt, &mut store, more);
    store
}

/// What the text of the first part under the path says.
fn part_of<R: Abort + AllocGlobal>(rt: &R, store: &mut MemStore, text: &str) -> PartMeta
    ensures { IsPart result }
{
    let Ok(Some(bytes)) = file_bytes(rt.alloc(), store, &named(rt, text)) else {
        rt.panic("no text")
    };
    match parse_part(rt.alloc(), &bytes) {
        Ok(part) => part,
        Err(_) => rt.panic("no part"),
    }
}

fn planned<R: Abort + AllocGlobal>(rt: &R, part: &PartMeta, text: &str) -> Plan
    ensures { FitsSchema part.now.schema result }
{
    let Ok(clause) = parse_where(rt.alloc(), text) else {
        rt.panic("no clause")
    };
    match resolve(rt.alloc(), Some(&clause), &part.schema) {
        Ok(plan) => plan,
        Err(_) => rt.panic("no plan"),
    }
}

/// What a plan gives over the rows of a part.
fn numbers<L: Ledger>(
    alloc: Global,
    blank: Blank,
    store: &mut MemStore,
    conditions: &PartConditions,
    plan: &Plan,
) -> Result<Numbers, EvalFault>
    requires ledger { blank.name ≡ L.name }
    requires parts { blank.parts ≡ L.parts }
    requires some { 0 < blank.parts }
    requires fits { FitsSchema conditions.now.meta.schema plan.now }
{
    let mut steps = Steps::<L>::new(blank);
    let bounds = estimate(alloc, store, conditions, plan, &mut steps)?;
    let hits = evaluate(alloc, store, conditions, plan, &mut steps)?;
    let count = count_ones(&hits.rows, &mut steps);
    Ok((bounds.definite, bounds.possible, count, hits.checked))
}

/// What a clause gives over the first part of a dataset.
fn asked<R: Abort + AllocGlobal + Count>(
    rt: &R,
    store: &mut MemStore,
    under: Place,
    text: &str,
) -> Result<Numbers, EvalFault> {
    let dir = path(rt, under.dir);
    let part = part_of(rt, store, under.text);
    let plan = planned(rt, &part, text);
    let conditions = PartConditions {
        dir: &dir,
        part: &part,
    };
    numbers::<Brand>(rt.alloc(), rt.blank(), store, &conditions, &plan)
}

fn gives<R: Abort + AllocGlobal + Count>(
    rt: &R,
    files: &[File],
    more: &[File],
    under: Place,
    text: &str,
    want: Numbers,
) {
    let mut store = store(rt, files, more, &[]);
    match asked(rt, &mut store, under, text) {
        Ok(have) => assert!(rt; have == want),
        Err(_) => rt.panic("no answer"),
    }
}

/// Under each encoding: what bins decide, what they leave, and what they decide on some rows.
#[test]
fn ten_numbers_under_four_encodings(rt: HostRuntime) -> Result<(), Fail> {
    for index in [&[], TEN_RANGE, TEN_INTERVAL, TEN_TWO_LEVEL] {
        for (text, want) in [
            ("3 < a < 9", (4, 7, 5, 3)),
            ("not (3 < a < 9)", (3, 6, 5, 3)),
            ("a < 4", (3, 3, 3, 0)),
            ("a in (4, 5, 6, 7)", (4, 4, 4, 0)),
            ("a < 9 and b = 1", (0, 1, 1, 1)),
            ("a < 9 or a < 9", (7, 10, 8, 6)),
            ("a < 9 xor b = 1 xor a < 4", (4, 7, 4, 3)),
            ("a < 100", (10, 10, 10, 0)),
            ("exists(a) and a > 100", (0, 0, 0, 0)),
        ] {
            gives(&rt, TEN, index, D, text, want);
        }
    }
    Ok(())
}

/// A condition is false on a null, and its opposite true. Without an index the one bin is that of the type.
#[test]
fn nulls_without_an_index(rt: HostRuntime) -> Result<(), Fail> {
    for (text, want) in [
        ("not (a < 5)", (1, 3, 2, 2)),
        ("a != 5", (0, 2, 1, 2)),
        ("not (a = 5)", (1, 3, 2, 2)),
        ("a >= 5", (0, 2, 1, 2)),
        ("exists(a)", (2, 2, 2, 0)),
        ("a > -2147483649", (2, 2, 2, 0)),
    ] {
        gives(&rt, NULLS, &[], N, text, want);
    }
    Ok(())
}

/// Words are known by the bins of their codes, where there is an index; texts never are.
#[test]
fn words_and_texts(rt: HostRuntime) -> Result<(), Fail> {
    for (text, want) in [
        ("c = 'x'", (0, 4, 2, 4)),
        ("c != 'q'", (4, 4, 4, 0)),
        ("c = 'q'", (0, 0, 0, 0)),
        ("t like 'ap%'", (0, 4, 2, 4)),
        ("t in ('fig', 'pear')", (0, 4, 2, 4)),
        ("not (t = 'ape')", (1, 5, 4, 4)),
        ("exists(t)", (4, 4, 4, 0)),
        ("c = 'x' and t like 'ap%'", (0, 4, 2, 8)),
    ] {
        gives(&rt, WORDS, &[], W, text, want);
    }
    for (text, want) in [
        ("c = 'x'", (2, 2, 2, 0)),
        ("c like '%x'", (2, 2, 2, 0)),
        ("c = 'x' and t like 'ap%'", (0, 2, 2, 2)),
    ] {
        gives(&rt, WORDS, CODES, W, text, want);
    }
    Ok(())
}

/// A clause of so many conditions `a < 9`.
fn or_of<R: Abort + AllocGlobal>(rt: &R, count: u32) -> Vec<u8> {
    let mut text = Vec::new(rt.alloc());
    for _ in 1..count {
        assert!(rt; text.extend_from_slice(b"a < 9 or ").is_ok());
    }
    assert!(rt; text.extend_from_slice(b"a < 9").is_ok());
    text
}

#[test]
fn an_or_of_a_thousand(rt: HostRuntime) -> Result<(), Fail> {
    let bytes = or_of(&rt, 1000);
    match str::from_utf8(&bytes) {
        Ok(text) => gives(&rt, TEN, &[], D, text, (7, 10, 8, 3000)),
        Err(_) => rt.panic("no text"),
    }
    Ok(())
}

/// A read: where it began, and how many bytes it had room for.
type Read = (u64, u64);

/// The reads of a file, from a place in it on.
fn reads_from<R: Abort + AllocGlobal>(
    rt: &R,
    store: &MemStore,
    name: &str,
    place: u64,
) -> Vec<Read> {
    let Some(notes) = store.reads() else {
        rt.panic("too many reads")
    };
    let mut found = Vec::new(rt.alloc());
    for note in notes {
        let is_of_it = match store.name(note.file) {
            Some(file) => file.as_str() == name,
            None => false,
        };
        if is_of_it && note.at >= place {
            assert!(rt; found.push((note.at, note.length)).is_ok());
        }
    }
    found
}

/// The rows of a part that a plan finds.
fn evaluated<L: Ledger>(
    alloc: Global,
    blank: Blank,
    store: &mut MemStore,
    conditions: &PartConditions,
    plan: &Plan,
) -> Result<Hits, EvalFault>
    requires ledger { blank.name ≡ L.name }
    requires parts { blank.parts ≡ L.parts }
    requires some { 0 < blank.parts }
    requires fits { FitsSchema conditions.now.meta.schema plan.now }
{
    let mut steps = Steps::<L>::new(blank);
    evaluate(alloc, store, conditions, plan, &mut steps)
}

/// Answers a clause over the first part of a dataset, and gives the store with its reads.
fn read_by<R: Abort + AllocGlobal + Count>(rt: &R, index: &[File], text: &str) -> MemStore {
    let mut store = store(rt, TEN, index, &[]);
    let dir = path(rt, D.dir);
    let part = part_of(rt, &mut store, D.text);
    let plan = planned(rt, &part, text);
    let conditions = PartConditions {
        dir: &dir,
        part: &part,
    };
    let hits = evaluated::<Brand>(rt.alloc(), rt.blank(), &mut store, &conditions, &plan);
    assert!(rt; hits.is_ok());
    store
}

/// The bitmaps that are read, in their order, and the values: those of rows 7 to 9 at once.
#[test]
fn needed_bitmaps_and_candidates_are_read(rt: HostRuntime) -> Result<(), Fail> {
    let index = "D/p0000/a.idx";
    let values = "D/p0000/a";
    let bitmaps: [(&[File], u64, &[Read]); 4] = [
        (&[], 195, &[(207, 12), (219, 12)]),
        (TEN_RANGE, 184, &[(184, 12), (196, 12), (196, 12)]),
        (
            TEN_INTERVAL,
            187,
            &[(187, 12), (199, 12), (187, 12), (199, 12)],
        ),
        (TEN_TWO_LEVEL, 238, &[(274, 12), (250, 12)]),
    ];
    for (more, first, want) in bitmaps {
        let store = read_by(&rt, more, "3 < a < 9");
        assert!(rt; reads_from(&rt, &store, index, first).as_slice() == want);
        assert!(rt; reads_from(&rt, &store, values, 0).as_slice() == [(28, 12)].as_slice());
    }
    let store = read_by(&rt, &[], "a < 4");
    assert!(rt; reads_from(&rt, &store, index, 195).as_slice() == [(195, 12)].as_slice());
    assert!(rt; reads_from(&rt, &store, values, 0).is_empty());
    let store = read_by(&rt, &[], "a < 9 and b = 1");
    assert!(rt; reads_from(&rt, &store, values, 0).as_slice() == [(28, 4)].as_slice());
    let store = read_by(&rt, &[], "a in (8, 10) and b != 7");
    assert!(rt; reads_from(&rt, &store, values, 0).as_slice() == [(28, 12)].as_slice());
    Ok(())
}

/// A file of a column that is refused is told by the column's place; the other column isn't looked at.
#[test]
fn damaged_files_are_told(rt: HostRuntime) -> Result<(), Fail> {
    let mut first = store(
        &rt,
        TEN,
        &[("D/p0000/b.msk", b""), ("D/p0000/b.idx", b"FBIX")],
        &[],
    );
    match asked(&rt, &mut first, D, "b = 1") {
        Err(EvalFault::Col(1, ColFault::Mask(_))) => (),
        _ => rt.panic("the mask passes"),
    }
    match asked(&rt, &mut first, D, "a < 9") {
        Ok(have) => assert!(rt; have == (7, 10, 8, 3)),
        Err(_) => rt.panic("no answer"),
    }
    let mut second = store(
        &rt,
        TEN,
        &[("D/p0000/b.idx", b"FBIX"), ("D/p0000/a", b"")],
        &[],
    );
    match asked(&rt, &mut second, D, "b = 1") {
        Err(EvalFault::Index(1, IndexFault::Short)) => (),
        _ => rt.panic("the index passes"),
    }
    match asked(&rt, &mut second, D, "a < 9") {
        Err(EvalFault::Col(0, ColFault::WrongLength { want: 40, have: 0 })) => (),
        _ => rt.panic("the values pass"),
    }
    let mut third = store(
        &rt,
        WORDS,
        &[("W/p0000/c.dic", b"\x01"), ("W/p0000/t.sp", b"")],
        &[],
    );
    match asked(&rt, &mut third, W, "c = 'x'") {
        Err(EvalFault::Words(0, DicFault::Short)) => (),
        _ => rt.panic("the words pass"),
    }
    match asked(&rt, &mut third, W, "t = 'x'") {
        Err(EvalFault::Text(1, TextFault::StartsLength { want: 48, have: 0 })) => (),
        _ => rt.panic("the starts pass"),
    }
    Ok(())
}

/// Each call on the store that fails is told, and none is taken for another fault.
#[test]
fn failing_calls_are_told(rt: HostRuntime) -> Result<(), Fail> {
    let mut answers = false;
    let mut faults = false;
    for call in 0..40 {
        let fail = FailAt {
            call: TEN.len() as u64 + call,
            keep_new: false,
        };
        let mut store = store(&rt, TEN, &[], &[fail]);
        if call < 2 {
            continue;
        }
        match asked(&rt, &mut store, D, "3 < a < 9") {
            Ok(have) => {
                answers = true;
                assert!(rt; have == (4, 7, 5, 3));
            }
            Err(EvalFault::Col(0, ColFault::Store)) => faults = true,
            Err(EvalFault::Index(0, IndexFault::Store)) => faults = true,
            Err(_) => rt.panic("another fault"),
        }
    }
    assert!(rt; answers && faults);
    Ok(())
}
