ghost use Rattle.std.specs.Prelude.{◌≡◌, ◌<◌, IsSome};
ghost use Rattle.fb_types.specs.Types.{width_of};

use crate::{FindFault, numbers_found, texts_found};
use binning::{Span, Spans};
use column_file::{ColFault, ColumnRef};
use fb_outside::{FailAt, FileName, MemStore, Store};
use fb_types::{ColName, ColType, Label};
use std::alloc::{AllocError, Global};
use std::marker::Brand;
use std::process::Abort;
use std::sync::ledger::Ledger;
use std::test::Fail;
use steps::{Blank, Count, Steps};
use text_column::{TextFault, open_text};
use wah_iter::count_ones;
use wah_words::{Builder, MAX_LEN, Wah};
use where_grammar::Atom;

/// So many rows that are candidates, or that aren't, one run after another.
type Runs<'a> = &'a [(bool, u32)];

/// A read: where it began, and how many bytes it had room for.
type Read = (u64, u64);

fn named<R: Abort + AllocGlobal>(rt: &R, text: &str) -> FileName {
    match FileName::from_str(rt.alloc(), text) {
        Ok(Some(name)) => name,
        _ => rt.panic("no name"),
    }
}

/// The vector of these runs.
fn built(alloc: Global, runs: Runs) -> Result<Option<Wah>, AllocError> {
    let mut builder = Builder::with_room(alloc, 400)?;
    for (bit, count) in runs {
        for _ in 0..*count {
            if builder.spare() == 0 || builder.len() >= MAX_LEN {
                return Ok(None);
            }
            builder.push_bit(*bit);
        }
    }
    Ok(Some(builder.finish()))
}

fn vector<R: Abort + AllocGlobal>(rt: &R, runs: Runs) -> Wah {
    match built(rt.alloc(), runs) {
        Ok(Some(vector)) => vector,
        _ => rt.panic("no vector"),
    }
}

fn store_of<R: Abort + AllocGlobal>(rt: &R, fails: &[FailAt], files: &[(&str, &[u8])]) -> MemStore {
    let Ok(mut store) = MemStore::make(rt.alloc(), fails, 99) else {
        rt.panic("out of memory")
    };
    for (name, bytes) in files {
        assert!(rt; store.put(named(rt, name).as_str(), bytes).is_ok());
    }
    store
}

/// The reads of a store's file, in order.
fn reads_of<R: Abort + AllocGlobal>(rt: &R, store: &MemStore, name: &str) -> Vec<Read> {
    let Some(notes) = store.reads() else {
        rt.panic("too many reads")
    };
    let mut reads = Vec::new(rt.alloc());
    for note in notes {
        let is_of_it = match store.name(note.file) {
            Some(file) => file.as_str() == name,
            None => false,
        };
        if is_of_it {
            assert!(rt; reads.push((note.at, note.length)).is_ok());
        }
    }
    reads
}

// ---- numbers

/// The last digit of each row's number, from row 0 on.
fn digits<R: Abort + AllocGlobal>(rt: &R, rows: u32) -> Vec<u8> {
    let mut bytes = Vec::new(rt.alloc());
    for row in 0..rows {
        assert!(rt; bytes.push((row % 10) as u8).is_ok());
    }
    bytes
}

/// How many of the candidates have a 3 or a 4, in a column of so many rows.
fn threes_and_fours<R: Abort + AllocGlobal, L: Ledger>(
    rt: &R,
    blank: Blank,
    store: &mut MemStore,
    rows: u32,
    runs: Runs,
) -> Result<u64, FindFault>
    requires ledger { blank.name ≡ L.name }
    requires parts { blank.parts ≡ L.parts }
    requires some { 0 < blank.parts }
{
    let column = ColumnRef {
        name: named(rt, "D/p0000/a"),
        ty: ColType::UByte,
        rows,
        mask: vector(rt, runs),
    };
    let candidates = vector(rt, runs);
    assert!(rt; candidates.len() == rows);
    let Ok(spans) = Spans::of(
        rt.alloc(),
        &[Span {
            least: 3,
            greatest: 4,
        }],
    ) else {
        rt.panic("out of memory")
    };
    let mut steps = Steps::<L>::new(blank);
    let found = numbers_found(rt.alloc(), store, &column, &spans, &candidates, &mut steps)?;
    Ok(count_ones(&found, &mut steps))
}

/// Neighbours are read at once, at most 4,096 of them, and rows that aren't candidates aren't read.
#[test]
fn runs_are_read_in_blocks(rt: HostRuntime) -> Result<(), Fail> {
    let cases: [(Runs, u64, &[Read]); 3] = [
        (
            &[
                (false, 31),
                (true, 4341),
                (false, 29),
                (true, 1),
                (false, 5597),
                (true, 1),
            ],
            868,
            &[(31, 4096), (4127, 245), (4401, 1), (9999, 1)],
        ),
        (&[(false, 10_000)], 0, &[]),
        (
            &[(true, 10_000)],
            2000,
            &[(0, 4096), (4096, 4096), (8192, 1808)],
        ),
    ];
    let bytes = digits(&rt, 10_000);
    for (runs, hits, reads) in cases {
        let mut store = store_of(&rt, &[], &[("D/p0000/a", &bytes)]);
        match threes_and_fours::<_, Brand>(&rt, rt.blank(), &mut store, 10_000, runs) {
            Ok(count) => assert!(rt; count == hits),
            Err(_) => rt.panic("not found"),
        }
        assert!(rt; reads_of(&rt, &store, "D/p0000/a").as_slice() == reads);
    }
    Ok(())
}

/// A file that ends too early is told, and so is a store that fails.
#[test]
fn values_that_cannot_be_read(rt: HostRuntime) -> Result<(), Fail> {
    let mut short = store_of(&rt, &[], &[("D/p0000/a", b"\x03\x04")]);
    match threes_and_fours::<_, Brand>(&rt, rt.blank(), &mut short, 3, &[(true, 3)]) {
        Err(FindFault::Values(ColFault::WrongLength { want: 3, have: 2 })) => (),
        _ => rt.panic("a short file passes"),
    }
    let fails = [FailAt {
        call: 1,
        keep_new: false,
    }];
    let mut failing = store_of(&rt, &fails, &[("D/p0000/a", b"\x03\x04\x05")]);
    match threes_and_fours::<_, Brand>(&rt, rt.blank(), &mut failing, 3, &[(true, 3)]) {
        Err(FindFault::Values(ColFault::Store)) => (),
        _ => rt.panic("a failed read passes"),
    }
    Ok(())
}

// ---- texts

/// Where the texts ape, fig, the empty text, apple and the empty text begin, and where the last one ends.
const STARTS: &[u8] = &[
    0, 0, 0, 0, 0, 0, 0, 0, 3, 0, 0, 0, 0, 0, 0, 0, 6, 0, 0, 0, 0, 0, 0, 0, 6, 0, 0, 0, 0, 0, 0, 0,
    11, 0, 0, 0, 0, 0, 0, 0, 11, 0, 0, 0, 0, 0, 0, 0,
];

/// The bits 11111.
const ALL: &[u8] = &[5, 0, 0, 0, 0, 0, 0, 0, 31, 0, 0, 0];

fn label<R: Abort + AllocGlobal>(rt: &R, text: &[u8]) -> Label {
    match Label::from_bytes(rt.alloc(), text) {
        Ok(label) => label,
        Err(_) => rt.panic("out of memory"),
    }
}

fn column_name<R: Abort + AllocGlobal>(rt: &R) -> ColName {
    match ColName::from_bytes(rt.alloc(), b"t") {
        Ok(Some(name)) => name,
        _ => rt.panic("no name"),
    }
}

/// How many of the candidates meet a condition.
fn texts_that_meet<R: Abort + AllocGlobal, L: Ledger>(
    rt: &R,
    blank: Blank,
    store: &mut MemStore,
    condition: &Atom,
    runs: Runs,
) -> Result<u64, FindFault>
    requires ledger { blank.name ≡ L.name }
    requires parts { blank.parts ≡ L.parts }
    requires some { 0 < blank.parts }
{
    let Ok(text) = open_text(
        rt.alloc(),
        store,
        &named(rt, "D/p0000/t"),
        &named(rt, "D/p0000/t.sp"),
        &named(rt, "D/p0000/t.msk"),
        5,
    ) else {
        rt.panic("not opened")
    };
    let candidates = vector(rt, runs);
    assert!(rt; candidates.len() == 5);
    let mut steps = Steps::<L>::new(blank);
    let found = texts_found(rt.alloc(), store, &text, condition, &candidates, &mut steps)?;
    Ok(count_ones(&found, &mut steps))
}

/// Texts are read in runs of neighbours, and empty ones alone aren't read.
#[test]
fn texts_are_read_in_runs(rt: HostRuntime) -> Result<(), Fail> {
    let condition = Atom::Like {
        name: column_name(&rt),
        pattern: label(&rt, b"ap%"),
    };
    let cases: [(Runs, u64, &[Read]); 3] = [
        (&[(true, 5)], 2, &[(0, 11)]),
        (
            &[(true, 1), (false, 1), (true, 2), (false, 1)],
            2,
            &[(0, 3), (6, 5)],
        ),
        (&[(false, 2), (true, 1), (false, 1), (true, 1)], 0, &[]),
    ];
    for (runs, hits, reads) in cases {
        let mut store = store_of(
            &rt,
            &[],
            &[
                ("D/p0000/t", b"apefigapple"),
                ("D/p0000/t.sp", STARTS),
                ("D/p0000/t.msk", ALL),
            ],
        );
        match texts_that_meet::<_, Brand>(&rt, rt.blank(), &mut store, &condition, runs) {
            Ok(count) => assert!(rt; count == hits),
            Err(_) => rt.panic("not found"),
        }
        assert!(rt; reads_of(&rt, &store, "D/p0000/t").as_slice() == reads);
    }
    Ok(())
}

/// A text that the store fails to give is told.
#[test]
fn texts_that_cannot_be_read(rt: HostRuntime) -> Result<(), Fail> {
    let condition = Atom::Exists {
        name: column_name(&rt),
    };
    let fails = [FailAt {
        call: 8,
        keep_new: false,
    }];
    let mut store = store_of(
        &rt,
        &fails,
        &[
            ("D/p0000/t", b"apefigapple"),
            ("D/p0000/t.sp", STARTS),
            ("D/p0000/t.msk", ALL),
        ],
    );
    match texts_that_meet::<_, Brand>(&rt, rt.blank(), &mut store, &condition, &[(true, 5)]) {
        Err(FindFault::Texts(TextFault::Store)) => (),
        _ => rt.panic("a failed read passes"),
    }
    Ok(())
}
