ghost use Rattle.std.specs.Prelude.{◌≡◌, ◌<◌};
ghost use Rattle.fb_outside.specs.Names.{IsPath};
ghost use Rattle.dataset.specs.Opened.{IsDataset};
ghost use Rattle.where_plan.specs.Plans.{FitsSchema};

use crate::sample_files::{File, NUMBERS, WORDS};
use crate::{AskFault, Chosen, bounds, choose};
use dataset::{DamageKind, Dataset, open_dataset};
use fb_outside::{FailAt, FileName, MemStore, Store};
use std::marker::Brand;
use std::process::Abort;
use std::sync::ledger::Ledger;
use std::test::Fail;
use steps::{Blank, Count, Steps};
use wah_iter::count_ones;
use where_grammar::parse_where;
use where_plan::{Plan, resolve};

/// The two numbers of an estimate, the number of hits, and of checks.
type Numbers = (u64, u64, u64, u64);

/// The kind of a damage, what had to be there, and what is.
type Damage = (DamageKind, u64, u64);

fn named<R: Abort + AllocGlobal>(rt: &R, text: &str) -> FileName {
    match FileName::from_str(rt.alloc(), text) {
        Ok(Some(name)) => name,
        _ => rt.panic("no name"),
    }
}

fn path<R: Abort + AllocGlobal>(rt: &R, text: &str) -> FileName
    ensures { IsPath result }
{
    let name = named(rt, text);
    assert!(rt; name.is_path());
    name
}

/// A store of these files, but for that of one name, and then of those, whose calls with these numbers fail once the files are
/// put.
fn store<R: Abort + AllocGlobal>(
    rt: &R,
    files: &[File],
    without: &str,
    more: &[File],
    fails: &[FailAt],
) -> MemStore {
    let Ok(mut store) = MemStore::make(rt.alloc(), fails, 99) else {
        rt.panic("out of memory")
    };
    put_all(rt, &mut store, files, without);
    put_all(rt, &mut store, more, "");
    store
}

fn put_all<R: Abort + AllocGlobal>(rt: &R, store: &mut MemStore, files: &[File], without: &str) {
    for (name, bytes) in files {
        if *name != without {
            assert!(rt; store.put(named(rt, name).as_str(), bytes).is_ok());
        }
    }
}

fn dataset_at<R: Abort + AllocGlobal>(rt: &R, store: &mut MemStore, dir: &str) -> Dataset
    ensures { IsDataset result }
{
    match open_dataset(rt.alloc(), store, &path(rt, dir)) {
        Ok(dataset) => dataset,
        Err(_) => rt.panic("no dataset"),
    }
}

fn planned<R: Abort + AllocGlobal>(rt: &R, dataset: &Dataset, text: &str) -> Plan
    ensures { FitsSchema dataset.now.schema result }
{
    let Ok(clause) = parse_where(rt.alloc(), text) else {
        rt.panic("no clause")
    };
    match resolve(rt.alloc(), Some(&clause), &dataset.schema) {
        Ok(plan) => plan,
        Err(_) => rt.panic("no plan"),
    }
}

/// What a plan gives over a dataset, and how many rows are chosen in its last part.
fn numbers<R: Abort + AllocGlobal, L: Ledger>(
    rt: &R,
    blank: Blank,
    store: &mut MemStore,
    dataset: &Dataset,
    plan: &Plan,
) -> Result<(Numbers, u64), AskFault>
    requires ledger { blank.name ≡ L.name }
    requires parts { blank.parts ≡ L.parts }
    requires some { 0 < blank.parts }
    requires valid { IsDataset dataset.now }
    requires fits { FitsSchema dataset.now.schema plan.now }
{
    let mut steps = Steps::<L>::new(blank);
    let found = bounds(rt.alloc(), store, dataset, plan, &mut steps)?;
    let chosen = choose(rt.alloc(), store, dataset, plan, &mut steps)?;
    let numbers = (found.definite, found.possible, chosen.hits, chosen.checked);
    Ok((numbers, last_rows(rt, &chosen, &mut steps)))
}

/// The same of a clause over the dataset at a path.
fn asked<R: Abort + AllocGlobal + Count>(
    rt: &R,
    store: &mut MemStore,
    dir: &str,
    text: &str,
) -> Result<(Numbers, u64), AskFault> {
    let dataset = dataset_at(rt, store, dir);
    let plan = planned(rt, &dataset, text);
    numbers::<R, Brand>(rt, rt.blank(), store, &dataset, &plan)
}

/// How many rows are chosen in the last part.
fn last_rows<R: Abort, L: Ledger>(rt: &R, chosen: &Chosen, steps: &mut Steps<L>) -> u64 {
    match chosen.parts.as_slice().last() {
        Some(rows) => count_ones(rows, steps),
        None => rt.panic("no part"),
    }
}

/// The parts stand in the order of the catalog, and their numbers are added up.
#[test]
fn parts_are_answered_in_order(rt: HostRuntime) -> Result<(), Fail> {
    for (text, want) in [
        ("3 < a < 9", ((4, 9, 6, 5), 1)),
        ("not (a < 5)", ((4, 10, 8, 6), 2)),
        ("a < 4", ((3, 5, 4, 2), 1)),
        ("exists(a)", ((12, 12, 12, 0), 2)),
        ("a > 100", ((0, 2, 0, 2), 0)),
    ] {
        let mut store = store(&rt, NUMBERS, "", &[], &[]);
        match asked(&rt, &mut store, "D", text) {
            Ok(have) => assert!(rt; have == want),
            Err(_) => rt.panic("no answer"),
        }
    }
    Ok(())
}

/// The clause is refused for this file, which is missing or as it is put.
fn is_damaged<R: Abort + AllocGlobal + Count>(
    rt: &R,
    files: &[File],
    dir: &str,
    text: &str,
    file: &str,
    bytes: Option<&'static [u8]>,
    want: Damage,
) {
    let mut store = store(rt, files, file, &[], &[]);
    if let Some(bytes) = bytes {
        assert!(rt; store.put(named(rt, file).as_str(), bytes).is_ok());
    }
    match asked(rt, &mut store, dir, text) {
        Err(
            AskFault::Damaged {
                file: found,
                kind,
                want: wanted,
                have,
            },
        ) => {
            assert!(rt; found.as_str() == file);
            assert!(rt; (kind, wanted, have) == want);
        }
        _ => rt.panic("it passes"),
    }
}

/// The damaged file is named by the part that has it, whichever it is.
#[test]
fn damaged_numbers_are_named(rt: HostRuntime) -> Result<(), Fail> {
    let cases: [(&str, Option<&'static [u8]>, Damage); 9] = [
        ("D/p0002/a.msk", None, (DamageKind::Missing, 0, 0)),
        ("D/p0002/a.msk", Some(b""), (DamageKind::Mask, 0, 0)),
        (
            "D/p0002/a.msk",
            Some(b"\x02\x00\x00\x00\x00\x00\x00\x00\x03\x00\x00\x00"),
            (DamageKind::Mask, 3, 2),
        ),
        ("D/p0002/a", None, (DamageKind::Missing, 0, 0)),
        ("D/p0002/a", Some(b"\x03"), (DamageKind::Length, 12, 1)),
        ("D/p0000/a", Some(b""), (DamageKind::Length, 40, 0)),
        ("D/p0000/a.idx", Some(b"FBIX"), (DamageKind::Index, 0, 0)),
        (
            "D/p0000/a.idx",
            Some(
                b"FBIX\x01\x00\x00\x00\x0b\x00\x00\x00\x00\x00\x00\x00\x00\x00\x00\x00\x00\x00\x00\x00 \x00\x00\x00\x00\x00\x00\x00",
            ),
            (DamageKind::Index, 10, 11),
        ),
        ("D/p0000/a.msk", None, (DamageKind::Missing, 0, 0)),
    ];
    for (file, bytes, want) in cases {
        is_damaged(&rt, NUMBERS, "D", "3 < a < 9", file, bytes, want);
    }
    Ok(())
}

#[test]
fn damaged_words_and_texts_are_named(rt: HostRuntime) -> Result<(), Fail> {
    let cases: [(&str, &str, Option<&'static [u8]>, Damage); 8] = [
        (
            "c = 'x'",
            "W/p0000/c.dic",
            None,
            (DamageKind::Missing, 0, 0),
        ),
        (
            "c = 'x'",
            "W/p0000/c.dic",
            Some(b"\x01"),
            (DamageKind::Words, 0, 0),
        ),
        ("t = 'x'", "W/p0000/t", None, (DamageKind::Missing, 0, 0)),
        (
            "t = 'x'",
            "W/p0000/t",
            Some(b"apple"),
            (DamageKind::Length, 5, 15),
        ),
        ("t = 'x'", "W/p0000/t.sp", None, (DamageKind::Missing, 0, 0)),
        (
            "t = 'x'",
            "W/p0000/t.sp",
            Some(b""),
            (DamageKind::Starts, 48, 0),
        ),
        (
            "t = 'x'",
            "W/p0000/t.msk",
            None,
            (DamageKind::Missing, 0, 0),
        ),
        (
            "t = 'x'",
            "W/p0000/t.msk",
            Some(b""),
            (DamageKind::Mask, 0, 0),
        ),
    ];
    for (text, file, bytes, want) in cases {
        is_damaged(&rt, WORDS, "W", text, file, bytes, want);
    }
    Ok(())
}

/// A file of another column isn't looked at.
#[test]
fn damages_elsewhere_are_not_told(rt: HostRuntime) -> Result<(), Fail> {
    let more: [File; 2] = [("W/p0000/c.dic", b""), ("W/p0000/c.msk", b"")];
    let mut store = store(&rt, WORDS, "", &more, &[]);
    match asked(&rt, &mut store, "W", "t like 'ap%'") {
        Ok(have) => assert!(rt; have == ((0, 4, 2, 4), 2)),
        Err(_) => rt.panic("no answer"),
    }
    Ok(())
}

/// Each call on the store that fails is told, and none is taken for another fault.
#[test]
fn failing_calls_are_told(rt: HostRuntime) -> Result<(), Fail> {
    let mut is_answered = false;
    let mut is_refused = false;
    for call in 6..60 {
        let fail = FailAt {
            call: NUMBERS.len() as u64 + call,
            keep_new: false,
        };
        let mut store = store(&rt, NUMBERS, "", &[], &[fail]);
        match asked(&rt, &mut store, "D", "3 < a < 9") {
            Ok(have) => {
                assert!(rt; have == ((4, 9, 6, 5), 1));
                is_answered = true;
            }
            Err(AskFault::Store) => is_refused = true,
            Err(_) => rt.panic("another fault"),
        }
    }
    assert!(rt; is_answered && is_refused);
    Ok(())
}
