ghost use Rattle.std.specs.Prelude.{◌≡◌, ◌<◌, IsUtf8};
ghost use Rattle.fb_outside.specs.Names.{IsPath};

use crate::sample_files::{File, NULLS, TEN};
use crate::{answer, estimate};
use fb_outside::{FileName, MemStore, Store};
use fb_types::Label;
use statuses::Unanswered;
use std::alloc::{AllocError, Global};
use std::marker::Brand;
use std::process::Abort;
use std::sync::ledger::Ledger;
use std::test::Fail;
use steps::{Blank, Count, Steps};

fn named<R: Abort + AllocGlobal>(rt: &R, text: &str) -> FileName {
    match FileName::from_str(rt.alloc(), text) {
        Ok(Some(name)) => name,
        _ => rt.panic("no name"),
    }
}

/// A path.
fn path<R: Abort + AllocGlobal>(rt: &R, text: &str) -> FileName
    ensures { IsPath result }
{
    let name = named(rt, text);
    assert!(rt; name.is_path());
    name
}

fn put_all<R: Abort + AllocGlobal>(rt: &R, store: &mut MemStore, files: &[File]) {
    for (name, bytes) in files {
        assert!(rt; store.put(named(rt, name).as_str(), bytes).is_ok());
    }
}

fn store_of<R: Abort + AllocGlobal>(rt: &R) -> MemStore {
    let Ok(mut store) = MemStore::make(rt.alloc(), &[], 1000) else {
        rt.panic("out of memory")
    };
    put_all(rt, &mut store, TEN);
    put_all(rt, &mut store, NULLS);
    store
}

/// The line of a refusal; None where the store failed or memory ran out.
fn refused(alloc: Global, stop: &Unanswered) -> Result<Option<String>, AllocError> {
    match stop {
        Unanswered::Refused(status) => Ok(Some(status.line(alloc)?)),
        _ => Ok(None),
    }
}

/// The hits and the checks, or the refusal's line.
fn answered<L: Ledger>(
    blank: Blank,
    alloc: Global,
    store: &mut MemStore,
    dir: &FileName,
    query: &Label,
) -> Result<Option<String>, AllocError>
    requires text { IsUtf8 query.now }
    requires ledger { blank.name ≡ L.name }
    requires parts { blank.parts ≡ L.parts }
    requires some { 0 < blank.parts }
    requires path { IsPath dir.now }
{
    let mut steps = Steps::<L>::new(blank);
    match answer(alloc, dir, query, store, &mut steps) {
        Ok(counted) => {
            let text = format!(in alloc; "{} hits, {} checked", counted.hits, counted.checked)?;
            Ok(Some(text))
        }
        Err(stop) => refused(alloc, &stop),
    }
}

/// The two numbers of an estimate, or the refusal's line.
fn estimated<L: Ledger>(
    blank: Blank,
    alloc: Global,
    store: &mut MemStore,
    dir: &FileName,
    query: &Label,
) -> Result<Option<String>, AllocError>
    requires text { IsUtf8 query.now }
    requires ledger { blank.name ≡ L.name }
    requires parts { blank.parts ≡ L.parts }
    requires some { 0 < blank.parts }
    requires path { IsPath dir.now }
{
    let mut steps = Steps::<L>::new(blank);
    match estimate(alloc, dir, query, store, &mut steps) {
        Ok(bounds) => {
            let text = format!(in alloc; "{} to {}", bounds.definite, bounds.possible)?;
            Ok(Some(text))
        }
        Err(stop) => refused(alloc, &stop),
    }
}

fn check<R: Abort + AllocGlobal>(rt: &R, query: &str, have: Option<String>, want: &str) {
    match have {
        Some(have) => assert!(rt; have.as_str() == want, "{query}"),
        None => rt.panic("an answer stopped"),
    }
}

fn check_answer<R: Abort + AllocGlobal>(
    rt: &R,
    blank: Blank,
    store: &mut MemStore,
    dir: &FileName,
    query: &str,
    want: &str,
) -> Result<(), AllocError>
    requires path { IsPath dir.now }
    requires some { 0 < blank.parts }
{
    let asked = Label::from_bytes(rt.alloc(), query.as_bytes())?;
    let have = answered::<Brand>(blank, rt.alloc(), store, dir, &asked)?;
    check(rt, query, have, want);
    Ok(())
}

fn check_estimate<R: Abort + AllocGlobal>(
    rt: &R,
    blank: Blank,
    store: &mut MemStore,
    dir: &FileName,
    query: &str,
    want: &str,
) -> Result<(), AllocError>
    requires path { IsPath dir.now }
    requires some { 0 < blank.parts }
{
    let asked = Label::from_bytes(rt.alloc(), query.as_bytes())?;
    let have = estimated::<Brand>(blank, rt.alloc(), store, dir, &asked)?;
    check(rt, query, have, want);
    Ok(())
}

#[test]
fn the_first_refusal_is_told(rt: HostRuntime) -> Result<(), Fail> {
    let mut store = store_of(&rt);
    let rows = [
        ("D", "select a", "error 6 query Syntax\n"),
        (
            "D",
            "1000000000000000000000000000000000000000 < a",
            "error 6 query Syntax\n",
        ),
        (
            "D",
            "where 1000000000000000000000000000000000000000 < a",
            "error 6 query Literal\n",
        ),
        ("D", "where a <", "error 6 query Syntax\n"),
        ("D", "where z < 1", "error 6 query Unknown z\n"),
        ("D", "where a = 'x'", "error 6 query WrongType a\n"),
        (
            "D",
            "where a < 1 and z < 2 or b = 'y'",
            "error 6 query Unknown z\n",
        ),
        ("E", "where z <", "error 6 query Syntax\n"),
        ("E", "where z < 1", "error 7 missing E/-catalog.txt\n"),
    ];
    for (dir, query, want) in rows {
        let dir = path(&rt, dir);
        check_answer(&rt, rt.blank(), &mut store, &dir, query, want)?;
        check_estimate(&rt, rt.blank(), &mut store, &dir, query, want)?;
    }
    Ok(())
}

#[test]
fn numbers_of_answers_and_estimates(rt: HostRuntime) -> Result<(), Fail> {
    let mut store = store_of(&rt);
    let rows = [
        ("D", "where 3 < a < 9", "5 hits, 3 checked", "4 to 7"),
        ("D", "where a < 4", "3 hits, 0 checked", "3 to 3"),
        ("D", "where a < 9 and b = 1", "1 hits, 1 checked", "0 to 1"),
        ("D", "where a in (4,5,6,7)", "4 hits, 0 checked", "4 to 4"),
        (
            "D",
            "where a < 4 xor a < 9 xor b = 1",
            "4 hits, 3 checked",
            "4 to 7",
        ),
        ("D", "", "10 hits, 0 checked", "10 to 10"),
        ("N", "where not (a < 5)", "2 hits, 2 checked", "1 to 3"),
        ("N", "where a != 5", "1 hits, 2 checked", "0 to 2"),
        ("N", "where not (a = 5)", "2 hits, 2 checked", "1 to 3"),
        ("N", "where a >= 5", "1 hits, 2 checked", "0 to 2"),
        ("N", "where exists(a)", "2 hits, 0 checked", "2 to 2"),
    ];
    for (dir, query, hits, bounds) in rows {
        let dir = path(&rt, dir);
        check_answer(&rt, rt.blank(), &mut store, &dir, query, hits)?;
        check_estimate(&rt, rt.blank(), &mut store, &dir, query, bounds)?;
    }
    Ok(())
}

#[test]
fn a_damaged_index_is_named(rt: HostRuntime) -> Result<(), Fail> {
    let mut store = store_of(&rt);
    let dir = path(&rt, "D");
    assert!(rt;
        store
            .put(named(&rt, "D/p0000/a.idx").as_str(), b"FBIX")
            .is_ok()
    );
    let line = "error 8 damaged D/p0000/a.idx Index\n";
    check_answer(&rt, rt.blank(), &mut store, &dir, "where a < 4", line)?;
    check_estimate(&rt, rt.blank(), &mut store, &dir, "where a < 4", line)?;
    check_answer(
        &rt,
        rt.blank(),
        &mut store,
        &dir,
        "where b = 1",
        "1 hits, 0 checked",
    )?;
    Ok(())
}
