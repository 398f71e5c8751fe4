ghost use Rattle.std.specs.Prelude.{◌≡◌, ◌-◌, ◌<◌, ◌≤◌, IfOk};
ghost use Rattle.std.specs.List.{range_with_len};

use super::*;
use std::alloc::{AllocError, Global};
use std::marker::Brand;
use std::sync::ledger::Ledger;
use std::test::Fail;
use steps::{Blank, Count, Steps};
use wah_words::{Builder, MAX_LEN, Wah};

/// The vector of these runs of values, where there is room for them.
fn built(alloc: Global, runs: &[(bool, u32)]) -> Result<Option<Wah>, AllocError> {
    let mut builder = Builder::with_room(alloc, 16)?;
    for (bit, count) in runs {
        for _ in 0..*count {
            if builder.spare() == 0 || builder.len() >= MAX_LEN {
                return Ok(None);
            }
            builder.push_bit(*bit);
        }
    }
    Ok(Some(builder.finish()))
}

/// What the calls that look at one vector answer.
#[derive(Debug, Drop, PartialEq)]
struct Look {
    count: u64,
    rows: Vec<u32>,
    runs: Vec<(u32, u32)>,
}

fn rows_in<L: Ledger>(
    alloc: Global,
    v: &Wah,
    steps: &mut Steps<L>,
) -> Result<Vec<u32>, AllocError> {
    let mut walk = ones(v);
    let mut rows = Vec::new(alloc);
    while let Some(row) = walk.advance(steps) {
        rows.push(row)?;
    }
    Ok(rows)
}

fn runs_in<L: Ledger>(
    alloc: Global,
    v: &Wah,
    steps: &mut Steps<L>,
) -> Result<Vec<(u32, u32)>, AllocError> {
    let mut walk = row_runs(v);
    let mut runs = Vec::new(alloc);
    while let Some(run) = walk.advance(steps) {
        runs.push(run)?;
    }
    Ok(runs)
}

fn look_at<L: Ledger>(blank: Blank, alloc: Global, v: &Wah) -> Result<Look, AllocError>
    requires ledger { blank.name ≡ L.name }
    requires parts { blank.parts ≡ L.parts }
    requires some { 0 < blank.parts }
{
    let mut steps = Steps::<L>::new(blank);
    Ok(Look {
        count: count_ones(v, &mut steps),
        rows: rows_in(alloc, v, &mut steps)?,
        runs: runs_in(alloc, v, &mut steps)?,
    })
}

/// The value at the place, where there is one.
fn value_at<L: Ledger>(blank: Blank, v: &Wah, place: u32) -> Option<bool>
    requires ledger { blank.name ≡ L.name }
    requires parts { blank.parts ≡ L.parts }
    requires some { 0 < blank.parts }
{
    let mut steps = Steps::<L>::new(blank);
    if place < v.len() {
        Some(get(v, place, &mut steps))
    } else {
        None
    }
}

#[derive(Drop)]
struct Parts {
    all: Vec<u8>,
    part: Vec<u8>,
    whole: Vec<u8>,
}

/// The bytes of the vector, of its part from `first` to `end`, and of both parts around `first` joined again.
fn parts_of<L: Ledger>(
    blank: Blank,
    alloc: Global,
    v: &Wah,
    first: u32,
    end: u32,
) -> Result<Option<Parts>, AllocError>
    requires ledger { blank.name ≡ L.name }
    requires parts { blank.parts ≡ L.parts }
    requires some { 0 < blank.parts }
{
    let mut steps = Steps::<L>::new(blank);
    if first > end || end > v.len() {
        return Ok(None);
    }
    let part = slice(alloc, v, first, end, &mut steps)?;
    let front = slice(alloc, v, 0, first, &mut steps)?;
    let back = slice(alloc, v, first, v.len(), &mut steps)?;
    if front.len() > MAX_LEN - back.len() {
        return Ok(None);
    }
    let whole = concat(alloc, &front, &back, &mut steps)?;
    Ok(Some(Parts {
        all: v.to_bytes(alloc, &mut steps)?,
        part: part.to_bytes(alloc, &mut steps)?,
        whole: whole.to_bytes(alloc, &mut steps)?,
    }))
}

fn bytes_of<L: Ledger>(blank: Blank, alloc: Global, v: &Wah) -> Result<Vec<u8>, AllocError>
    requires ledger { blank.name ≡ L.name }
    requires parts { blank.parts ≡ L.parts }
    requires some { 0 < blank.parts }
{
    let mut steps = Steps::<L>::new(blank);
    v.to_bytes(alloc, &mut steps)
}

#[test]
fn rows_make_a_vector_and_a_vector_rows(rt: HostRuntime) -> Result<(), Fail> {
    let few = from_rows(rt.alloc(), &[0, 2], 5)?;
    let bytes = bytes_of::<Brand>(rt.blank(), rt.alloc(), &few)?;
    assert_eq!(rt;
        bytes.as_slice(),
        [5, 0, 0, 0, 0, 0, 0, 0, 0x14, 0, 0, 0].as_slice()
    );
    let look = look_at::<Brand>(rt.blank(), rt.alloc(), &few)?;
    assert_eq!(rt; look.count, 2);
    assert_eq!(rt; look.rows.as_slice(), [0, 2].as_slice());
    assert_eq!(rt; look.runs.as_slice(), [(0, 1), (2, 3)].as_slice());
    assert_eq!(rt; value_at::<Brand>(rt.blank(), &few, 1), Some(false));
    assert_eq!(rt; value_at::<Brand>(rt.blank(), &few, 2), Some(true));
    Ok(())
}

/// The words 40000000, 40000000 and 80000001, and the active word 40.
#[test]
fn rows_are_kept_as_words(rt: HostRuntime) -> Result<(), Fail> {
    let starts = from_rows(rt.alloc(), &[0, 31, 93], 100)?;
    let bytes = bytes_of::<Brand>(rt.blank(), rt.alloc(), &starts)?;
    let want = [
        100, 0, 0, 0, 3, 0, 0, 0, 0, 0, 0, 0x40, 0, 0, 0, 0x40, 1, 0, 0, 0x80, 0x40, 0, 0, 0,
    ];
    assert_eq!(rt; bytes.as_slice(), want.as_slice());
    Ok(())
}

/// The rows from the first up to but not with `past`.
fn rows_between(alloc: Global, first: u32, past: u32) -> Result<Vec<u32>, AllocError>
    requires { first ≤ past }
    ensures { IfOk result (λ v. v.items ≡ range_with_len first (past - first)) }
{
    let mut rows = Vec::new(alloc);
    for row in first..past {
        rows.push(row)?;
    }
    Ok(rows)
}

/// The vector of 100 values that is true in these rows.
fn true_between(alloc: Global, first: u32, past: u32) -> Result<Option<Wah>, AllocError>
    requires { first ≤ past }
{
    if past > 100 {
        return Ok(None);
    }
    let rows = rows_between(alloc, first, past)?;
    Ok(Some(from_rows(alloc, &rows, 100)?))
}

/// Whole groups and none; all of them; a group without its first row, two whole ones, and one row more.
#[test]
fn rows_that_follow_each_other_are_fills(rt: HostRuntime) -> Result<(), Fail> {
    let table: [(u32, u32, &[u8]); 3] = [
        (7, 7, &[100, 0, 0, 0, 1, 0, 0, 0, 3, 0, 0, 0x80, 0, 0, 0, 0]),
        (
            0,
            93,
            &[100, 0, 0, 0, 1, 0, 0, 0, 3, 0, 0, 0xC0, 0, 0, 0, 0],
        ),
        (
            1,
            94,
            &[
                100, 0, 0, 0, 2, 0, 0, 0, 0xFF, 0xFF, 0xFF, 0x3F, 2, 0, 0, 0xC0, 0x40, 0, 0, 0,
            ],
        ),
    ];
    for (first, past, want) in table {
        assert!(rt; first <= past);
        let vector = true_between(rt.alloc(), first, past)?.ok_or("too far")?;
        let bytes = bytes_of::<Brand>(rt.blank(), rt.alloc(), &vector)?;
        assert_eq!(rt; bytes.as_slice(), want);
    }
    Ok(())
}

#[test]
fn walks_give_rows_and_runs(rt: HostRuntime) -> Result<(), Fail> {
    let table: [(&[(bool, u32)], &[(u32, u32)]); 7] = [
        (&[], &[]),
        (&[(false, 70)], &[]),
        (&[(true, 1)], &[(0, 1)]),
        // over a fill, two words and the tail
        (&[(false, 20), (true, 60), (false, 1)], &[(20, 80)]),
        (&[(true, 100)], &[(0, 100)]),
        // two runs that the border of two words parts
        (
            &[(false, 30), (true, 1), (false, 31), (true, 3)],
            &[(30, 31), (62, 65)],
        ),
        (
            &[
                (true, 2),
                (false, 1),
                (true, 1),
                (false, 27),
                (true, 31),
                (false, 4),
            ],
            &[(0, 2), (3, 4), (31, 62)],
        ),
    ];
    for (values, want) in table {
        let vector = built(rt.alloc(), values)?.ok_or("no room")?;
        let look = look_at::<Brand>(rt.blank(), rt.alloc(), &vector)?;
        assert_eq!(rt; look.runs.as_slice(), want);
        assert_eq!(rt; look.count, look.rows.len() as u64);
        let again = value_at::<Brand>(rt.blank(), &vector, vector.len());
        assert_eq!(rt; again, None);
    }
    Ok(())
}

#[test]
fn parts_are_the_values(rt: HostRuntime) -> Result<(), Fail> {
    let table: [(&[(bool, u32)], u32, u32, &[(bool, u32)]); 6] = [
        // 010 of 10100
        (
            &[(true, 1), (false, 1), (true, 1), (false, 2)],
            1,
            4,
            &[(false, 1), (true, 1), (false, 1)],
        ),
        // 1 and 01 are 101
        (
            &[(true, 1), (false, 1), (true, 1)],
            1,
            3,
            &[(false, 1), (true, 1)],
        ),
        (&[(true, 200)], 7, 7, &[]),
        (
            &[(false, 40), (true, 100)],
            39,
            134,
            &[(false, 1), (true, 94)],
        ),
        (
            &[(false, 5), (true, 62), (false, 31)],
            5,
            98,
            &[(true, 62), (false, 31)],
        ),
        (
            &[(true, 31), (false, 310), (true, 1)],
            31,
            342,
            &[(false, 310), (true, 1)],
        ),
    ];
    for (values, first, end, want) in table {
        let vector = built(rt.alloc(), values)?.ok_or("no room")?;
        let parts = parts_of::<Brand>(rt.blank(), rt.alloc(), &vector, first, end)?.ok_or(
            "no part",
        )?;
        assert_eq!(rt; parts.whole.as_slice(), parts.all.as_slice());
        let wanted = built(rt.alloc(), want)?.ok_or("no room")?;
        let bytes = bytes_of::<Brand>(rt.blank(), rt.alloc(), &wanted)?;
        assert_eq!(rt; parts.part.as_slice(), bytes.as_slice());
    }
    Ok(())
}
