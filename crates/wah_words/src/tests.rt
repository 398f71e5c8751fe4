ghost use Rattle.std.specs.Prelude.{◌≡◌, ◌<◌};

use super::*;
use std::alloc::{AllocError, Global};
use std::marker::Brand;
use std::sync::ledger::Ledger;
use std::test::Fail;
use steps::{Blank, Count, Steps};

/// The vector of these runs of values, where there is room for them.
fn built(alloc: Global, runs: &[(bool, u32)]) -> Result<Option<Wah>, AllocError> {
    let mut builder = Builder::with_room(alloc, 16)?;
    for (bit, count) in runs {
        for _ in 0..*count {
            if builder.spare() == 0 || builder.len() >= MAX_LEN {
                return Ok(None);
            }
            builder.push_bit(*bit);
        }
    }
    Ok(Some(builder.finish()))
}

/// The bytes of the vector's copy.
fn bytes_of<L: Ledger>(blank: Blank, alloc: Global, vector: &Wah) -> Result<Vec<u8>, AllocError>
    requires ledger { blank.name ≡ L.name }
    requires parts { blank.parts ≡ L.parts }
    requires some { 0 < blank.parts }
{
    let mut steps = Steps::<L>::new(blank);
    let copied = vector.copy(alloc, &mut steps)?;
    copied.to_bytes(alloc, &mut steps)
}

/// The vector's words as runs.
fn runs_of<L: Ledger>(blank: Blank, alloc: Global, vector: &Wah) -> Result<Vec<Run>, AllocError>
    requires ledger { blank.name ≡ L.name }
    requires parts { blank.parts ≡ L.parts }
    requires some { 0 < blank.parts }
{
    let mut steps = Steps::<L>::new(blank);
    let mut cursor = vector.cursor();
    let mut runs = Vec::new(alloc);
    while let Some(run) = cursor.advance(&mut steps) {
        runs.push(run)?;
    }
    Ok(runs)
}

/// The first word of a vector that has a group.
fn first_of<L: Ledger>(blank: Blank, vector: &Wah) -> Option<Run>
    requires ledger { blank.name ≡ L.name }
    requires parts { blank.parts ≡ L.parts }
    requires some { 0 < blank.parts }
{
    if vector.len() < 31 {
        return None;
    }
    let mut steps = Steps::<L>::new(blank);
    let mut cursor = vector.cursor();
    Some(cursor.advance_regular(&mut steps))
}

const ONES: &[(bool, u32)] = &[(true, 31)];

const ONES_AND_ONE: &[(bool, u32)] = &[(true, 32)];

const MANY_ZEROS: &[(bool, u32)] = &[(false, 62), (true, 31), (false, 310)];

const MIXED: &[(bool, u32)] = &[(true, 1), (false, 20), (true, 3), (false, 79), (true, 25)];

const FEW: &[(bool, u32)] = &[(true, 1), (false, 1), (true, 1), (false, 2)];

const MIXED_BYTES: &[u8] = &[
    0x80, 0, 0, 0, 3, 0, 0, 0, 0x80, 3, 0, 0x40, 2, 0, 0, 0x80, 0xFF, 0xFF, 0x1F, 0, 0x0F, 0, 0, 0,
];

const ONES_AND_ONE_BYTES: &[u8] = &[32, 0, 0, 0, 1, 0, 0, 0, 1, 0, 0, 0xC0, 1, 0, 0, 0];

const MANY_ZEROS_BYTES: &[u8] = &[
    0x93, 1, 0, 0, 3, 0, 0, 0, 2, 0, 0, 0x80, 1, 0, 0, 0xC0, 10, 0, 0, 0x80,
];

#[test]
fn vectors_have_these_bytes(rt: HostRuntime) -> Result<(), Fail> {
    let table: [(&[(bool, u32)], u32, &[u8]); 6] = [
        (&[], 0, &[0, 0, 0, 0, 0, 0, 0, 0]),
        (ONES, 1, &[31, 0, 0, 0, 1, 0, 0, 0, 1, 0, 0, 0xC0]),
        (ONES_AND_ONE, 2, ONES_AND_ONE_BYTES),
        (MIXED, 4, MIXED_BYTES),
        (FEW, 1, &[5, 0, 0, 0, 0, 0, 0, 0, 0x14, 0, 0, 0]),
        (MANY_ZEROS, 3, MANY_ZEROS_BYTES),
    ];
    for (runs, words, bytes) in table {
        let vector = built(rt.alloc(), runs)?.ok_or("no room")?;
        assert_eq!(rt; vector.words(), words);
        let spelled = bytes_of::<Brand>(rt.blank(), rt.alloc(), &vector)?;
        assert_eq!(rt; spelled.as_slice(), bytes);
        let (again, used) = Wah::from_bytes(rt.alloc(), bytes)?;
        assert_eq!(rt; used, bytes.len());
        let spelled = bytes_of::<Brand>(rt.blank(), rt.alloc(), &again)?;
        assert_eq!(rt; spelled.as_slice(), bytes);
    }
    Ok(())
}

#[test]
fn a_cursor_gives_the_runs_in_order(rt: HostRuntime) -> Result<(), Fail> {
    let vector = built(rt.alloc(), MIXED)?.ok_or("no room")?;
    let runs = runs_of::<Brand>(rt.blank(), rt.alloc(), &vector)?;
    let want = [
        Run::Literal(0x4000_0380),
        Run::Fill {
            bit: false,
            groups: 2,
        },
        Run::Literal(0x001F_FFFF),
        Run::Tail {
            bits: 0x0F,
            count: 4,
        },
    ];
    assert_eq!(rt; runs.as_slice(), want.as_slice());
    let first = first_of::<Brand>(rt.blank(), &vector);
    assert_eq!(rt; first, Some(Run::Literal(0x4000_0380)));
    Ok(())
}

#[test]
fn hostile_bytes_are_refused(rt: HostRuntime) {
    let table: [(&[u8], WordsFault); 14] = [
        (&[31, 0, 0, 0, 1, 0, 0], WordsFault::Short),
        (&[], WordsFault::Short),
        // a length over the limit, and one just at it
        (&[1, 0, 0x40, 0, 0, 0, 0, 0], WordsFault::TooLong),
        (
            &[0xFF, 0xFF, 0xFF, 0xFF, 0xFF, 0xFF, 0xFF, 0xFF],
            WordsFault::TooLong,
        ),
        (&[0, 0, 0x40, 0, 0, 0, 0, 0], WordsFault::Short),
        // more words than groups, and words that are not there
        (
            &[31, 0, 0, 0, 2, 0, 0, 0, 1, 0, 0, 0xC0],
            WordsFault::Groups,
        ),
        (&[0, 0, 0x40, 0, 0, 1, 0, 0, 1, 0, 0, 0], WordsFault::Short),
        // literals of equal values, and a fill of no group
        (
            &[31, 0, 0, 0, 1, 0, 0, 0, 0, 0, 0, 0],
            WordsFault::NotCanonical(0),
        ),
        (
            &[31, 0, 0, 0, 1, 0, 0, 0, 0xFF, 0xFF, 0xFF, 0x7F],
            WordsFault::NotCanonical(0),
        ),
        (
            &[62, 0, 0, 0, 2, 0, 0, 0, 1, 0, 0, 0, 0, 0, 0, 0x80],
            WordsFault::NotCanonical(1),
        ),
        // two fills of one value, and an active word that is too high
        (
            &[62, 0, 0, 0, 2, 0, 0, 0, 1, 0, 0, 0x80, 1, 0, 0, 0x80],
            WordsFault::NotCanonical(1),
        ),
        (
            &[32, 0, 0, 0, 1, 0, 0, 0, 1, 0, 0, 0xC0, 2, 0, 0, 0],
            WordsFault::NotCanonical(1),
        ),
        // too few groups, and far too many
        (
            &[62, 0, 0, 0, 1, 0, 0, 0, 1, 0, 0, 0x80],
            WordsFault::Groups,
        ),
        (
            &[
                62, 0, 0, 0, 2, 0, 0, 0, 0xFF, 0xFF, 0xFF, 0xFF, 0xFF, 0xFF, 0xFF, 0xBF,
            ],
            WordsFault::Groups,
        ),
    ];
    for (bytes, want) in table {
        assert_eq!(rt; Wah::from_bytes(rt.alloc(), bytes).err(), Some(want));
    }
}
