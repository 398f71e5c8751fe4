//! Tables that are made from a number.

use crate::tests::{expect_load, expect_words};
use fb_outside::MemStore;
use std::test::Fail;
use steps::Count;

const USAGE: &str = "error 1 usage\n";

/// The one record of seed 0 has 807, the word `w5` and a null.
const MADE: &str = "loaded 1 rows\n\
built 2 indexes\n\
between 0 and 0\nhits 0\nchecked 0\nbetween 0 and 0\nhits 0\nchecked 0\nbetween 1 and 1\nhits 1\nchecked 0\n\
built 2 indexes\n\
between 0 and 0\nhits 0\nchecked 0\nbetween 0 and 0\nhits 0\nchecked 0\nbetween 1 and 1\nhits 1\nchecked 0\n\
built 2 indexes\n\
between 0 and 0\nhits 0\nchecked 0\nbetween 0 and 0\nhits 0\nchecked 0\nbetween 1 and 1\nhits 1\nchecked 0\n\
built 2 indexes\n\
between 0 and 0\nhits 0\nchecked 0\nbetween 0 and 0\nhits 0\nchecked 0\nbetween 1 and 1\nhits 1\nchecked 0\n";

/// The rows are a number from 1 to 1,000,000 and the seed one of at most 18 digits, and no word follows.
const REFUSED: &[&[&str]] = &[
    &["gen"],
    &["gen", "1"],
    &["gen", "0", "0"],
    &["gen", "1000001", "0"],
    &["gen", "x", "0"],
    &["gen", "1", "-1"],
    &["gen", "1", ""],
    &["gen", "1", "1000000000000000000"],
    &["gen", "1", "0", "0"],
];

#[test]
fn a_table_is_made_in_a_store_of_its_own(rt: HostRuntime) -> Result<(), Fail> {
    let mut store = MemStore::make(rt.alloc(), &[], 0)?;
    expect_words(&rt, rt.blank(), &mut store, &["gen", "1", "0"], 0, MADE)?;
    for words in REFUSED {
        expect_words(&rt, rt.blank(), &mut store, words, 1, USAGE)?;
    }
    let line = "gen 1 0\n";
    expect_load(&rt, rt.blank(), &mut store, &["session"], line, 0, USAGE)?;
    assert!(rt; store.name(0).is_none(), "the caller's store has no file");
    Ok(())
}
