ghost use Rattle.std.specs.Prelude.{◌≡◌, ◌<◌};

use crate::sample_indexes::{EQUALITY, INTERVAL, RANGE, TWO_LEVEL};
use crate::{BinsFault, OpenIndex};
use binning::{Span, Spans};
use fb_outside::{FailAt, FileName, MemStore, Store};
use index_file::{IndexFault, open_index};
use std::marker::Brand;
use std::process::Abort;
use std::sync::ledger::Ledger;
use std::test::Fail;
use steps::{Blank, Count, Steps};
use wah_words::Wah;

const NAME: &str = "D/p0000/a.idx";

/// Ten rows that all have a value.
const MASK: &[u8] = &[10, 0, 0, 0, 0, 0, 0, 0, 255, 3, 0, 0];

/// The rows that are Yes, and those that aren't No, as the bytes of vectors.
type Found = (Vec<u8>, Vec<u8>);

fn named<R: Abort + AllocGlobal>(rt: &R) -> FileName {
    match FileName::from_str(rt.alloc(), NAME) {
        Ok(Some(name)) => name,
        _ => rt.panic("no name"),
    }
}

/// A store with an index file, whose calls with these numbers fail.
fn store_of<R: Abort + AllocGlobal>(rt: &R, bytes: &[u8], fails: &[FailAt]) -> MemStore {
    let Ok(mut store) = MemStore::make(rt.alloc(), fails, 99) else {
        rt.panic("out of memory")
    };
    assert!(rt; store.put(named(rt).as_str(), bytes).is_ok());
    store
}

fn opened<R: Abort + AllocGlobal>(rt: &R, store: &mut MemStore) -> OpenIndex {
    let Ok(Some(head)) = open_index(rt.alloc(), store, &named(rt), 10) else {
        rt.panic("not opened")
    };
    let Ok((mask, _)) = Wah::from_bytes(rt.alloc(), MASK) else {
        rt.panic("no mask")
    };
    assert!(rt; mask.len() == head.rows);
    OpenIndex { head, mask }
}

/// What the bins say of the numbers from `least` to `greatest`.
fn found<R: Abort + AllocGlobal, L: Ledger>(
    rt: &R,
    blank: Blank,
    store: &mut MemStore,
    least: u32,
    greatest: u32,
) -> Result<Found, BinsFault>
    requires ledger { blank.name ≡ L.name }
    requires parts { blank.parts ≡ L.parts }
    requires some { 0 < blank.parts }
{
    let index = opened(rt, store);
    let span = Span {
        least: i128::from(least),
        greatest: i128::from(greatest),
    };
    let spans = Spans::of(rt.alloc(), &[span])?;
    let mut steps = Steps::<L>::new(blank);
    let answers = index.settle(rt.alloc(), store, &spans, &mut steps)?;
    let definite = answers.definite().to_bytes(rt.alloc(), &mut steps)?;
    let possible = answers.possible().to_bytes(rt.alloc(), &mut steps)?;
    Ok((definite, possible))
}

fn is_vector(bytes: &[u8], rows: u32) -> bool {
    let [low, high, _, _] = rows.to_le_bytes();
    bytes == [10, 0, 0, 0, 0, 0, 0, 0, low, high, 0, 0].as_slice()
}

/// Four encodings: numbers that bins decide, that they leave, and that no bin has.
#[test]
fn the_encodings_answer_alike(rt: HostRuntime) -> Result<(), Fail> {
    for bytes in [EQUALITY, RANGE, INTERVAL, TWO_LEVEL] {
        for (least, greatest, definite, possible) in [
            (4, 7, 0x78, 0x78),
            (4, 8, 0x78, 0x7f),
            (3, 8, 0x78, 0x3ff),
            (1, 7, 0x3f8, 0x3f8),
            (9, 9, 0, 0x7),
            (0, 99, 0x3ff, 0x3ff),
            (11, 20, 0, 0),
        ] {
            let mut store = store_of(&rt, bytes, &[]);
            let have = found::<HostRuntime, Brand>(&rt, rt.blank(), &mut store, least, greatest)?;
            assert!(rt; is_vector(&have.0, definite));
            assert!(rt; is_vector(&have.1, possible));
        }
    }
    Ok(())
}

/// The second bitmap has 11 rows: a condition that needs it is refused, and one that needs others isn't.
#[test]
fn a_damaged_bitmap_is_refused(rt: HostRuntime) -> Result<(), Fail> {
    let mut bytes = EQUALITY.to_vec(rt.alloc())?;
    assert!(rt; bytes.len() > 207);
    bytes[207] = 11;
    let mut store = store_of(&rt, &bytes, &[]);
    match found::<HostRuntime, Brand>(&rt, rt.blank(), &mut store, 4, 8) {
        Err(BinsFault::Index(fault)) => assert!(rt; fault == IndexFault::BitmapLength(1)),
        _ => rt.panic("not refused"),
    }
    let have = found::<HostRuntime, Brand>(&rt, rt.blank(), &mut store, 8, 9)?;
    assert!(rt; is_vector(&have.0, 0));
    assert!(rt; is_vector(&have.1, 0x7));
    Ok(())
}

/// The store fails as the second bitmap is read.
#[test]
fn a_failed_store_is_told(rt: HostRuntime) {
    let fails = [5].map(|call| FailAt {
        call,
        keep_new: false,
    });
    let mut store = store_of(&rt, EQUALITY, &fails);
    match found::<HostRuntime, Brand>(&rt, rt.blank(), &mut store, 4, 8) {
        Err(BinsFault::Index(fault)) => assert!(rt; fault == IndexFault::Store),
        _ => rt.panic("not told"),
    }
}
