ghost use Rattle.std.specs.Prelude.{◌≡◌, ◌<◌, length};
ghost use Rattle.std.specs.List.{AllByRecursion};

use crate::{Edge, IndexFault, IndexHead, fetch, open_index, write_index};
use fb_outside::{FailAt, FileName, MemStore, ReadNote, Store};
use index_spec::{Binning, EncodingSpec, Spec};
use std::alloc::Global;
use std::marker::Brand;
use std::process::Abort;
use std::sync::ledger::Ledger;
use std::test::Fail;
use steps::{Blank, Count, Steps};
use wah_words::{Wah, WordsFault};

const NAME: &str = "D/p0000/a.idx";

const ONE: &[u8] = &[1, 0, 0, 0, 0, 0, 0, 0, 0, 0, 0, 0, 0, 0, 0, 0];

const TWO: &[u8] = &[2, 0, 0, 0, 0, 0, 0, 0, 0, 0, 0, 0, 0, 0, 0, 0];

/// The bits 100 and 001.
const FIRST: &[u8] = &[3, 0, 0, 0, 0, 0, 0, 0, 4, 0, 0, 0];

const SECOND: &[u8] = &[3, 0, 0, 0, 0, 0, 0, 0, 1, 0, 0, 0];

fn named<R: Abort + AllocGlobal>(rt: &R) -> FileName {
    match FileName::from_str(rt.alloc(), NAME) {
        Ok(Some(name)) => name,
        _ => rt.panic("no name"),
    }
}

fn memory<R: Abort + AllocGlobal>(rt: &R, fails: &[FailAt]) -> MemStore {
    match MemStore::make(rt.alloc(), fails, 9) {
        Ok(store) => store,
        Err(_) => rt.panic("out of memory"),
    }
}

fn put<R: Abort + AllocGlobal>(rt: &R, store: &mut MemStore, bytes: &[u8]) {
    let name = named(rt);
    match store.put(name.as_str(), bytes) {
        Ok(()) => (),
        Err(_) => rt.panic("not put"),
    }
}

fn joined<R: Abort + AllocGlobal>(rt: &R, pieces: &[&[u8]]) -> Vec<u8> {
    let mut bytes = Vec::new(rt.alloc());
    for piece in pieces {
        match bytes.extend_from_slice(piece) {
            Ok(()) => (),
            Err(_) => rt.panic("out of memory"),
        }
    }
    bytes
}

/// The index file of a column with the values 1, null and 2, a bin and a bitmap for each value.
fn file<R: Abort + AllocGlobal>(rt: &R) -> Vec<u8> {
    let pieces: [&[u8]; 10] = [
        b"FBIX\x01\x00\x00\x00\x03\x00\x00\x00\x02\x00\x00\x00\x02\x00\x00\x00\x23\x00\x00\x00",
        b"<binning none/><encoding equality/>",
        ONE,
        ONE,
        TWO,
        TWO,
        &[147, 0, 0, 0, 0, 0, 0, 0, 159, 0, 0, 0, 0, 0, 0, 0],
        &[171, 0, 0, 0, 0, 0, 0, 0],
        FIRST,
        SECOND,
    ];
    joined(rt, &pieces)
}

/// The same bytes with this byte at a place.
fn patched<R: Abort + AllocGlobal>(rt: &R, bytes: &[u8], at: usize, byte: u8) -> Vec<u8> {
    let Some((front, rest)) = bytes.split_at_checked(at) else {
        rt.panic("no such place")
    };
    match rest {
        [] => rt.panic("no such place"),
        [_, rest @ ..] => joined(rt, &[front, &[byte], rest]),
    }
}

/// The file with each of these bytes at its place.
fn damaged<R: Abort + AllocGlobal>(rt: &R, patches: &[(usize, u8)]) -> Vec<u8> {
    let mut bytes = file(rt);
    for (at, byte) in patches {
        bytes = patched(rt, &bytes, *at, *byte);
    }
    bytes
}

/// Opens the bytes as an index of three rows.
fn opened<R: Abort + AllocGlobal>(rt: &R, store: &mut MemStore) -> IndexHead {
    match open_index(rt.alloc(), store, &named(rt), 3) {
        Ok(Some(head)) => head,
        _ => rt.panic("not opened"),
    }
}

/// The bytes, opened as an index of three rows, have this fault.
fn check_fault<R: Abort + AllocGlobal>(rt: &R, bytes: &[u8], want: &IndexFault) {
    let mut store = memory(rt, &[]);
    put(rt, &mut store, bytes);
    match open_index(rt.alloc(), &mut store, &named(rt), 3) {
        Err(fault) => assert!(rt; fault == *want),
        Ok(_) => rt.panic("no fault"),
    }
}

/// The file, cut after so many bytes and damaged so, has this fault.
fn check_cut<R: Abort + AllocGlobal>(
    rt: &R,
    patches: &[(usize, u8)],
    size: usize,
    want: &IndexFault,
) {
    match damaged(rt, patches).get(..size) {
        Some(bytes) => check_fault(rt, bytes, want),
        None => rt.panic("no such size"),
    }
}

/// Fetches a bitmap of a head with two.
fn fetched<R: Abort + AllocGlobal>(
    rt: &R,
    store: &mut MemStore,
    head: &IndexHead,
    k: u32,
) -> Result<Wah, IndexFault> {
    assert!(rt; head.offsets.len() == 3 && k < 2);
    fetch(rt.alloc(), store, head, k)
}

fn check_fetch_fault<R: Abort + AllocGlobal>(
    rt: &R,
    store: &mut MemStore,
    head: &IndexHead,
    want: &IndexFault,
) {
    match fetched(rt, store, head, 1) {
        Err(fault) => assert!(rt; fault == *want),
        Ok(_) => rt.panic("no fault"),
    }
}

fn vector<R: Abort + AllocGlobal>(rt: &R, bytes: &[u8]) -> Wah
    ensures { length result ≡ 3 }
{
    match Wah::from_bytes(rt.alloc(), bytes) {
        Ok((vector, _)) if vector.len() == 3 => vector,
        _ => rt.panic("no vector of three bits"),
    }
}

/// Writes the index of the file, by a counter of its own.
fn write_file<L: Ledger>(
    blank: Blank,
    alloc: Global,
    store: &mut MemStore,
    name: &FileName,
    bitmaps: &[Wah; 2],
) -> Result<(), IndexFault>
    requires ledger { blank.name ≡ L.name }
    requires parts { blank.parts ≡ L.parts }
    requires some { 0 < blank.parts }
    requires rows { AllByRecursion (λ bits. length bits ≡ 3) bitmaps.now }
    requires two { length bitmaps.now ≡ 2 }
{
    let spec = Spec {
        binning: Binning::Each,
        encoding: EncodingSpec::Equality,
    };
    let bins = [1, 2].map(|value| Edge {
        least: value,
        greatest: value,
    });
    let mut steps = Steps::<L>::new(blank);
    write_index(alloc, store, name, 3, &spec, &bins, bitmaps, &mut steps)
}

#[test]
fn writes_the_layout(rt: HostRuntime) -> Result<(), Fail> {
    let mut store = memory(&rt, &[]);
    let bitmaps = [vector(&rt, FIRST), vector(&rt, SECOND)];
    match write_file::<Brand>(rt.blank(), rt.alloc(), &mut store, &named(&rt), &bitmaps) {
        Ok(()) => (),
        Err(_) => rt.panic("not written"),
    }
    let bytes = file(&rt);
    assert!(rt; bytes.len() == 171);
    match store.file(NAME) {
        Some(found) => assert!(rt; found == bytes.as_slice()),
        None => rt.panic("no file"),
    }
    Ok(())
}

fn has_notes(found: Option<&[ReadNote]>, notes: &[ReadNote]) -> bool {
    match found {
        None => false,
        Some(found) => found == notes,
    }
}

/// Whether the vector is spelled so, by a counter of its own.
fn has_bytes<L: Ledger>(blank: Blank, alloc: Global, bits: &Wah, want: &[u8]) -> bool
    requires ledger { blank.name ≡ L.name }
    requires parts { blank.parts ≡ L.parts }
    requires some { 0 < blank.parts }
{
    let mut steps = Steps::<L>::new(blank);
    match bits.to_bytes(alloc, &mut steps) {
        Ok(bytes) => bytes.as_slice() == want,
        Err(_) => false,
    }
}

#[test]
fn opens_the_head_and_fetches_one_bitmap(rt: HostRuntime) -> Result<(), Fail> {
    let mut store = memory(&rt, &[]);
    match open_index(rt.alloc(), &mut store, &named(&rt), 3) {
        Ok(None) => (),
        _ => rt.panic("there is no such file"),
    }
    put(&rt, &mut store, &file(&rt));
    match open_index(rt.alloc(), &mut store, &named(&rt), 4) {
        Err(fault) => assert!(rt; fault == IndexFault::Rows { want: 4, have: 3 }),
        Ok(_) => rt.panic("opened"),
    }
    let head = opened(&rt, &mut store);
    assert!(rt; head.rows == 3 && head.offsets.as_slice() == [147, 159, 171].as_slice());
    assert!(rt; head.spec.encoding == EncodingSpec::Equality && head.bins.len() == 2);
    match fetched(&rt, &mut store, &head, 1) {
        Ok(bits) => assert!(rt; has_bytes::<Brand>(rt.blank(), rt.alloc(), &bits, SECOND)),
        Err(_) => rt.panic("not fetched"),
    }
    let notes = [(0, 24), (0, 24), (24, 123), (159, 12)].map(|(at, length)| ReadNote {
        file: 0,
        at,
        length,
    });
    assert!(rt; has_notes(store.reads(), &notes));
    Ok(())
}

/// What is wrong at each stage, the first one first.
const PATCHES: &[(usize, u8)] = &[
    (0, 0),
    (4, 2),
    (8, 4),
    (33, b'N'),
    (59, 2),
    (16, 1),
    (123, 148),
];

#[test]
fn the_first_fault_is_told(rt: HostRuntime) {
    let faults = [
        IndexFault::Magic,
        IndexFault::Version(2),
        IndexFault::Rows { want: 3, have: 4 },
        IndexFault::Spec,
        IndexFault::Order(0),
        IndexFault::Count { want: 2, have: 1 },
    ];
    for (k, want) in faults.iter().enumerate() {
        match PATCHES.get(k..) {
            Some(patches) => check_fault(&rt, &damaged(&rt, patches), want),
            None => rt.panic("no such stage"),
        }
    }
}

#[test]
fn a_short_file_is_refused(rt: HostRuntime) {
    check_cut(&rt, &PATCHES[0..1], 23, &IndexFault::Short);
    check_cut(&rt, &[], 0, &IndexFault::Short);
    check_cut(
        &rt,
        &PATCHES[2..3],
        24,
        &IndexFault::Rows { want: 3, have: 4 },
    );
    check_cut(&rt, &PATCHES[3..4], 146, &IndexFault::Short);
    // 2^31 bins in 40 bytes
    check_cut(&rt, &[(12, 0), (15, 128)], 40, &IndexFault::Short);
}

#[test]
fn bins_and_places_are_in_order(rt: HostRuntime) {
    // bin 1 is from 1 on
    check_fault(&rt, &damaged(&rt, &[(91, 1)]), &IndexFault::Order(1));
    check_fault(&rt, &damaged(&rt, &[(123, 148)]), &IndexFault::Offsets(0));
    check_fault(
        &rt,
        &damaged(&rt, &[(131, 154), (139, 0)]),
        &IndexFault::Offsets(1),
    );
    check_fault(&rt, &damaged(&rt, &[(139, 166)]), &IndexFault::Offsets(2));
    check_cut(&rt, &[], 170, &IndexFault::Offsets(2));
}

#[test]
fn damaged_bitmaps_are_refused(rt: HostRuntime) {
    let mut store = memory(&rt, &[]);
    put(&rt, &mut store, &file(&rt));
    let head = opened(&rt, &mut store);
    let short = IndexFault::Bitmap(1, WordsFault::Short);
    put(&rt, &mut store, b"FBIX");
    check_fetch_fault(&rt, &mut store, &head, &short);
    // 5 groups in a vector of 3 bits
    put(&rt, &mut store, &damaged(&rt, &[(163, 5)]));
    check_fetch_fault(
        &rt,
        &mut store,
        &head,
        &IndexFault::Bitmap(1, WordsFault::Groups),
    );
    // no bits, and four bytes
    put(&rt, &mut store, &damaged(&rt, &[(159, 0)]));
    check_fetch_fault(&rt, &mut store, &head, &IndexFault::BitmapTrailing(1));
    put(&rt, &mut store, &damaged(&rt, &[(159, 2)]));
    check_fetch_fault(&rt, &mut store, &head, &IndexFault::BitmapLength(1));
}

#[test]
fn tells_a_failed_store(rt: HostRuntime) {
    let fails = [1, 3, 6, 10].map(|call| FailAt {
        call,
        keep_new: false,
    });
    let mut store = memory(&rt, &fails);
    put(&rt, &mut store, &file(&rt));
    for _ in 0..3 {
        match open_index(rt.alloc(), &mut store, &named(&rt), 3) {
            Err(fault) => assert!(rt; fault == IndexFault::Store),
            Ok(_) => rt.panic("opened"),
        }
    }
    let head = opened(&rt, &mut store);
    check_fetch_fault(&rt, &mut store, &head, &IndexFault::Store);
}
