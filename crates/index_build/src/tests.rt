ghost use Rattle.std.specs.Prelude.{◌≡◌, ◌<◌};
ghost use Rattle.fb_outside.specs.Names.{IsPath};

use crate::{BuildFault, Built, build};
use dataset::{DamageKind, open_dataset};
use fb_outside::{FileName, MemStore, Store};
use index_spec::{Binning, Coarse, EncodingSpec, Spec};
use std::marker::Brand;
use std::process::Abort;
use std::sync::ledger::Ledger;
use std::test::Fail;
use steps::{Blank, Count, Steps};

const FILES: &[(&str, &[u8])] = &[
    (
        "D/-catalog.txt",
        b"fastbit catalog 1\nschema a:int\nnext 1\npart 0\n",
    ),
    (
        "D/p0000/-part.txt",
        b"BEGIN HEADER\nName = p0000\nNumber_of_rows = 3\nNumber_of_columns = 1\nEND HEADER\nBegin Column\nname = a\ndata_type = int\nEnd Column\n",
    ),
    // The values 1, null and 2.
    ("D/p0000/a", &[1, 0, 0, 0, 0, 0, 0, 0, 2, 0, 0, 0]),
    ("D/p0000/a.msk", &[3, 0, 0, 0, 0, 0, 0, 0, 5, 0, 0, 0]),
];

const INDEX: &str = "D/p0000/a.idx";

/// The same of a category: the codes 1, none and 2, whose words are `x` and `a,b`.
const CODES: &[(&str, &[u8])] = &[
    (
        "D/-catalog.txt",
        b"fastbit catalog 1\nschema c:category\nnext 1\npart 0\n",
    ),
    (
        "D/p0000/-part.txt",
        b"BEGIN HEADER\nName = p0000\nNumber_of_rows = 3\nNumber_of_columns = 1\nEND HEADER\nBegin Column\nname = c\ndata_type = category\nEnd Column\n",
    ),
    ("D/p0000/c", &[1, 0, 0, 0, 0, 0, 0, 0, 2, 0, 0, 0]),
    ("D/p0000/c.msk", &[3, 0, 0, 0, 0, 0, 0, 0, 5, 0, 0, 0]),
];

const WORDS: &str = "D/p0000/c.dic";

const DICTIONARY: &[u8] = b"\x02\x00\x00\x00\x01\x00x\x03\x00a,b";

/// The index of these values with a bin and a bitmap for each.
const BYTES: &[u8] =
    b"FBIX\x01\x00\x00\x00\x03\x00\x00\x00\x02\x00\x00\x00\x02\x00\x00\x00\x23\x00\x00\x00<binning none/><encoding equality/>\x01\x00\x00\x00\x00\x00\x00\x00\x00\x00\x00\x00\x00\x00\x00\x00\x01\x00\x00\x00\x00\x00\x00\x00\x00\x00\x00\x00\x00\x00\x00\x00\x02\x00\x00\x00\x00\x00\x00\x00\x00\x00\x00\x00\x00\x00\x00\x00\x02\x00\x00\x00\x00\x00\x00\x00\x00\x00\x00\x00\x00\x00\x00\x00\x93\x00\x00\x00\x00\x00\x00\x00\x9f\x00\x00\x00\x00\x00\x00\x00\xab\x00\x00\x00\x00\x00\x00\x00\x03\x00\x00\x00\x00\x00\x00\x00\x04\x00\x00\x00\x03\x00\x00\x00\x00\x00\x00\x00\x01\x00\x00\x00";

fn named<R: Abort + AllocGlobal>(rt: &R, text: &str) -> FileName {
    match FileName::from_str(rt.alloc(), text) {
        Ok(Some(name)) => name,
        _ => rt.panic("no name"),
    }
}

/// The path of the dataset.
fn path<R: Abort + AllocGlobal>(rt: &R) -> FileName
    ensures { IsPath result }
{
    let name = named(rt, "D");
    assert!(rt; name.is_path());
    name
}

/// A store of these files.
fn store<R: Abort + AllocGlobal>(rt: &R, files: &[(&str, &[u8])]) -> MemStore {
    let Ok(mut store) = MemStore::make(rt.alloc(), &[], 9) else {
        rt.panic("out of memory")
    };
    for (name, bytes) in files {
        assert!(rt; store.put(named(rt, name).as_str(), bytes).is_ok());
    }
    store
}

/// Builds an index of two levels, and then that of a bitmap for each value in its place, by a counter of its own.
fn built<R: Abort + AllocGlobal, L: Ledger>(
    rt: &R,
    blank: Blank,
    store: &mut MemStore,
) -> Result<Built, BuildFault>
    requires ledger { blank.name ≡ L.name }
    requires parts { blank.parts ≡ L.parts }
    requires some { 0 < blank.parts }
{
    let Ok(dataset) = open_dataset(rt.alloc(), store, &path(rt)) else {
        rt.panic("no dataset")
    };
    let (Some(part), Some(column)) = (
        dataset.parts.as_slice().first(),
        dataset.schema.columns().first(),
    ) else {
        rt.panic("no column")
    };
    assert!(rt; dataset.dir.is_path() && column.ty.width().is_some());
    assert!(rt; part.number < 4096 && part.rows <= 4_194_304);
    let grouped = Spec {
        binning: Binning::Each,
        encoding: EncodingSpec::TwoLevel {
            coarse: Coarse::Range,
            ncoarse: 2,
        },
    };
    let plain = Spec {
        binning: Binning::Each,
        encoding: EncodingSpec::Equality,
    };
    let mut steps = Steps::<L>::new(blank);
    let first = build(
        rt.alloc(),
        store,
        &dataset,
        part,
        column,
        &grouped,
        &mut steps,
    )?;
    assert!(rt; first.bins == 2 && first.bitmaps == 3);
    build(
        rt.alloc(),
        store,
        &dataset,
        part,
        column,
        &plain,
        &mut steps,
    )
}

#[test]
fn an_index_takes_the_place_of_another(rt: HostRuntime) -> Result<(), Fail> {
    let mut store = store(&rt, FILES);
    match built::<_, Brand>(&rt, rt.blank(), &mut store) {
        Ok(built) => assert!(rt; built.bins == 2 && built.bitmaps == 2),
        Err(_) => rt.panic("not built"),
    }
    match store.file(INDEX) {
        Some(bytes) => assert!(rt; bytes == BYTES),
        None => rt.panic("no index"),
    }
    Ok(())
}

/// A store of the category's files, with this dictionary, or without one.
fn coded<R: Abort + AllocGlobal>(rt: &R, words: Option<&[u8]>) -> MemStore {
    let mut store = store(rt, CODES);
    if let Some(words) = words {
        assert!(rt; store.put(named(rt, WORDS).as_str(), words).is_ok());
    }
    store
}

/// The index of the category with this dictionary isn't built: the file is damaged so.
fn expect_damaged<R: Abort + AllocGlobal>(
    rt: &R,
    blank: Blank,
    words: Option<&[u8]>,
    found: DamageKind,
)
    requires { 0 < blank.parts }
{
    let mut store = coded(rt, words);
    match built::<_, Brand>(rt, blank, &mut store) {
        Err(
            BuildFault::Damaged {
                file,
                kind,
                want,
                have,
            },
        ) => {
            assert!(rt; file.as_str() == WORDS && kind == found);
            assert!(rt; want == 0 && have == 0);
        }
        _ => rt.panic("not damaged"),
    }
    assert!(rt; store.file("D/p0000/c.idx").is_none());
}

#[test]
fn a_category_has_a_dictionary(rt: HostRuntime) -> Result<(), Fail> {
    let mut store = coded(&rt, Some(DICTIONARY));
    match built::<_, Brand>(&rt, rt.blank(), &mut store) {
        Ok(built) => assert!(rt; built.bins == 2 && built.bitmaps == 2),
        Err(_) => rt.panic("not built"),
    }
    assert!(rt; store.file("D/p0000/c.idx").is_some());
    expect_damaged(&rt, rt.blank(), None, DamageKind::Missing);
    expect_damaged(
        &rt,
        rt.blank(),
        Some(b"\x02\x00\x00\x00\x01\x00x\x03\x00a,"),
        DamageKind::Words,
    );
    expect_damaged(
        &rt,
        rt.blank(),
        Some(b"\x02\x00\x00\x00\x01\x00x\x01\x00x"),
        DamageKind::Words,
    );
    Ok(())
}
