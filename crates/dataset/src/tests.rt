ghost use Rattle.fb_outside.specs.Names.{IsPath};

use crate::{
    DamageKind, Dataset, OpenFault, PartFault, open_dataset, open_part_column, open_part_dictionary,
};
use column_file::ColumnRef;
use fb_outside::{FailAt, FileName, MemStore, ReadNote, Store};
use std::process::Abort;
use std::test::Fail;
use text_column::Dictionary;

const CATALOG_FILE: &str = "D/-catalog.txt";

const FILE_0: &str = "D/p0000/-part.txt";

const FILE_2: &str = "D/p0002/-part.txt";

const VALUES: &str = "D/p0000/a";

const MASK: &str = "D/p0000/a.msk";

const WORDS: &str = "D/p0000/b.dic";

const CATALOG: &[u8] = b"fastbit catalog 1\nschema a:int,b:category\nnext 3\npart 0\npart 2\n";

const PART_0: &[u8] =
    b"BEGIN HEADER\nName = p0000\nNumber_of_rows = 2\nNumber_of_columns = 2\nEND HEADER\nBegin Column\nname = a\ndata_type = int\nEnd Column\nBegin Column\nname = b\ndata_type = category\nEnd Column\n";

const PART_2: &[u8] =
    b"BEGIN HEADER\nName = p0002\nNumber_of_rows = 3\nNumber_of_columns = 2\nEND HEADER\nBegin Column\nname = a\ndata_type = int\nEnd Column\nBegin Column\nname = b\ndata_type = category\nEnd Column\n";

/// Of number 0, with a column of another type.
const OTHER_TYPE: &[u8] =
    b"BEGIN HEADER\nName = p0000\nNumber_of_rows = 2\nNumber_of_columns = 2\nEND HEADER\nBegin Column\nname = a\ndata_type = uint\nEnd Column\nBegin Column\nname = b\ndata_type = category\nEnd Column\n";

/// Of number 0, with the first column alone.
const FEWER_COLUMNS: &[u8] =
    b"BEGIN HEADER\nName = p0000\nNumber_of_rows = 2\nNumber_of_columns = 1\nEND HEADER\nBegin Column\nname = a\ndata_type = int\nEnd Column\n";

/// Of number 2, with a column of another name.
const OTHER_NAME: &[u8] =
    b"BEGIN HEADER\nName = p0002\nNumber_of_rows = 3\nNumber_of_columns = 2\nEND HEADER\nBegin Column\nname = a\ndata_type = int\nEnd Column\nBegin Column\nname = c\ndata_type = category\nEnd Column\n";

/// The numbers 7 and -1.
const NUMBERS: &[u8] = &[7, 0, 0, 0, 255, 255, 255, 255];

/// The bits 11.
const BOTH: &[u8] = &[2, 0, 0, 0, 0, 0, 0, 0, 3, 0, 0, 0];

type File = (&'static str, &'static [u8]);

fn named<R: Abort + AllocGlobal>(rt: &R, text: &str) -> FileName {
    match FileName::from_str(rt.alloc(), text) {
        Ok(Some(name)) => name,
        _ => rt.panic("no name"),
    }
}

/// The path of the dataset.
fn path<R: Abort + AllocGlobal>(rt: &R) -> FileName
    ensures { IsPath result }
{
    let name = named(rt, "D");
    assert!(rt; name.is_path());
    name
}

/// A store of these files, of whose later calls one may fail.
fn store_of<R: Abort + AllocGlobal>(rt: &R, files: &[File], fails: &[FailAt]) -> MemStore {
    let Ok(mut store) = MemStore::make(rt.alloc(), fails, 9) else {
        rt.panic("out of memory")
    };
    for (name, bytes) in files {
        assert!(rt; store.put(named(rt, name).as_str(), bytes).is_ok());
    }
    store
}

/// Whether these numbers and rows are those of the parts.
fn has_parts(dataset: &Dataset, want: &[(u32, u32)]) -> bool {
    let parts = dataset.parts.as_slice();
    parts.len() == want.len()
        && parts.iter().zip(want).all(|(part, (number, rows))| part.number == *number
            && part.rows == *rows)
}

#[test]
fn a_dataset_of_two_parts_opens(rt: HostRuntime) -> Result<(), Fail> {
    let files = [(FILE_2, PART_2), (CATALOG_FILE, CATALOG), (FILE_0, PART_0)];
    let mut store = store_of(&rt, &files, &[]);
    let dataset = open_dataset(rt.alloc(), &mut store, &path(&rt))?;
    assert_eq!(rt; dataset.dir.as_str(), "D");
    assert_eq!(rt; dataset.next, 3);
    assert_eq!(rt; dataset.schema.columns().len(), 2);
    assert_eq!(rt; dataset.schema.place(b"b"), Some(1));
    assert!(rt; has_parts(&dataset, &[(0, 2), (2, 3)]));
    let looks = [(1, CATALOG), (2, PART_0), (0, PART_2)];
    let notes = looks.map(|(file, bytes)| ReadNote {
        file,
        at: 0,
        length: bytes.len() as u64,
    });
    match store.reads() {
        Some(reads) => assert!(rt; reads == notes.as_slice()),
        None => rt.panic("too many reads"),
    }
    Ok(())
}

/// Opens the dataset of these files, and compares the damaged file and its kind; no file is no dataset.
fn check_damage<R: Abort + AllocGlobal>(rt: &R, files: &[File], want: Option<(&str, DamageKind)>) {
    let mut store = store_of(rt, files, &[]);
    match (open_dataset(rt.alloc(), &mut store, &path(rt)), want) {
        (Err(OpenFault::NoDataset), None) => (),
        (
            Err(
                OpenFault::Damaged {
                    file,
                    kind,
                    want,
                    have,
                },
            ),
            Some((name, found)),
        ) => {
            assert!(rt; file.as_str() == name, "{name}");
            assert!(rt; kind == found, "{name}");
            assert!(rt; want == 0 && have == 0);
        }
        _ => rt.panic("another answer"),
    }
}

#[test]
fn the_first_damaged_text_is_told(rt: HostRuntime) -> Result<(), Fail> {
    let catalog = (CATALOG_FILE, CATALOG);
    let short_catalog = (CATALOG_FILE, &CATALOG[..CATALOG.len() - 1]);
    let short_part = (FILE_0, &PART_0[..PART_0.len() - 1]);
    let (part, last) = ((FILE_0, PART_0), (FILE_2, PART_2));
    let (missing, text) = (DamageKind::Missing, DamageKind::Text);
    check_damage(&rt, &[part, last], None);
    check_damage(
        &rt,
        &[short_catalog, part, last],
        Some((CATALOG_FILE, text)),
    );
    check_damage(&rt, &[short_catalog], Some((CATALOG_FILE, text)));
    check_damage(&rt, &[catalog, last], Some((FILE_0, missing)));
    check_damage(&rt, &[catalog, part], Some((FILE_2, missing)));
    check_damage(&rt, &[catalog], Some((FILE_0, missing)));
    check_damage(&rt, &[catalog, short_part], Some((FILE_0, text)));
    check_damage(
        &rt,
        &[catalog, (FILE_0, PART_2), last],
        Some((FILE_0, text)),
    );
    check_damage(
        &rt,
        &[catalog, (FILE_0, OTHER_TYPE), last],
        Some((FILE_0, text)),
    );
    check_damage(
        &rt,
        &[catalog, (FILE_0, FEWER_COLUMNS)],
        Some((FILE_0, text)),
    );
    check_damage(
        &rt,
        &[catalog, part, (FILE_2, OTHER_NAME)],
        Some((FILE_2, text)),
    );
    check_damage(&rt, &[catalog, part, (FILE_2, b"")], Some((FILE_2, text)));
    Ok(())
}

/// Opens the column `a` of the first part.
fn first_column<R: Abort + AllocGlobal>(
    rt: &R,
    store: &mut MemStore,
) -> Result<ColumnRef, PartFault> {
    let Ok(dataset) = open_dataset(rt.alloc(), store, &path(rt)) else {
        rt.panic("no dataset")
    };
    let (Some(part), Some(column)) = (
        dataset.parts.as_slice().first(),
        dataset.schema.columns().first(),
    ) else {
        rt.panic("no column")
    };
    assert!(rt; dataset.dir.is_path() && part.number < 4096 && column.ty.width().is_some());
    open_part_column(rt.alloc(), store, &dataset, part, column)
}

/// Opens the column over these files, and compares what is told of them.
fn check_column<R: Abort + AllocGlobal>(
    rt: &R,
    files: &[File],
    name: &str,
    damage: (DamageKind, u64, u64),
) {
    let mut store = store_of(
        rt,
        &[(CATALOG_FILE, CATALOG), (FILE_0, PART_0), (FILE_2, PART_2)],
        &[],
    );
    for (name, bytes) in files {
        assert!(rt; store.put(named(rt, name).as_str(), bytes).is_ok());
    }
    match first_column(rt, &mut store) {
        Err(
            PartFault::Damaged {
                file,
                kind,
                want,
                have,
            },
        ) => {
            assert!(rt; file.as_str() == name, "{name}");
            assert!(rt; kind == damage.0, "{name}");
            assert!(rt; want == damage.1 && have == damage.2, "{want} {have}");
        }
        _ => rt.panic("another answer"),
    }
}

#[test]
fn damaged_columns_are_told(rt: HostRuntime) -> Result<(), Fail> {
    let values = (VALUES, NUMBERS);
    let short = (VALUES, &NUMBERS[..7]);
    let mask = (MASK, BOTH);
    let cut_mask = (MASK, &BOTH[..11]);
    let long_mask: File = (MASK, &[2, 0, 0, 0, 0, 0, 0, 0, 3, 0, 0, 0, 0]);
    let three: File = (MASK, &[3, 0, 0, 0, 0, 0, 0, 0, 7, 0, 0, 0]);
    let (missing, kind) = (DamageKind::Missing, DamageKind::Mask);
    check_column(&rt, &[mask], VALUES, (missing, 0, 0));
    check_column(&rt, &[short], VALUES, (DamageKind::Length, 8, 7));
    check_column(&rt, &[values], MASK, (missing, 0, 0));
    check_column(&rt, &[values, cut_mask], MASK, (kind, 0, 0));
    check_column(&rt, &[values, long_mask], MASK, (kind, 0, 0));
    check_column(&rt, &[values, three], MASK, (kind, 2, 3));
    Ok(())
}

/// Opens the first part's dictionary, which has these bytes, or none.
fn first_words<R: Abort + AllocGlobal>(
    rt: &R,
    words: Option<&[u8]>,
) -> Result<Dictionary, PartFault> {
    let mut store = store_of(
        rt,
        &[(CATALOG_FILE, CATALOG), (FILE_0, PART_0), (FILE_2, PART_2)],
        &[],
    );
    if let Some(words) = words {
        assert!(rt; store.put(named(rt, WORDS).as_str(), words).is_ok());
    }
    let Ok(dataset) = open_dataset(rt.alloc(), &mut store, &path(rt)) else {
        rt.panic("no dataset")
    };
    let (Some(part), Some(column)) = (
        dataset.parts.as_slice().first(),
        dataset.schema.columns().get(1),
    ) else {
        rt.panic("no column")
    };
    assert!(rt; dataset.dir.is_path() && part.number < 4096);
    open_part_dictionary(rt.alloc(), &mut store, &dataset, part, column)
}

/// The dictionary is damaged so.
fn check_words<R: Abort + AllocGlobal>(rt: &R, words: Option<&[u8]>, found: DamageKind) {
    match first_words(rt, words) {
        Err(
            PartFault::Damaged {
                file,
                kind,
                want,
                have,
            },
        ) => {
            assert!(rt; file.as_str() == WORDS && kind == found);
            assert!(rt; want == 0 && have == 0);
        }
        _ => rt.panic("another answer"),
    }
}

#[test]
fn dictionaries_are_opened(rt: HostRuntime) -> Result<(), Fail> {
    match first_words(&rt, Some(b"\x02\0\0\0\x01\0x\x03\0a,b")) {
        Ok(words) => assert!(rt; words.len() == 2 && words.code_of(b"a,b") == Some(2)),
        Err(_) => rt.panic("no dictionary"),
    }
    check_words(&rt, None, DamageKind::Missing);
    check_words(&rt, Some(b"\x01\0\0\0\x01\0"), DamageKind::Words);
    check_words(&rt, Some(b"\x01\0\0\0\0\0"), DamageKind::Words);
    Ok(())
}

#[test]
fn each_call_of_the_store_may_fail(rt: HostRuntime) -> Result<(), Fail> {
    let files = [
        (CATALOG_FILE, CATALOG),
        (FILE_0, PART_0),
        (FILE_2, PART_2),
        (VALUES, NUMBERS),
        (MASK, BOTH),
    ];
    // Five puts; then a length and a read for each text; then the values' length, the mask's, and its read.
    for call in 5..15 {
        let mut store = store_of(
            &rt,
            &files,
            &[FailAt {
                call,
                keep_new: false,
            }],
        );
        match open_dataset(rt.alloc(), &mut store, &path(&rt)) {
            Ok(_dataset) => assert!(rt; call >= 11),
            Err(fault) => assert!(rt; call < 11 && matches!(fault, OpenFault::Store)),
        }
    }
    for call in 11..15 {
        let mut store = store_of(
            &rt,
            &files,
            &[FailAt {
                call,
                keep_new: false,
            }],
        );
        match first_column(&rt, &mut store) {
            Ok(column) => {
                assert_eq!(rt; call, 14);
                assert_eq!(rt; column.name.as_str(), VALUES);
                assert_eq!(rt; column.rows, 2);
                assert_eq!(rt; column.mask.len(), 2);
            }
            Err(fault) => assert!(rt; call < 14 && matches!(fault, PartFault::Store)),
        }
    }
    Ok(())
}
