ghost use Rattle.std.specs.Prelude.{◌≤◌};

use crate::{
    DicFault, Dictionary, TextFault, TextRef, open_dictionary, open_text, read_texts, text_bytes,
};
use column_file::ColFault;
use fb_outside::{FailAt, FileName, MemStore, ReadNote, Store};
use fb_types::Label;
use std::process::Abort;
use std::test::Fail;
use wah_words::WordsFault;

const WORDS: &str = "D/p0000/a.dic";

const TEXT: &str = "D/p0000/a";

const STARTS: &str = "D/p0000/a.sta";

const MASK: &str = "D/p0000/a.msk";

/// The words `x` and `a,b`.
const TWO_WORDS: &[u8] = b"\x02\x00\x00\x00\x01\x00x\x03\x00a,b";

/// The starts of `ab`, a null and `c`.
const THREE_STARTS: &[u8] = &[
    0, 0, 0, 0, 0, 0, 0, 0, 2, 0, 0, 0, 0, 0, 0, 0, 2, 0, 0, 0, 0, 0, 0, 0, 3, 0, 0, 0, 0, 0, 0, 0,
];

/// The bits 101.
const FEW: &[u8] = &[3, 0, 0, 0, 0, 0, 0, 0, 5, 0, 0, 0];

fn named<R: Abort + AllocGlobal>(rt: &R, text: &str) -> FileName {
    match FileName::from_str(rt.alloc(), text) {
        Ok(Some(name)) => name,
        _ => rt.panic("no name"),
    }
}

fn memory<R: Abort + AllocGlobal>(rt: &R, fails: &[FailAt]) -> MemStore {
    match MemStore::make(rt.alloc(), fails, 9) {
        Ok(store) => store,
        Err(_) => rt.panic("out of memory"),
    }
}

fn put<R: Abort + AllocGlobal>(rt: &R, store: &mut MemStore, text: &str, bytes: &[u8]) {
    let name = named(rt, text);
    match store.put(name.as_str(), bytes) {
        Ok(()) => (),
        Err(_) => rt.panic("not put"),
    }
}

fn has_notes(found: Option<&[ReadNote]>, notes: &[ReadNote]) -> bool {
    match found {
        None => false,
        Some(found) => found == notes,
    }
}

fn has_word(words: &Dictionary, code: u32, word: &[u8]) -> bool {
    match words.word_of(code) {
        Some(found) => found == word,
        None => false,
    }
}

fn has_words(words: &Dictionary) -> bool {
    words.len() == 2
        && has_word(words, 1, b"x")
        && has_word(words, 2, b"a,b")
        && words.word_of(0).is_none()
        && words.word_of(3).is_none()
        && words.code_of(b"x") == Some(1)
        && words.code_of(b"a,b") == Some(2)
        && words.code_of(b"a").is_none()
}

#[test]
fn codes_are_those_first_seen(rt: HostRuntime) -> Result<(), Fail> {
    let alloc = rt.alloc();
    let mut words = Dictionary::make(alloc);
    assert!(rt; words.add(Label::from_bytes(alloc, b"x")?)? == 1);
    assert!(rt; words.add(Label::from_bytes(alloc, b"a,b")?)? == 2);
    assert!(rt; words.add(Label::from_bytes(alloc, b"x")?)? == 1);
    assert!(rt; has_words(&words));
    let bytes = words.to_bytes(alloc)?;
    assert!(rt; bytes.as_slice() == TWO_WORDS);
    match Dictionary::from_bytes(alloc, TWO_WORDS) {
        Ok(words) => assert!(rt; has_words(&words)),
        Err(_) => rt.panic("not read"),
    }
    let mut store = memory(&rt, &[]);
    put(&rt, &mut store, WORDS, TWO_WORDS);
    match open_dictionary(alloc, &mut store, &named(&rt, WORDS)) {
        Ok(words) => assert!(rt; has_words(&words)),
        Err(_) => rt.panic("not opened"),
    }
    let note = ReadNote {
        file: 0,
        at: 0,
        length: 12,
    };
    assert!(rt; has_notes(store.reads(), &[note]));
    Ok(())
}

fn check_words<R: Abort>(rt: &R, found: Result<Dictionary, DicFault>, want: DicFault) {
    match found {
        Err(fault) => assert!(rt; fault == want),
        Ok(_) => rt.panic("no fault"),
    }
}

#[test]
fn damaged_dictionaries_are_refused(rt: HostRuntime) {
    let table: [(&[u8], DicFault); 11] = [
        (&[], DicFault::Short),
        (&[0, 0, 0], DicFault::Short),
        (&[1, 0, 0x40, 0], DicFault::TooMany),
        (&[0, 0, 0x40, 0], DicFault::Short),
        (&[1, 0, 0, 0, 1], DicFault::Short),
        (&TWO_WORDS[..11], DicFault::Short),
        (&[1, 0, 0, 0, 0, 0], DicFault::Empty(1)),
        (&[2, 0, 0, 0, 1, 0, 7, 0, 0, 9], DicFault::Empty(2)),
        (&[2, 0, 0, 0, 1, 0, 7, 1, 0, 7, 9], DicFault::Repeated(2)),
        (&[1, 0, 0, 0, 1, 0, 7, 9], DicFault::Trailing),
        (&[0, 0, 0, 0, 9], DicFault::Trailing),
    ];
    for (bytes, fault) in table {
        check_words(&rt, Dictionary::from_bytes(rt.alloc(), bytes), fault);
    }
    let fail = FailAt {
        call: 1,
        keep_new: false,
    };
    let mut store = memory(&rt, &[fail]);
    let name = named(&rt, WORDS);
    check_words(
        &rt,
        open_dictionary(rt.alloc(), &mut store, &name),
        DicFault::Missing,
    );
    check_words(
        &rt,
        open_dictionary(rt.alloc(), &mut store, &name),
        DicFault::Store,
    );
}

#[test]
fn texts_stand_one_after_another(rt: HostRuntime) -> Result<(), Fail> {
    let alloc = rt.alloc();
    let texts = [
        Label::from_bytes(alloc, b"ab")?,
        Label::from_bytes(alloc, b"")?,
        Label::from_bytes(alloc, b"c")?,
    ];
    let (text, starts) = text_bytes(alloc, &texts)?;
    assert!(rt; text.as_slice() == b"abc".as_slice());
    assert!(rt; starts.as_slice() == THREE_STARTS);
    Ok(())
}

/// The column of `ab`, a null and `c`, with these starts.
fn three_texts<R: Abort + AllocGlobal>(rt: &R, fails: &[FailAt], starts: &[u8]) -> MemStore {
    let mut store = memory(rt, fails);
    put(rt, &mut store, TEXT, b"abc");
    put(rt, &mut store, STARTS, starts);
    put(rt, &mut store, MASK, FEW);
    store
}

fn opened<R: Abort + AllocGlobal>(
    rt: &R,
    store: &mut MemStore,
    rows: u32,
) -> Result<TextRef, TextFault> {
    let (text, starts, mask) = (named(rt, TEXT), named(rt, STARTS), named(rt, MASK));
    open_text(rt.alloc(), store, &text, &starts, &mask, rows)
}

fn check_texts<R: Abort + AllocGlobal>(
    rt: &R,
    store: &mut MemStore,
    text: &TextRef,
    first: u32,
    end: u32,
    want: &[&[u8]],
)
    requires order { first ≤ end }
    requires rows { end ≤ text.now.rows }
{
    match read_texts(rt.alloc(), store, text, first, end) {
        Ok(found) => {
            assert!(rt; found.len() == want.len());
            for (label, bytes) in found.iter().zip(want) {
                assert!(rt; label.bytes() == *bytes);
            }
        }
        Err(_) => rt.panic("not read"),
    }
}

#[test]
fn reads_just_the_texts_asked(rt: HostRuntime) {
    let mut store = three_texts(&rt, &[], THREE_STARTS);
    let text = match opened(&rt, &mut store, 3) {
        Ok(text) => text,
        Err(_) => rt.panic("not opened"),
    };
    if text.rows == 3 {
        check_texts(&rt, &mut store, &text, 0, 3, &[b"ab", b"", b"c"]);
        check_texts(&rt, &mut store, &text, 1, 2, &[b""]);
        check_texts(&rt, &mut store, &text, 2, 3, &[b"c"]);
        check_texts(&rt, &mut store, &text, 3, 3, &[]);
    }
    let notes = [(1, 0, 32), (2, 0, 12), (0, 0, 3), (0, 2, 1)].map(|(file, at, length)| ReadNote {
        file,
        at,
        length,
    });
    assert!(rt; has_notes(store.reads(), &notes));
}

fn check_fault<R: Abort, T: Drop>(rt: &R, found: Result<T, TextFault>, want: TextFault) {
    match found {
        Err(fault) => assert!(rt; fault == want),
        Ok(_) => rt.panic("no fault"),
    }
}

/// Three starts and an end, of which all are below 256.
fn starts_of(starts: [u8; 4]) -> [u8; 32] {
    let [a, b, c, d] = starts;
    [
        a, 0, 0, 0, 0, 0, 0, 0, b, 0, 0, 0, 0, 0, 0, 0, c, 0, 0, 0, 0, 0, 0, 0, d, 0, 0, 0, 0, 0,
        0, 0,
    ]
}

#[test]
fn damaged_starts_are_refused(rt: HostRuntime) {
    let table = [
        ([0, 2, 2, 4], TextFault::LastStart { want: 3, have: 4 }),
        ([0, 2, 1, 9], TextFault::NotRising(2)),
        ([1, 2, 1, 9], TextFault::NotRising(0)),
        ([0, 2, 2, 1], TextFault::NotRising(3)),
    ];
    for (starts, fault) in table {
        let mut store = three_texts(&rt, &[], &starts_of(starts));
        check_fault(&rt, opened(&rt, &mut store, 3), fault);
    }
    let mut store = three_texts(&rt, &[], THREE_STARTS);
    let fault = TextFault::StartsLength { want: 24, have: 32 };
    check_fault(&rt, opened(&rt, &mut store, 2), fault);
}

#[test]
fn the_first_fault_of_a_text_column(rt: HostRuntime) {
    let mut store = memory(&rt, &[]);
    check_fault(&rt, opened(&rt, &mut store, 3), TextFault::Missing);
    put(&rt, &mut store, TEXT, b"abc");
    check_fault(&rt, opened(&rt, &mut store, 3), TextFault::StartsMissing);
    put(&rt, &mut store, STARTS, THREE_STARTS);
    let fault = TextFault::Mask(ColFault::MaskMissing);
    check_fault(&rt, opened(&rt, &mut store, 3), fault);
    put(&rt, &mut store, MASK, b"");
    let fault = TextFault::Mask(ColFault::Mask(WordsFault::Short));
    check_fault(&rt, opened(&rt, &mut store, 3), fault);
}

#[test]
fn tells_a_failed_store(rt: HostRuntime) {
    let fails = [3, 5, 8, 12, 18].map(|call| FailAt {
        call,
        keep_new: false,
    });
    let mut store = three_texts(&rt, &fails, THREE_STARTS);
    for _ in 0..4 {
        check_fault(&rt, opened(&rt, &mut store, 3), TextFault::Store);
    }
    let text = match opened(&rt, &mut store, 3) {
        Ok(text) => text,
        Err(_) => rt.panic("not opened"),
    };
    if text.rows == 3 {
        let read = read_texts(rt.alloc(), &mut store, &text, 0, 3);
        check_fault(&rt, read, TextFault::Store);
        put(&rt, &mut store, TEXT, b"ab");
        let read = read_texts(rt.alloc(), &mut store, &text, 0, 3);
        check_fault(&rt, read, TextFault::ShortRead);
    }
}
