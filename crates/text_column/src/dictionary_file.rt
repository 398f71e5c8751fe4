//! The dictionary file: the number of words, and each word behind its length.

ghost use Rattle.std.specs.Prelude.{◌≡◌, ◌<◌, ◌≤◌, [], ℕ, List, Ok, Err, Some, None, IfErr, IfOk, IfSome, IsErrOf, MatchOption, MatchResult, OnOk, length, option_map};
ghost use Rattle.fb_outside.specs.Causes.{HasCause};
ghost use Rattle.fb_outside.specs.Files.{SameFiles, file_at, told_at};
ghost use Rattle.fb_outside.specs.Reads.{AddsOnly, AddsRead, IsWholeLook, whole_look};
ghost use Rattle.text_column.specs.DictionaryFile.{counted_in, dictionary_bytes, dictionary_in, next_in, word_at, words_bytes, words_in};
ghost use Rattle.answers.specs.Answers.{Answers, Tells};
ghost use Rattle.text_column.specs.OpenedDictionary.{StopsReadingWords, dictionary_of, told_by_file};
ghost use Rattle.text_column.specs.Words.{IsDictionary, most_words};

use crate::dictionary::Dictionary;
use crate::fault::DicFault;
use crate::numbers::{push_u16, push_u32};
use fb_outside::{FileName, Store, Trouble, file_bytes};
use fb_types::Label;
use std::alloc::{AllocError, Global};

/// The most words of a dictionary.
const MAX_WORDS: u32 = 4_194_304;

impl Dictionary {
    /// The bytes of the dictionary's file.
    pub fn to_bytes(&self, alloc: Global) -> Result<Vec<u8>, AllocError>
        ensures { IfOk result (λ bytes. bytes.items ≡ dictionary_bytes self.now) }
    {
        let mut bytes = Vec::new(alloc);
        let count = self.len();
        push_u32(&mut bytes, count)?;
        for place in 0..count {
            let Some(word) = self.word_of(place + 1) else {
                unreachable!()
            };
            push_u16(&mut bytes, word.len() as u16)?;
            bytes.extend_from_slice(word)?;
        }
        Ok(bytes)
    }

    /// The dictionary whose file has these bytes, or the first fault among them.
    pub fn from_bytes(alloc: Global, bytes: &[u8]) -> Result<Dictionary, DicFault>
        ensures exact { Answers told_by_file result (dictionary_in bytes.now) }
        ensures stop { IfErr result StopsReadingWords }

        // What is read is spelled so, and what is spelled so is read.
        ensures found { IfOk result (λ words. bytes.now ≡ dictionary_bytes words) }
        ensures only { (words : List (List ℕ)) → IsDictionary words → bytes.now ≡ dictionary_bytes words → Answers told_by_file result (Ok words) }
    {
        counted_words(alloc, bytes)
    }

    /// Adds the word at the front of the bytes, and answers the bytes behind it.
    fn add_from<'a>(&mut self, alloc: Global, bytes: &'a [u8]) -> Result<&'a [u8], DicFault>
        requires { length self.old < most_words }
        ensures ok { IfOk result (λ rest. next_in self.old bytes.now ≡ Ok (self.new, rest.now)) }
        ensures err { IfErr result (Tells told_by_file (λ told. next_in self.old bytes.now ≡ Err told)) }
        ensures stop { IfErr result StopsReadingWords }
    {
        let Some((word, rest)) = word_of_bytes(bytes) else {
            return Err(DicFault::Short);
        };
        let code = self.len() + 1;
        if word.is_empty() {
            return Err(DicFault::Empty(code));
        }
        let Ok(word) = Label::from_bytes(alloc, word) else {
            return Err(DicFault::OutOfMemory);
        };
        match self.add(word) {
            Ok(given) if given == code => Ok(rest),
            Ok(_) => Err(DicFault::Repeated(code)),
            Err(_) => Err(DicFault::OutOfMemory),
        }
    }
}

/// The dictionary of the words that the first four bytes count.
#[tactic(auto, unfolding(crate::specs::DictionaryFile::dictionary_in))]
fn counted_words(alloc: Global, bytes: &[u8]) -> Result<Dictionary, DicFault>
    ensures exact { Answers told_by_file result (dictionary_in bytes.now) }
    ensures stop { IfErr result StopsReadingWords }
{
    let Some((count, rest)) = bytes.split_first_chunk::<4>() else {
        return Err(DicFault::Short);
    };
    let count = u32::from_le_bytes(*count);
    if count > MAX_WORDS {
        return Err(DicFault::TooMany);
    }
    words_of(alloc, count, rest)
}

/// The dictionary of so many words, whose bytes these are to their end.
fn words_of(alloc: Global, count: u32, bytes: &[u8]) -> Result<Dictionary, DicFault>
    requires { count ≤ most_words }
    ensures exact { Answers told_by_file result (words_in count ([], bytes.now)) }
    ensures stop { IfErr result StopsReadingWords }
{
    let mut words = Dictionary::make(alloc);
    let mut rest = bytes;
    for _ in 0..count {
        rest = words.add_from(alloc, rest)?;
    }
    if rest.is_empty() {
        Ok(words)
    } else {
        Err(DicFault::Trailing)
    }
}

/// The word at the front of the bytes, behind its length, and the bytes behind it; None where it is cut off.
fn word_of_bytes(bytes: &[u8]) -> Option<(&[u8], &[u8])>
    ensures value { option_map (λ p. (p.0.now, p.1.now)) result ≡ word_at bytes.now }
    ensures small { MatchOption result (0 ≤ length bytes.now) (λ p. length p.0.now ≤ 65535) }
{
    let Some((size, rest)) = bytes.split_first_chunk::<2>() else {
        return None;
    };
    rest.split_at_checked(u16::from_le_bytes(*size) as usize)
}

/// The dictionary of a category column, by one read of its whole file.
pub fn open_dictionary<S: Store>(
    alloc: Global,
    store: &mut S,
    name: &FileName,
) -> Result<Dictionary, DicFault>
    ensures cause { HasCause (S.faults store.old) (S.faults store.new) (IsErrOf result DicFault.Store) }

    // The file is a dictionary, or has a first fault.
    ensures exact { IfSome (S.files store.old) (λ m. Answers told_by_file result (dictionary_of (file_at m name.now))) }

    // Without the definitions of the faults: a dictionary that is opened is spelled so, and what is spelled so is opened.
    ensures found { IfOk result (λ words. IfSome (S.files store.old) (λ m. file_at m name.now ≡ Some (dictionary_bytes words))) }
    ensures only { (words : List (List ℕ)) → IsDictionary words → told_at (S.files store.old) name.now ≡ Some (dictionary_bytes words)
        → Answers told_by_file result (Ok words) }
    ensures files { SameFiles (S.files store.old) (S.files store.new) }
    ensures reads { AddsOnly (IsWholeLook (S.files store.old) name.now) (S.reads store.old) (S.reads store.new) }
    ensures once { OnOk result (IfSome (S.files store.old) (λ m. AddsRead (Some m) (S.reads store.old) (S.reads store.new) (whole_look m name.now))) }
{
    match file_bytes(alloc, store, name) {
        Ok(Some(bytes)) => Dictionary::from_bytes(alloc, &bytes),
        Ok(None) => Err(DicFault::Missing),
        Err(Trouble::Failed) => Err(DicFault::Store),
        Err(Trouble::OutOfMemory) => Err(DicFault::OutOfMemory),
    }
}
