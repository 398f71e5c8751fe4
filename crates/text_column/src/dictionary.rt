//! The words of a category column and their codes.

ghost use Rattle.std.specs.Prelude.{◌≡◌, ◌<◌, ◌≤◌, [], length, IfOk, None, OnErr, OnOk, Some};
ghost use Rattle.std.specs.Option.{option_copied};
ghost use Rattle.text_column.specs.Words.{IsDictionary, IsWord, code_in, with_word, word_in, most_words};

use fb_types::Label;
use indexmap::IndexSet;
use std::alloc::{AllocError, Global};
use std::marker::Model;

/// Distinct words of 1 to 65,535 bytes, at most 4,194,304, with codes from 1 in the order in which they came. A row
/// whose code is of no word is null. Contracts see it as the list of the words in order of code.
#[derive(Drop)]
pub struct Dictionary {
    words: IndexSet<Vec<u8>>,
}

impl Model for Dictionary {
    ghost use Rattle.std.specs.Prelude.{List, ℕ, map};
    ghost use Rattle.indexmap.specs.IndexSet.{keys};
    ghost use Rattle.text_column.specs.Words.{IsDictionary};

    ghost Value = { List (List ℕ) };

    ghost view = { λ d. map (λ word. word.items) (keys d.words) };

    ghost invariant = { λ d. IsDictionary (map (λ word. word.items) (keys d.words)) };
}

impl Dictionary {
    /// No words yet.
    pub fn make(alloc: Global) -> Dictionary
        ensures { result ≡ [] }
    {
        Dictionary {
            words: IndexSet::new(alloc),
        }
    }

    /// The number of words, which is the greatest code.
    pub fn len(&self) -> u32
        ensures len { result ≡ length self.now }
        ensures valid { IsDictionary self.now }
    {
        self.words.len() as u32
    }

    /// The code of a word, None where it isn't there.
    pub fn code_of(&self, word: &[u8]) -> Option<u32>
        ensures { result ≡ code_in self.now word.now }
    {
        match self.words.get_index_of(word) {
            Some(place) => Some(place as u32 + 1),
            None => None,
        }
    }

    /// The word of a code, None where there is none.
    pub fn word_of(&self, code: u32) -> Option<&[u8]>
        ensures { option_copied result ≡ word_in self.now code }
    {
        if code == 0 {
            return None;
        }
        match self.words.get_index(code as usize - 1) {
            Some(word) => Some(word.as_slice()),
            None => None,
        }
    }

    /// The code of a word, which goes behind the others where it is new.
    pub fn add(&mut self, word: Label) -> Result<u32, AllocError>
        requires word { IsWord word }
        requires few { length self.old < most_words }
        ensures ok { OnOk result (self.new ≡ with_word self.old word) }
        ensures code { IfOk result (λ code. code_in self.new word ≡ Some code) }

        // Only for a new word memory is wanted, and where it runs out nothing changes.
        ensures new { OnErr result (code_in self.old word ≡ None) }
        ensures err { OnErr result (self.new ≡ self.old) }
    {
        let (place, _) = self.words.insert_full(word.into_vec())?;
        Ok(place as u32 + 1)
    }
}
