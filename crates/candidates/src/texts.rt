//! Candidates of a column of texts, which are read.

ghost use Rattle.std.specs.Prelude.{◌≡◌, ◌+◌, ◌-◌, ◌<◌, ◌≤◌, ◌++◌, ◌∷◌, [], ℕ, List, IfErr, IfOk, IsErrOf, OnOk, drop, length, map, take};
ghost use Rattle.std.specs.List.{filter, list_any};
ghost use Rattle.std.specs.Str.{bytes_eq};
ghost use Rattle.fb_outside.specs.Causes.{HasCause};
ghost use Rattle.fb_outside.specs.Files.{SameFiles};
ghost use Rattle.fb_outside.specs.Reads.{AddsOnly};
ghost use Rattle.wah_logic.specs.Logic.{and, each_place};
ghost use Rattle.wah_words.specs.Spelling.{words_of};
ghost use Rattle.candidates.specs.Blocks.{blocks_of};
ghost use Rattle.candidates.specs.Faults.{IsOfOutside, StoreFailed, text_fault};
ghost use Rattle.candidates.specs.Reads.{AddsAll, IsBlockLook, reads_of};
ghost use Rattle.candidates.specs.Texts.{HasTexts, StopsTexts, have_bytes, meets, texts_look};

use crate::fault::FindFault;
use crate::found::Found;
use crate::walk::{Rows, find};
use fb_outside::Store;
use fb_types::Label;
use std::alloc::Global;
use std::sync::ledger::Ledger;
use steps::Steps;
use text_column::{TextFault, TextRef, like, read_texts};
use wah_words::Wah;
use where_grammar::Atom;

/// On which candidates the text of the row meets a condition. Neighbouring candidates are read at once, in blocks of at most
/// 4,096, and no other row is read.
pub fn texts_found<S: Store, L: Ledger>(
    alloc: Global,
    store: &mut S,
    text: &TextRef,
    condition: &Atom,
    candidates: &Wah,
    steps: &mut Steps<L>,
) -> Result<Wah, FindFault>
    requires { length candidates.now ≡ text.now.rows }
    ensures cause { HasCause (S.faults store.old) (S.faults store.new) (IsErrOf result (FindFault.Texts TextFault.Store)) }
    ensures files { SameFiles (S.files store.old) (S.files store.new) }
    ensures stop { IfErr result (StopsTexts (S.files store.old) text.now) }
    ensures length { IfOk result (λ v. length v ≡ length candidates.now) }

    // Where the text file has texts.
    ensures found { IfOk result (λ v. (texts : List (List ℕ)) → HasTexts (S.files store.old) text.now texts
        → v ≡ each_place and candidates.now (map (meets condition.now) texts)) }
    ensures whole { IfErr result (λ fault. (texts : List (List ℕ)) → HasTexts (S.files store.old) text.now texts → IsOfOutside fault) }

    // Each read is of a block of candidates; once the walk is done, the blocks of each run that have bytes were read, in
    // order, each once.
    ensures reads { AddsOnly (IsBlockLook (texts_look text.now) candidates.now) (S.reads store.old) (S.reads store.new) }
    ensures each { OnOk result (AddsAll (S.files store.old) (S.reads store.old) (S.reads store.new)
        (map (texts_look text.now) (filter (have_bytes text.now) (blocks_of candidates.now)))) }
    ensures steps { steps.new ≤ steps.old + words_of candidates.now }
{
    find(alloc, store, &Texts { text, condition }, candidates, steps)
}

/// An open column of texts, and the condition that a text has to meet.
#[derive(Drop)]
pub(crate) struct Texts<'a> {
    text: &'a TextRef,
    condition: &'a Atom,
}

impl<'a> Rows for Texts<'a> {
    ghost use Rattle.candidates.specs.Texts.{AreTextTests, StopsTexts, have_bytes, texts_look};

    ghost rows = { λ t. t.text.now.rows };

    ghost tests = { λ t files all. AreTextTests files t.text.now t.condition.now all };

    ghost look = { λ t. texts_look t.text.now };

    ghost takes_read = { λ t. have_bytes t.text.now };

    ghost stops = { λ t files. StopsTexts files t.text.now };

    ghost memory = { λ t files. tt };

    fn test<S: Store>(
        &self,
        alloc: Global,
        store: &mut S,
        first: u32,
        past: u32,
        _block: &mut [i128],
        found: &mut Found,
    ) -> Result<(), FindFault> {
        let texts = read_block(alloc, store, self.text, first, past)?;
        push_tests(&texts, self.condition, found);
        Ok(())
    }
}

/// The texts of the rows from one up to another.
fn read_block<S: Store>(
    alloc: Global,
    store: &mut S,
    text: &TextRef,
    first: u32,
    past: u32,
) -> Result<Vec<Label>, FindFault>
    requires some { first < past }
    requires rows { past ≤ text.now.rows }
    ensures cause { HasCause (S.faults store.old) (S.faults store.new) (StoreFailed result) }
    ensures files { SameFiles (S.files store.old) (S.files store.new) }
    ensures stop { IfErr result (StopsTexts (S.files store.old) text.now) }
    ensures count { IfOk result (λ read. length read.items ≡ past - first) }
    ensures texts { IfOk result (λ read. (texts : List (List ℕ)) → HasTexts (S.files store.old) text.now texts
        → read.items ≡ take (past - first) (drop first texts)) }
    ensures whole { IfErr result (λ fault. (texts : List (List ℕ)) → HasTexts (S.files store.old) text.now texts → IsOfOutside fault) }
    ensures reads { AddsOnly (λ read. read ≡ texts_look text.now (first, past)) (S.reads store.old) (S.reads store.new) }
    ensures each { IfOk result (λ read. AddsAll (S.files store.old) (S.reads store.old) (S.reads store.new)
        (reads_of (texts_look text.now) (have_bytes text.now) ((first, past) ∷ []))) }
{
    match read_texts(alloc, store, text, first, past) {
        Ok(texts) => Ok(texts),
        Err(fault) => Err(of_texts(fault)),
    }
}

/// A fault of a column of texts. Want of memory is told by itself.
fn of_texts(fault: TextFault) -> FindFault
    ensures { result ≡ text_fault fault }
{
    match fault {
        TextFault::OutOfMemory => FindFault::OutOfMemory,
        fault => FindFault::Texts(fault),
    }
}

/// Puts behind the rows that were seen whether each of these texts meets the condition.
fn push_tests(texts: &[Label], condition: &Atom, found: &mut Found)
    requires { length found.old.bits + length texts.now ≤ found.old.rows }
    ensures bits { found.new.bits ≡ found.old.bits ++ map (meets condition.now) texts.now }
    ensures rows { found.new.rows ≡ found.old.rows }
{
    for text in texts {
        found.push(is_met(condition, text.bytes()) as u32, 1);
    }
}

/// Whether a word meets a condition.
fn is_met(condition: &Atom, word: &[u8]) -> bool
    ensures { result ≡ meets condition.now word.now }
{
    match condition {
        Atom::Same { text, .. } => word == text.bytes(),
        Atom::Other { text, .. } => word != text.bytes(),
        Atom::Texts { list, .. } => is_listed(list.as_slice(), word),
        Atom::Like { pattern, .. } => like(pattern.bytes(), word),
        Atom::Exists { .. } => true,
        _ => false,
    }
}

/// Whether a word is one of the texts.
fn is_listed(texts: &[Label], word: &[u8]) -> bool
    ensures { result ≡ list_any (bytes_eq word.now) texts.now }
{
    for text in texts {
        if word == text.bytes() {
            return true;
        }
    }
    false
}
