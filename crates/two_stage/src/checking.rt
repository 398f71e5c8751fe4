//! The second stage of a condition on an open column: on which candidates it is true, by their values.

ghost use Rattle.std.specs.Prelude.{◌≡◌, ◌+◌, ◌≤◌, ℕ, ℤ, List, IfErr, IfOk, length, map};
ghost use Rattle.fb_outside.specs.Causes.{HasCause};
ghost use Rattle.fb_outside.specs.Files.{SameFiles};
ghost use Rattle.fb_outside.specs.Reads.{AddsOnly};
ghost use Rattle.binning.specs.Spans.{has};
ghost use Rattle.candidates.specs.Numbers.{HasNumbers, numbers_look};
ghost use Rattle.candidates.specs.Reads.{IsBlockLook};
ghost use Rattle.candidates.specs.Texts.{HasTexts, meets, texts_look};
ghost use Rattle.stages.specs.Faults.{IsRefused};
ghost use Rattle.wah_logic.specs.Logic.{and, each_place};
ghost use Rattle.wah_words.specs.Spelling.{words_of};
ghost use Rattle.two_stage.specs.Faults.{IsOfStore, IsOutside, StopsAt};
ghost use Rattle.two_stage.specs.Kept.{IsNumbersOf, IsTextsOf};

use crate::fault::{EvalFault, of_found};
use crate::placed::PlacedColumn;
use binning::Spans;
use candidates::{numbers_found, texts_found};
use column_file::ColumnRef;
use fb_outside::Store;
use std::alloc::Global;
use std::sync::ledger::Ledger;
use steps::Steps;
use text_column::TextRef;
use wah_words::Wah;
use where_grammar::Atom;

/// On which candidates the spans have the number, or the code, of the row.
pub(crate) fn check_numbers<S: Store, L: Ledger>(
    alloc: Global,
    store: &mut S,
    placed: &PlacedColumn,
    column: &ColumnRef,
    spans: &Spans,
    candidates: &Wah,
    steps: &mut Steps<L>,
) -> Result<Wah, EvalFault>
    requires opened { IsNumbersOf (S.files store.old) placed.now column.now }
    requires length { length candidates.now ≡ placed.now.rows }
    ensures cause { HasCause (S.faults store.old) (S.faults store.new) (IsRefused result IsOfStore) }
    ensures files { SameFiles (S.files store.old) (S.files store.new) }
    ensures stop { IfErr result (StopsAt (S.files store.old) placed.now) }
    ensures length { IfOk result (λ v. length v ≡ placed.now.rows) }
    ensures reads { AddsOnly (IsBlockLook (numbers_look column.now) candidates.now) (S.reads store.old) (S.reads store.new) }
    ensures steps { steps.new ≤ steps.old + words_of candidates.now }

    // Where the values file has numbers.
    ensures found { IfOk result (λ v. (numbers : List ℤ) → HasNumbers (S.files store.old) column.now numbers
        → v ≡ each_place and candidates.now (map (has spans.now) numbers)) }
    ensures whole { IfErr result (λ fault. (numbers : List ℤ) → HasNumbers (S.files store.old) column.now numbers → IsOutside fault) }
{
    match numbers_found(alloc, store, column, spans, candidates, steps) {
        Ok(found) => Ok(found),
        Err(fault) => Err(of_found(placed.col, fault)),
    }
}

/// On which candidates the text of the row meets the condition.
pub(crate) fn check_texts<S: Store, L: Ledger>(
    alloc: Global,
    store: &mut S,
    placed: &PlacedColumn,
    text: &TextRef,
    condition: &Atom,
    candidates: &Wah,
    steps: &mut Steps<L>,
) -> Result<Wah, EvalFault>
    requires opened { IsTextsOf (S.files store.old) placed.now text.now }
    requires length { length candidates.now ≡ placed.now.rows }
    ensures cause { HasCause (S.faults store.old) (S.faults store.new) (IsRefused result IsOfStore) }
    ensures files { SameFiles (S.files store.old) (S.files store.new) }
    ensures stop { IfErr result (StopsAt (S.files store.old) placed.now) }
    ensures length { IfOk result (λ v. length v ≡ placed.now.rows) }
    ensures reads { AddsOnly (IsBlockLook (texts_look text.now) candidates.now) (S.reads store.old) (S.reads store.new) }
    ensures steps { steps.new ≤ steps.old + words_of candidates.now }

    // Where the text file has texts.
    ensures found { IfOk result (λ v. (texts : List (List ℕ)) → HasTexts (S.files store.old) text.now texts
        → v ≡ each_place and candidates.now (map (meets condition.now) texts)) }
    ensures whole { IfErr result (λ fault. (texts : List (List ℕ)) → HasTexts (S.files store.old) text.now texts → IsOutside fault) }
{
    match texts_found(alloc, store, text, condition, candidates, steps) {
        Ok(found) => Ok(found),
        Err(fault) => Err(of_found(placed.col, fault)),
    }
}
