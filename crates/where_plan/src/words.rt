//! The codes of the words that meet a condition, as spans.

ghost use Rattle.std.specs.Prelude.{◌≡◌, ◌&&◌, ◌||◌, not, ℤ, pos, IfOk, OnOk};
ghost use Rattle.std.specs.List.{AllByRecursion, list_any};
ghost use Rattle.std.specs.Str.{bytes_eq};
ghost use Rattle.binning.specs.Spans.{IsSpanInRange, has, in_span};
ghost use Rattle.patterns.specs.Like.{like};
ghost use Rattle.text_column.specs.Words.{IsDictionary};
ghost use Rattle.where_plan.specs.Sorts.{sort_of};
ghost use Rattle.where_plan.specs.SpansOf.{AreCodes, AreSpansOf, HaveCodes, code_meets, code_passes, code_range, span};

use crate::numbers::{compared_spans, nothing, only};
use crate::sorts::Sort;
use binning::{Span, Spans};
use fb_types::Label;
use std::alloc::{AllocError, Global};
use text_column::{Dictionary, like};
use where_grammar::{Atom, Op};

/// The codes that words have.
fn code_range(words: &Dictionary) -> Span
    ensures value { result ≡ code_range words.now }
    ensures within { IsSpanInRange result }
    ensures valid { IsDictionary words.now }
{
    Span {
        least: 1,
        greatest: i128::from(words.len()),
    }
}

/// The code of the word that is the text, nothing where no word is.
fn code_span(words: &Dictionary, text: &[u8]) -> Span
    ensures numbers { (n : ℤ) → in_span n result
        ≡ (in_span n (code_range words.now) && code_passes (λ word. bytes_eq word text.now) words.now n) }
    ensures within { IsSpanInRange result }
{
    let codes = code_range(words);
    match words.code_of(text) {
        Some(code) => only(codes, i128::from(code)),
        None => nothing(),
    }
}

/// The spans of the code of the word that is the text.
fn same_spans(alloc: Global, words: &Dictionary, text: &[u8]) -> Result<Spans, AllocError>
    ensures { IfOk result (AreCodes words.now (λ word. bytes_eq word text.now)) }
{
    Spans::of(alloc, &[code_span(words, text)])
}

/// The spans of the codes of the words that aren't the text.
fn other_spans(alloc: Global, words: &Dictionary, text: &[u8]) -> Result<Spans, AllocError>
    ensures { IfOk result (AreCodes words.now (λ word. not (bytes_eq word text.now))) }
{
    let codes = code_range(words);
    match words.code_of(text) {
        Some(code) => compared_spans(alloc, codes, Op::Differs, i128::from(code)),
        None => Spans::of(alloc, &[codes]),
    }
}

/// The codes of the words that are in the list.
fn listed_codes(alloc: Global, words: &Dictionary, list: &[Label]) -> Result<Vec<Span>, AllocError>
    ensures numbers { IfOk result (λ spans. HaveCodes words.now (λ word. list_any (bytes_eq word) list.now) spans.items) }
    ensures within { IfOk result (λ spans. AllByRecursion IsSpanInRange spans.items) }
{
    let mut spans = Vec::with_capacity(alloc, list.len())?;
    for text in list {
        spans.push(code_span(words, text.bytes()))?;
    }
    Ok(spans)
}

/// The spans of the codes of the words that are in the list.
fn listed_word_spans(alloc: Global, words: &Dictionary, list: &[Label]) -> Result<Spans, AllocError>
    ensures { IfOk result (AreCodes words.now (λ word. list_any (bytes_eq word) list.now)) }
{
    let spans = listed_codes(alloc, words, list)?;
    Spans::of(alloc, &spans)
}

/// Adds the numbers from `first` to `last`, where there are some.
fn push_run(runs: &mut Vec<Span>, first: u32, last: u32) -> Result<(), AllocError>
    requires { AllByRecursion IsSpanInRange runs.old.items }
    ensures numbers { OnOk result ((n : ℤ) → has runs.new.items n
        ≡ (has runs.old.items n || in_span n (span (pos first) (pos last)))) }
    ensures within { OnOk result (AllByRecursion IsSpanInRange runs.new.items) }
{
    if first <= last {
        runs.push(Span {
            least: i128::from(first),
            greatest: i128::from(last),
        })?;
    }
    Ok(())
}

/// The codes of the words that are of the form of the pattern, a span for each run of neighbours.
fn like_codes(alloc: Global, words: &Dictionary, pattern: &[u8]) -> Result<Vec<Span>, AllocError>
    ensures numbers { IfOk result (λ spans. HaveCodes words.now (like pattern.now) spans.items) }
    ensures within { IfOk result (λ spans. AllByRecursion IsSpanInRange spans.items) }
{
    let mut runs = Vec::new(alloc);
    let count = words.len();
    let mut first = 1;
    for place in 0..count {
        let Some(word) = words.word_of(place + 1) else {
            unreachable!()
        };
        if !like(pattern, word) {
            push_run(&mut runs, first, place)?;
            first = place + 2;
        }
    }
    push_run(&mut runs, first, count)?;
    Ok(runs)
}

/// The spans of the codes of the words that are of the form of the pattern.
fn like_spans(alloc: Global, words: &Dictionary, pattern: &[u8]) -> Result<Spans, AllocError>
    ensures { IfOk result (AreCodes words.now (like pattern.now)) }
{
    let spans = like_codes(alloc, words, pattern)?;
    Spans::of(alloc, &spans)
}

/// The spans of the codes, from 1 to the number of words, whose words meet a condition on texts. Words are looked up
/// where the condition names them, and gone through for a pattern.
pub fn word_spans(alloc: Global, condition: &Atom, words: &Dictionary) -> Result<Spans, AllocError>
    requires { sort_of condition.now ≡ Sort.Text }
    ensures { IfOk result (AreSpansOf (code_range words.now) (code_meets condition.now words.now)) }
{
    match condition {
        Atom::Same { text, .. } => same_spans(alloc, words, text.bytes()),
        Atom::Other { text, .. } => other_spans(alloc, words, text.bytes()),
        Atom::Texts { list, .. } => listed_word_spans(alloc, words, list.as_slice()),
        Atom::Like { pattern, .. } => like_spans(alloc, words, pattern.bytes()),
        _ => unreachable!(),
    }
}
