//! What the options of a form say, or the first thing that is wrong with them.

ghost use Rattle.std.specs.Prelude.{◌≡◌, IfOk};
ghost use Rattle.std.specs.Option.{option_copied};
ghost use Rattle.std.specs.List.{list_any};
ghost use Rattle.index_spec.specs.Meaning.{fits, all_fit, has, is_among, are_among, has_all, is_set, lookup, number_named, numbers_named, coarse_named, within, draft_binning, draft_encoding, draft, repeats, outside, has_outside, any_outside, is_counted, rises, is_bounded, meaning};

use crate::options::{Form, Setting, Value};
use crate::spec::{Binning, Coarse, EncodingSpec, Spec, SpecKind};
use crate::word::{WORDS, Word};
use sqlite_items::Items;
use std::alloc::{AllocError, Global};

const MAX_COUNT: u32 = 100_000;

const MAX_DIGITS: u32 = 18;

const MAX_BOUNDS: usize = 4096;

const LEAST: i128 = -(1 << 63);

const GREATEST: i128 = (1 << 64) - 1;

/// Whether the option's word takes such a value.
fn fits(setting: &Setting) -> bool
    ensures { result ≡ fits setting.now.name setting.now.value }
{
    match &setting.value {
        Value::Nothing => matches!(
            setting.name,
            Word::Each | Word::Equality | Word::Range | Word::Interval | Word::TwoLevel
        ),
        Value::Number(_) => matches!(
            setting.name,
            Word::Start | Word::End | Word::Nbins | Word::Precision | Word::Ncoarse
        ),
        Value::Word(word) => {
            matches!(setting.name, Word::Coarse)
                && matches!(word, Word::Equality | Word::Range | Word::Interval)
        }
        Value::Numbers(numbers) => matches!(setting.name, Word::Bounds) && !numbers.is_empty(),
    }
}

fn has(settings: &[Setting], name: Word) -> bool
    ensures { result ≡ has name settings.now }
{
    settings.iter().any(|s| s.name.is(name))
}

fn is_among(name: Word, names: &[Word]) -> bool
    ensures { result ≡ is_among name names.now }
{
    names.iter().any(|n| name.is(*n))
}

fn are_among(settings: &[Setting], names: &[Word]) -> bool
    ensures { result ≡ are_among names.now settings.now }
{
    settings.iter().all(|s| is_among(s.name, names))
}

fn has_all(settings: &[Setting], names: &[Word]) -> bool
    ensures { result ≡ has_all names.now settings.now }
{
    names.iter().all(|n| has(settings, *n))
}

/// Whether the options are these, in any order.
fn is_set(names: &[Word], settings: &[Setting]) -> bool
    ensures { result ≡ is_set names.now settings.now }
{
    are_among(settings, names) && has_all(settings, names)
}

/// Whether an option stands twice.
fn repeats(settings: &[Setting]) -> bool
    ensures { result ≡ repeats settings.now }
{
    WORDS.iter().any(|name| settings.iter().filter(|s| s.name.is(*name)).count() > 1)
}

fn lookup(settings: &[Setting], name: Word) -> Option<&Value>
    ensures { option_copied result ≡ lookup name settings.now }
{
    match settings.iter().find(|s| s.name.is(name)) {
        None => None,
        Some(setting) => Some(&setting.value),
    }
}

fn number_named(settings: &[Setting], name: Word) -> i128
    ensures { result ≡ number_named name settings.now }
{
    match lookup(settings, name) {
        Some(Value::Number(number)) => *number,
        _ => 0,
    }
}

fn numbers_named(alloc: Global, settings: &[Setting], name: Word) -> Result<Items<i128>, AllocError>
    ensures { IfOk result (λ numbers. numbers ≡ numbers_named name settings.now) }
{
    match lookup(settings, name) {
        Some(Value::Numbers(numbers)) => Items::from_slice(alloc, numbers.as_slice()),
        _ => Ok(Items::new(alloc)),
    }
}

fn coarse_named(settings: &[Setting], name: Word) -> Coarse
    ensures { result ≡ coarse_named name settings.now }
{
    match lookup(settings, name) {
        Some(Value::Word(Word::Range)) => Coarse::Range,
        Some(Value::Word(Word::Interval)) => Coarse::Interval,
        _ => Coarse::Equality,
    }
}

/// The number where it is 1 to `limit`, else 0.
fn within(limit: u32, number: i128) -> u32
    ensures { result ≡ within limit number }
{
    if number > 0 && number <= i128::from(limit) {
        number as u32
    } else {
        0
    }
}

#[tactic(auto, unfolding(crate::specs::Meaning::draft_binning))]
fn draft_binning(alloc: Global, settings: &[Setting]) -> Result<Option<Binning>, AllocError>
    ensures { IfOk result (λ found. found ≡ draft_binning settings.now) }
{
    let count = within(MAX_COUNT, number_named(settings, Word::Nbins));
    Ok(if is_set(&[Word::Each], settings) {
        Some(Binning::Each)
    } else if is_set(&[Word::Bounds], settings) {
        Some(Binning::Bounds(numbers_named(alloc, settings, Word::Bounds)?))
    } else if is_set(&[Word::Start, Word::End, Word::Nbins], settings) {
        Some(Binning::Width {
            start: number_named(settings, Word::Start),
            end: number_named(settings, Word::End),
            count,
        })
    } else if is_set(&[Word::Nbins], settings) {
        Some(Binning::Weight { count })
    } else if is_set(&[Word::Precision], settings) {
        Some(Binning::Precision {
            digits: within(MAX_DIGITS, number_named(settings, Word::Precision)),
        })
    } else {
        None
    })
}

#[tactic(auto, unfolding(crate::specs::Meaning::draft_encoding))]
fn draft_encoding(settings: &[Setting]) -> Option<EncodingSpec>
    ensures { result ≡ draft_encoding settings.now }
{
    if is_set(&[Word::Equality], settings) {
        Some(EncodingSpec::Equality)
    } else if is_set(&[Word::Range], settings) {
        Some(EncodingSpec::Range)
    } else if is_set(&[Word::Interval], settings) {
        Some(EncodingSpec::Interval)
    } else if is_set(&[Word::TwoLevel, Word::Coarse, Word::Ncoarse], settings) {
        Some(EncodingSpec::TwoLevel {
            coarse: coarse_named(settings, Word::Coarse),
            ncoarse: within(MAX_COUNT, number_named(settings, Word::Ncoarse)),
        })
    } else {
        None
    }
}

/// The specification that the options make, where counts that are out of range stand as 0.
#[tactic(auto, unfolding(crate::specs::Meaning::draft))]
fn draft(alloc: Global, form: &Form) -> Result<Option<Spec>, AllocError>
    ensures { IfOk result (λ found. found ≡ draft form.now) }
{
    let binning = form.binning.as_slice();
    let encoding = form.encoding.as_slice();
    if !all_fit(binning) || !all_fit(encoding) {
        return Ok(None);
    }
    match draft_encoding(encoding) {
        None => Ok(None),
        Some(encoding) => match draft_binning(alloc, binning)? {
            None => Ok(None),
            Some(binning) => Ok(Some(Spec { binning, encoding })),
        },
    }
}

fn all_fit(settings: &[Setting]) -> bool
    ensures { result ≡ all_fit settings.now }
{
    settings.iter().all(|s| fits(s))
}

fn outside(number: i128) -> bool
    ensures { result ≡ outside number }
{
    number < LEAST || number > GREATEST
}

fn is_any_outside(numbers: &[i128]) -> bool
    ensures { result ≡ list_any outside numbers.now }
{
    numbers.iter().any(|n| outside(*n))
}

fn has_outside(setting: &Setting) -> bool
    ensures { result ≡ has_outside setting.now.value }
{
    match &setting.value {
        Value::Number(number) => outside(*number),
        Value::Numbers(numbers) => is_any_outside(numbers.as_slice()),
        _ => false,
    }
}

fn any_outside(settings: &[Setting]) -> bool
    ensures { result ≡ any_outside settings.now }
{
    settings.iter().any(|s| has_outside(s))
}

fn is_counted(spec: &Spec) -> bool
    ensures { result ≡ is_counted spec.now }
{
    let binning = match &spec.binning {
        Binning::Width { start, end, count } => *count > 0 && *start < *end,
        Binning::Weight { count } => *count > 0,
        Binning::Precision { digits } => *digits > 0,
        _ => true,
    };
    let encoding = match &spec.encoding {
        EncodingSpec::TwoLevel { ncoarse, .. } => *ncoarse > 0,
        _ => true,
    };
    binning && encoding
}

/// Whether each number is below the next.
fn rises(numbers: &[i128]) -> bool
    ensures { result ≡ rises numbers.now }
{
    numbers
        .iter()
        .zip(numbers.iter().skip(1))
        .all(|(low, high)| *low < *high)
}

fn is_bounded(binning: &Binning) -> bool
    ensures { result ≡ is_bounded binning.now }
{
    match binning {
        Binning::Bounds(bounds) => bounds.len() <= MAX_BOUNDS && rises(bounds.as_slice()),
        _ => true,
    }
}

/// The specification that the options make, or the first thing that is wrong.
#[tactic(auto, unfolding(crate::specs::Meaning::meaning))]
pub(crate) fn meaning(alloc: Global, form: &Form) -> Result<Result<Spec, SpecKind>, AllocError>
    ensures { IfOk result (λ answer. answer ≡ meaning form.now) }
{
    let Some(spec) = draft(alloc, form)? else {
        return Ok(Err(SpecKind::Syntax));
    };
    let binning = form.binning.as_slice();
    let encoding = form.encoding.as_slice();
    Ok(if repeats(binning) || repeats(encoding) {
        Err(SpecKind::Repeated)
    } else if any_outside(binning) || any_outside(encoding) {
        Err(SpecKind::Number)
    } else if !is_counted(&spec) {
        Err(SpecKind::Count)
    } else if !is_bounded(&spec.binning) {
        Err(SpecKind::Bounds)
    } else {
        Ok(spec)
    })
}
