//! The numbers that a condition asks for, as spans between the ends of a column's type.

ghost use Rattle.std.specs.Prelude.{◌≡◌, ◌&&◌, ◌||◌, ℤ, false, int_le, int_lt, IfOk, List, map};
ghost use Rattle.std.specs.List.{AllByRecursion, list_any};
ghost use Rattle.std.specs.Ordering.{int_eq};
ghost use Rattle.binning.specs.Spans.{IsSpanInRange, has, in_span};
ghost use Rattle.where_grammar.specs.Holds.{compares};
ghost use Rattle.where_plan.specs.Sorts.{sort_of};
ghost use Rattle.where_plan.specs.SpansOf.{AreSpansOf, HaveOnly, number_meets};

use crate::sorts::Sort;
use binning::{Span, Spans};
use std::alloc::{AllocError, Global};
use where_grammar::{Atom, Op};

/// No number.
pub(crate) fn nothing() -> Span
    ensures numbers { (n : ℤ) → in_span n result ≡ false }
    ensures within { IsSpanInRange result }
{
    Span {
        least: 0,
        greatest: -1,
    }
}

/// The numbers of the span below a limit. The limit may be any number, so it is compared with the ends before 1 is
/// taken from it.
fn below(ends: Span, limit: i128) -> Span
    requires { IsSpanInRange ends }
    ensures numbers { (n : ℤ) → in_span n result ≡ (in_span n ends && int_lt n limit) }
    ensures within { IsSpanInRange result }
{
    if limit <= ends.least {
        nothing()
    } else if limit > ends.greatest {
        ends
    } else {
        Span {
            least: ends.least,
            greatest: limit - 1,
        }
    }
}

/// The numbers of the span above a limit, which may be any number.
fn above(ends: Span, limit: i128) -> Span
    requires { IsSpanInRange ends }
    ensures numbers { (n : ℤ) → in_span n result ≡ (in_span n ends && int_lt limit n) }
    ensures within { IsSpanInRange result }
{
    if limit >= ends.greatest {
        nothing()
    } else if limit < ends.least {
        ends
    } else {
        Span {
            least: limit + 1,
            greatest: ends.greatest,
        }
    }
}

/// The numbers of the span up to a limit, which may be any number.
fn at_most(ends: Span, limit: i128) -> Span
    requires { IsSpanInRange ends }
    ensures numbers { (n : ℤ) → in_span n result ≡ (in_span n ends && int_le n limit) }
    ensures within { IsSpanInRange result }
{
    if limit < ends.least {
        nothing()
    } else if limit > ends.greatest {
        ends
    } else {
        Span {
            least: ends.least,
            greatest: limit,
        }
    }
}

/// The numbers of the span from a limit on, which may be any number.
fn at_least(ends: Span, limit: i128) -> Span
    requires { IsSpanInRange ends }
    ensures numbers { (n : ℤ) → in_span n result ≡ (in_span n ends && int_le limit n) }
    ensures within { IsSpanInRange result }
{
    if limit > ends.greatest {
        nothing()
    } else if limit < ends.least {
        ends
    } else {
        Span {
            least: limit,
            greatest: ends.greatest,
        }
    }
}

/// The numbers of the span from `low` to `high`.
fn between(ends: Span, low: i128, high: i128) -> Span
    requires { IsSpanInRange ends }
    ensures numbers { (n : ℤ) → in_span n result ≡ (in_span n ends && (int_le low n && int_le n high)) }
    ensures within { IsSpanInRange result }
{
    at_least(at_most(ends, high), low)
}

/// The number, where the span has it.
pub(crate) fn only(ends: Span, number: i128) -> Span
    requires { IsSpanInRange ends }
    ensures numbers { (n : ℤ) → in_span n result ≡ (in_span n ends && int_eq n number) }
    ensures within { IsSpanInRange result }
{
    between(ends, number, number)
}

/// The numbers of the span that stand so to a limit, as two spans.
pub(crate) fn compared(ends: Span, by: Op, limit: i128) -> (Span, Span)
    requires { IsSpanInRange ends }
    ensures numbers { (n : ℤ) → (in_span n result.0 || in_span n result.1) ≡ (in_span n ends && compares by n limit) }
    ensures first { IsSpanInRange result.0 }
    ensures second { IsSpanInRange result.1 }
{
    match by {
        Op::Less => (below(ends, limit), nothing()),
        Op::LessEq => (at_most(ends, limit), nothing()),
        Op::Greater => (above(ends, limit), nothing()),
        Op::GreaterEq => (at_least(ends, limit), nothing()),
        Op::Equal => (only(ends, limit), nothing()),
        Op::Differs => (below(ends, limit), above(ends, limit)),
    }
}

/// The spans of the numbers between both ends that stand so to a limit.
pub(crate) fn compared_spans(
    alloc: Global,
    ends: Span,
    by: Op,
    limit: i128,
) -> Result<Spans, AllocError>
    requires { IsSpanInRange ends }
    ensures { IfOk result (AreSpansOf ends (λ n. compares by n limit)) }
{
    let (first, second) = compared(ends, by, limit);
    Spans::of(alloc, &[first, second])
}

/// The spans of the numbers between both ends that stand so to two limits.
fn twice_compared(
    alloc: Global,
    ends: Span,
    left: Op,
    low: i128,
    right: Op,
    high: i128,
) -> Result<Spans, AllocError>
    requires { IsSpanInRange ends }
    ensures { IfOk result (AreSpansOf ends (λ n. compares left n low && compares right n high)) }
{
    let (first, second) = compared(ends, left, low);
    let of_first = compared(first, right, high);
    let of_second = compared(second, right, high);
    Spans::of(alloc, &[of_first.0, of_first.1, of_second.0, of_second.1])
}

/// The spans of the numbers between both ends from `low` to `high`.
fn spans_between(alloc: Global, ends: Span, low: i128, high: i128) -> Result<Spans, AllocError>
    requires { IsSpanInRange ends }
    ensures { IfOk result (AreSpansOf ends (λ n. int_le low n && int_le n high)) }
{
    Spans::of(alloc, &[between(ends, low, high)])
}

/// The numbers of a list that are between both ends, each as a span.
fn single_spans(alloc: Global, ends: Span, list: &[i128]) -> Result<Vec<Span>, AllocError>
    requires { IsSpanInRange ends }
    ensures numbers { IfOk result (λ spans. HaveOnly ends (λ n. list_any (int_eq n) list.now) spans.items) }
    ensures within { IfOk result (λ spans. AllByRecursion IsSpanInRange spans.items) }
{
    let mut spans = Vec::with_capacity(alloc, list.len())?;
    for number in list {
        spans.push(only(ends, *number))?;
    }
    Ok(spans)
}

/// The spans of the numbers of a list that are between both ends.
fn listed_spans(alloc: Global, ends: Span, list: &[i128]) -> Result<Spans, AllocError>
    requires { IsSpanInRange ends }
    ensures { IfOk result (AreSpansOf ends (λ n. list_any (int_eq n) list.now)) }
{
    let spans = single_spans(alloc, ends, list)?;
    Spans::of(alloc, &spans)
}

/// The spans of the numbers between both ends on which the condition is true.
pub(crate) fn number_spans(alloc: Global, condition: &Atom, ends: Span) -> Result<Spans, AllocError>
    requires sort { sort_of condition.now ≡ Sort.Number }
    requires range { IsSpanInRange ends }
    ensures { IfOk result (AreSpansOf ends (number_meets condition.now)) }
{
    match condition {
        Atom::Compare { op, value, .. } => compared_spans(alloc, ends, *op, *value),
        Atom::Double {
            left,
            low,
            right,
            high,
            ..
        } => twice_compared(alloc, ends, *left, *low, *right, *high),
        Atom::Between { low, high, .. } => spans_between(alloc, ends, *low, *high),
        Atom::Numbers { list, .. } => listed_spans(alloc, ends, list.as_slice()),
        _ => unreachable!(),
    }
}
