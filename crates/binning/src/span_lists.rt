//! Sets of whole numbers as lists of spans.
ghost use Rattle.std.specs.Prelude.{◌≡◌, ℤ, List, [], ◌∷◌, ◌++◌, filter, IfOk};
ghost use Rattle.std.specs.List.{AllByRecursion};
ghost use Rattle.binning.specs.Spans.{AreApart, has, IsInRange, IsSpanInRange, HasNumber, has_number, LeastsRise, IsFirstReaching};
ghost use Rattle.binning.specs.Joined.{Joined};

use std::alloc::{AllocError, Global};
use std::marker::Model;

/// The whole numbers from `least` to `greatest`, both included; none where `least` is above `greatest`.
#[derive(Clone, Copy, Debug, PartialEq, Eq)]
pub struct Span {
    pub least: i128,
    pub greatest: i128,
}

/// A set of whole numbers: spans that rise, have a number each, and have a number between each and the next.
#[derive(Debug, Drop)]
pub struct Spans {
    items: Vec<Span>,
}

impl Model for Spans {
    ghost use Rattle.std.specs.Prelude.{List};
    ghost use Rattle.binning.specs.declared.span_lists.Span.{Span};
    ghost use Rattle.binning.specs.Spans.{AreApart};

    ghost Value = { List Span };

    ghost view = { λ s. s.items.items };

    ghost invariant = { λ s. AreApart s.items.items };
}

/// The spans that have a number.
fn nonempty(alloc: Global, list: &[Span]) -> Result<Vec<Span>, AllocError>
    ensures { IfOk result (λ v. v.items ≡ filter has_number list.now) }
{
    let mut kept = Vec::new(alloc);
    for span in list {
        if span.least <= span.greatest {
            kept.push(*span)?;
        }
    }
    Ok(kept)
}

/// The span that is open after a further one, which begins no earlier. The open one is closed where a number stands
/// between them.
fn opened(items: &mut Vec<Span>, current: Span, span: Span) -> Result<Span, AllocError>
    requires { IsInRange current.greatest }
    ensures { IfOk result (λ next. (rest seen : List Span) → Joined items.old.items current (span ∷ rest) seen → Joined items.new.items next rest (seen ++ span ∷ [])) }
{
    if span.least > current.greatest + 1 {
        items.push(current)?;
        return Ok(span);
    }
    if span.greatest > current.greatest {
        return Ok(Span {
            least: current.least,
            greatest: span.greatest,
        });
    }
    Ok(current)
}

/// Spans that have a number each and stand in order of their least, joined where they overlap or touch.
fn merged(alloc: Global, spans: &[Span]) -> Result<Vec<Span>, AllocError>
    requires numbers { AllByRecursion HasNumber spans.now }
    requires range { AllByRecursion IsSpanInRange spans.now }
    requires sorted { LeastsRise spans.now }
    ensures same { IfOk result (λ v. (x : ℤ) → has v.items x ≡ has spans.now x) }
    ensures apart { IfOk result (λ v. AreApart v.items) }
    ensures within { IfOk result (λ v. AllByRecursion IsSpanInRange v.items) }
{
    let mut items = Vec::new(alloc);
    if spans.len() == 0 {
        return Ok(items);
    }
    let mut current = spans[0];
    for span in spans {
        current = opened(&mut items, current, *span)?;
    }
    items.push(current)?;
    Ok(items)
}

/// The place of the first span that reaches up to the number, or how many spans there are.
pub(crate) fn first_reaching(spans: &[Span], v: i128) -> usize
    requires { AreApart spans.now }
    ensures { IsFirstReaching spans.now v result }
{
    spans.partition_point(|span| span.greatest < v)
}

impl Spans {
    /// The numbers of these spans, whose ends lie between -2^63 and 2^64 - 1. They may overlap, touch and stand in any
    /// order, and some may be empty.
    pub fn of(alloc: Global, list: &[Span]) -> Result<Spans, AllocError>
        requires { AllByRecursion IsSpanInRange list.now }
        ensures same { IfOk result (λ spans. (v : ℤ) → has spans v ≡ has list.now v) }
        ensures apart { IfOk result AreApart }
        ensures within { IfOk result (AllByRecursion IsSpanInRange) }
    {
        let mut kept = nonempty(alloc, list)?;
        kept.sort_unstable_by_key(|span| span.least);
        let items = merged(alloc, &kept)?;
        Ok(Spans { items })
    }

    /// The spans, in rising order.
    pub fn list(&self) -> &[Span]
        ensures list { result.now ≡ self.now }
        ensures apart { AreApart self.now }
    {
        &self.items
    }

    /// Whether one of the spans has the number.
    pub fn has(&self, v: i128) -> bool
        ensures { result ≡ has self.now v }
    {
        let list = self.list();
        let place = first_reaching(list, v);
        place < list.len() && list[place].least <= v
    }
}
