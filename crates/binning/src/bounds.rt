//! The bounds that cut a range, or sorted values, into parts.
ghost use Rattle.std.specs.Prelude.{◌≡◌, ℤ, ◌+◌, ◌≤◌, ◌*◌, ◌/◌, pos, ◌+ℤ◌, ◌<ℤ◌, ◌||◌, length, OnOk, IfOk, ◌≤ℤ◌};
ghost use Rattle.std.specs.Int.{int_gap};
ghost use Rattle.std.specs.List.{AllByRecursion};
ghost use Rattle.std.specs.List.Sorted.{IsSorted};
ghost use Rattle.std.specs.Ordering.{int_cmp, int_eq};
ghost use Rattle.wah_words.specs.Limits.{most_bits};
ghost use Rattle.wah_words.specs.Spelling.{words_of};
ghost use Rattle.binning.specs.Spans.{IsInRange};
ghost use Rattle.binning.specs.Keys.{Rises, rising, sorted, width_bounds, weight_bounds};
ghost use Rattle.binning.specs.Bins.{cells, present};
ghost use Rattle.binning.specs.Gathered.{is_in};

use crate::masks::present_values;
use std::alloc::{AllocError, Global};
use std::sync::ledger::Ledger;
use steps::Steps;
use wah_words::Wah;

/// Whether a bound that is at least each of the others is among them.
fn has_bound(bounds: &[i128], bound: i128) -> bool
    requires rises { Rises bounds.now }
    requires least { AllByRecursion (λ b. b ≤ℤ bound) bounds.now }
    ensures { result ≡ is_in bound bounds.now }
{
    let count = bounds.len();
    count > 0 && bounds[count - 1] == bound
}

/// Adds a bound that is at least each of the others, unless it is among them.
fn push_bound(bounds: &mut Vec<i128>, bound: i128) -> Result<(), AllocError>
    requires rises { Rises bounds.old.items }
    requires least { AllByRecursion (λ b. b ≤ℤ bound) bounds.old.items }
    ensures rises { OnOk result (Rises bounds.new.items) }
    ensures least { OnOk result (AllByRecursion (λ b. b ≤ℤ bound) bounds.new.items) }
    ensures has { OnOk result ((v : ℤ) → is_in v bounds.new.items ≡ (is_in v bounds.old.items || int_eq v bound)) }
{
    if has_bound(bounds, bound) {
        return Ok(());
    }
    bounds.push(bound)?;
    Ok(())
}

/// The j-th of the bounds of `count` equal widths.
fn width_bound(start: i128, end: i128, count: u32, j: u32) -> i128
    requires start { IsInRange start }
    requires end { IsInRange end }
    requires order { start <ℤ end }
    requires some { 1 ≤ count }
    requires few { j ≤ 100000 }
    ensures { result ≡ (start +ℤ pos (j * int_gap start end / count)) }
{
    let width = end.abs_diff(start);
    let above = u128::from(j) * width / u128::from(count);
    start + above as i128
}

/// The bounds of `count` equal widths from `start` to `end`, cut down to whole numbers, each once.
pub(crate) fn width_bounds(
    alloc: Global,
    start: i128,
    end: i128,
    count: u32,
) -> Result<Vec<i128>, AllocError>
    requires start { IsInRange start }
    requires end { IsInRange end }
    requires order { start <ℤ end }
    requires some { 1 ≤ count }
    requires few { count ≤ 100000 }
    ensures { IfOk result (λ bounds. bounds.items ≡ rising (width_bounds start end count)) }
{
    let mut bounds = Vec::new(alloc);
    for j in 0..count + 1 {
        push_bound(&mut bounds, width_bound(start, end, count, j))?;
    }
    Ok(bounds)
}

/// The values at the places that cut sorted values into `count` parts, each once.
fn weight_bounds(alloc: Global, sorted: &[i128], count: u32) -> Result<Vec<i128>, AllocError>
    requires sorted { IsSorted int_cmp sorted.now }
    requires some { 1 ≤ count }
    requires few { count ≤ 100000 }
    requires limit { length sorted.now ≤ most_bits }
    ensures { IfOk result (λ bounds. bounds.items ≡ rising (weight_bounds count sorted.now)) }
{
    let mut bounds = Vec::new(alloc);
    if sorted.len() == 0 {
        return Ok(bounds);
    }
    for j in 1..count {
        let place = j as usize * sorted.len() / count as usize;
        push_bound(&mut bounds, sorted[place])?;
    }
    Ok(bounds)
}

/// The bounds of `count` bins of about as many rows each.
pub(crate) fn weights<L: Ledger>(
    alloc: Global,
    values: &[i128],
    mask: &Wah,
    count: u32,
    steps: &mut Steps<L>,
) -> Result<Vec<i128>, AllocError>
    requires same { length values.now ≡ length mask.now }
    requires some { 1 ≤ count }
    requires few { count ≤ 100000 }
    ensures bounds { IfOk result (λ bounds. bounds.items ≡ rising (weight_bounds count (sorted (present (cells mask.now values.now))))) }
    ensures steps { steps.new ≤ steps.old + words_of mask.now }
{
    let mut sorted = present_values(alloc, values, mask, steps)?;
    sorted.sort_unstable();
    weight_bounds(alloc, &sorted, count)
}
