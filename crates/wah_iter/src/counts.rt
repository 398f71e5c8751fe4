ghost use Rattle.std.specs.Prelude.{◌≡◌, ◌+◌, ◌<◌, ◌≤◌, Some, length, count_by, get_or, false, slice_get};
ghost use Rattle.wah_words.specs.Spelling.{words_of};
ghost use Rattle.wah_words.specs.Left.{run_values};
ghost use Rattle.wah_iter.specs.Runs.{Fits};

use std::sync::ledger::Ledger;
use steps::Steps;
use wah_words::{Run, Wah};

/// How many values of the vector are true.
pub fn count_ones<L: Ledger>(v: &Wah, steps: &mut Steps<L>) -> u64
    ensures count { result ≡ count_by (λ b. b) v.now }
    ensures steps { steps.new ≡ steps.old + words_of v.now }
{
    let mut cursor = v.cursor();
    let mut count = 0;
    while let Some(ones) = cursor.advance_count(steps) {
        count += ones;
    }
    count
}

/// How many values the run has.
#[inline(always)]
pub(crate) fn len_of(run: Run) -> u32
    requires { Fits run }
    ensures { result ≡ length (run_values run) }
{
    match run {
        Run::Fill { bit: _, groups } => 31 * groups,
        Run::Literal(_) => 31,
        Run::Tail { bits: _, count } => count,
    }
}

/// The value at a place of the run.
#[inline(always)]
fn value_in(run: Run, place: u32) -> bool
    requires fits { Fits run }
    requires below { place < length (run_values run) }
    ensures { result ≡ get_or (run_values run) place false }
{
    match run {
        Run::Fill { bit, groups: _ } => bit,
        Run::Literal(word) => (word >> (30 - place)) % 2 == 1,
        Run::Tail { bits, count } => (bits >> (count - 1 - place)) % 2 == 1,
    }
}

/// The value at a place.
pub fn get<L: Ledger>(v: &Wah, place: u32, steps: &mut Steps<L>) -> bool
    requires { place < length v.now }
    ensures value { slice_get v.now place ≡ Some result }
    ensures steps { steps.new ≤ steps.old + words_of v.now }
{
    let mut cursor = v.cursor();
    let mut left = place;
    while let Some(run) = cursor.advance(steps) {
        let count = len_of(run);
        if left < count {
            return value_in(run, left);
        }
        left -= count;
    }
    false
}
