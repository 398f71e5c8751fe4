ghost use Rattle.std.specs.Prelude.{◌≡◌, ℕ, ◌+◌, ◌-◌, ◌*◌, ◌/◌, ◌^◌, ◌<◌, ◌≤◌, ◌++◌, length, take, drop, min, slice_range, IfOk};
ghost use Rattle.wah_words.specs.Limits.{most_bits};
ghost use Rattle.wah_words.specs.Places.{places};
ghost use Rattle.wah_words.specs.Spelling.{words_of};
ghost use Rattle.wah_words.specs.Left.{run_values};
ghost use Rattle.wah_iter.specs.Runs.{Fits};

use crate::appender::Appender;
use crate::counts::len_of;
use std::alloc::{AllocError, Global};
use std::sync::ledger::Ledger;
use steps::Steps;
use wah_words::{Run, Wah};

/// Of `total` places of a number, `count` from the first-th on, the highest being place 0.
#[inline(always)]
fn part_of(bits: u32, total: u32, first: u32, count: u32) -> u32
    requires within { first + count ≤ total }
    requires few { total ≤ 31 }
    ensures values { places count result ≡ take count (drop first (places total bits)) }
    ensures fits { result < 2 ^ count }
{
    (bits >> (total - first - count)) % (1 << count)
}

/// Appends `count` values of the run from the first-th on.
#[inline(always)]
fn append_part(out: &mut Appender, run: Run, first: u32, count: u32)
    requires fits { Fits run }
    requires within { first + count ≤ length (run_values run) }
    requires limit { length out.old.values + count ≤ most_bits }
    requires room { min 2 ((length out.old.values + count) / 31 - length out.old.values / 31) ≤ out.old.spare }
    ensures values { out.new.values ≡ out.old.values ++ take count (drop first (run_values run)) }
    ensures spare { out.old.spare ≤ out.new.spare + min 2 ((length out.old.values + count) / 31 - length out.old.values / 31) }
{
    match run {
        Run::Fill { bit, groups: _ } => out.append_fill(bit, count),
        Run::Literal(word) => out.append_bits(part_of(word, 31, first, count), count),
        Run::Tail { bits, count: total } => {
            out.append_bits(part_of(bits, total, first, count), count);
        }
    }
}

/// Appends `count` values of the vector from the first-th on.
fn append_slice<L: Ledger>(
    out: &mut Appender,
    v: &Wah,
    first: u32,
    count: u32,
    steps: &mut Steps<L>,
)
    requires within { first + count ≤ length v.now }
    requires limit { length out.old.values + count ≤ most_bits }
    requires room { min (2 * words_of v.now) ((length out.old.values + count) / 31 - length out.old.values / 31) ≤ out.old.spare }
    ensures values { out.new.values ≡ out.old.values ++ take count (drop first v.now) }
    ensures spare { out.old.spare ≤ out.new.spare + min (2 * words_of v.now) ((length out.old.values + count) / 31 - length out.old.values / 31) }
    ensures steps { steps.new ≤ steps.old + words_of v.now }
{
    let mut cursor = v.cursor();
    let mut skip = first;
    let mut left = count;
    while left > 0 {
        let Some(run) = cursor.advance(steps) else {
            return;
        };
        let values = len_of(run);
        if skip >= values {
            skip -= values;
        } else {
            let taken = if left < values - skip {
                left
            } else {
                values - skip
            };
            append_part(out, run, skip, taken);
            skip = 0;
            left -= taken;
        }
    }
}

/// The values of the first vector and then those of the second.
pub fn concat<L: Ledger>(
    alloc: Global,
    a: &Wah,
    b: &Wah,
    steps: &mut Steps<L>,
) -> Result<Wah, AllocError>
    requires { length a.now + length b.now ≤ most_bits }
    ensures joined { IfOk result (λ v. v ≡ a.now ++ b.now) }
    ensures steps { steps.new ≤ steps.old + words_of a.now + words_of b.now }
{
    let words = 2 * (a.words() + b.words());
    let groups = (a.len() + b.len()) / 31;
    let room = if words < groups { words } else { groups };
    let mut out = Appender::with_room(alloc, room)?;
    append_slice(&mut out, a, 0, a.len(), steps);
    append_slice(&mut out, b, 0, b.len(), steps);
    Ok(out.finish())
}

/// The values from the first-th on, up to but not with the end-th.
pub fn slice<L: Ledger>(
    alloc: Global,
    v: &Wah,
    first: u32,
    end: u32,
    steps: &mut Steps<L>,
) -> Result<Wah, AllocError>
    requires order { first ≤ end }
    requires within { end ≤ length v.now }
    ensures part { IfOk result (λ w. w ≡ slice_range v.now first end) }
    ensures steps { steps.new ≤ steps.old + words_of v.now }
{
    let words = 2 * v.words();
    let groups = (end - first) / 31;
    let room = if words < groups { words } else { groups };
    let mut out = Appender::with_room(alloc, room)?;
    append_slice(&mut out, v, first, end - first, steps);
    Ok(out.finish())
}
