//! Operations on whole vectors.
ghost use Rattle.std.specs.Prelude.{◌≡◌, ◌+◌, ◌*◌, ◌%◌, ◌<◌, ◌≤◌, not, map, [], ◌++◌, length, IfOk};
ghost use Rattle.wah_words.specs.Limits.{most_bits};
ghost use Rattle.wah_words.specs.Spelling.{words_of};
ghost use Rattle.wah_words.specs.Left.{run_values};
ghost use Rattle.wah_logic.specs.Logic.{each_place, and, groups_and_rest, ones};
ghost use Rattle.wah_logic.specs.Rest.{IsPart};

use crate::ops::{And, BitOp};
use crate::put::put_run;
use crate::side::Side;
use crate::turn::next_run;
use std::alloc::{AllocError, Global};
use std::sync::ledger::Ledger;
use steps::Steps;
use wah_words::{Builder, Run, Wah};

/// Appends the values of a run.
#[inline(always)]
fn push_run(out: &mut Builder, run: Run)
    requires part { IsPart run [] }
    requires aligned { length out.old.values % 31 ≡ 0 }
    requires room { 1 ≤ out.old.spare }
    requires limit { length out.old.values + length (run_values run) ≤ most_bits }
    ensures values { out.new.values ≡ out.old.values ++ run_values run }
    ensures spare { out.old.spare ≤ out.new.spare + 1 }
    ensures words { words_of out.new.values ≤ words_of out.old.values + 1 }
{
    match run {
        Run::Fill { bit, groups } => out.push_fill(bit, groups),
        Run::Literal(word) => out.push_literal(word),
        Run::Tail { bits, count } => out.push_tail(bits, count),
    }
}

/// The operation at each place of two vectors of one length. `out` is empty and has the room; it takes no memory.
#[inline(never)]
pub fn combine<O: BitOp, L: Ledger>(a: &Wah, b: &Wah, out: Builder, steps: &mut Steps<L>) -> Wah
    requires same { length a.now ≡ length b.now }
    requires empty { out.values ≡ [] }
    requires room { words_of a.now + words_of b.now ≤ out.spare }
    ensures values { result ≡ each_place O.op a.now b.now }
    ensures words { words_of result ≤ words_of a.now + words_of b.now }
    ensures steps { steps.new ≤ steps.old + words_of a.now + words_of b.now }
{
    let mut out = out;
    let mut x = Side::over(a);
    let mut y = Side::over(b);
    while let Some(run) = x.take(steps) {
        put_run::<O, L>(run, &mut x, &mut y, &mut out, steps);
    }
    out.finish()
}

/// The same in room that is made for it.
pub fn combined<O: BitOp, L: Ledger>(
    alloc: Global,
    a: &Wah,
    b: &Wah,
    steps: &mut Steps<L>,
) -> Result<Wah, AllocError>
    requires { length a.now ≡ length b.now }
    ensures values { IfOk result (λ v. v ≡ each_place O.op a.now b.now) }
    ensures length { IfOk result (λ v. length v ≡ length a.now) }
    ensures words { IfOk result (λ v. words_of v ≤ words_of a.now + words_of b.now) }
    ensures steps { steps.new ≤ steps.old + words_of a.now + words_of b.now }
    ensures groups { steps.new ≤ steps.old + 2 * groups_and_rest (length a.now) }
{
    let out = Builder::with_room(alloc, a.words() + b.words())?;
    Ok(combine::<O, L>(a, b, out, steps))
}

/// How many values of the run are true.
#[inline(always)]
fn ones_of(run: Run) -> u32
    requires part { IsPart run [] }
    requires limit { length (run_values run) ≤ most_bits }
    ensures { result ≡ ones (run_values run) }
{
    match run {
        Run::Fill { bit: true, groups } => 31 * groups,
        Run::Fill { bit: false, .. } => 0,
        Run::Literal(word) => word.count_ones(),
        Run::Tail { bits, .. } => bits.count_ones(),
    }
}

/// How many places are true in both of two vectors of one length.
pub fn common<L: Ledger>(a: &Wah, b: &Wah, steps: &mut Steps<L>) -> u64
    requires same { length a.now ≡ length b.now }
    ensures ones { result ≡ ones (each_place and a.now b.now) }
    ensures steps { steps.new ≤ steps.old + words_of a.now + words_of b.now }
{
    let mut count: u32 = 0;
    let mut x = Side::over(a);
    let mut y = Side::over(b);
    while let Some(run) = next_run::<And, L>(&mut x, &mut y, steps) {
        count += ones_of(run);
    }
    u64::from(count)
}

/// The run with each value turned.
#[inline(always)]
fn turned_run(run: Run) -> Run
    requires part { IsPart run [] }
    ensures values { run_values result ≡ map not (run_values run) }
    ensures part { IsPart result [] }
{
    match run {
        Run::Fill { bit, groups } => Run::Fill { bit: !bit, groups },
        Run::Literal(word) => Run::Literal(0x7FFF_FFFF - word),
        Run::Tail { bits, count } => Run::Tail {
            bits: (1 << count) - 1 - bits,
            count,
        },
    }
}

/// True where the vector is false.
pub fn complement<L: Ledger>(
    alloc: Global,
    a: &Wah,
    steps: &mut Steps<L>,
) -> Result<Wah, AllocError>
    ensures values { IfOk result (λ v. v ≡ map not a.now) }
    ensures words { IfOk result (λ v. words_of v ≤ words_of a.now) }
    ensures steps { steps.new ≤ steps.old + words_of a.now }
{
    let mut out = Builder::with_room(alloc, a.words())?;
    let mut x = Side::over(a);
    while let Some(run) = x.take(steps) {
        push_run(&mut out, turned_run(run));
    }
    Ok(out.finish())
}
