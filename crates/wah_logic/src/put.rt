//! The walk of `combine`, which puts out the operation on what is left of both vectors. What is left of a fill is
//! worked off against the other vector's words in one loop, so one vector at most stands inside a fill after it.
ghost use Rattle.std.specs.Prelude.{◌≡◌, ◌+◌, ◌*◌, ◌%◌, ◌^◌, ◌<◌, ◌≤◌, [], ◌++◌, length, take, drop, replicate};
ghost use Rattle.wah_words.specs.Limits.{most_bits};
ghost use Rattle.wah_words.specs.Places.{places};
ghost use Rattle.wah_words.specs.Spelling.{words_of};
ghost use Rattle.wah_words.specs.Left.{run_values};
ghost use Rattle.wah_logic.specs.Logic.{each_place};
ghost use Rattle.wah_logic.specs.Rest.{IsPart, Puts, looks};

use crate::ops::{BitOp, Swapped};
use crate::side::Side;
use crate::turn::group_of;
use std::sync::ledger::Ledger;
use steps::Steps;
use wah_words::{Builder, Run};

/// Puts out the operation where a run was taken from x.
#[inline(always)]
pub(crate) fn put_run<O: BitOp, L: Ledger>(
    run: Run,
    x: &mut Side,
    y: &mut Side,
    out: &mut Builder,
    steps: &mut Steps<L>,
)
    requires part { IsPart run x.old.values }
    requires same { length (run_values run) + length x.old.values ≡ length y.old.values }
    requires aligned { length out.old.values % 31 ≡ 0 }
    requires room { looks x.old + looks y.old + 1 ≤ out.old.spare }
    requires limit { length out.old.values + length y.old.values ≤ most_bits }
    ensures puts { Puts O.op (run_values run ++ x.old.values) y.old.values out.old.values x.new.values y.new.values out.new.values }
    ensures words { words_of out.new.values + looks x.new + looks y.new ≤ words_of out.old.values + looks x.old + looks y.old + 1 }
    ensures spare { out.old.spare + looks x.new + looks y.new ≤ out.new.spare + looks x.old + looks y.old + 1 }
    ensures looks { looks x.new + looks y.new ≤ looks x.old + looks y.old }
    ensures steps { steps.new + x.new.words + y.new.words ≡ steps.old + x.old.words + y.old.words }
{
    match run {
        Run::Fill { bit, groups } => put_fills::<O, L>(bit, groups, x, y, out, steps),
        Run::Literal(word) => put_literals::<O, L>(word, x, y, out, steps),
        Run::Tail { bits, count } => put_tail::<O, L>(bits, count, y, out, steps),
    }
}

/// Puts out the operation where a fill was taken from x, and on what is left after it of a fill of y. So y never stands
/// inside a fill when a run is taken from x.
#[inline(always)]
fn put_fills<O: BitOp, L: Ledger>(
    bit: bool,
    groups: u32,
    x: &mut Side,
    y: &mut Side,
    out: &mut Builder,
    steps: &mut Steps<L>,
)
    requires same { 31 * groups + length x.old.values ≡ length y.old.values }
    requires aligned { length out.old.values % 31 ≡ 0 }
    requires room { looks x.old + looks y.old + 1 ≤ out.old.spare }
    requires limit { length out.old.values + length y.old.values ≤ most_bits }
    ensures puts { Puts O.op (replicate (31 * groups) bit ++ x.old.values) y.old.values out.old.values x.new.values y.new.values out.new.values }
    ensures words { words_of out.new.values + looks x.new + looks y.new ≤ words_of out.old.values + looks x.old + looks y.old + 1 }
    ensures spare { out.old.spare + looks x.new + looks y.new ≤ out.new.spare + looks x.old + looks y.old + 1 }
    ensures looks { looks x.new + looks y.new ≤ looks x.old + looks y.old }
    ensures steps { steps.new + x.new.words + y.new.words ≡ steps.old + x.old.words + y.old.words }
{
    put_fill::<O, L>(bit, groups, y, out, steps);
    let (other, left) = y.take_fill();
    if left > 0 {
        put_fill::<Swapped<O>, L>(other, left, x, out, steps);
    }
}

/// Puts out the operation on so many groups of one value and as many of y.
#[inline(always)]
fn put_fill<O: BitOp, L: Ledger>(
    bit: bool,
    groups: u32,
    y: &mut Side,
    out: &mut Builder,
    steps: &mut Steps<L>,
)
    requires long { 31 * groups ≤ length y.old.values }
    requires aligned { length out.old.values % 31 ≡ 0 }
    requires room { looks y.old + 1 ≤ out.old.spare }
    requires limit { length out.old.values + 31 * groups ≤ most_bits }
    ensures values { out.new.values ≡ out.old.values ++ each_place O.op (replicate (31 * groups) bit) (take (31 * groups) y.old.values) }
    ensures left { y.new.values ≡ drop (31 * groups) y.old.values }
    ensures words { words_of out.new.values + looks y.new ≤ words_of out.old.values + looks y.old + 1 }
    ensures spare { out.old.spare + looks y.new ≤ out.new.spare + looks y.old + 1 }
    ensures looks { looks y.new ≤ looks y.old }
    ensures steps { steps.new + y.new.words ≡ steps.old + y.old.words }
{
    if groups == 0 {
        return;
    }
    if O::on_bit(bit, false) == O::on_bit(bit, true) {
        out.push_fill(O::on_bit(bit, false), groups);
        y.pass(groups, steps);
        return;
    }
    put_beside::<O, L>(bit, groups, y, out, steps);
}

/// The same word by word.
#[inline(always)]
fn put_beside<O: BitOp, L: Ledger>(
    bit: bool,
    groups: u32,
    y: &mut Side,
    out: &mut Builder,
    steps: &mut Steps<L>,
)
    requires long { 31 * groups ≤ length y.old.values }
    requires aligned { length out.old.values % 31 ≡ 0 }
    requires room { looks y.old + 1 ≤ out.old.spare }
    requires limit { length out.old.values + 31 * groups ≤ most_bits }
    ensures values { out.new.values ≡ out.old.values ++ each_place O.op (replicate (31 * groups) bit) (take (31 * groups) y.old.values) }
    ensures left { y.new.values ≡ drop (31 * groups) y.old.values }
    ensures words { words_of out.new.values + looks y.new ≤ words_of out.old.values + looks y.old + 1 }
    ensures spare { out.old.spare + looks y.new ≤ out.new.spare + looks y.old + 1 }
    ensures looks { looks y.new ≤ looks y.old }
    ensures steps { steps.new + y.new.words ≡ steps.old + y.old.words }
{
    let mut ahead = groups;
    while ahead > 0 {
        match y.take_group(steps) {
            Run::Fill {
                bit: other,
                groups: most,
            } => {
                if most > ahead {
                    out.push_fill(O::on_bit(bit, other), ahead);
                    y.put_back(other, most - ahead);
                    return;
                }
                out.push_fill(O::on_bit(bit, other), most);
                ahead -= most;
            }
            Run::Literal(word) => {
                out.push_literal(O::on_word(group_of(bit), word));
                ahead -= 1;
            }
            Run::Tail { .. } => unreachable!(),
        }
    }
}

/// Puts out the operation where a literal was taken from x, on further literals of both, and on a fill of y that ends
/// them.
#[inline(always)]
fn put_literals<O: BitOp, L: Ledger>(
    word: u32,
    x: &mut Side,
    y: &mut Side,
    out: &mut Builder,
    steps: &mut Steps<L>,
)
    requires group { word < 2 ^ 31 }
    requires same { 31 + length x.old.values ≡ length y.old.values }
    requires aligned { length out.old.values % 31 ≡ 0 }
    requires room { looks x.old + looks y.old + 1 ≤ out.old.spare }
    requires limit { length out.old.values + length y.old.values ≤ most_bits }
    ensures puts { Puts O.op (places 31 word ++ x.old.values) y.old.values out.old.values x.new.values y.new.values out.new.values }
    ensures words { words_of out.new.values + looks x.new + looks y.new ≤ words_of out.old.values + looks x.old + looks y.old + 1 }
    ensures spare { out.old.spare + looks x.new + looks y.new ≤ out.new.spare + looks x.old + looks y.old + 1 }
    ensures looks { looks x.new + looks y.new ≤ looks x.old + looks y.old }
    ensures steps { steps.new + x.new.words + y.new.words ≡ steps.old + x.old.words + y.old.words }
{
    let mut word = word;
    loop {
        match y.take_group(steps) {
            Run::Literal(other) => {
                out.push_literal(O::on_word(word, other));
                match x.take(steps) {
                    Some(Run::Literal(next)) => word = next,
                    Some(Run::Fill { bit, groups }) => {
                        x.put_back(bit, groups);
                        return;
                    }
                    Some(Run::Tail { bits, count }) => {
                        put_tail::<O, L>(bits, count, y, out, steps);
                        return;
                    }
                    None => return,
                }
            }
            Run::Fill { bit, groups } => {
                out.push_literal(O::on_word(word, group_of(bit)));
                put_fill::<Swapped<O>, L>(bit, groups - 1, x, out, steps);
                return;
            }
            Run::Tail { .. } => unreachable!(),
        }
    }
}

/// Puts out the operation on the tails.
#[inline(always)]
fn put_tail<O: BitOp, L: Ledger>(
    bits: u32,
    count: u32,
    y: &mut Side,
    out: &mut Builder,
    steps: &mut Steps<L>,
)
    requires some { 0 < count }
    requires few { count < 31 }
    requires fits { bits < 2 ^ count }
    requires same { count ≡ length y.old.values }
    requires aligned { length out.old.values % 31 ≡ 0 }
    requires limit { length out.old.values + count ≤ most_bits }
    ensures puts { Puts O.op (places count bits) y.old.values out.old.values [] y.new.values out.new.values }
    ensures words { words_of out.new.values + looks y.new ≤ words_of out.old.values + looks y.old }
    ensures spare { out.new.spare ≡ out.old.spare }
    ensures looks { looks y.new ≤ looks y.old }
    ensures steps { steps.new + y.new.words ≡ steps.old + y.old.words }
{
    match y.take(steps) {
        Some(Run::Tail { bits: other, .. }) => out.push_tail(O::on_word(bits, other), count),
        Some(Run::Fill { .. }) => unreachable!(),
        Some(Run::Literal(_)) => unreachable!(),
        None => unreachable!(),
    }
}
