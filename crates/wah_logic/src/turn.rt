//! One turn of the walk over two vectors: the next run of an operation on them.
ghost use Rattle.std.specs.Prelude.{◌≡◌, ◌+◌, ◌*◌, ◌^◌, ◌<◌, ◌≤◌, [], ◌++◌, cond, length, replicate};
ghost use Rattle.wah_words.specs.Places.{places};
ghost use Rattle.wah_logic.specs.Rest.{Joins, Turns, looks};

use crate::ops::BitOp;
use crate::side::Side;
use std::sync::ledger::Ledger;
use steps::Steps;
use wah_words::Run;

/// A group of one value.
#[inline(always)]
pub(crate) fn group_of(bit: bool) -> u32
    ensures { result ≡ cond bit 2147483647 0 }
{
    if bit { 0x7FFF_FFFF } else { 0 }
}

/// The next run of the operation on what is left of both: at least one word or fill of one of them ends with it.
#[inline(always)]
pub(crate) fn next_run<O: BitOp, L: Ledger>(
    a: &mut Side,
    b: &mut Side,
    steps: &mut Steps<L>,
) -> Option<Run>
    requires { length a.old.values ≡ length b.old.values }
    ensures turns { Turns O.op a.old b.old result a.new b.new }
    ensures steps { steps.new + a.new.words + b.new.words ≡ steps.old + a.old.words + b.old.words }
{
    match a.take(steps) {
        None => None,
        Some(Run::Fill { bit, groups }) => Some(join_fill::<O, L>(bit, groups, a, b, steps)),
        Some(Run::Literal(word)) => Some(join_literal::<O, L>(word, a, b, steps)),
        Some(Run::Tail { bits, count }) => Some(join_tail::<O, L>(bits, count, b, steps)),
    }
}

/// The next run where a fill was taken from a.
#[inline(always)]
fn join_fill<O: BitOp, L: Ledger>(
    bit: bool,
    groups: u32,
    a: &mut Side,
    b: &mut Side,
    steps: &mut Steps<L>,
) -> Run
    requires taken { a.old.fills ≡ 0 }
    requires some { 0 < groups }
    requires same { 31 * groups + length a.old.values ≡ length b.old.values }
    ensures joins { Joins O.op (replicate (31 * groups) bit ++ a.old.values) b.old.values result a.new.values b.new.values }
    ensures looks { looks a.new + looks b.new ≤ looks a.old + looks b.old }
    ensures steps { steps.new + a.new.words + b.new.words ≡ steps.old + a.old.words + b.old.words }
{
    if O::on_bit(bit, false) == O::on_bit(bit, true) {
        b.pass(groups, steps);
        return Run::Fill {
            bit: O::on_bit(bit, false),
            groups,
        };
    }
    match b.take(steps) {
        Some(
            Run::Fill {
                bit: other,
                groups: most,
            },
        ) => {
            let both = groups.min(most);
            a.put_back(bit, groups - both);
            b.put_back(other, most - both);
            Run::Fill {
                bit: O::on_bit(bit, other),
                groups: both,
            }
        }
        Some(Run::Literal(word)) => {
            a.put_back(bit, groups - 1);
            Run::Literal(O::on_word(group_of(bit), word))
        }
        Some(Run::Tail { .. }) => unreachable!(),
        None => unreachable!(),
    }
}

/// The next run where a literal was taken from a.
#[inline(always)]
fn join_literal<O: BitOp, L: Ledger>(
    word: u32,
    a: &mut Side,
    b: &mut Side,
    steps: &mut Steps<L>,
) -> Run
    requires taken { a.old.fills ≡ 0 }
    requires group { word < 2 ^ 31 }
    requires same { 31 + length a.old.values ≡ length b.old.values }
    ensures joins { Joins O.op (places 31 word ++ a.old.values) b.old.values result a.new.values b.new.values }
    ensures looks { looks a.new + looks b.new ≤ looks a.old + looks b.old }
    ensures steps { steps.new + a.new.words + b.new.words ≡ steps.old + a.old.words + b.old.words }
{
    match b.take(steps) {
        Some(Run::Fill { bit, groups }) => {
            if O::on_bit(false, bit) == O::on_bit(true, bit) {
                a.pass(groups - 1, steps);
                return Run::Fill {
                    bit: O::on_bit(false, bit),
                    groups,
                };
            }
            b.put_back(bit, groups - 1);
            Run::Literal(O::on_word(word, group_of(bit)))
        }
        Some(Run::Literal(other)) => Run::Literal(O::on_word(word, other)),
        Some(Run::Tail { .. }) => unreachable!(),
        None => unreachable!(),
    }
}

/// The last run: b has a tail of as many values.
#[inline(always)]
fn join_tail<O: BitOp, L: Ledger>(bits: u32, count: u32, b: &mut Side, steps: &mut Steps<L>) -> Run
    requires some { 0 < count }
    requires few { count < 31 }
    requires fits { bits < 2 ^ count }
    requires same { count ≡ length b.old.values }
    ensures joins { Joins O.op (places count bits) b.old.values result [] b.new.values }
    ensures looks { looks b.new ≤ looks b.old }
    ensures steps { steps.new + b.new.words ≡ steps.old + b.old.words }
{
    match b.take(steps) {
        Some(Run::Tail { bits: other, .. }) => Run::Tail {
            bits: O::on_word(bits, other),
            count,
        },
        Some(Run::Fill { .. }) => unreachable!(),
        Some(Run::Literal(_)) => unreachable!(),
        None => unreachable!(),
    }
}
