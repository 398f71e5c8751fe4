//! Two vectors at equal places.
ghost use Rattle.std.specs.Prelude.{◌≡◌, ◌+◌, ◌*◌, ◌^◌, ◌<◌, ◌≤◌, [], ◌++◌, length, replicate};
ghost use Rattle.wah_words.specs.Limits.{most_bits};
ghost use Rattle.wah_words.specs.Places.{places};
ghost use Rattle.wah_words.specs.Spelling.{words_of};
ghost use Rattle.wah_logic.specs.Rest.{looks};
ghost use Rattle.wah_logic.specs.Pairs.{Splits, Advances};

use crate::side::Side;
use crate::turn::group_of;
use std::marker::Model;
use std::sync::ledger::Ledger;
use steps::Steps;
use wah_words::{Run, Wah};

/// The values of two vectors at the same places.
#[derive(Clone, Copy, Debug, PartialEq, Eq)]
pub enum Pair {
    /// `groups` times 31 values `a` and `b`.
    Fills { a: bool, b: bool, groups: u32 },
    /// 31 values each, the first in bit 30.
    Words { a: u32, b: u32 },
    /// The last `count` values, 1 to 30, the first in bit `count - 1`.
    Tails { a: u32, b: u32, count: u32 },
}

/// A walk over two vectors of one length at equal places, which may stand inside a fill of either. Contracts see the
/// values still to come of both, the words still to look at and the fills that have groups left.
#[derive(Drop)]
pub struct Lockstep<'a, 'b> {
    a: Side<'a>,
    b: Side<'b>,
}

impl<'a, 'b> Model for Lockstep<'a, 'b> {
    ghost use Rattle.std.specs.Prelude.{◌≡◌, ◌+◌, length};
    ghost use Rattle.wah_logic.specs.Pairs.{Both};

    ghost Value = { Both };

    ghost view = { λ s. record { a = s.a.values; b = s.b.values; words = s.a.words + s.b.words; fills = s.a.fills + s.b.fills } };

    ghost invariant = { λ s. length s.a.values ≡ length s.b.values };
}

impl<'a, 'b> Lockstep<'a, 'b> {
    /// A walk over both vectors.
    #[inline(always)]
    pub fn over(a: &'a Wah, b: &'b Wah) -> Lockstep<'a, 'b>
        requires same { length a.now ≡ length b.now }
        ensures values { (result.a ≡ a.now) × (result.b ≡ b.now) }
        ensures words { result.words ≡ words_of a.now + words_of b.now }
        ensures fills { result.fills ≡ 0 }
        ensures limit { length a.now ≤ most_bits }
    {
        Lockstep {
            a: Side::over(a),
            b: Side::over(b),
        }
    }

    /// The next values of both. Two fills give the groups of the shorter one, a fill beside a literal one group.
    #[inline(always)]
    pub fn advance<L: Ledger>(&mut self, steps: &mut Steps<L>) -> Option<Pair>
        ensures advances { Advances self.old result self.new }
        ensures steps { steps.new + self.new.words ≡ steps.old + self.old.words }
    {
        match self.a.take(steps) {
            None => None,
            Some(Run::Fill { bit, groups }) => {
                Some(pair_fill(bit, groups, &mut self.a, &mut self.b, steps))
            }
            Some(Run::Literal(word)) => Some(pair_literal(word, &self.a, &mut self.b, steps)),
            Some(Run::Tail { bits, count }) => Some(pair_tail(bits, count, &mut self.b, steps)),
        }
    }
}

/// The next pair where a fill was taken from a.
#[inline(always)]
fn pair_fill<L: Ledger>(
    bit: bool,
    groups: u32,
    a: &mut Side,
    b: &mut Side,
    steps: &mut Steps<L>,
) -> Pair
    requires taken { a.old.fills ≡ 0 }
    requires some { 0 < groups }
    requires same { 31 * groups + length a.old.values ≡ length b.old.values }
    ensures splits { Splits (replicate (31 * groups) bit ++ a.old.values) b.old.values result a.new.values b.new.values }
    ensures looks { looks a.new + looks b.new ≤ looks a.old + looks b.old }
    ensures steps { steps.new + a.new.words + b.new.words ≡ steps.old + a.old.words + b.old.words }
{
    match b.take(steps) {
        Some(
            Run::Fill {
                bit: other,
                groups: most,
            },
        ) => {
            let both = groups.min(most);
            a.put_back(bit, groups - both);
            b.put_back(other, most - both);
            Pair::Fills {
                a: bit,
                b: other,
                groups: both,
            }
        }
        Some(Run::Literal(word)) => {
            a.put_back(bit, groups - 1);
            Pair::Words {
                a: group_of(bit),
                b: word,
            }
        }
        Some(Run::Tail { .. }) => unreachable!(),
        None => unreachable!(),
    }
}

/// The next pair where a literal was taken from a.
#[inline(always)]
fn pair_literal<L: Ledger>(word: u32, a: &Side, b: &mut Side, steps: &mut Steps<L>) -> Pair
    requires group { word < 2 ^ 31 }
    requires same { 31 + length a.now.values ≡ length b.old.values }
    ensures splits { Splits (places 31 word ++ a.now.values) b.old.values result a.now.values b.new.values }
    ensures looks { looks b.new ≤ looks b.old }
    ensures steps { steps.new + b.new.words ≡ steps.old + b.old.words }
{
    match b.take(steps) {
        Some(Run::Fill { bit, groups }) => {
            b.put_back(bit, groups - 1);
            Pair::Words {
                a: word,
                b: group_of(bit),
            }
        }
        Some(Run::Literal(other)) => Pair::Words { a: word, b: other },
        Some(Run::Tail { .. }) => unreachable!(),
        None => unreachable!(),
    }
}

/// The last pair: b has a tail of as many values.
#[inline(always)]
fn pair_tail<L: Ledger>(bits: u32, count: u32, b: &mut Side, steps: &mut Steps<L>) -> Pair
    requires some { 0 < count }
    requires few { count < 31 }
    requires fits { bits < 2 ^ count }
    requires same { count ≡ length b.old.values }
    ensures splits { Splits (places count bits) b.old.values result [] b.new.values }
    ensures looks { looks b.new ≤ looks b.old }
    ensures steps { steps.new + b.new.words ≡ steps.old + b.old.words }
{
    match b.take(steps) {
        Some(Run::Tail { bits: other, .. }) => Pair::Tails {
            a: bits,
            b: other,
            count,
        },
        Some(Run::Fill { .. }) => unreachable!(),
        Some(Run::Literal(_)) => unreachable!(),
        None => unreachable!(),
    }
}
