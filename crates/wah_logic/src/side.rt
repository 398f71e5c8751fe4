//! One of two vectors that are walked in lockstep.
ghost use Rattle.std.specs.Prelude.{◌≡◌, ◌+◌, ◌*◌, ◌<◌, ◌≤◌, ◌++◌, ◌==◌, if◌then◌else◌, Some, length, drop, replicate};
ghost use Rattle.wah_words.specs.Limits.{most_bits};
ghost use Rattle.wah_words.specs.Spelling.{words_of};
ghost use Rattle.wah_logic.specs.Rest.{Takes, looks};

use std::marker::Model;
use std::sync::ledger::Ledger;
use steps::Steps;
use wah_words::{Cursor, Run, Wah};

/// A walk that may stand inside a fill: `left` groups `bit` come before the words of the cursor.
#[derive(Drop)]
pub(crate) struct Side<'a> {
    cursor: Cursor<'a>,
    bit: bool,
    left: u32,
}

impl<'a> Model for Side<'a> {
    ghost use Rattle.std.specs.Prelude.{◌*◌, ◌++◌, ◌==◌, replicate, if◌then◌else◌};
    ghost use Rattle.wah_logic.specs.Rest.{Rest};

    ghost Value = { Rest };

    ghost view = { λ s. record { values = replicate (31 * s.left) s.bit ++ s.cursor.values; words = s.cursor.words; fills = if s.left == 0 then 0 else 1 } };
}

impl<'a> Side<'a> {
    /// A walk over the whole vector.
    #[inline(always)]
    pub(crate) fn over(vector: &'a Wah) -> Side<'a>
        ensures values { result.values ≡ vector.now }
        ensures words { result.words ≡ words_of vector.now }
        ensures fills { result.fills ≡ 0 }
        ensures limit { length vector.now ≤ most_bits }
    {
        Side {
            cursor: vector.cursor(),
            bit: false,
            left: 0,
        }
    }

    /// What is left of the fill, or the next word.
    #[inline(always)]
    pub(crate) fn take<L: Ledger>(&mut self, steps: &mut Steps<L>) -> Option<Run>
        ensures takes { Takes self.old result self.new }
        ensures fills { self.new.fills ≡ 0 }
        ensures steps { steps.new + self.new.words ≡ steps.old + self.old.words }
    {
        if self.left > 0 {
            let groups = self.left;
            self.left = 0;
            return Some(Run::Fill {
                bit: self.bit,
                groups,
            });
        }
        self.cursor.advance(steps)
    }

    /// What is left of the fill, which is then taken. No groups where there is none.
    #[inline(always)]
    pub(crate) fn take_fill(&mut self) -> (bool, u32)
        ensures values { self.old.values ≡ replicate (31 * result.1) result.0 ++ self.new.values }
        ensures words { self.new.words ≡ self.old.words }
        ensures left { self.old.fills ≡ (if result.1 == 0 then 0 else 1) }
        ensures fills { self.new.fills ≡ 0 }
    {
        let groups = self.left;
        self.left = 0;
        (self.bit, groups)
    }

    /// The same where a group is to come.
    #[inline(always)]
    pub(crate) fn take_group<L: Ledger>(&mut self, steps: &mut Steps<L>) -> Run
        requires { 31 ≤ length self.old.values }
        ensures takes { Takes self.old (Some result) self.new }
        ensures fills { self.new.fills ≡ 0 }
        ensures steps { steps.new + self.new.words ≡ steps.old + self.old.words }
    {
        if self.left > 0 {
            let groups = self.left;
            self.left = 0;
            return Run::Fill {
                bit: self.bit,
                groups,
            };
        }
        self.cursor.advance_regular(steps)
    }

    /// Puts the rest of a fill before what is left.
    #[inline(always)]
    pub(crate) fn put_back(&mut self, bit: bool, groups: u32)
        requires { self.old.fills ≡ 0 }
        ensures values { self.new.values ≡ replicate (31 * groups) bit ++ self.old.values }
        ensures words { self.new.words ≡ self.old.words }
        ensures fills { self.new.fills ≡ (if groups == 0 then 0 else 1) }
    {
        self.bit = bit;
        self.left = groups;
    }

    /// Passes so many groups.
    #[inline(always)]
    pub(crate) fn pass<L: Ledger>(&mut self, groups: u32, steps: &mut Steps<L>)
        requires { 31 * groups ≤ length self.old.values }
        ensures values { self.new.values ≡ drop (31 * groups) self.old.values }
        ensures looks { looks self.new ≤ looks self.old }
        ensures steps { steps.new + self.new.words ≡ steps.old + self.old.words }
    {
        let mut ahead = groups;
        while ahead > 0 {
            match self.take_group(steps) {
                Run::Fill { bit, groups: most } => {
                    if most > ahead {
                        self.put_back(bit, most - ahead);
                        return;
                    }
                    ahead -= most;
                }
                Run::Literal(_) => ahead -= 1,
                Run::Tail { .. } => unreachable!(),
            }
        }
    }
}
