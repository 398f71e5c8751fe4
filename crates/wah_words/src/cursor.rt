ghost use Rattle.std.specs.Prelude.{◌≡◌, ℕ, ◌+◌, ◌<◌, ◌≤◌, ◌↔◌, length, Some, IsSome, is_some, if◌then◌else◌};
ghost use Rattle.wah_words.specs.Spelling.{words_of};
ghost use Rattle.wah_words.specs.Left.{Comes, Counts};

use crate::run::Run;
use crate::words::{ones_in, run_of};
use std::marker::Model;
use std::sync::ledger::Ledger;
use steps::Steps;

/// A walk over the words of a vector. Contracts see the values that are still to come and the number of words that
/// are still to look at.
#[derive(Drop)]
pub struct Cursor<'a> {
    pub(crate) regular: &'a [u32],
    pub(crate) active: u32,
    pub(crate) count: u32,
}

impl<'a> Model for Cursor<'a> {
    ghost use Rattle.std.specs.Prelude.{◌+◌, ◌++◌, ◌==◌, length, if◌then◌else◌};
    ghost use Rattle.wah_words.specs.Places.{places};
    ghost use Rattle.wah_words.specs.Spelling.{told};
    ghost use Rattle.wah_words.specs.Bytes.{decoded_all, IsLeft};
    ghost use Rattle.wah_words.specs.Left.{Left};

    ghost Value = { Left };

    ghost view = { λ s. record { values = told (decoded_all s.regular.now) ++ places s.count s.active; words = length s.regular.now + (if s.count == 0 then 0 else 1) } };

    ghost invariant = { λ s. IsLeft s.regular.now s.active s.count };
}

impl<'a> Cursor<'a> {
    /// The next word as a run: the regular words in order, and the active word last, as a `Tail`.
    #[inline(always)]
    pub fn advance<L: Ledger>(&mut self, steps: &mut Steps<L>) -> Option<Run>
        // The run is the front of what was left, one word less is to look at, and None comes exactly at the end.
        ensures comes { Comes self.old result self.new }
        ensures more { IsSome result ↔ (0 < self.old.words) }
        ensures words { self.old.words ≡ words_of self.old.values }

        // Each Some is one step, None is none.
        ensures steps { steps.new ≡ steps.old + (if is_some result then 1 else 0) }
    {
        match self.regular {
            [word, rest @ ..] => {
                steps.tick();
                let run = run_of(*word);
                self.regular = rest;
                Some(run)
            }
            [] => {
                if self.count == 0 {
                    return None;
                }
                steps.tick();
                let run = Run::Tail {
                    bits: self.active,
                    count: self.count,
                };
                self.active = 0;
                self.count = 0;
                Some(run)
            }
        }
    }

    /// How many values of the next word are true.
    #[inline(always)]
    pub fn advance_count<L: Ledger>(&mut self, steps: &mut Steps<L>) -> Option<u64>
        ensures counts { Counts self.old result self.new }
        ensures steps { steps.new ≡ steps.old + (if is_some result then 1 else 0) }
    {
        match self.regular {
            [word, rest @ ..] => {
                steps.tick();
                let count = ones_in(*word);
                self.regular = rest;
                Some(count)
            }
            [] => {
                if self.count == 0 {
                    return None;
                }
                steps.tick();
                let count = u64::from(self.active.count_ones());
                self.active = 0;
                self.count = 0;
                Some(count)
            }
        }
    }

    /// The next word where a group is to come, which is a regular one.
    #[inline(always)]
    pub fn advance_regular<L: Ledger>(&mut self, steps: &mut Steps<L>) -> Run
        requires { 31 ≤ length self.old.values }
        ensures comes { Comes self.old (Some result) self.new }
        ensures steps { steps.new ≡ steps.old + 1 }
    {
        steps.tick();
        let (word, after) = self.regular.split_at(1);
        self.regular = after;
        run_of(word[0])
    }
}
