//! A union that is gathered in plain groups. Where the vectors have many words, or-ing each word into its place is
//! quicker than walks in lockstep, which look at a word once for each binary digit of the number of vectors.
ghost use Rattle.std.specs.Prelude.{◌≡◌, ◌+◌, ◌*◌, ◌/◌, ◌%◌, ◌^◌, ◌<◌, ◌≤◌, true, false, [], length, replicate, IfOk};
ghost use Rattle.wah_words.specs.Limits.{most_bits};
ghost use Rattle.wah_words.specs.Places.{places};
ghost use Rattle.wah_words.specs.Spelling.{words_of};
ghost use Rattle.wah_words.specs.Left.{run_values};
ghost use Rattle.wah_logic.specs.Logic.{each_place, or};
ghost use Rattle.wah_logic.specs.Rest.{IsPart};
ghost use Rattle.wah_logic.specs.Groups.{or_at, StandsAt, group_after};

use crate::ops::{BitOp, Or};
use std::alloc::{AllocError, Global};
use std::marker::Model;
use std::sync::ledger::Ledger;
use steps::Steps;
use wah_words::{Builder, Run, Wah};

/// A list of truth values, uncompressed: 31 a number, and the `rest` last ones in `tail`. Contracts see the list.
#[derive(Drop)]
pub(crate) struct Groups {
    whole: Vec<u32>,
    rest: u32,
    tail: u32,
}

impl Model for Groups {
    ghost use Rattle.std.specs.Prelude.{List, Bool};
    ghost use Rattle.wah_logic.specs.Groups.{group_values, AreGroups};

    ghost Value = { List Bool };

    ghost view = { λ s. group_values s.whole.items s.rest s.tail };

    ghost invariant = { λ s. AreGroups s.whole.items s.rest s.tail };
}

/// So many groups that are all false.
fn zero_groups(alloc: Global, count: usize) -> Result<Vec<u32>, AllocError>
    ensures { IfOk result (λ v. v.items ≡ replicate count 0) }
{
    let groups = vec![in alloc; 0u32; count]?;
    Ok(groups)
}

impl Groups {
    /// So many values that are false.
    pub(crate) fn zeros(alloc: Global, len: u32) -> Result<Groups, AllocError>
        requires { len ≤ most_bits }
        ensures { IfOk result (λ v. v ≡ replicate len false) }
    {
        let whole = zero_groups(alloc, (len / 31) as usize)?;
        Ok(Groups {
            whole,
            rest: len % 31,
            tail: 0,
        })
    }

    /// True also where the vector is.
    pub(crate) fn or_vector<L: Ledger>(&mut self, vector: &Wah, steps: &mut Steps<L>)
        requires same { length vector.now ≡ length self.old }
        ensures values { self.new ≡ each_place or self.old vector.now }
        ensures steps { steps.new ≡ steps.old + words_of vector.now }
    {
        let mut cursor = vector.cursor();
        let mut group = 0;
        while let Some(run) = cursor.advance(steps) {
            group = self.or_run(group, run);
        }
    }

    /// True also where the run is, from this group on. The group after it.
    #[inline(always)]
    fn or_run(&mut self, group: u32, run: Run) -> u32
        requires part { IsPart run [] }
        requires stands { StandsAt group run (length self.old) }
        requires limit { length self.old ≤ most_bits }
        ensures values { self.new ≡ or_at (31 * group) (run_values run) self.old }
        ensures after { result ≡ group_after group run }
    {
        match run {
            Run::Fill { bit: false, groups } => group + groups,
            Run::Fill { bit: true, groups } => {
                self.or_ones(group, groups);
                group + groups
            }
            Run::Literal(word) => {
                self.or_group(group, word);
                group + 1
            }
            Run::Tail { bits, .. } => {
                self.or_tail(bits);
                group
            }
        }
    }

    /// The same of so many groups that are all true.
    fn or_ones(&mut self, group: u32, groups: u32)
        requires within { 31 * (group + groups) ≤ length self.old }
        requires limit { length self.old ≤ most_bits }
        ensures { self.new ≡ or_at (31 * group) (replicate (31 * groups) true) self.old }
    {
        for at in group..group + groups {
            self.or_group(at, 0x7FFF_FFFF);
        }
    }

    /// The same of one group.
    #[inline(always)]
    fn or_group(&mut self, group: u32, word: u32)
        requires within { 31 * (group + 1) ≤ length self.old }
        requires fits { word < 2 ^ 31 }
        ensures { self.new ≡ or_at (31 * group) (places 31 word) self.old }
    {
        let place = group as usize;
        self.whole[place] = Or::on_word(self.whole[place], word);
    }

    /// The same of the values after the last whole group.
    #[inline(always)]
    fn or_tail(&mut self, bits: u32)
        requires { bits < 2 ^ (length self.old % 31) }
        ensures { self.new ≡ or_at (31 * (length self.old / 31)) (places (length self.old % 31) bits) self.old }
    {
        self.tail = Or::on_word(self.tail, bits);
    }

    /// The vector of the values.
    pub(crate) fn vector(&self, alloc: Global) -> Result<Wah, AllocError>
        ensures { IfOk result (λ v. v ≡ self.now) }
    {
        let mut out = Builder::with_room(alloc, self.whole.len() as u32)?;
        for group in &self.whole {
            out.push_literal(*group);
        }
        if self.rest > 0 {
            out.push_tail(self.tail, self.rest);
        }
        Ok(out.finish())
    }
}
