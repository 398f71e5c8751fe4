//! A vector that grows by words at any place, also within a group.
ghost use Rattle.std.specs.Prelude.{◌≡◌, ◌+◌, ◌-◌, ◌*◌, ◌/◌, ◌%◌, ◌^◌, ◌<◌, ◌≤◌, [], ◌++◌, length, min, replicate, IfOk};
ghost use Rattle.wah_words.specs.Limits.{most_bits};
ghost use Rattle.wah_words.specs.Places.{places};

use std::alloc::{AllocError, Global};
use std::marker::Model;
use wah_words::{Builder, Wah};

/// A vector that grows at any place by equal values, and by the places of numbers. It is whole groups in a builder, and the
/// values after them as a number.
#[derive(Drop)]
pub struct Appender {
    out: Builder,
    part: u32,
    count: u32,
}

impl Model for Appender {
    ghost use Rattle.std.specs.Prelude.{◌≡◌, ◌+◌, ◌%◌, ◌^◌, ◌<◌, ◌≤◌, ◌++◌, length};
    ghost use Rattle.wah_words.specs.Limits.{most_bits};
    ghost use Rattle.wah_words.specs.Places.{places};
    ghost use Rattle.wah_iter.specs.Appended.{Appended};

    ghost Value = { Appended };

    ghost view = { λ s. record { values = s.out.values ++ places s.count s.part; spare = s.out.spare } };

    ghost invariant = { λ s. (length s.out.values % 31 ≡ 0) × (s.count < 31) × (s.part < 2 ^ s.count) × (length s.out.values + s.count ≤ most_bits) };
}

/// So many equal values as a number.
#[inline(always)]
fn same_bits(bit: bool, count: u32) -> u32
    requires { count ≤ 31 }
    ensures values { places count result ≡ replicate count bit }
    ensures fits { result < 2 ^ count }
{
    if bit { (1 << count) - 1 } else { 0 }
}

/// The places of `bits`, `count` of them, below those of `part`.
#[inline(always)]
fn joined_bits(part: u32, bits: u32, count: u32) -> u64
    requires few { count ≤ 31 }
    requires low { part < 2 ^ 31 }
    requires fits { bits < 2 ^ count }
    ensures { result ≡ part * 2 ^ count + bits }
{
    (u64::from(part) << count) + u64::from(bits)
}

impl Appender {
    /// No values yet, with room for so many regular words.
    pub fn with_room(alloc: Global, words: u32) -> Result<Appender, AllocError>
        ensures empty { IfOk result (λ a. a.values ≡ []) }
        ensures room { IfOk result (λ a. words ≤ a.spare) }
    {
        Ok(Appender {
            out: Builder::with_room(alloc, words)?,
            part: 0,
            count: 0,
        })
    }

    /// Appends the low `count` places of the number.
    #[inline(always)]
    pub fn append_bits(&mut self, bits: u32, count: u32)
        requires few { count ≤ 31 }
        requires fits { bits < 2 ^ count }
        requires limit { length self.old.values + count ≤ most_bits }
        requires room { (length self.old.values + count) / 31 ≤ self.old.spare + length self.old.values / 31 }
        ensures values { self.new.values ≡ self.old.values ++ places count bits }
        ensures spare { self.old.spare + length self.old.values / 31 ≤ self.new.spare + (length self.old.values + count) / 31 }
    {
        let all = joined_bits(self.part, bits, count);
        let total = self.count + count;
        if total < 31 {
            self.part = all as u32;
            self.count = total;
            return;
        }
        let rest = total - 31;
        self.out.push_literal((all >> rest) as u32);
        self.part = (all % (1 << rest)) as u32;
        self.count = rest;
    }

    /// Appends equal values where the last group is whole.
    #[inline(always)]
    fn append_groups(&mut self, bit: bool, count: u32)
        requires aligned { length self.old.values % 31 ≡ 0 }
        requires limit { length self.old.values + count ≤ most_bits }
        requires room { min 1 (count / 31) ≤ self.old.spare }
        ensures values { self.new.values ≡ self.old.values ++ replicate count bit }
        ensures spare { self.old.spare ≤ self.new.spare + min 1 (count / 31) }
    {
        let groups = count / 31;
        if groups > 0 {
            self.out.push_fill(bit, groups);
        }
        self.part = same_bits(bit, count % 31);
        self.count = count % 31;
    }

    /// Appends equal values.
    #[inline(always)]
    pub fn append_fill(&mut self, bit: bool, count: u32)
        requires limit { length self.old.values + count ≤ most_bits }
        requires room { min 2 ((length self.old.values + count) / 31 - length self.old.values / 31) ≤ self.old.spare }
        ensures values { self.new.values ≡ self.old.values ++ replicate count bit }
        ensures spare { self.old.spare ≤ self.new.spare + min 2 ((length self.old.values + count) / 31 - length self.old.values / 31) }
    {
        let free = (31 - self.count) % 31;
        let front = if count < free { count } else { free };
        self.append_bits(same_bits(bit, front), front);
        if front < count {
            self.append_groups(bit, count - front);
        }
    }

    /// The vector of the values.
    #[inline(always)]
    pub fn finish(self) -> Wah
        ensures { result ≡ self.values }
    {
        let Appender {
            mut out,
            part,
            count,
        } = self;
        if count > 0 {
            out.push_tail(part, count);
        }
        out.finish()
    }
}
