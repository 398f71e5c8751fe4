ghost use Rattle.std.specs.Prelude.{◌≡◌, ℕ, ◌+◌, ◌*◌, ◌%◌, ◌^◌, ◌<◌, ◌≤◌, true, false, [], ◌∷◌, ◌++◌, length, replicate, IfOk};
ghost use Rattle.wah_words.specs.Limits.{most_bits};
ghost use Rattle.wah_words.specs.Places.{places};
ghost use Rattle.wah_words.specs.Spelling.{words_of};

use crate::wah::Wah;
use crate::words::{append_fill, append_group};
use std::alloc::{AllocError, Global};
use std::marker::Model;

/// A vector that grows at its end. Contracts see the values that were pushed, the regular words for which there is
/// room, and whether a tail was pushed. A push takes no memory and cannot fail.
#[derive(Drop)]
pub struct Builder {
    len: u32,
    regular: Vec<u32>,
    active: u32,
    tail: bool,
}

impl Model for Builder {
    ghost use Rattle.std.specs.Prelude.{◌≡◌, ◌≢◌, ◌-◌, ◌%◌, ◌^◌, ◌<◌, ◌≤◌, true, vec_len};
    ghost use Rattle.std.specs.Vec.{vec_capacity};
    ghost use Rattle.wah_words.specs.Built.{Built};
    ghost use Rattle.wah_words.specs.Bytes.{IsStored, stored};

    ghost Value = { Built };

    ghost view = { λ s. record { values = stored s.len s.regular.items s.active; spare = vec_capacity s.regular - vec_len s.regular; has_tail = s.tail } };

    ghost invariant = { λ s. IsStored s.len s.regular.items s.active × (vec_capacity s.regular < 2 ^ 32) × (s.tail ≡ true → s.len % 31 ≢ 0) };
}

impl Builder {
    /// An empty vector with room for so many regular words.
    pub fn with_room(alloc: Global, words: u32) -> Result<Builder, AllocError>
        ensures empty { IfOk result (λ b. b.values ≡ []) }
        ensures room { IfOk result (λ b. words ≤ b.spare) }
        ensures open { IfOk result (λ b. b.has_tail ≡ false) }
    {
        Ok(Builder {
            len: 0,
            regular: Vec::with_capacity(alloc, words as usize)?,
            active: 0,
            tail: false,
        })
    }

    /// How many values were pushed.
    #[inline(always)]
    pub fn len(&self) -> u32
        ensures length { result ≡ length self.now.values }
        ensures limit { length self.now.values ≤ most_bits }

        // a tail has 1 to 30 values
        ensures open { length self.now.values % 31 ≡ 0 → self.now.has_tail ≡ false }
    {
        self.len
    }

    /// For how many more regular words there is room.
    #[inline(always)]
    pub fn spare(&self) -> u32
        ensures { result ≡ self.now.spare }
    {
        (self.regular.capacity() - self.regular.len()) as u32
    }

    /// Appends `groups` times 31 values `bit`.
    #[inline(always)]
    pub fn push_fill(&mut self, bit: bool, groups: u32)
        requires aligned { length self.old.values % 31 ≡ 0 }
        requires room { 1 ≤ self.old.spare }
        requires some { 1 ≤ groups }
        requires limit { length self.old.values + 31 * groups ≤ most_bits }
        ensures values { self.new.values ≡ self.old.values ++ replicate (31 * groups) bit }
        ensures spare { (self.old.spare ≤ self.new.spare + 1) × (self.new.spare ≤ self.old.spare) }
        ensures open { self.new.has_tail ≡ false }
        ensures words { words_of self.new.values ≤ words_of self.old.values + 1 }
    {
        append_fill(&mut self.regular, bit, groups);
        self.len += 31 * groups;
    }

    /// Appends 31 values, the first in bit 30.
    #[inline(always)]
    pub fn push_literal(&mut self, word: u32)
        requires aligned { length self.old.values % 31 ≡ 0 }
        requires room { 1 ≤ self.old.spare }
        requires group { word < 2 ^ 31 }
        requires limit { length self.old.values + 31 ≤ most_bits }
        ensures values { self.new.values ≡ self.old.values ++ places 31 word }
        ensures spare { (self.old.spare ≤ self.new.spare + 1) × (self.new.spare ≤ self.old.spare) }
        ensures open { self.new.has_tail ≡ false }
        ensures words { words_of self.new.values ≤ words_of self.old.values + 1 }
    {
        append_group(&mut self.regular, word);
        self.len += 31;
    }

    /// Appends the last `count` values, the first in bit `count - 1`.
    #[inline(always)]
    pub fn push_tail(&mut self, bits: u32, count: u32)
        requires aligned { length self.old.values % 31 ≡ 0 }
        requires some { 1 ≤ count }
        requires few { count ≤ 30 }
        requires fits { bits < 2 ^ count }
        requires limit { length self.old.values + count ≤ most_bits }
        ensures values { self.new.values ≡ self.old.values ++ places count bits }
        ensures spare { self.new.spare ≡ self.old.spare }
        ensures closed { self.new.has_tail ≡ true }
        ensures words { words_of self.new.values ≡ words_of self.old.values + 1 }
    {
        self.active = bits;
        self.tail = true;
        self.len += count;
    }

    /// Appends one value.
    #[inline(always)]
    pub fn push_bit(&mut self, bit: bool)
        requires open { self.old.has_tail ≡ false }
        requires room { 1 ≤ self.old.spare }
        requires limit { length self.old.values + 1 ≤ most_bits }
        ensures values { self.new.values ≡ self.old.values ++ bit ∷ [] }
        ensures spare { (self.old.spare ≤ self.new.spare + 1) × (self.new.spare ≤ self.old.spare) }
        ensures open { self.new.has_tail ≡ false }
        ensures words { words_of self.new.values ≤ words_of self.old.values + 1 }
    {
        let group = 2 * self.active + bit as u32;
        let whole = self.len % 31 == 30;
        self.len += 1;
        if whole {
            append_group(&mut self.regular, group);
            self.active = 0;
            return;
        }
        self.active = group;
    }

    /// The vector of the values that were pushed.
    #[inline(always)]
    pub fn finish(self) -> Wah
        ensures { result ≡ self.values }
    {
        let Builder {
            len,
            regular,
            active,
            tail: _,
        } = self;
        Wah {
            len,
            regular,
            active,
        }
    }
}
