//! Rows that are found one block after another.

ghost use Rattle.std.specs.Prelude.{◌≡◌, ◌+◌, ◌-◌, ◌^◌, ◌<◌, ◌≤◌, [], ◌++◌, false, IfOk, length, replicate};
ghost use Rattle.wah_words.specs.Limits.{most_bits};
ghost use Rattle.wah_words.specs.Places.{places};

use std::alloc::{AllocError, Global};
use std::marker::Model;
use wah_iter::Appender;
use wah_words::Wah;

/// The rows of a column that are found, from the top down to some row. Contracts see whether each row so far is found,
/// and the number of all rows. It has the room from the start, so that nothing here takes memory.
#[derive(Drop)]
pub(crate) struct Found {
    out: Appender,
    /// How many rows are seen.
    seen: u32,
    rows: u32,
}

impl Model for Found {
    ghost use Rattle.std.specs.Prelude.{◌≡◌, ◌+◌, ◌/◌, ◌≤◌, length};
    ghost use Rattle.wah_words.specs.Limits.{most_bits};
    ghost use Rattle.candidates.specs.Found.{FoundRows};

    ghost Value = { FoundRows };

    ghost view = { λ s. record { bits = s.out.values; rows = s.rows } };

    ghost invariant = { λ s. (s.seen ≡ length s.out.values) × (s.seen ≤ s.rows) × (s.rows ≤ most_bits)
        × (s.rows / 31 ≤ s.out.spare + length s.out.values / 31) };
}

impl Found {
    /// None of so many rows is seen yet.
    pub(crate) fn make(alloc: Global, rows: u32) -> Result<Found, AllocError>
        requires { rows ≤ most_bits }
        ensures bits { IfOk result (λ f. f.bits ≡ []) }
        ensures rows { IfOk result (λ f. f.rows ≡ rows) }
    {
        Ok(Found {
            out: Appender::with_room(alloc, rows / 31)?,
            seen: 0,
            rows,
        })
    }

    /// The rows up to this one aren't found.
    pub(crate) fn skip_to(&mut self, row: u32)
        requires order { length self.old.bits ≤ row }
        requires within { row ≤ self.old.rows }
        ensures bits { self.new.bits ≡ self.old.bits ++ replicate (row - length self.old.bits) false }
        ensures rows { self.new.rows ≡ self.old.rows }
    {
        self.out.append_fill(false, row - self.seen);
        self.seen = row;
    }

    /// Of the next `count` rows those are found whose places in the number are 1, the highest being the first row's.
    #[inline(always)]
    pub(crate) fn push(&mut self, marks: u32, count: u32)
        requires few { count ≤ 31 }
        requires fits { marks < 2 ^ count }
        requires within { length self.old.bits + count ≤ self.old.rows }
        ensures bits { self.new.bits ≡ self.old.bits ++ places count marks }
        ensures rows { self.new.rows ≡ self.old.rows }
    {
        self.out.append_bits(marks, count);
        self.seen += count;
    }

    /// The vector of all rows; those that weren't seen aren't found.
    pub(crate) fn finish(self) -> Wah
        ensures { result ≡ self.bits ++ replicate (self.rows - length self.bits) false }
    {
        let mut found = self;
        let rows = found.rows;
        found.skip_to(rows);
        found.out.finish()
    }
}
