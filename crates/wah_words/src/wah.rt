ghost use Rattle.std.specs.Prelude.{◌≡◌, ℕ, ◌+◌, ◌*◌, ◌<◌, ◌≤◌, ◌++◌, List, Bool, length, take, Ok, IfOk, OnOk, OnErr};
ghost use Rattle.wah_words.specs.Limits.{most_bits};
ghost use Rattle.wah_words.specs.Spelling.{words_of};
ghost use Rattle.wah_words.specs.Bytes.{spelling, vector_at, Reads};

use crate::cursor::Cursor;
use crate::fault::WordsFault;
use crate::reading::read_vector;
use crate::writing::{
    active_size, append_active, append_number, append_words, copy_words, look_at_active,
};
use std::alloc::{AllocError, Global};
use std::marker::Model;
use std::sync::ledger::Ledger;
use steps::Steps;

/// The most values that a vector has.
pub const MAX_LEN: u32 = 4_194_304;

/// A list of truth values, compressed. Contracts see the list.
#[derive(Drop)]
pub struct Wah {
    pub(crate) len: u32,
    pub(crate) regular: Vec<u32>,
    pub(crate) active: u32,
}

impl Model for Wah {
    ghost use Rattle.std.specs.Prelude.{List, Bool};
    ghost use Rattle.wah_words.specs.Bytes.{IsStored, stored};

    ghost Value = { List Bool };

    ghost view = { λ s. stored s.len s.regular.items s.active };

    ghost invariant = { λ s. IsStored s.len s.regular.items s.active };
}

impl Wah {
    /// How many values the list has.
    #[inline(always)]
    pub fn len(&self) -> u32
        ensures length { result ≡ length self.now }
        ensures limit { length self.now ≤ most_bits }
    {
        self.len
    }

    /// The number of words: the regular ones, and an active word where the length is no multiple of 31.
    #[inline(always)]
    pub fn words(&self) -> u32
        ensures words { result ≡ words_of self.now }
        ensures limit { length self.now ≤ most_bits }
    {
        let regular = self.regular.len() as u32;
        if self.len % 31 == 0 {
            regular
        } else {
            regular + 1
        }
    }

    /// A walk over all words.
    #[inline(always)]
    pub fn cursor(&self) -> Cursor<'_>
        ensures values { result.values ≡ self.now }
        ensures words { result.words ≡ words_of self.now }
        ensures limit { length self.now ≤ most_bits }
    {
        Cursor {
            regular: &self.regular,
            active: self.active,
            count: self.len % 31,
        }
    }

    /// The same list again.
    pub fn copy<L: Ledger>(&self, alloc: Global, steps: &mut Steps<L>) -> Result<Wah, AllocError>
        ensures copied { IfOk result (λ v. v ≡ self.now) }
        ensures steps { OnOk result (steps.new ≡ steps.old + words_of self.now) }
        ensures no_steps { OnErr result (steps.new ≡ steps.old) }
    {
        let regular = copy_words(alloc, &self.regular, steps)?;
        look_at_active(self.len, steps);
        Ok(Wah {
            len: self.len,
            regular,
            active: self.active,
        })
    }

    /// The length and the number of regular words, these words, and the active word where there is one: four bytes
    /// each, the lowest first.
    pub fn to_bytes<L: Ledger>(
        &self,
        alloc: Global,
        steps: &mut Steps<L>,
    ) -> Result<Vec<u8>, AllocError>
        ensures bytes { IfOk result (λ b. b.items ≡ spelling self.now) }
        ensures steps { OnOk result (steps.new ≡ steps.old + words_of self.now) }
        ensures no_steps { OnErr result (steps.new ≡ steps.old) }
    {
        let count = self.regular.len();
        let mut bytes = Vec::with_capacity(alloc, 8 + 4 * count + active_size(self.len))?;
        append_number(&mut bytes, self.len);
        append_number(&mut bytes, count as u32);
        append_words(&mut bytes, &self.regular, steps);
        append_active(&mut bytes, self.len, self.active, steps);
        Ok(bytes)
    }

    /// The vector at the front of the bytes, and how many bytes it takes. Bytes may follow it.
    pub fn from_bytes(alloc: Global, bytes: &[u8]) -> Result<(Wah, usize), WordsFault>
        // What is read is spelled so.
        ensures found { IfOk result (λ x. take x.1 bytes.now ≡ spelling x.0) }
        ensures used { IfOk result (λ x. (x.1 ≡ length (spelling x.0)) × (x.1 ≤ length bytes.now)) }

        // What is spelled so is read, unless memory runs out.
        ensures only { (v : List Bool) (rest : List ℕ) → length v ≤ most_bits → bytes.now ≡ spelling v ++ rest → Reads result (Ok (v, length (spelling v))) }

        // Which fault it is: the first one.
        ensures exact { Reads result (vector_at bytes.now) }
    {
        read_vector(alloc, bytes)
    }
}
