//! The place of each key.
ghost use Rattle.std.specs.Prelude.{◌≡◌};
ghost use Rattle.std.specs.HashMap.{IsEmpty, get};
ghost use Rattle.std.specs.Ordering.{int_eq};

use std::alloc::{AllocError, Global};
use std::collections::HashMap;

/// The place of a row that has no value.
pub(crate) const NO_PLACE: u32 = u32::MAX;

/// How many guesses are kept: 256 KiB, so that they stay near the processor.
const GUESSES: usize = 65_536;

/// From so many rows on, guesses are worth their room.
const MANY_ROWS: usize = 4_096;

/// The places of keys by a hash map, with a small table of guesses: for a part of a key's hash it has the place of the
/// key found last, which may be another key's, so that the group at this place decides.
#[derive(Drop)]
pub struct KeyPlaces {
    pub(crate) map: HashMap<i128, u32>,
    guesses: Vec<u32>,
}

/// The slot of a key's guess, by Fibonacci hashing.
#[inline(always)]
fn slot(key: i128) -> usize {
    let low = (key.unsigned_abs() & 0xFFFF_FFFF_FFFF_FFFF) as u64;
    let bits = if key < 0 { !low } else { low };
    (bits.wrapping_mul(0x9E37_79B9_7F4A_7C15) >> 48) as usize
}

impl KeyPlaces {
    /// No key yet, and no room for guesses.
    pub(crate) fn new(alloc: Global) -> KeyPlaces
        ensures { IsEmpty result.map }
    {
        KeyPlaces {
            map: HashMap::new(alloc),
            guesses: Vec::new(alloc),
        }
    }

    /// Makes room for guesses, where there are many rows.
    pub(crate) fn make_room(&mut self, rows: usize) -> Result<(), AllocError>
        ensures { self.new.map ≡ self.old.map }
    {
        if rows >= MANY_ROWS {
            self.guesses.resize(GUESSES, NO_PLACE)?;
        }
        Ok(())
    }

    /// A place that may be the key's.
    #[inline(always)]
    pub(crate) fn guess(&self, key: i128) -> u32 {
        self.guesses.get(slot(key)).copied().unwrap_or(NO_PLACE)
    }

    /// Keeps the place as the guess for its key.
    #[inline(always)]
    fn note(&mut self, key: i128, place: u32)
        ensures { self.new.map ≡ self.old.map }
    {
        if let Some(guess) = self.guesses.get_mut(slot(key)) {
            *guess = place;
        }
    }

    /// The place of a key, which is the guess for it from now on.
    pub(crate) fn place(&mut self, key: i128) -> Option<u32>
        ensures place { result ≡ get int_eq self.old.map key }
        ensures same { self.new.map ≡ self.old.map }
    {
        let found = self.map.get(&key).copied();
        if let Some(place) = found {
            self.note(key, place);
        }
        found
    }
}
