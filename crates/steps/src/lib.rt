//! A counter of steps that costs nothing at run time.
//!
//! A step is one look at one word of a vector. A call that looks at words takes `steps: &mut Steps<L>` and ticks
//! once a word, and its contract bounds `steps.new` by `steps.old`.
//!
//! **No library makes a counter of its own**: one is made from a `Blank`, and a blank takes the runtime that only `main`
//! and tests are given. `run` is given a counter and no runtime, so nothing below it can have another one. The program
//! makes one in a function over `L: Ledger` that is given a blank:
//!
//! ```text
//! fn counted<L: Ledger>(blank: Blank, ..)
//!     requires ledger { blank.name ≡ L.name }
//!     requires parts { blank.parts ≡ L.parts }
//!     requires some { 0 < blank.parts }
//! {
//!     let mut steps = Steps::<L>::new(blank);
//! ```
//!
//! and calls it as `counted::<Brand>(rt.blank(), ..)`. Its proof picks the ledger, in the caller's `Invariants.antt`:
//!
//! ```text
//! abbrev pub ghosts-counted : goal.ghosts-counted
//! ghosts-counted a = record { name = a.blank.name; parts = a.blank.parts }
//! ```
//!
//! (`ghosts-counted g a = ..` where the caller has bounds, as a test that asserts).
#![tactic(auto)]

ghost use Rattle.std.specs.Prelude.{◌≡◌, ◌+◌, ◌<◌};

use std::marker::Model;
use std::sync::ledger::{Blank as NewLedger, Book, Ledger, Share};

/// A counter that isn't begun yet. Contracts see the ledger that it is for. It takes no bytes.
#[derive(Drop)]
pub struct Blank {
    ledger: NewLedger,
}

impl Model for Blank {
    ghost use Rattle.steps.specs.Opening.{Opening};

    ghost Value = { Opening };

    ghost view = { λ b. record { name = b.ledger.name; parts = b.ledger.parts } };
}

/// Leave to begin a counter, which the runtime alone can give: whoever has none has no blank to give.
pub trait Count {
    ghost use Rattle.std.specs.Prelude.{◌<◌};

    /// A blank.
    fn blank(&self) -> Blank
        ensures { 0 < result.parts };
}

impl Count for HostRuntime {
    #[inline(always)]
    fn blank(&self) -> Blank {
        Blank {
            ledger: NewLedger::new(1),
        }
    }
}

/// How many steps were taken. It takes no bytes, and only `tick` changes it.
#[derive(Drop)]
pub struct Steps<L: Ledger> {
    book: Book<L>,
    share: Share<L>,
}

impl<L: Ledger> Model for Steps<L> {
    ghost use Rattle.std.specs.Prelude.{ℕ, ◌<◌};

    ghost Value = { ℕ };

    ghost view = { λ s. s.book.total };

    ghost invariant = { λ s. 0 < s.share.parts };
}

impl<L: Ledger> Steps<L> {
    /// A counter at 0, of the ledger that the blank is for.
    #[inline(always)]
    pub fn new(blank: Blank) -> Self
        requires ledger { blank.name ≡ L.name }
        requires parts { blank.parts ≡ L.parts }
        requires some { 0 < blank.parts }
        ensures { result ≡ 0 }
    {
        let (book, share) = blank.ledger.open::<L>();
        Steps { book, share }
    }

    /// Counts one step.
    #[inline(always)]
    pub fn tick(&mut self)
        ensures { self.new ≡ self.old + 1 }
    {
        self.book.add(&mut self.share, 1);
    }
}

#[cfg(test)]
mod tests;
