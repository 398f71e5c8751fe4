//! The operations.
ghost use Rattle.std.specs.Prelude.{◌≡◌, ℕ, ◌^◌, ◌<◌, Bool};
ghost use Rattle.wah_words.specs.Places.{places};
ghost use Rattle.wah_logic.specs.Logic.{each_place, and, or, xor, and_not};

use std::marker::PhantomData;

/// An operation on truth values that works on whole words as well.
pub trait BitOp {
    ghost op: { Bool → Bool → Bool };

    /// The operation.
    fn on_bit(a: bool, b: bool) -> bool
        ensures { result ≡ op a b };

    /// The operation at each place of two words.
    fn on_word(a: u32, b: u32) -> u32
        // of any number of places, so that it serves groups and active words
        ensures places { (c : ℕ) → a < 2 ^ c → b < 2 ^ c → places c result ≡ each_place op (places c a) (places c b) }
        ensures fits { (c : ℕ) → a < 2 ^ c → b < 2 ^ c → result < 2 ^ c };
}

/// Both.
#[derive(Drop)]
pub struct And;

/// One or both.
#[derive(Drop)]
pub struct Or;

/// Exactly one.
#[derive(Drop)]
pub struct Xor;

/// The first without the second.
#[derive(Drop)]
pub struct AndNot;

impl BitOp for And {
    ghost op = { and };

    #[inline(always)]
    fn on_bit(a: bool, b: bool) -> bool {
        a & b
    }

    #[inline(always)]
    fn on_word(a: u32, b: u32) -> u32 {
        a & b
    }
}

impl BitOp for Or {
    ghost op = { or };

    #[inline(always)]
    fn on_bit(a: bool, b: bool) -> bool {
        a | b
    }

    #[inline(always)]
    fn on_word(a: u32, b: u32) -> u32 {
        a | b
    }
}

impl BitOp for Xor {
    ghost op = { xor };

    #[inline(always)]
    fn on_bit(a: bool, b: bool) -> bool {
        a ^ b
    }

    #[inline(always)]
    fn on_word(a: u32, b: u32) -> u32 {
        a ^ b
    }
}

impl BitOp for AndNot {
    ghost op = { and_not };

    #[inline(always)]
    fn on_bit(a: bool, b: bool) -> bool {
        a & !b
    }

    #[inline(always)]
    fn on_word(a: u32, b: u32) -> u32 {
        a & (a ^ b)
    }
}

/// The operation with its operands swapped.
pub(crate) struct Swapped<O> {
    of: PhantomData<O>,
}

impl<O: BitOp> BitOp for Swapped<O> {
    ghost op = { λ x y. O.op y x };

    #[inline(always)]
    fn on_bit(a: bool, b: bool) -> bool {
        O::on_bit(b, a)
    }

    #[inline(always)]
    fn on_word(a: u32, b: u32) -> u32 {
        O::on_word(b, a)
    }
}
