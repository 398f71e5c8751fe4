//! Copies and bytes of a vector's words, with a step for each word.
ghost use Rattle.std.specs.Prelude.{◌≡◌, ◌+◌, ◌*◌, ◌%◌, ◌≤◌, [], ◌++◌, ◌==◌, if◌then◌else◌, length, vec_len, IfOk, OnOk, OnErr};
ghost use Rattle.std.specs.Vec.{vec_capacity};
ghost use Rattle.wah_words.specs.Bytes.{number_bytes, active_size, decoded_all, words_bytes};

use std::alloc::{AllocError, Global};
use std::sync::ledger::Ledger;
use steps::Steps;

/// How many bytes the active word of a vector of this length takes.
#[inline(always)]
pub(crate) fn active_size(len: u32) -> usize
    ensures { result ≡ active_size len }
{
    if len % 31 == 0 { 0 } else { 4 }
}

/// A step where a vector of this length has an active word.
#[inline(always)]
pub(crate) fn look_at_active<L: Ledger>(len: u32, steps: &mut Steps<L>)
    ensures { steps.new ≡ steps.old + (if len % 31 == 0 then 0 else 1) }
{
    if len % 31 != 0 {
        steps.tick();
    }
}

/// The words again.
pub(crate) fn copy_words<L: Ledger>(
    alloc: Global,
    words: &[u32],
    steps: &mut Steps<L>,
) -> Result<Vec<u32>, AllocError>
    ensures items { IfOk result (λ v. v.items ≡ words.now) }
    ensures steps { OnOk result (steps.new ≡ steps.old + length words.now) }
    ensures no_steps { OnErr result (steps.new ≡ steps.old) }
{
    let mut copied = Vec::with_capacity(alloc, words.len())?;
    for word in words {
        steps.tick();
        copied.push_reserved(*word);
    }
    Ok(copied)
}

/// Appends the four bytes of the number, the lowest first.
#[inline(always)]
#[tactic(auto, unfolding(crate::specs::Bytes::number_bytes))]
pub(crate) fn append_number(bytes: &mut Vec<u8>, number: u32)
    requires { vec_len bytes.old + 4 ≤ vec_capacity bytes.old }
    ensures items { bytes.new.items ≡ bytes.old.items ++ number_bytes number }
    ensures len { vec_len bytes.new ≡ vec_len bytes.old + 4 }
    ensures capacity { vec_capacity bytes.new ≡ vec_capacity bytes.old }
{
    let [first, second, third, fourth] = number.to_le_bytes();
    bytes.push_reserved(first);
    bytes.push_reserved(second);
    bytes.push_reserved(third);
    bytes.push_reserved(fourth);
}

/// Appends the bytes of each word.
pub(crate) fn append_words<L: Ledger>(bytes: &mut Vec<u8>, words: &[u32], steps: &mut Steps<L>)
    requires { vec_len bytes.old + 4 * length words.now ≤ vec_capacity bytes.old }
    ensures items { bytes.new.items ≡ bytes.old.items ++ words_bytes (decoded_all words.now) }
    ensures len { vec_len bytes.new ≡ vec_len bytes.old + 4 * length words.now }
    ensures capacity { vec_capacity bytes.new ≡ vec_capacity bytes.old }
    ensures steps { steps.new ≡ steps.old + length words.now }
{
    for word in words {
        steps.tick();
        append_number(bytes, *word);
    }
}

/// Appends the active word where a vector of this length has one.
#[inline(always)]
pub(crate) fn append_active<L: Ledger>(
    bytes: &mut Vec<u8>,
    len: u32,
    active: u32,
    steps: &mut Steps<L>,
)
    requires { vec_len bytes.old + active_size len ≤ vec_capacity bytes.old }
    ensures items { bytes.new.items ≡ bytes.old.items ++ (if len % 31 == 0 then [] else number_bytes active) }
    ensures steps { steps.new ≡ steps.old + (if len % 31 == 0 then 0 else 1) }
{
    if len % 31 != 0 {
        steps.tick();
        append_number(bytes, active);
    }
}
