//! Texts that are read line by line.

ghost use Rattle.std.specs.Prelude.{◌≡◌, ◌≤◌, [], List, ℕ, length, IfOk, IfErr};
ghost use Rattle.std.specs.List.{AllByRecursion};
ghost use Rattle.part_meta.specs.Lines.{Begins, Ends, GoesOn, IsLine, joined, IsFirstWrong};
ghost use Rattle.answers.specs.Answers.{Tells};
ghost use Rattle.part_meta.specs.Faults.{Gives, Reads, wrong_line};

use crate::fault::MetaTextFault;
use crate::lines::split_line;
use std::alloc::{AllocError, Global};

/// What the first lines of a text say.
pub(crate) trait Front: Sized {
    /// What a whole text says.
    type Whole;

    ghost is_of: { Self.Whole → Type 0 };

    ghost lines: { Self.Whole → List (List ℕ) };

    ghost is_front: { Self → Type 0 };

    ghost front_lines: { Self → List (List ℕ) };

    /// Before the first line.
    fn nothing() -> Self
        ensures valid { is_front result }
        ensures none { front_lines result ≡ [] };

    /// What the lines say with one more; `None` where no text goes on so.
    fn with_line(self, alloc: Global, text: &[u8]) -> Result<Option<Self>, AllocError>
        requires { is_front self }
        ensures { IfOk result (GoesOn is_of lines is_front front_lines self text.now) };

    /// What the text says, where its last line was read.
    fn whole(self) -> Option<Self::Whole>
        requires { is_front self }
        ensures { Ends is_of lines front_lines self result };

    /// Laws, without code: what was read always begins some text, and is short; a text is made of lines, and of one
    /// value alone.
    fn laws()
        ensures begins { (f : Self) → is_front f → Begins is_of lines (front_lines f) }
        ensures short { (f : Self) → is_front f → length (front_lines f) ≤ 1028 }
        ensures each_line { (x : Self.Whole) → is_of x → AllByRecursion IsLine (lines x) }
        ensures one { (x y : Self.Whole) → is_of x → is_of y → lines x ≡ lines y → x ≡ y };
}

/// What the bytes say, or the first line that no text has there.
pub(crate) fn read<F: Front + Drop>(alloc: Global, bytes: &[u8]) -> Result<F::Whole, MetaTextFault>
    ensures found { IfOk result (λ x. bytes.now ≡ joined (F.lines x)) }
    ensures valid { IfOk result F.is_of }
    ensures exact { (x : F.Whole) → F.is_of x → bytes.now ≡ joined (F.lines x) → Gives result x }
    ensures fault { IfErr result (Tells wrong_line (IsFirstWrong F.is_of F.lines bytes.now)) }
{
    F::laws();
    read_lines::<F>(alloc, bytes)
}

fn read_lines<F: Front + Drop>(alloc: Global, bytes: &[u8]) -> Result<F::Whole, MetaTextFault>
    ensures { Reads F.is_of F.lines bytes.now result }
{
    F::laws();
    let mut front = F::nothing();
    let mut rest = bytes;
    let mut number = 1;
    while let Some((text, after)) = split_line(rest) {
        match front.with_line(alloc, text) {
            Ok(Some(longer)) => front = longer,
            Ok(None) => return Err(MetaTextFault::At { line: number }),
            Err(_) => return Err(MetaTextFault::OutOfMemory),
        }
        rest = after;
        number += 1;
    }
    if !rest.is_empty() {
        return Err(MetaTextFault::At { line: number });
    }
    match front.whole() {
        Some(whole) => Ok(whole),
        None => Err(MetaTextFault::At { line: number }),
    }
}
