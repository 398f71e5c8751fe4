//! Masks as truth values and rows.
ghost use Rattle.std.specs.Prelude.{◌≡◌, ◌+◌, ◌≤◌, [], ◌∷◌, ◌++◌, if◌then◌else◌, length, vec_len, OnOk, IfOk};
ghost use Rattle.wah_words.specs.Limits.{most_bits};
ghost use Rattle.wah_words.specs.Places.{places};
ghost use Rattle.wah_words.specs.Spelling.{words_of};
ghost use Rattle.wah_words.specs.Left.{run_values};
ghost use Rattle.wah_iter.specs.Runs.{Fits};
ghost use Rattle.binning.specs.Bins.{cells, present};

use std::alloc::{AllocError, Global};
use std::sync::ledger::Ledger;
use steps::Steps;
use wah_words::{Run, Wah};

/// Appends the low `count` places of the number, the highest first.
fn append_places(present: &mut Vec<bool>, bits: u32, count: u32) -> Result<(), AllocError>
    requires { count ≤ 31 }
    ensures { OnOk result (present.new.items ≡ present.old.items ++ places count bits) }
{
    let mut left = count;
    while left > 0 {
        left -= 1;
        present.push((bits >> left) % 2 == 1)?;
    }
    Ok(())
}

/// Appends the values of a run.
fn append_run(present: &mut Vec<bool>, run: Run) -> Result<(), AllocError>
    requires { Fits run }
    ensures { OnOk result (present.new.items ≡ present.old.items ++ run_values run) }
{
    match run {
        Run::Fill { bit, groups } => {
            let len = present.len() + 31 * groups as usize;
            present.resize(len, bit)?;
            Ok(())
        }
        Run::Literal(word) => append_places(present, word, 31),
        Run::Tail { bits, count } => append_places(present, bits, count),
    }
}

/// Appends the values of a vector.
pub(crate) fn append_mask<L: Ledger>(
    present: &mut Vec<bool>,
    mask: &Wah,
    steps: &mut Steps<L>,
) -> Result<(), AllocError>
    ensures values { OnOk result (present.new.items ≡ present.old.items ++ mask.now) }
    ensures steps { steps.new ≤ steps.old + words_of mask.now }
{
    let mut cursor = mask.cursor();
    while let Some(run) = cursor.advance(steps) {
        append_run(present, run)?;
    }
    Ok(())
}

/// Adds a value that is there.
fn push_present(found: &mut Vec<i128>, is_there: bool, v: i128) -> Result<(), AllocError>
    ensures items { OnOk result (found.new.items ≡ found.old.items ++ (if is_there then v ∷ [] else [])) }
    ensures len { OnOk result (vec_len found.new ≤ vec_len found.old + 1) }
{
    if is_there {
        found.push(v)?;
    }
    Ok(())
}

/// The values of the rows at which the mask is true.
pub(crate) fn present_values<L: Ledger>(
    alloc: Global,
    values: &[i128],
    mask: &Wah,
    steps: &mut Steps<L>,
) -> Result<Vec<i128>, AllocError>
    requires { length values.now ≡ length mask.now }
    ensures values { IfOk result (λ v. v.items ≡ present (cells mask.now values.now)) }
    ensures few { IfOk result (λ v. vec_len v ≤ most_bits) }
    ensures steps { steps.new ≤ steps.old + words_of mask.now }
{
    let _rows = mask.len();
    let mut is_there = Vec::with_capacity(alloc, values.len())?;
    append_mask(&mut is_there, mask, steps)?;
    let is_there = is_there.as_slice();
    let mut found = Vec::new(alloc);
    for (row, v) in values.iter().enumerate() {
        push_present(&mut found, is_there[row], *v)?;
    }
    Ok(found)
}
