//! The runs of neighbouring bins that answer a condition alike.

ghost use Rattle.std.specs.Prelude.{◌≡◌, ◌+◌, ◌^◌, ◌<◌, ◌≤◌, ◌≤ℤ◌, All, IfOk, None, OnOk, length};
ghost use Rattle.index_file.specs.Order.{first_out_of_order};
ghost use Rattle.binning.specs.Against.{against};
ghost use Rattle.bin_answers.specs.BinRuns.{runs_of, with_bin};
ghost use Rattle.bin_answers.specs.Bins.{edges_say};

use binning::{Spans, Three, against};
use index_file::Edge;
use std::alloc::{AllocError, Global};

/// Neighbouring bins that give one answer, from `first` to the one before `past`.
#[derive(Clone, Copy, Debug, PartialEq, Eq)]
pub(crate) struct BinRun {
    pub(crate) answer: Three,
    pub(crate) first: u32,
    pub(crate) past: u32,
}

/// The runs of bins on which a condition by spans is Yes or Unknown, in rising order, each as long as it can be.
pub(crate) fn bin_runs(
    alloc: Global,
    bins: &[Edge],
    spans: &Spans,
) -> Result<Vec<BinRun>, AllocError>
    requires ordered { first_out_of_order bins.now ≡ None }
    requires few { length bins.now < 2 ^ 32 }
    ensures runs { IfOk result (λ runs. runs.items ≡ runs_of (edges_say bins.now spans.now)) }
    ensures within { IfOk result (λ runs. All (λ r. (r.first < r.past) × (r.past ≤ length bins.now)) runs.items) }
{
    let mut runs = Vec::new(alloc);
    for (place, edge) in bins.iter().enumerate() {
        let answer = answer_of(*edge, spans);
        extend(&mut runs, place as u32, answer)?;
    }
    Ok(runs)
}

/// What a bin says of a condition by spans.
fn answer_of(bin: Edge, spans: &Spans) -> Three
    requires { bin.least ≤ℤ bin.greatest }
    ensures { result ≡ against bin.least bin.greatest spans.now }
{
    against(bin.least, bin.greatest, spans)
}

/// Puts a bin behind the runs of those before it: the last of these goes on where it ends at this bin and has its answer. A
/// bin that is No is in no run.
fn extend(runs: &mut Vec<BinRun>, bin: u32, answer: Three) -> Result<(), AllocError>
    requires { bin + 1 < 2 ^ 32 }
    ensures { OnOk result (runs.new.items ≡ with_bin runs.old.items bin answer) }
{
    if answer == Three::No {
        return Ok(());
    }
    let count = runs.len();
    if count > 0 {
        let last = runs[count - 1];
        if last.past == bin && last.answer == answer {
            runs[count - 1].past = bin + 1;
            return Ok(());
        }
    }
    runs.push(BinRun {
        answer,
        first: bin,
        past: bin + 1,
    })?;
    Ok(())
}
