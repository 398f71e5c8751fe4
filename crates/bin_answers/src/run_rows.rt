//! The rows of runs of bins, and the answers that they make.

ghost use Rattle.std.specs.Prelude.{◌≡◌, ◌+◌, ◌*◌, ◌≤◌, ◌++◌, [], ◌∷◌, All, IfOk, OnOk, if◌then◌else◌, length};
ghost use Rattle.binning.specs.declared.against_bins.Three.{Three};
ghost use Rattle.wah_words.specs.Limits.{most_bits};
ghost use Rattle.wah_logic.specs.Logic.{groups_and_rest, union};
ghost use Rattle.three_valued.specs.Rows.{answers_of};
ghost use Rattle.bin_answers.specs.BinRuns.{is_same};

use binning::Three;
use std::alloc::{AllocError, Global};
use std::sync::ledger::Ledger;
use steps::Steps;
use three_valued::Answers;
use wah_logic::or_many;
use wah_words::Wah;

/// The rows of bins on which a condition is Yes, and of those on which it is Unknown, run by run.
#[derive(Drop)]
pub(crate) struct RunRows {
    pub(crate) definite: Vec<Wah>,
    pub(crate) unknown: Vec<Wah>,
}

impl RunRows {
    /// Puts the rows of a run behind those of its answer.
    pub(crate) fn add(&mut self, answer: Three, rows: Wah) -> Result<(), AllocError>
        ensures definite { OnOk result (self.new.definite.items ≡ self.old.definite.items ++ (if is_same Three.Yes answer then rows ∷ [] else [])) }
        ensures unknown { OnOk result (self.new.unknown.items ≡ self.old.unknown.items ++ (if is_same Three.Unknown answer then rows ∷ [] else [])) }
    {
        match answer {
            Three::Yes => self.definite.push(rows)?,
            Three::Unknown => self.unknown.push(rows)?,
            Three::No => {}
        }
        Ok(())
    }

    /// Yes on the rows of the runs that are Yes, Unknown on those of the runs that are Unknown, else No.
    pub(crate) fn answers<L: Ledger>(
        &self,
        alloc: Global,
        rows: u32,
        steps: &mut Steps<L>,
    ) -> Result<Answers, AllocError>
        requires limit { rows ≤ most_bits }
        requires definite { All (λ v. length v ≡ rows) self.now.definite.items }
        requires unknown { All (λ v. length v ≡ rows) self.now.unknown.items }
        ensures answers { IfOk result (λ a. a ≡ answers_of (union rows self.now.definite.items) (union rows self.now.unknown.items)) }
        ensures steps { steps.new ≤ steps.old + 2 * groups_and_rest rows * (length self.now.definite.items + 2 * length self.now.unknown.items) }
    {
        let definite = or_many(alloc, &self.definite, rows, steps)?;
        if self.unknown.is_empty() {
            return Ok(Answers::known(definite));
        }
        let unknown = or_many(alloc, &self.unknown, rows, steps)?;
        Answers::with_unknown(alloc, definite, &unknown, steps)
    }
}
