//! What the walks ask of the conditions of plans.
ghost use Rattle.std.specs.Prelude.{◌≡◌, ◌⊎◌, ℕ, ◌+◌, ◌*◌, ◌≤◌, Option, [], IfErr, IfOk, IsOk, length};
ghost use Rattle.std.specs.declared.alloc.AllocError.{AllocError};
ghost use Rattle.where_plan.specs.declared.plan.PlanAtom.{PlanAtom};
ghost use Rattle.fb_outside.specs.Causes.{HasCause};
ghost use Rattle.fb_outside.specs.Files.{Files, SameFiles};
ghost use Rattle.fb_outside.specs.Reads.{AddsOnly, Look};
ghost use Rattle.wah_iter.specs.Rows.{rows_of};
ghost use Rattle.wah_logic.specs.Logic.{and, each_place, groups_and_rest};
ghost use Rattle.wah_words.specs.Limits.{most_bits};
ghost use Rattle.three_valued.specs.Rows.{each_row};
ghost use Rattle.stages.specs.Answer.{AreUnknown, is_allowed_on, met_of};
ghost use Rattle.stages.specs.Faults.{IsRefused};
ghost use Rattle.stages.specs.Looks.{AddsLooks};
ghost use Rattle.stages.specs.Meaning.{IsMeaningOf, Meaning};

use fb_outside::Store;
use std::alloc::{AllocError, Global};
use std::sync::ledger::Ledger;
use steps::Steps;
use three_valued::Answers;
use wah_words::Wah;
use where_plan::PlanAtom;

/// A condition that is settled: what is known of it on each row, and its column, which is opened once.
#[derive(Drop)]
pub struct Settled<O> {
    pub answers: Answers,
    pub column: O,
}

/// The conditions that a plan can have, over a partition whose files are in a store.
pub trait Conditions {
    /// The column of a condition that was settled, as far as it is open.
    type Column: Drop;
    /// Why a condition isn't answered.
    type Fault: From<AllocError>;

    // Which conditions can be answered.
    ghost fits: { Self → PlanAtom → Type 0 };

    // The number of the partition's rows.
    ghost rows: { Self → ℕ };

    // What the files, where they are sound, mean.
    ghost means: { Self → Option Files → Meaning → Type 0 };

    // The column of the condition is open.
    ghost is_open: { Self → Option Files → PlanAtom → Self.Column → Type 0 };

    // What the fault says of files of the condition's column.
    ghost stops: { Self → Option Files → PlanAtom → Self.Fault → Type 0 };

    // The read is of a file of the condition's column.
    ghost is_look: { Self → PlanAtom → Look → Type 0 };

    // The store failed.
    ghost is_store: { Self.Fault → Type 0 };

    // Memory ran out.
    ghost is_memory: { Self.Fault → Type 0 };

    /// The number of rows.
    fn rows(&self) -> u32
        ensures rows { result ≡ rows self.now }
        ensures limit { rows self.now ≤ most_bits };

    /// The first stage of a condition: what is known of it on each row before any of its values is read.
    fn settle<S: Store, L: Ledger>(
        &self,
        alloc: Global,
        store: &mut S,
        atom: &PlanAtom,
        steps: &mut Steps<L>,
    ) -> Result<Settled<Self::Column>, Self::Fault>
        requires fits { fits self.now atom.now }
        ensures cause { HasCause (S.faults store.old) (S.faults store.new) (IsRefused result is_store) }
        ensures files { SameFiles (S.files store.old) (S.files store.new) }
        ensures stop { IfErr result (stops self.now (S.files store.old) atom.now) }
        ensures looks { AddsOnly (is_look self.now atom.now) (S.reads store.old) (S.reads store.new) }
        ensures opened { IfOk result (λ settled. is_open self.now (S.files store.old) atom.now settled.column) }
        ensures length { IfOk result (λ settled. length settled.answers ≡ rows self.now) }

        // Where the files are sound.
        ensures answers { IfOk result (λ settled. (m : Meaning) → means self.now (S.files store.old) m → settled.answers ≡ each_row m.rows (λ row. m.answer row atom.now)) }
        ensures whole { IfErr result (λ fault. (m : Meaning) → means self.now (S.files store.old) m → is_store fault ⊎ is_memory fault) }
        ensures reads { (m : Meaning) → means self.now (S.files store.old) m → AddsLooks (S.reads store.old) (S.reads store.new) (m.is_free atom.now) m.is_bitmap (m.fetched atom.now) (IsOk result) }
        ensures steps { (m : Meaning) → means self.now (S.files store.old) m → steps.new ≤ steps.old + 2 * groups_and_rest m.rows * m.work atom.now };

    /// The second stage of a condition: on which of its candidates it is true, by their values.
    fn check<S: Store, L: Ledger>(
        &self,
        alloc: Global,
        store: &mut S,
        atom: &PlanAtom,
        column: &Self::Column,
        candidates: &Wah,
        steps: &mut Steps<L>,
    ) -> Result<Wah, Self::Fault>
        requires fits { fits self.now atom.now }
        requires opened { is_open self.now (S.files store.old) atom.now column.now }
        requires length { length candidates.now ≡ rows self.now }
        requires unknown { (m : Meaning) → means self.now (S.files store.old) m → AreUnknown m atom.now candidates.now }
        ensures cause { HasCause (S.faults store.old) (S.faults store.new) (IsRefused result is_store) }
        ensures files { SameFiles (S.files store.old) (S.files store.new) }
        ensures stop { IfErr result (stops self.now (S.files store.old) atom.now) }
        ensures looks { AddsOnly (is_look self.now atom.now) (S.reads store.old) (S.reads store.new) }
        ensures length { IfOk result (λ found. length found ≡ rows self.now) }
        ensures steps { steps.new ≤ steps.old + 2 * groups_and_rest (rows self.now) }

        // Where the files are sound.
        ensures found { IfOk result (λ found. (m : Meaning) → means self.now (S.files store.old) m → found ≡ each_place and candidates.now (met_of m atom.now)) }
        ensures whole { IfErr result (λ fault. (m : Meaning) → means self.now (S.files store.old) m → is_store fault ⊎ is_memory fault) }
        ensures reads { (m : Meaning) → means self.now (S.files store.old) m → AddsLooks (S.reads store.old) (S.reads store.new) (is_allowed_on m atom.now (rows_of candidates.now)) m.is_bitmap [] (IsOk result) };

    // What is known of a condition is so.
    ghost meaning: { (c : Self) (files : Option Files) (m : Meaning) → means c files m → IsMeaningOf (rows c) (fits c) m };

    // A failed allocation is answered as want of memory, which is no failure of the store.
    ghost memory: { (full : AllocError) (fault : Self.Fault) → Self.Fault.from_gives full fault → is_memory fault };

    ghost no_failure: { (fault : Self.Fault) → is_memory fault → is_store fault → ⊥ };
}
