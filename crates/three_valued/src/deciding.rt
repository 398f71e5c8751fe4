//! The second stage: the conditions are made exact on the rows on which the plan is Unknown, and the plan is taken again.
ghost use Rattle.std.specs.Prelude.{◌≡◌, ℕ, ◌+◌, ◌*◌, ◌≤◌, All, Bool, IfOk, length, map};
ghost use Rattle.binning.specs.declared.against_bins.Three.{Three};
ghost use Rattle.where_plan.specs.declared.plan.PlanAtom.{PlanAtom};
ghost use Rattle.wah_words.specs.Limits.{most_bits};
ghost use Rattle.wah_logic.specs.Logic.{and, each_place, groups_and_rest, or};
ghost use Rattle.three_valued.specs.Tables.{decided, is_unknown, is_yes};
ghost use Rattle.three_valued.specs.Plans.{atoms_of, is_true, parts_of};
ghost use Rattle.three_valued.specs.Rows.{columns, each_row};
ghost use Rattle.three_valued.specs.Deciding.{Decides};

use crate::evaluation::combined;
use crate::row_answers::Answers;
use std::alloc::{AllocError, Global};
use std::sync::ledger::Ledger;
use steps::Steps;
use wah_logic::{And, Or};
use wah_words::Wah;
use where_plan::Plan;

/// The rows whose values decide a condition: of the rows on which the plan is Unknown those on which the condition is,
/// too.
pub fn candidates<L: Ledger>(
    alloc: Global,
    atom: &Answers,
    unknown: &Wah,
    steps: &mut Steps<L>,
) -> Result<Wah, AllocError>
    requires { length atom.now ≡ length unknown.now }
    ensures rows { IfOk result (λ v. v ≡ each_place and (map is_unknown atom.now) unknown.now) }
    ensures steps { steps.new ≤ steps.old + 4 * groups_and_rest (length atom.now) }
{
    let open = atom.unknown_rows(alloc, steps)?;
    wah_logic::combined::<And, L>(alloc, &open, unknown, steps)
}

/// The answers of a condition, known on the rows on which the plan is Unknown: there it is Yes as before, and on the
/// candidates that were found to meet it. On other rows the answers say nothing.
pub fn exact<L: Ledger>(
    alloc: Global,
    atom: &Answers,
    unknown: &Wah,
    found: &Wah,
    steps: &mut Steps<L>,
) -> Result<Answers, AllocError>
    requires long { length atom.now ≡ length unknown.now }
    requires found { length found.now ≡ length unknown.now }
    ensures answers { IfOk result (λ a. a ≡ map decided (each_place or (each_place and (map is_yes atom.now) unknown.now) found.now)) }
    ensures steps { steps.new ≤ steps.old + 4 * groups_and_rest (length atom.now) }
{
    let definite = wah_logic::combined::<And, L>(alloc, atom.definite(), unknown, steps)?;
    let rows = wah_logic::combined::<Or, L>(alloc, &definite, found, steps)?;
    Ok(Answers::known(rows))
}

/// The rows on which a plan is true: those on which its answers are Yes, and those on which they are Unknown and the
/// answers from its exact conditions are Yes.
pub fn true_rows<L: Ledger>(
    alloc: Global,
    plan: &Plan,
    whole: &Answers,
    unknown: &Wah,
    exact: &[Answers],
    steps: &mut Steps<L>,
) -> Result<Wah, AllocError>
    requires unknown { unknown.now ≡ map is_unknown whole.now }
    requires number { length exact.now ≡ length (atoms_of plan.now) }
    requires long { All (λ a. length a ≡ length whole.now) exact.now }

    // Whatever the conditions answer and whichever truth they have.
    ensures rows { IfOk result (λ v. (answer : ℕ → PlanAtom → Three) (truth : ℕ → PlanAtom → Bool) → exact.now ≡ columns (length whole.now) answer (atoms_of plan.now) → Decides plan.now whole.now answer truth → v ≡ each_row (length whole.now) (λ row. is_true (truth row) plan.now)) }
    ensures length { IfOk result (λ v. length v ≡ length whole.now) }
    ensures steps { steps.new ≤ steps.old + 2 * groups_and_rest (length whole.now) * (6 * parts_of plan.now + 2) }
{
    let mut next = 0;
    let again = combined(alloc, plan, whole.len(), exact, &mut next, steps)?;
    let decided = wah_logic::combined::<And, L>(alloc, again.get().definite(), unknown, steps)?;
    wah_logic::combined::<Or, L>(alloc, whole.definite(), &decided, steps)
}
