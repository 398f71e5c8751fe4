//! The second stage: each condition is made exact on the rows on which the plan is Unknown.
ghost use Rattle.std.specs.Prelude.{◌≡◌, ◌⊎◌, ℕ, ◌+◌, ◌*◌, ◌<◌, ◌^◌, ◌≤◌, All, IfErr, IfOk, IsOk, [], length, map, sum_by};
ghost use Rattle.std.specs.List.{AllByRecursion, list_any};
ghost use Rattle.fb_outside.specs.Causes.{HasCause};
ghost use Rattle.fb_outside.specs.Files.{SameFiles};
ghost use Rattle.fb_outside.specs.Reads.{AddsOnly};
ghost use Rattle.wah_iter.specs.Rows.{rows_of};
ghost use Rattle.wah_words.specs.Limits.{most_bits};
ghost use Rattle.wah_logic.specs.Logic.{and, each_place, groups_and_rest, ones};
ghost use Rattle.three_valued.specs.Rows.{columns, each_row};
ghost use Rattle.stages.specs.Answer.{AreUnknown, is_allowed_on, met_of};
ghost use Rattle.stages.specs.Faults.{IsOneOf, IsRefused};
ghost use Rattle.stages.specs.Looks.{AddsLooks};
ghost use Rattle.stages.specs.Meaning.{Meaning};
ghost use Rattle.stages.specs.Open.{AreOpen};
ghost use Rattle.stages.specs.Second.{candidates_in, candidates_of, exact_of, exact_on};

use crate::conditions::Conditions;
use crate::first::FirstStage;
use crate::gathering::Atoms;
use crate::lists::keep;
use fb_outside::Store;
use std::alloc::Global;
use std::sync::ledger::Ledger;
use steps::Steps;
use three_valued::{Answers, candidates, exact};
use wah_iter::count_ones;
use wah_words::Wah;
use where_plan::PlanAtom;

/// A condition that is known on the rows on which the plan is Unknown, and the number of rows that were checked for it.
#[derive(Drop)]
struct Decided {
    answers: Answers,
    checked: u64,
}

/// The same of the conditions of a plan, with the number of all checks.
#[derive(Drop)]
pub(crate) struct SecondStage {
    pub(crate) answers: Vec<Answers>,
    pub(crate) checked: u64,
}

/// On which of its candidates, which are so many, a condition is true. Without candidates nothing is read.
fn find<S: Store, C: Conditions, L: Ledger>(
    alloc: Global,
    store: &mut S,
    conditions: &C,
    atom: &PlanAtom,
    column: &C::Column,
    candidates: Wah,
    count: u64,
    steps: &mut Steps<L>,
) -> Result<Wah, C::Fault>
    requires fits { C.fits conditions.now atom.now }
    requires opened { C.is_open conditions.now (S.files store.old) atom.now column.now }
    requires length { length candidates ≡ C.rows conditions.now }
    requires number { count ≡ ones candidates }
    requires unknown { (m : Meaning) → C.means conditions.now (S.files store.old) m → AreUnknown m atom.now candidates }
    ensures cause { HasCause (S.faults store.old) (S.faults store.new) (IsRefused result C.is_store) }
    ensures files { SameFiles (S.files store.old) (S.files store.new) }
    ensures stop { IfErr result (C.stops conditions.now (S.files store.old) atom.now) }
    ensures looks { AddsOnly (C.is_look conditions.now atom.now) (S.reads store.old) (S.reads store.new) }
    ensures length { IfOk result (λ found. length found ≡ C.rows conditions.now) }
    ensures steps { steps.new ≤ steps.old + 2 * groups_and_rest (C.rows conditions.now) }

    // Where the files are sound.
    ensures found { IfOk result (λ found. (m : Meaning) → C.means conditions.now (S.files store.old) m → found ≡ each_place and candidates (met_of m atom.now)) }
    ensures whole { IfErr result (λ fault. (m : Meaning) → C.means conditions.now (S.files store.old) m → C.is_store fault ⊎ C.is_memory fault) }
    ensures reads { (m : Meaning) → C.means conditions.now (S.files store.old) m → AddsLooks (S.reads store.old) (S.reads store.new) (is_allowed_on m atom.now (rows_of candidates)) m.is_bitmap [] (IsOk result) }
{
    if count == 0 {
        return Ok(candidates);
    }
    conditions.check(alloc, store, atom, column, &candidates, steps)
}

/// Makes a condition exact on the rows on which the plan is Unknown.
fn decide<S: Store, C: Conditions, L: Ledger>(
    alloc: Global,
    store: &mut S,
    conditions: &C,
    atom: &PlanAtom,
    column: &C::Column,
    answers: &Answers,
    unknown: &Wah,
    steps: &mut Steps<L>,
) -> Result<Decided, C::Fault>
    requires fits { C.fits conditions.now atom.now }
    requires opened { C.is_open conditions.now (S.files store.old) atom.now column.now }
    requires length { length answers.now ≡ C.rows conditions.now }
    requires long { length unknown.now ≡ C.rows conditions.now }
    requires settled { (m : Meaning) → C.means conditions.now (S.files store.old) m → answers.now ≡ each_row m.rows (λ row. m.answer row atom.now) }
    ensures cause { HasCause (S.faults store.old) (S.faults store.new) (IsRefused result C.is_store) }
    ensures files { SameFiles (S.files store.old) (S.files store.new) }
    ensures stop { IfErr result (λ fault. C.is_memory fault ⊎ C.stops conditions.now (S.files store.old) atom.now fault) }
    ensures looks { AddsOnly (C.is_look conditions.now atom.now) (S.reads store.old) (S.reads store.new) }
    ensures length { IfOk result (λ made. length made.answers ≡ C.rows conditions.now) }
    ensures checked { IfOk result (λ made. made.checked ≡ ones (candidates_in answers.now unknown.now)) }
    ensures steps { steps.new ≤ steps.old + 2 * groups_and_rest (C.rows conditions.now) * 8 }

    // Where the files are sound.
    ensures answers { IfOk result (λ made. (m : Meaning) → C.means conditions.now (S.files store.old) m → made.answers ≡ exact_on answers.now unknown.now (met_of m atom.now)) }
    ensures whole { IfErr result (λ fault. (m : Meaning) → C.means conditions.now (S.files store.old) m → C.is_store fault ⊎ C.is_memory fault) }
    ensures reads { (m : Meaning) → C.means conditions.now (S.files store.old) m → AddsLooks (S.reads store.old) (S.reads store.new) (is_allowed_on m atom.now (rows_of (candidates_in answers.now unknown.now))) m.is_bitmap [] (IsOk result) }
{
    let rows = candidates(alloc, answers, unknown, steps)?;
    let checked = count_ones(&rows, steps);
    let found = find(alloc, store, conditions, atom, column, rows, checked, steps)?;
    let answers = exact(alloc, answers, unknown, &found, steps)?;
    Ok(Decided { answers, checked })
}

/// Makes all conditions exact, in order.
pub(crate) fn decide_all<S: Store, C: Conditions, L: Ledger>(
    alloc: Global,
    store: &mut S,
    conditions: &C,
    atoms: &Atoms,
    stage: &FirstStage<C::Column>,
    unknown: &Wah,
    steps: &mut Steps<L>,
) -> Result<SecondStage, C::Fault>
    requires fits { AllByRecursion (C.fits conditions.now) atoms.now }
    requires few { length atoms.now < 2 ^ 32 }
    requires limit { C.rows conditions.now ≤ most_bits }
    requires opened { AreOpen (C.is_open conditions.now (S.files store.old)) atoms.now stage.now.opened.items }
    requires number_opened { length stage.now.opened.items ≡ length atoms.now }
    requires number { length stage.now.answers.items ≡ length atoms.now }
    requires length { All (λ a. length a ≡ C.rows conditions.now) stage.now.answers.items }
    requires long { length unknown.now ≡ C.rows conditions.now }
    requires settled { (m : Meaning) → C.means conditions.now (S.files store.old) m → stage.now.answers.items ≡ columns m.rows m.answer atoms.now }
    ensures cause { HasCause (S.faults store.old) (S.faults store.new) (IsRefused result C.is_store) }
    ensures files { SameFiles (S.files store.old) (S.files store.new) }
    ensures stop { IfErr result (λ fault. C.is_memory fault ⊎ IsOneOf atoms.now (λ atom. C.stops conditions.now (S.files store.old) atom fault)) }
    ensures looks { AddsOnly (λ look. IsOneOf atoms.now (λ atom. C.is_look conditions.now atom look)) (S.reads store.old) (S.reads store.new) }
    ensures number { IfOk result (λ made. length made.answers.items ≡ length atoms.now) }
    ensures few { IfOk result (λ made. made.checked < 2 ^ 54) }
    ensures length { IfOk result (λ made. All (λ a. length a ≡ C.rows conditions.now) made.answers.items) }
    ensures steps { steps.new ≤ steps.old + 2 * groups_and_rest (C.rows conditions.now) * (8 * length atoms.now) }

    // Where the files are sound.
    ensures answers { IfOk result (λ made. (m : Meaning) → C.means conditions.now (S.files store.old) m → made.answers.items ≡ map (exact_of m unknown.now) atoms.now) }
    ensures checked { IfOk result (λ made. (m : Meaning) → C.means conditions.now (S.files store.old) m → made.checked ≡ sum_by (λ atom. ones (candidates_of m unknown.now atom)) atoms.now) }
    ensures whole { IfErr result (λ fault. (m : Meaning) → C.means conditions.now (S.files store.old) m → C.is_store fault ⊎ C.is_memory fault) }
    ensures reads { (m : Meaning) → C.means conditions.now (S.files store.old) m → AddsLooks (S.reads store.old) (S.reads store.new) (λ look. list_any (λ atom. is_allowed_on m atom (rows_of (candidates_of m unknown.now atom)) look) atoms.now) m.is_bitmap [] (IsOk result) }
{
    let mut answers = Vec::new(alloc);
    let mut checked = 0;
    for place in 0..atoms.len() {
        let made = decide(
            alloc,
            store,
            conditions,
            atoms.at(place),
            &stage.opened[place],
            &stage.answers[place],
            unknown,
            steps,
        )?;
        keep(&mut answers, made.answers)?;
        checked += made.checked;
    }
    Ok(SecondStage { answers, checked })
}
