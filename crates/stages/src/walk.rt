//! The answer of a plan over a partition, and the bounds of its number of rows.
ghost use Rattle.std.specs.Prelude.{◌≡◌, ◌⊎◌, ℕ, ◌+◌, ◌*◌, ◌<◌, ◌^◌, ◌≤◌, All, IfErr, IfOk, IsOk, [], length, map};
ghost use Rattle.std.specs.List.{AllByRecursion};
ghost use Rattle.binning.specs.declared.against_bins.Three.{Three};
ghost use Rattle.where_plan.specs.declared.plan.PlanAtom.{PlanAtom};
ghost use Rattle.fb_outside.specs.Causes.{HasCause};
ghost use Rattle.fb_outside.specs.Files.{SameFiles};
ghost use Rattle.fb_outside.specs.Reads.{AddsOnly};
ghost use Rattle.wah_logic.specs.Logic.{groups_and_rest, ones};
ghost use Rattle.wah_words.specs.Limits.{most_bits};
ghost use Rattle.three_valued.specs.Candidates.{checked, definite_rows, possible_rows};
ghost use Rattle.three_valued.specs.Held.{held_answers};
ghost use Rattle.three_valued.specs.Plans.{atoms_of, parts_of, three};
ghost use Rattle.three_valued.specs.Rows.{columns, each_row};
ghost use Rattle.three_valued.specs.Tables.{is_unknown};
ghost use Rattle.stages.specs.Answer.{bitmaps_in, is_allowed_in, is_free_in, true_of, work_in};
ghost use Rattle.stages.specs.Faults.{IsOneOf, IsRefused};
ghost use Rattle.stages.specs.Looks.{AddsLooks};
ghost use Rattle.stages.specs.Meaning.{Meaning};
ghost use Rattle.stages.specs.Open.{AreOpen};

use crate::conditions::Conditions;
use crate::first::{FirstStage, settle_all};
use crate::gathering::Atoms;
use crate::second::decide_all;
use fb_outside::Store;
use std::alloc::{AllocError, Global};
use std::sync::ledger::Ledger;
use steps::Steps;
use three_valued::{Answers, Held, combined, true_rows};
use wah_iter::count_ones;
use wah_words::Wah;
use where_plan::Plan;

/// Between how many rows a plan is true on: on `definite` it surely is, and on all but `possible` it surely isn't.
#[derive(Clone, Copy, Debug, PartialEq, Eq)]
pub struct Bounds {
    pub definite: u64,
    pub possible: u64,
}

/// The rows on which a plan is true, how many they are, and how many pairs of a condition and a candidate of it were checked
/// by values.
#[derive(Drop)]
pub struct Hits {
    pub rows: Wah,
    pub count: u64,
    pub checked: u64,
}

/// The answers of a plan of those of its conditions.
fn answers_of<'a, L: Ledger>(
    alloc: Global,
    plan: &Plan,
    rows: u32,
    answers: &'a [Answers],
    steps: &mut Steps<L>,
) -> Result<Held<'a>, AllocError>
    requires limit { rows ≤ most_bits }
    requires number { length answers.now ≡ length (atoms_of plan.now) }
    requires long { All (λ a. length a ≡ rows) answers.now }
    ensures length { IfOk result (λ held. length (held_answers held) ≡ rows) }
    ensures answers { IfOk result (λ held. (answer : ℕ → PlanAtom → Three) → answers.now ≡ columns rows answer (atoms_of plan.now) → held_answers held ≡ each_row rows (λ row. three (answer row) plan.now)) }
    ensures steps { steps.new ≤ steps.old + 2 * groups_and_rest rows * (6 * parts_of plan.now) }
{
    let mut next = 0;
    combined(alloc, plan, rows, answers, &mut next, steps)
}

/// The bounds from the answers of the conditions.
fn bounds_of<L: Ledger>(
    alloc: Global,
    plan: &Plan,
    rows: u32,
    answers: &[Answers],
    steps: &mut Steps<L>,
) -> Result<Bounds, AllocError>
    requires limit { rows ≤ most_bits }
    requires number { length answers.now ≡ length (atoms_of plan.now) }
    requires long { All (λ a. length a ≡ rows) answers.now }
    ensures definite { IfOk result (λ bounds. (answer : ℕ → PlanAtom → Three) → answers.now ≡ columns rows answer (atoms_of plan.now) → bounds.definite ≡ definite_rows rows answer plan.now) }
    ensures possible { IfOk result (λ bounds. (answer : ℕ → PlanAtom → Three) → answers.now ≡ columns rows answer (atoms_of plan.now) → bounds.possible ≡ possible_rows rows answer plan.now) }
    ensures few { IfOk result (λ bounds. (bounds.definite ≤ rows) × (bounds.possible ≤ rows)) }
    ensures steps { steps.new ≤ steps.old + 2 * groups_and_rest rows * (6 * parts_of plan.now + 1) }
{
    let held = answers_of(alloc, plan, rows, answers, steps)?;
    let whole = held.get();
    let definite = count_ones(whole.definite(), steps);
    let possible = count_ones(whole.possible(), steps);
    Ok(Bounds { definite, possible })
}

/// The bounds of the number of rows on which a plan is true, from its conditions' first stage alone: no value is read.
pub fn estimate<S: Store, C: Conditions, L: Ledger>(
    alloc: Global,
    store: &mut S,
    conditions: &C,
    plan: &Plan,
    steps: &mut Steps<L>,
) -> Result<Bounds, C::Fault>
    requires { AllByRecursion (C.fits conditions.now) (atoms_of plan.now) }
    ensures cause { HasCause (S.faults store.old) (S.faults store.new) (IsRefused result C.is_store) }
    ensures files { SameFiles (S.files store.old) (S.files store.new) }
    ensures stop { IfErr result (λ fault. C.is_memory fault ⊎ IsOneOf (atoms_of plan.now) (λ atom. C.stops conditions.now (S.files store.old) atom fault)) }
    ensures looks { AddsOnly (λ look. IsOneOf (atoms_of plan.now) (λ atom. C.is_look conditions.now atom look)) (S.reads store.old) (S.reads store.new) }
    ensures few { IfOk result (λ bounds. (bounds.definite ≤ C.rows conditions.now) × (bounds.possible ≤ C.rows conditions.now)) }

    // Where the files are sound.
    ensures definite { IfOk result (λ bounds. (m : Meaning) → C.means conditions.now (S.files store.old) m → bounds.definite ≡ definite_rows m.rows m.answer plan.now) }
    ensures possible { IfOk result (λ bounds. (m : Meaning) → C.means conditions.now (S.files store.old) m → bounds.possible ≡ possible_rows m.rows m.answer plan.now) }
    ensures whole { IfErr result (λ fault. (m : Meaning) → C.means conditions.now (S.files store.old) m → C.is_store fault ⊎ C.is_memory fault) }
    ensures reads { (m : Meaning) → C.means conditions.now (S.files store.old) m → AddsLooks (S.reads store.old) (S.reads store.new) (is_free_in m plan.now) m.is_bitmap (bitmaps_in m plan.now) (IsOk result) }
    ensures steps { (m : Meaning) → C.means conditions.now (S.files store.old) m → steps.new ≤ steps.old + 2 * groups_and_rest m.rows * work_in m plan.now }
{
    let atoms = Atoms::of(alloc, plan)?;
    let stage = settle_all(alloc, store, conditions, &atoms, steps)?;
    let bounds = bounds_of(alloc, plan, conditions.rows(), &stage.answers, steps)?;
    Ok(bounds)
}

/// The rows on which a plan is true, where its answers leave some Unknown.
fn second_stage<S: Store, C: Conditions, L: Ledger>(
    alloc: Global,
    store: &mut S,
    conditions: &C,
    plan: &Plan,
    atoms: &Atoms,
    stage: &FirstStage<C::Column>,
    whole: &Answers,
    unknown: &Wah,
    steps: &mut Steps<L>,
) -> Result<Hits, C::Fault>
    requires atoms { atoms.now ≡ atoms_of plan.now }
    requires fits { AllByRecursion (C.fits conditions.now) (atoms_of plan.now) }
    requires few { length atoms.now < 2 ^ 32 }
    requires limit { C.rows conditions.now ≤ most_bits }
    requires opened { AreOpen (C.is_open conditions.now (S.files store.old)) atoms.now stage.now.opened.items }
    requires number_opened { length stage.now.opened.items ≡ length atoms.now }
    requires number { length stage.now.answers.items ≡ length atoms.now }
    requires length { All (λ a. length a ≡ C.rows conditions.now) stage.now.answers.items }
    requires whole { length whole.now ≡ C.rows conditions.now }
    requires unknown { unknown.now ≡ map is_unknown whole.now }
    requires settled { (m : Meaning) → C.means conditions.now (S.files store.old) m → stage.now.answers.items ≡ columns m.rows m.answer atoms.now }
    requires answered { (m : Meaning) → C.means conditions.now (S.files store.old) m → whole.now ≡ each_row m.rows (λ row. three (m.answer row) plan.now) }
    ensures cause { HasCause (S.faults store.old) (S.faults store.new) (IsRefused result C.is_store) }
    ensures files { SameFiles (S.files store.old) (S.files store.new) }
    ensures stop { IfErr result (λ fault. C.is_memory fault ⊎ IsOneOf atoms.now (λ atom. C.stops conditions.now (S.files store.old) atom fault)) }
    ensures looks { AddsOnly (λ look. IsOneOf atoms.now (λ atom. C.is_look conditions.now atom look)) (S.reads store.old) (S.reads store.new) }
    ensures length { IfOk result (λ hits. length hits.rows ≡ C.rows conditions.now) }
    ensures count { IfOk result (λ hits. hits.count ≡ ones hits.rows) }
    ensures few { IfOk result (λ hits. hits.checked < 2 ^ 54) }
    ensures steps { steps.new ≤ steps.old + 2 * groups_and_rest (C.rows conditions.now) * (6 * parts_of plan.now + 8 * length atoms.now + 3) }

    // Where the files are sound.
    ensures rows { IfOk result (λ hits. (m : Meaning) → C.means conditions.now (S.files store.old) m → hits.rows ≡ true_of m plan.now) }
    ensures checked { IfOk result (λ hits. (m : Meaning) → C.means conditions.now (S.files store.old) m → hits.checked ≡ checked m.rows m.answer plan.now) }
    ensures whole { IfErr result (λ fault. (m : Meaning) → C.means conditions.now (S.files store.old) m → C.is_store fault ⊎ C.is_memory fault) }
    ensures reads { (m : Meaning) → C.means conditions.now (S.files store.old) m → AddsLooks (S.reads store.old) (S.reads store.new) (is_allowed_in m plan.now) m.is_bitmap [] (IsOk result) }
{
    let second = decide_all(alloc, store, conditions, atoms, stage, unknown, steps)?;
    let rows = true_rows(alloc, plan, whole, unknown, &second.answers, steps)?;
    let count = count_ones(&rows, steps);
    Ok(Hits {
        rows,
        count,
        checked: second.checked,
    })
}

/// The same from the first stage on.
fn hits_of<S: Store, C: Conditions, L: Ledger>(
    alloc: Global,
    store: &mut S,
    conditions: &C,
    plan: &Plan,
    atoms: &Atoms,
    stage: &FirstStage<C::Column>,
    steps: &mut Steps<L>,
) -> Result<Hits, C::Fault>
    requires atoms { atoms.now ≡ atoms_of plan.now }
    requires fits { AllByRecursion (C.fits conditions.now) (atoms_of plan.now) }
    requires few { length atoms.now < 2 ^ 32 }
    requires opened { AreOpen (C.is_open conditions.now (S.files store.old)) atoms.now stage.now.opened.items }
    requires number_opened { length stage.now.opened.items ≡ length atoms.now }
    requires number { length stage.now.answers.items ≡ length atoms.now }
    requires length { All (λ a. length a ≡ C.rows conditions.now) stage.now.answers.items }
    requires settled { (m : Meaning) → C.means conditions.now (S.files store.old) m → stage.now.answers.items ≡ columns m.rows m.answer atoms.now }
    ensures cause { HasCause (S.faults store.old) (S.faults store.new) (IsRefused result C.is_store) }
    ensures files { SameFiles (S.files store.old) (S.files store.new) }
    ensures stop { IfErr result (λ fault. C.is_memory fault ⊎ IsOneOf atoms.now (λ atom. C.stops conditions.now (S.files store.old) atom fault)) }
    ensures looks { AddsOnly (λ look. IsOneOf atoms.now (λ atom. C.is_look conditions.now atom look)) (S.reads store.old) (S.reads store.new) }
    ensures length { IfOk result (λ hits. length hits.rows ≡ C.rows conditions.now) }
    ensures count { IfOk result (λ hits. hits.count ≡ ones hits.rows) }
    ensures few { IfOk result (λ hits. hits.checked < 2 ^ 54) }
    ensures steps { steps.new ≤ steps.old + 2 * groups_and_rest (C.rows conditions.now) * (12 * parts_of plan.now + 8 * length atoms.now + 8) }

    // Where the files are sound.
    ensures rows { IfOk result (λ hits. (m : Meaning) → C.means conditions.now (S.files store.old) m → hits.rows ≡ true_of m plan.now) }
    ensures checked { IfOk result (λ hits. (m : Meaning) → C.means conditions.now (S.files store.old) m → hits.checked ≡ checked m.rows m.answer plan.now) }
    ensures whole { IfErr result (λ fault. (m : Meaning) → C.means conditions.now (S.files store.old) m → C.is_store fault ⊎ C.is_memory fault) }
    ensures reads { (m : Meaning) → C.means conditions.now (S.files store.old) m → AddsLooks (S.reads store.old) (S.reads store.new) (is_allowed_in m plan.now) m.is_bitmap [] (IsOk result) }
{
    let held = answers_of(alloc, plan, conditions.rows(), &stage.answers, steps)?;
    let whole = held.get();
    let unknown = whole.unknown_rows(alloc, steps)?;
    let left = count_ones(&unknown, steps);
    if left == 0 {
        let rows = whole.definite().copy(alloc, steps)?;
        let count = count_ones(&rows, steps);
        return Ok(Hits {
            rows,
            count,
            checked: 0,
        });
    }
    second_stage(
        alloc, store, conditions, plan, atoms, stage, whole, &unknown, steps,
    )
}

/// The rows on which a plan is true. Values are read only of a condition's candidates, and only where the conditions' first
/// stage doesn't decide the plan on each row.
pub fn evaluate<S: Store, C: Conditions, L: Ledger>(
    alloc: Global,
    store: &mut S,
    conditions: &C,
    plan: &Plan,
    steps: &mut Steps<L>,
) -> Result<Hits, C::Fault>
    requires { AllByRecursion (C.fits conditions.now) (atoms_of plan.now) }
    ensures cause { HasCause (S.faults store.old) (S.faults store.new) (IsRefused result C.is_store) }
    ensures files { SameFiles (S.files store.old) (S.files store.new) }
    ensures stop { IfErr result (λ fault. C.is_memory fault ⊎ IsOneOf (atoms_of plan.now) (λ atom. C.stops conditions.now (S.files store.old) atom fault)) }
    ensures looks { AddsOnly (λ look. IsOneOf (atoms_of plan.now) (λ atom. C.is_look conditions.now atom look)) (S.reads store.old) (S.reads store.new) }
    ensures length { IfOk result (λ hits. length hits.rows ≡ C.rows conditions.now) }
    ensures count { IfOk result (λ hits. hits.count ≡ ones hits.rows) }
    ensures few { IfOk result (λ hits. hits.checked < 2 ^ 54) }

    // Where the files are sound.
    ensures rows { IfOk result (λ hits. (m : Meaning) → C.means conditions.now (S.files store.old) m → hits.rows ≡ true_of m plan.now) }
    ensures checked { IfOk result (λ hits. (m : Meaning) → C.means conditions.now (S.files store.old) m → hits.checked ≡ checked m.rows m.answer plan.now) }
    ensures whole { IfErr result (λ fault. (m : Meaning) → C.means conditions.now (S.files store.old) m → C.is_store fault ⊎ C.is_memory fault) }
    ensures reads { (m : Meaning) → C.means conditions.now (S.files store.old) m → AddsLooks (S.reads store.old) (S.reads store.new) (is_allowed_in m plan.now) m.is_bitmap (bitmaps_in m plan.now) (IsOk result) }
    ensures steps { (m : Meaning) → C.means conditions.now (S.files store.old) m → steps.new ≤ steps.old + 2 * groups_and_rest m.rows * work_in m plan.now }
{
    let atoms = Atoms::of(alloc, plan)?;
    let stage = settle_all(alloc, store, conditions, &atoms, steps)?;
    hits_of(alloc, store, conditions, plan, &atoms, &stage, steps)
}
