//! The first stage: what is known of each condition before any value is read.
ghost use Rattle.std.specs.Prelude.{◌≡◌, ◌⊎◌, ℕ, ◌+◌, ◌*◌, ◌<◌, ◌≤◌, All, IfErr, IfOk, IsOk, List, Some, length, slice_get, sum_by};
ghost use Rattle.std.specs.List.{AllByRecursion, flat_map, list_any};
ghost use Rattle.fb_outside.specs.Causes.{HasCause};
ghost use Rattle.fb_outside.specs.Files.{SameFiles};
ghost use Rattle.fb_outside.specs.Reads.{AddsOnly};
ghost use Rattle.wah_logic.specs.Logic.{groups_and_rest};
ghost use Rattle.three_valued.specs.Rows.{columns};
ghost use Rattle.stages.specs.Faults.{IsOneOf, IsRefused};
ghost use Rattle.stages.specs.Looks.{AddsLooks};
ghost use Rattle.stages.specs.Meaning.{Meaning};
ghost use Rattle.stages.specs.Open.{AreOpen};

use crate::conditions::Conditions;
use crate::gathering::Atoms;
use crate::lists::keep;
use fb_outside::Store;
use std::alloc::Global;
use std::sync::ledger::Ledger;
use steps::Steps;
use three_valued::Answers;

/// The conditions of a plan, settled: what is known of each, and its open column.
#[derive(Drop)]
pub(crate) struct FirstStage<O> {
    pub(crate) answers: Vec<Answers>,
    pub(crate) opened: Vec<O>,
}

/// Settles conditions in order.
pub(crate) fn settle_all<S: Store, C: Conditions, L: Ledger>(
    alloc: Global,
    store: &mut S,
    conditions: &C,
    atoms: &Atoms,
    steps: &mut Steps<L>,
) -> Result<FirstStage<C::Column>, C::Fault>
    requires { AllByRecursion (C.fits conditions.now) atoms.now }
    ensures cause { HasCause (S.faults store.old) (S.faults store.new) (IsRefused result C.is_store) }
    ensures files { SameFiles (S.files store.old) (S.files store.new) }
    ensures stop { IfErr result (λ fault. C.is_memory fault ⊎ IsOneOf atoms.now (λ atom. C.stops conditions.now (S.files store.old) atom fault)) }
    ensures looks { AddsOnly (λ look. IsOneOf atoms.now (λ atom. C.is_look conditions.now atom look)) (S.reads store.old) (S.reads store.new) }
    ensures number_opened { IfOk result (λ stage. length stage.opened.items ≡ length atoms.now) }
    ensures number { IfOk result (λ stage. length stage.answers.items ≡ length atoms.now) }
    ensures long { IfOk result (λ stage. All (λ a. length a ≡ C.rows conditions.now) stage.answers.items) }
    ensures opened { IfOk result (λ stage. AreOpen (C.is_open conditions.now (S.files store.old)) atoms.now stage.opened.items) }

    // Where the files are sound.
    ensures answers { IfOk result (λ stage. (m : Meaning) → C.means conditions.now (S.files store.old) m → stage.answers.items ≡ columns m.rows m.answer atoms.now) }
    ensures whole { IfErr result (λ fault. (m : Meaning) → C.means conditions.now (S.files store.old) m → C.is_store fault ⊎ C.is_memory fault) }
    ensures reads { (m : Meaning) → C.means conditions.now (S.files store.old) m → AddsLooks (S.reads store.old) (S.reads store.new) (λ look. list_any (λ atom. m.is_free atom look) atoms.now) m.is_bitmap (flat_map m.fetched atoms.now) (IsOk result) }
    ensures steps { (m : Meaning) → C.means conditions.now (S.files store.old) m → steps.new ≤ steps.old + 2 * groups_and_rest m.rows * sum_by m.work atoms.now }
{
    let mut answers = Vec::new(alloc);
    let mut opened = Vec::new(alloc);
    for place in 0..atoms.len() {
        let settled = conditions.settle(alloc, store, atoms.at(place), steps)?;
        keep(&mut answers, settled.answers)?;
        keep(&mut opened, settled.column)?;
    }
    Ok(FirstStage { answers, opened })
}
