//! The answer of a plan over a part of a dataset, and the bounds of its number of rows.

ghost use Rattle.std.specs.Prelude.{◌≡◌, ◌⊎◌, ◌+◌, ◌*◌, ◌<◌, ◌^◌, ◌≤◌, IfErr, IfOk, IsOk, length};
ghost use Rattle.fb_outside.specs.Causes.{HasCause};
ghost use Rattle.fb_outside.specs.Files.{SameFiles};
ghost use Rattle.fb_outside.specs.Reads.{AddsOnly};
ghost use Rattle.stages.specs.Answer.{bitmaps_in, is_allowed_in, is_free_in, work_in};
ghost use Rattle.stages.specs.Faults.{IsOneOf, IsRefused};
ghost use Rattle.stages.specs.Looks.{AddsLooks};
ghost use Rattle.three_valued.specs.Plans.{atoms_of};
ghost use Rattle.wah_logic.specs.Logic.{groups_and_rest, ones};
ghost use Rattle.where_plan.specs.Plans.{FitsSchema};
ghost use Rattle.world.specs.World.{Partition};
ghost use Rattle.part_meaning.specs.Answers.{checked_in, definite_in, possible_in, rows_that_hold};
ghost use Rattle.part_meaning.specs.Meaning.{IsPartAt, meaning_of};
ghost use Rattle.part_meaning.specs.Parts.{is_bitmap_in};
ghost use Rattle.two_stage.specs.Faults.{IsOfMemory, IsOfStore, IsOutside, Stops};
ghost use Rattle.two_stage.specs.Placed.{IsColumnLook, placed_of};

use crate::conditions::PartConditions;
use crate::fault::EvalFault;
use fb_outside::Store;
use stages::{Bounds, Hits};
use std::alloc::Global;
use std::sync::ledger::Ledger;
use steps::Steps;
use where_plan::Plan;

/// The bounds of the number of a part's rows on which a plan is true, as far as the bins of its columns decide it. No value
/// and no text is read.
pub fn estimate<S: Store, L: Ledger>(
    alloc: Global,
    store: &mut S,
    conditions: &PartConditions,
    plan: &Plan,
    steps: &mut Steps<L>,
) -> Result<Bounds, EvalFault>
    requires { FitsSchema conditions.now.meta.schema plan.now }
    ensures cause { HasCause (S.faults store.old) (S.faults store.new) (IsRefused result IsOfStore) }
    ensures files { SameFiles (S.files store.old) (S.files store.new) }
    ensures stop { IfErr result (λ fault. IsOfMemory fault
        ⊎ IsOneOf (atoms_of plan.now) (λ atom. Stops (S.files store.old) conditions.now.dir conditions.now.meta atom fault)) }
    ensures looks { AddsOnly (λ look. IsOneOf (atoms_of plan.now) (λ atom. IsColumnLook (placed_of conditions.now.dir conditions.now.meta atom) look))
        (S.reads store.old) (S.reads store.new) }
    ensures few { IfOk result (λ bounds. (bounds.definite ≤ conditions.now.meta.rows) × (bounds.possible ≤ conditions.now.meta.rows)) }

    // Where the files rest for a partition.
    ensures definite { IfOk result (λ bounds. (p : Partition) → IsPartAt (S.files store.old) conditions.now.dir conditions.now.meta p
        → bounds.definite ≡ definite_in conditions.now.meta.schema p plan.now) }
    ensures possible { IfOk result (λ bounds. (p : Partition) → IsPartAt (S.files store.old) conditions.now.dir conditions.now.meta p
        → bounds.possible ≡ possible_in conditions.now.meta.schema p plan.now) }
    ensures whole { IfErr result (λ fault. (p : Partition) → IsPartAt (S.files store.old) conditions.now.dir conditions.now.meta p → IsOutside fault) }
    ensures reads { (p : Partition) → IsPartAt (S.files store.old) conditions.now.dir conditions.now.meta p
        → AddsLooks (S.reads store.old) (S.reads store.new) (is_free_in (meaning_of conditions.now.dir conditions.now.meta.schema p) plan.now)
        (is_bitmap_in conditions.now.dir conditions.now.meta.schema p) (bitmaps_in (meaning_of conditions.now.dir conditions.now.meta.schema p) plan.now) (IsOk result) }
    ensures steps { (p : Partition) → IsPartAt (S.files store.old) conditions.now.dir conditions.now.meta p
        → steps.new ≤ steps.old + 2 * groups_and_rest conditions.now.meta.rows * work_in (meaning_of conditions.now.dir conditions.now.meta.schema p) plan.now }
{
    stages::estimate(alloc, store, conditions, plan, steps)
}

/// The rows of a part on which a plan is true, and how many pairs of a condition and a candidate of it were checked by values.
pub fn evaluate<S: Store, L: Ledger>(
    alloc: Global,
    store: &mut S,
    conditions: &PartConditions,
    plan: &Plan,
    steps: &mut Steps<L>,
) -> Result<Hits, EvalFault>
    requires { FitsSchema conditions.now.meta.schema plan.now }
    ensures cause { HasCause (S.faults store.old) (S.faults store.new) (IsRefused result IsOfStore) }
    ensures files { SameFiles (S.files store.old) (S.files store.new) }
    ensures stop { IfErr result (λ fault. IsOfMemory fault
        ⊎ IsOneOf (atoms_of plan.now) (λ atom. Stops (S.files store.old) conditions.now.dir conditions.now.meta atom fault)) }
    ensures looks { AddsOnly (λ look. IsOneOf (atoms_of plan.now) (λ atom. IsColumnLook (placed_of conditions.now.dir conditions.now.meta atom) look))
        (S.reads store.old) (S.reads store.new) }
    ensures length { IfOk result (λ hits. length hits.rows ≡ conditions.now.meta.rows) }
    ensures count { IfOk result (λ hits. hits.count ≡ ones hits.rows) }
    ensures few { IfOk result (λ hits. hits.checked < 2 ^ 54) }

    // Where the files rest for a partition.
    ensures rows { IfOk result (λ hits. (p : Partition) → IsPartAt (S.files store.old) conditions.now.dir conditions.now.meta p
        → hits.rows ≡ rows_that_hold plan.now p) }
    ensures checked { IfOk result (λ hits. (p : Partition) → IsPartAt (S.files store.old) conditions.now.dir conditions.now.meta p
        → hits.checked ≡ checked_in conditions.now.meta.schema p plan.now) }
    ensures whole { IfErr result (λ fault. (p : Partition) → IsPartAt (S.files store.old) conditions.now.dir conditions.now.meta p → IsOutside fault) }
    ensures reads { (p : Partition) → IsPartAt (S.files store.old) conditions.now.dir conditions.now.meta p
        → AddsLooks (S.reads store.old) (S.reads store.new) (is_allowed_in (meaning_of conditions.now.dir conditions.now.meta.schema p) plan.now)
        (is_bitmap_in conditions.now.dir conditions.now.meta.schema p) (bitmaps_in (meaning_of conditions.now.dir conditions.now.meta.schema p) plan.now) (IsOk result) }
    ensures steps { (p : Partition) → IsPartAt (S.files store.old) conditions.now.dir conditions.now.meta p
        → steps.new ≤ steps.old + 2 * groups_and_rest conditions.now.meta.rows * work_in (meaning_of conditions.now.dir conditions.now.meta.schema p) plan.now }
{
    stages::evaluate(alloc, store, conditions, plan, steps)
}
