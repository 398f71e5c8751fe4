//! One part, with its faults as those of the dataset.

ghost use Rattle.std.specs.Prelude.{◌≡◌, ℕ, ◌+◌, ◌*◌, ◌^◌, ◌<◌, ◌≤◌, IfErr, IfOk, IsErrOf, IsOk, Some, length, slice_get};
ghost use Rattle.fb_outside.specs.Causes.{HasCause};
ghost use Rattle.fb_outside.specs.Files.{SameFiles};
ghost use Rattle.fb_outside.specs.Reads.{AddsOnly};
ghost use Rattle.dataset.specs.Opened.{IsDataset};
ghost use Rattle.stages.specs.Answer.{bitmaps_in, is_allowed_in, is_free_in, work_in};
ghost use Rattle.stages.specs.Looks.{AddsLooks};
ghost use Rattle.wah_logic.specs.Logic.{groups_and_rest, ones};
ghost use Rattle.wah_words.specs.Limits.{most_bits};
ghost use Rattle.where_plan.specs.Plans.{FitsSchema};
ghost use Rattle.world.specs.World.{Partition};
ghost use Rattle.part_meaning.specs.Answers.{checked_in, definite_in, possible_in, rows_that_hold};
ghost use Rattle.part_meaning.specs.Meaning.{IsPartAt};
ghost use Rattle.part_meaning.specs.Parts.{is_bitmap_in};
ghost use Rattle.query_engine.specs.Damage.{IfDamaged, IsPlanDamaged, NoDamage};
ghost use Rattle.query_engine.specs.Reads.{IsPlanLook, means_in, steps_in};

use crate::damage::ask_fault;
use crate::fault::AskFault;
use dataset::Dataset;
use fb_outside::Store;
use part_meta::PartMeta;
use stages::{Bounds, Hits};
use std::alloc::Global;
use std::sync::ledger::Ledger;
use steps::Steps;
use two_stage::{PartConditions, estimate, evaluate};
use where_plan::Plan;

/// The rows of a part on which a plan is true.
pub(crate) fn choose_in<S: Store, L: Ledger>(
    alloc: Global,
    store: &mut S,
    dataset: &Dataset,
    part: &PartMeta,
    plan: &Plan,
    steps: &mut Steps<L>,
) -> Result<Hits, AskFault>
    requires valid { IsDataset dataset.now }
    requires listed { (place : ℕ) × (slice_get dataset.now.parts place ≡ Some part.now) }
    requires fits { FitsSchema dataset.now.schema plan.now }
    ensures cause { HasCause (S.faults store.old) (S.faults store.new) (IsErrOf result AskFault.Store) }
    ensures files { SameFiles (S.files store.old) (S.files store.new) }
    ensures stop { IfErr result (λ fault. IfDamaged fault (IsPlanDamaged (S.files store.old) dataset.now plan.now)) }
    ensures looks { AddsOnly (IsPlanLook dataset.now plan.now) (S.reads store.old) (S.reads store.new) }
    ensures length { IfOk result (λ hits. length hits.rows ≡ part.now.rows) }
    ensures limit { part.now.rows ≤ most_bits }
    ensures count { IfOk result (λ hits. hits.count ≡ ones hits.rows) }
    ensures few { IfOk result (λ hits. hits.checked < 2 ^ 54) }

    // Where the files rest for a partition.
    ensures rows { IfOk result (λ hits. (p : Partition) → IsPartAt (S.files store.old) dataset.now.dir part.now p
        → hits.rows ≡ rows_that_hold plan.now p) }
    ensures checked { IfOk result (λ hits. (p : Partition) → IsPartAt (S.files store.old) dataset.now.dir part.now p
        → hits.checked ≡ checked_in dataset.now.schema p plan.now) }
    ensures whole { IfErr result (λ fault. (p : Partition) → IsPartAt (S.files store.old) dataset.now.dir part.now p
        → NoDamage fault) }
    ensures reads { (p : Partition) → IsPartAt (S.files store.old) dataset.now.dir part.now p
        → AddsLooks (S.reads store.old) (S.reads store.new) (is_allowed_in (means_in dataset.now p) plan.now)
        (is_bitmap_in dataset.now.dir dataset.now.schema p) (bitmaps_in (means_in dataset.now p) plan.now) (IsOk result) }
    ensures steps { (p : Partition) → IsPartAt (S.files store.old) dataset.now.dir part.now p
        → steps.new ≤ steps.old + steps_in dataset.now plan.now p }
{
    let conditions = PartConditions {
        dir: &dataset.dir,
        part,
    };
    match evaluate(alloc, store, &conditions, plan, steps) {
        Ok(hits) => Ok(hits),
        Err(fault) => Err(ask_fault(alloc, dataset, part, fault)),
    }
}

/// The bounds of the number of these rows.
pub(crate) fn bound_in<S: Store, L: Ledger>(
    alloc: Global,
    store: &mut S,
    dataset: &Dataset,
    part: &PartMeta,
    plan: &Plan,
    steps: &mut Steps<L>,
) -> Result<Bounds, AskFault>
    requires valid { IsDataset dataset.now }
    requires listed { (place : ℕ) × (slice_get dataset.now.parts place ≡ Some part.now) }
    requires fits { FitsSchema dataset.now.schema plan.now }
    ensures cause { HasCause (S.faults store.old) (S.faults store.new) (IsErrOf result AskFault.Store) }
    ensures files { SameFiles (S.files store.old) (S.files store.new) }
    ensures stop { IfErr result (λ fault. IfDamaged fault (IsPlanDamaged (S.files store.old) dataset.now plan.now)) }
    ensures looks { AddsOnly (IsPlanLook dataset.now plan.now) (S.reads store.old) (S.reads store.new) }
    ensures few { IfOk result (λ bounds. (bounds.definite ≤ most_bits) × (bounds.possible ≤ most_bits)) }

    // Where the files rest for a partition.
    ensures definite { IfOk result (λ bounds. (p : Partition) → IsPartAt (S.files store.old) dataset.now.dir part.now p
        → bounds.definite ≡ definite_in dataset.now.schema p plan.now) }
    ensures possible { IfOk result (λ bounds. (p : Partition) → IsPartAt (S.files store.old) dataset.now.dir part.now p
        → bounds.possible ≡ possible_in dataset.now.schema p plan.now) }
    ensures whole { IfErr result (λ fault. (p : Partition) → IsPartAt (S.files store.old) dataset.now.dir part.now p
        → NoDamage fault) }
    ensures reads { (p : Partition) → IsPartAt (S.files store.old) dataset.now.dir part.now p
        → AddsLooks (S.reads store.old) (S.reads store.new) (is_free_in (means_in dataset.now p) plan.now)
        (is_bitmap_in dataset.now.dir dataset.now.schema p) (bitmaps_in (means_in dataset.now p) plan.now) (IsOk result) }
    ensures steps { (p : Partition) → IsPartAt (S.files store.old) dataset.now.dir part.now p
        → steps.new ≤ steps.old + steps_in dataset.now plan.now p }
{
    let conditions = PartConditions {
        dir: &dataset.dir,
        part,
    };
    match estimate(alloc, store, &conditions, plan, steps) {
        Ok(bounds) => Ok(bounds),
        Err(fault) => Err(ask_fault(alloc, dataset, part, fault)),
    }
}
