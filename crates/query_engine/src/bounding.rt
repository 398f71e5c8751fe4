//! Between how many rows of a dataset a plan is true on.

ghost use Rattle.std.specs.Prelude.{◌≡◌, ◌+◌, ◌≤◌, List, IfErr, IfOk, IsErrOf, IsOk};
ghost use Rattle.fb_outside.specs.Causes.{HasCause};
ghost use Rattle.fb_outside.specs.Files.{SameFiles};
ghost use Rattle.fb_outside.specs.Reads.{AddsOnly};
ghost use Rattle.dataset.specs.Opened.{IsDataset};
ghost use Rattle.stages.specs.Looks.{AddsLooks};
ghost use Rattle.where_plan.specs.Plans.{FitsSchema};
ghost use Rattle.world.specs.World.{Partition};
ghost use Rattle.query_engine.specs.Damage.{IfDamaged, IsPlanDamaged, NoDamage};
ghost use Rattle.query_engine.specs.Parts.{AreParts, definite_over, possible_over};
ghost use Rattle.query_engine.specs.Reads.{IsPlanLook, bitmaps_over, is_bitmap_over, is_free_over, steps_over};

use crate::fault::AskFault;
use crate::in_part::bound_in;
use crate::listed::listed_part;
use dataset::Dataset;
use fb_outside::Store;
use stages::Bounds;
use std::alloc::Global;
use std::sync::ledger::Ledger;
use steps::Steps;
use where_plan::Plan;

/// The bounds of the number of rows of a dataset on which a plan is true, as far as the bins of its columns decide it. No file
/// of values or texts is read.
pub fn bounds<S: Store, L: Ledger>(
    alloc: Global,
    store: &mut S,
    dataset: &Dataset,
    plan: &Plan,
    steps: &mut Steps<L>,
) -> Result<Bounds, AskFault>
    requires valid { IsDataset dataset.now }
    requires fits { FitsSchema dataset.now.schema plan.now }
    ensures cause { HasCause (S.faults store.old) (S.faults store.new) (IsErrOf result AskFault.Store) }
    ensures files { SameFiles (S.files store.old) (S.files store.new) }
    ensures stop { IfErr result (λ fault. IfDamaged fault (IsPlanDamaged (S.files store.old) dataset.now plan.now)) }
    ensures looks { AddsOnly (IsPlanLook dataset.now plan.now) (S.reads store.old) (S.reads store.new) }

    // Where the files rest for the parts.
    ensures definite { IfOk result (λ bounds. (parts : List Partition) → AreParts (S.files store.old) dataset.now parts
        → bounds.definite ≡ definite_over dataset.now.schema parts plan.now) }
    ensures possible { IfOk result (λ bounds. (parts : List Partition) → AreParts (S.files store.old) dataset.now parts
        → bounds.possible ≡ possible_over dataset.now.schema parts plan.now) }
    ensures whole { IfErr result (λ fault. (parts : List Partition) → AreParts (S.files store.old) dataset.now parts
        → NoDamage fault) }
    ensures reads { (parts : List Partition) → AreParts (S.files store.old) dataset.now parts
        → AddsLooks (S.reads store.old) (S.reads store.new) (is_free_over dataset.now parts plan.now)
        (is_bitmap_over dataset.now parts) (bitmaps_over dataset.now parts plan.now) (IsOk result) }
    ensures steps { (parts : List Partition) → AreParts (S.files store.old) dataset.now parts
        → steps.new ≤ steps.old + steps_over dataset.now parts plan.now }
{
    let mut definite = 0;
    let mut possible = 0;
    for place in 0..dataset.parts.len() {
        let part = listed_part(dataset, place);
        let found = bound_in(alloc, store, dataset, part, plan, steps)?;
        definite += found.definite;
        possible += found.possible;
    }
    Ok(Bounds { definite, possible })
}
