//! The rows of a dataset on which a plan is true.

ghost use Rattle.std.specs.Prelude.{◌≡◌, ◌+◌, ◌≤◌, List, IfErr, IfOk, IsErrOf, IsOk, length, map, sum_by};
ghost use Rattle.fb_outside.specs.Causes.{HasCause};
ghost use Rattle.fb_outside.specs.Files.{SameFiles};
ghost use Rattle.fb_outside.specs.Reads.{AddsOnly};
ghost use Rattle.dataset.specs.Opened.{IsDataset};
ghost use Rattle.stages.specs.Looks.{AddsLooks};
ghost use Rattle.wah_logic.specs.Logic.{ones};
ghost use Rattle.where_plan.specs.Plans.{FitsSchema};
ghost use Rattle.world.specs.World.{Partition};
ghost use Rattle.query_engine.specs.Damage.{IfDamaged, IsPlanDamaged, NoDamage};
ghost use Rattle.query_engine.specs.Parts.{AreParts, checked_over, hits_over, rows_chosen};
ghost use Rattle.query_engine.specs.Reads.{IsPlanLook, bitmaps_over, is_allowed_over, is_bitmap_over, steps_over};

use crate::fault::AskFault;
use crate::in_part::choose_in;
use crate::listed::{keep, listed_part};
use dataset::Dataset;
use fb_outside::Store;
use sqlite_items::Items;
use std::alloc::Global;
use std::sync::ledger::Ledger;
use steps::Steps;
use wah_words::Wah;
use where_plan::Plan;

/// The rows of a dataset on which a plan is true, a vector for each part in the order of the catalog; how many they are; and how
/// many pairs of a condition and a candidate of it were checked by values.
#[derive(Drop)]
pub struct Chosen {
    pub parts: Items<Wah>,
    pub hits: u64,
    pub checked: u64,
}

/// Answers a plan over all parts of a dataset. Values are read only of a condition's candidates.
pub fn choose<S: Store, L: Ledger>(
    alloc: Global,
    store: &mut S,
    dataset: &Dataset,
    plan: &Plan,
    steps: &mut Steps<L>,
) -> Result<Chosen, AskFault>
    requires valid { IsDataset dataset.now }
    requires fits { FitsSchema dataset.now.schema plan.now }
    ensures cause { HasCause (S.faults store.old) (S.faults store.new) (IsErrOf result AskFault.Store) }
    ensures files { SameFiles (S.files store.old) (S.files store.new) }
    ensures stop { IfErr result (λ fault. IfDamaged fault (IsPlanDamaged (S.files store.old) dataset.now plan.now)) }
    ensures looks { AddsOnly (IsPlanLook dataset.now plan.now) (S.reads store.old) (S.reads store.new) }
    ensures length { IfOk result (λ chosen. map length chosen.parts ≡ map (λ part. part.rows) dataset.now.parts) }
    ensures count { IfOk result (λ chosen. chosen.hits ≡ sum_by ones chosen.parts) }

    // Where the files rest for the parts.
    ensures rows { IfOk result (λ chosen. (parts : List Partition) → AreParts (S.files store.old) dataset.now parts
        → chosen.parts ≡ rows_chosen plan.now parts) }
    ensures hits { IfOk result (λ chosen. (parts : List Partition) → AreParts (S.files store.old) dataset.now parts
        → chosen.hits ≡ hits_over plan.now parts) }
    ensures checked { IfOk result (λ chosen. (parts : List Partition) → AreParts (S.files store.old) dataset.now parts
        → chosen.checked ≡ checked_over dataset.now.schema parts plan.now) }
    ensures whole { IfErr result (λ fault. (parts : List Partition) → AreParts (S.files store.old) dataset.now parts
        → NoDamage fault) }
    ensures reads { (parts : List Partition) → AreParts (S.files store.old) dataset.now parts
        → AddsLooks (S.reads store.old) (S.reads store.new) (is_allowed_over dataset.now parts plan.now)
        (is_bitmap_over dataset.now parts) (bitmaps_over dataset.now parts plan.now) (IsOk result) }
    ensures steps { (parts : List Partition) → AreParts (S.files store.old) dataset.now parts
        → steps.new ≤ steps.old + steps_over dataset.now parts plan.now }
{
    let mut parts = Items::new(alloc);
    let mut hits = 0;
    let mut checked = 0;
    for place in 0..dataset.parts.len() {
        let part = listed_part(dataset, place);
        let found = choose_in(alloc, store, dataset, part, plan, steps)?;
        keep(&mut parts, found.rows)?;
        hits += found.count;
        checked += found.checked;
    }
    Ok(Chosen {
        parts,
        hits,
        checked,
    })
}
