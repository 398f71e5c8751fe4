//! The answers to a question and to an estimate.

ghost use Rattle.std.specs.Prelude.{◌≡◌, ◌+◌, ◌≤◌, IsErrOf, IsOk, IsUtf8, is_ok, true};
ghost use Rattle.fb_outside.specs.Causes.{HasCause};
ghost use Rattle.fb_outside.specs.Files.{SameFiles};
ghost use Rattle.fb_outside.specs.Names.{IsPath};
ghost use Rattle.fb_outside.specs.Reads.{AddsOnly};
ghost use Rattle.query_engine.specs.Reads.{is_allowed_over, is_free_over};
ghost use Rattle.world.specs.Stands.{StandsFor};
ghost use Rattle.world.specs.World.{World};
ghost use Rattle.ibis_answer.specs.Answer.{between_in, counted_in};
ghost use Rattle.ibis_answer.specs.Asked.{stop_of_ask};
ghost use Rattle.ibis_answer.specs.Causes.{Gives, IsOfWorld};
ghost use Rattle.ibis_answer.specs.Looks.{IsAnswerLook, ReadsInWorld, steps_in};
ghost use Rattle.ibis_answer.specs.Query.{read_clause};

use crate::asking::asked;
use fb_outside::{FileName, Store};
use fb_types::Label;
use query_engine::{AskFault, bounds, choose};
use stages::Bounds;
use statuses::{Unanswered, damaged};
use std::alloc::Global;
use std::sync::ledger::Ledger;
use steps::Steps;

/// How many records a query's clause asks for, and how many pairs of a condition and a record were checked by values.
#[derive(Clone, Copy, Debug, PartialEq, Eq)]
pub struct Counted {
    pub hits: u64,
    pub checked: u64,
}

/// How many records of the dataset at the path the query asks for. No file changes.
pub fn answer<S: Store, L: Ledger>(
    alloc: Global,
    dir: &FileName,
    query: &Label,
    store: &mut S,
    steps: &mut Steps<L>,
) -> Result<Counted, Unanswered>
    requires path { IsPath dir.now }
    requires text { IsUtf8 query.now }
    ensures cause { HasCause (S.faults store.old) (S.faults store.new) (IsErrOf result Unanswered.StoreFault) }
    ensures files { SameFiles (S.files store.old) (S.files store.new) }
    ensures reads { AddsOnly (IsAnswerLook dir.now query.now) (S.reads store.old) (S.reads store.new) }
    ensures gives { Gives dir.now query.now (S.files store.old) result }

    // The store is asked where the query's text isn't refused.
    ensures asks_store { IsErrOf result Unanswered.StoreFault → is_ok (read_clause query.now) ≡ true }

    // Where the files stand for a world, the numbers are those of its records, and values are read of candidates alone.
    ensures counted { IsOfWorld counted_in dir.now query.now (S.files store.old) result }
    ensures allowed { ReadsInWorld is_allowed_over dir.now query.now (S.files store.old) (S.reads store.old) (S.reads store.new) (IsOk result) }
    ensures steps { (world : World) → StandsFor (S.files store.old) world → steps.new ≤ steps.old + steps_in dir.now query.now world }
{
    let asked = asked(alloc, dir, query, store)?;
    match choose(alloc, store, &asked.dataset, &asked.plan, steps) {
        Ok(chosen) => Ok(Counted {
            hits: chosen.hits,
            checked: chosen.checked,
        }),
        Err(fault) => Err(stop_of_ask(fault)),
    }
}

/// Between how many records of the dataset at the path and how many the query asks for, as far as the bins of its columns
/// decide it. No file changes.
pub fn estimate<S: Store, L: Ledger>(
    alloc: Global,
    dir: &FileName,
    query: &Label,
    store: &mut S,
    steps: &mut Steps<L>,
) -> Result<Bounds, Unanswered>
    requires path { IsPath dir.now }
    requires text { IsUtf8 query.now }
    ensures cause { HasCause (S.faults store.old) (S.faults store.new) (IsErrOf result Unanswered.StoreFault) }
    ensures files { SameFiles (S.files store.old) (S.files store.new) }
    ensures reads { AddsOnly (IsAnswerLook dir.now query.now) (S.reads store.old) (S.reads store.new) }
    ensures gives { Gives dir.now query.now (S.files store.old) result }

    // The store is asked where the query's text isn't refused.
    ensures asks_store { IsErrOf result Unanswered.StoreFault → is_ok (read_clause query.now) ≡ true }

    // Where the files stand for a world, the numbers are the bounds of its bins, and no value is read.
    ensures bounded { IsOfWorld between_in dir.now query.now (S.files store.old) result }
    ensures allowed { ReadsInWorld is_free_over dir.now query.now (S.files store.old) (S.reads store.old) (S.reads store.new) (IsOk result) }
    ensures steps { (world : World) → StandsFor (S.files store.old) world → steps.new ≤ steps.old + steps_in dir.now query.now world }
{
    let asked = asked(alloc, dir, query, store)?;
    match bounds(alloc, store, &asked.dataset, &asked.plan, steps) {
        Ok(found) => Ok(found),
        Err(fault) => Err(stop_of_ask(fault)),
    }
}

/// What a plan that isn't answered is answered by.
fn stop_of_ask(fault: AskFault) -> Unanswered
    ensures { result ≡ stop_of_ask fault }
{
    match fault {
        AskFault::Damaged {
            file,
            kind,
            want,
            have,
        } => damaged(file, kind, want, have),
        AskFault::Store => Unanswered::StoreFault,
        AskFault::OutOfMemory => Unanswered::OutOfMemory,
    }
}
