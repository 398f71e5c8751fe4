//! What is asked of the table that is made.

ghost use Rattle.std.specs.Prelude.{◌≡◌, ◌∷◌, [], IfOk, IsErrOf, IsUtf8};
ghost use Rattle.fb_outside.specs.Causes.{HasCause};
ghost use Rattle.fb_outside.specs.Memory.{files_of};
ghost use Rattle.command_words.specs.Valid.{IsValidTask};
ghost use Rattle.commands.specs.Command.{command_of_task};
ghost use Rattle.gen_run.specs.Made.{asked_by, asked_of, made_commands, table_path};
ghost use Rattle.gen_run.specs.Ran.{Ran};

use crate::ending::ending_of;
use crate::loading::table_path;
use crate::own::{NoInput, OwnStore};
use command_words::{Job, Task};
use commands::run_command;
use fb_outside::{Sink, Trouble};
use fb_types::Label;
use std::alloc::{AllocError, Global};
use std::sync::ledger::Ledger;
use steps::Steps;

/// Builds the indexes by each specification, and asks each query of them.
#[tactic(auto, unfolding(crate::specs::Made::specifications))]
pub(crate) fn ask_all<K: Sink, L: Ledger>(
    alloc: Global,
    store: &mut OwnStore,
    out: &mut K,
    steps: &mut Steps<L>,
) -> Result<(), Trouble>
    ensures ran { Ran made_commands (files_of store.old) (files_of store.new)
        (K.written out.old) (K.written out.new) result }
    ensures cause { HasCause (K.faults out.old) (K.faults out.new) (IsErrOf result Trouble.Failed) }
{
    let none = "<binning none/><encoding equality/>";
    build_and_ask(alloc, none, store, out, steps)?;
    let equal_widths = "<binning start=0 end=1000 nbins=20/><encoding range/>";
    build_and_ask(alloc, equal_widths, store, out, steps)?;
    let equal_weights = "<binning nbins=30/><encoding interval/>";
    build_and_ask(alloc, equal_weights, store, out, steps)?;
    let digits = "<binning precision=2/><encoding two-level coarse=interval ncoarse=8/>";
    build_and_ask(alloc, digits, store, out, steps)
}

/// Builds the indexes by a specification, and asks each query of them.
#[tactic(auto, unfolding(crate::specs::Made::queries, crate::specs::Made::indexed_columns))]
fn build_and_ask<K: Sink, L: Ledger>(
    alloc: Global,
    spec: &str,
    store: &mut OwnStore,
    out: &mut K,
    steps: &mut Steps<L>,
) -> Result<(), Trouble>
    ensures ran { Ran (asked_of spec.now) (files_of store.old) (files_of store.new)
        (K.written out.old) (K.written out.new) result }
    ensures cause { HasCause (K.faults out.old) (K.faults out.new) (IsErrOf result Trouble.Failed) }
{
    let build = Task::Build {
        spec: label(alloc, spec)?,
        columns: Some(label(alloc, "a,c")?),
    };
    run_task(alloc, build, store, out, steps)?;
    ask(alloc, "where a < 250", store, out, steps)?;
    let both = "where 100 <= a < 400 and not (c >= 50000)";
    ask(alloc, both, store, out, steps)?;
    ask(alloc, "where b = \"w5\" or a >= 900", store, out, steps)
}

/// Between which numbers the hits of a query are, how many they are, and how many were checked.
fn ask<K: Sink, L: Ledger>(
    alloc: Global,
    query: &str,
    store: &mut OwnStore,
    out: &mut K,
    steps: &mut Steps<L>,
) -> Result<(), Trouble>
    ensures ran { Ran (asked_by query.now) (files_of store.old) (files_of store.new)
        (K.written out.old) (K.written out.new) result }
    ensures cause { HasCause (K.faults out.old) (K.faults out.new) (IsErrOf result Trouble.Failed) }
{
    let estimate = Task::Estimate {
        query: label(alloc, query)?,
    };
    run_task(alloc, estimate, store, out, steps)?;
    let answer = Task::Answer {
        query: label(alloc, query)?,
        tell: true,
    };
    run_task(alloc, answer, store, out, steps)
}

fn label(alloc: Global, text: &str) -> Result<Label, AllocError>
    ensures value { IfOk result (λ label. label ≡ text.now) }
    ensures text { IfOk result IsUtf8 }
{
    Label::from_bytes(alloc, text.as_bytes())
}

/// Runs a command on the table. What follows it runs also where it is refused, behind the line of its refusal.
fn run_task<K: Sink, L: Ledger>(
    alloc: Global,
    task: Task,
    store: &mut OwnStore,
    out: &mut K,
    steps: &mut Steps<L>,
) -> Result<(), Trouble>
    requires valid { IsValidTask task }
    ensures ran { Ran (command_of_task table_path task ∷ []) (files_of store.old) (files_of store.new)
        (K.written out.old) (K.written out.new) result }
    ensures cause { HasCause (K.faults out.old) (K.faults out.new) (IsErrOf result Trouble.Failed) }
{
    let dir = table_path(alloc)?;
    let asked = Some(Job::Ibis { dir, task });
    ending_of(run_command(alloc, &asked, &mut NoInput, store, out, steps))
}
