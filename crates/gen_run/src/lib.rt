//! The command `gen`: a table of records that are drawn from a number, and what is asked of it by each of four kinds of indexes,
//! which change no answer.
//!
//! The table lies in a store in memory of the command's own: the outside is left alone, but for what is printed.
#![tactic(auto)]

mod asking;
mod ending;
mod laws;
mod loading;
mod own;
#[cfg(test)]
mod tests;

ghost use Rattle.std.specs.Prelude.{◌≡◌, ◌≤◌, IsErrOf};
ghost use Rattle.fb_outside.specs.Causes.{HasCause};
ghost use Rattle.commands.specs.Reply.{Replies};
ghost use Rattle.gen_run.specs.Made.{gen_outcome};
ghost use Rattle.gen_run.specs.Ran.{IsGenEnd, PrintsBy};

use crate::asking::ask_all;
use crate::ending::status_of;
use crate::loading::{loaded, print_loaded};
use fb_outside::{Sink, Trouble};
pub use laws::{the_commands_of_tables, the_hits_of_tables};
use statuses::Status;
use std::alloc::Global;
use std::sync::ledger::Ledger;
use steps::Steps;

/// Makes a table of so many records from a seed, builds its indexes by each specification in turn, asks the same of each, and
/// prints the replies.
pub fn run_gen<K: Sink, L: Ledger>(
    alloc: Global,
    rows: u32,
    seed: u64,
    out: &mut K,
    steps: &mut Steps<L>,
) -> Status
    requires some { 1 ≤ rows }
    requires few { rows ≤ 1000000 }

    // The reply is that of the commands in a world of their own. It is done but where printing failed or memory ran out.
    ensures reply { Replies (gen_outcome rows seed) result (K.written out.old) (K.written out.new) }
    ensures ends { IsGenEnd result }
    ensures print_cause { HasCause (K.faults out.old) (K.faults out.new) (result ≡ Status.SinkFault) }
{
    status_of(make_and_ask(alloc, rows, seed, out, steps))
}

fn make_and_ask<K: Sink, L: Ledger>(
    alloc: Global,
    rows: u32,
    seed: u64,
    out: &mut K,
    steps: &mut Steps<L>,
) -> Result<(), Trouble>
    requires some { 1 ≤ rows }
    requires few { rows ≤ 1000000 }
    ensures prints { PrintsBy (gen_outcome rows seed).text (K.written out.old) (K.written out.new) result }
    ensures print_cause { HasCause (K.faults out.old) (K.faults out.new) (IsErrOf result Trouble.Failed) }
{
    let mut store = loaded(alloc, rows, seed, steps)?;
    print_loaded(alloc, out, rows)?;
    ask_all(alloc, &mut store, out, steps)
}
