//! The command `ardea`: records of the input, or of a file, into a dataset.
#![tactic(auto)]

mod adding;
mod laws;
mod reading;

ghost use Rattle.std.specs.Prelude.{◌≡◌, true, false, None, IsErrOf, OnOk};
ghost use Rattle.fb_outside.specs.Causes.{HasCause};
ghost use Rattle.fb_outside.specs.Reads.{AddsOnly};
ghost use Rattle.fb_outside.specs.Streams.{ForSomeInput, IsAtEnd};
ghost use Rattle.command_words.specs.Valid.{IsValidLoad};
ghost use Rattle.ardea.specs.Done.{Ends};
ghost use Rattle.ardea.specs.Looks.{IsLoadLook};
ghost use Rattle.ardea.specs.Order.{load_asks_store, load_takes_input};

use crate::adding::{add, dataset_of};
use crate::reading::table_of;
use command_words::Load;
use fb_outside::{Source, Store};
pub use laws::the_load_in_a_world;
use statuses::Stop;
use std::alloc::Global;
use std::sync::ledger::Ledger;
use steps::Steps;

/// The most rows that a part may have.
pub const MOST_ROWS: u64 = 4_194_304;

/// The most bytes that a load takes.
pub const MOST_INPUT_BYTES: u64 = 67_108_864;

/// Loads the records of the file that the load names, else of the input, into the dataset at its path, which is made
/// where there is none, and answers how many records there are. Nothing is written unless the whole load is good; the
/// catalog is written last.
pub fn load<I: Source, S: Store, L: Ledger>(
    alloc: Global,
    load: &Load,
    input: &mut I,
    store: &mut S,
    steps: &mut Steps<L>,
) -> Result<u64, Stop>
    requires valid { IsValidLoad load.now }
    ensures read_cause { HasCause (I.faults input.old) (I.faults input.new) (IsErrOf result Stop.ReadFault) }
    ensures store_cause { HasCause (S.faults store.old) (S.faults store.new) (IsErrOf result Stop.StoreFault) }
    ensures end { load.now.file ≡ None → OnOk result (IsAtEnd (I.left input.new)) }
    ensures reads { AddsOnly (IsLoadLook load.now) (S.reads store.old) (S.reads store.new) }
    ensures ends { Ends load.now (I.left input.old) (S.files store.old) (S.files store.new) result }

    // The input is asked for where the schema isn't refused, and the store where the records aren't; for a file that the
    // load names the store is asked where the schema isn't refused.
    ensures asks_input { IsErrOf result Stop.ReadFault → load_takes_input load.now ≡ true }
    ensures asks_store { IsErrOf result Stop.StoreFault
        → ForSomeInput (I.left input.old) (λ bytes. load_asks_store load.now bytes ≡ true) }
    ensures untouched { load_takes_input load.now ≡ false
        → (I.left input.new ≡ I.left input.old) × (I.faults input.new ≡ I.faults input.old) }
{
    let columns = table_of(alloc, load, input, store)?;
    let mut dataset = dataset_of(alloc, &load.dir, columns.schema(), store)?;
    let per_part = load.per_part as u32;
    add(alloc, store, &mut dataset, &columns, per_part, steps)?;
    Ok(columns.rows())
}
