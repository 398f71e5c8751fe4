//! The table that is made, and the line that tells it.

ghost use Rattle.std.specs.Prelude.{◌≡◌, ◌≤◌, IfOk, IsErrOf, string_bytes};
ghost use Rattle.fb_outside.specs.Causes.{HasCause};
ghost use Rattle.fb_outside.specs.Memory.{files_of};
ghost use Rattle.fb_outside.specs.Names.{IsPath};
ghost use Rattle.world.specs.Stands.{Stands};
ghost use Rattle.ardea.specs.Load.{loaded_line};
ghost use Rattle.gen_run.specs.Made.{made_world, table_path};
ghost use Rattle.gen_run.specs.Ran.{PrintsBy};

use crate::own::OwnStore;
use dataset::{AppendFault, append, create};
use fb_outside::{FileName, Sink, Trouble};
use generator::generate;
use std::alloc::{AllocError, Global};
use std::sync::ledger::Ledger;
use steps::Steps;
use world::files_without_datasets;

const ROWS_OF_PART: u32 = 250_000;

/// The path of the table.
#[tactic(auto, unfolding(crate::specs::Made::table_path))]
pub(crate) fn table_path(alloc: Global) -> Result<FileName, AllocError>
    ensures path { IfOk result (λ path. path ≡ table_path) }
    ensures valid { IsPath table_path }
{
    match FileName::from_str(alloc, "D")? {
        Some(path) => Ok(path),
        None => unreachable!(),
    }
}

/// A store that has the table of so many records from a seed, and nothing else.
pub(crate) fn loaded<L: Ledger>(
    alloc: Global,
    rows: u32,
    seed: u64,
    steps: &mut Steps<L>,
) -> Result<OwnStore, AllocError>
    requires some { 1 ≤ rows }
    requires few { rows ≤ 1000000 }
    ensures { IfOk result (λ store. Stands (files_of store) (made_world rows seed)) }
{
    let columns = generate(alloc, rows, seed)?;
    let schema = columns.schema().copy(alloc)?;
    let mut dataset = create(alloc, table_path(alloc)?, schema);
    let mut store = OwnStore::make(alloc)?;
    files_without_datasets();
    match append(
        alloc,
        &mut store,
        &mut dataset,
        &columns,
        ROWS_OF_PART,
        steps,
    ) {
        Ok(_) => Ok(store),
        Err(fault) => {
            // The load is taken, and the store doesn't fail.
            prove!(matches!(&fault, AppendFault::OutOfMemory));
            Err(AllocError)
        }
    }
}

/// Prints how many records were loaded.
pub(crate) fn print_loaded<K: Sink>(alloc: Global, out: &mut K, rows: u32) -> Result<(), Trouble>
    ensures prints { PrintsBy (loaded_line rows) (K.written out.old) (K.written out.new) result }
    ensures cause { HasCause (K.faults out.old) (K.faults out.new) (IsErrOf result Trouble.Failed) }
{
    let line = loaded_text(alloc, rows)?;
    out.put(line.as_bytes())
}

#[tactic(auto, unfolding(ardea::specs::Load::loaded_line))]
fn loaded_text(alloc: Global, rows: u32) -> Result<String, AllocError>
    ensures { IfOk result (λ line. string_bytes line ≡ loaded_line rows) }
{
    format!(in alloc; "loaded {rows} rows\n")
}
