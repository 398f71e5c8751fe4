//! The walk over candidates: their values are read in runs of neighbours, and tested.

ghost use Rattle.std.specs.Prelude.{◌≡◌, ◌+◌, ◌-◌, ◌<◌, ◌≤◌, ◌++◌, ◌∷◌, [], List, Bool, IfErr, IfOk, OnOk, drop, length, take};
ghost use Rattle.fb_outside.specs.Causes.{HasCause};
ghost use Rattle.fb_outside.specs.Files.{SameFiles};
ghost use Rattle.fb_outside.specs.Reads.{AddsOnly};
ghost use Rattle.wah_logic.specs.Logic.{and, each_place};
ghost use Rattle.wah_words.specs.Spelling.{words_of};
ghost use Rattle.candidates.specs.Blocks.{blocks_of, blocks_of_run};
ghost use Rattle.candidates.specs.Faults.{IsOfOutside, StoreFailed};
ghost use Rattle.candidates.specs.Reads.{AddsAll, IsBlockLook, IsPartLook, reads_of};

use crate::fault::FindFault;
use crate::found::Found;
use column_file::MAX_ROWS_READ;
use fb_outside::Store;
use std::alloc::Global;
use std::sync::ledger::Ledger;
use steps::Steps;
use wah_iter::row_runs;
use wah_words::Wah;

/// The rows of an open column, whose values are read and tested.
pub(crate) trait Rows {
    ghost use Rattle.std.specs.Prelude.{ℕ, Bool, List, Option};
    ghost use Rattle.fb_outside.specs.Files.{Files};
    ghost use Rattle.fb_outside.specs.Reads.{Look};
    ghost use Rattle.candidates.specs.declared.fault.FindFault.{FindFault};
    ghost use Rattle.candidates.specs.declared.fault.FindFault.TheVariants.{OutOfMemory};

    // How many rows there are.
    ghost rows: { Self → ℕ };

    // Over these files, whether each row's value passes.
    ghost tests: { Self → Option Files → List Bool → Type 0 };

    // The read of the rows from one up to another.
    ghost look: { Self → ℕ × ℕ → Look };

    // Whether these rows take a read.
    ghost takes_read: { Self → ℕ × ℕ → Bool };

    // What a fault says of the files.
    ghost stops: { Self → Option Files → FindFault → Type 0 };

    /// Reads neighbouring rows at once, numbers into the block, and puts behind the rows that were seen whether each passes.
    fn test<S: Store>(
        &self,
        alloc: Global,
        store: &mut S,
        first: u32,
        past: u32,
        block: &mut [i128],
        found: &mut Found,
    ) -> Result<(), FindFault>
        requires some { first < past }
        requires few { past ≤ first + 4096 }
        requires within { past ≤ rows self.now }
        requires block { length block.old ≡ 4096 }
        requires place { length found.old.bits ≡ first }
        requires room { past ≤ found.old.rows }
        ensures cause { HasCause (S.faults store.old) (S.faults store.new) (StoreFailed result) }
        ensures files { SameFiles (S.files store.old) (S.files store.new) }
        ensures stop { IfErr result (stops self.now (S.files store.old)) }
        ensures block { length block.new ≡ length block.old }
        ensures rows { found.new.rows ≡ found.old.rows }
        ensures seen { OnOk result (length found.new.bits ≡ past) }
        ensures found { OnOk result ((all : List Bool) → tests self.now (S.files store.old) all
            → found.new.bits ≡ found.old.bits ++ take (past - first) (drop first all)) }
        ensures whole { IfErr result (λ fault. (all : List Bool) → tests self.now (S.files store.old) all → IsOfOutside fault) }
        ensures reads { AddsOnly (λ read. read ≡ look self.now (first, past)) (S.reads store.old) (S.reads store.new) }
        ensures each { OnOk result (AddsAll (S.files store.old) (S.reads store.old) (S.reads store.new)
            (reads_of (look self.now) (takes_read self.now) ((first, past) ∷ []))) };

    // Want of memory may stop any.
    ghost memory: { (values : Self) (files : Option Files) → stops values files OutOfMemory };
}

/// On which candidates the values pass. Neighbouring candidates are read at once, at most 4,096 of them, and no other row is.
pub(crate) fn find<S: Store, R: Rows, L: Ledger>(
    alloc: Global,
    store: &mut S,
    values: &R,
    candidates: &Wah,
    steps: &mut Steps<L>,
) -> Result<Wah, FindFault>
    requires { length candidates.now ≡ R.rows values.now }
    ensures cause { HasCause (S.faults store.old) (S.faults store.new) (StoreFailed result) }
    ensures files { SameFiles (S.files store.old) (S.files store.new) }
    ensures stop { IfErr result (R.stops values.now (S.files store.old)) }
    ensures length { IfOk result (λ v. length v ≡ length candidates.now) }
    ensures found { IfOk result (λ v. (all : List Bool) → R.tests values.now (S.files store.old) all → length all ≡ length candidates.now
        → v ≡ each_place and candidates.now all) }
    ensures whole { IfErr result (λ fault. (all : List Bool) → R.tests values.now (S.files store.old) all → IsOfOutside fault) }
    ensures reads { AddsOnly (IsBlockLook (R.look values.now) candidates.now) (S.reads store.old) (S.reads store.new) }
    ensures each { OnOk result (AddsAll (S.files store.old) (S.reads store.old) (S.reads store.new)
        (reads_of (R.look values.now) (R.takes_read values.now) (blocks_of candidates.now))) }
    ensures steps { steps.new ≤ steps.old + words_of candidates.now }
{
    let mut block = [0; MAX_ROWS_READ];
    let mut found = Found::make(alloc, candidates.len())?;
    let mut runs = row_runs(candidates);
    while let Some((first, past)) = runs.advance(steps) {
        found.skip_to(first);
        test_run(alloc, store, values, first, past, &mut block, &mut found)?;
    }
    Ok(found.finish())
}

/// Reads and tests a run of candidates, block by block.
fn test_run<S: Store, R: Rows>(
    alloc: Global,
    store: &mut S,
    values: &R,
    first: u32,
    past: u32,
    block: &mut [i128],
    found: &mut Found,
) -> Result<(), FindFault>
    requires some { first < past }
    requires within { past ≤ R.rows values.now }
    requires block { length block.old ≡ 4096 }
    requires place { length found.old.bits ≡ first }
    requires room { past ≤ found.old.rows }
    ensures cause { HasCause (S.faults store.old) (S.faults store.new) (StoreFailed result) }
    ensures files { SameFiles (S.files store.old) (S.files store.new) }
    ensures stop { IfErr result (R.stops values.now (S.files store.old)) }
    ensures block { length block.new ≡ length block.old }
    ensures rows { found.new.rows ≡ found.old.rows }
    ensures seen { OnOk result (length found.new.bits ≡ past) }
    ensures found { OnOk result ((all : List Bool) → R.tests values.now (S.files store.old) all
        → found.new.bits ≡ found.old.bits ++ take (past - first) (drop first all)) }
    ensures whole { IfErr result (λ fault. (all : List Bool) → R.tests values.now (S.files store.old) all → IsOfOutside fault) }
    ensures reads { AddsOnly (IsPartLook (R.look values.now) first past) (S.reads store.old) (S.reads store.new) }
    ensures each { OnOk result (AddsAll (S.files store.old) (S.reads store.old) (S.reads store.new)
        (reads_of (R.look values.now) (R.takes_read values.now) (blocks_of_run (first, past)))) }
{
    let mut at = first;
    while at < past {
        let end = block_end(at, past);
        values.test(alloc, store, at, end, block, found)?;
        at = end;
    }
    Ok(())
}

/// Where the block of rows ends that begins at a row, of rows before `past`.
fn block_end(at: u32, past: u32) -> u32
    requires { at < past }
    ensures some { at < result }
    ensures few { result ≤ at + 4096 }
    ensures within { result ≤ past }
    ensures full { result < past → result ≡ at + 4096 }
{
    if past - at > MAX_ROWS_READ as u32 {
        at + MAX_ROWS_READ as u32
    } else {
        past
    }
}
