//! Candidates of a column of numbers or codes, which are read.

ghost use Rattle.std.specs.Prelude.{◌≡◌, ◌+◌, ◌^◌, ◌<◌, ◌≤◌, ◌++◌, ℤ, List, IfErr, IfOk, IsErrOf, IsSome, OnOk, drop, length, map, take};
ghost use Rattle.fb_outside.specs.Causes.{HasCause};
ghost use Rattle.fb_outside.specs.Files.{SameFiles};
ghost use Rattle.fb_outside.specs.Reads.{AddsOnly, AddsRead};
ghost use Rattle.fb_types.specs.Types.{width_of};
ghost use Rattle.wah_words.specs.Places.{places};
ghost use Rattle.wah_words.specs.Spelling.{words_of};
ghost use Rattle.wah_logic.specs.Logic.{and, each_place};
ghost use Rattle.binning.specs.Spans.{has};
ghost use Rattle.candidates.specs.Blocks.{blocks_of};
ghost use Rattle.candidates.specs.Faults.{IsOfOutside, StoreFailed};
ghost use Rattle.candidates.specs.Numbers.{HasNumbers, StopsNumbers, numbers_look};
ghost use Rattle.candidates.specs.Reads.{AddsAll, IsBlockLook};

use crate::fault::FindFault;
use crate::found::Found;
use crate::walk::{Rows, find};
use binning::Spans;
use column_file::{ColFault, ColumnRef, read_rows};
use fb_outside::Store;
use std::alloc::Global;
use std::sync::ledger::Ledger;
use steps::Steps;
use wah_words::Wah;

/// On which candidates the spans have the number, or the code, of the row. Neighbouring candidates are read at once, in
/// blocks of at most 4,096, and no other row is read.
pub fn numbers_found<S: Store, L: Ledger>(
    alloc: Global,
    store: &mut S,
    column: &ColumnRef,
    spans: &Spans,
    candidates: &Wah,
    steps: &mut Steps<L>,
) -> Result<Wah, FindFault>
    requires width { IsSome (width_of column.now.ty) }
    requires rows { length candidates.now ≡ column.now.rows }
    ensures cause { HasCause (S.faults store.old) (S.faults store.new) (IsErrOf result (FindFault.Values ColFault.Store)) }
    ensures files { SameFiles (S.files store.old) (S.files store.new) }
    ensures stop { IfErr result (StopsNumbers (S.files store.old) column.now) }
    ensures length { IfOk result (λ v. length v ≡ length candidates.now) }

    // Where the values file has numbers.
    ensures found { IfOk result (λ v. (numbers : List ℤ) → HasNumbers (S.files store.old) column.now numbers
        → v ≡ each_place and candidates.now (map (has spans.now) numbers)) }
    ensures whole { IfErr result (λ fault. (numbers : List ℤ) → HasNumbers (S.files store.old) column.now numbers → IsOfOutside fault) }

    // Each read is of a block of candidates; once the walk is done, the blocks of each run were read, in order, each once.
    ensures reads { AddsOnly (IsBlockLook (numbers_look column.now) candidates.now) (S.reads store.old) (S.reads store.new) }
    ensures each { OnOk result (AddsAll (S.files store.old) (S.reads store.old) (S.reads store.new)
        (map (numbers_look column.now) (blocks_of candidates.now))) }
    ensures steps { steps.new ≤ steps.old + words_of candidates.now }
{
    find(alloc, store, &Numbers { column, spans }, candidates, steps)
}

/// An open column of numbers or codes, and the spans in which they have to be.
#[derive(Drop)]
pub(crate) struct Numbers<'a> {
    column: &'a ColumnRef,
    spans: &'a Spans,
    ghost width: { IsSome (width_of column.now.ty) },
}

impl<'a> Rows for Numbers<'a> {
    ghost use Rattle.std.specs.Prelude.{true};
    ghost use Rattle.candidates.specs.Numbers.{AreNumberTests, StopsNumbers, numbers_look};

    ghost rows = { λ n. n.column.now.rows };

    ghost tests = { λ n files all. AreNumberTests files n.column.now n.spans.now all };

    ghost look = { λ n. numbers_look n.column.now };

    ghost takes_read = { λ n rows. true };

    ghost stops = { λ n files. StopsNumbers files n.column.now };

    ghost memory = { λ n files. tt };

    fn test<S: Store>(
        &self,
        _alloc: Global,
        store: &mut S,
        first: u32,
        past: u32,
        block: &mut [i128],
        found: &mut Found,
    ) -> Result<(), FindFault> {
        let numbers = &mut block[..(past - first) as usize];
        read_block(store, self.column, first, numbers)?;
        push_tests(numbers, self.spans, found);
        Ok(())
    }
}

/// Fills the block with the numbers of the rows from the first on.
fn read_block<S: Store>(
    store: &mut S,
    column: &ColumnRef,
    first: u32,
    block: &mut [i128],
) -> Result<(), FindFault>
    requires width { IsSome (width_of column.now.ty) }
    requires rows { first + length block.old ≤ column.now.rows }
    requires few { length block.old ≤ 4096 }
    ensures cause { HasCause (S.faults store.old) (S.faults store.new) (StoreFailed result) }
    ensures files { SameFiles (S.files store.old) (S.files store.new) }
    ensures stop { IfErr result (StopsNumbers (S.files store.old) column.now) }
    ensures room { length block.new ≡ length block.old }
    ensures numbers { OnOk result ((numbers : List ℤ) → HasNumbers (S.files store.old) column.now numbers
        → block.new ≡ take (length block.old) (drop first numbers)) }
    ensures whole { IfErr result (λ fault. (numbers : List ℤ) → HasNumbers (S.files store.old) column.now numbers → IsOfOutside fault) }
    ensures read { AddsRead (S.files store.old) (S.reads store.old) (S.reads store.new) (numbers_look column.now (first, first + length block.old)) }
{
    match read_rows(store, column, first, block) {
        Ok(()) => Ok(()),
        Err(fault) => Err(FindFault::Values(fault)),
    }
}

/// Puts behind the rows that were seen whether each of these numbers is in the spans.
fn push_tests(numbers: &[i128], spans: &Spans, found: &mut Found)
    requires { length found.old.bits + length numbers.now ≤ found.old.rows }
    ensures bits { found.new.bits ≡ found.old.bits ++ map (has spans.now) numbers.now }
    ensures rows { found.new.rows ≡ found.old.rows }
{
    let mut rest = numbers;
    while rest.len() > 31 {
        let (group, later) = rest.split_at(31);
        found.push(marks(group, spans), 31);
        rest = later;
    }
    found.push(marks(rest, spans), rest.len() as u32);
}

/// The places of a number of which each is 1 where the number there is in the spans, the highest being the first.
#[inline(always)]
fn marks(numbers: &[i128], spans: &Spans) -> u32
    requires { length numbers.now ≤ 31 }
    ensures marks { places (length numbers.now) result ≡ map (has spans.now) numbers.now }
    ensures fits { result < 2 ^ length numbers.now }
{
    let mut word = 0;
    for number in numbers {
        word = 2 * word + spans.has(*number) as u32;
    }
    word
}
