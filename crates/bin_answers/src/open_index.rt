//! What the bins of an open index say of a condition, by the bitmaps that the runs of these bins need.

ghost use Rattle.std.specs.Prelude.{◌≡◌, ◌+◌, ◌*◌, ◌<◌, ◌≤◌, All, IfErr, IfOk, IsErrOf, IsOk, List, [], ◌∷◌, length, map};
ghost use Rattle.fb_outside.specs.Causes.{HasCause};
ghost use Rattle.fb_outside.specs.Files.{SameFiles};
ghost use Rattle.fb_outside.specs.Reads.{AddsOnly};
ghost use Rattle.wah_logic.specs.Logic.{groups_and_rest};
ghost use Rattle.index_spec.specs.Members.{needed};
ghost use Rattle.index_file.specs.declared.fault.IndexFault.{IndexFault};
ghost use Rattle.binning.specs.Encodings.{vectors};
ghost use Rattle.binning.specs.Members.{bitmap, in_run, union_of};
ghost use Rattle.binning.specs.declared.against_bins.Three.{Three};
ghost use Rattle.binning.specs.declared.gathering.Bin.{Bin};
ghost use Rattle.three_valued.specs.Rows.{each_row};
ghost use Rattle.bin_answers.specs.Bins.{bin_answer, rows_of_runs};
ghost use Rattle.bin_answers.specs.Fetched.{Fetches, HasBins, IsOutside, Tells, needed_by, needed_on, runs_on};

use crate::bin_runs::{BinRun, bin_runs};
use crate::fault::{BinsFault, of_index};
use crate::lists::keep;
use crate::run_rows::RunRows;
use binning::{Encoding, Spans};
use enc_two_level::AnyEncoding;
use fb_outside::Store;
use index_file::{IndexHead, fetch};
use std::alloc::Global;
use std::sync::ledger::Ledger;
use steps::Steps;
use three_valued::Answers;
use wah_words::Wah;

/// The index of a column, open: its head, and the rows that have a value.
#[derive(Drop)]
pub struct OpenIndex {
    pub head: IndexHead,
    pub mask: Wah,
    ghost long: { length mask ≡ head.rows },
}

impl OpenIndex {
    /// What is known of a condition by spans on each row: what the row's bin says. The bitmaps that the runs of bins need are
    /// read in their order, each once.
    pub fn settle<S: Store, L: Ledger>(
        &self,
        alloc: Global,
        store: &mut S,
        spans: &Spans,
        steps: &mut Steps<L>,
    ) -> Result<Answers, BinsFault>
        ensures cause { HasCause (S.faults store.old) (S.faults store.new) (IsErrOf result (BinsFault.Index IndexFault.Store)) }
        ensures files { SameFiles (S.files store.old) (S.files store.new) }
        ensures exact { Tells (S.files store.old) self.now.head (needed_on self.now.head spans.now) result }
        ensures reads { Fetches (S.files store.old) (S.reads store.old) (S.reads store.new) self.now.head (needed_on self.now.head spans.now) (IsOk result) }
        ensures looks { AddsOnly (λ look. look.name ≡ self.now.head.name) (S.reads store.old) (S.reads store.new) }
        ensures length { IfOk result (λ a. length a ≡ length self.now.mask) }
        ensures steps { steps.new ≤ steps.old + 2 * groups_and_rest (length self.now.mask)
            * (4 * (length (needed_on self.now.head spans.now) + length (runs_on self.now.head spans.now))) }

        // Where the file has the bitmaps of some bins.
        ensures answers { IfOk result (λ a. (bins : List Bin) → HasBins (S.files store.old) self.now.head self.now.mask bins
            → a ≡ each_row (length self.now.mask) (bin_answer spans.now bins)) }
        ensures whole { IfErr result (λ fault. (bins : List Bin) → HasBins (S.files store.old) self.now.head self.now.mask bins → IsOutside fault) }
    {
        let runs = bin_runs(alloc, self.head.bins.as_slice(), spans)?;
        let found = self.rows_of_all(alloc, store, &runs, steps)?;
        let answers = found.answers(alloc, self.mask.len(), steps)?;
        Ok(answers)
    }

    /// The rows of runs of bins, by the answer of each run.
    fn rows_of_all<S: Store, L: Ledger>(
        &self,
        alloc: Global,
        store: &mut S,
        runs: &[BinRun],
        steps: &mut Steps<L>,
    ) -> Result<RunRows, BinsFault>
        requires { All (λ r. (r.first < r.past) × (r.past ≤ length self.now.head.bins)) runs.now }
        ensures cause { HasCause (S.faults store.old) (S.faults store.new) (IsErrOf result (BinsFault.Index IndexFault.Store)) }
        ensures files { SameFiles (S.files store.old) (S.files store.new) }
        ensures exact { Tells (S.files store.old) self.now.head (needed_by self.now.head runs.now) result }
        ensures reads { Fetches (S.files store.old) (S.reads store.old) (S.reads store.new) self.now.head (needed_by self.now.head runs.now) (IsOk result) }
        ensures looks { AddsOnly (λ look. look.name ≡ self.now.head.name) (S.reads store.old) (S.reads store.new) }
        ensures definite_long { IfOk result (λ found. All (λ v. length v ≡ length self.now.mask) found.definite.items) }
        ensures unknown_long { IfOk result (λ found. All (λ v. length v ≡ length self.now.mask) found.unknown.items) }
        ensures count { IfOk result (λ found. length found.definite.items + length found.unknown.items ≤ length runs.now) }
        ensures steps { steps.new ≤ steps.old + 2 * groups_and_rest (length self.now.mask) * (length (needed_by self.now.head runs.now) + 2 * length runs.now) }
        ensures definite { IfOk result (λ found. (bins : List Bin) → HasBins (S.files store.old) self.now.head self.now.mask bins
            → found.definite.items ≡ rows_of_runs (length self.now.mask) bins Three.Yes runs.now) }
        ensures unknown { IfOk result (λ found. (bins : List Bin) → HasBins (S.files store.old) self.now.head self.now.mask bins
            → found.unknown.items ≡ rows_of_runs (length self.now.mask) bins Three.Unknown runs.now) }
    {
        let mut found = RunRows {
            definite: Vec::new(alloc),
            unknown: Vec::new(alloc),
        };
        for run in runs {
            let rows = self.rows_of(alloc, store, *run, steps)?;
            found.add(run.answer, rows)?;
        }
        Ok(found)
    }

    /// The rows of the bins of a run.
    fn rows_of<S: Store, L: Ledger>(
        &self,
        alloc: Global,
        store: &mut S,
        run: BinRun,
        steps: &mut Steps<L>,
    ) -> Result<Wah, BinsFault>
        requires order { run.first < run.past }
        requires within { run.past ≤ length self.now.head.bins }
        ensures cause { HasCause (S.faults store.old) (S.faults store.new) (IsErrOf result (BinsFault.Index IndexFault.Store)) }
        ensures files { SameFiles (S.files store.old) (S.files store.new) }
        ensures exact { Tells (S.files store.old) self.now.head (needed_by self.now.head (run ∷ [])) result }
        ensures reads { Fetches (S.files store.old) (S.reads store.old) (S.reads store.new) self.now.head (needed_by self.now.head (run ∷ [])) (IsOk result) }
        ensures looks { AddsOnly (λ look. look.name ≡ self.now.head.name) (S.reads store.old) (S.reads store.new) }
        ensures length { IfOk result (λ v. length v ≡ length self.now.mask) }
        ensures steps { steps.new ≤ steps.old + 2 * groups_and_rest (length self.now.mask) * (length (needed_by self.now.head (run ∷ [])) + 2) }
        ensures rows { IfOk result (λ v. (bins : List Bin) → HasBins (S.files store.old) self.now.head self.now.mask bins
            → v ≡ union_of (length self.now.mask) (in_run run.first run.past) (vectors bins)) }
    {
        let encoding = AnyEncoding::of(&self.head.spec.encoding);
        let bins = self.head.bins.as_slice().len() as u32;
        let numbers = encoding.needs(alloc, bins, run.first, run.past)?;
        let fetched = self.fetch_all(alloc, store, &numbers)?;
        let rows = encoding.eval(
            alloc, bins, run.first, run.past, &fetched, &self.mask, steps,
        )?;
        Ok(rows)
    }

    /// The bitmaps of these numbers, in order.
    fn fetch_all<S: Store>(
        &self,
        alloc: Global,
        store: &mut S,
        numbers: &[u32],
    ) -> Result<Vec<Wah>, BinsFault>
        requires { All (λ k. k + 1 < length self.now.head.offsets) numbers.now }
        ensures cause { HasCause (S.faults store.old) (S.faults store.new) (IsErrOf result (BinsFault.Index IndexFault.Store)) }
        ensures files { SameFiles (S.files store.old) (S.files store.new) }
        ensures exact { Tells (S.files store.old) self.now.head numbers.now result }
        ensures reads { Fetches (S.files store.old) (S.reads store.old) (S.reads store.new) self.now.head numbers.now (IsOk result) }
        ensures looks { AddsOnly (λ look. look.name ≡ self.now.head.name) (S.reads store.old) (S.reads store.new) }
        ensures count { IfOk result (λ all. length all.items ≡ length numbers.now) }
        ensures long { IfOk result (λ all. All (λ v. length v ≡ length self.now.mask) all.items) }
        ensures bitmaps { IfOk result (λ all. (bins : List Bin) → HasBins (S.files store.old) self.now.head self.now.mask bins
            → all.items ≡ map (bitmap self.now.head.spec.encoding (length self.now.mask) (vectors bins)) numbers.now) }
    {
        let mut all = Vec::with_capacity(alloc, numbers.len())?;
        for k in numbers {
            let bitmap = self.fetch_one(alloc, store, *k)?;
            keep(&mut all, bitmap)?;
        }
        Ok(all)
    }

    /// The bitmap of a number.
    fn fetch_one<S: Store>(&self, alloc: Global, store: &mut S, k: u32) -> Result<Wah, BinsFault>
        requires { k + 1 < length self.now.head.offsets }
        ensures cause { HasCause (S.faults store.old) (S.faults store.new) (IsErrOf result (BinsFault.Index IndexFault.Store)) }
        ensures files { SameFiles (S.files store.old) (S.files store.new) }
        ensures exact { Tells (S.files store.old) self.now.head (k ∷ []) result }
        ensures reads { Fetches (S.files store.old) (S.reads store.old) (S.reads store.new) self.now.head (k ∷ []) (IsOk result) }
        ensures looks { AddsOnly (λ look. look.name ≡ self.now.head.name) (S.reads store.old) (S.reads store.new) }
        ensures length { IfOk result (λ v. length v ≡ length self.now.mask) }
        ensures bitmap { IfOk result (λ v. (bins : List Bin) → HasBins (S.files store.old) self.now.head self.now.mask bins
            → v ≡ bitmap self.now.head.spec.encoding (length self.now.mask) (vectors bins) k) }
    {
        match fetch(alloc, store, &self.head, k) {
            Ok(bitmap) => Ok(bitmap),
            Err(fault) => Err(of_index(fault)),
        }
    }
}
