//! The first stage of a condition by spans: what its column's bins say of it, before any value is read.

ghost use Rattle.std.specs.Prelude.{◌≡◌, ◌+◌, ◌*◌, ◌≤◌, IfErr, IfOk, IfSome, IsOk, Ok, Some, if◌then◌else◌, length, map};
ghost use Rattle.fb_outside.specs.Causes.{HasCause};
ghost use Rattle.fb_outside.specs.Files.{SameFiles, file_at};
ghost use Rattle.fb_outside.specs.Reads.{AddsOnly, AddsReads};
ghost use Rattle.wah_logic.specs.Logic.{groups_and_rest};
ghost use Rattle.binning.specs.Against.{against};
ghost use Rattle.binning.specs.Spans.{int_le};
ghost use Rattle.binning.specs.declared.against_bins.Three.TheVariants as three;
ghost use Rattle.stages.specs.Faults.{IsRefused};
ghost use Rattle.stages.specs.Looks.{AddsLooks};
ghost use Rattle.three_valued.specs.Rows.{each_row};
ghost use Rattle.where_plan.specs.declared.plan.PlanAtom.TheVariants as atom;
ghost use Rattle.part_meaning.specs.Bitmaps.{bitmap_looks, work_of};
ghost use Rattle.part_meaning.specs.Columns.{PartColumn, ends_in, present_rows};
ghost use Rattle.part_meaning.specs.Files.{is_bitmap_of, is_free_of};
ghost use Rattle.part_meaning.specs.Known.{known};
ghost use Rattle.bin_answers.specs.Fetched.{IsFrontOf};
ghost use Rattle.index_file.specs.Opening.{index_in};
ghost use Rattle.two_stage.specs.ColumnFiles.{HasColumn};
ghost use Rattle.two_stage.specs.Faults.{IsOfStore, IsOutside, StopsAt};
ghost use Rattle.two_stage.specs.Opened.{head_said};
ghost use Rattle.two_stage.specs.Placed.{IsColumnLook, index_file};

use crate::fault::{EvalFault, of_bins};
use crate::placed::PlacedColumn;
use bin_answers::OpenIndex;
use binning::{Span, Spans, Three, against};
use fb_outside::Store;
use std::alloc::{AllocError, Global};
use std::sync::ledger::Ledger;
use steps::Steps;
use three_valued::Answers;
use wah_words::Wah;

/// What a bin of all rows that have a value says of spans, where its values lie between these ends. Without a number there no
/// row has a value.
fn whole_answer(ends: Span, spans: &Spans) -> Three
    ensures { result ≡ (if int_le ends.least ends.greatest then against ends.least ends.greatest spans.now else three.No) }
{
    if ends.least <= ends.greatest {
        against(ends.least, ends.greatest, spans)
    } else {
        Three::No
    }
}

/// The same answer on each row that has a value, and No on the others. It costs no step.
fn answers_of(alloc: Global, answer: Three, mask: Wah) -> Result<Answers, AllocError>
    ensures { IfOk result (λ a. a ≡ map (λ b. if b then answer else three.No) mask) }
{
    match answer {
        Three::Yes => Ok(Answers::known(mask)),
        Three::No => Answers::uniform(alloc, false, mask.len()),
        Three::Unknown => Answers::unknown_on(alloc, mask),
    }
}

/// What is known of a condition by spans on a column of numbers or codes, whose values lie between these ends, where the mask
/// is open.
pub(crate) fn settle_spans<S: Store, L: Ledger>(
    alloc: Global,
    store: &mut S,
    placed: &PlacedColumn,
    mask: Wah,
    spans: &Spans,
    ends: Span,
    steps: &mut Steps<L>,
) -> Result<Answers, EvalFault>
    requires { length mask ≡ placed.now.rows }
    ensures cause { HasCause (S.faults store.old) (S.faults store.new) (IsRefused result IsOfStore) }
    ensures files { SameFiles (S.files store.old) (S.files store.new) }
    ensures stop { IfErr result (StopsAt (S.files store.old) placed.now) }
    ensures looks { AddsOnly (IsColumnLook placed.now) (S.reads store.old) (S.reads store.new) }
    ensures length { IfOk result (λ a. length a ≡ placed.now.rows) }

    // Where the files are those of a column with this mask and these ends.
    ensures answers { IfOk result (λ a. (column : PartColumn) → HasColumn (S.files store.old) placed.now column → mask ≡ present_rows column
        → ends ≡ ends_in column.ty column.cells
        → a ≡ each_row placed.now.rows (known column (atom.Whole placed.now.col spans.now))) }
    ensures whole { IfErr result (λ fault. (column : PartColumn) → HasColumn (S.files store.old) placed.now column → mask ≡ present_rows column
        → IsOutside fault) }
    ensures reads { (column : PartColumn) → HasColumn (S.files store.old) placed.now column → mask ≡ present_rows column
        → AddsLooks (S.reads store.old) (S.reads store.new) (is_free_of placed.now.dir placed.now.number column)
        (is_bitmap_of placed.now.dir placed.now.number column)
        (bitmap_looks placed.now.dir placed.now.number column (atom.Whole placed.now.col spans.now)) (IsOk result) }
    ensures steps { (column : PartColumn) → HasColumn (S.files store.old) placed.now column → mask ≡ present_rows column
        → steps.new ≤ steps.old + 2 * groups_and_rest placed.now.rows * work_of column (atom.Whole placed.now.col spans.now) }
{
    match placed.index(alloc, store)? {
        Some(head) => {
            let index = OpenIndex { head, mask };
            settle_bins(alloc, store, placed, &index, spans, steps)
        }
        None => Ok(answers_of(alloc, whole_answer(ends, spans), mask)?),
    }
}

/// The same of a column with an index, which is open.
fn settle_bins<S: Store, L: Ledger>(
    alloc: Global,
    store: &mut S,
    placed: &PlacedColumn,
    index: &OpenIndex,
    spans: &Spans,
    steps: &mut Steps<L>,
) -> Result<Answers, EvalFault>
    requires name { index.now.head.name ≡ index_file placed.now }
    requires rows { index.now.head.rows ≡ placed.now.rows }
    requires opened { IfSome (S.files store.old) (λ m. index_in placed.now.rows (file_at m (index_file placed.now)) ≡ Ok (Some (head_said index.now.head))) }
    ensures cause { HasCause (S.faults store.old) (S.faults store.new) (IsRefused result IsOfStore) }
    ensures files { SameFiles (S.files store.old) (S.files store.new) }
    ensures stop { IfErr result (StopsAt (S.files store.old) placed.now) }
    ensures looks { AddsOnly (IsColumnLook placed.now) (S.reads store.old) (S.reads store.new) }
    ensures length { IfOk result (λ a. length a ≡ placed.now.rows) }

    // Where the files are those of a column with this mask.
    ensures answers { IfOk result (λ a. (column : PartColumn) → HasColumn (S.files store.old) placed.now column
        → index.now.mask ≡ present_rows column
        → a ≡ each_row placed.now.rows (known column (atom.Whole placed.now.col spans.now))) }
    ensures whole { IfErr result (λ fault. (column : PartColumn) → HasColumn (S.files store.old) placed.now column
        → index.now.mask ≡ present_rows column → IsOutside fault) }
    ensures reads { (column : PartColumn) → HasColumn (S.files store.old) placed.now column
        → AddsReads (S.reads store.old) (S.reads store.new)
        (IsFrontOf (bitmap_looks placed.now.dir placed.now.number column (atom.Whole placed.now.col spans.now)) (IsOk result)) }
    ensures steps { (column : PartColumn) → HasColumn (S.files store.old) placed.now column
        → steps.new ≤ steps.old + 2 * groups_and_rest placed.now.rows * work_of column (atom.Whole placed.now.col spans.now) }
{
    match index.settle(alloc, store, spans, steps) {
        Ok(answers) => Ok(answers),
        Err(fault) => Err(of_bins(placed.col, fault)),
    }
}
