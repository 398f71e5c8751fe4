//! The first stage of a condition, by what it asks of its column: numbers, words, texts, or whether there is a value.

ghost use Rattle.std.specs.Prelude.{◌≡◌, ◌+◌, ◌*◌, ◌≤◌, IfErr, IfOk, IsOk, IsSome, length};
ghost use Rattle.fb_outside.specs.Causes.{HasCause};
ghost use Rattle.fb_outside.specs.Files.{SameFiles};
ghost use Rattle.fb_outside.specs.Reads.{AddsOnly};
ghost use Rattle.fb_types.specs.Types.{ends_of};
ghost use Rattle.fb_types.specs.declared.types.ColType.TheVariants as column_type;
ghost use Rattle.wah_logic.specs.Logic.{groups_and_rest};
ghost use Rattle.stages.specs.Faults.{IsRefused};
ghost use Rattle.stages.specs.Looks.{AddsLooks};
ghost use Rattle.three_valued.specs.Rows.{each_row};
ghost use Rattle.where_grammar.specs.declared.clause.Atom.{Atom};
ghost use Rattle.where_plan.specs.Sorts.{sort_of};
ghost use Rattle.where_plan.specs.declared.plan.PlanAtom.TheVariants as atom;
ghost use Rattle.where_plan.specs.declared.sorts.Sort.TheVariants as sort;
ghost use Rattle.part_meaning.specs.Bitmaps.{bitmap_looks, work_of};
ghost use Rattle.part_meaning.specs.Columns.{PartColumn};
ghost use Rattle.part_meaning.specs.Files.{is_bitmap_of, is_free_of};
ghost use Rattle.part_meaning.specs.Known.{known};
ghost use Rattle.two_stage.specs.ColumnFiles.{HasColumn};
ghost use Rattle.two_stage.specs.Faults.{IsOfStore, IsOutside, StopsAt};
ghost use Rattle.two_stage.specs.Kept.{IsKeptOf};
ghost use Rattle.two_stage.specs.Placed.{IsColumnLook};

use crate::fault::EvalFault;
use crate::open_column::{OpenColumn, parted, parted_text};
use crate::placed::PlacedColumn;
use crate::settling::settle_spans;
use binning::{Span, Spans};
use fb_outside::Store;
use stages::Settled;
use std::alloc::Global;
use std::sync::ledger::Ledger;
use steps::Steps;
use three_valued::Answers;
use where_grammar::Atom;
use where_plan::word_spans;

/// The first stage of a condition on whole numbers, by the spans that it asks for.
pub(crate) fn settle_numbers<S: Store, L: Ledger>(
    alloc: Global,
    store: &mut S,
    placed: &PlacedColumn,
    spans: &Spans,
    steps: &mut Steps<L>,
) -> Result<Settled<OpenColumn>, EvalFault>
    requires { IsSome (ends_of placed.now.column.ty) }
    ensures cause { HasCause (S.faults store.old) (S.faults store.new) (IsRefused result IsOfStore) }
    ensures files { SameFiles (S.files store.old) (S.files store.new) }
    ensures stop { IfErr result (StopsAt (S.files store.old) placed.now) }
    ensures looks { AddsOnly (IsColumnLook placed.now) (S.reads store.old) (S.reads store.new) }
    ensures kept { IfOk result (λ settled. IsKeptOf (S.files store.old) placed.now (atom.Whole placed.now.col spans.now) settled.column) }
    ensures length { IfOk result (λ settled. length settled.answers ≡ placed.now.rows) }

    // Where the files are those of a column.
    ensures answers { IfOk result (λ settled. (column : PartColumn) → HasColumn (S.files store.old) placed.now column
        → settled.answers ≡ each_row placed.now.rows (known column (atom.Whole placed.now.col spans.now))) }
    ensures whole { IfErr result (λ fault. (column : PartColumn) → HasColumn (S.files store.old) placed.now column → IsOutside fault) }
    ensures reads { (column : PartColumn) → HasColumn (S.files store.old) placed.now column
        → AddsLooks (S.reads store.old) (S.reads store.new) (is_free_of placed.now.dir placed.now.number column)
        (is_bitmap_of placed.now.dir placed.now.number column)
        (bitmap_looks placed.now.dir placed.now.number column (atom.Whole placed.now.col spans.now)) (IsOk result) }
    ensures steps { (column : PartColumn) → HasColumn (S.files store.old) placed.now column
        → steps.new ≤ steps.old + 2 * groups_and_rest placed.now.rows * work_of column (atom.Whole placed.now.col spans.now) }
{
    let Some((least, greatest)) = placed.column.ty.ends() else {
        unreachable!()
    };
    let (column, mask) = parted(alloc, placed.numbers(alloc, store)?)?;
    let ends = Span { least, greatest };
    let answers = settle_spans(alloc, store, placed, mask, spans, ends, steps)?;
    Ok(Settled {
        answers,
        column: OpenColumn::Numbers(column),
    })
}

/// The first stage of a condition on the words of a category, whose dictionary is read once.
pub(crate) fn settle_words<S: Store, L: Ledger>(
    alloc: Global,
    store: &mut S,
    placed: &PlacedColumn,
    condition: &Atom,
    steps: &mut Steps<L>,
) -> Result<Settled<OpenColumn>, EvalFault>
    requires category { placed.now.column.ty ≡ column_type.Category }
    requires words { sort_of condition.now ≡ sort.Text }
    ensures cause { HasCause (S.faults store.old) (S.faults store.new) (IsRefused result IsOfStore) }
    ensures files { SameFiles (S.files store.old) (S.files store.new) }
    ensures stop { IfErr result (StopsAt (S.files store.old) placed.now) }
    ensures looks { AddsOnly (IsColumnLook placed.now) (S.reads store.old) (S.reads store.new) }
    ensures kept { IfOk result (λ settled. IsKeptOf (S.files store.old) placed.now (atom.Word placed.now.col condition.now) settled.column) }
    ensures length { IfOk result (λ settled. length settled.answers ≡ placed.now.rows) }

    // Where the files are those of a column.
    ensures answers { IfOk result (λ settled. (column : PartColumn) → HasColumn (S.files store.old) placed.now column
        → settled.answers ≡ each_row placed.now.rows (known column (atom.Word placed.now.col condition.now))) }
    ensures whole { IfErr result (λ fault. (column : PartColumn) → HasColumn (S.files store.old) placed.now column → IsOutside fault) }
    ensures reads { (column : PartColumn) → HasColumn (S.files store.old) placed.now column
        → AddsLooks (S.reads store.old) (S.reads store.new) (is_free_of placed.now.dir placed.now.number column)
        (is_bitmap_of placed.now.dir placed.now.number column)
        (bitmap_looks placed.now.dir placed.now.number column (atom.Word placed.now.col condition.now)) (IsOk result) }
    ensures steps { (column : PartColumn) → HasColumn (S.files store.old) placed.now column
        → steps.new ≤ steps.old + 2 * groups_and_rest placed.now.rows * work_of column (atom.Word placed.now.col condition.now) }
{
    let (column, mask) = parted(alloc, placed.numbers(alloc, store)?)?;
    let words = placed.words(alloc, store)?;
    let spans = word_spans(alloc, condition, &words)?;
    let ends = Span {
        least: 1,
        greatest: i128::from(words.len()),
    };
    let answers = settle_spans(alloc, store, placed, mask, &spans, ends, steps)?;
    Ok(Settled {
        answers,
        column: OpenColumn::Codes(column, spans),
    })
}

/// The first stage of a condition on texts: nothing is known of one that is there.
pub(crate) fn settle_texts<S: Store>(
    alloc: Global,
    store: &mut S,
    placed: &PlacedColumn,
) -> Result<Settled<OpenColumn>, EvalFault>
    requires { placed.now.column.ty ≡ column_type.Text }
    ensures cause { HasCause (S.faults store.old) (S.faults store.new) (IsRefused result IsOfStore) }
    ensures files { SameFiles (S.files store.old) (S.files store.new) }
    ensures stop { IfErr result (StopsAt (S.files store.old) placed.now) }
    ensures looks { AddsOnly (IsColumnLook placed.now) (S.reads store.old) (S.reads store.new) }
    ensures kept { IfOk result (λ settled. (condition : Atom) → IsKeptOf (S.files store.old) placed.now (atom.Word placed.now.col condition) settled.column) }
    ensures length { IfOk result (λ settled. length settled.answers ≡ placed.now.rows) }

    // Where the files are those of a column.
    ensures answers { IfOk result (λ settled. (condition : Atom) (column : PartColumn) → HasColumn (S.files store.old) placed.now column
        → settled.answers ≡ each_row placed.now.rows (known column (atom.Word placed.now.col condition))) }
    ensures whole { IfErr result (λ fault. (column : PartColumn) → HasColumn (S.files store.old) placed.now column → IsOutside fault) }
    ensures reads { (condition : Atom) (column : PartColumn) → HasColumn (S.files store.old) placed.now column
        → AddsLooks (S.reads store.old) (S.reads store.new) (is_free_of placed.now.dir placed.now.number column)
        (is_bitmap_of placed.now.dir placed.now.number column)
        (bitmap_looks placed.now.dir placed.now.number column (atom.Word placed.now.col condition)) (IsOk result) }
{
    let (text, mask) = parted_text(alloc, placed.texts(alloc, store)?)?;
    let answers = Answers::unknown_on(alloc, mask)?;
    Ok(Settled {
        answers,
        column: OpenColumn::Texts(text),
    })
}

/// The first stage of the condition that there is a value, which the mask decides.
pub(crate) fn settle_exists<S: Store>(
    alloc: Global,
    store: &mut S,
    placed: &PlacedColumn,
) -> Result<Settled<OpenColumn>, EvalFault>
    ensures cause { HasCause (S.faults store.old) (S.faults store.new) (IsRefused result IsOfStore) }
    ensures files { SameFiles (S.files store.old) (S.files store.new) }
    ensures stop { IfErr result (StopsAt (S.files store.old) placed.now) }
    ensures looks { AddsOnly (IsColumnLook placed.now) (S.reads store.old) (S.reads store.new) }
    ensures kept { IfOk result (λ settled. IsKeptOf (S.files store.old) placed.now (atom.Exists placed.now.col) settled.column) }
    ensures length { IfOk result (λ settled. length settled.answers ≡ placed.now.rows) }

    // Where the files are those of a column.
    ensures answers { IfOk result (λ settled. (column : PartColumn) → HasColumn (S.files store.old) placed.now column
        → settled.answers ≡ each_row placed.now.rows (known column (atom.Exists placed.now.col))) }
    ensures whole { IfErr result (λ fault. (column : PartColumn) → HasColumn (S.files store.old) placed.now column → IsOutside fault) }
    ensures reads { (column : PartColumn) → HasColumn (S.files store.old) placed.now column
        → AddsLooks (S.reads store.old) (S.reads store.new) (is_free_of placed.now.dir placed.now.number column)
        (is_bitmap_of placed.now.dir placed.now.number column)
        (bitmap_looks placed.now.dir placed.now.number column (atom.Exists placed.now.col)) (IsOk result) }
{
    let mask = placed.mask(alloc, store)?;
    Ok(Settled {
        answers: Answers::known(mask),
        column: OpenColumn::Nothing,
    })
}
