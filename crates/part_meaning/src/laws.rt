//! Laws of what is known of conditions, each on a function that does nothing.

ghost use Rattle.std.specs.Prelude.{◌≡◌, ◌≤◌, ◌≤ℤ◌, ℕ, ℤ, pos, List, None, Option, Some, IsSome, All, length, map, true};
ghost use Rattle.fb_types.specs.Types.{width_of};
ghost use Rattle.fb_types.specs.declared.schemas.Column.{Column};
ghost use Rattle.binning.specs.Against.{against};
ghost use Rattle.binning.specs.Encodings.{vectors};
ghost use Rattle.binning.specs.Members.{AreBins};
ghost use Rattle.binning.specs.Spans.{AreApart, has};
ghost use Rattle.binning.specs.declared.gathering.Bin.{Bin};
ghost use Rattle.binning.specs.declared.span_lists.Span.{Span};
ghost use Rattle.wah_logic.specs.Logic.{ones, union};
ghost use Rattle.where_grammar.specs.declared.clause.Atom.{Atom};
ghost use Rattle.where_grammar.specs.declared.clause.Clause.{Clause};
ghost use Rattle.where_grammar.specs.Holds.{is_there};
ghost use Rattle.where_plan.specs.Plans.{FitsColumn, FitsSchema, IsPlan};
ghost use Rattle.where_plan.specs.PlanHolds.{is_asked_for};
ghost use Rattle.where_plan.specs.SpansOf.{AreSpansOf, code_meets, code_range};
ghost use Rattle.where_plan.specs.declared.plan.Plan.{Plan};
ghost use Rattle.where_plan.specs.declared.plan.PlanAtom.{PlanAtom};
ghost use Rattle.where_plan.specs.declared.plan.PlanAtom.TheVariants as atom;
ghost use Rattle.three_valued.specs.Tables.{undecided};
ghost use Rattle.stages.specs.Meaning.{IsMeaningOf};
ghost use Rattle.world.specs.World.{IsPartition, Partition};
ghost use Rattle.part_meaning.specs.Answers.{definite_in, possible_in, rows_that_hold};
ghost use Rattle.bin_answers.specs.Bins.{bin_at};
ghost use Rattle.part_meaning.specs.Bitmaps.{bitmap_looks};
ghost use Rattle.part_meaning.specs.Columns.{bins_in, cell_of_row, column_at, number_of_row, present_rows};
ghost use Rattle.part_meaning.specs.Files.{is_free_of};
ghost use Rattle.part_meaning.specs.Known.{between, known, over};
ghost use Rattle.part_meaning.specs.Meaning.{meaning_of};
ghost use Rattle.part_meaning.specs.Parts.{column_for, is_bitmap_in};

/// What spans say of a range is what they say of each number there: Yes where they have all, No where they have none. So the
/// spans of the codes of a condition on words say what the words of these codes do.
pub fn what_spans_say()
    ensures numbers { (least greatest : ℤ) (spans : List Span) → AreApart spans → least ≤ℤ greatest
        → against least greatest spans ≡ over (has spans) (between least greatest) }
    ensures words { (condition : Atom) (words : List (List ℕ)) (spans : List Span) (least greatest : ℤ)
        → AreSpansOf (code_range words) (code_meets condition words) spans
        → pos 1 ≤ℤ least → least ≤ℤ greatest → greatest ≤ℤ pos (length words)
        → against least greatest spans ≡ over (code_meets condition words) (between least greatest) }
{}

/// No row is in two bins of a part's column, a row is in one of them exactly where it has a value, and the number of its
/// value lies between the bin's ends.
pub fn the_bins_of_columns()
    ensures apart { (schema : List Column) (part : Partition) (col : ℕ) → IsPartition schema part
        → AreBins (length part.records) (vectors (bins_in (column_at schema part col))) }
    ensures all { (schema : List Column) (part : Partition) (col : ℕ) → IsPartition schema part
        → union (length part.records) (vectors (bins_in (column_at schema part col)))
        ≡ present_rows (column_at schema part col) }
    ensures ends { (schema : List Column) (part : Partition) (col row : ℕ) (bin : Bin) → IsPartition schema part
        → IsSome (width_of (column_at schema part col).ty)
        → bin_at row (bins_in (column_at schema part col)) ≡ Some bin
        → (bin.least ≤ℤ number_of_row (column_at schema part col) row)
        × (number_of_row (column_at schema part col) row ≤ℤ bin.greatest) }
{}

/// What is known of a condition is so: Yes means that it is true of the row's record, and No that it isn't, as on a null. Of a
/// condition on the texts of a text column nothing is known where there is a text.
pub fn what_is_known()
    ensures sound { (dir : List ℕ) (schema : List Column) (part : Partition) → IsPartition schema part
        → IsMeaningOf (length part.records) (FitsColumn schema) (meaning_of dir schema part) }
    ensures texts { (schema : List Column) (part : Partition) (col row : ℕ) (condition : Atom)
        → IsPartition schema part → width_of (column_at schema part col).ty ≡ None
        → known (column_at schema part col) (atom.Word col condition) row
        ≡ undecided (is_there (cell_of_row (column_at schema part col) row)) }
{}

/// The reads of the bitmaps that a condition needs are each of a bitmap, in a file of the condition's column that has none of
/// its values.
pub fn the_reads_of_bitmaps()
    ensures { (dir : List ℕ) (schema : List Column) (part : Partition) (condition : PlanAtom) → IsPartition schema part
        → All (λ look. (is_bitmap_in dir schema part look ≡ true)
        × (is_free_of dir part.number (column_for schema part condition) look ≡ true))
        (bitmap_looks dir part.number (column_for schema part condition) condition) }
{}

/// The two numbers of an estimate enclose the number of the part's records that the plan holds of.
pub fn estimates_enclose_hits()
    ensures definite { (schema : List Column) (part : Partition) (planned : Plan)
        → IsPartition schema part → FitsSchema schema planned
        → definite_in schema part planned ≤ ones (rows_that_hold planned part) }
    ensures possible { (schema : List Column) (part : Partition) (planned : Plan)
        → IsPartition schema part → FitsSchema schema planned
        → ones (rows_that_hold planned part) ≤ possible_in schema part planned }
{}

/// The rows that are answered for the plan of a query's clause are those of the records that the clause asks for.
pub fn the_rows_of_clauses()
    ensures { (schema : List Column) (part : Partition) (asked : Option Clause) (planned : Plan)
        → IsPartition schema part → IsPlan schema asked planned
        → rows_that_hold planned part ≡ map (is_asked_for asked schema) part.records }
{}
