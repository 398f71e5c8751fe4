//! Laws of the answers over all parts, each on a function that does nothing.

ghost use Rattle.std.specs.Prelude.{◌≡◌, ◌≤◌, ℕ, List, Option, Some, filter, length, map, option_map, slice_index_or};
ghost use Rattle.std.specs.List.{All, flat_map};
ghost use Rattle.fb_outside.specs.Files.{Files};
ghost use Rattle.fb_types.specs.declared.schemas.Column.{Column};
ghost use Rattle.column_file.specs.declared.fault.ColFault.{ColFault};
ghost use Rattle.part_meta.specs.FileNames.{mask_name, values_name};
ghost use Rattle.part_meta.specs.declared.part.PartMeta.{PartMeta};
ghost use Rattle.where_grammar.specs.declared.clause.Clause.{Clause};
ghost use Rattle.where_plan.specs.Plans.{FitsSchema, IsPlan};
ghost use Rattle.where_plan.specs.PlanHolds.{is_asked_for};
ghost use Rattle.where_plan.specs.declared.plan.Plan.{Plan};
ghost use Rattle.world.specs.Stands.{Stands};
ghost use Rattle.world.specs.World.{Content, IsPartition, Partition, World, content_at};
ghost use Rattle.dataset.specs.Damage.{column_damage};
ghost use Rattle.dataset.specs.Found.{dataset_in};
ghost use Rattle.part_meaning.specs.Columns.{no_column};
ghost use Rattle.query_engine.specs.Damage.{column_finding, damage_at};
ghost use Rattle.query_engine.specs.Parts.{AreParts, definite_over, hits_over, possible_over, rows_chosen};

use dataset::Dataset;

/// The two numbers of `bounds` enclose the number of the records that the plan holds of.
pub fn estimates_enclose_hits()
    ensures definite { (schema : List Column) (parts : List Partition) (planned : Plan)
        → All (IsPartition schema) parts → FitsSchema schema planned
        → definite_over schema parts planned ≤ hits_over planned parts }
    ensures possible { (schema : List Column) (parts : List Partition) (planned : Plan)
        → All (IsPartition schema) parts → FitsSchema schema planned
        → hits_over planned parts ≤ possible_over schema parts planned }
{}

/// What is answered for the plan of a query's clause is on which records of each part the clause is true, and how many these
/// are among all records.
pub fn the_hits_of_clauses()
    ensures rows { (schema : List Column) (parts : List Partition) (asked : Option Clause) (planned : Plan)
        → All (IsPartition schema) parts → IsPlan schema asked planned
        → rows_chosen planned parts ≡ map (λ part. map (is_asked_for asked schema) part.records) parts }
    ensures hits { (schema : List Column) (parts : List Partition) (asked : Option Clause) (planned : Plan)
        → All (IsPartition schema) parts → IsPlan schema asked planned
        → hits_over planned parts ≡ length (filter (is_asked_for asked schema) (flat_map (λ part. part.records) parts)) }
{}

/// Where the files stand for a world, they rest for the parts of each of its datasets.
pub fn the_parts_of_a_world()
    ensures { (files : Files) (world : World) (dir : List ℕ) (content : Content) → Stands files world
        → content_at world dir ≡ Some content → AreParts (Some files) (dataset_in dir content) content.parts }
{}

/// What is said of a column's values and mask is what `dataset` says of them.
pub fn the_damage_of_columns()
    ensures { (dataset : Dataset) (part : PartMeta) (col : ℕ) (fault : ColFault)
        → option_map (λ found. damage_at dataset part (col, found)) (column_finding fault)
        ≡ column_damage (values_name dataset.dir part.number (slice_index_or dataset.schema col no_column).name)
        (mask_name dataset.dir part.number (slice_index_or dataset.schema col no_column).name) fault }
{}
