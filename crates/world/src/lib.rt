//! What the datasets of a world are, which files stand for them, and what a command does to them.
//!
//! The crate has definitions (`specs/`), and laws about them: functions without a body's work, whose contracts are proved.
#![tactic(auto)]

ghost use Rattle.std.specs.Prelude.{◌≡◌, ◌≢◌, ◌≤◌, ◌+◌, ◌*◌, ℕ, pos, negsuc, List, [], ◌∷◌, ◌++◌, All, length, map, Some, None, option_map, codes, slice_get};
ghost use Rattle.std.specs.FinMap.{empty, get, insert};
ghost use Rattle.std.specs.List.{flat_map};
ghost use Rattle.fb_outside.specs.Files.{Files, file_at};
ghost use Rattle.fb_outside.specs.Names.{IsPath};
ghost use Rattle.fb_types.specs.Cells.{RecordFits};
ghost use Rattle.fb_types.specs.declared.cells.Cell.{Cell};
ghost use Rattle.fb_types.specs.declared.cells.Cell.TheVariants.{Null, Whole, Word};
ghost use Rattle.fb_types.specs.declared.schemas.Column.{Column};
ghost use Rattle.fb_types.specs.declared.types.ColType.TheVariants.{Category, Int, Short, Text};
ghost use Rattle.index_spec.specs.declared.spec.Spec.{Spec};
ghost use Rattle.world.specs.Cells.{column_cells};
ghost use Rattle.world.specs.IndexFiles.{column_index};
ghost use Rattle.world.specs.World.{CanIndex, Content, IsContent, Partition, World, catalog_data, content_at, no_datasets, records_of};
ghost use Rattle.world.specs.PartFiles.{column_files, part_files};
ghost use Rattle.world.specs.Stands.{IsFree, IsInputName, Stands};
ghost use Rattle.world.specs.Effects.{Builds, Effect, Loads, after, after_one, built, empty_content, extended, found_or_empty, new_parts, part_count, piece, with_index};
ghost use Rattle.part_meta.specs.FileNames.{index_name};
ghost use Rattle.part_meta.specs.PartText.{most_rows};

/// Files among which every path is free stand for the world without datasets.
pub fn files_without_datasets()
    ensures none { Stands empty (no_datasets empty) }
    ensures free { (files inputs : Files) → ((path : List ℕ) → IsPath path → IsFree files path)
        → ((name : List ℕ) → IsInputName name → file_at files name ≡ get inputs name)
        → Stands files (no_datasets inputs) }
{}

/// The names and the bytes of the files of columns, in their order.
pub fn the_files_of_columns()
    // One null of two bytes.
    ensures null { column_files (codes "t") 0 (record { name = codes "s"; ty = Short }) (Null ∷ [])
        ≡ record { name = codes "t/p0000/s"; bytes = 0 ∷ 0 ∷ [] }
        ∷ record { name = codes "t/p0000/s.msk"; bytes = 1 ∷ 0 ∷ 0 ∷ 0 ∷ 0 ∷ 0 ∷ 0 ∷ 0 ∷ 0 ∷ 0 ∷ 0 ∷ 0 ∷ [] } ∷ [] }

    // The numbers -1 and 258 about a null; 5 is the mask 101.
    ensures numbers { column_files (codes "t") 12 (record { name = codes "a"; ty = Int })
        (Whole (negsuc 0) ∷ Null ∷ Whole (pos 258) ∷ [])
        ≡ record { name = codes "t/p0012/a"; bytes = 255 ∷ 255 ∷ 255 ∷ 255 ∷ 0 ∷ 0 ∷ 0 ∷ 0 ∷ 2 ∷ 1 ∷ 0 ∷ 0 ∷ [] }
        ∷ record { name = codes "t/p0012/a.msk"; bytes = 3 ∷ 0 ∷ 0 ∷ 0 ∷ 0 ∷ 0 ∷ 0 ∷ 0 ∷ 5 ∷ 0 ∷ 0 ∷ 0 ∷ [] } ∷ [] }

    // The words `x`, none, `a,b` and `x`, whose codes are 1, 0, 2 and 1; 11 is the mask 1011.
    ensures words { column_files (codes "t") 0 (record { name = codes "c"; ty = Category })
        (Word (codes "x") ∷ Null ∷ Word (codes "a,b") ∷ Word (codes "x") ∷ [])
        ≡ record { name = codes "t/p0000/c"; bytes = 1 ∷ 0 ∷ 0 ∷ 0 ∷ 0 ∷ 0 ∷ 0 ∷ 0 ∷ 2 ∷ 0 ∷ 0 ∷ 0 ∷ 1 ∷ 0 ∷ 0 ∷ 0 ∷ [] }
        ∷ record { name = codes "t/p0000/c.msk"; bytes = 4 ∷ 0 ∷ 0 ∷ 0 ∷ 0 ∷ 0 ∷ 0 ∷ 0 ∷ 11 ∷ 0 ∷ 0 ∷ 0 ∷ [] }
        ∷ record { name = codes "t/p0000/c.dic"; bytes = 2 ∷ 0 ∷ 0 ∷ 0 ∷ 1 ∷ 0 ∷ 120 ∷ 3 ∷ 0 ∷ 97 ∷ 44 ∷ 98 ∷ [] } ∷ [] }

    // The texts `ab`, none and `c`, which begin at 0, 2 and 2 and end at 3.
    ensures texts { column_files (codes "t") 0 (record { name = codes "w"; ty = Text })
        (Word (codes "ab") ∷ Null ∷ Word (codes "c") ∷ [])
        ≡ record { name = codes "t/p0000/w"; bytes = codes "abc" }
        ∷ record { name = codes "t/p0000/w.msk"; bytes = 3 ∷ 0 ∷ 0 ∷ 0 ∷ 0 ∷ 0 ∷ 0 ∷ 0 ∷ 5 ∷ 0 ∷ 0 ∷ 0 ∷ [] }
        ∷ record {
          name = codes "t/p0000/w.sp";
          bytes = 0 ∷ 0 ∷ 0 ∷ 0 ∷ 0 ∷ 0 ∷ 0 ∷ 0 ∷ 2 ∷ 0 ∷ 0 ∷ 0 ∷ 0 ∷ 0 ∷ 0 ∷ 0
              ∷ 2 ∷ 0 ∷ 0 ∷ 0 ∷ 0 ∷ 0 ∷ 0 ∷ 0 ∷ 3 ∷ 0 ∷ 0 ∷ 0 ∷ 0 ∷ 0 ∷ 0 ∷ 0 ∷ [];
        } ∷ [] }
{}

/// The files of a part of two columns and one record: column by column, each with its own cells, and then the part's text.
pub fn the_files_of_a_part()
    ensures { part_files (codes "t")
        (record { name = codes "w"; ty = Text } ∷ record { name = codes "s"; ty = Short } ∷ [])
        (record { number = 7; records = (Word (codes "ab") ∷ Whole (pos 5) ∷ []) ∷ []; specs = empty })
        ≡ record { name = codes "t/p0007/w"; bytes = codes "ab" }
        ∷ record { name = codes "t/p0007/w.msk"; bytes = 1 ∷ 0 ∷ 0 ∷ 0 ∷ 0 ∷ 0 ∷ 0 ∷ 0 ∷ 1 ∷ 0 ∷ 0 ∷ 0 ∷ [] }
        ∷ record { name = codes "t/p0007/w.sp"; bytes = 0 ∷ 0 ∷ 0 ∷ 0 ∷ 0 ∷ 0 ∷ 0 ∷ 0 ∷ 2 ∷ 0 ∷ 0 ∷ 0 ∷ 0 ∷ 0 ∷ 0 ∷ 0 ∷ [] }
        ∷ record { name = codes "t/p0007/s"; bytes = 5 ∷ 0 ∷ [] }
        ∷ record { name = codes "t/p0007/s.msk"; bytes = 1 ∷ 0 ∷ 0 ∷ 0 ∷ 0 ∷ 0 ∷ 0 ∷ 0 ∷ 1 ∷ 0 ∷ 0 ∷ 0 ∷ [] }
        ∷ record {
          name = codes "t/p0007/-part.txt";
          bytes = codes "BEGIN HEADER\nName = p0007\nNumber_of_rows = 1\nNumber_of_columns = 2\nEND HEADER\nBegin Column\nname = w\ndata_type = text\nEnd Column\nBegin Column\nname = s\ndata_type = short\nEnd Column\n";
        } ∷ [] }
{}

/// The parts of a load have its records, each of them once and in order.
pub fn the_parts_of_a_load()
    ensures all { (next per_part : ℕ) (records : List (List Cell)) → 1 ≤ per_part
        → flat_map (λ part. part.records) (new_parts next per_part records) ≡ records }
    ensures each { (next per_part : ℕ) (records : List (List Cell)) → 1 ≤ per_part
        → All (λ part. (1 ≤ length part.records) × (length part.records ≤ per_part))
        (new_parts next per_part records) }

    // All but the last are full.
    ensures full { (per_part place : ℕ) (records : List (List Cell))
        → (place + 1) * per_part ≤ length records
        → length (piece per_part records place) ≡ per_part }
{}

/// What a load makes of the dataset at its path, and that it leaves every other.
pub fn the_effect_of_a_load()
    // Five records, with two in a part.
    ensures grown { (world : World) (path : List ℕ) (schema columns : List Column)
        (parts : List Partition) (a b c d e : List Cell)
        → content_at world path ≡ Some (record { schema = columns; next = 3; parts = parts })
        → content_at (after_one world (Loads path schema 2 (a ∷ b ∷ c ∷ d ∷ e ∷ []))) path
        ≡ Some (record {
          schema = columns;
          next = 6;
          parts = parts ++ record { number = 3; records = a ∷ b ∷ []; specs = empty }
              ∷ record { number = 4; records = c ∷ d ∷ []; specs = empty }
              ∷ record { number = 5; records = e ∷ []; specs = empty } ∷ [];
        }) }

    // No records, where no dataset was.
    ensures made { (world : World) (path : List ℕ) (schema : List Column) (per_part : ℕ)
        → 1 ≤ per_part → content_at world path ≡ None
        → content_at (after_one world (Loads path schema per_part [])) path
        ≡ Some (empty_content schema) }
    ensures records { (world : World) (path : List ℕ) (schema : List Column) (per_part : ℕ)
        (records : List (List Cell)) → 1 ≤ per_part
        → option_map records_of
        (content_at (after_one world (Loads path schema per_part records)) path)
        ≡ Some (records_of (found_or_empty schema (content_at world path)) ++ records) }
    ensures others { (world : World) (path other : List ℕ) (schema : List Column) (per_part : ℕ)
        (records : List (List Cell))
        → other ≢ path → content_at (after_one world (Loads path schema per_part records)) other
        ≡ content_at world other }
    ensures inputs { (world : World) (path : List ℕ) (schema : List Column) (per_part : ℕ)
        (records : List (List Cell))
        → (after_one world (Loads path schema per_part records)).inputs ≡ world.inputs }
{}

/// A dataset that grows by a load keeps what every dataset is, and has its old records and then the load's.
pub fn the_content_after_a_load()
    ensures valid { (content : Content) (per_part : ℕ) (records : List (List Cell))
        → IsContent content → 1 ≤ per_part → per_part ≤ most_rows
        → All (λ cells. RecordFits cells content.schema) records
        → content.next + part_count per_part (length records) ≤ 4096
        → length content.parts + part_count per_part (length records) ≤ 1024
        → IsContent (extended content per_part records) }
    ensures records { (content : Content) (per_part : ℕ) (records : List (List Cell)) → 1 ≤ per_part
        → records_of (extended content per_part records) ≡ records_of content ++ records }
{}

/// What a build makes of the dataset at its path: one part has one index more, or another in its place, and all else stays.
pub fn the_effect_of_a_build()
    ensures built { (world : World) (path : List ℕ) (number col : ℕ) (spec : Spec) (content : Content)
        → content_at world path ≡ Some content
        → content_at (after_one world (Builds path number col spec)) path
        ≡ Some (built content number col spec) }

    // The part of that number is indexed by that specification at that column, and as it was at every other.
    ensures part { (content : Content) (number col place : ℕ) (spec : Spec) (part : Partition)
        → slice_get content.parts place ≡ Some part → part.number ≡ number
        → slice_get (built content number col spec).parts place ≡ Some (with_index col spec part) }
    ensures indexed { (col : ℕ) (spec : Spec) (part : Partition)
        → get (with_index col spec part).specs col ≡ Some spec }
    ensures other_columns { (col other : ℕ) (spec : Spec) (part : Partition)
        → other ≢ col → get (with_index col spec part).specs other ≡ get part.specs other }
    ensures other_parts { (content : Content) (number col place : ℕ) (spec : Spec) (part : Partition)
        → slice_get content.parts place ≡ Some part → part.number ≢ number
        → slice_get (built content number col spec).parts place ≡ Some part }
    ensures records { (content : Content) (number col : ℕ) (spec : Spec)
        → records_of (built content number col spec) ≡ records_of content }

    // Where no such dataset or part is, nothing changes.
    ensures no_dataset { (world : World) (path : List ℕ) (number col : ℕ) (spec : Spec)
        → content_at world path ≡ None → after_one world (Builds path number col spec) ≡ world }
    ensures no_part { (world : World) (path : List ℕ) (number col : ℕ) (spec : Spec) (content : Content)
        → content_at world path ≡ Some content → All (λ part. part.number ≢ number) content.parts
        → after_one world (Builds path number col spec) ≡ world }
    ensures others { (world : World) (path other : List ℕ) (number col : ℕ) (spec : Spec)
        → other ≢ path → content_at (after_one world (Builds path number col spec)) other
        ≡ content_at world other }
    ensures inputs { (world : World) (path : List ℕ) (number col : ℕ) (spec : Spec)
        → (after_one world (Builds path number col spec)).inputs ≡ world.inputs }
{}

/// A dataset of which a part's column is indexed keeps what every dataset is, where that column can have the index.
pub fn the_content_after_a_build()
    ensures valid { (content : Content) (place col : ℕ) (part : Partition) (spec : Spec)
        → IsContent content → slice_get content.parts place ≡ Some part
        → CanIndex content.schema part.records col spec
        → IsContent (built content part.number col spec) }
    ensures catalog { (content : Content) (number col : ℕ) (spec : Spec)
        → catalog_data (built content number col spec) ≡ catalog_data content }
{}

/// Once the index of a column of a part is put, the files stand for the world after that build.
pub fn the_files_after_a_build()
    ensures { (files : Files) (world : World) (path : List ℕ) (content : Content) (place : ℕ)
        (part : Partition) (col : ℕ) (column : Column) (spec : Spec)
        → content_at world path ≡ Some content → slice_get content.parts place ≡ Some part
        → slice_get content.schema col ≡ Some column → CanIndex content.schema part.records col spec
        → Stands files world
        → Stands (insert files (index_name path part.number column.name)
        (column_index spec column.ty (column_cells col part.records)))
        (after_one world (Builds path part.number col spec)) }
{}

/// The world after effects is that after the first ones and then the others.
pub fn the_order_of_effects()
    ensures { (world : World) (effects more : List Effect) → after world (effects ++ more)
        ≡ after (after world effects) more }
{}
