//! Laws of loads: what their files are, what they make of a world, and when they are refused.

ghost use Rattle.std.specs.Prelude.{ℕ, pos, negsuc, ◌≡◌, ◌≤◌, ◌<◌, ◌+◌, ◌⊎◌, ◌↔◌, Option, Some, None, List, [], ◌∷◌, All, length, take, codes};
ghost use Rattle.fb_outside.specs.Files.{ChangesAmong, Files};
ghost use Rattle.fb_outside.specs.Puts.{PutsAll, PutsFront, with_files};
ghost use Rattle.fb_types.specs.declared.cells.Cell.TheVariants.{Null, Whole};
ghost use Rattle.fb_types.specs.declared.types.ColType.TheVariants.{Byte};
ghost use Rattle.fb_types.specs.Schemas.{IsSchema};
ghost use Rattle.fb_types.specs.declared.cells.Cell.{Cell};
ghost use Rattle.fb_types.specs.declared.schemas.Column.{Column};
ghost use Rattle.part_meta.specs.FileNames.{IsFileOf};
ghost use Rattle.part_meta.specs.declared.catalog.Catalog.{Catalog};
ghost use Rattle.world.specs.Effects.{Loads, after_one, part_count};
ghost use Rattle.world.specs.Stands.{Stands, StandsFor};
ghost use Rattle.world.specs.World.{Content, World, content_at};
ghost use Rattle.dataset.specs.Appended.{SchemaDiffers, TooManyNumbers, TooManyParts, append_files, first_difference, refusal, too_many};
ghost use Rattle.dataset.specs.Found.{dataset_in};
ghost use Rattle.dataset.specs.Opened.{catalog_in};
ghost use Rattle.dataset.specs.Loads.{DifferFirst, IsLoad, catalog_before, load_files};

/// Once a load's files are put in order, the files stand for the world after it, and until its catalog is, for the world before.
pub fn the_world_after_a_load()
    ensures all { (files : Files) (world : World) (path : List ℕ) (schema : List Column)
        (per_part : ℕ) (records : List (List Cell))
        → IsLoad world path schema per_part records → Stands files world
        → Stands (with_files (load_files world path schema per_part records) files)
        (after_one world (Loads path schema per_part records)) }
    ensures front { (files : Files) (world : World) (path : List ℕ) (schema : List Column)
        (per_part : ℕ) (records : List (List Cell))
        → IsLoad world path schema per_part records → Stands files world
        → (count : ℕ) → count < length (load_files world path schema per_part records)
        → Stands (with_files (take count (load_files world path schema per_part records)) files) world }
{}

/// The same of a store, which may not tell its files: after all of them, or after a front, when a writer of them stopped.
pub fn the_store_after_a_load()
    ensures done { (old new : Option Files) (world : World) (path : List ℕ) (schema : List Column)
        (per_part : ℕ) (records : List (List Cell))
        → IsLoad world path schema per_part records → StandsFor old world
        → PutsAll (load_files world path schema per_part records) old new
        → StandsFor new (after_one world (Loads path schema per_part records)) }
    ensures stopped { (old new : Option Files) (world : World) (path : List ℕ)
        (schema : List Column) (per_part : ℕ) (records : List (List Cell))
        → IsLoad world path schema per_part records → StandsFor old world
        → PutsFront (load_files world path schema per_part records) old new
        → StandsFor new world
        ⊎ StandsFor new (after_one world (Loads path schema per_part records)) }
{}

/// The catalog before a load is that of the path's dataset, or of one that is made.
pub fn the_catalog_before_a_load()
    ensures there { (world : World) (path : List ℕ) (schema : List Column) (content : Content)
        → content_at world path ≡ Some content
        → catalog_before world path schema ≡ catalog_in (dataset_in path content) }
    ensures absent { (world : World) (path : List ℕ) (schema : List Column)
        → content_at world path ≡ None
        → catalog_before world path schema ≡ record { schema = schema; next = 0; parts = [] } }
{}

/// Each file of a load is one of the table under the path, so every other file stays, whenever the load stops.
pub fn the_names_of_a_load()
    ensures kept { (old new : Option Files) (path : List ℕ) (catalog : Catalog) (per_part : ℕ)
        (records : List (List Cell))
        → IsSchema catalog.schema → catalog.next + part_count per_part (length records) ≤ 4096
        → PutsFront (append_files path catalog per_part records) old new
        → ChangesAmong (IsFileOf path) old new }
    ensures names { (path : List ℕ) (catalog : Catalog) (per_part : ℕ) (records : List (List Cell))
        → IsSchema catalog.schema
        → catalog.next + part_count per_part (length records) ≤ 4096
        → All (λ file. IsFileOf path file.name) (append_files path catalog per_part records) }
{}

/// The files of three records with two in a part, where two parts were: the new parts one after another, and the catalog last.
pub fn the_files_of_a_load()
    ensures { append_files (codes "t")
        (record { schema = record { name = codes "a"; ty = Byte } ∷ []; next = 5; parts = 1 ∷ 4 ∷ [] }) 2
        ((Whole (pos 7) ∷ []) ∷ (Null ∷ []) ∷ (Whole (negsuc 0) ∷ []) ∷ [])
        ≡ record { name = codes "t/p0005/a"; bytes = 7 ∷ 0 ∷ [] }
        ∷ record { name = codes "t/p0005/a.msk"; bytes = 2 ∷ 0 ∷ 0 ∷ 0 ∷ 0 ∷ 0 ∷ 0 ∷ 0 ∷ 2 ∷ 0 ∷ 0 ∷ 0 ∷ [] }
        ∷ record {
          name = codes "t/p0005/-part.txt";
          bytes = codes "BEGIN HEADER\nName = p0005\nNumber_of_rows = 2\nNumber_of_columns = 1\nEND HEADER\nBegin Column\nname = a\ndata_type = byte\nEnd Column\n";
        }
        ∷ record { name = codes "t/p0006/a"; bytes = 255 ∷ [] }
        ∷ record { name = codes "t/p0006/a.msk"; bytes = 1 ∷ 0 ∷ 0 ∷ 0 ∷ 0 ∷ 0 ∷ 0 ∷ 0 ∷ 1 ∷ 0 ∷ 0 ∷ 0 ∷ [] }
        ∷ record {
          name = codes "t/p0006/-part.txt";
          bytes = codes "BEGIN HEADER\nName = p0006\nNumber_of_rows = 1\nNumber_of_columns = 1\nEND HEADER\nBegin Column\nname = a\ndata_type = byte\nEnd Column\n";
        }
        ∷ record {
          name = codes "t/-catalog.txt";
          bytes = codes "fastbit catalog 1\nschema a:byte\nnext 7\npart 1\npart 4\npart 5\npart 6\n";
        } ∷ [] }
{}

/// When a load is refused, and why: other columns first, then too many parts, then too great a number.
pub fn the_refusals_of_loads()
    ensures taken { (catalog : Catalog) (schema : List Column) (per_part rows : ℕ)
        → refusal catalog schema per_part rows ≡ None
        ↔ (catalog.schema ≡ schema)
        × (length catalog.parts + part_count per_part rows ≤ 1024)
        × (catalog.next + part_count per_part rows ≤ 4096) }
    ensures same { (columns : List Column) → first_difference columns columns ≡ None }
    ensures only { (a b : List Column) → first_difference a b ≡ None → a ≡ b }
    ensures differs { (a b : List Column) (number : ℕ) → first_difference a b ≡ Some number
        → DifferFirst a b number }
    ensures columns { (catalog : Catalog) (schema : List Column) (per_part rows number : ℕ)
        → first_difference catalog.schema schema ≡ Some number
        → refusal catalog schema per_part rows ≡ Some (SchemaDiffers number) }
    ensures counts { (catalog : Catalog) (per_part rows : ℕ)
        → refusal catalog catalog.schema per_part rows
        ≡ too_many (length catalog.parts + part_count per_part rows)
        (catalog.next + part_count per_part rows) }
    ensures many { too_many 1025 4097 ≡ Some (TooManyParts 1025) }
    ensures great { too_many 1024 4097 ≡ Some (TooManyNumbers 4097) }
    ensures none { too_many 1024 4096 ≡ None }
{}
