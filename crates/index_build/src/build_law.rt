//! Laws of builds: which rows a column has in a world, and what the files stand for once its index is put.

ghost use Rattle.std.specs.Prelude.{◌≡◌, ◌⊎◌, ℕ, List, Option, IsSome, map};
ghost use Rattle.std.specs.FinMap.{insert};
ghost use Rattle.fb_outside.specs.Files.{Files, PutLeaves, Puts};
ghost use Rattle.fb_types.specs.declared.schemas.Column.{Column};
ghost use Rattle.fb_types.specs.Types.{width_of};
ghost use Rattle.index_spec.specs.declared.spec.Spec.{Spec};
ghost use Rattle.part_meta.specs.FileNames.{index_name};
ghost use Rattle.world.specs.Cells.{column_cells, is_present, stored_numbers};
ghost use Rattle.world.specs.Effects.{Builds, after_one};
ghost use Rattle.world.specs.PartFiles.{part_data};
ghost use Rattle.world.specs.Stands.{Stands, StandsFor};
ghost use Rattle.world.specs.World.{Partition, World};
ghost use Rattle.dataset.specs.InWorld.{IsColumnOf};
ghost use Rattle.index_build.specs.Build.{HasRows};
ghost use Rattle.index_build.specs.Built.{IsBuild, built_index};

/// Where the files stand for a world, a column of numbers in a part of it has a row for each of the part's records: its numbers are
/// the cells' own, or the codes of their words.
pub fn the_rows_of_a_world()
    ensures { (files : Files) (world : World) (dir : List ℕ) (part : Partition) (col : ℕ)
        (column : Column) (schema : List Column)
        → Stands files world → IsColumnOf world dir part col column → IsSome (width_of column.ty)
        → HasRows files dir (part_data schema part) column (map is_present (column_cells col part.records))
        (stored_numbers column.ty (column_cells col part.records)) }
{}

/// Once the index of a column is put, the files stand for the world after its build.
pub fn the_world_after_a_build()
    ensures { (files : Files) (world : World) (dir : List ℕ) (part : Partition) (col : ℕ)
        (column : Column) (spec : Spec)
        → IsBuild world dir part col column spec → Stands files world
        → Stands (insert files (index_name dir part.number column.name) (built_index part col column spec))
        (after_one world (Builds dir part.number col spec)) }
{}

/// The same of a store, which may not tell its files: after its put, or when that stopped.
pub fn the_store_after_a_build()
    ensures done { (old new : Option Files) (world : World) (dir : List ℕ) (part : Partition) (col : ℕ)
        (column : Column) (spec : Spec)
        → IsBuild world dir part col column spec → StandsFor old world
        → Puts old new (index_name dir part.number column.name) (built_index part col column spec)
        → StandsFor new (after_one world (Builds dir part.number col spec)) }
    ensures stopped { (old new : Option Files) (world : World) (dir : List ℕ) (part : Partition)
        (col : ℕ) (column : Column) (spec : Spec)
        → IsBuild world dir part col column spec → StandsFor old world
        → PutLeaves (index_name dir part.number column.name) (built_index part col column spec) old new
        → StandsFor new world
        ⊎ StandsFor new (after_one world (Builds dir part.number col spec)) }
{}
