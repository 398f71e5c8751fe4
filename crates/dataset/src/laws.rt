//! Laws of opened datasets, each on a function that does nothing.

ghost use Rattle.std.specs.Prelude.{◌≡◌, ℕ, List, None, Some, IsSome, length};
ghost use Rattle.fb_outside.specs.Files.{Files, file_at};
ghost use Rattle.fb_outside.specs.Names.{IsPath};
ghost use Rattle.fb_types.specs.declared.schemas.Column.{Column};
ghost use Rattle.fb_types.specs.declared.types.ColType.TheVariants.{Category};
ghost use Rattle.fb_types.specs.Types.{width_of};
ghost use Rattle.part_meta.specs.declared.part.PartMeta.{PartMeta};
ghost use Rattle.part_meta.specs.FileNames.{catalog_name};
ghost use Rattle.world.specs.Cells.{column_cells, dictionary_of};
ghost use Rattle.world.specs.Stands.{Stands};
ghost use Rattle.world.specs.World.{Content, Partition, World, content_at};
ghost use Rattle.dataset.specs.Damage.{Damage, IsColumnDamaged, IsDamagedAt, IsFirstDamaged};
ghost use Rattle.dataset.specs.Found.{Found, IsFound, dataset_in, found_in};
ghost use Rattle.dataset.specs.InWorld.{HasNumbers, IsColumnOf, IsDatasetOf};
ghost use Rattle.dataset.specs.Opened.{OpensAs};
ghost use Rattle.dataset.specs.PartColumns.{HasWords};

use crate::content::Dataset;

/// The same files at a path open as one dataset alone, and then none of its texts is damaged.
pub fn one_dataset()
    ensures same { (files : Files) (dir : List ℕ) (a b : Dataset) → OpensAs files dir a → OpensAs files dir b → a ≡ b }
    ensures undamaged { (files : Files) (dir : List ℕ) (dataset : Dataset) (found : Damage) → OpensAs files dir dataset
        → IsFirstDamaged files dir found → ⊥ }
{}

/// What is found at a path of files that stand for a world is what the world has there.
pub fn what_is_found_in_a_world()
    ensures found { (files : Files) (world : World) (dir : List ℕ) (found : Found) → Stands files world
        → IsPath dir → IsFound files dir found → found ≡ found_in world dir }
    ensures there { (files : Files) (world : World) (dir : List ℕ) → Stands files world
        → IsPath dir → IsFound files dir (found_in world dir) }
{}

/// Where the files stand for a world, its datasets open, and nothing else does; no catalog, part's text or column is damaged.
pub fn the_datasets_of_a_world()
    ensures opens { (files : Files) (world : World) (dir : List ℕ) (content : Content) → Stands files world
        → content_at world dir ≡ Some content → OpensAs files dir (dataset_in dir content) }
    ensures opened { (files : Files) (world : World) (dir : List ℕ) (dataset : Dataset) → Stands files world
        → IsPath dir → OpensAs files dir dataset → IsDatasetOf world dir dataset }
    ensures absent { (files : Files) (world : World) (dir : List ℕ) → Stands files world
        → file_at files (catalog_name dir) ≡ None → content_at world dir ≡ None }
    ensures none { (files : Files) (world : World) (dir : List ℕ) → Stands files world
        → IsPath dir → content_at world dir ≡ None → file_at files (catalog_name dir) ≡ None }
    ensures sound { (files : Files) (world : World) (dir : List ℕ) (found : Damage) → Stands files world
        → IsPath dir → IsFirstDamaged files dir found → ⊥ }
    ensures columns { (files : Files) (world : World) (dir name : List ℕ) (dataset : Dataset) (found : Damage) → Stands files world
        → IsPath dir → OpensAs files dir dataset → IsColumnDamaged files dataset name found → ⊥ }
{}

/// Where the files stand for a world, those of a column of numbers are what its cells say, and so is a category's dictionary.
pub fn the_columns_of_a_world()
    ensures numbers { (files : Files) (world : World) (dir : List ℕ) (part : Partition) (col : ℕ) (column : Column) → Stands files world
        → IsColumnOf world dir part col column → IsSome (width_of column.ty)
        → HasNumbers files dir part.number column (column_cells col part.records) }
    ensures words { (files : Files) (world : World) (dir : List ℕ) (part : Partition) (col : ℕ) (column : Column) → Stands files world
        → IsColumnOf world dir part col column → column.ty ≡ Category
        → HasWords files dir part.number column (dictionary_of (column_cells col part.records)) }
{}

/// The first damage among the files of a column is one alone.
pub fn one_damage()
    ensures { (files : Files) (dir : List ℕ) (part : PartMeta) (column : Column) (a b : Damage)
        → IsDamagedAt files dir part column a → IsDamagedAt files dir part column b → a ≡ b }
{}
