ghost use Rattle.std.specs.Prelude.{◌≡◌, [], IfOk};
ghost use Rattle.fb_outside.specs.Names.{IsPath};
ghost use Rattle.dataset.specs.Opened.{IsDataset};

use fb_outside::FileName;
use fb_types::Schema;
use part_meta::PartMeta;
use sqlite_items::Items;
use std::alloc::Global;

/// A dataset: its path, its columns, the number that the next part gets, and its parts, each of these columns.
#[derive(Debug, Drop)]
pub struct Dataset {
    pub dir: FileName,
    pub schema: Schema,
    pub next: u32,
    pub parts: Items<PartMeta>,
}

/// A dataset without parts, of which no file is there yet.
pub fn create(alloc: Global, dir: FileName, schema: Schema) -> Dataset
    requires { IsPath dir }
    ensures value { result ≡ record { dir = dir; schema = schema; next = 0; parts = [] } }
    ensures valid { IsDataset result }
{
    Dataset {
        dir,
        schema,
        next: 0,
        parts: Items::new(alloc),
    }
}
