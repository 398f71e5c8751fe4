//! Catalogs from their text, line by line.

ghost use Rattle.std.specs.Prelude.{◌≡◌, ◌≢◌, ◌<◌, ◌↔◌, List, ℕ, MatchOption, IfOk, IfErr, IsTrue};
ghost use Rattle.std.specs.List.{All, AllPairs};
ghost use Rattle.fb_types.specs.declared.schemas.Column.{Column};
ghost use Rattle.fb_types.specs.Schemas.{IsSchema};
ghost use Rattle.fb_types.specs.SchemaText.{schema_text};
ghost use Rattle.part_meta.specs.Lines.{GoesOn, IsFirstWrong};
ghost use Rattle.part_meta.specs.CatalogText.{IsCatalog, catalog_lines, catalog_text, schema_line};
ghost use Rattle.part_meta.specs.CatalogFront.{IsFront, front_lines, with_part};
ghost use Rattle.answers.specs.Answers.{Tells};
ghost use Rattle.part_meta.specs.Faults.{Gives, wrong_line};

use crate::catalog::Catalog;
use crate::fault::MetaTextFault;
use crate::lines::{behind, is, labelled_number};
use crate::reading::{Front, read};
use fb_types::{MetaFault, Schema, parse_schema, print_schema};
use sqlite_items::Items;
use std::alloc::{AllocError, Global};

/// What the lines that were read so far say.
#[derive(Debug, Drop)]
pub(crate) enum CatalogFront {
    Nothing,
    Title,
    Columns(Schema),
    Whole(Catalog),
}

/// The catalog that the bytes spell, or the first line that no catalog has there.
pub fn parse_catalog(alloc: Global, bytes: &[u8]) -> Result<Catalog, MetaTextFault>
    // What is read is spelled so, and what is spelled so is read.
    ensures found { IfOk result (λ catalog. bytes.now ≡ catalog_text catalog) }
    ensures valid { IfOk result IsCatalog }
    ensures exact { (catalog : Catalog) → IsCatalog catalog → bytes.now ≡ catalog_text catalog → Gives result catalog }

    ensures fault { IfErr result (Tells wrong_line (IsFirstWrong IsCatalog catalog_lines bytes.now)) }
{
    read::<CatalogFront>(alloc, bytes)
}

impl Front for CatalogFront {
    type Whole = Catalog;

    ghost is_of = { IsCatalog };

    ghost lines = { catalog_lines };

    ghost is_front = { IsFront };

    ghost front_lines = { front_lines };

    fn nothing() -> CatalogFront {
        CatalogFront::Nothing
    }

    fn with_line(self, alloc: Global, text: &[u8]) -> Result<Option<CatalogFront>, AllocError> {
        match self {
            CatalogFront::Nothing => Ok(with_title(text)),
            CatalogFront::Title => with_schema(alloc, text),
            CatalogFront::Columns(schema) => Ok(with_next(alloc, schema, text)),
            CatalogFront::Whole(catalog) => with_one_part(catalog, text),
        }
    }

    fn whole(self) -> Option<Catalog> {
        match self {
            CatalogFront::Whole(catalog) => Some(catalog),
            _ => None,
        }
    }

    fn laws() {}
}

fn with_title(text: &[u8]) -> Option<CatalogFront>
    ensures { GoesOn IsCatalog catalog_lines IsFront front_lines CatalogFront.Nothing text.now result }
{
    if is(text, "fastbit catalog 1") {
        Some(CatalogFront::Title)
    } else {
        None
    }
}

fn with_schema(alloc: Global, text: &[u8]) -> Result<Option<CatalogFront>, AllocError>
    ensures { IfOk result (GoesOn IsCatalog catalog_lines IsFront front_lines CatalogFront.Title text.now) }
{
    match behind(text, b"schema ") {
        None => Ok(None),
        Some(printed) => match printed_schema(alloc, printed)? {
            None => Ok(None),
            Some(schema) => Ok(Some(CatalogFront::Columns(schema))),
        },
    }
}

/// The schema whose printed form the bytes are.
fn printed_schema(alloc: Global, bytes: &[u8]) -> Result<Option<Schema>, AllocError>
    ensures { IfOk result (λ found. MatchOption found ((schema : List Column) → IsSchema schema → bytes.now ≢ schema_text schema)
        (λ schema. IsSchema schema × (bytes.now ≡ schema_text schema))) }
{
    let Ok(text) = str::from_utf8(bytes) else {
        return Ok(None);
    };
    let schema = match parse_schema(alloc, text) {
        Ok(schema) => schema,
        Err(MetaFault::Bad { .. }) => return Ok(None),
        Err(MetaFault::OutOfMemory) => return Err(AllocError),
    };
    if print_schema(alloc, &schema)?.bytes() == bytes {
        Ok(Some(schema))
    } else {
        Ok(None)
    }
}

fn with_next(alloc: Global, schema: Schema, text: &[u8]) -> Option<CatalogFront>
    requires { IsSchema schema }
    ensures { GoesOn IsCatalog catalog_lines IsFront front_lines (CatalogFront.Columns schema) text.now result }
{
    let Some(next) = labelled_number(text, b"next ") else {
        return None;
    };
    if next > 4096 {
        return None;
    }
    Some(CatalogFront::Whole(Catalog {
        schema,
        next,
        parts: Items::new(alloc),
    }))
}

fn with_one_part(mut catalog: Catalog, text: &[u8]) -> Result<Option<CatalogFront>, AllocError>
    requires { IsCatalog catalog }
    ensures { IfOk result (GoesOn IsCatalog catalog_lines IsFront front_lines (CatalogFront.Whole catalog) text.now) }
{
    let Some(part) = labelled_number(text, b"part ") else {
        return Ok(None);
    };
    if !takes(&catalog, part) {
        return Ok(None);
    }
    catalog.parts.push(part)?;
    Ok(Some(CatalogFront::Whole(catalog)))
}

/// Whether the part may stand behind the catalog's parts.
fn takes(catalog: &Catalog, part: u32) -> bool
    requires { IsCatalog catalog.now }
    ensures { IsTrue result ↔ IsCatalog (with_part catalog.now part) }
{
    let parts = catalog.parts.as_slice();
    parts.len() < 1024 && part < catalog.next && is_above(parts, part)
}

/// Whether the number is above those of a rising list.
fn is_above(parts: &[u32], part: u32) -> bool
    requires { AllPairs (λ a b. a < b) parts.now }
    ensures { IsTrue result ↔ All (λ earlier. earlier < part) parts.now }
{
    match parts.last() {
        Some(last) => *last < part,
        None => true,
    }
}
