ghost use Rattle.std.specs.Prelude.{◌≡◌, ◌++◌, IfOk, OnOk, decimal, string_bytes};
ghost use Rattle.std.specs.List.{flat_map};
ghost use lib.Chars.{codes};
ghost use Rattle.part_meta.specs.CatalogText.{IsCatalog, catalog_text, part_line};
ghost use Rattle.part_meta.specs.Lines.{line};

use fb_types::{Schema, print_schema};
use sqlite_items::Items;
use std::alloc::{AllocError, Global};

/// What a catalog says: the dataset's schema, the number that the next part gets, and the parts' numbers.
#[derive(Debug, Drop)]
pub struct Catalog {
    pub schema: Schema,
    pub next: u32,
    pub parts: Items<u32>,
}

/// Different catalogs have different texts.
pub fn one_catalog()
    ensures { (a b : Catalog) → IsCatalog a → IsCatalog b → catalog_text a ≡ catalog_text b → a ≡ b }
{}

/// The catalog's text.
pub fn print_catalog(alloc: Global, catalog: &Catalog) -> Result<Vec<u8>, AllocError>
    ensures { IfOk result (λ text. text.items ≡ catalog_text catalog.now) }
{
    let schema = print_schema(alloc, &catalog.schema)?;
    let numbers = number_lines(alloc, catalog.next, catalog.parts.as_slice())?;
    let mut text = Vec::from_slice(alloc, b"fastbit catalog 1\nschema ")?;
    text.extend_from_slice(schema.bytes())?;
    text.push(b'\n')?;
    text.extend_from_slice(numbers.as_bytes())?;
    Ok(text)
}

/// The lines of the next part's number and of the parts.
fn number_lines(alloc: Global, next: u32, parts: &[u32]) -> Result<String, AllocError>
    ensures { IfOk result (λ lines. string_bytes lines ≡ line (codes "next " ++ decimal next) ++ flat_map part_line parts.now) }
{
    let mut lines = String::new(alloc);
    push_line(&mut lines, "next", next)?;
    for part in parts {
        push_line(&mut lines, "part", *part)?;
    }
    Ok(lines)
}

/// A word and a number in a line.
fn push_line(lines: &mut String, word: &str, number: u32) -> Result<(), AllocError>
    ensures { OnOk result (string_bytes lines.new ≡ string_bytes lines.old ++ line (word.now ++ codes " " ++ decimal number)) }
{
    writeln!(lines, "{word} {number}")
}
