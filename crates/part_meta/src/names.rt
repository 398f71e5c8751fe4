ghost use Rattle.std.specs.Prelude.{◌≡◌, ◌≢◌, ℕ, List, Option, ◌<◌, ◌+◌, ◌*◌, ◌/◌, ◌%◌, ◌++◌, ◌↔◌, [], OnOk, IfOk, IfSome, IsNone, option_copied, unwrap_or};
ghost use Rattle.fb_outside.specs.Names.{IsFileName, IsPath};
ghost use Rattle.fb_types.specs.Names.{IsColumnName};
ghost use Rattle.part_meta.specs.FileNames.{IsCalled, catalog_name, file_name, leaf, part_folder};
ghost use Rattle.part_meta.specs.LeafParts.{suffix};
ghost use Rattle.part_meta.specs.declared.names.FileKind.TheVariants.{PartText};
ghost use lib.Chars.{codes};

use fb_outside::FileName;
use fb_types::ColName;
use std::alloc::{AllocError, Global};

/// What a file of a part holds.
#[derive(Clone, Copy, Debug, PartialEq, Eq)]
pub enum FileKind {
    PartText,
    Values,
    Mask,
    Words,
    Starts,
    Index,
}

/// Files of different arguments have different names, and none ends in `.csv`.
pub fn different_names()
    ensures files { (p q : List ℕ) (a b : ℕ) (m n : Option (List ℕ)) (j k : FileKind) → a < 4096 → b < 4096 → IsCalled j m → IsCalled k n
        → file_name p a m j ≡ file_name q b n k → (p ≡ q) × (a ≡ b) × (m ≡ n) × (j ≡ k) }
    ensures catalogs { (p q : List ℕ) → catalog_name p ≡ catalog_name q → p ≡ q }
    ensures apart { (p q : List ℕ) (a : ℕ) (m : Option (List ℕ)) (j : FileKind) → IsCalled j m → file_name p a m j ≢ catalog_name q }
    ensures no_records { (p front : List ℕ) (a : ℕ) (m : Option (List ℕ)) (j : FileKind) → IsCalled j m → file_name p a m j ≢ front ++ codes ".csv" }
    ensures no_record_catalog { (p front : List ℕ) → catalog_name p ≢ front ++ codes ".csv" }
{}

/// The name of a part's text, or of a column's file of that kind.
pub fn file_of(
    alloc: Global,
    dir: &FileName,
    part: u32,
    name: Option<&ColName>,
    kind: FileKind,
) -> Result<FileName, AllocError>
    requires path { IsPath dir.now }
    requires part { part < 4096 }
    requires name { IsNone name ↔ (kind ≡ PartText) }
    ensures { IfOk result (λ file. file ≡ file_name dir.now part (option_copied name.entry) kind) }
{
    let mut text = Vec::new(alloc);
    push_folder(&mut text, dir, part)?;
    text.push(b'/')?;
    push_leaf(&mut text, name_bytes(name), kind)?;
    known_name(alloc, text.as_slice())
}

/// The name of a dataset's catalog.
pub fn catalog_of(alloc: Global, dir: &FileName) -> Result<FileName, AllocError>
    requires { IsPath dir.now }
    ensures { IfOk result (λ file. file ≡ catalog_name dir.now) }
{
    let mut text = Vec::new(alloc);
    text.extend_from_slice(dir.as_str().as_bytes())?;
    text.extend_from_slice(b"/-catalog.txt")?;
    known_name(alloc, text.as_slice())
}

/// The folder of a part.
fn push_folder(text: &mut Vec<u8>, dir: &FileName, part: u32) -> Result<(), AllocError>
    ensures { OnOk result (text.new.items ≡ text.old.items ++ part_folder dir.now part) }
{
    text.extend_from_slice(dir.as_str().as_bytes())?;
    let folder = [
        b'/',
        b'p',
        digit(part / 1000),
        digit(part / 100),
        digit(part / 10),
        digit(part),
    ];
    text.extend_from_slice(&folder)?;
    Ok(())
}

/// The last decimal digit of a number, as ASCII.
pub(crate) fn digit(n: u32) -> u8
    ensures { result ≡ 48 + n % 10 }
{
    b'0' + (n % 10) as u8
}

/// The bytes of the column's name; none where there is none.
fn name_bytes<'a>(name: Option<&'a ColName>) -> &'a [u8]
    ensures bytes { result.now ≡ unwrap_or (option_copied name.entry) [] }
    ensures named { IfSome (option_copied name.entry) IsColumnName }
{
    match name {
        Some(name) => name.bytes(),
        None => &[],
    }
}

/// What the file is called in its part's folder.
fn push_leaf(text: &mut Vec<u8>, name: &[u8], kind: FileKind) -> Result<(), AllocError>
    requires { kind ≡ PartText → name.now ≡ [] }
    ensures { OnOk result (text.new.items ≡ text.old.items ++ leaf kind name.now) }
{
    text.extend_from_slice(name)?;
    text.extend_from_slice(suffix(kind).as_bytes())?;
    Ok(())
}

/// What stands behind the column's name.
fn suffix(kind: FileKind) -> &'static str
    ensures { result.now ≡ suffix kind }
{
    match kind {
        FileKind::PartText => "-part.txt",
        FileKind::Values => "",
        FileKind::Mask => ".msk",
        FileKind::Words => ".dic",
        FileKind::Starts => ".sp",
        FileKind::Index => ".idx",
    }
}

/// The name that the bytes are known to spell.
fn known_name(alloc: Global, text: &[u8]) -> Result<FileName, AllocError>
    requires { IsFileName text.now }
    ensures { IfOk result (λ file. file ≡ text.now) }
{
    let Ok(text) = str::from_utf8(text) else {
        unreachable!()
    };
    match FileName::from_str(alloc, text)? {
        Some(name) => Ok(name),
        None => unreachable!(),
    }
}
