//! Opening a dataset: its catalog, and the text of each part that the catalog lists.

ghost use Rattle.std.specs.Prelude.{◌≡◌, ◌<◌, ◌↔◌, IfErr, IfOk, IfSome, IsErrOf, IsTrue, MatchOption, map};
ghost use Rattle.std.specs.List.{All};
ghost use Rattle.fb_outside.specs.Causes.{HasCause};
ghost use Rattle.fb_outside.specs.Files.{SameFiles};
ghost use Rattle.fb_outside.specs.Names.{IsPath};
ghost use Rattle.fb_outside.specs.Reads.{AddsOnly, whole_look};
ghost use Rattle.part_meta.specs.CatalogText.{IsCatalog};
ghost use Rattle.part_meta.specs.FileNames.{part_name};
ghost use Rattle.part_meta.specs.PartText.{IsPart};
ghost use Rattle.dataset.specs.Damage.{IsNext, IsNoText, IsPartText, NamesText, Unopened, damaged};
ghost use Rattle.dataset.specs.Looks.{IsListedLook};
ghost use Rattle.dataset.specs.Opened.{HasCatalog, HasPart, IsDataset, IsTextLook, OpensAs};

use crate::content::Dataset;
use crate::fault::{DamageKind, OpenFault};
use fb_outside::{FileName, Store, file_bytes};
use fb_types::{Column, Schema};
use part_meta::{
    Catalog, FileKind, MetaTextFault, PartMeta, catalog_of, file_of, parse_catalog, parse_part,
};
use sqlite_items::Items;
use std::alloc::{AllocError, Global};

/// The dataset at the path. Of its files the catalog and the listed parts' texts are read, and no others.
pub fn open_dataset<S: Store>(
    alloc: Global,
    store: &mut S,
    dir: &FileName,
) -> Result<Dataset, OpenFault>
    requires path { IsPath dir.now }
    ensures cause { HasCause (S.faults store.old) (S.faults store.new) (IsErrOf result OpenFault.Store) }
    ensures files { SameFiles (S.files store.old) (S.files store.new) }
    ensures reads { AddsOnly (IsTextLook dir.now) (S.reads store.old) (S.reads store.new) }
    ensures listed { IfSome (S.files store.old) (λ m. AddsOnly (IsListedLook m dir.now) (S.reads store.old) (S.reads store.new)) }
    ensures valid { IfOk result IsDataset }
    ensures path { IfOk result (λ dataset. dataset.dir ≡ dir.now) }

    // The files open as it, or have a first fault.
    ensures opened { IfOk result (λ dataset. IfSome (S.files store.old) (λ m. OpensAs m dir.now dataset)) }
    ensures unopened { IfErr result (λ fault. IfSome (S.files store.old) (λ m. Unopened m dir.now fault)) }
    ensures named { IfErr result (NamesText dir.now) }
{
    let catalog = read_catalog(alloc, store, dir)?;
    let parts = read_parts(alloc, store, dir, &catalog)?;
    let dir = dir.copy(alloc)?;
    Ok(Dataset {
        dir,
        schema: catalog.schema,
        next: catalog.next,
        parts,
    })
}

#[tactic(auto, using(crate::proofs::LookLemmas::catalog_listed, crate::proofs::LookLemmas::told_same))]
fn read_catalog<S: Store>(
    alloc: Global,
    store: &mut S,
    dir: &FileName,
) -> Result<Catalog, OpenFault>
    requires path { IsPath dir.now }
    ensures cause { HasCause (S.faults store.old) (S.faults store.new) (IsErrOf result OpenFault.Store) }
    ensures files { SameFiles (S.files store.old) (S.files store.new) }
    ensures reads { AddsOnly (IsTextLook dir.now) (S.reads store.old) (S.reads store.new) }
    ensures listed { IfSome (S.files store.old) (λ m. AddsOnly (IsListedLook m dir.now) (S.reads store.old) (S.reads store.new)) }
    ensures valid { IfOk result IsCatalog }
    ensures read { IfOk result (λ catalog. IfSome (S.files store.old) (λ m. HasCatalog m dir.now catalog)) }
    ensures unread { IfErr result (λ fault. IfSome (S.files store.old) (λ m. Unopened m dir.now fault)) }
    ensures named { IfErr result (NamesText dir.now) }
{
    let file = catalog_of(alloc, dir)?;
    let Some(bytes) = file_bytes(alloc, store, &file)? else {
        return Err(OpenFault::NoDataset);
    };
    match parse_catalog(alloc, &bytes) {
        Ok(catalog) => Ok(catalog),
        Err(MetaTextFault::At { .. }) => Err(damaged(file, DamageKind::Text)),
        Err(MetaTextFault::OutOfMemory) => Err(OpenFault::OutOfMemory),
    }
}

/// What the texts of the catalog's parts say.
fn read_parts<S: Store>(
    alloc: Global,
    store: &mut S,
    dir: &FileName,
    catalog: &Catalog,
) -> Result<Items<PartMeta>, OpenFault>
    requires path { IsPath dir.now }
    requires valid { IsCatalog catalog.now }
    ensures cause { HasCause (S.faults store.old) (S.faults store.new) (IsErrOf result OpenFault.Store) }
    ensures files { SameFiles (S.files store.old) (S.files store.new) }
    ensures reads { AddsOnly (IsTextLook dir.now) (S.reads store.old) (S.reads store.new) }
    ensures listed { IfSome (S.files store.old)
        (λ m. HasCatalog m dir.now catalog.now → AddsOnly (IsListedLook m dir.now) (S.reads store.old) (S.reads store.new)) }
    ensures numbers { IfOk result (λ parts. map (λ part. part.number) parts ≡ catalog.now.parts) }
    ensures valid { IfOk result (All (λ part. IsPart part × (part.schema ≡ catalog.now.schema))) }
    ensures read { IfOk result (λ parts. IfSome (S.files store.old)
        (λ m. All (λ part. HasPart m dir.now part × (part.schema ≡ catalog.now.schema)) parts)) }
    ensures unread { IfErr result (λ fault. IfSome (S.files store.old)
        (λ m. HasCatalog m dir.now catalog.now → Unopened m dir.now fault)) }
    ensures named { IfErr result (NamesText dir.now) }
{
    let mut parts = Items::new(alloc);
    for number in catalog.parts.as_slice() {
        let part = read_part(alloc, store, dir, catalog, *number)?;
        parts.push(part)?;
    }
    Ok(parts)
}

/// What the text of the part of that number says.
#[tactic(auto, using(crate::proofs::LookLemmas::part_whole, crate::proofs::LookLemmas::told_same))]
fn read_part<S: Store>(
    alloc: Global,
    store: &mut S,
    dir: &FileName,
    catalog: &Catalog,
    number: u32,
) -> Result<PartMeta, OpenFault>
    requires path { IsPath dir.now }
    requires number { number < 4096 }
    ensures cause { HasCause (S.faults store.old) (S.faults store.new) (IsErrOf result OpenFault.Store) }
    ensures files { SameFiles (S.files store.old) (S.files store.new) }
    ensures reads { AddsOnly (IsTextLook dir.now) (S.reads store.old) (S.reads store.new) }
    ensures whole { IfSome (S.files store.old)
        (λ m. AddsOnly (λ look. look ≡ whole_look m (part_name dir.now number)) (S.reads store.old) (S.reads store.new)) }
    ensures number { IfOk result (λ part. part.number ≡ number) }
    ensures valid { IfOk result (λ part. IsPart part × (part.schema ≡ catalog.now.schema)) }
    ensures read { IfOk result (λ part. IfSome (S.files store.old) (λ m. HasPart m dir.now part)) }
    ensures unread { IfErr result (λ fault. IfSome (S.files store.old)
        (λ m. HasCatalog m dir.now catalog.now → IsNext m dir.now catalog.now number → Unopened m dir.now fault)) }
    ensures named { IfErr result (NamesText dir.now) }
{
    let file = file_of(alloc, dir, number, None, FileKind::PartText)?;
    let Some(bytes) = file_bytes(alloc, store, &file)? else {
        return Err(damaged(file, DamageKind::Missing));
    };
    match part_of(alloc, &bytes, catalog, number)? {
        Some(part) => Ok(part),
        None => Err(damaged(file, DamageKind::Text)),
    }
}

/// The part of that number and with the catalog's columns that the bytes spell; `None` where they spell none.
fn part_of(
    alloc: Global,
    bytes: &[u8],
    catalog: &Catalog,
    number: u32,
) -> Result<Option<PartMeta>, AllocError>
    ensures { IfOk result (λ found. MatchOption found (IsNoText catalog.now number bytes.now)
        (λ part. IsPartText catalog.now number part bytes.now)) }
{
    match parse_part(alloc, bytes) {
        Ok(part) => {
            if part.number == number && is_same_schema(&part.schema, &catalog.schema) {
                Ok(Some(part))
            } else {
                Ok(None)
            }
        }
        Err(MetaTextFault::At { .. }) => Ok(None),
        Err(MetaTextFault::OutOfMemory) => Err(AllocError),
    }
}

fn damaged(file: FileName, kind: DamageKind) -> OpenFault
    ensures { result ≡ damaged file kind }
{
    OpenFault::Damaged {
        file,
        kind,
        want: 0,
        have: 0,
    }
}

fn is_same_schema(a: &Schema, b: &Schema) -> bool
    ensures { IsTrue result ↔ (a.now ≡ b.now) }
{
    let columns = a.columns();
    let others = b.columns();
    if columns.len() != others.len() {
        return false;
    }
    for (i, column) in columns.iter().enumerate() {
        if !is_same_column(column, &others[i]) {
            return false;
        }
    }
    true
}

fn is_same_column(a: &Column, b: &Column) -> bool
    ensures { IsTrue result ↔ (a.now ≡ b.now) }
{
    a.name.bytes() == b.name.bytes() && a.ty == b.ty
}
