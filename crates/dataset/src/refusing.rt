//! Why a load is refused.

ghost use Rattle.std.specs.Prelude.{◌≡◌, ◌+◌, ◌≤◌, None, IfErr, IfOk, IsErrOf, OnOk, length};
ghost use Rattle.world.specs.Effects.{part_count};
ghost use Rattle.dataset.specs.Appended.{Refuses, first_difference, is_same_column, refusal, too_many};
ghost use Rattle.dataset.specs.Opened.{catalog_in};
ghost use Rattle.dataset.specs.Refusing.{is_same_at};

use crate::content::Dataset;
use crate::fault::AppendFault;
use crate::growing::count_of_parts;
use fb_types::{Column, Columns};

/// A dataset has at most so many parts.
const MOST_PARTS: u64 = 1024;

/// Part numbers are below this.
const MOST_NUMBERS: u64 = 4096;

#[tactic(auto, using(crate::proofs::RefusalLemmas::refused_by, crate::proofs::RefusalLemmas::refused_column, crate::proofs::RefusalLemmas::no_difference))]
/// How many parts the records make, or why they aren't loaded.
pub(crate) fn accepted(
    dataset: &Dataset,
    columns: &Columns,
    per_part: u32,
) -> Result<u32, AppendFault>
    requires { 1 ≤ per_part }
    ensures accepts { OnOk result (refusal (catalog_in dataset.now) columns.now.schema per_part (length columns.now.records) ≡ None) }
    ensures refuses { IfErr result (Refuses (refusal (catalog_in dataset.now) columns.now.schema per_part (length columns.now.records))) }
    ensures count { IfOk result (λ count. count ≡ part_count per_part (length columns.now.records)) }
    ensures schema { OnOk result (dataset.now.schema ≡ columns.now.schema) }
    ensures parts { OnOk result (length dataset.now.parts + part_count per_part (length columns.now.records) ≤ 1024) }
    ensures numbers { OnOk result (dataset.now.next + part_count per_part (length columns.now.records) ≤ 4096) }
    ensures unfailed { IsErrOf result AppendFault.Store → ⊥ }
{
    if let Some(column) = first_difference(dataset.schema.columns(), columns.schema().columns()) {
        return Err(AppendFault::SchemaDiffers { column });
    }
    let count = count_of_parts(columns.rows(), per_part);
    // So many records don't fit into any memory.
    let Some(parts) = count.checked_add(dataset.parts.len() as u64) else {
        return Err(AppendFault::OutOfMemory);
    };
    let Some(next) = count.checked_add(u64::from(dataset.next)) else {
        return Err(AppendFault::OutOfMemory);
    };
    few_enough(parts, next)?;
    Ok(count as u32)
}

/// Refuses too many parts, and numbers that are too great.
fn few_enough(parts: u64, next: u64) -> Result<(), AppendFault>
    ensures accepts { OnOk result (too_many parts next ≡ None) }
    ensures few { OnOk result ((parts ≤ 1024) × (next ≤ 4096)) }
    ensures refuses { IfErr result (Refuses (too_many parts next)) }
    ensures unfailed { IsErrOf result AppendFault.Store → ⊥ }
{
    if parts > MOST_PARTS {
        return Err(AppendFault::TooManyParts {
            number: parts,
            limit: MOST_PARTS,
        });
    }
    if next > MOST_NUMBERS {
        return Err(AppendFault::TooManyNumbers {
            number: next,
            limit: MOST_NUMBERS,
        });
    }
    Ok(())
}

/// The number, from 1, of the first column whose name or type differs, or that one side lacks.
fn first_difference(ours: &[Column], given: &[Column]) -> Option<u32>
    requires few { length ours.now ≤ 255 }
    ensures { result ≡ first_difference ours.now given.now }
{
    for (col, column) in ours.iter().enumerate() {
        if !is_at(given, col, column) {
            return Some(col as u32 + 1);
        }
    }
    if ours.len() == given.len() {
        None
    } else {
        Some(ours.len() as u32 + 1)
    }
}

/// Whether that column stands at this place.
fn is_at(columns: &[Column], col: usize, wanted: &Column) -> bool
    ensures { result ≡ is_same_at columns.now col wanted.now }
{
    match columns.get(col) {
        Some(column) => is_same(wanted, column),
        None => false,
    }
}

fn is_same(a: &Column, b: &Column) -> bool
    ensures { result ≡ is_same_column a.now b.now }
{
    a.name.bytes() == b.name.bytes() && a.ty.name() == b.ty.name()
}
