//! The parts of a load, as the dataset lists them.

ghost use Rattle.std.specs.Prelude.{◌≡◌, ◌+◌, ◌-◌, ◌*◌, ◌<◌, ◌≤◌, [], ◌∷◌, IfOk, OnErr, OnOk, length, min, take};
ghost use Rattle.world.specs.Effects.{new_part, part_count};
ghost use Rattle.world.specs.PartFiles.{part_data};
ghost use Rattle.dataset.specs.Appended.{appended};
ghost use Rattle.dataset.specs.Growing.{with_parts, without_parts};

use crate::content::Dataset;
use fb_types::Columns;
use part_meta::PartMeta;
use std::alloc::{AllocError, Global};

/// How many parts so many rows make.
pub(crate) fn count_of_parts(rows: u64, per_part: u32) -> u64
    requires { 1 ≤ per_part }
    ensures count { result ≡ part_count per_part rows }
    ensures few { result ≤ rows }
{
    rows.div_ceil(u64::from(per_part))
}

/// How many rows the part at a place has.
fn rows_of_part(rows: u64, per_part: u32, place: u32) -> u32
    requires some { 1 ≤ per_part }
    requires there { place < part_count per_part rows }
    ensures { result ≡ min per_part (rows - place * per_part) }
{
    let rest = rows - u64::from(place) * u64::from(per_part);
    rest.min(u64::from(per_part)) as u32
}

/// The new part at a place, where the first one has the number `next`.
pub(crate) fn new_meta(
    alloc: Global,
    columns: &Columns,
    next: u32,
    per_part: u32,
    place: u32,
) -> Result<PartMeta, AllocError>
    requires some { 1 ≤ per_part }
    requires there { place < part_count per_part (length columns.now.records) }
    requires number { next + place < 4096 }
    ensures { IfOk result (λ part. part ≡ part_data columns.now.schema (new_part next per_part columns.now.records place)) }
{
    Ok(PartMeta {
        number: next + place,
        rows: rows_of_part(columns.rows(), per_part, place),
        schema: columns.schema().copy(alloc)?,
    })
}

/// Adds the new parts, all or none.
pub(crate) fn add_parts(
    alloc: Global,
    dataset: &mut Dataset,
    columns: &Columns,
    per_part: u32,
) -> Result<(), AllocError>
    requires schema { dataset.old.schema ≡ columns.now.schema }
    requires some { 1 ≤ per_part }
    requires numbers { dataset.old.next + part_count per_part (length columns.now.records) ≤ 4096 }
    ensures ok { OnOk result (dataset.new ≡ appended dataset.old per_part columns.now.records) }
    ensures err { OnErr result (dataset.new ≡ dataset.old) }
{
    let count = count_of_parts(columns.rows(), per_part) as u32;
    let next = dataset.next;
    for place in 0..count {
        if add_part(alloc, dataset, columns, next, per_part, place).is_err() {
            take_back(dataset, next, place);
            return Err(AllocError);
        }
    }
    dataset.next = next + count;
    Ok(())
}

fn add_part(
    alloc: Global,
    dataset: &mut Dataset,
    columns: &Columns,
    next: u32,
    per_part: u32,
    place: u32,
) -> Result<(), AllocError>
    requires some { 1 ≤ per_part }
    requires there { place < part_count per_part (length columns.now.records) }
    requires number { next + place < 4096 }
    ensures ok { OnOk result (dataset.new ≡ with_parts dataset.old (part_data columns.now.schema (new_part next per_part columns.now.records place) ∷ [])) }
    ensures err { OnErr result (dataset.new ≡ dataset.old) }
{
    let part = new_meta(alloc, columns, next, per_part, place)?;
    dataset.parts.push(part)
}

/// Takes the last so many parts away, so that the next part has the number `next` again.
pub(crate) fn take_back(dataset: &mut Dataset, next: u32, count: u32)
    ensures { dataset.new ≡ without_parts dataset.old next count }
{
    for _ in 0..count {
        dataset.parts.pop();
    }
    dataset.next = next;
}
