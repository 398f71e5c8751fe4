ghost use Rattle.std.specs.Prelude.{◌≡◌, ◌<◌, ◌≤◌, length};
ghost use Rattle.std.specs.List.{AllByRecursion};
ghost use Rattle.index_spec.specs.Language.{IsGivenBinning};
ghost use Rattle.binning.specs.Spans.{IsInRange};

use super::*;
use index_spec::Binning;
use std::alloc::{AllocError, Global};
use std::marker::Brand;
use std::sync::ledger::Ledger;
use std::test::Fail;
use steps::{Blank, Count, Steps};
use wah_iter::ones;
use wah_words::{Builder, Wah};

/// A mask of so many rows, at most 30, that are all there.
fn all_rows(alloc: Global, count: u32) -> Result<Wah, AllocError>
    requires some { 0 < count }
    requires few { count < 31 }
{
    let mut builder = Builder::with_room(alloc, 1)?;
    builder.push_tail((1 << count) - 1, count);
    Ok(builder.finish())
}

/// Appends the rows of a vector.
fn push_rows<L: Ledger>(
    numbers: &mut Vec<i128>,
    rows: &Wah,
    steps: &mut Steps<L>,
) -> Result<(), AllocError> {
    let mut walk = ones(rows);
    while let Some(row) = walk.advance(steps) {
        numbers.push(i128::from(row))?;
    }
    Ok(())
}

/// The least and the greatest value and the rows of each bin.
fn numbers_of<L: Ledger>(
    alloc: Global,
    found: &[Bin],
    steps: &mut Steps<L>,
) -> Result<Vec<i128>, AllocError> {
    let mut numbers = Vec::new(alloc);
    for bin in found {
        numbers.push(bin.least)?;
        numbers.push(bin.greatest)?;
        push_rows(&mut numbers, &bin.rows, steps)?;
    }
    Ok(numbers)
}

/// The least and the greatest value and the rows of each bin of these values.
fn numbers_of_bins<L: Ledger>(
    blank: Blank,
    alloc: Global,
    binning: &Binning,
    values: &[i128],
) -> Result<Option<Vec<i128>>, AllocError>
    requires ledger { blank.name ≡ L.name }
    requires parts { blank.parts ≡ L.parts }
    requires some { 0 < blank.parts }
    requires given { IsGivenBinning binning.now }
    requires within { AllByRecursion IsInRange values.now }
{
    let mut steps = Steps::<L>::new(blank);
    let count = values.len();
    if count == 0 || count > 30 {
        return Ok(None);
    }
    let mask = all_rows(alloc, count as u32)?;
    if mask.len() as usize != count {
        return Ok(None);
    }
    let rule = make_rule(alloc, binning, values, &mask, &mut steps)?;
    let found = bins(alloc, &rule, values, &mask, &mut steps)?;
    Ok(Some(numbers_of(alloc, &found, &mut steps)?))
}

/// The same of values that come in two blocks, each value a bin.
fn numbers_of_blocks<L: Ledger>(
    blank: Blank,
    alloc: Global,
    first: &[i128],
    second: &[i128],
) -> Result<Option<Vec<i128>>, AllocError>
    requires ledger { blank.name ≡ L.name }
    requires parts { blank.parts ≡ L.parts }
    requires some { 0 < blank.parts }
    requires within { AllByRecursion IsInRange first.now }
    requires also { AllByRecursion IsInRange second.now }
{
    let mut steps = Steps::<L>::new(blank);
    let count = first.len();
    if count == 0 || count > 30 || second.len() != count {
        return Ok(None);
    }
    let mask = all_rows(alloc, count as u32)?;
    if mask.len() as usize != count {
        return Ok(None);
    }
    let rule = make_rule(alloc, &Binning::Each, first, &mask, &mut steps)?;
    let gatherer = Gatherer::make(alloc, rule);
    let gatherer = gatherer.add(first, &mask, &mut steps)?;
    let gatherer = gatherer.add(second, &mask, &mut steps)?;
    let found = gatherer.finish()?;
    Ok(Some(numbers_of(alloc, &found, &mut steps)?))
}

#[test]
fn bins_are_made(rt: HostRuntime) -> Result<(), Fail> {
    let alloc = rt.alloc();
    let values = [1, 2, 3, 4, 5, 6, 7, 8, 9, 10];
    let weight = Binning::Weight { count: 3 };
    let found = numbers_of_bins::<Brand>(rt.blank(), alloc, &weight, &values)?.ok_or("too many")?;
    let wanted = [1, 3, 0, 1, 2, 4, 6, 3, 4, 5, 7, 10, 6, 7, 8, 9];
    assert_eq!(rt; found.as_slice(), wanted.as_slice());
    let precision = Binning::Precision { digits: 1 };
    let values = [7, 12, 19, 20, -15];
    let found = numbers_of_bins::<Brand>(rt.blank(), alloc, &precision, &values)?.ok_or(
        "too many",
    )?;
    let wanted = [-15, -15, 4, 7, 7, 0, 12, 19, 1, 2, 20, 20, 3];
    assert_eq!(rt; found.as_slice(), wanted.as_slice());
    Ok(())
}

#[test]
fn widths_are_cut(rt: HostRuntime) -> Result<(), Fail> {
    let alloc = rt.alloc();
    let width = Binning::Width {
        start: 0,
        end: 10,
        count: 4,
    };
    let values = [-1, 0, 1, 2, 4, 5, 6, 7, 9, 10, 11];
    let found = numbers_of_bins::<Brand>(rt.blank(), alloc, &width, &values)?.ok_or("too many")?;
    let wanted = [
        -1, -1, 0, 0, 1, 1, 2, 2, 4, 3, 4, 5, 6, 5, 6, 7, 9, 7, 8, 10, 11, 9, 10,
    ];
    assert_eq!(rt; found.as_slice(), wanted.as_slice());
    Ok(())
}

#[test]
fn blocks_are_joined(rt: HostRuntime) -> Result<(), Fail> {
    let alloc = rt.alloc();
    let found = numbers_of_blocks::<Brand>(
        rt.blank(),
        alloc,
        &[7, -2, 7, 9],
        &[9, 7, 3, -2],
    )?.ok_or("too many")?;
    let wanted = [-2, -2, 1, 7, 3, 3, 6, 7, 7, 0, 2, 5, 9, 9, 3, 4];
    assert_eq!(rt; found.as_slice(), wanted.as_slice());
    Ok(())
}
