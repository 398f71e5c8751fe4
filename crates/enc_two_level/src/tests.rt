ghost use Rattle.std.specs.Prelude.{◌≡◌, ◌<◌, ◌≤◌, All, IfOk, IfSome, IsTrue, length};
ghost use Rattle.index_spec.specs.Counts.{bitmap_count, HasGroups};
ghost use Rattle.binning.specs.Encodings.{HasCount};
ghost use Rattle.enc_two_level.specs.Named.{named};

use super::*;
use binning::{Bin, EncFault, Encoding};
use index_spec::{Coarse, EncodingSpec};
use std::alloc::{AllocError, Global};
use std::marker::Brand;
use std::sync::ledger::Ledger;
use std::test::Fail;
use steps::{Blank, Count, Steps};
use wah_words::{Builder, Wah};

/// How many rows the column has.
const ROWS: u32 = 40;

/// The rows whose bin is from `first` to `end - 1`. The bin of a row is what 17 times it leaves by n + 1; n is no bin.
fn rows_of(alloc: Global, n: u32, first: u32, end: u32) -> Result<Wah, AllocError>
    requires { n < 2000 }
    ensures { IfOk result (λ v. length v ≡ 40) }
{
    let mut out = Builder::with_room(alloc, ROWS)?;
    for row in 0..ROWS {
        let bin = 17 * row % (n + 1);
        out.push_bit(first <= bin && bin < end);
    }
    Ok(out.finish())
}

/// The n bins.
fn bins_of(alloc: Global, n: u32) -> Result<Vec<Bin>, AllocError>
    requires { n < 2000 }
    ensures long { IfOk result (λ v. All (λ b. length b.rows ≡ 40) v.items) }
    ensures number { IfOk result (λ v. length v.items ≡ n) }
{
    let mut bins = Vec::new(alloc);
    for k in 0..n {
        bins.push(Bin {
            least: i128::from(k),
            greatest: i128::from(k),
            rows: rows_of(alloc, n, k, k + 1)?,
        })?;
    }
    Ok(bins)
}

/// The bitmaps at these places, or None where one of them isn't there.
fn fetched<L: Ledger>(
    alloc: Global,
    bitmaps: &[Wah],
    places: &[u32],
    steps: &mut Steps<L>,
) -> Result<Option<Vec<Wah>>, AllocError>
    ensures number { IfOk result (λ o. IfSome o (λ v. length v.items ≡ length places.now)) }
    ensures long { IfOk result (λ o. IfSome o (λ v. All (λ b. length b ≡ 40) v.items)) }
{
    let mut all = Vec::new(alloc);
    for place in places {
        let Some(bitmap) = bitmaps.get(*place as usize) else {
            return Ok(None);
        };
        if bitmap.len() != ROWS {
            return Ok(None);
        }
        all.push(bitmap.copy(alloc, steps)?)?;
    }
    Ok(Some(all))
}

/// Whether there are bitmaps of n bins, and fewer than 2^32.
fn counted(spec: &EncodingSpec, n: u32) -> bool
    requires { HasGroups spec.now }
    ensures { IsTrue result → HasCount (bitmap_count spec.now n) }
{
    match spec.bitmap_count(n) {
        Some(count) => count <= 0xFFFF_FFFF,
        None => false,
    }
}

/// Whether the run's rows are the answer from the bitmaps that it needs.
fn run_agrees<L: Ledger>(
    alloc: Global,
    encoding: &AnyEncoding,
    bitmaps: &[Wah],
    n: u32,
    first: u32,
    end: u32,
    steps: &mut Steps<L>,
) -> Result<bool, AllocError>
    requires groups { HasGroups (named encoding.now) }
    requires order { first < end }
    requires within { end ≤ n }
    requires few { n < 2000 }
    requires counted { HasCount (bitmap_count (named encoding.now) n) }
{
    let mask = rows_of(alloc, n, 0, n)?;
    let places = encoding.needs(alloc, n, first, end)?;
    let Some(read) = fetched(alloc, bitmaps, &places, steps)? else {
        return Ok(false);
    };
    let answer = encoding.eval(alloc, n, first, end, &read, &mask, steps)?;
    let want = rows_of(alloc, n, first, end)?;
    Ok(answer.to_bytes(alloc, steps)? == want.to_bytes(alloc, steps)?)
}

/// The same of each run that begins at a bin.
fn runs_agree<L: Ledger>(
    alloc: Global,
    encoding: &AnyEncoding,
    bitmaps: &[Wah],
    n: u32,
    first: u32,
    steps: &mut Steps<L>,
) -> Result<bool, AllocError>
    requires groups { HasGroups (named encoding.now) }
    requires within { first < n }
    requires few { n < 2000 }
    requires counted { HasCount (bitmap_count (named encoding.now) n) }
{
    for last in first..n {
        if !run_agrees(alloc, encoding, bitmaps, n, first, last + 1, steps)? {
            return Ok(false);
        }
    }
    Ok(true)
}

/// The same of each run of n bins.
fn bins_agree<L: Ledger>(
    alloc: Global,
    spec: &EncodingSpec,
    n: u32,
    steps: &mut Steps<L>,
) -> Result<bool, EncFault>
    requires groups { HasGroups spec.now }
    requires few { n < 2000 }
{
    let encoding = AnyEncoding::of(spec);
    let bins = bins_of(alloc, n)?;
    let bitmaps = encoding.bitmaps(alloc, &bins, ROWS, steps)?;
    if !counted(spec, n) {
        return Ok(false);
    }
    for first in 0..n {
        if !runs_agree(alloc, &encoding, &bitmaps, n, first, steps)? {
            return Ok(false);
        }
    }
    Ok(true)
}

/// The same of all numbers of bins up to 12.
fn all_agree<L: Ledger>(blank: Blank, alloc: Global, spec: EncodingSpec) -> Result<bool, EncFault>
    requires ledger { blank.name ≡ L.name }
    requires parts { blank.parts ≡ L.parts }
    requires some { 0 < blank.parts }
    requires groups { HasGroups spec }
{
    let mut steps = Steps::<L>::new(blank);
    for n in 0..13 {
        if !bins_agree(alloc, &spec, n, &mut steps)? {
            return Ok(false);
        }
    }
    Ok(true)
}

/// The places that a run of three bins needs, where there are so many bitmaps.
fn places_of_three(
    alloc: Global,
    spec: &EncodingSpec,
    first: u32,
    end: u32,
) -> Result<Vec<u32>, AllocError>
    requires groups { HasGroups spec.now }
    requires order { first < end }
    requires within { end ≤ 3 }
{
    if !counted(spec, 3) {
        return Ok(Vec::new(alloc));
    }
    AnyEncoding::of(spec).needs(alloc, 3, first, end)
}

/// How many bins are said to be too many, and of how many, or zeros.
fn too_many<L: Ledger>(
    blank: Blank,
    alloc: Global,
    spec: EncodingSpec,
    n: u32,
) -> Result<(u32, u32), AllocError>
    requires ledger { blank.name ≡ L.name }
    requires parts { blank.parts ≡ L.parts }
    requires some { 0 < blank.parts }
    requires groups { HasGroups spec }
    requires few { n < 2000 }
{
    let mut steps = Steps::<L>::new(blank);
    let bins = bins_of(alloc, n)?;
    match AnyEncoding::of(&spec).bitmaps(alloc, &bins, ROWS, &mut steps) {
        Err(EncFault::TooManyBins { bins, limit }) => Ok((bins, limit)),
        Err(EncFault::OutOfMemory) => Err(AllocError),
        Ok(_) => Ok((0, 0)),
    }
}

#[test]
fn runs_are_the_unions_of_their_bins_by_equality(rt: HostRuntime) -> Result<(), Fail> {
    let alloc = rt.alloc();
    assert!(rt; all_agree::<Brand>(rt.blank(), alloc, EncodingSpec::Equality)?);
    Ok(())
}

#[test]
fn runs_are_the_unions_of_their_bins_by_range(rt: HostRuntime) -> Result<(), Fail> {
    let alloc = rt.alloc();
    assert!(rt; all_agree::<Brand>(rt.blank(), alloc, EncodingSpec::Range)?);
    Ok(())
}

#[test]
fn runs_are_the_unions_of_their_bins_by_interval(rt: HostRuntime) -> Result<(), Fail> {
    let alloc = rt.alloc();
    assert!(rt; all_agree::<Brand>(rt.blank(), alloc, EncodingSpec::Interval)?);
    Ok(())
}

#[test]
fn runs_are_the_unions_of_their_bins_by_two_levels(rt: HostRuntime) -> Result<(), Fail> {
    let alloc = rt.alloc();
    let equality = EncodingSpec::TwoLevel {
        coarse: Coarse::Equality,
        ncoarse: 3,
    };
    let range = EncodingSpec::TwoLevel {
        coarse: Coarse::Range,
        ncoarse: 5,
    };
    let interval = EncodingSpec::TwoLevel {
        coarse: Coarse::Interval,
        ncoarse: 4,
    };
    let one = EncodingSpec::TwoLevel {
        coarse: Coarse::Equality,
        ncoarse: 1,
    };
    assert!(rt; all_agree::<Brand>(rt.blank(), alloc, equality)?);
    assert!(rt; all_agree::<Brand>(rt.blank(), alloc, range)?);
    assert!(rt; all_agree::<Brand>(rt.blank(), alloc, interval)?);
    assert!(rt; all_agree::<Brand>(rt.blank(), alloc, one)?);
    Ok(())
}

#[test]
fn one_of_three_bins_needs_these(rt: HostRuntime) -> Result<(), Fail> {
    let alloc = rt.alloc();
    let two = EncodingSpec::TwoLevel {
        coarse: Coarse::Equality,
        ncoarse: 2,
    };
    let equality = places_of_three(alloc, &EncodingSpec::Equality, 1, 2)?;
    assert_eq!(rt; equality.as_slice(), [1].as_slice());
    let range = places_of_three(alloc, &EncodingSpec::Range, 1, 2)?;
    assert_eq!(rt; range.as_slice(), [0, 1].as_slice());
    let last = places_of_three(alloc, &EncodingSpec::Range, 2, 3)?;
    assert_eq!(rt; last.as_slice(), [1].as_slice());
    let interval = places_of_three(alloc, &EncodingSpec::Interval, 2, 3)?;
    assert_eq!(rt; interval.as_slice(), [0, 1].as_slice());
    let fine = places_of_three(alloc, &two, 1, 2)?;
    assert_eq!(rt; fine.as_slice(), [3].as_slice());
    let coarse = places_of_three(alloc, &two, 2, 3)?;
    assert_eq!(rt; coarse.as_slice(), [1].as_slice());
    Ok(())
}

#[test]
fn over_1024_bins_are_too_many(rt: HostRuntime) -> Result<(), Fail> {
    let alloc = rt.alloc();
    assert_eq!(rt;
        too_many::<Brand>(rt.blank(), alloc, EncodingSpec::Range, 1025)?,
        (1025, 1024)
    );
    assert_eq!(rt;
        too_many::<Brand>(rt.blank(), alloc, EncodingSpec::Interval, 1025)?,
        (1025, 1024)
    );
    assert_eq!(rt;
        too_many::<Brand>(rt.blank(), alloc, EncodingSpec::Equality, 1025)?,
        (0, 0)
    );
    Ok(())
}
