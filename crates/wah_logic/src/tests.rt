ghost use Rattle.std.specs.Prelude.{◌≡◌, ◌+◌, ◌*◌, ◌%◌, ◌<◌, ◌≤◌, All, length, IfOk};
ghost use Rattle.wah_words.specs.Limits.{most_bits};

use super::*;
use std::alloc::{AllocError, Global};
use std::marker::Brand;
use std::sync::ledger::Ledger;
use std::test::Fail;
use steps::{Blank, Count, Steps};
use wah_words::{Builder, MAX_LEN, Wah};

/// The list of these runs of values.
fn listed(alloc: Global, runs: &[(bool, u32)]) -> Result<Vec<bool>, AllocError> {
    let mut values = Vec::new(alloc);
    for (value, count) in runs {
        for _ in 0..*count {
            values.push(*value)?;
        }
    }
    Ok(values)
}

/// The vector of these values, where there is room for them.
fn built(alloc: Global, values: &[bool]) -> Result<Option<Wah>, AllocError> {
    let mut builder = Builder::with_room(alloc, 40)?;
    for value in values {
        if builder.spare() == 0 || builder.len() >= MAX_LEN {
            return Ok(None);
        }
        builder.push_bit(*value);
    }
    Ok(Some(builder.finish()))
}

/// The vector of the operation, place by place.
fn plain<O: BitOp>(alloc: Global, a: &[bool], b: &[bool]) -> Result<Option<Wah>, AllocError> {
    let mut values = Vec::new(alloc);
    for (x, y) in a.iter().zip(b) {
        values.push(O::on_bit(*x, *y))?;
    }
    built(alloc, &values)
}

/// The bytes of the operation on two vectors.
fn combined<O: BitOp, L: Ledger>(
    alloc: Global,
    a: &Wah,
    b: &Wah,
    steps: &mut Steps<L>,
) -> Result<Vec<u8>, AllocError>
    requires { length a.now ≡ length b.now }
{
    let out = Builder::with_room(alloc, a.words() + b.words())?;
    combine::<O, L>(a, b, out, steps).to_bytes(alloc, steps)
}

/// Whether the operation on the vectors of two lists has the bytes of the vector of the operation on the lists.
fn agrees<O: BitOp, L: Ledger>(
    alloc: Global,
    a: &[bool],
    b: &[bool],
    steps: &mut Steps<L>,
) -> Result<bool, AllocError> {
    let Some(x) = built(alloc, a)? else {
        return Ok(false);
    };
    let Some(y) = built(alloc, b)? else {
        return Ok(false);
    };
    let Some(want) = plain::<O>(alloc, a, b)? else {
        return Ok(false);
    };
    if x.len() != y.len() {
        return Ok(false);
    }
    let bytes = combined::<O, L>(alloc, &x, &y, steps)?;
    Ok(bytes == want.to_bytes(alloc, steps)?)
}

/// Whether all four operations agree with the lists.
fn all_agree<L: Ledger>(
    blank: Blank,
    alloc: Global,
    a: &[bool],
    b: &[bool],
) -> Result<bool, AllocError>
    requires ledger { blank.name ≡ L.name }
    requires parts { blank.parts ≡ L.parts }
    requires some { 0 < blank.parts }
{
    let mut steps = Steps::<L>::new(blank);
    Ok(
        agrees::<And, L>(alloc, a, b, &mut steps)?
            && agrees::<Or, L>(alloc, a, b, &mut steps)?
            && agrees::<Xor, L>(alloc, a, b, &mut steps)?
            && agrees::<AndNot, L>(alloc, a, b, &mut steps)?,
    )
}

/// What the operations give of two vectors: the bytes of the and, of the complement of the first and of the union of
/// both, and how many places are true in both.
#[derive(Drop)]
struct Answers {
    and: Vec<u8>,
    complement: Vec<u8>,
    union: Vec<u8>,
    common: u64,
}

fn answered<L: Ledger>(
    blank: Blank,
    alloc: Global,
    a: Wah,
    b: Wah,
) -> Result<Option<Answers>, AllocError>
    requires ledger { blank.name ≡ L.name }
    requires parts { blank.parts ≡ L.parts }
    requires some { 0 < blank.parts }
{
    let mut steps = Steps::<L>::new(blank);
    if a.len() != b.len() {
        return Ok(None);
    }
    let and = combined::<And, L>(alloc, &a, &b, &mut steps)?;
    let complement = complement(alloc, &a, &mut steps)?.to_bytes(alloc, &mut steps)?;
    let common = common(&a, &b, &mut steps);
    let len = a.len();
    let union = or_many(alloc, &[&a, &b], len, &mut steps)?.to_bytes(alloc, &mut steps)?;
    Ok(Some(Answers {
        and,
        complement,
        union,
        common,
    }))
}

fn union_of_none<L: Ledger>(blank: Blank, alloc: Global) -> Result<Vec<u8>, AllocError>
    requires ledger { blank.name ≡ L.name }
    requires parts { blank.parts ≡ L.parts }
    requires some { 0 < blank.parts }
{
    let mut steps = Steps::<L>::new(blank);
    let none: [Wah; 0] = [];
    or_many(alloc, &none, 62, &mut steps)?.to_bytes(alloc, &mut steps)
}

/// Appends so many groups that are all false.
fn push_zeros(out: &mut Builder, groups: u32)
    requires aligned { length out.old.values % 31 ≡ 0 }
    requires room { 1 ≤ out.old.spare }
    requires limit { length out.old.values + 31 * groups ≤ most_bits }
    ensures length { length out.new.values ≡ length out.old.values + 31 * groups }
    ensures spare { out.old.spare ≤ out.new.spare + 1 }
{
    if groups > 0 {
        out.push_fill(false, groups);
    }
}

/// Appends a group that begins with its one true value.
fn push_first(out: &mut Builder)
    requires aligned { length out.old.values % 31 ≡ 0 }
    requires room { 1 ≤ out.old.spare }
    requires limit { length out.old.values + 31 ≤ most_bits }
    ensures length { length out.new.values ≡ length out.old.values + 31 }
    ensures spare { out.old.spare ≤ out.new.spare + 1 }
{
    out.push_literal(0x4000_0000);
}

/// So many groups, of which the one at this place begins with a true value and all else is false.
fn first_of_group(alloc: Global, place: u32, groups: u32) -> Result<Wah, AllocError>
    requires place { place < groups }
    requires limit { groups ≤ 1024 }
    ensures { IfOk result (λ v. length v ≡ 31 * groups) }
{
    let mut out = Builder::with_room(alloc, 3)?;
    push_zeros(&mut out, place);
    push_first(&mut out);
    push_zeros(&mut out, groups - 1 - place);
    Ok(out.finish())
}

/// One of these for each of the first `count` groups.
fn first_of_each_group(alloc: Global, count: u32, groups: u32) -> Result<Vec<Wah>, AllocError>
    requires some { count ≤ groups }
    requires limit { groups ≤ 1024 }
    ensures { IfOk result (λ vs. All (λ v. length v ≡ 31 * groups) vs.items) }
{
    let mut vectors = Vec::new(alloc);
    for place in 0..count {
        vectors.push(first_of_group(alloc, place, groups)?)?;
    }
    Ok(vectors)
}

/// The bytes of the union of these.
fn union_of_groups<L: Ledger>(
    blank: Blank,
    alloc: Global,
    count: u32,
    groups: u32,
) -> Result<Vec<u8>, AllocError>
    requires ledger { blank.name ≡ L.name }
    requires parts { blank.parts ≡ L.parts }
    requires some { 0 < blank.parts }
    requires within { count ≤ groups }
    requires limit { groups ≤ 1024 }
{
    let mut steps = Steps::<L>::new(blank);
    let vectors = first_of_each_group(alloc, count, groups)?;
    or_many(alloc, &vectors, 31 * groups, &mut steps)?.to_bytes(alloc, &mut steps)
}

/// Whether the vector at this place has this row: one row of 37, four whole groups, or the last ten rows.
fn has_row(place: u32, row: u32) -> bool {
    match place {
        30 => (93..217).contains(&row),
        31 => row >= 990,
        _ => row % 37 == place,
    }
}

/// Whether one of the first 32 of these has it.
fn one_has_row(row: u32) -> bool {
    for place in 0..32 {
        if has_row(place, row) {
            return true;
        }
    }
    false
}

/// Which of the first 1,000 rows the vector has.
fn rows_of(alloc: Global, place: u32) -> Result<Vec<bool>, AllocError> {
    let mut values = Vec::new(alloc);
    for row in 0..1000 {
        values.push(has_row(place, row))?;
    }
    Ok(values)
}

/// Which of them one vector at least has.
fn rows_of_one(alloc: Global) -> Result<Vec<bool>, AllocError> {
    let mut values = Vec::new(alloc);
    for row in 0..1000 {
        values.push(one_has_row(row))?;
    }
    Ok(values)
}

/// These vectors, where there is room for each.
fn vectors_of_rows(alloc: Global) -> Result<Vec<Wah>, AllocError>
    ensures { IfOk result (λ vs. All (λ v. length v ≡ 1000) vs.items) }
{
    let mut vectors = Vec::new(alloc);
    for place in 0..32 {
        let Some(vector) = built(alloc, &rows_of(alloc, place)?)? else {
            return Ok(vectors);
        };
        if vector.len() != 1000 {
            return Ok(vectors);
        }
        vectors.push(vector)?;
    }
    Ok(vectors)
}

/// Whether the union of these has the bytes of the vector of all rows.
fn rows_agree<L: Ledger>(blank: Blank, alloc: Global) -> Result<bool, AllocError>
    requires ledger { blank.name ≡ L.name }
    requires parts { blank.parts ≡ L.parts }
    requires some { 0 < blank.parts }
{
    let mut steps = Steps::<L>::new(blank);
    let Some(want) = built(alloc, &rows_of_one(alloc)?)? else {
        return Ok(false);
    };
    let vectors = vectors_of_rows(alloc)?;
    let bytes = or_many(alloc, &vectors, 1000, &mut steps)?.to_bytes(alloc, &mut steps)?;
    Ok(bytes == want.to_bytes(alloc, &mut steps)?)
}

/// The first pairs of two vectors.
fn pairs_of<L: Ledger>(
    blank: Blank,
    alloc: Global,
    a: &Wah,
    b: &Wah,
) -> Result<Vec<Pair>, AllocError>
    requires ledger { blank.name ≡ L.name }
    requires parts { blank.parts ≡ L.parts }
    requires some { 0 < blank.parts }
{
    let mut steps = Steps::<L>::new(blank);
    let mut pairs = Vec::new(alloc);
    if a.len() != b.len() {
        return Ok(pairs);
    }
    let mut both = Lockstep::over(a, b);
    while let Some(pair) = both.advance(&mut steps) {
        pairs.push(pair)?;
    }
    Ok(pairs)
}

const NOTHING: &[u8] = &[124, 0, 0, 0, 1, 0, 0, 0, 4, 0, 0, 0x80];

const NO_VECTORS: &[u8] = &[62, 0, 0, 0, 1, 0, 0, 0, 2, 0, 0, 0x80];

const ALL: &[u8] = &[124, 0, 0, 0, 1, 0, 0, 0, 4, 0, 0, 0xC0];

const FEW: &[u8] = &[
    124, 0, 0, 0, 4, 0, 0, 0, 1, 0, 0, 0, 2, 0, 0, 0, 4, 0, 0, 0, 1, 0, 0, 0xC0,
];

#[test]
fn ones_leave_the_other_vector(rt: HostRuntime) -> Result<(), Fail> {
    let (a, _) = Wah::from_bytes(rt.alloc(), ALL)?;
    let (b, _) = Wah::from_bytes(rt.alloc(), FEW)?;
    let answers = answered::<Brand>(rt.blank(), rt.alloc(), a, b)?.ok_or("two lengths")?;
    assert_eq!(rt; answers.and.as_slice(), FEW);
    assert_eq!(rt; answers.common, 34);
    assert_eq!(rt; answers.complement.as_slice(), NOTHING);
    assert_eq!(rt; answers.union.as_slice(), ALL);
    let none = union_of_none::<Brand>(rt.blank(), rt.alloc())?;
    assert_eq!(rt; none.as_slice(), NO_VECTORS);
    Ok(())
}

/// The vectors have 3,070 words in all, for 1,024 groups, so the union is gathered: it takes at most 3,070 steps.
#[test]
fn union_of_many_has_the_rows_of_each(rt: HostRuntime) -> Result<(), Fail> {
    let bytes = union_of_groups::<Brand>(rt.blank(), rt.alloc(), 1024, 1024)?;
    let mut want = vec![in rt.alloc(); 0, 0x7C, 0, 0, 0, 4, 0, 0]?;
    for _ in 0..1024 {
        want.extend_from_slice(&[0, 0, 0, 0x40])?;
    }
    assert_eq!(rt; bytes.as_slice(), want.as_slice());
    Ok(())
}

/// The 32 vectors have far more words than there are groups, and the last group isn't whole.
#[test]
fn a_dense_union_has_the_rows_of_each(rt: HostRuntime) -> Result<(), Fail> {
    assert!(rt; rows_agree::<Brand>(rt.blank(), rt.alloc())?);
    Ok(())
}

/// Of one to nine vectors, which have fewer words than there are groups, so that they are joined in pairs.
#[test]
fn unions_of_few_leave_none_out(rt: HostRuntime) -> Result<(), Fail> {
    for count in 1..10 {
        let bytes = union_of_groups::<Brand>(rt.blank(), rt.alloc(), count, 40)?;
        let mut want = vec![in rt.alloc(); 0xD8, 4, 0, 0, count as u8 + 1, 0, 0, 0]?;
        for _ in 0..count {
            want.extend_from_slice(&[0, 0, 0, 0x40])?;
        }
        want.extend_from_slice(&[40 - count as u8, 0, 0, 0x80])?;
        assert_eq!(rt; bytes.as_slice(), want.as_slice());
    }
    Ok(())
}

#[test]
fn pairs_stand_at_equal_places(rt: HostRuntime) -> Result<(), Fail> {
    let (a, _) = Wah::from_bytes(rt.alloc(), ALL)?;
    let (b, _) = Wah::from_bytes(rt.alloc(), FEW)?;
    let pairs = pairs_of::<Brand>(rt.blank(), rt.alloc(), &a, &b)?;
    let want = [
        Pair::Words {
            a: 0x7FFF_FFFF,
            b: 1,
        },
        Pair::Words {
            a: 0x7FFF_FFFF,
            b: 2,
        },
        Pair::Words {
            a: 0x7FFF_FFFF,
            b: 4,
        },
        Pair::Fills {
            a: true,
            b: true,
            groups: 1,
        },
    ];
    assert_eq!(rt; pairs.as_slice(), want.as_slice());
    Ok(())
}

type Runs = &'static [(bool, u32)];

const NONE: Runs = &[];

const SHORT: Runs = &[(true, 40), (false, 5)];

const LATE: Runs = &[(false, 3), (true, 42)];

const ZEROS_FIRST: Runs = &[(false, 62), (true, 93)];

const ONES_FIRST: Runs = &[(true, 93), (false, 62)];

const MIXED: Runs = &[(true, 1), (false, 60), (true, 32), (false, 31), (true, 31)];

const LONG_ZEROS: Runs = &[(false, 160), (true, 36)];

const LONG_ONES: Runs = &[(true, 160), (false, 36)];

const MANY: Runs = &[(true, 1), (false, 61), (true, 31), (false, 70), (true, 33)];

#[test]
fn operations_are_those_of_the_lists(rt: HostRuntime) -> Result<(), Fail> {
    let table: [(Runs, Runs); 9] = [
        (NONE, NONE),
        (SHORT, LATE),
        (ZEROS_FIRST, ONES_FIRST),
        (MIXED, ZEROS_FIRST),
        (ONES_FIRST, MIXED),
        (LONG_ZEROS, MANY),
        (MANY, LONG_ZEROS),
        (LONG_ONES, MANY),
        (MANY, LONG_ONES),
    ];
    for (a, b) in table {
        let x = listed(rt.alloc(), a)?;
        let y = listed(rt.alloc(), b)?;
        assert!(rt; all_agree::<Brand>(rt.blank(), rt.alloc(), &x, &y)?);
    }
    Ok(())
}
