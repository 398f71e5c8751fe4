ghost use Rattle.std.specs.Prelude.{◌≡◌, ◌<◌, All, IfOk, IfSome, length};
ghost use Rattle.three_valued.specs.Plans.{atoms_of};

use super::*;
use sqlite_items::{Boxed, Items};
use std::alloc::{AllocError, Global};
use std::marker::Brand;
use std::sync::ledger::Ledger;
use std::test::Fail;
use steps::{Blank, Count, Steps};
use wah_words::Wah;
use where_plan::{Plan, PlanAtom};

/// Answers on nine rows: the bits of the rows that are Yes, and of those that are Unknown, the first row highest. These
/// two have each pair of answers.
const FIRST: (u16, u16) = (0b111_000_000, 0b000_000_111);

const SECOND: (u16, u16) = (0b100_100_100, 0b001_001_001);

/// The vector of these bits, from its bytes.
fn vector(alloc: Global, bits: u16) -> Result<Option<Wah>, AllocError>
    ensures { IfOk result (λ o. IfSome o (λ v. length v ≡ 9)) }
{
    let low = (bits % 256) as u8;
    let high = (bits / 256) as u8;
    match Wah::from_bytes(alloc, &[9, 0, 0, 0, 0, 0, 0, 0, low, high, 0, 0]) {
        Ok((vector, _)) => {
            if vector.len() == 9 {
                Ok(Some(vector))
            } else {
                Ok(None)
            }
        }
        Err(_) => Ok(None),
    }
}

fn answers<L: Ledger>(
    alloc: Global,
    bits: (u16, u16),
    steps: &mut Steps<L>,
) -> Result<Option<Answers>, AllocError>
    ensures { IfOk result (λ o. IfSome o (λ a. length a ≡ 9)) }
{
    let Some(definite) = vector(alloc, bits.0)? else {
        return Ok(None);
    };
    let Some(unknown) = vector(alloc, bits.1)? else {
        return Ok(None);
    };
    Ok(Some(Answers::with_unknown(alloc, definite, &unknown, steps)?))
}

fn listed<L: Ledger>(
    alloc: Global,
    list: &[(u16, u16)],
    steps: &mut Steps<L>,
) -> Result<Option<Vec<Answers>>, AllocError>
    ensures number { IfOk result (λ o. IfSome o (λ v. length v.items ≡ length list.now)) }
    ensures long { IfOk result (λ o. IfSome o (λ v. All (λ a. length a ≡ 9) v.items)) }
{
    let mut all = Vec::new(alloc);
    for bits in list {
        let Some(one) = answers(alloc, *bits, steps)? else {
            return Ok(None);
        };
        all.push(one)?;
    }
    Ok(Some(all))
}

/// So many conditions, joined.
fn plan_of(alloc: Global, join: Join, count: usize) -> Result<Plan, AllocError>
    ensures { IfOk result (λ p. length (atoms_of p) ≡ count) }
{
    let mut parts = Items::new(alloc);
    for _ in 0..count {
        parts.push(Plan::One(PlanAtom::Exists { col: 0 }))?;
    }
    Ok(match join {
        Join::Or => Plan::Or(parts),
        Join::Xor => Plan::Xor(parts),
        Join::And => Plan::And(parts),
    })
}

/// One condition, turned.
fn turned(alloc: Global) -> Result<Plan, AllocError>
    ensures { IfOk result (λ p. length (atoms_of p) ≡ 1) }
{
    let part = Boxed::new(alloc, Plan::One(PlanAtom::Exists { col: 0 }))?;
    Ok(Plan::Not(part))
}

/// Whether these are the answers.
fn agrees<L: Ledger>(
    alloc: Global,
    found: &Answers,
    want: (u16, u16),
    steps: &mut Steps<L>,
) -> Result<bool, AllocError> {
    let Some(definite) = vector(alloc, want.0)? else {
        return Ok(false);
    };
    let Some(possible) = vector(alloc, want.0 | want.1)? else {
        return Ok(false);
    };
    let is = found.definite().to_bytes(alloc, steps)?;
    let may_be = found.possible().to_bytes(alloc, steps)?;
    Ok(is == definite.to_bytes(alloc, steps)? && may_be == possible.to_bytes(alloc, steps)?)
}

/// Whether the plan of conditions with these answers has those answers.
fn gives<L: Ledger>(
    blank: Blank,
    alloc: Global,
    plan: &Plan,
    list: &[(u16, u16)],
    want: (u16, u16),
) -> Result<bool, AllocError>
    requires ledger { blank.name ≡ L.name }
    requires parts { blank.parts ≡ L.parts }
    requires some { 0 < blank.parts }
    requires number { length (atoms_of plan.now) ≡ length list.now }
{
    let mut steps = Steps::<L>::new(blank);
    let Some(atoms) = listed(alloc, list, &mut steps)? else {
        return Ok(false);
    };
    let mut next = 0;
    let held = combined(alloc, plan, 9, &atoms, &mut next, &mut steps)?;
    Ok(next == list.len() && agrees(alloc, held.get(), want, &mut steps)?)
}

#[test]
fn and_of_nine_pairs(rt: HostRuntime) -> Result<(), Fail> {
    let alloc = rt.alloc();
    let plan = plan_of(alloc, Join::And, 2)?;
    assert!(rt;
        gives::<Brand>(
            rt.blank(),
            alloc,
            &plan,
            &[FIRST, SECOND],
            (0b100_000_000, 0b001_000_101)
        )?
    );
    Ok(())
}

#[test]
fn or_of_nine_pairs(rt: HostRuntime) -> Result<(), Fail> {
    let alloc = rt.alloc();
    let plan = plan_of(alloc, Join::Or, 2)?;
    assert!(rt;
        gives::<Brand>(
            rt.blank(),
            alloc,
            &plan,
            &[FIRST, SECOND],
            (0b111_100_100, 0b000_001_011)
        )?
    );
    Ok(())
}

#[test]
fn xor_of_nine_pairs(rt: HostRuntime) -> Result<(), Fail> {
    let alloc = rt.alloc();
    let plan = plan_of(alloc, Join::Xor, 2)?;
    assert!(rt;
        gives::<Brand>(
            rt.blank(),
            alloc,
            &plan,
            &[FIRST, SECOND],
            (0b010_100_000, 0b001_001_111)
        )?
    );
    Ok(())
}

#[test]
fn xor_of_three(rt: HostRuntime) -> Result<(), Fail> {
    let alloc = rt.alloc();
    let plan = plan_of(alloc, Join::Xor, 3)?;
    assert!(rt;
        gives::<Brand>(
            rt.blank(),
            alloc,
            &plan,
            &[FIRST, SECOND, SECOND],
            (0b110_000_000, 0b001_001_111)
        )?
    );
    Ok(())
}

#[test]
fn not_leaves_unknown(rt: HostRuntime) -> Result<(), Fail> {
    let alloc = rt.alloc();
    let plan = turned(alloc)?;
    assert!(rt;
        gives::<Brand>(
            rt.blank(),
            alloc,
            &plan,
            &[FIRST],
            (0b000_111_000, 0b000_000_111)
        )?
    );
    Ok(())
}

#[test]
fn and_of_no_part_is_yes(rt: HostRuntime) -> Result<(), Fail> {
    let alloc = rt.alloc();
    let plan = plan_of(alloc, Join::And, 0)?;
    assert!(rt; gives::<Brand>(rt.blank(), alloc, &plan, &[], (0b111_111_111, 0))?);
    Ok(())
}

#[test]
fn or_of_a_thousand(rt: HostRuntime) -> Result<(), Fail> {
    let alloc = rt.alloc();
    let plan = plan_of(alloc, Join::Or, 1000)?;
    let mut many = [FIRST; 1000];
    many[999] = SECOND;
    assert!(rt;
        gives::<Brand>(
            rt.blank(),
            alloc,
            &plan,
            &many,
            (0b111_100_100, 0b000_001_011)
        )?
    );
    Ok(())
}
