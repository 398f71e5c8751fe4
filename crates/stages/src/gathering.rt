//! The conditions of a plan in one list, from left to right.
ghost use Rattle.std.specs.Prelude.{◌≡◌, ◌+◌, ◌<◌, ◌^◌, ◌++◌, IfOk, OnOk, Some, length, map, slice_get};
ghost use Rattle.std.specs.List.{flat_map};
ghost use Rattle.three_valued.specs.Plans.{atoms_of};

use std::alloc::{AllocError, Global};
use std::marker::Model;
use where_plan::{Plan, PlanAtom};

/// Conditions of a plan. Contracts see their list.
#[derive(Drop)]
pub(crate) struct Atoms<'a> {
    items: Vec<&'a PlanAtom>,
}

impl<'a> Model for Atoms<'a> {
    ghost use Rattle.std.specs.Prelude.{List, map};
    ghost use Rattle.where_plan.specs.declared.plan.PlanAtom.{PlanAtom};

    ghost Value = { List PlanAtom };

    ghost view = { λ a. map (λ item. item.now) a.items.items };
}

/// Puts the conditions of a plan behind those that are there.
#[cycle(gathering)]
fn gather<'a>(plan: &'a Plan, out: &mut Vec<&'a PlanAtom>) -> Result<(), AllocError>
    ensures { OnOk result (map (λ item. item.now) out.new.items ≡ map (λ item. item.now) out.old.items ++ atoms_of plan.now) }
{
    match plan {
        Plan::All => Ok(()),
        Plan::Or(parts) => gather_all(parts.as_slice(), out),
        Plan::Xor(parts) => gather_all(parts.as_slice(), out),
        Plan::And(parts) => gather_all(parts.as_slice(), out),
        Plan::Not(part) => gather(part.get(), out),
        Plan::One(atom) => {
            out.push(atom)?;
            Ok(())
        }
    }
}

/// The same of parts, from left to right.
#[cycle(gathering)]
fn gather_all<'a>(parts: &'a [Plan], out: &mut Vec<&'a PlanAtom>) -> Result<(), AllocError>
    ensures { OnOk result (map (λ item. item.now) out.new.items ≡ map (λ item. item.now) out.old.items ++ flat_map atoms_of parts.now) }
{
    for part in parts {
        gather(part, out)?;
    }
    Ok(())
}

impl<'a> Atoms<'a> {
    /// The conditions of a plan. For more than 2^32 - 1 of them there is no memory.
    pub(crate) fn of(alloc: Global, plan: &'a Plan) -> Result<Atoms<'a>, AllocError>
        ensures atoms { IfOk result (λ atoms. atoms ≡ atoms_of plan.now) }
        ensures few { IfOk result (λ atoms. length atoms < 2 ^ 32) }
    {
        let mut items = Vec::new(alloc);
        gather(plan, &mut items)?;
        if items.len() > u32::MAX as usize {
            return Err(AllocError);
        }
        Ok(Atoms { items })
    }

    pub(crate) fn len(&self) -> usize
        ensures { result ≡ length self.now }
    {
        self.items.len()
    }

    /// The condition at a place.
    pub(crate) fn at(&self, place: usize) -> &'a PlanAtom
        requires { place < length self.now }
        ensures { slice_get self.now place ≡ Some result.now }
    {
        self.items[place]
    }
}
