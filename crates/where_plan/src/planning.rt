//! The plan of a clause under a schema.

ghost use Rattle.std.specs.Prelude.{◌≡◌, IfOk, Some, Ok, Err, map};
ghost use Rattle.std.specs.Option.{option_copied};
ghost use Rattle.answers.specs.Answers.{Answers, Tells};
ghost use Rattle.fb_types.specs.Types.{ends_of};
ghost use Rattle.where_grammar.specs.Holds.{column_of};
ghost use Rattle.where_grammar.specs.declared.clause.QueryKind.{QueryKind};
ghost use Rattle.where_plan.specs.declared.plan.Plan.{Plan};
ghost use Rattle.where_plan.specs.Sorts.{column_named, sort_of};
ghost use Rattle.where_plan.specs.Plans.{ArePlans, FitsSchema, IsAtomPlan, IsClausePlan, IsPlan};
ghost use Rattle.where_plan.specs.Refusals.{atom_refusal, clause_refusal, TellsRefusal, first_some, refusal, refusal_of};

use crate::faults::{NameFault, bad};
use crate::numbers::number_spans;
use crate::plan::{Plan, PlanAtom};
use crate::sorts::{Sort, column_named, copied, name_of, sort_of};
use binning::Span;
use fb_types::{ColName, ColType, Schema};
use sqlite_items::{Boxed, Items};
use std::alloc::Global;
use where_grammar::{Atom, Clause, QueryKind};

/// A fault that names the column.
fn unknown(alloc: Global, name: &ColName) -> NameFault
    ensures { Tells refusal (λ kind. kind ≡ QueryKind.Unknown name.now) result }
{
    match name.copy(alloc) {
        Ok(name) => bad(QueryKind::Unknown(name)),
        Err(_) => NameFault::OutOfMemory,
    }
}

/// A fault that names the column.
fn wrong_type(alloc: Global, name: &ColName) -> NameFault
    ensures { Tells refusal (λ kind. kind ≡ QueryKind.WrongType name.now) result }
{
    match name.copy(alloc) {
        Ok(name) => bad(QueryKind::WrongType(name)),
        Err(_) => NameFault::OutOfMemory,
    }
}

/// The plan of a condition on the column at the place.
fn planned_at(
    alloc: Global,
    condition: &Atom,
    schema: &Schema,
    col: usize,
    ty: ColType,
) -> Result<PlanAtom, NameFault>
    requires { column_named schema.now (column_of condition.now) ≡ Some (col, ty) }
    ensures found { IfOk result (IsAtomPlan schema.now condition.now) }
    ensures refused { TellsRefusal (atom_refusal schema.now condition.now) result }
{
    match sort_of(condition) {
        Sort::Number => match ty.ends() {
            Some((least, greatest)) => {
                let spans = number_spans(alloc, condition, Span { least, greatest })?;
                Ok(PlanAtom::Whole { col, spans })
            }
            None => Err(wrong_type(alloc, name_of(condition))),
        },
        Sort::Text => match ty.ends() {
            Some(_) => Err(wrong_type(alloc, name_of(condition))),
            None => Ok(PlanAtom::Word {
                col,
                atom: copied(alloc, condition)?,
            }),
        },
        Sort::Any => Ok(PlanAtom::Exists { col }),
    }
}

/// The plan of a condition.
fn planned_atom(alloc: Global, condition: &Atom, schema: &Schema) -> Result<PlanAtom, NameFault>
    ensures found { IfOk result (IsAtomPlan schema.now condition.now) }
    ensures refused { TellsRefusal (atom_refusal schema.now condition.now) result }
{
    let name = name_of(condition);
    match column_named(schema, name.bytes()) {
        Some((col, ty)) => planned_at(alloc, condition, schema, col, ty),
        None => Err(unknown(alloc, name)),
    }
}

/// The plan of a clause.
#[cycle(planning)]
fn planned(alloc: Global, clause: &Clause, schema: &Schema) -> Result<Plan, NameFault>
    ensures found { IfOk result (IsClausePlan schema.now clause.now) }
    ensures refused { TellsRefusal (clause_refusal schema.now clause.now) result }
{
    match clause {
        Clause::Or(parts) => Ok(Plan::Or(planned_parts(alloc, parts.as_slice(), schema)?)),
        Clause::Xor(parts) => Ok(Plan::Xor(planned_parts(alloc, parts.as_slice(), schema)?)),
        Clause::And(parts) => Ok(Plan::And(planned_parts(alloc, parts.as_slice(), schema)?)),
        Clause::Not(part) => {
            let part = planned(alloc, part.get(), schema)?;
            Ok(Plan::Not(Boxed::new(alloc, part)?))
        }
        Clause::One(condition) => Ok(Plan::One(planned_atom(alloc, condition, schema)?)),
    }
}

/// The plans of the parts of a clause, in order.
#[cycle(planning)]
fn planned_parts(alloc: Global, parts: &[Clause], schema: &Schema) -> Result<Items<Plan>, NameFault>
    ensures found { IfOk result (ArePlans schema.now parts.now) }
    ensures refused { TellsRefusal (first_some (map (clause_refusal schema.now) parts.now)) result }
{
    let mut plans = Items::new(alloc);
    for part in parts {
        plans.push(planned(alloc, part, schema)?)?;
    }
    Ok(plans)
}

/// The plan of a query's clause, `All` where it has none. A clause is refused for its first condition, from left to
/// right, whose column isn't in the schema, as `Unknown`, or is of the wrong sort, as `WrongType`: conditions on numbers
/// need a column of whole numbers, conditions on texts a category or text column, and `exists` takes any.
pub fn resolve(alloc: Global, clause: Option<&Clause>, schema: &Schema) -> Result<Plan, NameFault>
    // What is given is the plan, and where there is one, it is given.
    ensures found { IfOk result (IsPlan schema.now (option_copied clause.entry)) }
    ensures fits { IfOk result (FitsSchema schema.now) }
    ensures only { (plan : Plan) → IsPlan schema.now (option_copied clause.entry) plan
        → Answers refusal result (Ok plan) }

    // A refusal is the first one, and where there is one, it is given.
    ensures refused { TellsRefusal (refusal_of schema.now (option_copied clause.entry)) result }
    ensures refuses { (kind : QueryKind) → refusal_of schema.now (option_copied clause.entry) ≡ Some kind
        → Answers {T = Plan} refusal result (Err kind) }
{
    match clause {
        Some(clause) => planned(alloc, clause, schema),
        None => Ok(Plan::All),
    }
}
