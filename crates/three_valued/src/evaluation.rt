//! The answers of a plan from those of its conditions.
ghost use Rattle.std.specs.Prelude.{◌≡◌, ℕ, ◌+◌, ◌*◌, ◌≤◌, ◌++◌, All, IfOk, List, OnOk, drop, length, map};
ghost use Rattle.std.specs.List.{flat_map};
ghost use Rattle.binning.specs.declared.against_bins.Three.{Three};
ghost use Rattle.where_plan.specs.declared.plan.PlanAtom.{PlanAtom};
ghost use Rattle.wah_words.specs.Limits.{most_bits};
ghost use Rattle.wah_logic.specs.Logic.{groups_and_rest};
ghost use Rattle.three_valued.specs.Tables.{joined, joins};
ghost use Rattle.three_valued.specs.Plans.{atoms_of, parts_in, parts_of, three};
ghost use Rattle.three_valued.specs.Rows.{columns, each_row, rowwise};
ghost use Rattle.three_valued.specs.Held.{held_answers};

use crate::connectives::{Join, join_two, negated};
use crate::row_answers::Answers;
use std::alloc::{AllocError, Global};
use std::sync::ledger::Ledger;
use steps::Steps;
use where_plan::Plan;

/// Answers that are lent, as those of a condition, or made, so that none are copied.
#[derive(Drop)]
pub enum Held<'a> {
    Lent(&'a Answers),
    Made(Answers),
}

impl<'a> Held<'a> {
    /// The answers.
    pub fn get(&self) -> &Answers
        ensures { result.now ≡ held_answers self.now }
    {
        match self {
            Held::Lent(answers) => answers,
            Held::Made(answers) => answers,
        }
    }
}

/// The answers of a plan over so many rows. `answers` has those of the conditions of a whole clause, from left to right,
/// and `next` is the place of the first of this plan's. It is moved behind the last.
#[cycle(combining)]
pub fn combined<'a, L: Ledger>(
    alloc: Global,
    plan: &Plan,
    rows: u32,
    answers: &'a [Answers],
    next: &mut usize,
    steps: &mut Steps<L>,
) -> Result<Held<'a>, AllocError>
    requires limit { rows ≤ most_bits }
    requires there { next.old + length (atoms_of plan.now) ≤ length answers.now }
    requires long { All (λ a. length a ≡ rows) answers.now }
    ensures next { OnOk result (next.new ≡ next.old + length (atoms_of plan.now)) }
    ensures length { IfOk result (λ held. length (held_answers held) ≡ rows) }

    // Whatever the conditions answer: where these are their answers, these are the plan's.
    ensures answers { IfOk result (λ held. (answer : ℕ → PlanAtom → Three) (more : List (List Three)) → drop next.old answers.now ≡ columns rows answer (atoms_of plan.now) ++ more → held_answers held ≡ each_row rows (λ row. three (answer row) plan.now)) }
    ensures steps { steps.new ≤ steps.old + 2 * groups_and_rest rows * (6 * parts_of plan.now) }
{
    match plan {
        Plan::All => Ok(Held::Made(Answers::uniform(alloc, true, rows)?)),
        Plan::Or(parts) => joined(
            alloc,
            Join::Or,
            parts.as_slice(),
            rows,
            answers,
            next,
            steps,
        ),
        Plan::Xor(parts) => joined(
            alloc,
            Join::Xor,
            parts.as_slice(),
            rows,
            answers,
            next,
            steps,
        ),
        Plan::And(parts) => joined(
            alloc,
            Join::And,
            parts.as_slice(),
            rows,
            answers,
            next,
            steps,
        ),
        Plan::Not(part) => {
            let held = combined(alloc, part.get(), rows, answers, next, steps)?;
            Ok(Held::Made(negated(alloc, held.get(), steps)?))
        }
        Plan::One(_) => {
            let lent = &answers[*next];
            *next += 1;
            Ok(Held::Lent(lent))
        }
    }
}

/// Answers joined with those of one part more.
#[cycle(combining)]
fn with_part<'a, L: Ledger>(
    alloc: Global,
    join: Join,
    held: Held<'a>,
    part: &Plan,
    rows: u32,
    answers: &'a [Answers],
    next: &mut usize,
    steps: &mut Steps<L>,
) -> Result<Held<'a>, AllocError>
    requires limit { rows ≤ most_bits }
    requires there { next.old + length (atoms_of part.now) ≤ length answers.now }
    requires long { All (λ a. length a ≡ rows) answers.now }
    requires same { length (held_answers held) ≡ rows }
    ensures next { OnOk result (next.new ≡ next.old + length (atoms_of part.now)) }
    ensures length { IfOk result (λ held. length (held_answers held) ≡ rows) }
    ensures answers { IfOk result (λ made. (answer : ℕ → PlanAtom → Three) (more : List (List Three)) → drop next.old answers.now ≡ columns rows answer (atoms_of part.now) ++ more → held_answers made ≡ rowwise (joins join) (held_answers held.entry) (each_row rows (λ row. three (answer row) part.now))) }
    ensures steps { steps.new ≤ steps.old + 2 * groups_and_rest rows * (6 * (1 + parts_of part.now)) }
{
    let other = combined(alloc, part, rows, answers, next, steps)?;
    Ok(Held::Made(join_two(alloc, join, held.get(), other.get(), steps)?))
}

/// The same of joined parts.
#[cycle(combining)]
fn joined<'a, L: Ledger>(
    alloc: Global,
    join: Join,
    parts: &[Plan],
    rows: u32,
    answers: &'a [Answers],
    next: &mut usize,
    steps: &mut Steps<L>,
) -> Result<Held<'a>, AllocError>
    requires limit { rows ≤ most_bits }
    requires there { next.old + length (flat_map atoms_of parts.now) ≤ length answers.now }
    requires long { All (λ a. length a ≡ rows) answers.now }
    ensures next { OnOk result (next.new ≡ next.old + length (flat_map atoms_of parts.now)) }
    ensures length { IfOk result (λ held. length (held_answers held) ≡ rows) }
    ensures answers { IfOk result (λ held. (answer : ℕ → PlanAtom → Three) (more : List (List Three)) → drop next.old answers.now ≡ columns rows answer (flat_map atoms_of parts.now) ++ more → held_answers held ≡ each_row rows (λ row. joined join (map (three (answer row)) parts.now))) }
    ensures steps { steps.new ≤ steps.old + 2 * groups_and_rest rows * (6 * parts_in parts.now) }
{
    match parts {
        [] => Ok(Held::Made(Answers::uniform(alloc, join.of_none(), rows)?)),
        [first, rest @ ..] => {
            let mut held = combined(alloc, first, rows, answers, next, steps)?;
            for part in rest {
                held = with_part(alloc, join, held, part, rows, answers, next, steps)?;
            }
            Ok(held)
        }
    }
}
