//! The law of estimates, on a function that does nothing.
ghost use Rattle.std.specs.Prelude.{◌≡◌, ◌≤◌, Option, count_by};
ghost use Rattle.std.specs.List.{AllByRecursion};
ghost use Rattle.fb_outside.specs.Files.{Files};
ghost use Rattle.where_plan.specs.declared.plan.Plan.{Plan};
ghost use Rattle.three_valued.specs.Plans.{atoms_of};
ghost use Rattle.three_valued.specs.Candidates.{definite_rows, possible_rows};
ghost use Rattle.stages.specs.Answer.{true_of};
ghost use Rattle.stages.specs.Meaning.{Meaning};

use crate::conditions::Conditions;

/// The two numbers of `estimate` enclose the number of the rows that `evaluate` gives.
pub fn estimates_enclose_hits<C: Conditions>()
    ensures definite { (c : C) (files : Option Files) (m : Meaning) (plan : Plan) → C.means c files m → AllByRecursion (C.fits c) (atoms_of plan) → definite_rows m.rows m.answer plan ≤ count_by (λ b. b) (true_of m plan) }
    ensures possible { (c : C) (files : Option Files) (m : Meaning) (plan : Plan) → C.means c files m → AllByRecursion (C.fits c) (atoms_of plan) → count_by (λ b. b) (true_of m plan) ≤ possible_rows m.rows m.answer plan }
{}
