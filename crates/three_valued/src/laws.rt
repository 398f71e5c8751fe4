//! Laws of three-valued answers, each on a function that does nothing.
ghost use Rattle.std.specs.Prelude.{◌≡◌, ℕ, ◌<◌, ◌≤◌, Bool, true, false, not, List, if◌then◌else◌, map};
ghost use Rattle.std.specs.List.{list_all, list_any};
ghost use Rattle.binning.specs.declared.against_bins.Three.{Three};
ghost use Rattle.fb_types.specs.declared.cells.Cell.{Cell};
ghost use Rattle.where_grammar.specs.Holds.{odd_many};
ghost use Rattle.where_plan.specs.declared.plan.PlanAtom.{PlanAtom};
ghost use Rattle.where_plan.specs.declared.plan.Plan.{Plan};
ghost use Rattle.where_plan.specs.PlanHolds.{plan_atom_holds, plan_holds};
ghost use Rattle.three_valued.specs.Tables.{decided, is_no, is_unknown, is_yes};
ghost use Rattle.three_valued.specs.Plans.{AreDecided, AreSound, IsSound, atoms_of, is_true, settled, three};
ghost use Rattle.three_valued.specs.Candidates.{definite_rows, possible_rows, true_rows};

use binning::Three;
use where_plan::Plan;

/// What is known of a plan from what is known of its parts (Kleene's strong logic). `Or` is Yes where a part is, `And` is
/// No where a part is, `Xor` is Unknown where a part is.
pub fn the_answers_of_plans()
    ensures all { (answer : PlanAtom → Three) → three answer Plan.All ≡ Three.Yes }
    ensures one { (answer : PlanAtom → Three) (atom : PlanAtom) → three answer (Plan.One atom) ≡ answer atom }
    ensures or { (answer : PlanAtom → Three) (parts : List Plan) → three answer (Plan.Or parts) ≡ (if list_any (λ part. is_yes (three answer part)) parts then Three.Yes else (if list_any (λ part. is_unknown (three answer part)) parts then Three.Unknown else Three.No)) }
    ensures xor { (answer : PlanAtom → Three) (parts : List Plan) → three answer (Plan.Xor parts) ≡ (if list_any (λ part. is_unknown (three answer part)) parts then Three.Unknown else decided (odd_many (map (λ part. is_yes (three answer part)) parts))) }
    ensures and { (answer : PlanAtom → Three) (parts : List Plan) → three answer (Plan.And parts) ≡ (if list_any (λ part. is_no (three answer part)) parts then Three.No else (if list_any (λ part. is_unknown (three answer part)) parts then Three.Unknown else Three.Yes)) }
    ensures not_yes { (answer : PlanAtom → Three) (part : Plan) → three answer part ≡ Three.Yes → three answer (Plan.Not part) ≡ Three.No }
    ensures not_no { (answer : PlanAtom → Three) (part : Plan) → three answer part ≡ Three.No → three answer (Plan.Not part) ≡ Three.Yes }
    ensures not_unknown { (answer : PlanAtom → Three) (part : Plan) → three answer part ≡ Three.Unknown → three answer (Plan.Not part) ≡ Three.Unknown }
{}

/// The truth of a plan from that of its parts. With the truth of its conditions on a record, it is whether the plan holds of
/// the record.
pub fn the_truth_from_conditions()
    ensures all { (truth : PlanAtom → Bool) → is_true truth Plan.All ≡ true }
    ensures one { (truth : PlanAtom → Bool) (atom : PlanAtom) → is_true truth (Plan.One atom) ≡ truth atom }
    ensures or { (truth : PlanAtom → Bool) (parts : List Plan) → is_true truth (Plan.Or parts) ≡ list_any (λ part. is_true truth part) parts }
    ensures xor { (truth : PlanAtom → Bool) (parts : List Plan) → is_true truth (Plan.Xor parts) ≡ odd_many (map (λ part. is_true truth part) parts) }
    ensures and { (truth : PlanAtom → Bool) (parts : List Plan) → is_true truth (Plan.And parts) ≡ list_all (λ part. is_true truth part) parts }
    ensures not { (truth : PlanAtom → Bool) (part : Plan) → is_true truth (Plan.Not part) ≡ not (is_true truth part) }
    ensures on_a_record { (plan : Plan) (cells : List Cell) → is_true (λ atom. plan_atom_holds atom cells) plan ≡ plan_holds plan cells }
{}

/// Where the Yes of each condition means true and its No false, so do the plan's.
pub fn sound_answers()
    ensures { (answer : PlanAtom → Three) (truth : PlanAtom → Bool) (plan : Plan) → AreSound answer truth (atoms_of plan) → IsSound (three answer plan) (is_true truth plan) }
{}

/// Where each condition is known, the plan's answer is its truth.
pub fn known_answers_are_the_truth()
    ensures { (answer : PlanAtom → Three) (truth : PlanAtom → Bool) (plan : Plan) → AreDecided answer truth (atoms_of plan) → three answer plan ≡ decided (is_true truth plan) }
{}

/// A plan that isn't Unknown on a row has its truth. On the other rows it is enough to decide the conditions that are Unknown
/// there: with these decided, the plan's answer is its truth.
pub fn unknown_rows_decide()
    ensures known { (answer : PlanAtom → Three) (truth : PlanAtom → Bool) (plan : Plan) → AreSound answer truth (atoms_of plan) → is_unknown (three answer plan) ≡ false → three answer plan ≡ decided (is_true truth plan) }
    ensures settled { (answer : PlanAtom → Three) (truth : PlanAtom → Bool) (plan : Plan) → AreSound answer truth (atoms_of plan) → three (settled answer truth) plan ≡ decided (is_true truth plan) }
{}

/// The bounds of an estimate enclose the number of rows on which the plan is true.
pub fn estimates_enclose()
    ensures definite { (rows : ℕ) (answer : ℕ → PlanAtom → Three) (truth : ℕ → PlanAtom → Bool) (plan : Plan) → ((row : ℕ) → row < rows → AreSound (answer row) (truth row) (atoms_of plan)) → definite_rows rows answer plan ≤ true_rows rows truth plan }
    ensures possible { (rows : ℕ) (answer : ℕ → PlanAtom → Three) (truth : ℕ → PlanAtom → Bool) (plan : Plan) → ((row : ℕ) → row < rows → AreSound (answer row) (truth row) (atoms_of plan)) → true_rows rows truth plan ≤ possible_rows rows answer plan }
{}
