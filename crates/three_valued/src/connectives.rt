//! Kleene's tables, on all rows at once.
ghost use Rattle.std.specs.Prelude.{◌≡◌, ◌+◌, ◌*◌, ◌≤◌, IfOk, length, map};
ghost use Rattle.binning.specs.declared.against_bins.Three.{Three};
ghost use Rattle.wah_logic.specs.Logic.{and_not, each_place, groups_and_rest, or};
ghost use Rattle.three_valued.specs.Tables.{ActsOnBounds, HasTable, decided, joins, three_not, three_xor, unit};
ghost use Rattle.three_valued.specs.Rows.{rowwise};

use crate::row_answers::Answers;
use std::alloc::{AllocError, Global};
use std::sync::ledger::Ledger;
use steps::Steps;
use wah_logic::{And, AndNot, BitOp, Or, Xor, complement};
use wah_words::Wah;

/// How the parts of a plan are joined.
#[derive(Clone, Copy, Debug)]
pub enum Join {
    Or,
    Xor,
    And,
}

impl Join {
    /// The answer of no part.
    pub(crate) fn of_none(self) -> bool
        ensures { decided result ≡ unit self }
    {
        match self {
            Join::Or => false,
            Join::Xor => false,
            Join::And => true,
        }
    }
}

/// The answers of two parts where an operation on what is definite, and on what is possible, gives what is definite and
/// what is possible.
fn by_bounds<O: BitOp, L: Ledger>(
    alloc: Global,
    a: &Answers,
    b: &Answers,
    steps: &mut Steps<L>,
) -> Result<Answers, AllocError>
    requires same { length a.now ≡ length b.now }
    requires table { HasTable O.op }
    ensures answers { IfOk result (λ r. (table : Three → Three → Three) → ActsOnBounds O.op table → r ≡ rowwise table a.now b.now) }
    ensures steps { steps.new ≤ steps.old + 4 * groups_and_rest (length a.now) }
{
    let definite = wah_logic::combined::<O, L>(alloc, a.definite(), b.definite(), steps)?;
    if a.is_known() && b.is_known() {
        return Ok(Answers::known(definite));
    }
    let possible = wah_logic::combined::<O, L>(alloc, a.possible(), b.possible(), steps)?;
    Ok(Answers::within(definite, possible))
}

/// The rows of one vector without those of a second, and of a third without those of a fourth.
fn either_alone<L: Ledger>(
    alloc: Global,
    a: &Wah,
    without_b: &Wah,
    b: &Wah,
    without_a: &Wah,
    steps: &mut Steps<L>,
) -> Result<Wah, AllocError>
    requires first { length a.now ≡ length without_b.now }
    requires second { length b.now ≡ length without_a.now }
    requires same { length a.now ≡ length b.now }
    ensures rows { IfOk result (λ v. v ≡ each_place or (each_place and_not a.now without_b.now) (each_place and_not b.now without_a.now)) }
    ensures steps { steps.new ≤ steps.old + 6 * groups_and_rest (length a.now) }
{
    let a_alone = wah_logic::combined::<AndNot, L>(alloc, a, without_b, steps)?;
    let b_alone = wah_logic::combined::<AndNot, L>(alloc, b, without_a, steps)?;
    wah_logic::combined::<Or, L>(alloc, &a_alone, &b_alone, steps)
}

/// Unknown where a part is, else Yes where one part alone is.
fn exactly_one<L: Ledger>(
    alloc: Global,
    first: &Answers,
    second: &Answers,
    steps: &mut Steps<L>,
) -> Result<Answers, AllocError>
    requires { length first.now ≡ length second.now }
    ensures answers { IfOk result (λ r. r ≡ rowwise three_xor first.now second.now) }
    ensures steps { steps.new ≤ steps.old + 12 * groups_and_rest (length first.now) }
{
    if first.is_known() && second.is_known() {
        let rows = wah_logic::combined::<Xor, L>(
            alloc,
            first.definite(),
            second.definite(),
            steps,
        )?;
        return Ok(Answers::known(rows));
    }
    let definite = either_alone(
        alloc,
        first.definite(),
        second.possible(),
        second.definite(),
        first.possible(),
        steps,
    )?;
    let possible = either_alone(
        alloc,
        first.possible(),
        second.definite(),
        second.possible(),
        first.definite(),
        steps,
    )?;
    Ok(Answers::within(definite, possible))
}

/// The answers of two joined parts.
pub(crate) fn join_two<L: Ledger>(
    alloc: Global,
    join: Join,
    a: &Answers,
    b: &Answers,
    steps: &mut Steps<L>,
) -> Result<Answers, AllocError>
    requires { length a.now ≡ length b.now }
    ensures answers { IfOk result (λ r. r ≡ rowwise (joins join) a.now b.now) }
    ensures steps { steps.new ≤ steps.old + 12 * groups_and_rest (length a.now) }
{
    match join {
        Join::Or => by_bounds::<Or, L>(alloc, a, b, steps),
        Join::Xor => exactly_one(alloc, a, b, steps),
        Join::And => by_bounds::<And, L>(alloc, a, b, steps),
    }
}

/// Yes where the part is No, and No where it is Yes.
pub(crate) fn negated<L: Ledger>(
    alloc: Global,
    a: &Answers,
    steps: &mut Steps<L>,
) -> Result<Answers, AllocError>
    ensures answers { IfOk result (λ r. r ≡ map three_not a.now) }
    ensures steps { steps.new ≤ steps.old + 2 * groups_and_rest (length a.now) }
{
    let definite = complement(alloc, a.possible(), steps)?;
    if a.is_known() {
        return Ok(Answers::known(definite));
    }
    let possible = complement(alloc, a.definite(), steps)?;
    Ok(Answers::within(definite, possible))
}
