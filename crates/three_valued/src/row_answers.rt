//! Answers of one condition, or of a whole plan, on each row.
ghost use Rattle.std.specs.Prelude.{◌≡◌, ◌+◌, ◌*◌, ◌^◌, ◌<◌, ◌≤◌, IfOk, IsTrue, length, map, replicate};
ghost use Rattle.wah_words.specs.Limits.{most_bits};
ghost use Rattle.wah_words.specs.Places.{places};
ghost use Rattle.wah_logic.specs.Logic.{groups_and_rest};
ghost use Rattle.three_valued.specs.Tables.{decided, is_possible, is_unknown, is_yes, undecided};
ghost use Rattle.three_valued.specs.Rows.{AreBounds, answers_of};

use std::alloc::{AllocError, Global};
use std::marker::Model;
use std::sync::ledger::Ledger;
use steps::Steps;
use wah_logic::{AndNot, Or};
use wah_words::{Builder, Wah};

/// What is known on each row: Yes, No or Unknown. Contracts see the list of the answers.
#[derive(Drop)]
pub struct Answers {
    /// The rows that are Yes.
    definite: Wah,
    /// The rows that aren't No, or None where no row is Unknown, so that what is known costs one vector.
    possible: Option<Wah>,
}

impl Model for Answers {
    ghost use Rattle.std.specs.Prelude.{List};
    ghost use Rattle.binning.specs.declared.against_bins.Three.{Three};
    ghost use Rattle.three_valued.specs.Rows.{AreBounds, answers_of, possible_of};

    ghost Value = { List Three };

    ghost view = { λ a. answers_of a.definite (possible_of a.definite a.possible) };

    ghost invariant = { λ a. AreBounds a.definite (possible_of a.definite a.possible) };
}

/// So many bits of one value.
fn last_bits(value: bool, count: u32) -> u32
    requires { count < 31 }
    ensures bits { places count result ≡ replicate count value }
    ensures fits { result < 2 ^ count }
{
    if value { (1 << count) - 1 } else { 0 }
}

/// A vector of one value.
fn filled(alloc: Global, value: bool, rows: u32) -> Result<Wah, AllocError>
    requires { rows ≤ most_bits }
    ensures { IfOk result (λ v. v ≡ replicate rows value) }
{
    let mut out = Builder::with_room(alloc, 1)?;
    if rows / 31 > 0 {
        out.push_fill(value, rows / 31);
    }
    let rest = rows % 31;
    if rest > 0 {
        out.push_tail(last_bits(value, rest), rest);
    }
    Ok(out.finish())
}

impl Answers {
    /// Yes on the rows of the vector, and No on the others.
    pub fn known(definite: Wah) -> Answers
        ensures { result ≡ map decided definite }
    {
        Answers {
            definite,
            possible: None,
        }
    }

    /// Yes on the rows of the first vector, else Unknown on those of the second, which has them all.
    pub(crate) fn within(definite: Wah, possible: Wah) -> Answers
        requires { AreBounds definite possible }
        ensures { result ≡ answers_of definite possible }
    {
        Answers {
            definite,
            possible: Some(possible),
        }
    }

    /// Yes on the rows of the first vector, else Unknown on those of the second, else No.
    pub fn with_unknown<L: Ledger>(
        alloc: Global,
        definite: Wah,
        unknown: &Wah,
        steps: &mut Steps<L>,
    ) -> Result<Answers, AllocError>
        requires { length definite ≡ length unknown.now }
        ensures answers { IfOk result (λ a. a ≡ answers_of definite unknown.now) }
        ensures steps { steps.new ≤ steps.old + 2 * groups_and_rest (length definite) }
    {
        let possible = wah_logic::combined::<Or, L>(alloc, &definite, unknown, steps)?;
        Ok(Answers::within(definite, possible))
    }

    /// Unknown on the rows of the vector, and No on the others. It takes no step.
    pub fn unknown_on(alloc: Global, unknown: Wah) -> Result<Answers, AllocError>
        ensures { IfOk result (λ a. a ≡ map undecided unknown) }
    {
        let definite = filled(alloc, false, unknown.len())?;
        Ok(Answers::within(definite, unknown))
    }

    /// The same known answer on each row.
    pub fn uniform(alloc: Global, value: bool, rows: u32) -> Result<Answers, AllocError>
        requires { rows ≤ most_bits }
        ensures { IfOk result (λ a. a ≡ replicate rows (decided value)) }
    {
        let vector = filled(alloc, value, rows)?;
        Ok(Answers::known(vector))
    }

    /// The number of rows.
    pub fn len(&self) -> u32
        ensures length { result ≡ length self.now }
        ensures limit { length self.now ≤ most_bits }
    {
        self.definite.len()
    }

    /// The rows that are Yes.
    pub fn definite(&self) -> &Wah
        ensures { result.now ≡ map is_yes self.now }
    {
        &self.definite
    }

    /// The rows that aren't No.
    pub fn possible(&self) -> &Wah
        ensures { result.now ≡ map is_possible self.now }
    {
        match &self.possible {
            None => &self.definite,
            Some(possible) => possible,
        }
    }

    /// Whether it is kept that no row is Unknown.
    pub fn is_known(&self) -> bool
        ensures { IsTrue result → map is_possible self.now ≡ map is_yes self.now }
    {
        self.possible.is_none()
    }

    /// The rows that are Unknown.
    pub fn unknown_rows<L: Ledger>(
        &self,
        alloc: Global,
        steps: &mut Steps<L>,
    ) -> Result<Wah, AllocError>
        ensures rows { IfOk result (λ v. v ≡ map is_unknown self.now) }
        ensures steps { steps.new ≤ steps.old + 2 * groups_and_rest (length self.now) }
    {
        if self.is_known() {
            return filled(alloc, false, self.len());
        }
        wah_logic::combined::<AndNot, L>(alloc, self.possible(), self.definite(), steps)
    }
}
