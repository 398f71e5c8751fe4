ghost use Rattle.std.specs.Prelude.{◌≡◌, ◌<◌, ◌≤◌, ◌≤ℤ◌, ⊤, ℕ, All, IfOk, List, [], Some, length, slice_get};
ghost use Rattle.std.specs.List.{AllByRecursion};
ghost use Rattle.binning.specs.Spans.{IsInRange};
ghost use Rattle.wah_words.specs.Limits.{most_bits};
ghost use Rattle.where_plan.specs.declared.plan.PlanAtom.{PlanAtom};
ghost use Rattle.where_plan.specs.Plans.{place_in};
ghost use Rattle.three_valued.specs.Plans.{atoms_of};
ghost use Rattle.three_valued.specs.Rows.{answers_of, each_row};
ghost use Rattle.stages.specs.Answer.{met_of};
ghost use Rattle.stages.specs.Meaning.{IsMeaningOf};
ghost use Rattle.stages.specs.declared.tests.Known.{Known};

use super::*;
use binning::{Span, Spans, Three, against};
use fb_outside::{MemStore, Store};
use sqlite_items::{Boxed, Items};
use std::alloc::{AllocError, Global};
use std::marker::Brand;
use std::sync::ledger::Ledger;
use std::test::Fail;
use steps::{Blank, Count, Steps};
use three_valued::{Answers, Join};
use wah_logic::And;
use wah_words::{Builder, Wah};
use where_plan::{Plan, PlanAtom};

/// A cell with the ends of its bin, or None where it is null.
type Cell = Option<(i128, i128, i128)>;

/// The least and the greatest number of a condition's only span.
type Range = (i128, i128);

/// What the bins of a column know of a condition, and the rows on which it is true.
#[derive(Drop)]
struct Known {
    definite: Wah,
    unknown: Wah,
    truth: Wah,
}

/// Conditions over a few rows in memory, each on a column of its own.
#[derive(Drop)]
struct Sheet {
    rows: u32,
    known: Vec<Known>,
    ghost few: { rows ≤ most_bits },
    ghost long: { All (λ k. (length k.definite ≡ rows) × (length k.unknown ≡ rows) × (length k.truth ≡ rows)) known.items },
}

#[derive(Drop)]
struct NoMemory;

impl From<AllocError> for NoMemory {
    fn from(_e: AllocError) -> NoMemory {
        NoMemory
    }
}

/// Nothing has to be opened.
#[derive(Drop)]
struct Closed;

/// The number of a condition's column.
fn column_of(atom: &PlanAtom) -> usize
    ensures { result ≡ place_in atom.now }
{
    match atom {
        PlanAtom::Whole { col, .. } => *col,
        PlanAtom::Word { col, .. } => *col,
        PlanAtom::Exists { col } => *col,
    }
}

impl Conditions for Sheet {
    type Column = Closed;

    type Fault = NoMemory;

    ghost fits = { λ s atom. place_in atom < length s.known.items };

    ghost rows = { λ s. s.rows };

    ghost means = { λ s files m. IsMeaningOf s.rows (λ atom. place_in atom < length s.known.items) m × ((place : ℕ) (known : Known) (atom : PlanAtom) → slice_get s.known.items place ≡ Some known → place_in atom ≡ place → (each_row m.rows (λ row. m.answer row atom) ≡ answers_of known.definite known.unknown) × (met_of m atom ≡ known.truth) × (m.fetched atom ≡ []) × (m.work atom ≡ 2)) };

    ghost is_open = { λ s files atom column. ⊤ };

    ghost stops = { λ s files atom fault. ⊤ };

    ghost is_look = { λ s atom look. ⊥ };

    ghost is_store = { λ fault. ⊥ };

    ghost is_memory = { λ fault. ⊤ };

    ghost meaning = { λ c files m h. h.0 };

    ghost memory = { λ full fault h. tt };

    ghost no_failure = { λ fault h k. k };

    fn rows(&self) -> u32 {
        self.rows
    }

    fn settle<S: Store, L: Ledger>(
        &self,
        alloc: Global,
        _store: &mut S,
        atom: &PlanAtom,
        steps: &mut Steps<L>,
    ) -> Result<Settled<Closed>, NoMemory> {
        let known = &self.known[column_of(atom)];
        let definite = known.definite.copy(alloc, steps)?;
        let answers = Answers::with_unknown(alloc, definite, &known.unknown, steps)?;
        Ok(Settled {
            answers,
            column: Closed,
        })
    }

    fn check<S: Store, L: Ledger>(
        &self,
        alloc: Global,
        _store: &mut S,
        atom: &PlanAtom,
        _column: &Closed,
        candidates: &Wah,
        steps: &mut Steps<L>,
    ) -> Result<Wah, NoMemory> {
        let truth = &self.known[column_of(atom)].truth;
        let found = wah_logic::combined::<And, L>(alloc, candidates, truth, steps)?;
        Ok(found)
    }
}

/// What the bin of a cell says of a condition with these spans: No where the cell is null.
fn answer_on(cell: &Cell, spans: &Spans) -> Three {
    match cell {
        Some((_, least, greatest)) => {
            if *least <= *greatest {
                against(*least, *greatest, spans)
            } else {
                Three::No
            }
        }
        None => Three::No,
    }
}

/// Whether the cell has a number of the spans.
fn is_met(cell: &Cell, spans: &Spans) -> bool {
    match cell {
        Some((value, _, _)) => spans.has(*value),
        None => false,
    }
}

/// What is known of a condition with this span, cell by cell.
fn known_of(alloc: Global, cells: &[Cell], range: Range) -> Result<Known, AllocError>
    requires few { length cells.now ≤ 30 }
    requires least { IsInRange range.0 }
    requires greatest { IsInRange range.1 }
    ensures { IfOk result (λ k. (length k.definite ≡ length cells.now) × (length k.unknown ≡ length cells.now) × (length k.truth ≡ length cells.now)) }
{
    let spans = Spans::of(
        alloc,
        &[Span {
            least: range.0,
            greatest: range.1,
        }],
    )?;
    let mut definite = Builder::with_room(alloc, 31)?;
    let mut unknown = Builder::with_room(alloc, 31)?;
    let mut truth = Builder::with_room(alloc, 31)?;
    for cell in cells {
        let answer = answer_on(cell, &spans);
        definite.push_bit(answer == Three::Yes);
        unknown.push_bit(answer == Three::Unknown);
        truth.push_bit(is_met(cell, &spans));
    }
    Ok(Known {
        definite: definite.finish(),
        unknown: unknown.finish(),
        truth: truth.finish(),
    })
}

/// Ten rows with the numbers 1 to 10, in bins from 1 to 3, from 4 to 7 and from 8 to 10.
const A: [Cell; 10] = [
    Some((1, 1, 3)),
    Some((2, 1, 3)),
    Some((3, 1, 3)),
    Some((4, 4, 7)),
    Some((5, 4, 7)),
    Some((6, 4, 7)),
    Some((7, 4, 7)),
    Some((8, 8, 10)),
    Some((9, 8, 10)),
    Some((10, 8, 10)),
];

/// 1 where `A` is 8, else 0, in a bin for each.
const B: [Cell; 10] = [
    Some((0, 0, 0)),
    Some((0, 0, 0)),
    Some((0, 0, 0)),
    Some((0, 0, 0)),
    Some((0, 0, 0)),
    Some((0, 0, 0)),
    Some((0, 0, 0)),
    Some((1, 1, 1)),
    Some((0, 0, 0)),
    Some((0, 0, 0)),
];

/// `A` with a null in place of each even number.
const N: [Cell; 10] = [
    Some((1, 1, 3)),
    None,
    Some((3, 1, 3)),
    None,
    Some((5, 4, 7)),
    None,
    Some((7, 4, 7)),
    None,
    Some((9, 8, 10)),
    None,
];

/// The conditions of the rows below: `3 < a < 9`, `a < 4`, `a < 9`, `b = 1`, and `a < 6` with nulls.
fn five_conditions(alloc: Global) -> Result<Sheet, AllocError>
    ensures { IfOk result (λ s. length s.known.items ≡ 5) }
{
    let between = known_of(alloc, &A, (4, 8))?;
    let below_4 = known_of(alloc, &A, (-1000, 3))?;
    let below_9 = known_of(alloc, &A, (-1000, 8))?;
    let one = known_of(alloc, &B, (1, 1))?;
    let below_6 = known_of(alloc, &N, (-1000, 5))?;
    let mut known = Vec::new(alloc);
    known.push(between)?;
    known.push(below_4)?;
    known.push(below_9)?;
    known.push(one)?;
    known.push(below_6)?;
    Ok(Sheet { rows: 10, known })
}

/// Conditions on these columns, joined.
fn plan_of(alloc: Global, join: Join, columns: &[usize]) -> Result<Plan, AllocError>
    requires { All (λ col. col < 5) columns.now }
    ensures { IfOk result (λ p. AllByRecursion (λ atom. place_in atom < 5) (atoms_of p)) }
{
    let mut parts = Items::new(alloc);
    for col in columns {
        parts.push(Plan::One(PlanAtom::Exists { col: *col }))?;
    }
    Ok(match join {
        Join::Or => Plan::Or(parts),
        Join::Xor => Plan::Xor(parts),
        Join::And => Plan::And(parts),
    })
}

/// The plan that is true where this one isn't.
fn turned(alloc: Global, plan: Plan) -> Result<Plan, AllocError>
    requires { AllByRecursion (λ atom. place_in atom < 5) (atoms_of plan) }
    ensures { IfOk result (λ p. AllByRecursion (λ atom. place_in atom < 5) (atoms_of p)) }
{
    let part = Boxed::new(alloc, plan)?;
    Ok(Plan::Not(part))
}

/// The two numbers of an estimate, and the numbers of hits and of rows that were checked.
type Numbers = (u64, u64, u64, u64);

/// What a plan gives over the sheet.
fn numbers<L: Ledger>(
    blank: Blank,
    alloc: Global,
    plan: &Plan,
) -> Result<Option<Numbers>, AllocError>
    requires ledger { blank.name ≡ L.name }
    requires parts { blank.parts ≡ L.parts }
    requires some { 0 < blank.parts }
    requires fits { AllByRecursion (λ atom. place_in atom < 5) (atoms_of plan.now) }
{
    let mut steps = Steps::<L>::new(blank);
    let sheet = five_conditions(alloc)?;
    let mut store = MemStore::make(alloc, &[], 0)?;
    let Ok(bounds) = estimate(alloc, &mut store, &sheet, plan, &mut steps) else {
        return Ok(None);
    };
    let Ok(hits) = evaluate(alloc, &mut store, &sheet, plan, &mut steps) else {
        return Ok(None);
    };
    Ok(Some((bounds.definite, bounds.possible, hits.count, hits.checked)))
}

/// Between 4 and 7 rows, 5 of them, with 3 checked. Its opposite is true on the others.
#[test]
fn between_three_and_nine(rt: HostRuntime) -> Result<(), Fail> {
    let alloc = rt.alloc();
    let plan = plan_of(alloc, Join::And, &[0])?;
    assert!(rt; numbers::<Brand>(rt.blank(), alloc, &plan)? == Some((4, 7, 5, 3)));
    let not = turned(alloc, plan)?;
    assert!(rt; numbers::<Brand>(rt.blank(), alloc, &not)? == Some((3, 6, 5, 3)));
    Ok(())
}

/// Where bins decide a condition nothing is checked.
#[test]
fn an_estimate_is_exact_at_a_bound(rt: HostRuntime) -> Result<(), Fail> {
    let alloc = rt.alloc();
    let plan = plan_of(alloc, Join::And, &[1])?;
    assert!(rt; numbers::<Brand>(rt.blank(), alloc, &plan)? == Some((3, 3, 3, 0)));
    let all = Plan::All;
    assert!(rt; numbers::<Brand>(rt.blank(), alloc, &all)? == Some((10, 10, 10, 0)));
    Ok(())
}

/// `a < 9 and b = 1`: of the three rows on which the first is Unknown one is checked, since the second decides the others.
#[test]
fn a_condition_spares_another(rt: HostRuntime) -> Result<(), Fail> {
    let alloc = rt.alloc();
    let plan = plan_of(alloc, Join::And, &[2, 3])?;
    assert!(rt; numbers::<Brand>(rt.blank(), alloc, &plan)? == Some((0, 1, 1, 1)));
    Ok(())
}

/// A condition that stands twice is checked at each of its places. An `xor` is Unknown where a part is.
#[test]
fn a_condition_twice(rt: HostRuntime) -> Result<(), Fail> {
    let alloc = rt.alloc();
    let twice = plan_of(alloc, Join::Or, &[0, 0])?;
    assert!(rt; numbers::<Brand>(rt.blank(), alloc, &twice)? == Some((4, 7, 5, 6)));
    let odd = plan_of(alloc, Join::Xor, &[0, 1, 0])?;
    assert!(rt; numbers::<Brand>(rt.blank(), alloc, &odd)? == Some((3, 6, 3, 6)));
    Ok(())
}

/// A condition is false on a null, so its opposite is true there, and neither is checked.
#[test]
fn nulls_are_not_checked(rt: HostRuntime) -> Result<(), Fail> {
    let alloc = rt.alloc();
    let plan = plan_of(alloc, Join::And, &[4])?;
    assert!(rt; numbers::<Brand>(rt.blank(), alloc, &plan)? == Some((2, 4, 3, 2)));
    let not = turned(alloc, plan)?;
    assert!(rt; numbers::<Brand>(rt.blank(), alloc, &not)? == Some((6, 8, 7, 2)));
    Ok(())
}

#[test]
fn an_or_of_a_thousand(rt: HostRuntime) -> Result<(), Fail> {
    let alloc = rt.alloc();
    let plan = plan_of(alloc, Join::Or, &[0; 1000])?;
    assert!(rt; numbers::<Brand>(rt.blank(), alloc, &plan)? == Some((4, 7, 5, 3000)));
    Ok(())
}
