//! The conditions on the columns of a part, over its files.

ghost use Rattle.std.specs.Prelude.{◌≡◌, ◌<◌, length};
ghost use Rattle.fb_outside.specs.Names.{IsPath};
ghost use Rattle.part_meta.specs.PartText.{IsPart};
ghost use Rattle.two_stage.specs.Placed.{placed_at};

use crate::checking::{check_numbers, check_texts};
use crate::fault::EvalFault;
use crate::open_column::OpenColumn;
use crate::placed::PlacedColumn;
use crate::settled::{settle_exists, settle_numbers, settle_texts, settle_words};
use fb_outside::{FileName, Store};
use fb_types::ColType;
use part_meta::PartMeta;
use stages::{Conditions, Settled};
use std::alloc::Global;
use std::marker::Model;
use std::sync::ledger::Ledger;
use steps::Steps;
use wah_words::Wah;
use where_plan::PlanAtom;

/// The columns of a part, whose files are under the path of its dataset.
#[derive(Drop)]
pub struct PartConditions<'a> {
    pub dir: &'a FileName,
    pub part: &'a PartMeta,
}

impl<'a> Model for PartConditions<'a> {
    ghost use Rattle.fb_outside.specs.Names.{IsPath};
    ghost use Rattle.part_meta.specs.PartText.{IsPart};
    ghost use Rattle.two_stage.specs.Placed.{PartAt};

    ghost Value = { PartAt };

    ghost view = { λ s. record { dir = s.dir.now; meta = s.part.now } };

    ghost invariant = { λ s. IsPath s.dir.now × IsPart s.part.now };
}

impl<'a> PartConditions<'a> {
    /// Where the files of a column are.
    fn placed(&self, col: usize) -> PlacedColumn<'_>
        requires { col < length self.now.meta.schema }
        ensures place { result ≡ placed_at self.now.dir self.now.meta col }
        ensures path { IsPath self.now.dir }
        ensures part { IsPart self.now.meta }
    {
        PlacedColumn {
            dir: self.dir,
            number: self.part.number,
            rows: self.part.rows,
            col,
            column: &self.part.schema.columns()[col],
        }
    }
}

impl<'a> Conditions for PartConditions<'a> {
    ghost use Rattle.where_plan.specs.Plans.{FitsColumn};
    ghost use Rattle.part_meaning.specs.Meaning.{Means};
    ghost use Rattle.two_stage.specs.Faults.{IsOfMemory, IsOfStore, Stops};
    ghost use Rattle.two_stage.specs.Kept.{IsKept};
    ghost use Rattle.two_stage.specs.Placed.{IsColumnLook, placed_of};
    ghost use Rattle.two_stage.specs.FaultLaws.{not_of_store, of_memory};
    ghost use Rattle.two_stage.specs.MeaningLaws.{part_means};

    type Column = OpenColumn;

    type Fault = EvalFault;

    ghost fits = { λ c condition. FitsColumn c.meta.schema condition };

    ghost rows = { λ c. c.meta.rows };

    ghost means = { λ c files m. Means files c.dir c.meta m };

    ghost is_open = { λ c files condition column. IsKept files c.dir c.meta condition column };

    ghost stops = { λ c files condition fault. Stops files c.dir c.meta condition fault };

    ghost is_look = { λ c condition look. IsColumnLook (placed_of c.dir c.meta condition) look };

    ghost is_store = { IsOfStore };

    ghost is_memory = { IsOfMemory };

    fn rows(&self) -> u32 {
        self.part.rows
    }

    fn settle<S: Store, L: Ledger>(
        &self,
        alloc: Global,
        store: &mut S,
        atom: &PlanAtom,
        steps: &mut Steps<L>,
    ) -> Result<Settled<OpenColumn>, EvalFault> {
        match atom {
            PlanAtom::Whole { col, spans } => {
                settle_numbers(alloc, store, &self.placed(*col), spans, steps)
            }
            PlanAtom::Word { col, atom } => {
                let placed = self.placed(*col);
                match placed.column.ty {
                    ColType::Text => settle_texts(alloc, store, &placed),
                    _ => settle_words(alloc, store, &placed, atom, steps),
                }
            }
            PlanAtom::Exists { col } => settle_exists(alloc, store, &self.placed(*col)),
        }
    }

    fn check<S: Store, L: Ledger>(
        &self,
        alloc: Global,
        store: &mut S,
        atom: &PlanAtom,
        column: &OpenColumn,
        candidates: &Wah,
        steps: &mut Steps<L>,
    ) -> Result<Wah, EvalFault> {
        match (atom, column) {
            (PlanAtom::Whole { col, spans }, OpenColumn::Numbers(numbers)) => {
                let placed = self.placed(*col);
                check_numbers(alloc, store, &placed, numbers, spans, candidates, steps)
            }
            (PlanAtom::Word { col, .. }, OpenColumn::Codes(codes, spans)) => {
                let placed = self.placed(*col);
                check_numbers(alloc, store, &placed, codes, spans, candidates, steps)
            }
            (PlanAtom::Word { col, atom }, OpenColumn::Texts(text)) => {
                let placed = self.placed(*col);
                check_texts(alloc, store, &placed, text, atom, candidates, steps)
            }
            // it is known on each row, so there are no candidates
            (PlanAtom::Exists { .. }, _) => Ok(candidates.copy(alloc, steps)?),
            _ => unreachable!(),
        }
    }

    ghost meaning = { λ c files m means. part_means files c.dir c.meta m means };

    ghost memory = { λ full fault given. of_memory fault given };

    ghost no_failure = { not_of_store };
}
