//! The bins of a column, gathered block by block.
ghost use Rattle.std.specs.Prelude.{◌≡◌, ℤ, ◌+◌, ◌≤◌, List, Option, [], ◌++◌, length, IfOk};
ghost use Rattle.std.specs.List.{AllByRecursion};
ghost use Rattle.wah_words.specs.Limits.{most_bits};
ghost use Rattle.wah_words.specs.Spelling.{words_of};
ghost use Rattle.binning.specs.Spans.{IsInRange};
ghost use Rattle.binning.specs.Bins.{cells, bins_of};
ghost use Rattle.binning.specs.Gathered.{Gathered};
ghost use Rattle.binning.specs.Kept.{held_by};
ghost use Rattle.binning.specs.declared.rules.Keying.TheVariants.{Each};

use crate::gathering::{Bin, Grouped};
use crate::listed::Listed;
use crate::masks::append_mask;
use crate::rules::Rule;
use std::alloc::{AllocError, Global};
use std::marker::Model;
use std::sync::ledger::Ledger;
use steps::Steps;
use wah_words::Wah;

/// The rows of a column so far. Where each value is its own key they are listed first, and put into groups once it
/// shows that rows share values.
#[derive(Drop)]
pub enum Kept {
    Listed(Listed),
    Grouped(Grouped),
}

/// The rows of a column so far, by a rule. Contracts see the rule, the groups, and the place of each row's group; of
/// rows that are only listed the groups that they stand for.
#[derive(Drop)]
pub struct Gatherer {
    alloc: Global,
    kept: Kept,
}

impl Model for Gatherer {
    ghost use Rattle.binning.specs.Gathered.{Held};
    ghost use Rattle.binning.specs.Kept.{held_by};

    ghost Value = { Held };

    ghost view = { λ g. held_by g.kept };
}

/// Adds rows to listed ones.
fn put_listed(listed: Listed, is_there: &[bool], values: &[i128]) -> Result<Kept, AllocError>
    requires same { length is_there.now ≡ length values.now }
    requires within { AllByRecursion IsInRange values.now }
    requires room { length listed + length values.now ≤ most_bits }
    ensures rule { IfOk result (λ all. (held_by all).rule ≡ Each) }
    ensures gathered { IfOk result (λ all. Gathered (held_by all) (listed ++ cells is_there.now values.now)) }
{
    let is_decided = listed.is_many();
    let listed = listed.put(is_there, values)?;
    if !is_decided && listed.shares_values()? {
        return Ok(Kept::Grouped(listed.grouped()?));
    }
    Ok(Kept::Listed(listed))
}

/// Adds rows, of which some are there.
fn put(kept: Kept, is_there: &[bool], values: &[i128]) -> Result<Kept, AllocError>
    requires same { length is_there.now ≡ length values.now }
    requires within { AllByRecursion IsInRange values.now }
    requires room { length (held_by kept).places + length values.now ≤ most_bits }
    ensures rule { IfOk result (λ all. (held_by all).rule ≡ (held_by kept).rule) }
    ensures rows { IfOk result (λ all. length (held_by all).places ≡ length (held_by kept).places + length values.now) }
    ensures gathered { IfOk result (λ all. (column : List (Option ℤ)) → Gathered (held_by kept) column → Gathered (held_by all) (column ++ cells is_there.now values.now)) }
{
    match kept {
        Kept::Listed(listed) => put_listed(listed, is_there, values),
        Kept::Grouped(grouped) => Ok(Kept::Grouped(grouped.put(is_there, values)?)),
    }
}

/// The bins of the rows.
fn bins_of_kept(kept: &Kept) -> Result<Vec<Bin>, AllocError>
    ensures { IfOk result (λ bins. (column : List (Option ℤ)) → Gathered (held_by kept.now) column → bins.items ≡ bins_of (held_by kept.now).rule column) }
{
    match kept {
        Kept::Listed(listed) => {
            let bins = listed.finish()?;
            Ok(bins)
        }
        Kept::Grouped(grouped) => grouped.finish(),
    }
}

impl Gatherer {
    /// No row yet.
    pub fn make(alloc: Global, rule: Rule) -> Gatherer
        ensures rule { result.rule ≡ rule }
        ensures rows { length result.places ≡ 0 }
        ensures gathered { Gathered result [] }
    {
        let kept = if rule.is_each() {
            Kept::Listed(Listed::new(alloc))
        } else {
            Kept::Grouped(Grouped::make(alloc, rule))
        };
        Gatherer { alloc, kept }
    }

    /// Further rows: their values, between -2^63 and 2^64 - 1, and at which of them the column has one. There may be
    /// 4,194,304 rows in all. A call that is refused hands nothing back.
    pub fn add<L: Ledger>(
        self,
        values: &[i128],
        present: &Wah,
        steps: &mut Steps<L>,
    ) -> Result<Gatherer, AllocError>
        requires same { length values.now ≡ length present.now }
        requires within { AllByRecursion IsInRange values.now }
        requires room { length self.places + length values.now ≤ most_bits }
        ensures rule { IfOk result (λ all. all.rule ≡ self.rule) }
        ensures rows { IfOk result (λ all. length all.places ≡ length self.places + length values.now) }
        ensures gathered { IfOk result (λ all. (column : List (Option ℤ)) → Gathered self column → Gathered all (column ++ cells present.now values.now)) }
        ensures steps { steps.new ≤ steps.old + words_of present.now }
    {
        let Gatherer { alloc, kept } = self;
        let mut is_there = Vec::with_capacity(alloc, values.len())?;
        append_mask(&mut is_there, present, steps)?;
        let kept = put(kept, is_there.as_slice(), values)?;
        Ok(Gatherer { alloc, kept })
    }

    /// The bins of all rows: one for each key, in rising order of key.
    pub fn finish(self) -> Result<Vec<Bin>, AllocError>
        ensures { IfOk result (λ bins. (column : List (Option ℤ)) → Gathered self column → bins.items ≡ bins_of self.rule column) }
    {
        bins_of_kept(&self.kept)
    }
}

/// The bins of a column, whose values lie between -2^63 and 2^64 - 1 and of which a row is there where the mask is true.
pub fn bins<L: Ledger>(
    alloc: Global,
    rule: &Rule,
    values: &[i128],
    mask: &Wah,
    steps: &mut Steps<L>,
) -> Result<Vec<Bin>, AllocError>
    requires same { length values.now ≡ length mask.now }
    requires within { AllByRecursion IsInRange values.now }
    ensures bins { IfOk result (λ bins. bins.items ≡ bins_of rule.now (cells mask.now values.now)) }
    ensures steps { steps.new ≤ steps.old + words_of mask.now }
{
    let _rows = mask.len();
    let gatherer = Gatherer::make(alloc, rule.copy(alloc)?);
    let all = gatherer.add(values, mask, steps)?;
    let bins = all.finish()?;
    Ok(bins)
}
