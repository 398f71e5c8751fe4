//! Rules, which give each value the key that decides its bin.
ghost use Rattle.std.specs.Prelude.{◌≡◌, ◌+◌, ◌≤◌, count_by, length, true, IfOk};
ghost use Rattle.std.specs.List.{AllByRecursion};
ghost use Rattle.wah_words.specs.Spelling.{words_of};
ghost use Rattle.index_spec.specs.Language.{IsGivenBinning};
ghost use Rattle.binning.specs.Spans.{IsInRange, int_le};
ghost use Rattle.binning.specs.Keys.{key, keying_of, IsKeying, Rises};
ghost use Rattle.binning.specs.Bins.{cells, present};
ghost use Rattle.binning.specs.declared.rules.Keying.TheVariants.{Each};

use crate::bounds::{weights, width_bounds};
use crate::digits::leading;
use index_spec::Binning;
use sqlite_items::Items;
use std::alloc::{AllocError, Global};
use std::marker::Model;
use std::sync::ledger::Ledger;
use steps::Steps;
use wah_words::Wah;

/// What decides the bin of a value.
#[derive(Debug, Drop)]
pub enum Keying {
    /// The value itself.
    Each,
    /// How many of these bounds, which rise, are at most the value.
    Bounds(Items<i128>),
    /// The value with all but its first 1 to 18 decimal digits 0.
    Digits(u32),
}

/// A rule by which the values of a column fall into bins. Contracts see what it keeps.
#[derive(Debug, Drop)]
pub struct Rule {
    keys: Keying,
}

impl Model for Rule {
    ghost use Rattle.binning.specs.declared.rules.Keying.{Keying};

    ghost Value = { Keying };

    ghost use Rattle.binning.specs.Keys.{IsKeying};

    ghost view = { λ r. r.keys };

    ghost invariant = { λ r. IsKeying r.keys };
}

/// The keys that a binning says over a column.
fn keys_said<L: Ledger>(
    alloc: Global,
    binning: &Binning,
    values: &[i128],
    mask: &Wah,
    steps: &mut Steps<L>,
) -> Result<Keying, AllocError>
    requires given { IsGivenBinning binning.now }
    requires same { length values.now ≡ length mask.now }
    ensures keys { IfOk result (λ keys. keys ≡ keying_of binning.now (present (cells mask.now values.now))) }
    ensures steps { steps.new ≤ steps.old + words_of mask.now }
{
    match binning {
        Binning::Each => Ok(Keying::Each),
        Binning::Bounds(bounds) => {
            let bounds = Items::from_slice(alloc, bounds.as_slice())?;
            Ok(Keying::Bounds(bounds))
        }
        Binning::Width { start, end, count } => {
            let bounds = width_bounds(alloc, *start, *end, *count)?;
            Ok(Keying::Bounds(Items::from_vec(bounds)))
        }
        Binning::Weight { count } => {
            let bounds = weights(alloc, values, mask, *count, steps)?;
            Ok(Keying::Bounds(Items::from_vec(bounds)))
        }
        Binning::Precision { digits } => Ok(Keying::Digits(*digits)),
    }
}

/// The rule of a binning over a column, whose values lie between -2^63 and 2^64 - 1. Only binning by weight looks at
/// the values, and of these only at those where the mask is true.
pub fn make_rule<L: Ledger>(
    alloc: Global,
    binning: &Binning,
    values: &[i128],
    mask: &Wah,
    steps: &mut Steps<L>,
) -> Result<Rule, AllocError>
    requires given { IsGivenBinning binning.now }
    requires same { length values.now ≡ length mask.now }
    requires within { AllByRecursion IsInRange values.now }
    ensures rule { IfOk result (λ rule. rule ≡ keying_of binning.now (present (cells mask.now values.now))) }
    ensures kept { IfOk result (λ rule. IsKeying rule) }
    ensures steps { steps.new ≤ steps.old + words_of mask.now }
{
    let keys = keys_said(alloc, binning, values, mask, steps)?;
    Ok(Rule { keys })
}

/// How many of the bounds, which rise, are at most the value.
fn count_at_most(bounds: &[i128], v: i128) -> usize
    requires { Rises bounds.now }
    ensures { result ≡ count_by (λ b. int_le b v) bounds.now }
{
    bounds.partition_point(|bound| *bound <= v)
}

impl Rule {
    /// The key of a value. It rises, or stays, as the value rises.
    pub fn key(&self, v: i128) -> i128
        requires { IsInRange v }
        ensures { result ≡ key self.now v }
    {
        match &self.keys {
            Keying::Each => v,
            Keying::Bounds(bounds) => count_at_most(bounds.as_slice(), v) as i128,
            Keying::Digits(digits) => leading(*digits, v),
        }
    }

    /// The rule by which each value is its own key.
    pub(crate) fn each() -> Rule
        ensures { result ≡ Each }
    {
        Rule { keys: Keying::Each }
    }

    /// Whether each value is its own key.
    pub(crate) fn is_each(&self) -> bool
        ensures { result ≡ true → self.now ≡ Each }
    {
        matches!(self.keys, Keying::Each)
    }

    /// The same rule again.
    pub fn copy(&self, alloc: Global) -> Result<Rule, AllocError>
        ensures { IfOk result (λ rule. rule ≡ self.now) }
    {
        let keys = match &self.keys {
            Keying::Each => Keying::Each,
            Keying::Bounds(bounds) => Keying::Bounds(Items::from_slice(alloc, bounds.as_slice())?),
            Keying::Digits(digits) => Keying::Digits(*digits),
        };
        Ok(Rule { keys })
    }
}
