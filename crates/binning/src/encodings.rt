//! What an encoding makes of bins: the bitmaps that an index keeps, those that a run of bins needs, and the run's rows.
ghost use Rattle.std.specs.Prelude.{◌≡◌, ◌+◌, ◌*◌, ◌^◌, ◌<◌, ◌≤◌, All, List, Bool, length, IfOk, IfErr, OnOk, IsSome};
ghost use Rattle.wah_words.specs.Limits.{most_bits};
ghost use Rattle.wah_logic.specs.Logic.{groups_and_rest};
ghost use Rattle.index_spec.specs.Counts.{bitmap_count, HasGroups};
ghost use Rattle.index_spec.specs.Members.{needed};
ghost use Rattle.index_spec.specs.declared.spec.EncodingSpec.{EncodingSpec};
ghost use Rattle.binning.specs.Members.{AreBins, AreFetched, bitmaps_of, union_of, in_run};
ghost use Rattle.binning.specs.Encodings.{vectors, levels, HasCount, Tells};

use crate::gathering::Bin;
use std::alloc::{AllocError, Global};
use std::sync::ledger::Ledger;
use steps::Steps;
use thiserror::Error;
use wah_words::Wah;

/// Why bins aren't encoded.
#[derive(Debug, Drop, Error)]
pub enum EncFault {
    /// So many bins, or groups of bins, are more than range and interval encodings take, which is 1,024.
    #[error("{bins} bins, over {limit}")]
    TooManyBins { bins: u32, limit: u32 },
    #[error("out of memory")]
    OutOfMemory,
}

impl From<AllocError> for EncFault {
    ghost use Rattle.std.specs.Prelude.{◌≡◌};
    ghost use Rattle.binning.specs.declared.encodings.EncFault.TheVariants.{OutOfMemory};

    ghost from_gives = { λ _ e. e ≡ OutOfMemory };

    fn from(_e: AllocError) -> EncFault {
        EncFault::OutOfMemory
    }
}

/// An encoding of bins by bitmaps. A bitmap is the union of some of the bins, which ones its number decides.
pub trait Encoding {
    // Which encoding it is.
    ghost encoding: { Self → EncodingSpec };

    /// The bitmaps of fewer than 2^32 bins of a column of `rows` rows.
    fn bitmaps<L: Ledger>(
        &self,
        alloc: Global,
        bins: &[Bin],
        rows: u32,
        steps: &mut Steps<L>,
    ) -> Result<Vec<Wah>, EncFault>
        requires groups { HasGroups (encoding self.now) }
        requires few { length bins.now < 2 ^ 32 }
        requires limit { rows ≤ most_bits }
        requires long { All (λ b. length b.rows ≡ rows) bins.now }
        ensures bitmaps { IfOk result (λ v. AreBins rows (vectors bins.now) → v.items ≡ bitmaps_of (encoding self.now) rows (vectors bins.now)) }
        ensures counted { OnOk result (IsSome (bitmap_count (encoding self.now) (length bins.now))) }
        ensures fault { IfErr result (Tells (encoding self.now) (length bins.now)) };

    /// The numbers of the bitmaps that the bins from `first` to the one before `end` need, rising.
    fn needs(&self, alloc: Global, bins: u32, first: u32, end: u32) -> Result<Vec<u32>, AllocError>
        requires groups { HasGroups (encoding self.now) }
        requires order { first < end }
        requires within { end ≤ bins }
        requires counted { HasCount (bitmap_count (encoding self.now) bins) }
        ensures { IfOk result (λ v. v.items ≡ needed (encoding self.now) bins first end) };

    /// The rows of the bins from `first` to the one before `end`, of the bitmaps that they need, in order, and of the
    /// mask, which has the rows of all bins.
    fn eval<L: Ledger>(
        &self,
        alloc: Global,
        bins: u32,
        first: u32,
        end: u32,
        fetched: &[Wah],
        mask: &Wah,
        steps: &mut Steps<L>,
    ) -> Result<Wah, AllocError>
        requires groups { HasGroups (encoding self.now) }
        requires order { first < end }
        requires within { end ≤ bins }
        requires counted { HasCount (bitmap_count (encoding self.now) bins) }
        requires number { length fetched.now ≡ length (needed (encoding self.now) bins first end) }
        requires long { All (λ v. length v ≡ length mask.now) fetched.now }

        // The law: where the bitmaps and the mask are those of some bins, the answer is the union of the run's bins.
        ensures union { IfOk result (λ v. (all : List (List Bool)) → AreFetched (encoding self.now) bins first end all fetched.now mask.now → v ≡ union_of (length mask.now) (in_run first end) all) }

        // Whatever bits they have.
        ensures length { IfOk result (λ v. length v ≡ length mask.now) }
        ensures steps { steps.new ≤ steps.old + 2 * groups_and_rest (length mask.now) * (length fetched.now + levels (encoding self.now)) };
}
