//! Bins written as an index.

ghost use Rattle.std.specs.Prelude.{◌≡◌, ◌≢◌, ◌≤◌, IfErr, IfOk, IsErrOf, IsSome, OnOk, length, map};
ghost use Rattle.fb_outside.specs.Causes.{HasCause};
ghost use Rattle.fb_outside.specs.Files.{SameFiles};
ghost use Rattle.wah_words.specs.Limits.{most_bits};
ghost use Rattle.index_spec.specs.Counts.{bitmap_count};
ghost use Rattle.index_spec.specs.Language.{IsGiven};
ghost use Rattle.index_file.specs.IndexFile.{index_bytes};
ghost use Rattle.binning.specs.Encodings.{vectors};
ghost use Rattle.binning.specs.Members.{bitmaps_of};
ghost use Rattle.index_build.specs.Build.{AnswersOver, LeavesIndex};
ghost use Rattle.index_build.specs.Index.{AreOfColumn, Tells};
ghost use Rattle.world.specs.IndexFiles.{edge_of};

use crate::fault::BuildFault;
use binning::{Bin, EncFault, Encoding};
use enc_two_level::AnyEncoding;
use fb_outside::{FileName, Store};
use index_file::{Edge, IndexFault, write_index};
use index_spec::Spec;
use std::alloc::{AllocError, Global};
use std::sync::ledger::Ledger;
use steps::Steps;
use wah_words::Wah;

/// How many bins and bitmaps an index has.
#[derive(Clone, Copy, Debug, PartialEq, Eq)]
pub struct Built {
    pub bins: u32,
    pub bitmaps: u64,
}

/// The ends of the bins.
fn edges_of(alloc: Global, bins: &[Bin]) -> Result<Vec<Edge>, AllocError>
    ensures { IfOk result (λ edges. edges.items ≡ map edge_of bins.now) }
{
    let mut edges = Vec::with_capacity(alloc, bins.len())?;
    for bin in bins {
        edges.push(Edge {
            least: bin.least,
            greatest: bin.greatest,
        })?;
    }
    Ok(edges)
}

/// The bitmaps of the bins of a column.
fn bitmaps_by<L: Ledger>(
    alloc: Global,
    spec: &Spec,
    bins: &[Bin],
    rows: u32,
    steps: &mut Steps<L>,
) -> Result<Vec<Wah>, BuildFault>
    requires given { IsGiven spec.now }
    requires limit { rows ≤ most_bits }
    requires bins { AreOfColumn rows bins.now }
    ensures bitmaps { IfOk result (λ all. all.items ≡ bitmaps_of spec.now.encoding rows (vectors bins.now)) }
    ensures counted { OnOk result (IsSome (bitmap_count spec.now.encoding (length bins.now))) }
    ensures stop { IfErr result (Tells spec.now.encoding (length bins.now)) }
    ensures unstored { IfErr result (λ fault. fault ≢ BuildFault.Store) }
{
    match AnyEncoding::of(&spec.encoding).bitmaps(alloc, bins, rows, steps) {
        Ok(all) => Ok(all),
        Err(EncFault::TooManyBins { bins, limit }) => Err(BuildFault::TooManyBins { bins, limit }),
        Err(EncFault::OutOfMemory) => Err(BuildFault::OutOfMemory),
    }
}

/// Writes the index of the bins of a column under a name.
pub(crate) fn write_bins<S: Store, L: Ledger>(
    alloc: Global,
    store: &mut S,
    name: &FileName,
    spec: &Spec,
    bins: &[Bin],
    rows: u32,
    steps: &mut Steps<L>,
) -> Result<Built, BuildFault>
    requires given { IsGiven spec.now }
    requires limit { rows ≤ most_bits }
    requires bins { AreOfColumn rows bins.now }
    ensures cause { HasCause (S.faults store.old) (S.faults store.new) (IsErrOf result BuildFault.Store) }
    ensures leaves { LeavesIndex spec.now.encoding (length bins.now) name.now
        (index_bytes rows spec.now (map edge_of bins.now) (bitmaps_of spec.now.encoding rows (vectors bins.now)))
        result (S.files store.old) (S.files store.new) }
    ensures refused { IfErr result (λ fault. fault ≢ BuildFault.Store → SameFiles (S.files store.old) (S.files store.new)) }
    ensures answer { AnswersOver spec.now.encoding (length bins.now) result }
    ensures reads { S.reads store.new ≡ S.reads store.old }
{
    let bitmaps = bitmaps_by(alloc, spec, bins, rows, steps)?;
    let edges = edges_of(alloc, bins)?;
    match write_index(alloc, store, name, rows, spec, &edges, &bitmaps, steps) {
        Ok(()) => Ok(Built {
            bins: bins.len() as u32,
            bitmaps: bitmaps.len() as u64,
        }),
        Err(IndexFault::OutOfMemory) => Err(BuildFault::OutOfMemory),
        Err(_) => Err(BuildFault::Store),
    }
}
