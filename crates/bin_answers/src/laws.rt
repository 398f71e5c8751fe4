//! Laws of runs of bins and of written indexes, each on a function that does nothing.

ghost use Rattle.std.specs.Prelude.{◌≡◌, Bool, List, [], ◌∷◌, Some};
ghost use Rattle.fb_outside.specs.Files.{Files};
ghost use Rattle.index_file.specs.declared.head.IndexHead.{IndexHead};
ghost use Rattle.binning.specs.declared.against_bins.Three.{Three};
ghost use Rattle.binning.specs.declared.against_bins.Three.TheVariants.{No, Unknown, Yes};
ghost use Rattle.binning.specs.declared.gathering.Bin.{Bin};
ghost use Rattle.bin_answers.specs.BinRuns.{AreRunsOf, run, runs_of};
ghost use Rattle.bin_answers.specs.Fetched.{HasBins};
ghost use Rattle.bin_answers.specs.Written.{IsWritten};

/// The runs of bins with one answer rise, and none can be longer. A bin that is Yes or Unknown is in a run of its answer, and
/// one that is No in none.
pub fn runs_of_bins()
    ensures runs { (answers : List Three) → AreRunsOf answers (runs_of answers) }
    ensures few { runs_of (No ∷ Yes ∷ Unknown ∷ []) ≡ run Yes 1 2 ∷ run Unknown 2 3 ∷ [] }
    ensures more { runs_of (Yes ∷ Yes ∷ Unknown ∷ No ∷ Unknown ∷ Unknown ∷ Yes ∷ [])
        ≡ run Yes 0 2 ∷ run Unknown 2 3 ∷ run Unknown 4 6 ∷ run Yes 6 7 ∷ [] }
{}

/// Where a file is that of an index of some bins, as it is written, their bitmaps stand in its places.
pub fn written_indexes_have_their_bins()
    ensures { (m : Files) (head : IndexHead) (mask : List Bool) (bins : List Bin) → IsWritten m head mask bins → HasBins (Some m) head mask bins }
{}
