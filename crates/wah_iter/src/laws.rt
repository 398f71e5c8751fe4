//! Laws of runs, on a function that does nothing.
ghost use Rattle.std.specs.Prelude.{◌≡◌, List, Bool};
ghost use Rattle.wah_iter.specs.Rows.{AreApart, rows_in, rows_of, runs_of};

/// The runs of a list have its rows, in order, and none of them can be longer.
pub fn maximal_runs()
    ensures rows { (v : List Bool) → rows_in (runs_of v) ≡ rows_of v }
    ensures apart { (v : List Bool) → AreApart (runs_of v) }
{}
