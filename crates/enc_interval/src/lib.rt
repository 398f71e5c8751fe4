//! The interval encoding of bins: bitmap `k` has the rows of the half of the bins that begins at bin `k`, so that any run
//! of bins is told by two bitmaps at most, out of half as many as there are bins (Chan and Ioannidis, "An efficient bitmap
//! encoding scheme for selection queries", SIGMOD 1999).
#![tactic(auto)]

mod interval;
mod sliding;

pub use interval::IntervalCode;
