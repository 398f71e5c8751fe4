//! The range encoding of bins: bitmap `k` has the rows of bins 0 to `k`, so that any run of bins is told by two bitmaps
//! at most (O'Neil and Quass, "Improved query performance with variant indexes", SIGMOD 1997; Chan and Ioannidis,
//! "Bitmap index design and evaluation", SIGMOD 1998).
#![tactic(auto)]

mod range;

pub use range::RangeCode;
