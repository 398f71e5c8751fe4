use thiserror::Error;
use wah_words::WordsFault;

/// Why an index file isn't written, opened or read: the first that holds, in this order.
#[derive(Debug, Drop, PartialEq, Eq, Error)]
pub enum IndexFault {
    /// The file ends within its first 24 bytes, or within the head whose length these give.
    #[error("the index file is too short")]
    Short,
    /// The file doesn't begin with `FBIX`.
    #[error("the file is no index file")]
    Magic,
    /// The layout has this version, which isn't known.
    #[error("the index file has version {0}")]
    Version(u32),
    /// The index has `have` rows where `want` had to be.
    #[error("the index has {have} rows where {want} had to be")]
    Rows { want: u32, have: u32 },
    /// The text isn't the printed form of a specification.
    #[error("the specification isn't in its printed form")]
    Spec,
    /// The least value of this bin, counted from 0, is above its greatest, or not above the bin before.
    #[error("bin {0} isn't in order")]
    Order(u32),
    /// There are `have` bitmaps where the encoding of the bins has `want`, or 0 where it has none of so many bins.
    #[error("there are {have} bitmaps where {want} had to be")]
    Count { want: u64, have: u64 },
    /// The place of this number isn't where the head ends, isn't 8 or more past the one before it, or isn't where the
    /// file ends.
    #[error("place {0} is wrong")]
    Offsets(u32),
    /// The bytes between the places of this bitmap don't begin with a vector.
    #[error("bitmap {0} is no vector: {1}")]
    Bitmap(u32, WordsFault),
    /// Bytes follow the vector of this bitmap.
    #[error("bytes follow bitmap {0}")]
    BitmapTrailing(u32),
    /// The vector of this bitmap has another number of rows.
    #[error("bitmap {0} has another number of rows")]
    BitmapLength(u32),
    /// A call on the store failed. It is answered as soon as that is so.
    #[error("the store failed")]
    Store,
    #[error("out of memory")]
    OutOfMemory,
}
