use thiserror::Error;
use wah_words::WordsFault;

/// Why a column's files aren't written or read: the first that holds, in this order.
#[derive(Debug, Drop, PartialEq, Eq, Error)]
pub enum ColFault {
    /// The values file isn't there.
    #[error("the values file is missing")]
    Missing,
    /// The values file, or what was read of it, has `have` bytes where `want` had to stand.
    #[error("there are {have} bytes of values where {want} had to be")]
    WrongLength { want: u64, have: u64 },
    /// The mask file isn't there.
    #[error("the mask file is missing")]
    MaskMissing,
    /// The mask file doesn't begin with a vector.
    #[error("the mask file has no vector: {0}")]
    Mask(WordsFault),
    /// Bytes follow the vector of the mask file.
    #[error("bytes follow the mask")]
    MaskTrailing,
    /// The mask has `have` bits where `want` had to be, one a row.
    #[error("the mask has {have} bits where {want} had to be")]
    MaskLength { want: u32, have: u32 },
    /// A call on the store failed. It is answered as soon as that is so.
    #[error("the store failed")]
    Store,
    #[error("out of memory")]
    OutOfMemory,
}
