use column_file::ColFault;
use thiserror::Error;

/// Why a dictionary isn't read: the first that holds. Codes count from 1.
#[derive(Debug, Drop, PartialEq, Eq, Error)]
pub enum DicFault {
    /// The bytes end before the number of words, or within a word.
    #[error("the dictionary is cut off")]
    Short,
    /// There are more than 4,194,304 words.
    #[error("there are too many words")]
    TooMany,
    /// The word of this code has no bytes.
    #[error("word {0} is empty")]
    Empty(u32),
    /// The word of this code stands before, too.
    #[error("word {0} is there already")]
    Repeated(u32),
    /// Bytes follow the last word.
    #[error("bytes follow the words")]
    Trailing,
    /// The file isn't there.
    #[error("the dictionary is missing")]
    Missing,
    /// A call on the store failed. It is answered as soon as that is so.
    #[error("the store failed")]
    Store,
    #[error("out of memory")]
    OutOfMemory,
}

/// Why a text column isn't opened or read: the first that holds, in this order.
#[derive(Debug, Drop, PartialEq, Eq, Error)]
pub enum TextFault {
    /// The text file isn't there.
    #[error("the text file is missing")]
    Missing,
    /// The starts file isn't there.
    #[error("the starts file is missing")]
    StartsMissing,
    /// The starts file has `have` bytes where `want` had to be.
    #[error("there are {have} bytes of starts where {want} had to be")]
    StartsLength { want: u64, have: u64 },
    /// The start of this row, counted from 0, is below the one before it, or the first one isn't 0.
    #[error("start {0} is below the one before it")]
    NotRising(u32),
    /// The last start is `have` where the text file ends at `want`.
    #[error("the last start is {have} where the text file ends at {want}")]
    LastStart { want: u64, have: u64 },
    /// The text file ended before the bytes that were asked for.
    #[error("the text file is too short")]
    ShortRead,
    /// The mask isn't that of so many rows.
    #[error("the mask can't be opened: {0}")]
    Mask(ColFault),
    /// A call on the store failed. It is answered as soon as that is so.
    #[error("the store failed")]
    Store,
    #[error("out of memory")]
    OutOfMemory,
}
