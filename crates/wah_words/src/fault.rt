use thiserror::Error;

/// Why bytes are refused.
#[derive(Debug, Drop, PartialEq, Eq, Error)]
pub enum WordsFault {
    /// The bytes end before the vector does.
    #[error("bytes are missing")]
    Short,
    /// The length is over 4,194,304.
    #[error("the vector is too long")]
    TooLong,
    /// The words stand for more or fewer groups than the length has.
    #[error("the groups of the words are not those of the length")]
    Groups,
    /// The first word that the one spelling of a list has not, by its place among the words. The active word stands last.
    #[error("word {0} is not canonical")]
    NotCanonical(u32),
    /// Memory ran out.
    #[error("out of memory")]
    OutOfMemory,
}
