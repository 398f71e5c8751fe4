/// A read of a store in memory: the number of the file, where the read began, and how many bytes it had
/// room for.
#[derive(Clone, Copy, Debug, PartialEq, Eq)]
pub struct ReadNote {
    pub file: usize,
    pub at: u64,
    pub length: u64,
}
