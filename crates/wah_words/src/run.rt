/// The values of one word.
#[derive(Clone, Copy, Debug, PartialEq, Eq)]
pub enum Run {
    /// `groups` times 31 values `bit`.
    Fill { bit: bool, groups: u32 },
    /// 31 values, the first in bit 30.
    Literal(u32),
    /// The last `count` values, 1 to 30, the first in bit `count - 1`.
    Tail { bits: u32, count: u32 },
}
