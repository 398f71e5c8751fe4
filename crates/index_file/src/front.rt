//! The first 24 bytes of an index file.

ghost use Rattle.std.specs.Prelude.{◌≡◌, ◌≤◌, IfErr, IfOk, IsErrOf, length};
ghost use Rattle.index_file.specs.Front.{front_in, size_of};
ghost use Rattle.index_file.specs.IndexFile.{front_bytes};
ghost use Rattle.index_file.specs.Opening.{StopsFront};

use crate::fault::IndexFault;
use crate::numbers::number_at;

pub(crate) const FRONT_BYTES: usize = 24;

pub(crate) const VERSION: u32 = 1;

/// How many bins, bitmaps and bytes of a specification an index file says that it has.
#[derive(Clone, Copy, Debug, PartialEq, Eq)]
pub struct Front {
    pub bins: u32,
    pub bitmaps: u32,
    pub text: u32,
}

impl Front {
    /// The bytes of the head. Sizes are compared as these numbers, before any memory is taken.
    pub(crate) fn size(self) -> u64
        ensures { result ≡ size_of self }
    {
        24 + (u64::from(self.text)
            + (32 * u64::from(self.bins) + 8 * (u64::from(self.bitmaps) + 1)))
    }
}

/// What the first bytes of an index of so many rows say.
pub(crate) fn front_of(bytes: &[u8], rows: u32) -> Result<Front, IndexFault>
    ensures exact { result ≡ front_in rows bytes.now }
    ensures spelled { length bytes.now ≤ 24 → IfOk result (λ front. bytes.now ≡ front_bytes rows front.bins front.bitmaps front.text) }
    ensures stop { IfErr result (StopsFront rows) }
    ensures unfailed { IsErrOf result IndexFault.Store → ⊥ }
{
    sizes_of(bytes, rows)
}

#[tactic(auto, unfolding(crate::specs::Front::front_in))]
fn sizes_of(bytes: &[u8], rows: u32) -> Result<Front, IndexFault>
    ensures exact { result ≡ front_in rows bytes.now }
    ensures stop { IfErr result (StopsFront rows) }
    ensures unfailed { IsErrOf result IndexFault.Store → ⊥ }
{
    if bytes.len() < FRONT_BYTES {
        return Err(IndexFault::Short);
    }
    if &bytes[..4] != b"FBIX".as_slice() {
        return Err(IndexFault::Magic);
    }
    let version = number_at(bytes, 4);
    if version != VERSION {
        return Err(IndexFault::Version(version));
    }
    let have = number_at(bytes, 8);
    if have != rows {
        return Err(IndexFault::Rows { want: rows, have });
    }
    Ok(Front {
        bins: number_at(bytes, 12),
        bitmaps: number_at(bytes, 16),
        text: number_at(bytes, 20),
    })
}
