//! Numbers of a fixed width, the lowest byte first.

ghost use Rattle.std.specs.Prelude.{◌≡◌, ◌+◌, ◌≤◌, ◌++◌, OnErr, OnOk, drop, length, take};
ghost use Rattle.std.specs.Int.{to_le_bytes, w32, w64};
ghost use Rattle.index_file.specs.Front.{number_at};
ghost use Rattle.index_file.specs.IndexFile.{end_bytes};

use byteorder::{ByteOrder, LittleEndian};
use std::alloc::AllocError;

pub(crate) fn push_u32(bytes: &mut Vec<u8>, number: u32) -> Result<(), AllocError>
    ensures { OnOk result (bytes.new.items ≡ bytes.old.items ++ to_le_bytes w32 number) }
{
    let mut piece = [0; 4];
    LittleEndian::write_u32(&mut piece, number);
    bytes.extend_from_slice(&piece)
}

pub(crate) fn push_u64(bytes: &mut Vec<u8>, number: u64) -> Result<(), AllocError>
    ensures { OnOk result (bytes.new.items ≡ bytes.old.items ++ to_le_bytes w64 number) }
{
    let mut piece = [0; 8];
    LittleEndian::write_u64(&mut piece, number);
    bytes.extend_from_slice(&piece)
}

/// The number in two's complement.
#[tactic(auto, unfolding(crate::specs::IndexFile::end_bytes))]
pub(crate) fn push_i128(bytes: &mut Vec<u8>, number: i128) -> Result<(), AllocError>
    ensures { OnOk result (bytes.new.items ≡ bytes.old.items ++ end_bytes number) }
{
    let mut piece = [0; 16];
    LittleEndian::write_i128(&mut piece, number);
    bytes.extend_from_slice(&piece)
}

/// The number in the four bytes from a place on.
#[tactic(auto, unfolding(crate::specs::Front::number_at))]
pub(crate) fn number_at(bytes: &[u8], at: usize) -> u32
    requires { at + 4 ≤ length bytes.now }
    ensures { result ≡ number_at at bytes.now }
{
    let (_, rest) = bytes.split_at(at);
    let Some((piece, _)) = rest.split_first_chunk::<4>() else {
        unreachable!()
    };
    u32::from_le_bytes(*piece)
}
