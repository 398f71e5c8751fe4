//! Numbers of a fixed width at the end of bytes, the lowest byte first.

ghost use Rattle.std.specs.Prelude.{◌≡◌, ◌++◌, OnErr, OnOk};
ghost use Rattle.std.specs.Int.{to_le_bytes, w16, w32, w64};

use byteorder::{ByteOrder, LittleEndian};
use std::alloc::AllocError;

pub(crate) fn push_u16(bytes: &mut Vec<u8>, number: u16) -> Result<(), AllocError>
    ensures ok { OnOk result (bytes.new.items ≡ bytes.old.items ++ to_le_bytes w16 number) }
    ensures err { OnErr result (bytes.new.items ≡ bytes.old.items) }
{
    let mut piece = [0; 2];
    LittleEndian::write_u16(&mut piece, number);
    bytes.extend_from_slice(&piece)
}

pub(crate) fn push_u32(bytes: &mut Vec<u8>, number: u32) -> Result<(), AllocError>
    ensures ok { OnOk result (bytes.new.items ≡ bytes.old.items ++ to_le_bytes w32 number) }
    ensures err { OnErr result (bytes.new.items ≡ bytes.old.items) }
{
    let mut piece = [0; 4];
    LittleEndian::write_u32(&mut piece, number);
    bytes.extend_from_slice(&piece)
}

pub(crate) fn push_u64(bytes: &mut Vec<u8>, number: u64) -> Result<(), AllocError>
    ensures ok { OnOk result (bytes.new.items ≡ bytes.old.items ++ to_le_bytes w64 number) }
    ensures err { OnErr result (bytes.new.items ≡ bytes.old.items) }
{
    let mut piece = [0; 8];
    LittleEndian::write_u64(&mut piece, number);
    bytes.extend_from_slice(&piece)
}
