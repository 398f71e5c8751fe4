ghost use Rattle.std.specs.Prelude.{◌≡◌, ◌<◌, ◌≤◌, IfOk, IfErr, OnOk, IsErrOf, length, vec_len};
ghost use Rattle.fb_outside.specs.Causes.{HasCause};
ghost use Rattle.fb_outside.specs.Streams.{IsAtEnd, Takes};
ghost use Rattle.csv_load.specs.Input.{Explains, block_bytes};

use fb_outside::Source;
use std::alloc::{AllocError, Global};
use thiserror::Error;

/// Why an input isn't had whole.
#[derive(Debug, Drop, Error)]
pub enum InputFault {
    #[error("the input failed")]
    ReadFault,
    #[error("more than {limit} bytes of input")]
    TooLong { limit: u64 },
    #[error("out of memory")]
    OutOfMemory,
}

/// How many bytes are asked of a source at a time.
const BLOCK: usize = 65536;

/// Reads a source to its end, which may have up to `limit` bytes. A longer one is refused as soon as more
/// than `limit` bytes came.
pub fn read_input<I: Source>(
    alloc: Global,
    input: &mut I,
    limit: u64,
) -> Result<Vec<u8>, InputFault>
    ensures cause { HasCause (I.faults input.old) (I.faults input.new) (IsErrOf result InputFault.ReadFault) }
    ensures taken { IfOk result (λ bytes. Takes (I.left input.old) (I.left input.new) bytes.items) }
    ensures end { OnOk result (IsAtEnd (I.left input.new)) }
    ensures within { IfOk result (λ bytes. length bytes.items ≤ limit) }
    ensures fault { IfErr result (Explains limit block_bytes (I.left input.old) (I.left input.new)) }
{
    let Ok(mut block) = zeros(alloc, BLOCK) else {
        return Err(InputFault::OutOfMemory);
    };
    read_by_blocks(alloc, input, block.as_mut_slice(), limit)
}

fn zeros(alloc: Global, count: usize) -> Result<Vec<u8>, AllocError>
    ensures { IfOk result (λ bytes. length bytes.items ≡ count) }
{
    vec![in alloc; 0u8; count]
}

// The same, through a block of any size.
fn read_by_blocks<I: Source>(
    alloc: Global,
    input: &mut I,
    block: &mut [u8],
    limit: u64,
) -> Result<Vec<u8>, InputFault>
    requires { 0 < length block.old }
    ensures cause { HasCause (I.faults input.old) (I.faults input.new) (IsErrOf result InputFault.ReadFault) }
    ensures taken { IfOk result (λ bytes. Takes (I.left input.old) (I.left input.new) bytes.items) }
    ensures end { OnOk result (IsAtEnd (I.left input.new)) }
    ensures within { IfOk result (λ bytes. length bytes.items ≤ limit) }
    ensures fault { IfErr result (Explains limit (length block.old) (I.left input.old) (I.left input.new)) }
{
    let mut all = Vec::new(alloc);
    loop {
        let Ok(count) = input.take(block) else {
            return Err(InputFault::ReadFault);
        };
        if count == 0 {
            return Ok(all);
        }
        if count as u64 > limit - all.len() as u64 {
            return Err(InputFault::TooLong { limit });
        }
        if all.extend_from_slice(&block[..count]).is_err() {
            return Err(InputFault::OutOfMemory);
        }
    }
}
