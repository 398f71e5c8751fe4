ghost use Rattle.std.specs.Prelude.{OnOk, OnErr};
ghost use Rattle.std.specs.Io.KnownBytes.{Appends};
ghost use Rattle.fb_outside.specs.Streams.{AppendsInPart};

use std::io::{ErrorKind, Result, Write};

/// Writes all the bytes, in one call where the writer takes them so, and flushes. Each error ends it.
pub(crate) fn write_all<W: Write>(writer: &mut W, bytes: &[u8]) -> Result<()>
    ensures ok { OnOk result (Appends (W.contents writer.old) (W.contents writer.new) bytes.now) }
    ensures err { OnErr result (AppendsInPart (W.contents writer.old) (W.contents writer.new) bytes.now) }
{
    let mut written = 0;
    while written < bytes.len() {
        let n = writer.write(&bytes[written..])?;
        if n == 0 {
            return Err(ErrorKind::WriteZero.into());
        }
        written += n;
    }
    writer.flush()
}
