//! Writes bytes to a writer, without a second attempt.

ghost use Rattle.std.specs.Io.KnownBytes.{Appends};
ghost use Rattle.run_checkpoint.specs.Writing.{Puts};

use std::io::{self, ErrorKind, Write};

/// Writes these bytes. No call is made again.
///
/// # Errors
///
/// That of the writer, or `WriteZero` where it takes no byte.
pub(crate) fn put<W: Write>(writer: &mut W, bytes: &[u8]) -> io::Result<()>
    ensures { Puts (W.contents writer.old) (W.contents writer.new) bytes.now result }
{
    let mut rest = bytes;
    while !rest.is_empty() {
        match writer.write(rest) {
            Ok(0) => return Err(ErrorKind::WriteZero.into()),
            Ok(len) => (_, rest) = rest.split_at(len),
            Err(error) => return Err(error),
        }
    }
    Ok(())
}
