//! Writes bytes and flushes.

ghost use Rattle.std.specs.Prelude.{IsFalse, IsTrue, MatchBool};
ghost use Rattle.std.specs.Io.KnownBytes.{Appends};
ghost use Rattle.streams.specs.Logs.{HasRefused, HasSucceeded};
ghost use Rattle.streams.specs.Writing.{WritesPrefix};

use crate::log::CallLog;
use std::io::Write;

/// Writes these bytes and flushes the writer, and returns whether that succeeded. It stops at the first call that fails, with
/// any error, or that takes no byte; a prefix has then been written.
pub fn write_out<W: Write>(writer: &mut W, bytes: &[u8]) -> bool
    ensures written { MatchBool result (Appends (W.contents writer.old) (W.contents writer.new) bytes.now)
        (WritesPrefix (W.contents writer.old) (W.contents writer.new) bytes.now) }
{
    write_out_logged(writer, bytes, &mut CallLog::new())
}

/// Writes as [`write_out`] does, with the calls of the writer in a log. Where it does not succeed, the log has an error or that
/// nothing was taken; where it does, the log has none that it did not have before.
pub fn write_out_logged<W: Write>(writer: &mut W, bytes: &[u8], log: &mut CallLog) -> bool
    ensures written { MatchBool result (Appends (W.contents writer.old) (W.contents writer.new) bytes.now)
        (WritesPrefix (W.contents writer.old) (W.contents writer.new) bytes.now) }
    ensures unwritten { IsFalse result → HasRefused log.new }
    ensures no_failure { IsTrue result → HasSucceeded log.old log.new }
{
    let mut rest = bytes;
    while !rest.is_empty() {
        match log.write(writer, rest) {
            Ok(0) | Err(_) => return false,
            Ok(n) => rest = &rest[n..],
        }
    }
    log.flush(writer).is_ok()
}
