//! Reads a whole dump, from bytes or from a reader.

ghost use Rattle.std.specs.Prelude.{◌≡◌, ◌⊎◌, List, [], ℕ, length, IfErr, IfSome, IsErrOf, MatchResult, OnOk, Ok, Err};
ghost use Rattle.std.specs.Io.KnownBytes.{Consumes, IsAtEnd};
ghost use Rattle.lb_dump.specs.Reading.{IsAnswer, ReaderHasFailed};
ghost use Rattle.dump_format.specs.Dumps.{Dumped};
ghost use Rattle.dump_format.specs.Faults.{IsFault, IsGood};
ghost use Rattle.dump_format.specs.Text.{IsText};
ghost use Rattle.dump_format.specs.declared.error.DumpError.{DumpError};

use crate::reader::DumpReader;
use dump_format::{Dump, DumpError};
use std::alloc::Allocator;
use std::io::Read;
use streams::CallLog;

/// The number of bytes that are requested at a time. This is no limit of the format.
const PIECE_LEN: usize = 65_536;

/// The most calls of a reader: more than any dump has bytes, so that the function ends.
const CALLS: u32 = 16_777_216;

/// The dump of this text, which is in either format.
///
/// # Errors
///
/// The first fault of the bytes from left to right, or [`OutOfMemory`](DumpError::OutOfMemory).
pub fn decode<A: Allocator + Copy>(alloc: A, bytes: &[u8]) -> Result<Dump<A>, DumpError>
    ensures answer { IsAnswer bytes.now result }
    ensures again { (d : Dumped A) → IsText d bytes.now → MatchResult result (λ read. read ≡ d) (λ e. e ≡ DumpError.OutOfMemory) }
    ensures first { (e : DumpError) → IsFault bytes.now e → MatchResult result (λ _. ⊥) (λ f. (f ≡ DumpError.OutOfMemory) ⊎ (f ≡ e)) }
{
    let mut reader = DumpReader::new(alloc);
    reader.feed(bytes)?;
    reader.end()
}

/// The dump of the text that a reader yields, as [`read_from_logged`] returns it. Reads to the end, or to the first fault.
///
/// # Errors
///
/// [`Read`](DumpError::Read) where the reader fails, with any error, or has been called 16,777,216 times;
/// [`OutOfMemory`](DumpError::OutOfMemory) where a request for memory is refused; or else the first fault of the
/// text from left to right. What was read before the reader failed has no fault.
pub fn read_from<R: Read, A: Allocator + Copy>(
    alloc: A,
    reader: &mut R,
) -> Result<Dump<A>, DumpError>
    ensures known { IfSome (R.remaining reader.old) (λ bytes. (result ≡ Err DumpError.Read) ⊎ IsAnswer bytes result) }
    ensures at_end { OnOk result (IsAtEnd (R.remaining reader.new)) }
    ensures so_far { IsErrOf result DumpError.Read → (text : List ℕ) × Consumes (R.remaining reader.old) (R.remaining reader.new) text × IsGood text }
{
    read_from_logged(alloc, reader, &mut CallLog::new())
}

/// The dump of the text that a reader yields, with the calls of the reader in a log. Reads to the end, or to the first fault.
///
/// # Errors
///
/// [`Read`](DumpError::Read) where the reader fails, with any error, which the log then has, or has been called 16,777,216 times;
/// [`OutOfMemory`](DumpError::OutOfMemory) where a request for memory is refused; or else the first fault of the
/// text from left to right. What was read before the reader failed has no fault.
pub fn read_from_logged<R: Read, A: Allocator + Copy>(
    alloc: A,
    reader: &mut R,
    log: &mut CallLog,
) -> Result<Dump<A>, DumpError>
    ensures known { IfSome (R.remaining reader.old) (λ bytes. (result ≡ Err DumpError.Read) ⊎ IsAnswer bytes result) }
    ensures at_end { OnOk result (IsAtEnd (R.remaining reader.new)) }
    ensures so_far { IsErrOf result DumpError.Read → (text : List ℕ) × Consumes (R.remaining reader.old) (R.remaining reader.new) text × IsGood text }
    ensures failed { IsErrOf result DumpError.Read → ReaderHasFailed log.new }
{
    let mut dump = DumpReader::new(alloc);
    feed_all(alloc, &mut dump, reader, log)?;
    dump.end()
}

// Feeds `dump`, which has no bytes yet, all bytes of `reader`, up to its end.
fn feed_all<R: Read, A: Allocator + Copy>(
    alloc: A,
    dump: &mut DumpReader<A>,
    reader: &mut R,
    log: &mut CallLog,
) -> Result<(), DumpError>
    requires { dump.old ≡ Ok [] }
    ensures ended { OnOk result ((text : List ℕ) × (dump.new ≡ Ok text)
        × Consumes (R.remaining reader.old) (R.remaining reader.new) text × IsAtEnd (R.remaining reader.new)) }
    ensures fault { IfErr result (λ e. IfSome (R.remaining reader.old) (λ bytes. (e ≡ DumpError.Read) ⊎ ((e ≡ DumpError.OutOfMemory) ⊎ IsFault bytes e))) }
    ensures so_far { IfErr result (λ e. e ≡ DumpError.Read → (text : List ℕ) × Consumes (R.remaining reader.old) (R.remaining reader.new) text × IsGood text) }
    ensures failed { IfErr result (λ e. e ≡ DumpError.Read → ReaderHasFailed log.new) }
{
    let mut piece = Vec::new(alloc);
    piece.resize(PIECE_LEN, 0)?;
    feed_from(dump, reader, &mut piece, log)
}

// Feeds all bytes of the reader. `piece` is the buffer of each call.
fn feed_from<R: Read, A: Allocator + Copy>(
    dump: &mut DumpReader<A>,
    reader: &mut R,
    piece: &mut [u8],
    log: &mut CallLog,
) -> Result<(), DumpError>
    requires fresh { dump.old ≡ Ok [] }
    requires room { length piece.old ≡ PIECE_LEN }
    ensures ended { OnOk result ((text : List ℕ) × (dump.new ≡ Ok text)
        × Consumes (R.remaining reader.old) (R.remaining reader.new) text × IsAtEnd (R.remaining reader.new)) }
    ensures fault { IfErr result (λ e. IfSome (R.remaining reader.old) (λ bytes. (e ≡ DumpError.Read) ⊎ ((e ≡ DumpError.OutOfMemory) ⊎ IsFault bytes e))) }
    ensures so_far { IfErr result (λ e. e ≡ DumpError.Read → (text : List ℕ) × Consumes (R.remaining reader.old) (R.remaining reader.new) text × IsGood text) }
    ensures failed { IfErr result (λ e. e ≡ DumpError.Read → ReaderHasFailed log.new) }
{
    for _call in 0..CALLS {
        let Ok(len) = log.read(reader, piece) else {
            return Err(DumpError::Read);
        };
        if len == 0 {
            return Ok(());
        }
        dump.feed(&piece[..len])?;
    }
    Err(DumpError::Read)
}
