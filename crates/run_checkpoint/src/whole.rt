//! The bytes of a reader, all at once.

ghost use Rattle.std.specs.Prelude.{◌≡◌, ◌+◌, ◌<◌, ◌≤◌, ◌++◌, List, ℕ, [], length, take, IfErr, IfOk, MatchResult, None, OnErr, OnOk, ◌≢◌};
ghost use Rattle.std.specs.Io.KnownBytes.{Consumes, IsAtEnd, Keeps};
ghost use Rattle.run_checkpoint.specs.declared.form.TheConstants.{TEXT_BYTES};
ghost use Rattle.run_checkpoint.specs.Reading.{IsStop, ReaderHasFailed};
ghost use Rattle.streams.specs.Logs.{Counts};

use crate::error::CheckpointError;
use crate::form::TEXT_BYTES;
use std::alloc::Allocator;
use std::io::Read;
use streams::CallLog;

/// How many bytes are requested at a time. It is no limit of the text.
const PIECE_LEN: usize = 65_536;

/// How many calls of a reader there are at most: more than the longest text has bytes, so that reading ends.
const CALLS: u32 = 134_217_728;

/// All that this reader gives, to its end. The log gets the calls of the reader.
///
/// # Errors
///
/// [`Long`](CheckpointError::Long), [`Read`](CheckpointError::Read) and [`OutOfMemory`](CheckpointError::OutOfMemory), as
/// [`Checkpoint::read_from`](crate::Checkpoint::read_from) has them.
pub(crate) fn read_whole<R: Read, A: Allocator + Copy>(
    alloc: A,
    reader: &mut R,
    log: &mut CallLog,
) -> Result<Vec<u8, A>, CheckpointError>
    ensures ended { IfOk result (λ bytes. Consumes (R.remaining reader.old) (R.remaining reader.new) bytes.items
        × IsAtEnd (R.remaining reader.new) × (length bytes.items ≤ TEXT_BYTES)) }
    ensures stopped { IfErr result (λ e. (text : List ℕ) × Consumes (R.remaining reader.old) (R.remaining reader.new) text
        × (length text ≤ TEXT_BYTES + 1) × IsStop text e) }
    ensures failed { IfErr result (λ e. e ≡ CheckpointError.Read → ReaderHasFailed log.new) }
{
    let mut piece = Vec::new(alloc);
    piece.resize(PIECE_LEN, 0)?;
    let mut bytes = Vec::new(alloc);
    read_onto(&mut bytes, reader, &mut piece, log)?;
    Ok(bytes)
}

// Reads the bytes of a reader onto a list that is empty, with `piece` as the buffer for the bytes of one call. A call may
// bring the one byte past the longest text, and no more.
fn read_onto<R: Read, A: Allocator>(
    bytes: &mut Vec<u8, A>,
    reader: &mut R,
    piece: &mut [u8],
    log: &mut CallLog,
) -> Result<(), CheckpointError>
    requires empty { bytes.old.items ≡ [] }
    requires room { length piece.old ≡ PIECE_LEN }
    ensures ended { OnOk result (Consumes (R.remaining reader.old) (R.remaining reader.new) bytes.new.items
        × IsAtEnd (R.remaining reader.new) × (length bytes.new.items ≤ TEXT_BYTES)) }
    ensures stopped { IfErr result (λ e. (text : List ℕ) × Consumes (R.remaining reader.old) (R.remaining reader.new) text
        × (length text ≤ TEXT_BYTES + 1) × IsStop text e) }
    ensures failed { IfErr result (λ e. e ≡ CheckpointError.Read → ReaderHasFailed log.new) }
{
    for _call in 0..CALLS {
        let room = &mut piece[..PIECE_LEN.min(TEXT_BYTES + 1 - bytes.len())];
        let len = read_piece(reader, room, log)?;
        if len == 0 {
            return Ok(());
        }
        if len > TEXT_BYTES - bytes.len() {
            return Err(CheckpointError::Long);
        }
        bytes.extend_from_slice(&room[..len])?;
    }
    Err(CheckpointError::Read)
}

// One call of the reader. Any error is a failure: the call is not made again.
fn read_piece<R: Read>(
    reader: &mut R,
    room: &mut [u8],
    log: &mut CallLog,
) -> Result<usize, CheckpointError>
    ensures bound { IfOk result (λ len. len ≤ length room.new) }
    ensures bytes { MatchResult result
        (λ len. Consumes (R.remaining reader.old) (R.remaining reader.new) (take len room.new) × (len ≡ 0 → 0 < length room.new → IsAtEnd (R.remaining reader.new)))
        (λ e. (e ≡ CheckpointError.Read) × Keeps (R.remaining reader.old) (R.remaining reader.new)) }
    ensures failed { OnErr result (log.new.failure ≢ None) }
    ensures counted { Counts log.old.reads log.new.reads }
{
    match log.read(reader, room) {
        Ok(len) => Ok(len),
        Err(_) => Err(CheckpointError::Read),
    }
}
