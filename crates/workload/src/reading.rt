//! The bytes of a reader, piece by piece.

ghost use Rattle.std.specs.Prelude.{◌≡◌, ◌⊎◌, ◌+◌, ◌++◌, ◌<◌, ◌≤◌, List, ℕ, [], length, take, IfErr, IfOk, IfSome, MatchResult, None, OnErr, OnOk, Ok, ◌≢◌};
ghost use Rattle.std.specs.Io.KnownBytes.{Consumes, IsAtEnd, Keeps};
ghost use Rattle.workload.specs.declared.form.TheConstants.{TEXT_BYTES};
ghost use Rattle.workload.specs.Faults.{IsFault};
ghost use Rattle.workload.specs.Machine.{IsHeld, IsJudged, run, start, state_of};
ghost use Rattle.workload.specs.Reading.{EndsAt, IsReadError, ReaderHasFailed};
ghost use Rattle.streams.specs.Logs.{Counts};

use crate::error::WorkError;
use crate::form::TEXT_BYTES;
use crate::judge::Judge;
use std::alloc::Allocator;
use std::io::Read;
use streams::CallLog;

/// How many bytes are requested at a time. It is no limit of the text.
const PIECE_LEN: usize = 65_536;

/// How many calls of a reader there are at most: more than the longest text has bytes, so that reading ends.
const CALLS: u32 = 134_217_728;

/// Feeds `judge`, which has no bytes yet, everything that `reader` gives, to its end. After a fault the bytes are only
/// counted. The log gets the calls of the reader.
///
/// # Errors
///
/// Those of [`Workload::read_from`](crate::Workload::read_from), except the fault of a text that ends too early.
pub(crate) fn feed_all<R: Read, A: Allocator + Copy>(
    alloc: A,
    judge: &mut Judge<A>,
    reader: &mut R,
    log: &mut CallLog,
) -> Result<(), WorkError>
    requires held { IsHeld judge.old }
    requires fresh { state_of judge.old ≡ start [] }
    ensures ended { OnOk result ((text : List ℕ) × (run text (start []) ≡ Ok (state_of judge.new)) × IsHeld judge.new
        × Consumes (R.remaining reader.old) (R.remaining reader.new) text × IsAtEnd (R.remaining reader.new) × (length text ≤ TEXT_BYTES)) }
    ensures fault { IfErr result (λ e. IfSome (R.remaining reader.old) (λ bytes. (e ≡ WorkError.Read) ⊎ ((e ≡ WorkError.OutOfMemory) ⊎ IsFault bytes e))) }
    ensures stopped { IfErr result (λ e. (text : List ℕ) × Consumes (R.remaining reader.old) (R.remaining reader.new) text
        × (length text ≤ TEXT_BYTES + 1) × IsReadError text e × EndsAt (R.remaining reader.new) e) }
    ensures failed { IfErr result (λ e. e ≡ WorkError.Read → ReaderHasFailed log.new) }
{
    let mut piece = Vec::new(alloc);
    piece.resize(PIECE_LEN, 0)?;
    feed_from(judge, reader, &mut piece, log)
}

// Does the same, with `piece` as the buffer for the bytes of one call. A call may bring the one byte past the longest
// text, and no more: that byte is not judged.
fn feed_from<R: Read, A: Allocator + Copy>(
    judge: &mut Judge<A>,
    reader: &mut R,
    piece: &mut [u8],
    log: &mut CallLog,
) -> Result<(), WorkError>
    requires held { IsHeld judge.old }
    requires fresh { state_of judge.old ≡ start [] }
    requires room { length piece.old ≡ PIECE_LEN }
    ensures ended { OnOk result ((text : List ℕ) × (run text (start []) ≡ Ok (state_of judge.new)) × IsHeld judge.new
        × Consumes (R.remaining reader.old) (R.remaining reader.new) text × IsAtEnd (R.remaining reader.new) × (length text ≤ TEXT_BYTES)) }
    ensures fault { IfErr result (λ e. IfSome (R.remaining reader.old) (λ bytes. (e ≡ WorkError.Read) ⊎ ((e ≡ WorkError.OutOfMemory) ⊎ IsFault bytes e))) }
    ensures stopped { IfErr result (λ e. (text : List ℕ) × Consumes (R.remaining reader.old) (R.remaining reader.new) text
        × (length text ≤ TEXT_BYTES + 1) × IsReadError text e × EndsAt (R.remaining reader.new) e) }
    ensures failed { IfErr result (λ e. e ≡ WorkError.Read → ReaderHasFailed log.new) }
{
    let mut taken = 0;
    let mut judged = Ok(());
    for _call in 0..CALLS {
        let room = &mut piece[..PIECE_LEN.min(TEXT_BYTES + 1 - taken)];
        let len = read_piece(reader, room, log)?;
        if len == 0 {
            return judged;
        }
        if len > TEXT_BYTES - taken {
            return Err(WorkError::Long);
        }
        judged = judge_piece(judged, judge, &room[..len]);
        taken += len;
    }
    Err(WorkError::Read)
}

// Judges a piece, unless a fault was met before it.
fn judge_piece<A: Allocator + Copy>(
    judged: Result<(), WorkError>,
    judge: &mut Judge<A>,
    piece: &[u8],
) -> Result<(), WorkError>
    requires held { OnOk judged (IsHeld judge.old) }
    ensures judged { (text : List ℕ) → IsJudged text judge.old judged → IsJudged (text ++ piece.now) judge.new result }
{
    judged?;
    judge.feed(piece)
}

// One call of the reader. Any error is a failure: the call is not made again.
fn read_piece<R: Read>(
    reader: &mut R,
    room: &mut [u8],
    log: &mut CallLog,
) -> Result<usize, WorkError>
    ensures bound { IfOk result (λ len. len ≤ length room.new) }
    ensures bytes { MatchResult result
        (λ len. Consumes (R.remaining reader.old) (R.remaining reader.new) (take len room.new) × (len ≡ 0 → 0 < length room.new → IsAtEnd (R.remaining reader.new)))
        (λ e. (e ≡ WorkError.Read) × Keeps (R.remaining reader.old) (R.remaining reader.new)) }
    ensures failed { OnErr result (log.new.failure ≢ None) }
    ensures counted { Counts log.old.reads log.new.reads }
{
    match log.read(reader, room) {
        Ok(len) => Ok(len),
        Err(_) => Err(WorkError::Read),
    }
}
