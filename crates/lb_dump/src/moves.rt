//! The moves of a recorded decision.

ghost use Rattle.std.specs.Prelude.{◌≡◌, ◌++◌, ◌+◌, ◌<◌, ◌≤◌, ◌⊎◌, drop, length, IfOk, IfErr, OnOk};
ghost use Rattle.std.specs.Int.{from_be_bytes, w32};
ghost use Rattle.chare_index.specs.declared.limits.TheConstants.Limits.{PES};
ghost use Rattle.dump_format.specs.Fields.{moves as move_fields};
ghost use Rattle.dump_format.specs.Layout.{judge, Broken};
ghost use Rattle.dump_format.specs.Text.{move_text};
ghost use Rattle.lb_dump.specs.Moves.{AreMoves, BreaksMove, moves_text};

use crate::numbers::{WORD_LEN, index, pe, word};
use chare_index::{Index, Limits, Pe};
use dump_format::DumpError;
use std::alloc::Allocator;

/// The length of a move: its index, the PE that the element is on, and the one on which it is to run.
pub(crate) const MOVE_LEN: usize = 12;

/// Appends the whole moves with which these bytes begin to the list, at most as many as are missing of `all`, and returns the
/// bytes after them. First it reserves capacity in the list for all moves.
///
/// # Errors
///
/// Memory was refused, or else the first fault.
pub(crate) fn take_moves<'a, A: Allocator>(
    count: u32,
    all: u32,
    moves: &mut Vec<(Index, Pe, Pe), A>,
    bytes: &'a [u8],
) -> Result<&'a [u8], DumpError>
    requires elements { count ≤ Limits.ELEMENTS }
    requires kept { AreMoves count moves.old.items }
    requires few { length moves.old.items ≤ all }
    requires few_moves { all ≤ count }
    ensures joined { IfOk result (λ rest. moves_text moves.new.items ++ rest.now ≡ moves_text moves.old.items ++ bytes.now) }
    ensures kept { OnOk result (AreMoves count moves.new.items) }
    ensures few { OnOk result (length moves.new.items ≤ all) }
    ensures short { IfOk result (λ rest. length moves.new.items < all → length rest.now < MOVE_LEN) }
    ensures broken { IfErr result (λ e. (e ≡ DumpError.OutOfMemory) ⊎ (judge (move_fields count 0 all) (moves_text moves.old.items ++ bytes.now) ≡ Broken e)) }
{
    let missing = all as usize - moves.len();
    moves.reserve_exact(missing)?;
    // The number is within this limit already. The line lets the compiler know, so that each index is tested once.
    let count = count.min(Limits::ELEMENTS);
    let end = moves.len() + missing.min(bytes.len() / MOVE_LEN);
    let mut rest = bytes;
    while moves.len() < end {
        let (bytes, after) = rest.split_at(MOVE_LEN);
        let step = move_of(count, bytes, moves.len())?;
        moves.push_reserved(step);
        rest = after;
    }
    Ok(rest)
}

/// Judges the fields of move `k` that are whole, except its last, where only these first bytes of it have come.
///
/// # Errors
///
/// The first fault.
pub(crate) fn judge_move(count: u32, bytes: &[u8], k: usize) -> Result<(), DumpError>
    requires inside { k < Limits.ELEMENTS }
    ensures index { OnOk result (4 ≤ length bytes.now → from_be_bytes w32 bytes.now < count) }
    ensures present { OnOk result (8 ≤ length bytes.now → from_be_bytes w32 (drop 4 bytes.now) < PES) }
    ensures broken { IfErr result (λ e. BreaksMove count k bytes.now e) }
{
    if bytes.len() < WORD_LEN {
        return Ok(());
    }
    if word(bytes) >= count {
        return Err(DumpError::Move(k as u32));
    }
    if bytes.len() < 2 * WORD_LEN {
        return Ok(());
    }
    if word(&bytes[WORD_LEN..]) >= Limits::PES {
        return Err(DumpError::Move(k as u32));
    }
    Ok(())
}

// Move `k`.
fn move_of(count: u32, bytes: &[u8], k: usize) -> Result<(Index, Pe, Pe), DumpError>
    requires whole { length bytes.now ≡ MOVE_LEN }
    requires elements { count ≤ Limits.ELEMENTS }
    requires inside { k < Limits.ELEMENTS }
    ensures spelled { IfOk result (λ step. bytes.now ≡ move_text step) }
    ensures index { IfOk result (λ step. step.0 < count) }
    ensures present { IfOk result (λ step. step.1 < PES) }
    ensures planned { IfOk result (λ step. step.2 < PES) }
    ensures broken { IfErr result (λ e. BreaksMove count k bytes.now e) }
{
    judge_move(count, bytes, k)?;
    let planned = word(&bytes[2 * WORD_LEN..]);
    if planned >= Limits::PES {
        return Err(DumpError::Move(k as u32));
    }
    Ok((
        index(word(bytes)),
        pe(word(&bytes[WORD_LEN..])),
        pe(planned),
    ))
}
