//! Reading what is kept of the rounds that were decided: each call leaves the board as it is.

ghost use Rattle.std.specs.Prelude.{◌≡◌, ◌≢◌, drop, length, pos, true};
ghost use Rattle.lb_database.specs.Measuring.{elements};
ghost use Rattle.board_handle.specs.Calls.{IsSame, RefusesBlocks, RefusesPlace, RefusesSnapshot};
ghost use Rattle.board_handle.specs.Reading.{AreBlocks, AreReported, IsBehindBlocks, IsPlace};
ghost use Rattle.board_capi.specs.Statuses.{IsStatus};

use crate::statuses::{status, status_of};
use board_handle::BoardHandle;
use std::alloc::Global;

/// Writes the cuts and the names of the decision of a round, its bottleneck, and the bytes that it moves. Block `b` has the elements
/// from cut `b` up to the next, and runs on PE `names[b]`; there are as many names as PEs, and one cut more.
#[unsafe(no_mangle)]
pub extern "C" fn tezgumi_board_decision(
    alloc: Global,
    handle: &mut BoardHandle,
    round: u32,
    cuts: &mut [u32],
    names: &mut [u32],
    bottleneck: &mut u64,
    moved: &mut u64,
) -> i32
    ensures status { IsStatus ((handle.old.is_open ≡ true) × AreBlocks handle.old.board round bottleneck.new moved.new cuts.new names.new)
        (RefusesBlocks handle.old.is_open handle.old.board round (length cuts.old) (length names.old)) result }
    ensures same { IsSame handle.old.is_open handle.old.board handle.new.is_open handle.new.board }
    ensures behind { IsBehindBlocks handle.old.board cuts.old cuts.new names.old names.new }
    ensures lists_kept { result ≢ pos 0 → (cuts.new ≡ cuts.old) × (names.new ≡ names.old) }
    ensures numbers_kept { result ≢ pos 0 → (bottleneck.new ≡ bottleneck.old) × (moved.new ≡ moved.old) }
{
    match handle.decision(alloc, round, cuts, names) {
        Ok(outline) => {
            *bottleneck = outline.bottleneck;
            *moved = outline.moved;
            0
        }
        Err(error) => status_of(error),
    }
}

/// Writes the place of an element in the decision of a round.
#[unsafe(no_mangle)]
pub extern "C" fn tezgumi_board_place(
    alloc: Global,
    handle: &mut BoardHandle,
    round: u32,
    element: u32,
    pe: &mut u32,
) -> i32
    ensures status { IsStatus ((handle.old.is_open ≡ true) × IsPlace handle.old.board round element pe.new)
        (RefusesPlace handle.old.is_open handle.old.board round element) result }
    ensures same { IsSame handle.old.is_open handle.old.board handle.new.is_open handle.new.board }
    ensures not_written { result ≢ pos 0 → pe.new ≡ pe.old }
{
    match handle.place(alloc, round, element) {
        Ok(place) => {
            *pe = place;
            0
        }
        Err(error) => status_of(error),
    }
}

/// Writes what each element reported for a round that is decided: its load, its packed bytes and its place, in order of index.
#[unsafe(no_mangle)]
pub extern "C" fn tezgumi_board_snapshot(
    alloc: Global,
    handle: &mut BoardHandle,
    round: u32,
    loads: &mut [u64],
    bytes: &mut [u32],
    places: &mut [u32],
) -> i32
    ensures status { IsStatus ((handle.old.is_open ≡ true) × AreReported handle.old.board round loads.new bytes.new places.new)
        (RefusesSnapshot handle.old.is_open handle.old.board round (length loads.old) (length bytes.old) (length places.old)) result }
    ensures same { IsSame handle.old.is_open handle.old.board handle.new.is_open handle.new.board }
    ensures loads_behind { drop (elements handle.old.board.database) loads.new ≡ drop (elements handle.old.board.database) loads.old }
    ensures bytes_behind { drop (elements handle.old.board.database) bytes.new ≡ drop (elements handle.old.board.database) bytes.old }
    ensures places_behind { drop (elements handle.old.board.database) places.new ≡ drop (elements handle.old.board.database) places.old }
    ensures kept { result ≢ pos 0 → (loads.new ≡ loads.old) × (bytes.new ≡ bytes.old) × (places.new ≡ places.old) }
{
    status(handle.snapshot(alloc, round, loads, bytes, places))
}
