//! What elements tell the board, what it is asked, and the decision of a round.

ghost use Rattle.std.specs.Prelude.{◌≡◌, ◌≢◌, ◌<◌, pos, true, false};
ghost use Rattle.sync_board.specs.Boards.{Decides, HaveFinished, after_finish, after_report};
ghost use Rattle.lb_database.specs.Measuring.{IsComplete, elements};
ghost use Rattle.lb_database.specs.Refusals.{HasNextRound};
ghost use Rattle.board_handle.specs.Calls.{IsSame, IsTaken, RefusesClosed, RefusesDecision, RefusesFinish, RefusesReport};
ghost use Rattle.board_capi.specs.Statuses.{IsAnswer, IsStatus};

use crate::statuses::{answer, status, status_of};
use board_handle::{BoardHandle, Report};
use std::alloc::Global;

/// Takes the report of an element, which waits on PE `pe` for the end of `round`: its work units in the round, and the bytes that it
/// packs into.
#[unsafe(no_mangle)]
pub extern "C" fn tezgumi_board_report(
    alloc: Global,
    handle: &mut BoardHandle,
    element: u32,
    round: u32,
    units: u64,
    bytes: u32,
    pe: u32,
) -> i32
    ensures status { IsStatus (IsTaken handle.old.is_open handle.old.board element round bytes pe)
        (RefusesReport handle.old.is_open handle.old.board element round bytes pe) result }
    ensures reported { result ≡ pos 0 → (handle.new.is_open ≡ true) × (handle.new.board ≡ after_report handle.old.board element units bytes pe) }
    ensures kept { result ≢ pos 0 → IsSame handle.old.is_open handle.old.board handle.new.is_open handle.new.board }
{
    let report = Report {
        element,
        round,
        units,
        bytes,
        pe,
    };
    status(handle.report(alloc, report))
}

/// Marks an element as finished. Idempotent.
#[unsafe(no_mangle)]
pub extern "C" fn tezgumi_board_finish(alloc: Global, handle: &mut BoardHandle, element: u32) -> i32
    ensures status { IsStatus ((handle.old.is_open ≡ true) × (element < elements handle.old.board.database))
        (RefusesFinish handle.old.is_open handle.old.board element) result }
    ensures finished { result ≡ pos 0 → (handle.new.is_open ≡ true) × (handle.new.board ≡ after_finish handle.old.board element) }
    ensures kept { result ≢ pos 0 → IsSame handle.old.is_open handle.old.board handle.new.is_open handle.new.board }
{
    status(handle.finish(alloc, element))
}

/// Whether every element has reported for the present round.
#[unsafe(no_mangle)]
pub extern "C" fn tezgumi_board_is_complete(alloc: Global, handle: &mut BoardHandle) -> i32
    ensures answer { IsAnswer (handle.old.is_open ≡ false) ((handle.old.is_open ≡ true) × IsComplete handle.old.board.database) result }
    ensures same { IsSame handle.old.is_open handle.old.board handle.new.is_open handle.new.board }
{
    answer(handle.is_complete(alloc))
}

/// Whether every element has finished.
#[unsafe(no_mangle)]
pub extern "C" fn tezgumi_board_all_finished(alloc: Global, handle: &mut BoardHandle) -> i32
    ensures answer { IsAnswer (handle.old.is_open ≡ false) ((handle.old.is_open ≡ true) × HaveFinished handle.old.board) result }
    ensures same { IsSame handle.old.is_open handle.old.board handle.new.is_open handle.new.board }
{
    answer(handle.all_finished(alloc))
}

/// Writes the round that the board is in.
#[unsafe(no_mangle)]
pub extern "C" fn tezgumi_board_round(
    alloc: Global,
    handle: &mut BoardHandle,
    round: &mut u32,
) -> i32
    ensures status { IsStatus (handle.old.is_open ≡ true) (RefusesClosed handle.old.is_open) result }
    ensures shown { result ≡ pos 0 → round.new ≡ handle.old.board.database.round }
    ensures same { IsSame handle.old.is_open handle.old.board handle.new.is_open handle.new.board }
    ensures not_written { result ≢ pos 0 → round.new ≡ round.old }
{
    match handle.round(alloc) {
        Ok(present) => {
            *round = present;
            0
        }
        Err(error) => status_of(error),
    }
}

/// Decides the present round, in which every element has to have reported, begins the next one, and writes the round that was decided.
#[unsafe(no_mangle)]
pub extern "C" fn tezgumi_board_decide(
    alloc: Global,
    handle: &mut BoardHandle,
    round: &mut u32,
) -> i32
    ensures status { IsStatus ((handle.old.is_open ≡ true) × HasNextRound handle.old.board.database) (RefusesDecision handle.old.is_open handle.old.board) result }
    ensures decided { result ≡ pos 0 → (handle.new.is_open ≡ true) × Decides handle.old.board handle.new.board }
    ensures shown { result ≡ pos 0 → round.new ≡ handle.old.board.database.round }
    ensures kept { result ≢ pos 0 → IsSame handle.old.is_open handle.old.board handle.new.is_open handle.new.board }
    ensures not_written { result ≢ pos 0 → round.new ≡ round.old }
{
    match handle.decide(alloc) {
        Ok(decided) => {
            *round = decided;
            0
        }
        Err(error) => status_of(error),
    }
}
