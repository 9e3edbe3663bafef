//! Opening and closing.

ghost use Rattle.std.specs.Prelude.{◌≡◌, ◌≢◌, None, Some, pos, true, false};
ghost use Rattle.sync_board.specs.Boards.{new_board};
ghost use Rattle.sync_board.specs.declared.strategy.Strategy.TheVariants.{Least, Refine};
ghost use Rattle.board_handle.specs.Calls.{AreCounts, IsSame, RefusesClosed, RefusesOpen};
ghost use Rattle.board_capi.specs.Statuses.{IsStatus};

use crate::statuses::status;
use board_handle::BoardHandle;
use std::alloc::Global;

/// Opens a board for `n` elements on `pes` PEs, in round 1, whose rounds are decided for the least bottleneck.
#[unsafe(no_mangle)]
pub extern "C" fn tezgumi_board_open(
    alloc: Global,
    handle: &mut BoardHandle,
    n: u32,
    pes: u32,
) -> i32
    ensures status { IsStatus ((handle.old.is_open ≡ false) × AreCounts n pes None) (RefusesOpen handle.old.is_open n pes None) result }
    ensures opened { result ≡ pos 0 → (handle.new.is_open ≡ true) × (handle.new.board ≡ new_board n pes Least) }
    ensures kept { result ≢ pos 0 → IsSame handle.old.is_open handle.old.board handle.new.is_open handle.new.board }
{
    status(handle.open(alloc, n, pes, None))
}

/// Opens a board as [`tezgumi_board_open`] does, whose rounds are decided within a tolerance, in thousandths above the least bottleneck.
#[unsafe(no_mangle)]
pub extern "C" fn tezgumi_board_open_within(
    alloc: Global,
    handle: &mut BoardHandle,
    n: u32,
    pes: u32,
    tolerance: u32,
) -> i32
    ensures status { IsStatus ((handle.old.is_open ≡ false) × AreCounts n pes (Some tolerance)) (RefusesOpen handle.old.is_open n pes (Some tolerance)) result }
    ensures opened { result ≡ pos 0 → (handle.new.is_open ≡ true) × (handle.new.board ≡ new_board n pes (Refine tolerance)) }
    ensures kept { result ≢ pos 0 → IsSame handle.old.is_open handle.old.board handle.new.is_open handle.new.board }
{
    status(handle.open(alloc, n, pes, Some(tolerance)))
}

/// Closes a board, and frees what it has.
#[unsafe(no_mangle)]
pub extern "C" fn tezgumi_board_close(alloc: Global, handle: &mut BoardHandle) -> i32
    ensures status { IsStatus (handle.old.is_open ≡ true) (RefusesClosed handle.old.is_open) result }
    ensures is_closed { handle.new.is_open ≡ false }
{
    status(handle.close(alloc))
}
