//! The dump of a round.

ghost use Rattle.std.specs.Prelude.{◌≡◌, ◌≢◌, drop, length, pos, true};
ghost use Rattle.board_handle.specs.Calls.{IsSame, RefusesDump};
ghost use Rattle.board_capi.specs.Dumps.{IsDumpStatus, IsLonger, IsWritten};

use crate::statuses::status_of;
use board_handle::BoardHandle;
use std::alloc::Global;

// The status of a call whose list is too short.
const LONGER: i32 = 2;

/// Writes the dump of a round in the format LBD2, and how many bytes that is: what was reported, and the decision with its certificates
/// where that is a plan. Where the list is too short for it, only the number of bytes is written.
#[unsafe(no_mangle)]
pub extern "C" fn tezgumi_board_dump(
    alloc: Global,
    handle: &mut BoardHandle,
    round: u32,
    text: &mut [u8],
    len: &mut usize,
) -> i32
    ensures status { IsDumpStatus ((handle.old.is_open ≡ true) × IsWritten handle.old.board round text.new len.new)
        ((handle.old.is_open ≡ true) × IsLonger handle.old.board round (length text.old) len.new) (RefusesDump handle.old.is_open handle.old.board round) result }
    ensures same { IsSame handle.old.is_open handle.old.board handle.new.is_open handle.new.board }
    ensures behind { drop len.new text.new ≡ drop len.new text.old }
    ensures kept { result ≢ pos 0 → text.new ≡ text.old }
    ensures len_kept { result ≢ pos 0 → result ≢ pos 2 → len.new ≡ len.old }
{
    let dump = match handle.dump(alloc, round) {
        Ok(dump) => dump,
        Err(error) => return status_of(error),
    };
    let count = dump.len();
    if count > text.len() {
        *len = count;
        return LONGER;
    }
    text[..count].copy_from_slice(dump.as_slice());
    *len = count;
    0
}
