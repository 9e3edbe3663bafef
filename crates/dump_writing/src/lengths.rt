//! The length of the text of a dump, from which its memory is reserved.

ghost use Rattle.std.specs.Prelude.{◌≡◌, ◌≤◌, ℕ, length};
ghost use Rattle.dump_format.specs.Text.{plan_text, lbd2_text};
ghost use Rattle.dump_format.specs.Dumps.{IsRecorded};

use dump_format::{Dump, Recorded};
use lb_certificates::Floor;
use std::alloc::Allocator;

/// The length of a number.
const WORD_LEN: usize = 4;

/// The length of a number of 64 bits.
const LONG_LEN: usize = 8;

/// The length of the head.
pub(crate) const HEAD_LEN: usize = 16;

/// The length of an element in the format LBD1.
pub(crate) const NARROW_LEN: usize = 12;

/// The length of an element in the format LBD2.
const ELEMENT_LEN: usize = 16;

/// The length of a move.
const MOVE_LEN: usize = 12;

/// The number of bytes in the text of a dump in the format LBD2.
pub(crate) fn dump_len<A: Allocator>(dump: &Dump<A>) -> usize
    ensures { result ≡ length (lbd2_text dump.now) }
{
    let elements = HEAD_LEN + ELEMENT_LEN * dump.snapshot().loads().len();
    match dump.recorded() {
        None => elements + WORD_LEN,
        Some(recorded) => {
            let moves = recorded.decision.moves.as_slice().len();
            elements + WORD_LEN + plan_len(recorded) + MOVE_LEN * moves
        }
    }
}

// The number of bytes in the text of a decision, without its moves.
fn plan_len<A: Allocator>(recorded: &Recorded<A>) -> usize
    requires { (elements : ℕ) × IsRecorded elements recorded.now }
    ensures value { result ≡ length (plan_text recorded.now) }
    ensures short { result ≤ 7204 }
{
    let target = recorded.target as usize;
    let stops = match &recorded.decision.division.floor {
        Floor::Zero => 0,
        Floor::Fence(_) => target + 1,
    };
    // The target, the cuts, the floor, the names and the number of moves.
    let words = 1 + (target + 1) + (1 + stops) + target + 1;
    // The bottleneck, the prices and the bytes moved.
    let longs = 1 + 2 * target + 1;
    WORD_LEN * words + LONG_LEN * longs
}
