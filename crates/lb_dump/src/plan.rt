//! The parts of a recorded decision, as the reader comes to them.

use dump_format::Recorded;
use std::alloc::{Allocator, Global};

/// What the bytes after the elements are.
#[derive(Drop)]
#[derive_where(Debug)]
pub(crate) enum DecisionPart<A: Allocator = Global> {
    /// More bytes have to come.
    Begun,
    /// The flag 0: the text ends here.
    Nothing,
    /// A decision up to its moves, and the number of these. Its list of moves is empty.
    Made(Recorded<A>, u32),
}
