//! What happened in a run, and when.

use chare_index::{Index, Pe, Round};

/// What happened, and when. Times are nanoseconds from the beginning of the run; in a run on one thread each event takes
/// a thousand of them, so that its number is its time in microseconds.
#[derive(Clone, Copy, Debug, PartialEq, Eq)]
pub struct Happening {
    /// When it began.
    pub at: u64,
    /// How long it took.
    pub duration: u64,
    /// What it was.
    pub what: What,
}

/// What happened.
#[derive(Clone, Copy, Debug, PartialEq, Eq)]
pub enum What {
    /// A PE did this, and meanwhile posted the letters with these numbers: from the first up to, but not including, the
    /// second.
    Done(Pe, Action, u32, u32),
    /// This round was decided.
    Decided(Round),
}

/// What a PE did.
#[derive(Clone, Copy, Debug, PartialEq, Eq)]
pub enum Action {
    /// The element started.
    Started(Index),
    /// The element executed a letter: the PE that posted it, and its number among those of that PE.
    Executed((Pe, u32), Index),
    /// The letter arrived before its element, and waits on the shelf.
    Shelved((Pe, u32)),
    /// The letter was sent on.
    Forwarded((Pe, u32)),
    /// The element arrived.
    Installed(Index),
    /// Reports of elements went to the board.
    Reported,
    /// The element left.
    Departed(Index),
    /// The element went on after this round.
    Resumed(Index, Round),
}
