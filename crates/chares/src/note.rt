//! What a PE still has to report to the board, and the mark that an element keeps of it.

ghost use Rattle.std.specs.Prelude.{◌≡◌};
ghost use Rattle.chares.specs.Progressing.{is_finish};

use crate::state_bytes::StateBytes;
use chare_index::{Index, Pe, Round};
use lb_snapshot::Units;

/// What a PE owes the board.
#[derive(Clone, Copy, Debug, PartialEq, Eq)]
pub enum Note {
    /// This element waits for the end of this round, with its load, the length of its packed state, and its PE.
    Sync(Index, Round, Units, StateBytes, Pe),
    /// This element has finished.
    Finish(Index),
}

impl Note {
    /// Whether this note says that the element has finished.
    pub fn is_finish(&self) -> bool
        ensures value { result ≡ is_finish self.now }
    {
        matches!(self, Note::Finish(_))
    }
}

/// What an element keeps of the rounds that it has seen.
#[derive(Clone, Copy, Debug, PartialEq, Eq)]
pub enum Mark {
    /// It reached AtSync, and its PE owed this note.
    Synced(Note),
    /// It was resumed after this round, on this PE.
    Resumed(Round, Pe),
}
