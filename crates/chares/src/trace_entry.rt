//! One entry of the trace that the events of a run leave.

use crate::letter::LetterId;
use chare_index::{Index, Round};

/// What an event adds to the trace of a run.
#[derive(Clone, Copy, Debug, PartialEq, Eq)]
pub enum TraceEntry {
    /// A letter was posted to this element.
    Posted(LetterId, Index),
    /// A letter was executed by this element.
    Executed(LetterId, Index),
    /// This element was resumed after this round, or started where the round is 0.
    Resumed(Index, Round),
    /// A letter arrived before its element and waits on the shelf.
    Shelved(LetterId),
    /// A letter was sent on.
    Forwarded(LetterId),
    /// This element arrived.
    Installed(Index),
    /// The board has the report of this element for this round.
    Synced(Index, Round),
    /// This round was decided.
    Decided(Round),
    /// This element left its PE.
    Departed(Index),
}
