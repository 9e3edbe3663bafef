//! The events of a world.

ghost use Rattle.std.specs.Prelude.{◌≡◌};
ghost use Rattle.rts_core.specs.Events.{pe_of};

use chare_index::{Index, Pe};

/// What may happen in a world: one step of one PE, or of the board.
#[derive(Clone, Copy, Debug, PartialEq, Eq)]
pub enum Event {
    /// An element that has not started starts, on this PE.
    Start(Pe, Index),
    /// A letter of this PE gets the PE that the location word of its element names.
    Look(Pe),
    /// The front of the outbox of this PE goes into a queue.
    Flush(Pe),
    /// The front of the queue of this PE goes into its hand.
    Deliver(Pe),
    /// This PE acts on what its hand holds.
    Act(Pe),
    /// The board gets the first note that this PE owes.
    Report(Pe),
    /// The board decides its round.
    Decide,
    /// An element leaves this PE for its place.
    Depart(Pe, Index),
    /// An element that is at its place, on this PE, goes on.
    Resume(Pe, Index),
}

impl Event {
    /// The PE that makes the step, or `None` where the board decides.
    pub fn pe(&self) -> Option<Pe>
        ensures value { result ≡ pe_of self.now }
    {
        match self {
            Event::Start(p, _)
            | Event::Look(p)
            | Event::Flush(p)
            | Event::Deliver(p)
            | Event::Act(p)
            | Event::Report(p)
            | Event::Depart(p, _)
            | Event::Resume(p, _) => Some(*p),
            Event::Decide => None,
        }
    }
}
