//! The ready list of a worker: the elements that it has to resume, and those that wait.

ghost use Rattle.std.specs.Prelude.{◌≡◌, ◌+◌, ◌<◌, ◌≤◌, OnErr, OnOk};
ghost use Rattle.std.specs.VecDeque.{deque_capacity, deque_len};

use barrier::{BoardSize, RoundPlaces, RunBoard};
use chare_index::{Index, Round};
use chares::{Chare, Note, Openings, Progress};
use pe_state::PeState;
use std::alloc::{AllocError, Allocator, Global};
use std::collections::VecDeque;
use sync_board::Board;

/// The elements of a PE by what they wait for, so that a worker need not search all of them. No clause depends on it: an
/// element missing here would be resumed too late, but never wrongly.
#[derive(Drop)]
pub struct Agenda<J: BoardSize<A>, A: Allocator = Global> {
    // Those that have not started.
    starting: VecDeque<Index, A>,
    // Those that wait for the round whose places are copied here.
    due: VecDeque<Index, A>,
    // Those whose reports the board has for the round after that.
    waiting: VecDeque<Index, A>,
    pub(crate) places: RoundPlaces<J, A>,
    // The last round that was decided before the run, or 0. Its places are copied as the run opens.
    decided: Round,
}

/// The last round that a board has decided, or 0.
pub(crate) fn last_round<A: Allocator>(board: &Board<A>) -> Round {
    let present = board.database().round();
    Round::new(present.get().saturating_sub(1)).unwrap()
}

impl<J: BoardSize<A>, A: Allocator + Copy> Agenda<J, A> {
    /// The agenda of a PE as a run begins: its elements that have not started, those that wait for a round that the board has
    /// decided already, and those whose reports of the present round the board has. An element that waits for a round of which its
    /// PE still owes the note comes to the agenda as that is reported. There are `pes` PEs in all.
    pub fn new<C: Chare<A>, H: Openings<C>>(
        alloc: A,
        pe: &PeState<C, H, A>,
        board: &Board<A>,
        pes: u32,
    ) -> Result<Self, AllocError>
        requires on_pes { pes ≡ J.pes }
    {
        let mut agenda = Agenda {
            starting: VecDeque::new(alloc),
            due: VecDeque::new(alloc),
            waiting: VecDeque::new(alloc),
            places: RoundPlaces::new(alloc, pes)?,
            decided: last_round(board),
        };
        for (_, element) in pe.room().iter() {
            agenda.add(element.index(), element.progress(), board)?;
        }
        Ok(agenda)
    }

    // Puts an element that has come so far to where it belongs.
    fn add(
        &mut self,
        element: Index,
        progress: Progress,
        board: &Board<A>,
    ) -> Result<(), AllocError> {
        if !progress.started {
            self.starting.push_back(element)?;
            return Ok(());
        }
        if !progress.synced {
            return Ok(());
        }
        if progress.round.get() < self.decided.get() {
            self.due.push_back(element)?;
            return Ok(());
        }
        if board.database().reported(element.get()).is_some() {
            self.waiting.push_back(element)?;
        }
        Ok(())
    }

    /// How many elements have not started.
    pub(crate) fn starts(&self) -> usize {
        self.starting.len()
    }

    /// The next element that has not started, which leaves the agenda.
    pub(crate) fn next_start(&mut self) -> Option<Index> {
        self.starting.pop_front()
    }

    /// The next element that is due, which leaves the agenda.
    pub(crate) fn next_due(&mut self) -> Option<Index> {
        self.due.pop_front()
    }

    /// An element arrives that waits for the round that was decided last, so it is due.
    pub(crate) fn arrives(&mut self, element: Index) -> Result<(), AllocError> {
        self.due.push_back(element)?;
        Ok(())
    }

    /// Takes room for this many elements whose reports the board is to have. Where there is as much already, it takes no
    /// more: so notes that the board refuses cost nothing when they are handed in again.
    pub(crate) fn reserve(&mut self, notes: usize) -> Result<(), AllocError>
        ensures ok { OnOk result (deque_len self.new.waiting + notes ≤ deque_capacity self.new.waiting) }
        ensures err { OnErr result (deque_capacity self.old.waiting < deque_len self.old.waiting + notes) }
        ensures enough { deque_len self.old.waiting + notes ≤ deque_capacity self.old.waiting → self.new ≡ self.old }
    {
        if notes <= self.waiting.capacity() - self.waiting.len() {
            return Ok(());
        }
        self.waiting.reserve(notes)
    }

    /// The board has this note: the element, if it waits, is noted here. There is room for it.
    pub(crate) fn reported(&mut self, note: &Note)
        requires room { deque_len self.old.waiting < deque_capacity self.old.waiting }
        ensures len { deque_len self.new.waiting ≤ deque_len self.old.waiting + 1 }
        ensures capacity { deque_capacity self.new.waiting ≡ deque_capacity self.old.waiting }
    {
        if let Note::Sync(element, _, _, _, _) = note {
            self.waiting.push_back_reserved(*element);
        }
    }

    /// The last round that was decided before the run, or 0.
    pub(crate) fn decided(&self) -> Round {
        self.decided
    }

    /// Copies the places of the last round that was decided before the run. No element becomes due by this: those that waited
    /// for it are due already.
    pub(crate) fn open(&mut self, board: &RunBoard<J, A>) {
        let _decided = board.copy_places(self.decided, &mut self.places);
    }

    /// Copies the places of a round, if it is decided. Then those that waited for it are due.
    pub(crate) fn begin_round(
        &mut self,
        board: &RunBoard<J, A>,
        round: Round,
    ) -> Result<(), AllocError> {
        if board.copy_places(round, &mut self.places) {
            self.due.append(&mut self.waiting)?;
        }
        Ok(())
    }
}
