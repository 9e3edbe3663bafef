//! The world of a run.

ghost use Rattle.std.specs.Prelude.{◌++◌, ◌+◌, ◌≡◌, ◌<◌, ◌≤◌, ℕ, List, [], length, OnOk, OnErr, IfOk, IfErr, IfSome, MatchOption, slice_get, All};
ghost use Rattle.std.specs.Option.{option_copied};
ghost use Rattle.lb_database.specs.Measuring.{elements};
ghost use Rattle.sync_board.specs.declared.strategy.Strategy.TheVariants.{Least};
ghost use Rattle.pe_state.specs.Pes.{PeView};
ghost use Rattle.rts_core.specs.Events.{Happens, MayDecide, or_nothing, enabled, local_view};
ghost use Rattle.chares.specs.declared.trace_entry.TraceEntry.{TraceEntry};
ghost use Rattle.rts_core.specs.declared.event.Event.{Event};
ghost use Rattle.rts_core.specs.Accounts.{Accounted, AreSent, IsCounted, posted_count, executed_count, held_count};
ghost use Rattle.rts_core.specs.Runs.{Reaches};
ghost use Rattle.rts_core.specs.Histories.{AreHistories};
ghost use Rattle.rts_core.specs.Refusals.{RefusesAt, RefusesDecide, RefusesEvent};
ghost use Rattle.rts_core.specs.Worlds.{IsWorld, opening_world};

use crate::account::{Account, held_by, posted_by, queued_in};
use crate::event::Event;
use crate::opening::{opening_pes, opening_queues, opening_words};
use crate::queue::Queue;
use crate::reports::Reports;
use crate::stepping::step_in;
use crate::sync::decide;
use chare_index::{Index, Limits, Pe, Pes};
use chares::{Chare, Openings};
use pe_state::{PeState, StepError};
use std::alloc::{AllocError, Allocator, Global};
use std::marker::Model;
use sync_board::{Board, Strategy};

/// The PEs of a run with a queue before each, the location word of each element, and the board. A step that is refused leaves
/// the world unchanged. Contracts see it as the record `WorldView`. Every element in it is what its journal says, wherever it
/// is.
///
/// # Example
///
/// Two elements on two PEs, each of which posts a letter to the other as it starts. One letter is looked up, put into the
/// queue of the other PE, taken from it and executed; the other letter waits in its outbox.
///
/// ```text
/// let mut world = World::new(rt.alloc(), 2, chares)?;
/// world.step(Event::Start(p0, e0))?;
/// world.step(Event::Start(p1, e1))?;
/// world.step(Event::Look(p0))?;
/// world.step(Event::Flush(p0))?;
/// world.step(Event::Deliver(p1))?;
/// world.step(Event::Act(p1))?;
/// assert!(world.account() == Account { posted: 2, executed: 1, held: 1 });
/// ```
#[derive(Drop)]
pub struct World<C: Chare<A>, H: Openings<C>, A: Allocator = Global> {
    pes: Vec<PeState<C, H, A>, A>,
    queues: Vec<Queue<C, H, A>, A>,
    // The location word of each element: the PE on which it is looked for.
    words: Vec<Pe, A>,
    board: Board<A>,
    alloc: A,
}

impl<C: Chare<A>, H: Openings<C>, A: Allocator> Model for World<C, H, A> {
    ghost use Rattle.std.specs.Prelude.{length};
    ghost use Rattle.rts_core.specs.Worlds.{WorldView, IsWorld};
    ghost use Rattle.rts_core.specs.Accounts.{AreSent, IsCounted};
    ghost use Rattle.rts_core.specs.Histories.{AreHistories};

    ghost Value = { WorldView C A };

    ghost view = { λ w. record { pes = w.pes.items; queues = w.queues.items; words = w.words.items; board = w.board } };

    ghost invariant = { λ w.
        IsWorld (length H.opened) H.pes (record { pes = w.pes.items; queues = w.queues.items; words = w.words.items; board = w.board })
        × AreHistories C.step C.fits C.pack H.opened (record { pes = w.pes.items; queues = w.queues.items; words = w.words.items; board = w.board })
        × AreSent C.step H.opened (record { pes = w.pes.items; queues = w.queues.items; words = w.words.items; board = w.board })
        × IsCounted (record { pes = w.pes.items; queues = w.queues.items; words = w.words.items; board = w.board }) };
}

impl<C: Chare<A>, H: Openings<C>, A: Allocator + Copy> World<C, H, A> {
    /// The opening of a run: element `i` of `n`, not started, is on PE `i * pes / n`, rounded down, which is its location
    /// word, and all else is empty; rounds are decided by [`Strategy::Least`]. There are 1 to 256 PEs and at most 65,536
    /// chares, which are those that the run opens with. Where memory is refused the chares are dropped.
    pub fn new(alloc: A, pes: u32, chares: Vec<C, A>) -> Result<Self, AllocError>
        requires some_pe { 1 ≤ pes }
        requires few_pes { pes ≤ Limits.PES }
        requires few { length chares.items ≤ Limits.ELEMENTS }
        requires run { pes ≡ H.pes }
        requires opened { chares.items ≡ H.opened }
        ensures made { IfOk result (λ world. world ≡ opening_world pes chares.items Least) }
        ensures history { IfOk result (λ world. AreHistories C.step C.fits C.pack H.opened world) }
    {
        World::with_strategy(alloc, pes, chares, Strategy::Least)
    }

    /// The opening of a run as [`new`](World::new) makes it, whose rounds are decided by `strategy`.
    pub fn with_strategy(
        alloc: A,
        pes: u32,
        chares: Vec<C, A>,
        strategy: Strategy,
    ) -> Result<Self, AllocError>
        requires some_pe { 1 ≤ pes }
        requires few_pes { pes ≤ Limits.PES }
        requires few { length chares.items ≤ Limits.ELEMENTS }
        requires run { pes ≡ H.pes }
        requires opened { chares.items ≡ H.opened }
        ensures made { IfOk result (λ world. world ≡ opening_world pes chares.items strategy) }
        ensures history { IfOk result (λ world. AreHistories C.step C.fits C.pack H.opened world) }
    {
        let n = chares.len() as u32;
        let count = Pes::of(pes);
        let states = opening_pes(alloc, count, chares)?;
        let queues = opening_queues(alloc, count)?;
        let words = opening_words(alloc, n, count)?;
        let board = Board::with_strategy(alloc, n, pes, strategy)?;
        Ok(World {
            pes: states,
            queues,
            words,
            board,
            alloc,
        })
    }

    /// Makes one event happen, and returns the trace entries of the event, in order. An event that is not enabled, or that
    /// names a PE or an element that is not there, changes nothing and has no trace entries.
    ///
    /// Crates above this one prove what holds of the trace of every list of events: no element goes on before all have
    /// reported and the round was decided, once, and each is then at its place (`event_laws::barrier_law`); the board takes
    /// every note that is owed (`event_laws::agreement_laws`); no element arrives where there is one with its index
    /// already (`event_laws::place_laws`); a letter is forwarded no more often than its element has departed since it was
    /// posted, and a letter on a shelf waits for an element that is on its way (`event_laws::chase_law`).
    ///
    /// # Errors
    ///
    /// The world is unchanged on any of them. [`Worn`](StepError::Worn) where the last round was to be decided; otherwise
    /// [`OutOfMemory`](StepError::OutOfMemory), or what a handler returns.
    pub fn step(&mut self, event: Event) -> Result<Reports<A>, StepError>
        ensures ok { IfOk result (λ reports. Happens C.step C.pack C.unpack self.old event (self.new, reports)) }
        ensures err { OnErr result (self.new ≡ self.old) }
        ensures refused { IfErr result (RefusesEvent C.step C.pack C.refuses C.unpack self.old event) }
        ensures history { AreHistories C.step C.fits C.pack H.opened self.new }
        ensures sent { AreSent C.step H.opened self.new }
        ensures counted { IsCounted self.new }
        ensures account { IfOk result
            (λ reports. (events : List Event) (trace : List TraceEntry)
            → Reaches C.step C.pack C.unpack (opening_world H.pes H.opened self.old.board.strategy) events (self.old, trace)
            → Accounted (length H.opened) self.new (trace ++ reports)) }
    {
        let Some(p) = event.pe() else {
            return self.decide();
        };
        self.step_of(p, event)
    }

    // The step of a PE.
    fn step_of(&mut self, p: Pe, event: Event) -> Result<Reports<A>, StepError>
        ensures ok { IfOk result (λ reports. (self.new, reports) ≡ or_nothing self.old (enabled C.step C.pack C.unpack self.old event p)) }
        ensures err { OnErr result (self.new ≡ self.old) }
        ensures refused { IfErr result (λ error. MatchOption (slice_get self.old.pes p) ⊥
            (λ pe. RefusesAt C.step C.pack C.refuses C.unpack event (local_view self.old pe) error)) }
        ensures history { AreHistories C.step C.fits C.pack H.opened self.new }
        ensures sent { AreSent C.step H.opened self.new }
        ensures counted { IsCounted self.new }
        ensures some_pe { 1 ≤ H.pes }
    {
        step_in(
            self.alloc,
            p,
            event,
            self.pes.as_mut_slice(),
            self.queues.as_mut_slice(),
            self.words.as_mut_slice(),
            &mut self.board,
        )
    }

    // The board decides its round.
    fn decide(&mut self) -> Result<Reports<A>, StepError>
        ensures ok { IfOk result (λ reports. MayDecide self.old.board self.new.board reports × (self.new ≡ record self.old { board = self.new.board })) }
        ensures err { OnErr result (self.new ≡ self.old) }
        ensures refused { IfErr result (RefusesDecide self.old.board.database) }
        ensures history { AreHistories C.step C.fits C.pack H.opened self.new }
        ensures sent { AreSent C.step H.opened self.new }
        ensures counted { IsCounted self.new }
        ensures some_pe { 1 ≤ H.pes }
    {
        decide(self.alloc, &mut self.board)
    }
}

impl<C: Chare<A>, H: Openings<C>, A: Allocator> World<C, H, A> {
    /// How many PEs there are.
    pub fn pes(&self) -> usize
        ensures value { result ≡ length self.now.pes }
    {
        self.pes.len()
    }

    /// A PE, or `None` where there is no such PE.
    pub fn pe(&self, p: Pe) -> Option<&PeState<C, H, A>>
        ensures value { option_copied result ≡ slice_get self.now.pes p }
    {
        self.pes.get(p.get() as usize)
    }

    /// The parcels in the queue before a PE, the front first, or `None` where there is no such PE.
    pub fn queue(&self, p: Pe) -> Option<&Queue<C, H, A>>
        ensures value { option_copied result ≡ slice_get self.now.queues p }
    {
        self.queues.get(p.get() as usize)
    }

    /// The location word of an element: the PE on which it is looked for; or `None` where there is no such element.
    pub fn word(&self, e: Index) -> Option<Pe>
        ensures value { result ≡ slice_get self.now.words e }
    {
        self.words.get(e.get() as usize).copied()
    }

    /// The board.
    pub fn board(&self) -> &Board<A>
        ensures value { result.now ≡ self.now.board }
    {
        &self.board
    }

    /// Its PEs, the queue before each, the location words of the elements, and the board, each by value. The clauses `world`,
    /// `histories` and `counted` say what its type said.
    pub fn into_parts(
        self,
    ) -> (
        Vec<PeState<C, H, A>, A>,
        Vec<Queue<C, H, A>, A>,
        Vec<Pe, A>,
        Board<A>,
    )
        ensures pes { result.0.items ≡ self.pes }
        ensures queues { result.1.items ≡ self.queues }
        ensures words { result.2.items ≡ self.words }
        ensures board { result.3 ≡ self.board }
        ensures world { IsWorld (length H.opened) H.pes self }
        ensures histories { AreHistories C.step C.fits C.pack H.opened self }
        ensures counted { IsCounted self }
    {
        let World {
            pes,
            queues,
            words,
            board,
            alloc: _,
        } = self;
        (pes, queues, words, board)
    }

    /// How many letters were posted, how many of them were executed, and how many are held in places. This takes no memory.
    /// It visits each PE and each parcel on its way, but no journals: a letter that was posted and is not held was executed.
    pub fn account(&self) -> Account
        ensures posted { result.posted ≡ posted_count self.now }
        ensures executed { result.executed ≡ executed_count self.now }
        ensures held { result.held ≡ held_count self.now }
        ensures balanced { result.posted ≡ result.executed + result.held }
    {
        let pes = self.pes.as_slice();
        let queues = self.queues.as_slice();
        let posted = posted_by(pes);
        let held = held_by(pes) + queued_in(queues);
        Account {
            posted,
            executed: posted - held,
            held,
        }
    }
}
