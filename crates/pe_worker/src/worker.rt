//! The turns of a worker.

ghost use Rattle.std.specs.Prelude.{◌≡◌, ◌+◌, ◌<◌, ◌≤◌, length, IfErr, IfSome, None};
ghost use Rattle.std.specs.VecDeque.{deque_capacity, deque_len};
ghost use Rattle.pe_worker.specs.Causes.{HasCause};

use crate::agenda::Agenda;
use crate::ballot::{Ballot, Question};
use crate::fault::{Fault, fault_of};
use crate::field::Field;
use crate::seated::{OfRun, RunBeginning, SeatedPe};
use crate::telling::{after, after_act, after_going_on, before_act, before_element};
use crate::watch::{PeStep, Watch};
use barrier::{BoardStart, RunBoard};
use chare_index::{Gate, Index, Pe, Round};
use chares::{Carried, Chare, Openings};
use pe_state::{Acted, PeState};
use std::alloc::{AllocError, Allocator, Global};
use std::hint::spin_loop;
use std::marker::Model;
use std::sync::Wait;
use std::thread::{Threads, yield_now};
use sync_board::BoardError;
use worker_threads::{Ended, Work};

mod letters;

/// For how many letters a note may stay owed while the worker has other things to do, and how many notes may: they go to
/// the board together, under one lock.
const OWED: usize = 64;

/// How many elements go on in a turn, before the worker sees to anything else. A turn moves about as many letters, so that those
/// of a round do not pile up, and an element executes its letter while it is still in the cache.
const ELEMENTS: usize = 64;

/// How many idle turns in a row a worker spins, before it lets another thread have the processor in each.
const SPINS: u64 = 64;

/// A worker of a run: a PE with its seat, what it has to see to, and the fault that it met, if it met one. Contracts see it
/// as the record `WorkerView`.
#[derive(Drop)]
pub struct Worker<
    C: Chare<A>,
    H: Openings<C> + BoardStart<A>,
    J: RunBeginning<C>,
    A: Allocator = Global,
> {
    seated: SeatedPe<C, H, J, A>,
    agenda: Agenda<OfRun<C, H>, A>,
    // For how many letters the first note has been owed. A turn without one counts as one.
    owed: usize,
    // Whether its report was the last that the board waited for.
    completes: bool,
    // How many letters it has executed since it last added them to the count for who looks on.
    executed: u64,
    fault: Option<Fault>,
}

impl<C: Chare<A>, H: Openings<C> + BoardStart<A>, J: RunBeginning<C>, A: Allocator> Model
    for Worker<C, H, J, A> {
    ghost use Rattle.std.specs.Prelude.{IfSome};
    ghost use Rattle.pe_worker.specs.Causes.{HasCause};
    ghost use Rattle.pe_worker.specs.Workers.{WorkerView};

    ghost Value = { WorkerView C };

    ghost view = { λ w. record { seated = w.seated; fault = w.fault } };

    ghost invariant = { λ w. IfSome w.fault (HasCause C.step C.pack C.refuses H.opened) };
}

impl<C: Chare<A>, H: Openings<C> + BoardStart<A>, J: RunBeginning<C>, A: Allocator> Worker<
    C,
    H,
    J,
    A,
> {
    /// A worker that has done nothing.
    pub fn new(seated: SeatedPe<C, H, J, A>, agenda: Agenda<OfRun<C, H>, A>) -> Self
        ensures made { result ≡ record { seated = seated; fault = None } }
    {
        Worker {
            seated,
            agenda,
            owed: 0,
            completes: false,
            executed: 0,
            fault: None,
        }
    }

    /// The number of its PE.
    pub fn me(&self) -> Pe
        ensures value { result ≡ self.now.seated.pe.me }
    {
        self.seated.me()
    }

    /// Its PE with the seat, and the fault that it met. The clause `cause` says what is behind it. What an element is packed to
    /// always unpacks, so it is not `Unpack`; nor is it `Mismatch`, since marks and rounds are compared only once all workers have
    /// ended.
    pub fn into_parts(self) -> (SeatedPe<C, H, J, A>, Option<Fault>)
        ensures seated { result.0 ≡ self.seated }
        ensures fault { result.1 ≡ self.fault }
        ensures cause { IfSome result.1 (HasCause C.step C.pack C.refuses H.opened) }
    {
        let Worker {
            seated,
            agenda: _,
            owed: _,
            completes: _,
            executed: _,
            fault,
        } = self;
        (seated, fault)
    }
}

impl<C: Chare<A>, H: Openings<C> + BoardStart<A>, J: RunBeginning<C>, A: Allocator> Work
    for Worker<C, H, J, A> {
    ghost number = { λ w. w.seated.pe.me };

    fn number(&self) -> u32 {
        self.me().get()
    }
}

impl<C: Chare<A>, H: Openings<C> + BoardStart<A>, J: RunBeginning<C>, A: Allocator> Ended
    for Worker<C, H, J, A> {
    ghost use Rattle.std.specs.Prelude.{Some};
    ghost use Rattle.std.specs.Option.{option_or};
    ghost use Rattle.pe_worker.specs.declared.fault.Fault.TheVariants.{OutOfMemory};

    ghost refused = { λ w. record { seated = w.seated; fault = option_or w.fault (Some OutOfMemory) } };

    /// The fault is that no thread could be started for it. The stop flag was set before it began, so its PE is as it opened.
    fn without_thread(self) -> Self {
        let mut worker = self;
        let Some(_met) = worker.fault else {
            worker.fault = Some(Fault::OutOfMemory);
            return worker;
        };
        worker
    }
}

impl<C: Chare<A>, H: Openings<C> + BoardStart<A>, J: RunBeginning<C>, A: Allocator + Copy> Worker<
    C,
    H,
    J,
    A,
> {
    /// Starts the elements of its PE that have not started, and then takes turns until every element has finished, this worker
    /// meets a fault, or another one has. A fault sets the stop flag for all. Whatever happens, it keeps what its PE holds. Who
    /// looks on is told of each round that it decides, and asked before each start and each turn whether the run is to stop.
    pub fn work<G: Gate + Sync, V: Watch + Sync, R: Threads + Wait + Sync>(
        self,
        rt: &R,
        gate: &G,
        watch: &V,
        field: &Field<C, H, J, A>,
    ) -> Self
        ensures same_me { result.seated.pe.me ≡ self.seated.pe.me }
    {
        let mut worker = self;
        worker.open(rt, field);
        let worked = worker.start_all(gate, watch, field);
        let worked = match worked {
            Ok(()) => worker.take_turns(rt, gate, watch, field),
            Err(fault) => Err(fault),
        };
        if let Err(fault) = worked {
            field.stop();
            worker.fault = Some(fault);
        }
        worker
    }

    // Sees to what the board says as the run opens: copies the places of the last round that was decided before, if there is
    // one. The worker of PE 0 also finds out whether the board has all reports of a round that is not decided.
    fn open<R: Wait>(&mut self, rt: &R, field: &Field<C, H, J, A>)
        ensures same { self.new ≡ self.old }
    {
        let first = self.me().get() == 0;
        if !first && self.agenda.decided().get() == 0 {
            return;
        }
        let board = field.barrier.lock(rt);
        self.agenda.open(&board);
        let complete = board.is_complete();
        self.completes = first && complete;
    }

    // Starts the elements of the PE, one after another. A letter is flushed after each start, so that the outbox does not grow to all
    // the letters that starts post.
    fn start_all<G: Gate, V: Watch>(
        &mut self,
        gate: &G,
        watch: &V,
        field: &Field<C, H, J, A>,
    ) -> Result<(), Fault>
        ensures same_me { self.new.seated.pe.me ≡ self.old.seated.pe.me }
        ensures cause { IfErr result (HasCause C.step C.pack C.refuses H.opened) }
    {
        for _element in 0..self.agenda.starts() {
            if field.is_stopped() {
                return Ok(());
            }
            if watch.wants_stop() {
                return Err(Fault::Stopped);
            }
            self.start_next(gate, watch, field)?;
            let _flushed = self.flush_letter(field);
        }
        Ok(())
    }

    // Starts the next element that has not started, which keeps or drops what it handles as the run says.
    fn start_next<G: Gate, V: Watch>(
        &mut self,
        gate: &G,
        watch: &V,
        field: &Field<C, H, J, A>,
    ) -> Result<(), Fault>
        ensures same_me { self.new.seated.pe.me ≡ self.old.seated.pe.me }
        ensures cause { IfErr result (HasCause C.step C.pack C.refuses H.opened) }
    {
        let Some(element) = self.agenda.next_start() else {
            return Ok(());
        };
        self.seated.set_history(element, field.history);
        before_element(watch, self.seated.pe());
        match self.seated.start(gate, element) {
            Ok(started) => {
                if started {
                    after(watch, self.seated.pe(), PeStep::Started(element));
                }
                Ok(())
            }
            Err(error) => Err(fault_of::<C, H, A>(error)),
        }
    }

    // Takes turns.
    fn take_turns<G: Gate + Sync, V: Watch + Sync, R: Threads + Wait + Sync>(
        &mut self,
        rt: &R,
        gate: &G,
        watch: &V,
        field: &Field<C, H, J, A>,
    ) -> Result<(), Fault>
        ensures same_me { self.new.seated.pe.me ≡ self.old.seated.pe.me }
        ensures cause { IfErr result (HasCause C.step C.pack C.refuses H.opened) }
    {
        let me = self.me();
        let mut idle = 0u64;
        let mut question = None;
        for _ in rt.forever() {
            if field.is_stopped() || field.all_finished(rt) {
                return Ok(());
            }
            if watch.wants_stop() {
                return Err(Fault::Stopped);
            }
            let asked = field.ballot.asked();
            if self.turn(rt, gate, watch, field)? {
                if idle > 0 {
                    field.ballot.wake(me);
                }
                idle = 0;
                continue;
            }
            idle = idle.saturating_add(1);
            field.ballot.answer(me, asked);
            if idle >= field.turns {
                return Err(Fault::Idle);
            }
            if field.looks_quiet && is_quiet(&field.ballot, me, idle, &mut question) {
                return Err(Fault::Quiet);
            }
            pause(idle);
        }
        unreachable!()
    }

    // One turn: elements that are due go on, letters move, and then each other kind of step is tried once. It returns whether one
    // was done. Moving letters takes no lock of the board and no memory, and looks at no element but theirs.
    fn turn<G: Gate + Sync, V: Watch + Sync, R: Threads + Wait + Sync>(
        &mut self,
        rt: &R,
        gate: &G,
        watch: &V,
        field: &Field<C, H, J, A>,
    ) -> Result<bool, Fault>
        ensures same_me { self.new.seated.pe.me ≡ self.old.seated.pe.me }
        ensures cause { IfErr result (HasCause C.step C.pack C.refuses H.opened) }
    {
        let went_on = self.go_on(rt, gate, watch, field)?;
        let moved = self.move_letters(gate, watch, field)?;
        let busy = moved > 0 || went_on;
        let reported = self.report(rt, watch, field, moved, busy)?;
        let decided = self.decide(rt, gate, watch, field)?;
        Ok(busy || reported || decided)
    }
}

impl<C: Chare<A>, H: Openings<C> + BoardStart<A>, J: RunBeginning<C>, A: Allocator + Copy> Worker<
    C,
    H,
    J,
    A,
> {
    // Acts on what is in the hand. An element there arrives, and is due.
    fn act<G: Gate, V: Watch>(&mut self, gate: &G, watch: &V) -> Result<bool, Fault>
        ensures same_me { self.new.seated.pe.me ≡ self.old.seated.pe.me }
        ensures cause { IfErr result (HasCause C.step C.pack C.refuses H.opened) }
    {
        if let Some(element) = arriving(self.seated.pe()) {
            if self.agenda.arrives(element).is_err() {
                return Err(Fault::OutOfMemory);
            }
        }
        let held = before_act(watch, self.seated.pe());
        match self.seated.act(gate) {
            Ok(acted) => {
                after_act(watch, self.seated.pe(), held, acted);
                if acted == Some(Acted::Executed) {
                    self.executed = self.executed.saturating_add(1);
                }
                Ok(acted.is_some())
            }
            Err(error) => Err(fault_of::<C, H, A>(error)),
        }
    }

    // Lets elements go on that are due, as many as a turn may.
    fn go_on<G: Gate, V: Watch, R: Wait>(
        &mut self,
        rt: &R,
        gate: &G,
        watch: &V,
        field: &Field<C, H, J, A>,
    ) -> Result<bool, Fault>
        ensures same_me { self.new.seated.pe.me ≡ self.old.seated.pe.me }
        ensures cause { IfErr result (HasCause C.step C.pack C.refuses H.opened) }
    {
        if self.see_round(rt, field).is_err() {
            return Err(Fault::OutOfMemory);
        }
        for gone_on in 0..ELEMENTS {
            if !self.go_on_next(gate, watch, field)? {
                return Ok(gone_on > 0);
            }
        }
        Ok(true)
    }

    // Lets the element go on that is due next.
    fn go_on_next<G: Gate, V: Watch>(
        &mut self,
        gate: &G,
        watch: &V,
        field: &Field<C, H, J, A>,
    ) -> Result<bool, Fault>
        ensures same_me { self.new.seated.pe.me ≡ self.old.seated.pe.me }
        ensures cause { IfErr result (HasCause C.step C.pack C.refuses H.opened) }
    {
        let Some(element) = self.agenda.next_due() else {
            return Ok(false);
        };
        before_element(watch, self.seated.pe());
        match self
            .seated
            .go_on(gate, &field.words, &self.agenda.places, element)
        {
            Ok(done) => {
                if done {
                    after_going_on(watch, self.seated.pe(), &self.agenda.places, element);
                }
                Ok(done)
            }
            Err(error) => Err(fault_of::<C, H, A>(error)),
        }
    }

    // Copies the places of the last round, once for each round that is decided.
    fn see_round<R: Wait>(&mut self, rt: &R, field: &Field<C, H, J, A>) -> Result<(), AllocError>
        ensures same { self.new ≡ self.old }
    {
        let Some(round) = field.last_decided() else {
            return Ok(());
        };
        if round.get() <= self.agenda.places.round().get() {
            return Ok(());
        }
        let board = field.barrier.lock(rt);
        self.agenda.begin_round(&board, round)
    }

    // Hands in the notes that are owed, all under one lock: at once where there was nothing else to do, and otherwise once
    // there are many of them, or the first has been owed for long.
    fn report<V: Watch, R: Wait>(
        &mut self,
        rt: &R,
        watch: &V,
        field: &Field<C, H, J, A>,
        moved: usize,
        busy: bool,
    ) -> Result<bool, Fault>
        ensures same_me { self.new.seated.pe.me ≡ self.old.seated.pe.me }
        ensures cause { IfErr result (HasCause C.step C.pack C.refuses H.opened) }
    {
        let notes = self.seated.pe().as_end().notes().len();
        if notes == 0 {
            return Ok(false);
        }
        if busy && notes < OWED && self.owed < OWED {
            self.owed = self.owed.saturating_add(moved.max(1));
            return Ok(false);
        }
        self.owed = 0;
        field.tell_executed(self.executed);
        self.executed = 0;
        if self.agenda.reserve(notes).is_err() {
            return Err(Fault::OutOfMemory);
        }
        let mut guard = field.barrier.lock(rt);
        let board = &mut *guard;
        let handed = report_all(&mut self.seated, &mut self.agenda, board, notes);
        self.completes = board.is_complete();
        if board.all_finished() {
            field.tell_finished();
        }
        drop(guard);
        if handed {
            after(watch, self.seated.pe(), PeStep::Reported);
        }
        Ok(handed)
    }

    // Decides the round, where the board waited for the last report of this worker. Where another worker has decided it
    // meanwhile there is nothing to do.
    fn decide<G: Gate + Sync, V: Watch + Sync, R: Threads + Wait + Sync>(
        &mut self,
        rt: &R,
        gate: &G,
        watch: &V,
        field: &Field<C, H, J, A>,
    ) -> Result<bool, Fault>
        ensures same_me { self.new.seated.pe.me ≡ self.old.seated.pe.me }
        ensures cause { IfErr result (HasCause C.step C.pack C.refuses H.opened) }
    {
        if !self.completes {
            return Ok(false);
        }
        self.completes = false;
        match field.barrier.decide_with(rt, field.probe_workers(), gate) {
            Ok(round) => {
                show_round(rt, watch, field, round);
                field.tell_decided(round);
                watch.decided(round, field.executed());
                Ok(true)
            }
            Err(BoardError::Worn) => Err(Fault::Worn),
            Err(BoardError::OutOfMemory) => Err(Fault::OutOfMemory),
            Err(_) => Ok(false),
        }
    }
}

// Shows a round that was decided to the watch, where that follows rounds.
fn show_round<
    C: Chare<A>,
    H: Openings<C> + BoardStart<A>,
    J: RunBeginning<C>,
    V: Watch,
    R: Wait,
    A: Allocator + Copy,
>(rt: &R, watch: &V, field: &Field<C, H, J, A>, round: Round) {
    if !watch.follows_rounds() {
        return;
    }
    let guard = field.barrier.lock(rt);
    if let Some((snapshot, decision)) = guard.kept_for(round) {
        watch.made_round(snapshot, decision);
    }
}

// The element in the hand of a PE, if there is one.
fn arriving<C: Chare<A>, H: Openings<C> + BoardStart<A>, A: Allocator>(
    pe: &PeState<C, H, A>,
) -> Option<Index> {
    let item = pe.as_end().hand()?;
    let Carried::Element(element) = &item.parcel else {
        return None;
    };
    Some(element.index())
}

// Reports this many notes, or as many as the board takes, and returns whether it took one. The agenda has room for them.
fn report_all<C: Chare<A>, H: Openings<C> + BoardStart<A>, J: RunBeginning<C>, A: Allocator + Copy>(
    seated: &mut SeatedPe<C, H, J, A>,
    agenda: &mut Agenda<OfRun<C, H>, A>,
    board: &mut RunBoard<OfRun<C, H>, A>,
    notes: usize,
) -> bool
    requires room { deque_len agenda.old.waiting + notes ≤ deque_capacity agenda.old.waiting }
    ensures same_me { seated.new.pe.me ≡ seated.old.pe.me }
    ensures no_growth { deque_capacity agenda.new.waiting ≡ deque_capacity agenda.old.waiting }
{
    let mut taken = false;
    for _note in 0..notes {
        let Some(note) = seated.report(board) else {
            return taken;
        };
        agenda.reported(&note);
        taken = true;
    }
    taken
}

// Whether nothing is left to do in the whole run. The worker of PE 0 finds out, once it has been idle for a while: it asks the others
// twice, and anew where one of them has done something meanwhile.
fn is_quiet<A: Allocator>(
    ballot: &Ballot<A>,
    me: Pe,
    idle: u64,
    question: &mut Option<Question>,
) -> bool {
    if me.get() != 0 {
        return false;
    }
    let Some(asked) = *question else {
        *question = ballot.ask(idle);
        return false;
    };
    if ballot.is_void(asked) {
        *question = ballot.ask(idle);
        return false;
    }
    if !ballot.is_answered(asked) {
        return false;
    }
    if asked.is_second() {
        return true;
    }
    *question = Some(ballot.ask_again(asked));
    false
}

// Lets time pass in an idle turn.
fn pause(idle: u64) {
    if idle == 0 {
        return;
    }
    if idle < SPINS {
        spin_loop();
        return;
    }
    yield_now();
}
