//! What a run begins with.

ghost use Rattle.std.specs.Prelude.{◌≡◌, ◌≤◌, [], IfOk, length, map, sum_by};
ghost use Rattle.std.specs.List.{range_with_len};
ghost use Rattle.std.specs.VecDeque.{deque_len};
ghost use Rattle.chare_index.specs.declared.limits.TheConstants.Limits.{SEATS};
ghost use Rattle.pe_queues.specs.Seats.{pes};
ghost use Rattle.rts_core.specs.Worlds.{opening_words};
ghost use Rattle.rts_run.specs.Configs.{IsWithin};
ghost use Rattle.rts_run.specs.Openings.{AreNewSeats, AreOfRun, IsBeginning};

use crate::config::Config;
use crate::options::{Idle, Options};
use crate::workers::open_workers;
use barrier::BoardStart;
use chare_index::{Limits, Pe, Pes};
use chares::{Chare, Openings};
use pe_queues::{Locations, Post, Seat};
use pe_state::{Parcel, PeState};
use pe_worker::{Field, OfRun, RunBeginning, Worker};
use rts_core::{opening_pes, opening_words};
use std::alloc::{AllocError, Allocator};
use std::collections::VecDeque;
use std::marker::Model;
use sync_board::{Board, Strategy};

/// A run that has opened, or opened again, before its workers begin: its queues with a seat for each PE, its PEs, a location word for
/// each element, and its board. Contracts see its beginning.
#[derive(Drop)]
pub struct OpenedRun<C: Chare<A>, H: Openings<C> + BoardStart<A>, A: Allocator> {
    post: Post<Parcel<C, H, A>, A>,
    seats: Vec<Seat<Parcel<C, H, A>, A>, A>,
    states: Vec<PeState<C, H, A>, A>,
    words: Locations<OfRun<C, H>, A>,
    board: Board<A>,
}

impl<C: Chare<A>, H: Openings<C> + BoardStart<A>, A: Allocator> Model for OpenedRun<C, H, A> {
    ghost use Rattle.std.specs.Prelude.{length, map};
    ghost use Rattle.pe_worker.specs.Seated.{Beginning};
    ghost use Rattle.rts_run.specs.Openings.{AreNewSeats, AreOfRun, IsBeginning};

    ghost Value = { Beginning C };

    ghost view = { λ o. record { post = o.post; starts = o.states.items; shares = map (λ s. s.seats) o.seats.items } };

    ghost invariant = { λ o.
        IsBeginning C.step H.pes H.opened (record { post = o.post; starts = o.states.items; shares = map (λ s. s.seats) o.seats.items })
        × AreNewSeats o.post o.seats.items × AreOfRun H.pes (length H.opened) H.strategy H.earlier o.words o.board };
}

impl<C: Chare<A>, H: Openings<C> + BoardStart<A>, A: Allocator + Copy> OpenedRun<C, H, A> {
    /// A run of the chares that `H` names, and the PE on which each of them opens. The only error is that memory was refused.
    pub(crate) fn new(
        alloc: A,
        config: &Config,
        strategy: Strategy,
        chares: Vec<C, A>,
    ) -> Result<(Self, Vec<Pe, A>), AllocError>
        requires within { IsWithin config.now }
        requires few { length chares.items ≤ Limits.ELEMENTS }
        requires run { config.now.pes ≡ H.pes }
        requires opened { chares.items ≡ H.opened }
        requires by_strategy { strategy ≡ H.strategy }
        requires first_rounds { H.earlier ≡ [] }
        ensures capacity { IfOk result (λ made. made.0.post.capacity ≡ config.now.capacity) }
        ensures homes { IfOk result (λ made. made.1.items ≡ opening_words (length H.opened) H.pes) }
    {
        let n = element_count(&chares);
        let pes = Pes::of(config.pes);
        let homes = opening_words(alloc, n, pes)?;
        let words = Locations::<OfRun<C, H>, A>::new(alloc, &homes, config.pes)?;
        let board = Board::with_strategy(alloc, n, config.pes, strategy)?;
        let (post, seats) = open_post::<C, H, A>(alloc, config)?;
        let states = opening_pes(alloc, pes, chares)?;
        let opened = OpenedRun {
            post,
            seats,
            states,
            words,
            board,
        };
        Ok((opened, homes))
    }

    /// A run that begins with these queues, with a seat of each PE, these PEs, words and board: what a run that opens in another way is
    /// made of.
    pub fn of_parts(
        post: Post<Parcel<C, H, A>, A>,
        seats: Vec<Seat<Parcel<C, H, A>, A>, A>,
        states: Vec<PeState<C, H, A>, A>,
        words: Locations<OfRun<C, H>, A>,
        board: Board<A>,
    ) -> Self
        requires beginning { IsBeginning C.step H.pes H.opened (record { post = post; starts = states.items; shares = map (λ s. s.seats) seats.items }) }
        requires new_seats { AreNewSeats post seats.items }
        requires of_run { AreOfRun H.pes (length H.opened) H.strategy H.earlier words board }
        ensures post { result.post ≡ post }
        ensures starts { result.starts ≡ states.items }
    {
        OpenedRun {
            post,
            seats,
            states,
            words,
            board,
        }
    }

    /// What its workers share, and a worker for each PE, in order. The only error is that memory was refused.
    pub(crate) fn begin<J: RunBeginning<C>>(
        self,
        alloc: A,
        config: &Config,
        options: &Options,
    ) -> Result<(Field<C, H, J, A>, VecDeque<Worker<C, H, J, A>, A>), AllocError>
        requires beginning { self ≡ J.beginning }
        requires within { IsWithin config.now }
        requires run { config.now.pes ≡ H.pes }
        ensures beginning { IfOk result (λ _. IsBeginning C.step H.pes H.opened J.beginning) }
        ensures in_order { IfOk result (λ made. map (λ w. w.seated.pe.me) made.1.items ≡ range_with_len 0 H.pes) }
        ensures counted { IfOk result (λ made. deque_len made.1 ≡ H.pes) }
    {
        let OpenedRun {
            post,
            seats,
            states,
            words,
            board,
        } = self;
        let (states, seats) = (VecDeque::from_vec(states), VecDeque::from_vec(seats));
        let workers = open_workers::<C, H, J, A>(alloc, config, options, &board, states, seats)?;
        let field = Field::new(
            alloc,
            post,
            words,
            board,
            config.turns,
            options.idle == Idle::Quiet,
            options.history,
            config.probe_workers,
        )?;
        Ok((field, workers))
    }
}

// How many chares there are. An array may have as many.
fn element_count<C>(chares: &[C]) -> u32
    requires few { length chares.now ≤ Limits.ELEMENTS }
    ensures value { result ≡ length chares.now }
{
    chares.len() as u32
}

/// The queues of a run, with a seat for each PE. The only error is that memory was refused.
pub fn open_post<C: Chare<A>, H: Openings<C> + BoardStart<A>, A: Allocator + Copy>(
    alloc: A,
    config: &Config,
) -> Result<(Post<Parcel<C, H, A>, A>, Vec<Seat<Parcel<C, H, A>, A>, A>), AllocError>
    requires within { IsWithin config.now }
    ensures served { IfOk result (λ made. pes made.0 ≡ config.now.pes) }
    ensures capacity { IfOk result (λ made. made.0.capacity ≡ config.now.capacity) }
    ensures seated { IfOk result (λ made. length made.1.items ≡ config.now.pes) }
    ensures new { IfOk result (λ made. AreNewSeats made.0 made.1.items) }
    ensures all_seats { IfOk result (λ made. sum_by (λ s. s.seats) made.1.items ≡ SEATS) }
{
    match Post::new(alloc, config.pes, config.pes, config.capacity) {
        Ok(made) => Ok(made),
        Err(_) => Err(AllocError),
    }
}
