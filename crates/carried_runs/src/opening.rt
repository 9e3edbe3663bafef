//! What a run that is carried on begins with.

ghost use Rattle.std.specs.Prelude.{◌≡◌, ◌≤◌, IfOk, length, map, sum_by};
ghost use Rattle.chare_index.specs.declared.limits.TheConstants.Limits.{SEATS};
ghost use Rattle.lb_database.specs.Measuring.{elements};
ghost use Rattle.pe_queues.specs.Seats.{pes};
ghost use Rattle.run_account.specs.Reopenings.{all_reopened};
ghost use Rattle.run_account.specs.RunAccounts.{IsRunAccount, left_world};
ghost use Rattle.std.specs.List.{range_with_len};
ghost use Rattle.rts_core.specs.Histories.{AreHistories};
ghost use Rattle.rts_run.specs.Configs.{IsWithin};
ghost use Rattle.rts_run.specs.Openings.{AreNewSeats};
ghost use Rattle.rts_run.specs.Outcomes.{IsOutcome};

use crate::reopening::{places_of, reopen_all};
use barrier::BoardStart;
use chare_index::{Limits, Pe, Pes};
use chares::{Chare, Openings};
use pe_queues::{Locations, Post, Seat};
use pe_state::{HeldParcel, Parcel, PeEnd, PeState};
use pe_worker::OfRun;
use rts_run::{Config, OpenedRun, Outcome, open_post};
use std::alloc::{AllocError, Allocator};
use sync_board::Board;

/// What goes on from what an earlier run of the chares that `H` names has left, and where its elements opened. The only error is that
/// memory was refused.
pub(crate) fn opened_again<C: Chare<A>, H: Openings<C> + BoardStart<A>, A: Allocator + Copy>(
    alloc: A,
    config: &Config,
    outcome: Outcome<C, A>,
) -> Result<(OpenedRun<C, H, A>, Vec<Pe, A>), AllocError>
    requires within { IsWithin config.now }
    requires few { length H.opened ≤ Limits.ELEMENTS }
    requires run { config.now.pes ≡ H.pes }
    requires earlier { IsOutcome C.step C.fits C.pack C.refuses H.opened H.pes H.strategy outcome }
    requires earlier_rounds { outcome.board.rounds ≡ H.earlier }
    ensures capacity { IfOk result (λ made. made.0.post.capacity ≡ config.now.capacity) }
    ensures starts { IfOk result (λ made. made.0.starts ≡ all_reopened config.now.pes outcome.ends outcome.left) }
    ensures homes { IfOk result (λ made. made.1.items ≡ outcome.homes) }
{
    let (homes, ends, left, board, _) = outcome.into_parts();
    let opened = opened_from(alloc, config, ends, left, board)?;
    Ok((opened, homes))
}

// What the next run begins with, made from the parts of an outcome.
fn opened_from<C: Chare<A>, H: Openings<C> + BoardStart<A>, A: Allocator + Copy>(
    alloc: A,
    config: &Config,
    ends: Vec<PeEnd<C, A>, A>,
    left: Vec<Vec<HeldParcel<A>, A>, A>,
    board: Board<A>,
) -> Result<OpenedRun<C, H, A>, AllocError>
    requires within { IsWithin config.now }
    requires few { length H.opened ≤ Limits.ELEMENTS }
    requires run { config.now.pes ≡ H.pes }
    requires in_order { map (λ pe. pe.me) ends.items ≡ range_with_len 0 H.pes }
    requires queues { length (map (λ q. q.items) left.items) ≡ H.pes }
    requires account { IsRunAccount C.step H.opened (left_world ends.items (map (λ q. q.items) left.items)) }
    requires histories { AreHistories C.step C.fits C.pack H.opened (left_world ends.items (map (λ q. q.items) left.items)) }
    requires elements { elements board.database ≡ length H.opened }
    requires on_pes { board.pes ≡ H.pes }
    requires by_strategy { board.strategy ≡ H.strategy }
    requires earlier_rounds { board.rounds ≡ H.earlier }
    ensures capacity { IfOk result (λ o. o.post.capacity ≡ config.now.capacity) }
    ensures starts { IfOk result (λ o. o.starts ≡ all_reopened config.now.pes ends.items (map (λ q. q.items) left.items)) }
{
    let n = board_len(&board);
    let states = reopen_all(alloc, config.pes, ends, left)?;
    let words = words_of::<C, H, A>(alloc, config, n, &states)?;
    let (post, seats) = post_of::<C, H, A>(alloc, config)?;
    Ok(OpenedRun::of_parts(post, seats, states, words, board))
}

// How many elements a board has.
fn board_len<A: Allocator>(board: &Board<A>) -> u32
    requires few { elements board.now.database ≤ Limits.ELEMENTS }
    ensures value { result ≡ elements board.now.database }
{
    board.len() as u32
}

// The location words of elements on PEs that open again, which begin as `places_of` says. No contract says what stands in a word, since
// every thread may change it.
fn words_of<C: Chare<A>, H: Openings<C> + BoardStart<A>, A: Allocator + Copy>(
    alloc: A,
    config: &Config,
    n: u32,
    states: &[PeState<C, H, A>],
) -> Result<Locations<OfRun<C, H>, A>, AllocError>
    requires within { IsWithin config.now }
    requires few { n ≤ Limits.ELEMENTS }
    requires run { config.now.pes ≡ H.pes }
    requires array { n ≡ length H.opened }
    ensures pes { IfOk result (λ words. words.pes ≡ H.pes) }
    ensures elements { IfOk result (λ words. words.elements ≡ n) }
{
    let places = places_of::<C, H, A>(alloc, n, Pes::of(config.pes), states)?;
    let words = Locations::new(alloc, &places, config.pes)?;
    Ok(words)
}

// The queues of the run, with a seat for each PE.
fn post_of<C: Chare<A>, H: Openings<C> + BoardStart<A>, A: Allocator + Copy>(
    alloc: A,
    config: &Config,
) -> Result<(Post<Parcel<C, H, A>, A>, Vec<Seat<Parcel<C, H, A>, A>, A>), AllocError>
    requires within { IsWithin config.now }
    requires run { config.now.pes ≡ H.pes }
    ensures served { IfOk result (λ made. pes made.0 ≡ H.pes) }
    ensures capacity { IfOk result (λ made. made.0.capacity ≡ config.now.capacity) }
    ensures shared { IfOk result (λ made. length (map (λ s. s.seats) made.1.items) ≡ H.pes) }
    ensures new { IfOk result (λ made. AreNewSeats made.0 made.1.items) }
    ensures all_seats { IfOk result (λ made. sum_by (λ n. n) (map (λ s. s.seats) made.1.items) ≡ SEATS) }
{
    let (post, seats) = open_post::<C, H, A>(alloc, config)?;
    Ok((post, seats))
}
