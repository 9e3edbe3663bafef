//! A run that was stopped before its first event, with each element on its given PE.

ghost use Rattle.std.specs.Prelude.{◌≡◌, ◌+◌, ◌<◌, ◌≤◌, All, IfOk, OnOk, Some, [], length, map, replicate, slice_get};
ghost use Rattle.std.specs.List.{range_with_len};
ghost use Rattle.std.specs.Map.{keys_of};
ghost use Rattle.sync_board.specs.Boards.{new_board};
ghost use Rattle.pe_state.specs.Histories.{HasHistories};
ghost use Rattle.pe_state.specs.Pes.{new_pe};
ghost use Rattle.pe_worker.specs.declared.fault.Fault.TheVariants.{Stopped};
ghost use Rattle.rts_core.specs.Worlds.{placed_on};
ghost use Rattle.rts_run.specs.Outcomes.{IsOutcome};
ghost use Rattle.placed_runs.specs.Placed.{each_placed, placed_pes};

use chare_index::{Index, Limits, Pe, Pes};
use chares::{Chare, Openings};
use pe_state::{HeldParcel, PeEnd, PeState};
use pe_worker::Fault;
use rts_run::Outcome;
use run_account::take_next;
use std::alloc::{AllocError, Allocator};
use std::collections::VecDeque;
use std::marker::Brand;
use sync_board::{Board, Strategy};

/// The outcome of a run that was stopped before its first event: chare `i` stands, not started, as element `i` on the PE
/// `places[i]`, which is its home; nothing was posted, every queue is empty, and no round was decided. There is a place for each chare,
/// and each is one of the PEs.
///
/// # Errors
///
/// The only one is that memory was refused. The chares and the places are dropped then.
pub fn placed_outcome<C: Chare<A>, A: Allocator + Copy>(
    alloc: A,
    pes: Pes,
    strategy: Strategy,
    chares: Vec<C, A>,
    places: Vec<Pe, A>,
) -> Result<Outcome<C, A>, AllocError>
    requires few { length chares.items ≤ Limits.ELEMENTS }
    requires one_each { length places.items ≡ length chares.items }
    requires named { All (λ q. q < pes) places.items }
    ensures outcome { IfOk result (IsOutcome C.step C.fits C.pack C.refuses chares.items pes strategy) }
    ensures fault { IfOk result (λ o. o.fault ≡ Some Stopped) }
    ensures placed { IfOk result (λ o. o.ends ≡ placed_pes pes places.items chares.items) }
    ensures left { IfOk result (λ o. o.left ≡ replicate pes []) }
    ensures board { IfOk result (λ o. o.board ≡ new_board (length chares.items) pes strategy) }
    ensures homes { IfOk result (λ o. o.homes ≡ places.items) }
{
    outcome_as::<C, Brand, A>(alloc, pes, strategy, chares, places)
}

// Makes the outcome. `H` is the type that names the chares with which the run opened.
fn outcome_as<C: Chare<A>, H: Openings<C>, A: Allocator + Copy>(
    alloc: A,
    pes: Pes,
    strategy: Strategy,
    chares: Vec<C, A>,
    places: Vec<Pe, A>,
) -> Result<Outcome<C, A>, AllocError>
    requires run { pes ≡ H.pes }
    requires opened { chares.items ≡ H.opened }
    requires few { length chares.items ≤ Limits.ELEMENTS }
    requires one_each { length places.items ≡ length chares.items }
    requires named { All (λ q. q < pes) places.items }
    ensures outcome { IfOk result (IsOutcome C.step C.fits C.pack C.refuses chares.items pes strategy) }
    ensures fault { IfOk result (λ o. o.fault ≡ Some Stopped) }
    ensures placed { IfOk result (λ o. o.ends ≡ placed_pes pes places.items chares.items) }
    ensures left { IfOk result (λ o. o.left ≡ replicate pes []) }
    ensures board { IfOk result (λ o. o.board ≡ new_board (length chares.items) pes strategy) }
    ensures homes { IfOk result (λ o. o.homes ≡ places.items) }
{
    let n = chares.len() as u32;
    let board = Board::with_strategy(alloc, n, pes.get(), strategy)?;
    let left = no_parcels(alloc, pes)?;
    let ends = placed_ends::<C, H, A>(alloc, pes, chares, &places)?;
    Ok(Outcome::new(places, ends, left, board, Some(Fault::Stopped)))
}

// What each PE holds, with each element on its given PE.
fn placed_ends<C: Chare<A>, H: Openings<C>, A: Allocator + Copy>(
    alloc: A,
    pes: Pes,
    chares: Vec<C, A>,
    places: &[Pe],
) -> Result<Vec<PeEnd<C, A>, A>, AllocError>
    requires run { pes ≡ H.pes }
    requires opened { chares.items ≡ H.opened }
    requires few { length chares.items ≤ Limits.ELEMENTS }
    requires one_each { length places.now ≡ length chares.items }
    requires named { All (λ q. q < pes) places.now }
    ensures value { IfOk result (λ ends. ends.items ≡ placed_pes pes places.now chares.items) }
    ensures histories { IfOk result (λ ends. All (HasHistories C.step C.fits C.pack chares.items) ends.items) }
{
    let n = chares.len() as u32;
    let mut made = bare_pes::<C, H, A>(alloc, pes, n)?;
    place_all(&mut made, chares, places)?;
    let ends = ends_of(alloc, made)?;
    Ok(ends)
}

// The PEs before any element is placed.
fn bare_pes<C: Chare<A>, H: Openings<C>, A: Allocator + Copy>(
    alloc: A,
    pes: Pes,
    n: u32,
) -> Result<Vec<PeState<C, H, A>, A>, AllocError>
    requires run { pes ≡ H.pes }
    requires array { n ≡ length H.opened }
    requires few { n ≤ Limits.ELEMENTS }
    ensures value { IfOk result (λ made. made.items ≡ map (λ q. new_pe q n) (range_with_len 0 pes)) }
{
    let count = pes.get();
    let mut made = Vec::new(alloc);
    for q in 0..count {
        let me = pe_at(q);
        made.push(PeState::new(alloc, me, count, n))?;
    }
    Ok(made)
}

// The PE with this number.
fn pe_at(q: u32) -> Pe
    requires { q < Limits.PES }
    ensures value { result ≡ q }
{
    Pe::new(q).unwrap()
}

// Places each chare on its given PE.
fn place_all<C: Chare<A>, H: Openings<C>, A: Allocator + Copy>(
    pes: &mut Vec<PeState<C, H, A>, A>,
    chares: Vec<C, A>,
    places: &[Pe],
) -> Result<(), AllocError>
    requires few { length H.opened ≤ Limits.ELEMENTS }
    requires opened { chares.items ≡ H.opened }
    requires one_each { length places.now ≡ length chares.items }
    requires named { All (λ q. q < length pes.old.items) places.now }
    requires empty { All (λ pe. All (λ k. k < 0) (keys_of pe.room)) pes.old.items }
    ensures placed { OnOk result (pes.new.items ≡ each_placed pes.old.items 0 chares.items places.now) }
    ensures counted { length pes.new.items ≡ length pes.old.items }
{
    let mut left = VecDeque::from_vec(chares);
    let mut e = 0;
    while let Some(chare) = take_next(&mut left) {
        let index = index_at(e);
        place_told(pes, index, chare, places[e as usize])?;
        e += 1;
    }
    Ok(())
}

// The index with this number.
fn index_at(e: u32) -> Index
    requires { e < Limits.ELEMENTS }
    ensures value { result ≡ e }
{
    Index::new(e).unwrap()
}

// Places a chare as an element on this PE, where only elements before it have been placed.
#[tactic(auto, using(std::proofs::lemmas::Option::gets))]
fn place_told<C: Chare<A>, H: Openings<C>, A: Allocator + Copy>(
    pes: &mut Vec<PeState<C, H, A>, A>,
    index: Index,
    chare: C,
    place: Pe,
) -> Result<(), AllocError>
    requires inside { place < length pes.old.items }
    requires opens { slice_get H.opened index ≡ Some chare }
    requires before { All (λ pe. All (λ k. k < index) (keys_of pe.room)) pes.old.items }
    ensures placed { OnOk result (pes.new.items ≡ placed_on pes.old.items place index chare (slice_get pes.old.items place)) }
    ensures counted { length pes.new.items ≡ length pes.old.items }
    ensures before { OnOk result (All (λ pe. All (λ k. k < index + 1) (keys_of pe.room)) pes.new.items) }
{
    let q = place.get() as usize;
    pes[q].place(index, chare)
}

// What each of these PEs holds.
fn ends_of<C: Chare<A>, H: Openings<C>, A: Allocator>(
    alloc: A,
    states: Vec<PeState<C, H, A>, A>,
) -> Result<Vec<PeEnd<C, A>, A>, AllocError>
    ensures value { IfOk result (λ ends. ends.items ≡ states.items) }
    ensures histories { IfOk result (λ ends. All (HasHistories C.step C.fits C.pack H.opened) ends.items) }
{
    let mut ends = Vec::with_capacity(alloc, states.len())?;
    let mut states = VecDeque::from_vec(states);
    while let Some(state) = take_next(&mut states) {
        ends.push(state.into_end())?;
    }
    Ok(ends)
}

// No parcel in the queue of each PE.
fn no_parcels<A: Allocator + Copy>(
    alloc: A,
    pes: Pes,
) -> Result<Vec<Vec<HeldParcel<A>, A>, A>, AllocError>
    ensures value { IfOk result (λ left. map (λ q. q.items) left.items ≡ replicate pes []) }
{
    let mut left = Vec::new(alloc);
    for _q in 0..pes.get() {
        left.push(Vec::new(alloc))?;
    }
    Ok(left)
}
