//! How a run opens: its PEs, the queue before each, and the location word of each element. A [`World`](crate::World) opens
//! so, and so does a run over threads, which has queues of its own.

ghost use Rattle.std.specs.Prelude.{◌≡◌, ◌+◌, ◌∷◌, ◌<◌, ◌≤◌, ℕ, List, [], length, Some, MatchOption, map, replicate, IfOk, OnOk, None, All, slice_get};
ghost use Rattle.std.specs.List.{range_with_len};
ghost use Rattle.std.specs.Map.{keys_of};
ghost use Rattle.chare_index.specs.declared.limits.TheConstants.Limits.{ELEMENTS, PES};
ghost use Rattle.pe_state.specs.Pes.{PeView, new_pe};
ghost use Rattle.pe_state.specs.Histories.{HasHistories};
ghost use Rattle.rts_core.specs.Worlds.{home, placed_on, all_placed, opening_pes, opening_words};

use crate::queue::Queue;
use chare_index::{Index, Limits, Pe, Pes, opening_pe};
use chares::{Chare, Openings};
use pe_state::PeState;
use std::alloc::{AllocError, Allocator};
use std::collections::VecDeque;

/// The PEs of a run as it opens: element `i` of `n`, not started, is on PE `i * pes / n`, rounded down. There are at
/// most 65,536 chares, which are those that the run opens with. Where memory is refused the chares are dropped.
pub fn opening_pes<C: Chare<A>, H: Openings<C>, A: Allocator + Copy>(
    alloc: A,
    pes: Pes,
    chares: Vec<C, A>,
) -> Result<Vec<PeState<C, H, A>, A>, AllocError>
    requires few { length chares.items ≤ Limits.ELEMENTS }
    requires run { pes ≡ H.pes }
    requires opened { chares.items ≡ H.opened }
    ensures value { IfOk result (λ made. made.items ≡ opening_pes pes chares.items) }
    ensures counted { IfOk result (λ made. length made.items ≡ pes) }
    ensures histories { IfOk result (λ made. All (HasHistories C.step C.fits C.pack H.opened) made.items) }
{
    let n = chares.len() as u32;
    let mut made = bare_pes(alloc, pes, n)?;
    place_all(&mut made, n, chares)?;
    Ok(made)
}

// The PEs before any element is placed.
#[tactic(auto, using(crate::proofs::Openings::list_more))]
fn bare_pes<C: Chare<A>, H: Openings<C>, A: Allocator + Copy>(
    alloc: A,
    pes: Pes,
    n: u32,
) -> Result<Vec<PeState<C, H, A>, A>, AllocError>
    requires run { pes ≡ H.pes }
    requires array { n ≡ length H.opened }
    requires few { n ≤ Limits.ELEMENTS }
    ensures value { IfOk result (λ made. made.items ≡ map (λ q. new_pe q n) (range_with_len 0 pes)) }
    ensures some_pe { IfOk result (λ made. 1 ≤ length made.items) }
    ensures few_pes { IfOk result (λ made. length made.items ≤ Limits.PES) }
{
    let count = pes.get();
    let mut made = Vec::new(alloc);
    for q in 0..count {
        let me = pe_at(q);
        made.push(PeState::new(alloc, me, count, n))?;
    }
    Ok(made)
}

// The PE with this number.
fn pe_at(q: u32) -> Pe
    requires { q < Limits.PES }
    ensures value { result ≡ q }
{
    Pe::new(q).unwrap()
}

/// An empty queue for each PE. The only error is that memory was refused.
pub fn opening_queues<C: Chare<A>, H: Openings<C>, A: Allocator + Copy>(
    alloc: A,
    pes: Pes,
) -> Result<Vec<Queue<C, H, A>, A>, AllocError>
    ensures value { IfOk result (λ made. made.items ≡ replicate pes []) }
{
    let mut made = Vec::new(alloc);
    for _q in 0..pes.get() {
        made.push(Queue::new(alloc))?;
    }
    Ok(made)
}

/// The location word of each of `n` elements as a run opens: the PE on which the element opens. There are at most 65,536
/// elements. The only error is that memory was refused.
#[tactic(auto, using(crate::proofs::Openings::home_below, crate::proofs::Openings::list_more))]
pub fn opening_words<A: Allocator>(alloc: A, n: u32, pes: Pes) -> Result<Vec<Pe, A>, AllocError>
    requires few { n ≤ Limits.ELEMENTS }
    ensures value { IfOk result (λ words. words.items ≡ opening_words n pes) }
    ensures named { IfOk result (λ words. All (λ q. q < pes) words.items) }
{
    let mut words = Vec::new(alloc);
    for e in 0..n {
        let index = Index::new(e).unwrap();
        words.push(opening_pe(index, n, pes.get()))?;
    }
    Ok(words)
}

// Places each chare on the PE on which it opens.
fn place_all<C: Chare<A>, H: Openings<C>, A: Allocator + Copy>(
    pes: &mut Vec<PeState<C, H, A>, A>,
    n: u32,
    chares: Vec<C, A>,
) -> Result<(), AllocError>
    requires few { n ≤ Limits.ELEMENTS }
    requires array { n ≡ length H.opened }
    requires opened { chares.items ≡ H.opened }
    requires some_pe { 1 ≤ length pes.old.items }
    requires few_pes { length pes.old.items ≤ Limits.PES }
    requires histories { All (HasHistories C.step C.fits C.pack H.opened) pes.old.items }
    requires empty { All (λ pe. All (λ k. k < 0) (keys_of pe.room)) pes.old.items }
    ensures all_placed { OnOk result (pes.new.items ≡ all_placed n pes.old.items 0 chares.items) }
    ensures counted { length pes.new.items ≡ length pes.old.items }
    ensures histories { OnOk result (All (HasHistories C.step C.fits C.pack H.opened) pes.new.items) }
{
    let mut left = VecDeque::from_vec(chares);
    let mut e = 0;
    while let Some(chare) = take_next(&mut left) {
        let index = index_at(e);
        place_home(pes, n, index, chare)?;
        e += 1;
    }
    Ok(())
}

// The index with this number.
fn index_at(e: u32) -> Index
    requires { e < Limits.ELEMENTS }
    ensures value { result ≡ e }
{
    Index::new(e).unwrap()
}

// The first of those that are left.
fn take_next<C: Drop, A: Allocator>(left: &mut VecDeque<C, A>) -> Option<C>
    ensures taken { MatchOption result ((left.old.items ≡ []) × (left.new.items ≡ [])) (λ chare. left.old.items ≡ chare ∷ left.new.items) }
{
    left.pop_front()
}

// Places a chare as an element of n, where only elements before it have been placed.
#[tactic(auto, using(crate::proofs::Openings::home_below, std::proofs::lemmas::Option::gets))]
fn place_home<C: Chare<A>, H: Openings<C>, A: Allocator + Copy>(
    pes: &mut Vec<PeState<C, H, A>, A>,
    n: u32,
    index: Index,
    chare: C,
) -> Result<(), AllocError>
    requires few { n ≤ Limits.ELEMENTS }
    requires element { index < n }
    requires opens { slice_get H.opened index ≡ Some chare }
    requires some_pe { 1 ≤ length pes.old.items }
    requires few_pes { length pes.old.items ≤ Limits.PES }
    requires histories { All (HasHistories C.step C.fits C.pack H.opened) pes.old.items }
    requires before { All (λ pe. All (λ k. k < index) (keys_of pe.room)) pes.old.items }
    ensures placed { OnOk result
        (pes.new.items ≡ placed_on pes.old.items (home index n (length pes.old.items)) index chare (slice_get pes.old.items (home index n (length pes.old.items)))) }
    ensures counted { length pes.new.items ≡ length pes.old.items }
    ensures histories { OnOk result (All (HasHistories C.step C.fits C.pack H.opened) pes.new.items) }
    ensures before { OnOk result (All (λ pe. All (λ k. k < index + 1) (keys_of pe.room)) pes.new.items) }
{
    let home = opening_pe(index, n, pes.len() as u32);
    let q = home.get() as usize;
    pes[q].place(index, chare)
}
