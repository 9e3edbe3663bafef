//! The PEs of a run that is carried on, and where its elements are.

ghost use Rattle.std.specs.Prelude.{◌≡◌, ◌<◌, ◌≤◌, All, IfOk, length, map, slice_set};
ghost use Rattle.std.specs.List.{flat_map};
ghost use Rattle.std.specs.Map.{values_of};
ghost use Rattle.std.specs.Option.{option_to_list};
ghost use Rattle.pe_state.specs.Histories.{HasHistories, IsParcelHistory};
ghost use Rattle.rts_core.specs.Worlds.{opening_words};
ghost use Rattle.run_account.specs.Noting.{with_noted};
ghost use Rattle.run_account.specs.Reopenings.{all_reopened};
ghost use Rattle.carried_runs.specs.Places.{goes_to, sighted_in, sightings};

use chare_index::{Index, Limits, Pe, Pes};
use chares::{Carried, Chare, Openings};
use pe_state::{HeldParcel, Item, PeEnd, PeState};
use rts_core::opening_words;
use run_account::take_next;
use std::alloc::{AllocError, Allocator};
use std::collections::VecDeque;

/// Opens each PE again, with what its queue still held. The only error is that memory was refused.
pub(crate) fn reopen_all<C: Chare<A>, H: Openings<C>, A: Allocator + Copy>(
    alloc: A,
    pes: u32,
    ends: Vec<PeEnd<C, A>, A>,
    left: Vec<Vec<HeldParcel<A>, A>, A>,
) -> Result<Vec<PeState<C, H, A>, A>, AllocError>
    requires run { pes ≡ H.pes }
    requires few { length H.opened ≤ Limits.ELEMENTS }
    requires members { All (λ pe. pe.me < pes) ends.items }
    requires histories { All (HasHistories C.step C.fits C.pack H.opened) ends.items }
    requires queues { All (λ queue. All (IsParcelHistory C.step C.fits C.pack H.opened) queue.items) left.items }
    requires one_each { length ends.items ≡ length left.items }
    ensures value { IfOk result (λ states. states.items ≡ all_reopened pes ends.items (map (λ q. q.items) left.items)) }
{
    let mut states = Vec::with_capacity(alloc, ends.len())?;
    let (mut ends, mut left) = (VecDeque::from_vec(ends), VecDeque::from_vec(left));
    while let Some(end) = take_next(&mut ends) {
        let Some(queue) = take_next(&mut left) else {
            unreachable!()
        };
        states.push(PeState::reopen(alloc, end, queue, pes)?)?;
    }
    Ok(states)
}

/// The PE where each of `n` elements is to be looked for: its home, as a run opens, or where the PE that has it keeps it or sends it
/// (`value`). The only error is that memory was refused.
pub(crate) fn places_of<C: Chare<A>, H: Openings<C>, A: Allocator + Copy>(
    alloc: A,
    n: u32,
    pes: Pes,
    states: &[PeState<C, H, A>],
) -> Result<Vec<Pe, A>, AllocError>
    requires few { n ≤ Limits.ELEMENTS }
    requires run { pes ≡ H.pes }
    ensures value { IfOk result (λ places. places.items ≡ with_noted (opening_words n H.pes) (flat_map (sightings H.pes) states.now)) }
    ensures counted { IfOk result (λ places. length places.items ≡ n) }
    ensures named { IfOk result (λ places. All (λ q. q < H.pes) places.items) }
{
    let mut places = homes_of::<C, H, A>(alloc, n, pes)?;
    note_all(&mut places, states);
    Ok(places)
}

// The PE where each of `n` elements opens. The only error is that memory was refused.
fn homes_of<C, H: Openings<C>, A: Allocator>(
    alloc: A,
    n: u32,
    pes: Pes,
) -> Result<Vec<Pe, A>, AllocError>
    requires few { n ≤ Limits.ELEMENTS }
    requires run { pes ≡ H.pes }
    ensures value { IfOk result (λ places. places.items ≡ opening_words n H.pes) }
    ensures counted { IfOk result (λ places. length places.items ≡ n) }
    ensures named { IfOk result (λ places. All (λ q. q < H.pes) places.items) }
{
    let places = opening_words(alloc, n, pes)?;
    Ok(places)
}

// Notes the elements of these PEs.
fn note_all<C: Chare<A>, H: Openings<C>, A: Allocator>(
    places: &mut [Pe],
    states: &[PeState<C, H, A>],
)
    requires named { All (λ q. q < H.pes) places.old }
    ensures noted { places.new ≡ with_noted places.old (flat_map (sightings H.pes) states.now) }
    ensures named { All (λ q. q < H.pes) places.new }
{
    for state in states {
        note_pe(places, state);
    }
}

// Notes the elements of a PE.
#[tactic(auto, using(run_account::proofs::Noting::noted_append))]
fn note_pe<C: Chare<A>, H: Openings<C>, A: Allocator>(places: &mut [Pe], state: &PeState<C, H, A>)
    requires named { All (λ q. q < H.pes) places.old }
    ensures noted { places.new ≡ with_noted places.old (sightings H.pes state.now) }
    ensures named { All (λ q. q < H.pes) places.new }
{
    note_standing(places, state);
    note_hand(places, state);
    note_outbox(places, state);
}

// Notes that this element is at this PE, if there is such an element.
fn note_place<C, H: Openings<C>>(places: &mut [Pe], element: Index, pe: Pe)
    requires below { pe < H.pes }
    requires named { All (λ q. q < H.pes) places.old }
    ensures noted { places.new ≡ slice_set places.old element pe }
    ensures named { All (λ q. q < H.pes) places.new }
{
    let at = element.get() as usize;
    if places.len() <= at {
        return;
    }
    places[at] = pe;
}

// Notes the elements that stand in the room of a PE.
fn note_standing<C: Chare<A>, H: Openings<C>, A: Allocator>(
    places: &mut [Pe],
    state: &PeState<C, H, A>,
)
    requires named { All (λ q. q < H.pes) places.old }
    ensures noted { places.new ≡ with_noted places.old (map (λ el. (el.index, state.now.me)) (values_of state.now.room)) }
    ensures named { All (λ q. q < H.pes) places.new }
{
    let me = state.me();
    for (_, element) in state.room().iter() {
        note_place::<C, H>(places, element.index(), me);
    }
}

// Notes the element that has just come to a PE, if one has.
fn note_hand<C: Chare<A>, H: Openings<C>, A: Allocator>(places: &mut [Pe], state: &PeState<C, H, A>)
    requires named { All (λ q. q < H.pes) places.old }
    ensures noted { places.new ≡ with_noted places.old (flat_map (sighted_in H.pes state.now.me) (option_to_list state.now.hand)) }
    ensures named { All (λ q. q < H.pes) places.new }
{
    let Some(item) = state.as_end().hand() else {
        return;
    };
    note_item(places, state, item);
}

// Notes the elements that are to leave a PE.
fn note_outbox<C: Chare<A>, H: Openings<C>, A: Allocator>(
    places: &mut [Pe],
    state: &PeState<C, H, A>,
)
    requires named { All (λ q. q < H.pes) places.old }
    ensures noted { places.new ≡ with_noted places.old (flat_map (sighted_in H.pes state.now.me) state.now.outbox) }
    ensures named { All (λ q. q < H.pes) places.new }
{
    let (front, back) = state.as_end().outbox().as_slices();
    note_items(places, state, front);
    note_items(places, state, back);
}

// Notes the elements of these parcels.
fn note_items<C: Chare<A>, H: Openings<C>, A: Allocator>(
    places: &mut [Pe],
    state: &PeState<C, H, A>,
    items: &[Item<A>],
)
    requires named { All (λ q. q < H.pes) places.old }
    ensures noted { places.new ≡ with_noted places.old (flat_map (sighted_in H.pes state.now.me) items.now) }
    ensures named { All (λ q. q < H.pes) places.new }
{
    for item in items {
        note_item(places, state, item);
    }
}

// Notes the element of a parcel, if it is one: at the PE that it goes to, if it goes to one.
fn note_item<C: Chare<A>, H: Openings<C>, A: Allocator>(
    places: &mut [Pe],
    state: &PeState<C, H, A>,
    item: &Item<A>,
)
    requires named { All (λ q. q < H.pes) places.old }
    ensures noted { places.new ≡ with_noted places.old (sighted_in H.pes state.now.me item.now) }
    ensures named { All (λ q. q < H.pes) places.new }
{
    let Carried::Element(element) = &item.parcel else {
        return;
    };
    let to = destination(state, item.address);
    note_place::<C, H>(places, element.index(), to);
}

// Where a PE sends a parcel with this address.
fn destination<C: Chare<A>, H: Openings<C>, A: Allocator>(
    state: &PeState<C, H, A>,
    address: Option<Pe>,
) -> Pe
    ensures value { result ≡ goes_to H.pes state.now.me address }
    ensures below { result < H.pes }
{
    match address {
        Some(q) if q.get() < state.pes() => q,
        _ => state.me(),
    }
}
