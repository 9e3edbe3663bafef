//! The account of a world: how many letters there are of each kind.

ghost use Rattle.std.specs.Prelude.{◌≡◌, ◌+◌, ◌*◌, ◌^◌, ◌<◌, ◌≤◌, length, sum_by};
ghost use Rattle.std.specs.List.{flat_map};
ghost use Rattle.std.specs.Option.{option_to_list};
ghost use Rattle.rts_core.specs.Places.{letters_in, letters_at};

use crate::queue::Queue;
use chare_index::Limits;
use chares::{Carried, Chare, Openings};
use pe_state::{HeldParcel, Item, Parcel, PeEnd, PeState};
use std::alloc::Allocator;

/// How many letters of a world were posted, how many of them were executed, and how many are held. A letter is held while
/// it is in a queue, a hand or an outbox, or on a shelf; an element on its way does not count as a letter.
#[derive(Clone, Copy, Debug, PartialEq, Eq)]
pub struct Account {
    /// Those that the PEs have posted.
    pub posted: u64,
    /// Those that elements have executed, wherever these are.
    pub executed: u64,
    /// Those that are in some place, as yet not executed.
    pub held: u64,
}

/// How many letters these PEs have posted.
pub(crate) fn posted_by<C: Chare<A>, H: Openings<C>, A: Allocator>(pes: &[PeState<C, H, A>]) -> u64
    requires few_pes { length pes.now ≤ Limits.PES }
    ensures value { result ≡ sum_by (λ pe. pe.count) pes.now }
    ensures few { result ≤ Limits.PES * Limits.LETTERS }
{
    let mut posted = 0;
    for pe in pes {
        posted += pe.as_end().count();
    }
    posted
}

/// How many letters these PEs hold.
pub(crate) fn held_by<C: Chare<A>, H: Openings<C>, A: Allocator>(pes: &[PeState<C, H, A>]) -> u64
    requires few { length (flat_map letters_at pes.now) < 2 ^ 64 }
    ensures value { result ≡ length (flat_map letters_at pes.now) }
{
    let mut held = 0;
    for pe in pes {
        held += held_on(pe.as_end());
    }
    held
}

/// How many letters wait in these queues.
pub(crate) fn queued_in<C: Chare<A>, H: Openings<C>, A: Allocator>(queues: &[Queue<C, H, A>]) -> u64
    requires few { length (flat_map (flat_map letters_in) queues.now) < 2 ^ 64 }
    ensures value { result ≡ length (flat_map (flat_map letters_in) queues.now) }
{
    let mut queued = 0;
    for queue in queues {
        let (front, back) = queue.parcels().as_slices();
        queued += among(front) + among(back);
    }
    queued
}

/// How many letters a PE holds.
#[tactic(auto, using(crate::proofs::Counts::parts))]
pub fn held_on<C: Chare<A>, A: Allocator>(pe: &PeEnd<C, A>) -> u64
    requires few { length (letters_at pe.now) < 2 ^ 64 }
    ensures value { result ≡ length (letters_at pe.now) }
{
    in_hand(pe) + in_outbox(pe) + pe.shelf().len() as u64
}

// How many letters are in the hand of a PE.
#[tactic(auto, using(crate::proofs::Counts::hand_one))]
fn in_hand<C: Chare<A>, A: Allocator>(pe: &PeEnd<C, A>) -> u64
    ensures value { result ≡ length (flat_map (λ x. letters_in x.parcel) (option_to_list pe.now.hand)) }
{
    let Some(item) = pe.hand() else {
        return 0;
    };
    letters_held(&item.parcel)
}

// How many letters are in the outbox of a PE.
fn in_outbox<C: Chare<A>, A: Allocator>(pe: &PeEnd<C, A>) -> u64
    requires few { length (flat_map (λ x. letters_in x.parcel) pe.now.outbox) < 2 ^ 64 }
    ensures value { result ≡ length (flat_map (λ x. letters_in x.parcel) pe.now.outbox) }
{
    let (front, back) = pe.outbox().as_slices();
    addressed(front) + addressed(back)
}

// How many of these items, which a PE holds in its outbox, are letters.
fn addressed<A: Allocator>(items: &[Item<A>]) -> u64
    requires few { length (flat_map (λ x. letters_in x.parcel) items.now) < 2 ^ 64 }
    ensures value { result ≡ length (flat_map (λ x. letters_in x.parcel) items.now) }
{
    let mut letters = 0;
    for item in items {
        letters += letters_held(&item.parcel);
    }
    letters
}

// How many of these parcels are letters.
fn among<C: Chare<A>, H: Openings<C>, A: Allocator>(parcels: &[Parcel<C, H, A>]) -> u64
    requires few { length (flat_map letters_in parcels.now) < 2 ^ 64 }
    ensures value { result ≡ length (flat_map letters_in parcels.now) }
{
    let mut letters = 0;
    for parcel in parcels {
        letters += letters_of(parcel);
    }
    letters
}

// How many letters a parcel counts as: one, or none where it is an element.
fn letters_of<C: Chare<A>, H: Openings<C>, A: Allocator>(parcel: &Parcel<C, H, A>) -> u64
    ensures value { result ≡ length (letters_in parcel.now) }
{
    let Carried::Letter(_) = parcel else {
        return 0;
    };
    1
}

/// How many letters a parcel counts as that a PE holds: one, or none where it is an element.
pub fn letters_held<A: Allocator>(parcel: &HeldParcel<A>) -> u64
    ensures value { result ≡ length (letters_in parcel.now) }
{
    let Carried::Letter(_) = parcel else {
        return 0;
    };
    1
}
