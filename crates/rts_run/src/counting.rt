//! How many letters a run left.

ghost use Rattle.std.specs.Prelude.{◌≡◌, ◌+◌, ◌*◌, ◌^◌, ◌<◌, ◌≤◌, length, map, sum_by};
ghost use Rattle.std.specs.List.{flat_map};
ghost use Rattle.rts_core.specs.Places.{letters_in, letters_at};

use chare_index::Limits;
use chares::Chare;
use pe_state::{HeldParcel, PeEnd};
use rts_core::{held_on, letters_held};
use std::alloc::Allocator;

/// How many letters these PEs have posted.
pub(crate) fn posted_by<C: Chare<A>, A: Allocator>(ends: &[PeEnd<C, A>]) -> u64
    requires few_pes { length ends.now ≤ Limits.PES }
    ensures value { result ≡ sum_by (λ pe. pe.count) ends.now }
    ensures few { result ≤ Limits.PES * Limits.LETTERS }
{
    let mut posted = 0;
    for end in ends {
        posted += end.count();
    }
    posted
}

/// How many letters these PEs hold.
pub(crate) fn held_by<C: Chare<A>, A: Allocator>(ends: &[PeEnd<C, A>]) -> u64
    requires few { length (flat_map letters_at ends.now) < 2 ^ 64 }
    ensures value { result ≡ length (flat_map letters_at ends.now) }
{
    let mut held = 0;
    for end in ends {
        held += held_on(end);
    }
    held
}

/// How many letters are left in these queues.
pub(crate) fn queued_in<A: Allocator>(queues: &[Vec<HeldParcel<A>, A>]) -> u64
    requires few { length (flat_map (flat_map letters_in) (map (λ q. q.items) queues.now)) < 2 ^ 64 }
    ensures value { result ≡ length (flat_map (flat_map letters_in) (map (λ q. q.items) queues.now)) }
{
    let mut queued = 0;
    for queue in queues {
        queued += among(queue);
    }
    queued
}

// How many of these parcels are letters.
fn among<A: Allocator>(parcels: &[HeldParcel<A>]) -> u64
    requires few { length (flat_map letters_in parcels.now) < 2 ^ 64 }
    ensures value { result ≡ length (flat_map letters_in parcels.now) }
{
    let mut letters = 0;
    for parcel in parcels {
        letters += letters_held(parcel);
    }
    letters
}
