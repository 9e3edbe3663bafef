//! A copy of one round's places, which a worker reads without taking the lock.

ghost use Rattle.std.specs.Prelude.{◌≡◌, ◌+◌, ◌<◌, ◌≤◌, length, vec_capacity, IfOk, IfSome};
ghost use Rattle.barrier.specs.Places.{ArePlaces, no_places, place_among};

use crate::board_size::BoardSize;
use chare_index::{Index, Limits, Pe, Round};
use lb_refinement::block_around;
use std::alloc::{AllocError, Allocator, Global};
use std::marker::{Model, PhantomData};

/// A copy of the places of one round. [`RunBoard::copy_places`](crate::RunBoard) makes it under the lock, and it is then
/// read without the lock: the decision of a round never changes. Its capacity is reserved when it is made, so no copy
/// takes memory. Contracts see it as the record `PlacesView`.
#[derive(Drop)]
pub struct RoundPlaces<J: BoardSize<A>, A: Allocator = Global> {
    // Which round's places these are, or 0 before the first copy.
    round: Round,
    // Where the elements are cut into blocks. There are none before the first copy.
    cuts: Vec<u32, A>,
    // The PE of each block.
    names: Vec<u32, A>,
    size: PhantomData<J>,
}

impl<J: BoardSize<A>, A: Allocator> Model for RoundPlaces<J, A> {
    ghost use Rattle.std.specs.Prelude.{◌+◌, ◌≤◌, ◌<◌, vec_capacity};
    ghost use Rattle.chare_index.specs.declared.limits.TheConstants.Limits.{ROUND};
    ghost use Rattle.barrier.specs.Places.{ArePlaces, PlacesView};

    ghost Value = { PlacesView };

    ghost view = { λ p. record { round = p.round; cuts = p.cuts.items; names = p.names.items } };

    ghost invariant = { λ p.
        (p.round < ROUND) × ArePlaces J.pes p.cuts.items p.names.items
        × (J.pes + 1 ≤ vec_capacity p.cuts) × (J.pes ≤ vec_capacity p.names) };
}

impl<J: BoardSize<A>, A: Allocator> RoundPlaces<J, A> {
    /// Capacity for the places of a round, and no places yet. The only error is that memory was refused.
    pub fn new(alloc: A, pes: u32) -> Result<Self, AllocError>
    where
        A: Copy,
        requires on_pes { pes ≡ J.pes }
        ensures made { IfOk result (λ places. places ≡ no_places) }
    {
        let cuts = Vec::with_capacity(alloc, pes as usize + 1)?;
        let names = Vec::with_capacity(alloc, pes as usize)?;
        Ok(RoundPlaces {
            round: Round::new(0).unwrap(),
            cuts,
            names,
            size: PhantomData,
        })
    }

    /// The round of these places: that of the last copy, or 0 before the first.
    pub fn round(&self) -> Round
        ensures value { result ≡ self.now.round }
    {
        self.round
    }

    /// The place of an element in that round, which is one of the run's PEs, or `None` where there is no such element or
    /// no copy yet. The block of the element is found by binary search.
    pub fn place_of(&self, i: Index) -> Option<Pe>
        ensures value { result ≡ place_among self.now i }
        ensures below { IfSome result (λ pe. pe < J.pes) }
        ensures before_last_round { IfSome result (λ pe. self.now.round < Limits.ROUND) }
    {
        let i = i.get();
        if *self.cuts.last()? <= i {
            return None;
        }
        Pe::new(self.names[block_around(&self.cuts, i)])
    }

    // Becomes a copy of these places, which are those of a round before the last.
    pub(crate) fn copy(&mut self, round: Round, cuts: &[u32], names: &[u32])
        requires not_last { round < Limits.ROUND }
        requires for_pes { ArePlaces J.pes cuts.now names.now }
        ensures copied { self.new ≡ record { round = round; cuts = cuts.now; names = names.now } }
    {
        self.round = round;
        copy_list(&mut self.cuts, cuts);
        copy_list(&mut self.names, names);
    }
}

// Makes a list a copy of another, for which it has the capacity.
fn copy_list<A: Allocator>(list: &mut Vec<u32, A>, from: &[u32])
    requires room { length from.now ≤ vec_capacity list.old }
    ensures items { list.new.items ≡ from.now }
    ensures capacity { vec_capacity list.new ≡ vec_capacity list.old }
{
    list.clear();
    for item in from {
        list.push_reserved(*item);
    }
}
