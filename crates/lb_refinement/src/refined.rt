//! A decision within a tolerance, with what proves it.

ghost use Rattle.std.specs.Prelude.{◌≡◌};
ghost use Rattle.lb_strategy.specs.Moves.{planned_pe, HasPlace};
ghost use Rattle.lb_refinement.specs.Refined.{refined_bottleneck, refined_cuts, refined_least, refined_moved, refined_moves, refined_names, refined_prices};

use crate::nearness::Nearness;
use crate::places::block_around;
use chare_index::{Index, Pe};
use lb_certificates::{Division, Prices};
use lb_strategy::{Decision, Moves};
use std::alloc::{Allocator, Global};

/// What a balancing step decides within a tolerance: a decision, and what proves that it moves few bytes. Where that is not the
/// decision of [`plan`](lb_strategy::plan), its bottleneck may be above the least possible one, and its floor is
/// [`Floor::Zero`](lb_certificates::Floor::Zero), which claims nothing.
#[derive(Drop)]
#[derive_where(Debug)]
pub struct Refined<A: Allocator = Global> {
    /// The decision.
    pub decision: Decision<A>,
    /// What proves it.
    pub nearness: Nearness<A>,
}

impl<A: Allocator> Refined<A> {
    /// The division whose greatest load is the least possible one, with the proof of that. The tolerance is measured from it.
    pub fn least(&self) -> &Division<A>
        ensures value { result.now ≡ refined_least self.now }
    {
        match &self.nearness {
            Nearness::Planned => &self.decision.division,
            Nearness::InOrder(proof) => &proof.least,
            Nearness::InAnyOrder(proof) => &proof.least,
        }
    }

    /// The greatest load of a block.
    pub fn bottleneck(&self) -> u64
        ensures value { result ≡ refined_bottleneck self.now }
    {
        self.decision.division.bottleneck
    }

    /// Where the blocks begin and end.
    pub fn cuts(&self) -> &[u32]
        ensures value { result.now ≡ refined_cuts self.now }
    {
        self.decision.division.cuts.as_slice()
    }

    /// The PE of each block.
    pub fn names(&self) -> &[u32]
        ensures value { result.now ≡ refined_names self.now }
    {
        self.decision.naming.as_slice()
    }

    /// The proof that no naming of these blocks moves fewer bytes. There is none where the names are those of an order that is kept,
    /// or were found together with the cuts.
    pub fn prices(&self) -> &Prices<A>
        ensures value { result.now ≡ refined_prices self.now }
    {
        &self.decision.prices
    }

    /// The packed bytes of all elements that move.
    pub fn moved(&self) -> u64
        ensures value { result ≡ refined_moved self.now }
    {
        self.decision.moved
    }

    /// The elements that move, in order of index.
    pub fn moves(&self) -> &Moves<A>
        ensures value { result.now ≡ refined_moves self.now }
    {
        &self.decision.moves
    }

    /// The PE on which an element is to run, in time that grows with the logarithm of the number of blocks. It may be called
    /// for each element of the snapshot of the decision.
    pub fn place_of(&self, index: Index) -> Pe
        requires placed { HasPlace (refined_cuts self.now) (refined_names self.now) index }
        ensures value { result ≡ planned_pe (refined_cuts self.now) (refined_names self.now) index }
    {
        let block = block_around(self.cuts(), index.get());
        Pe::new(self.names()[block]).unwrap()
    }
}
