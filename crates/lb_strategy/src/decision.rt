//! A decision: the blocks, their names, the certificates, and the elements that move.

ghost use Rattle.std.specs.Prelude.{◌≡◌, IfOk};
ghost use Rattle.std.specs.List.Sorted.{IsNonDecreasing};
ghost use Rattle.lb_certificates.specs.Naming.{block_of};
ghost use Rattle.lb_strategy.specs.Moves.{planned_pe, HasPlace};

use crate::moves::Moves;
use chare_index::{Index, Pe};
use lb_certificates::{Division, Naming, Prices};
use std::alloc::{AllocError, Allocator, Global};

/// What a balancing step decides. It is plain data that may hold anything: [`check`](crate::check) says whether every part of
/// it is right.
#[derive(Drop)]
#[derive_where(Debug, PartialEq)]
pub struct Decision<A: Allocator = Global> {
    /// The elements cut into consecutive blocks.
    pub division: Division<A>,
    /// The PE on which each block runs.
    pub naming: Naming<A>,
    /// The proof that no naming moves fewer bytes.
    pub prices: Prices<A>,
    /// The packed bytes of all elements that move.
    pub moved: u64,
    /// The elements that move.
    pub moves: Moves<A>,
}

impl<A: Allocator + Copy> Clone for Decision<A> {
    ghost is_clone = { λ v w. w ≡ v };

    fn clone(&self) -> Result<Self, AllocError> {
        let (division, naming) = clone_blocks(self)?;
        let (prices, moves) = clone_lists(self)?;
        Ok(Decision {
            division,
            naming,
            prices,
            moved: self.moved,
            moves,
        })
    }
}

// Clones of the division and the naming. In two functions, so that fewer lists are owned at each early return.
fn clone_blocks<A: Allocator + Copy>(
    decision: &Decision<A>,
) -> Result<(Division<A>, Naming<A>), AllocError>
    ensures division { IfOk result (λ parts. parts.0 ≡ decision.now.division) }
    ensures naming { IfOk result (λ parts. parts.1 ≡ decision.now.naming) }
{
    let division = decision.division.clone()?;
    Ok((division, decision.naming.clone()?))
}

// Clones of the prices and the moves.
fn clone_lists<A: Allocator + Copy>(
    decision: &Decision<A>,
) -> Result<(Prices<A>, Moves<A>), AllocError>
    ensures prices { IfOk result (λ parts. parts.0 ≡ decision.now.prices) }
    ensures moves { IfOk result (λ parts. parts.1 ≡ decision.now.moves) }
{
    let prices = decision.prices.clone()?;
    Ok((prices, decision.moves.clone()?))
}

impl<A: Allocator> Decision<A> {
    /// The PE on which an element is to run: the name of its block. The cuts have to begin with 0 and must not decrease, the
    /// index has to be below the last cut, and its block has to have a name below 256, as holds for every element of a decision
    /// that [`check`](crate::check) accepts. The block is found by binary search, so the time grows with the logarithm of the
    /// number of blocks.
    pub fn place_of(&self, index: Index) -> Pe
        requires placed { HasPlace self.now.division.cuts self.now.naming index }
        ensures value { result ≡ planned_pe self.now.division.cuts self.now.naming index }
    {
        let block = block_at(self.division.cuts.as_slice(), index.get());
        Pe::new(self.naming.as_slice()[block]).unwrap()
    }
}

// The block of an element: the one before the first cut above it.
fn block_at(cuts: &[u32], i: u32) -> usize
    requires { IsNonDecreasing cuts.now }
    ensures { result ≡ block_of cuts.now i }
{
    cuts.partition_point(|&cut| cut <= i).saturating_sub(1)
}
