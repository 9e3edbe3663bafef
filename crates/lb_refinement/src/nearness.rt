//! What proves that a decision within a tolerance moves as few bytes as it may.

ghost use Rattle.std.specs.Prelude.{◌≡◌};

use any_order::{ByteBounds, Reordered};
use chain_refinement::{Heights, Refinement, Tolerance};
use lb_certificates::{Cuts, Division, Naming};
use std::alloc::{Allocator, Global};

/// The proof that no cuts within a tolerance move fewer bytes where the PEs keep an order. With the cuts of the decision it is a
/// [`Refinement`](chain_refinement::Refinement), which [`check_refinement`](chain_refinement::check_refinement) checks.
#[derive(Drop)]
#[derive_where(Debug)]
pub struct OrderProof<A: Allocator = Global> {
    /// A least division. The limit is measured from its bottleneck.
    pub least: Division<A>,
    /// How far the limit is above the bottleneck.
    pub tolerance: Tolerance,
    /// The PE of each block in the order that is kept.
    pub order: Naming<A>,
    /// Where the blocks of this order begin and end today.
    pub present: Cuts<A>,
    /// Lower bounds on the bytes that cuts within the limit move in this order.
    pub heights: Heights<A>,
}

impl<A: Allocator> OrderProof<A> {
    /// The refinement with these cuts that this proves.
    pub fn with_cuts(self, cuts: Cuts<A>) -> Refinement<A>
        ensures value { result ≡ record {
          least = self.least;
          tolerance = self.tolerance;
          order = self.order;
          present = self.present;
          cuts = cuts;
          heights = self.heights;
        } }
    {
        let OrderProof {
            least,
            tolerance,
            order,
            present,
            heights,
        } = self;
        Refinement {
            least,
            tolerance,
            order,
            present,
            cuts,
            heights,
        }
    }
}

/// The proof that no cuts within a tolerance move fewer bytes, whatever the names of the blocks. With the cuts and the names of the
/// decision it is a [`Reordered`](any_order::Reordered), which [`check_reordered`](any_order::check_reordered) checks.
#[derive(Drop)]
#[derive_where(Debug)]
pub struct AnyOrderProof<A: Allocator = Global> {
    /// A least division. The limit is measured from its bottleneck.
    pub least: Division<A>,
    /// How far the limit is above the bottleneck.
    pub tolerance: Tolerance,
    /// For 0 to as many blocks as there are PEs: at each place a lower bound on the bytes that this number of blocks move which
    /// end there.
    pub any: ByteBounds<A>,
    /// Such bounds where none of these blocks runs on the PE of the element behind them.
    pub free: ByteBounds<A>,
}

impl<A: Allocator> AnyOrderProof<A> {
    /// The reordered division with these cuts and names that this proves.
    pub fn with_blocks(self, cuts: Cuts<A>, names: Naming<A>) -> Reordered<A>
        ensures value { result ≡ record {
          least = self.least;
          tolerance = self.tolerance;
          cuts = cuts;
          names = names;
          any = self.any;
          free = self.free;
        } }
    {
        let AnyOrderProof {
            least,
            tolerance,
            any,
            free,
        } = self;
        Reordered {
            least,
            tolerance,
            cuts,
            names,
            any,
            free,
        }
    }
}

/// What proves a decision within a tolerance.
#[derive(Drop)]
#[derive_where(Debug)]
pub enum Nearness<A: Allocator = Global> {
    /// The decision is the plan, whose division is a least one and has its floor.
    Planned,
    /// The cuts move the fewest bytes where the PEs keep their order.
    InOrder(OrderProof<A>),
    /// The cuts and the names move the fewest bytes of all.
    InAnyOrder(AnyOrderProof<A>),
}
