//! Finds the order in which the PEs now stand along the chain, and the cuts between them.

ghost use Rattle.std.specs.Prelude.{IfOk, MatchOption};
ghost use Rattle.chain_refinement.specs.Orders.{IsPresentOrder};
ghost use Rattle.chain_refinement.specs.NoOrders.{HasNoOrder};

use crate::runs::{runs_of, with_idle};
use chare_index::Pes;
use lb_certificates::{Cuts, Naming};
use lb_snapshot::Sizes;
use std::alloc::{AllocError, Allocator, Global};

/// The PEs in the order of their elements along a chain, with the cuts between these elements.
#[derive(Drop)]
#[derive_where(Debug, PartialEq)]
pub struct PresentOrder<A: Allocator = Global> {
    /// The PEs: those with elements in the order of their elements, and behind them those without, in ascending order.
    pub names: Naming<A>,
    /// Where the elements of each PE begin and end.
    pub present: Cuts<A>,
}

/// The order of `pes` PEs along these elements, or `None` where they have none: where the elements of a PE are not
/// consecutive, or one is on a PE that is not below `pes`. So the places and `pes` determine the answer.
///
/// # Errors
///
/// Memory for one of the two lists of at most `pes + 1` numbers was refused.
pub fn present_order<A: Allocator + Copy, B: Allocator>(
    alloc: A,
    sizes: &Sizes<B>,
    pes: Pes,
) -> Result<Option<PresentOrder<A>>, AllocError>
    ensures order { IfOk result (λ found. MatchOption found (HasNoOrder sizes.now pes)
        (λ o. IsPresentOrder sizes.now pes o.names o.present)) }
{
    let pes = pes.get();
    let Some(runs) = runs_of(alloc, sizes.as_slice(), pes)? else {
        return Ok(None);
    };
    Ok(Some(with_idle(runs, sizes.as_slice(), pes)?))
}
