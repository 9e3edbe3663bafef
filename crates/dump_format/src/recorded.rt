//! A decision as a dump records it: with the number of PEs that it is for.

ghost use Rattle.std.specs.Prelude.{◌≡◌, ◌==◌, IfOk, true};
ghost use Rattle.lb_certificates.specs.Certificate.{MatchFloor};
ghost use Rattle.dump_format.specs.Recording.{recorded_of};

use lb_certificates::{Division, Floor};
use lb_snapshot::Snapshot;
use lb_strategy::Decision;
use std::alloc::{AllocError, Allocator, Global};

/// A decision with the number of PEs that it is for. It is plain data: a [`Dump`](crate::Dump) requires certain lengths
/// of its lists, and [`check`](lb_strategy::check) says whether it is right.
#[derive(Drop)]
#[derive_where(Debug, PartialEq)]
#[derive_where(Clone; A: Copy)]
pub struct Recorded<A: Allocator = Global> {
    /// The number of PEs that the decision is for, which may differ from that of the snapshot.
    pub target: u32,
    /// What was decided.
    pub decision: Decision<A>,
}

impl<A: Allocator + Copy> Recorded<A> {
    /// What the dump of a round records of its decision: a copy of it, for as many PEs as the snapshot has, where its floor claims that
    /// its division is least, and nothing otherwise, since a dump has no place for what proves a decision within a tolerance.
    ///
    /// # Errors
    ///
    /// Memory was refused.
    pub fn of_round(
        snapshot: &Snapshot<A>,
        decision: &Decision<A>,
    ) -> Result<Option<Recorded<A>>, AllocError>
        ensures recorded { IfOk result (λ recorded. recorded ≡ recorded_of snapshot.now decision.now) }
    {
        if !has_floor(&decision.division) {
            return Ok(None);
        }
        Ok(Some(Recorded {
            target: snapshot.procs(),
            decision: decision.clone()?,
        }))
    }
}

// Whether the floor of a division claims that its bottleneck is least.
fn has_floor<A: Allocator>(division: &Division<A>) -> bool
    ensures { MatchFloor division.now.floor (result ≡ (division.now.bottleneck == 0)) (λ _. result ≡ true) }
{
    match &division.floor {
        Floor::Zero => division.bottleneck == 0,
        Floor::Fence(_) => true,
    }
}
