//! A dump: a snapshot and, where one was recorded, the decision on it.

ghost use Rattle.std.specs.Prelude.{◌≡◌, ◌↔◌, ◌≤◌, ◌<◌, ◌+◌, All, IsTrue, SomeIff, IfOk, option_copied, length};
ghost use Rattle.lb_certificates.specs.Certificate.{MatchFloor};
ghost use Rattle.dump_format.specs.Dumps.{Dumped, IsDump, IsRecorded, MayFit, MayRecord};

use crate::fields::{elements, fields_fit};
use crate::recorded::Recorded;
use chare_index::{Index, Limits, Pe};
use lb_certificates::Floor;
use lb_snapshot::Snapshot;
use lb_strategy::Decision;
use std::alloc::{AllocError, Allocator, Global};
use std::marker::Model;

/// A snapshot and, where one was recorded, a decision. Contracts see it as a record of the two parts. Whether the decision is
/// right is a question for [`check`](lb_strategy::check); a dump requires only that it can be written: the target is 1 to
/// [`Limits::PES`], the lengths of the lists follow from the target, and there are no more moves than elements, each with an
/// index below the number of elements.
#[derive(Drop)]
#[derive_where(Debug, PartialEq)]
pub struct Dump<A: Allocator = Global> {
    snapshot: Snapshot<A>,
    recorded: Option<Recorded<A>>,
}

impl<A: Allocator> Model for Dump<A> {
    ghost Value = { Dumped A };

    ghost view = { λ d. record { snapshot = d.snapshot; recorded = d.recorded } };

    ghost invariant = { λ d. IsDump (record { snapshot = d.snapshot; recorded = d.recorded }) };

    ghost inverse = { λ d. record { snapshot = d.snapshot; recorded = d.recorded } };
}

impl<A: Allocator> Dump<A> {
    /// This dump, or `None` where the target is not 1 to [`Limits::PES`]; where there are not `target + 1` cuts, `target + 1`
    /// stops of a fence, `target` names, and `target` prices of blocks and of PEs; where there are more moves than elements;
    /// or where the index of a move is not below the number of elements. It takes no memory.
    pub fn new(snapshot: Snapshot<A>, recorded: Option<Recorded<A>>) -> Option<Self>
        ensures made { SomeIff result (MayRecord (length snapshot.loads) recorded) (record { snapshot = snapshot; recorded = recorded }) }
    {
        if may_record(elements(&snapshot), &recorded) {
            Some(Dump { snapshot, recorded })
        } else {
            None
        }
    }

    /// The snapshot.
    pub fn snapshot(&self) -> &Snapshot<A>
        ensures value { result.now ≡ self.now.snapshot }
        ensures consistent { IsDump self.now }
    {
        &self.snapshot
    }

    /// The decision that was recorded with it, if any.
    pub fn recorded(&self) -> Option<&Recorded<A>>
        ensures value { option_copied result ≡ self.now.recorded }
        ensures consistent { IsDump self.now }
    {
        self.recorded.as_ref()
    }

    /// Returns both.
    pub fn into_parts(self) -> (Snapshot<A>, Option<Recorded<A>>)
        ensures snapshot { result.0 ≡ self.snapshot }
        ensures recorded { result.1 ≡ self.recorded }
        ensures consistent { IsDump self }
    {
        let Dump { snapshot, recorded } = self;
        (snapshot, recorded)
    }
}

impl<A: Allocator + Copy> Clone for Dump<A> {
    ghost is_clone = { λ v w. w ≡ v };

    fn clone(&self) -> Result<Self, AllocError> {
        let snapshot = self.snapshot.clone()?;
        let recorded = clone_recorded(&self.recorded)?;
        Ok(Dump { snapshot, recorded })
    }
}

// A copy of the decision that was recorded, if any.
fn clone_recorded<A: Allocator + Copy>(
    recorded: &Option<Recorded<A>>,
) -> Result<Option<Recorded<A>>, AllocError>
    ensures { IfOk result (λ copy. copy ≡ recorded.now) }
{
    match recorded {
        None => Ok(None),
        Some(recorded) => Ok(Some(recorded.clone()?)),
    }
}

// Whether a decision on this number of elements can be written, or there is none.
fn may_record<A: Allocator>(elements: usize, recorded: &Option<Recorded<A>>) -> bool
    ensures exact { IsTrue result ↔ MayRecord elements recorded.now }
    ensures fields { MayFit recorded.now }
{
    match recorded {
        None => true,
        Some(recorded) => {
            fields_fit(recorded);
            is_recorded(elements, recorded)
        }
    }
}

// Whether a decision on this number of elements can be written.
fn is_recorded<A: Allocator>(elements: usize, recorded: &Recorded<A>) -> bool
    ensures { IsTrue result ↔ IsRecorded elements recorded.now }
{
    let target = recorded.target;
    if target < 1 || Limits::PES < target {
        return false;
    }
    have_lengths(target as usize, &recorded.decision)
        && are_moves(elements, recorded.decision.moves.as_slice())
}

// Whether the lists of a decision have the lengths that this number of blocks requires.
fn have_lengths<A: Allocator>(blocks: usize, decision: &Decision<A>) -> bool
    requires { blocks ≤ Limits.PES }
    ensures { IsTrue result ↔ ((length decision.now.division.cuts ≡ blocks + 1)
        × MatchFloor decision.now.division.floor (Unit {0}) (λ stops. length stops ≡ blocks + 1)
        × (length decision.now.naming ≡ blocks)
        × (length decision.now.prices.u ≡ blocks)
        × (length decision.now.prices.v ≡ blocks)) }
{
    decision.division.cuts.as_slice().len() == blocks + 1
        && has_stops(blocks, &decision.division.floor)
        && decision.naming.as_slice().len() == blocks
        && decision.prices.u.as_slice().len() == blocks
        && decision.prices.v.as_slice().len() == blocks
}

// Whether a fence has one stop more than there are blocks.
fn has_stops<A: Allocator>(blocks: usize, floor: &Floor<A>) -> bool
    requires { blocks ≤ Limits.PES }
    ensures { IsTrue result ↔ MatchFloor floor.now (Unit {0}) (λ stops. length stops ≡ blocks + 1) }
{
    match floor {
        Floor::Zero => true,
        Floor::Fence(stops) => stops.as_slice().len() == blocks + 1,
    }
}

// Whether there are no more moves than elements, each with an index below their number.
fn are_moves(elements: usize, moves: &[(Index, Pe, Pe)]) -> bool
    ensures { IsTrue result ↔ ((length moves.now ≤ elements) × All (λ move. move.0 < elements) moves.now) }
{
    moves.len() <= elements
        && moves
            .iter()
            .all(|&(index, _, _)| (index.get() as usize) < elements)
}
