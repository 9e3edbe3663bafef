//! A snapshot: the load, size and place of every element at one step of a run.

ghost use Rattle.std.specs.Prelude.{◌≡◌, ◌<◌, ◌↔◌, All, IsTrue, SomeIff, length, ◌&&◌, ◌==◌, bytes_eq};
ghost use Rattle.std.specs.Cmp.{and_per, nat_eq_equiv, on_per, partial_equiv_from_equiv};
ghost use Rattle.std.specs.Cmp.Lexicographic.{pointwise, lists_per, nat_list_eq_equiv};
ghost use Rattle.lb_snapshot.specs.Measured.{same_size, Taken, IsTaken};

use crate::loads::Loads;
use crate::sizes::Sizes;
use chare_index::{Limits, Pe};
use std::alloc::{AllocError, Allocator, Global};
use std::marker::Model;

/// What a load balancer decides on: the load, size and place of every element, taken at one step of a run on
/// `procs` PEs. There are as many loads as sizes, and each place is below `procs`, which is 1 to
/// [`Limits::PES`]. Contracts see it as a record of the four parts.
#[derive(Drop)]
#[derive_where(Debug)]
pub struct Snapshot<A: Allocator = Global> {
    step: u32,
    procs: u32,
    loads: Loads<A>,
    sizes: Sizes<A>,
}

impl<A: Allocator> Model for Snapshot<A> {
    ghost Value = { Taken };

    ghost view = { λ s. record { step = s.step; procs = s.procs; loads = s.loads; sizes = s.sizes } };

    ghost invariant = { λ s. IsTaken s.procs s.loads s.sizes };
}

impl<A: Allocator> Snapshot<A> {
    /// This snapshot, or `None` where `procs` is not 1 to [`Limits::PES`], there are not as many loads as
    /// sizes, or a place is not below `procs`.
    pub fn new(step: u32, procs: u32, loads: Loads<A>, sizes: Sizes<A>) -> Option<Self>
        ensures made { SomeIff result (IsTaken procs loads sizes) (record { step = step; procs = procs; loads = loads; sizes = sizes }) }
    {
        let in_range = 1 <= procs && procs <= Limits::PES;
        if in_range && loads.len() == sizes.len() && stand_below(procs, sizes.as_slice()) {
            Some(Snapshot {
                step,
                procs,
                loads,
                sizes,
            })
        } else {
            None
        }
    }

    /// The step of the run at which it was taken.
    pub fn step(&self) -> u32
        ensures value { result ≡ self.now.step }
    {
        self.step
    }

    /// The number of PEs of the run.
    pub fn procs(&self) -> u32
        ensures value { result ≡ self.now.procs }
        ensures consistent { IsTaken self.now.procs self.now.loads self.now.sizes }
    {
        self.procs
    }

    /// The load of each element.
    pub fn loads(&self) -> &Loads<A>
        ensures value { result.now ≡ self.now.loads }
    {
        &self.loads
    }

    /// The size and the place of each element, as many as there are loads.
    pub fn sizes(&self) -> &Sizes<A>
        ensures value { result.now ≡ self.now.sizes }
        ensures paired { length self.now.loads ≡ length self.now.sizes }
    {
        &self.sizes
    }
}

impl<A: Allocator> PartialEq for Snapshot<A> {
    ghost eq = { λ a b. ((a.step == b.step) && (a.procs == b.procs)) && (bytes_eq a.loads b.loads && pointwise same_size a.sizes b.sizes) };

    ghost laws = { and_per (and_per (on_per (λ s. s.step) (partial_equiv_from_equiv nat_eq_equiv)) (on_per (λ s. s.procs) (partial_equiv_from_equiv nat_eq_equiv)))
        (and_per (on_per (λ s. s.loads) (partial_equiv_from_equiv nat_list_eq_equiv)) (on_per (λ s. s.sizes)
        (lists_per (and_per (on_per (λ t. t.0) (partial_equiv_from_equiv nat_eq_equiv)) (on_per (λ t. t.1) (partial_equiv_from_equiv nat_eq_equiv)))))) };

    fn eq(&self, other: &Self) -> bool {
        (self.step, self.procs) == (other.step, other.procs)
            && self.loads == other.loads
            && self.sizes == other.sizes
    }
}

impl<A: Allocator + Copy> Clone for Snapshot<A> {
    ghost is_clone = { λ v w. w ≡ v };

    fn clone(&self) -> Result<Self, AllocError> {
        let loads = self.loads.clone()?;
        let sizes = self.sizes.clone()?;
        Ok(Snapshot {
            step: self.step,
            procs: self.procs,
            loads,
            sizes,
        })
    }
}

// Whether each element is on one of the first `procs` PEs.
fn stand_below(procs: u32, sizes: &[(u32, Pe)]) -> bool
    ensures { IsTrue result ↔ All (λ size. size.1 < procs) sizes.now }
{
    sizes.iter().all(|&(_, place)| place.get() < procs)
}
