//! A copy of a snapshot's loads with running sums, for callers that probe several limits.

ghost use Rattle.std.specs.Prelude.{◌≡◌, ◌≤◌, ◌↔◌, [], IsTrue, IfOk, length};
ghost use Rattle.lb_snapshot.specs.Measured.{load};
ghost use Rattle.chain_partition.specs.Sums.{IsSampled};

use crate::chain::{load_between, push_samples, samples_of};
use chare_index::Limits;
use lb_snapshot::{Loads, Units};
use std::alloc::{AllocError, Allocator, Global};
use std::marker::Model;

/// A list of loads with its running sums, by which the load of any range of elements is two short sums. Contracts see it
/// as the list of the loads.
#[derive(Drop)]
#[derive_where(Debug)]
pub struct Prefix<A: Allocator = Global> {
    // The loads, followed by the load of the elements before each 16th one.
    list: Vec<u64, A>,
    // The number of loads.
    count: usize,
}

impl<A: Allocator> Model for Prefix<A> {
    ghost use Rattle.std.specs.Prelude.{◌≤◌, List, ℕ, length, take, drop};
    ghost use Rattle.lb_snapshot.specs.Measured.{IsLoads};
    ghost use Rattle.chain_partition.specs.Sums.{IsSampled};

    ghost Value = { List ℕ };

    ghost view = { λ p. take p.count p.list.items };

    ghost invariant = { λ p. (p.count ≤ length p.list.items) × IsLoads (take p.count p.list.items) × IsSampled (take p.count p.list.items) (drop p.count p.list.items) };
}

impl<A: Allocator> Prefix<A> {
    /// These loads, which are copied, with their running sums.
    ///
    /// # Errors
    ///
    /// Memory for the one list of the loads and their running sums was refused.
    pub fn of<B: Allocator>(alloc: A, loads: &Loads<B>) -> Result<Self, AllocError>
        ensures made { IfOk result (λ prefix. prefix ≡ loads.now) }
    {
        let loads = loads.as_slice();
        let count = loads.len();
        let mut list = Vec::with_capacity(alloc, count + samples_of(count))?;
        for &units in loads {
            list.push_reserved(units);
        }
        push_samples(&mut list, loads);
        Ok(Prefix { list, count })
    }

    /// The load of the elements `first..end`: at most 9,223,372,036,854,710,272 work units. It takes no memory.
    pub fn load(&self, first: usize, end: usize) -> u64
        requires ordered { first ≤ end }
        requires within { end ≤ length self.now }
        ensures value { result ≡ load self.now first end }
    {
        load_between(self.loads(), self.samples(), first, end)
    }

    /// The number of elements.
    pub fn len(&self) -> usize
        ensures value { result ≡ length self.now }
        ensures few { result ≤ Limits.ELEMENTS }
    {
        self.count
    }

    /// Whether there is no element.
    pub fn is_empty(&self) -> bool
        ensures value { IsTrue result ↔ (self.now ≡ []) }
    {
        self.len() == 0
    }

    /// The loads.
    pub(crate) fn loads(&self) -> &[Units]
        ensures value { result.now ≡ self.now }
    {
        &self.list.as_slice()[..self.count]
    }

    /// The running sums that are kept.
    pub(crate) fn samples(&self) -> &[u64]
        ensures valid { IsSampled self.now result.now }
    {
        &self.list.as_slice()[self.count..]
    }
}
