//! A chain of up to 2^32 - 1 loads with running sums, from which the load of any range is read.

ghost use Rattle.std.specs.Prelude.{◌≡◌, ◌+◌, ◌/◌, ◌<◌, ◌≤◌, ◌^◌, ◌↔◌, [], IsTrue, IfErr, IfOk, OnOk, length, sum, vec_len, vec_capacity};
ghost use Rattle.lb_snapshot.specs.Measured.{load};
ghost use Rattle.chain_partition.specs.Sums.{AppendsSamples, IsChain, IsRefused, IsSampled};

use crate::error::ChainError;
use lb_certificates::total;
use lb_snapshot::{Loads, Units};
use std::alloc::{AllocError, Allocator, Global};
use std::marker::Model;

// The number of elements from one running sum that is kept to the next.
pub(crate) const STRIDE: usize = 16;

/// The loads of a chain of up to 4,294,967,295 elements, which are borrowed, and its running sums, by which the load of any
/// range of elements is two short sums. One running sum in 16 is kept: half a byte for each element. Contracts see a chain as
/// the list of its loads.
#[derive(Drop)]
#[derive_where(Debug)]
pub struct Chain<'a, A: Allocator = Global> {
    loads: &'a [Units],
    // The load of the elements before each 16th one.
    samples: Vec<u64, A>,
}

impl<'a, A: Allocator> Model for Chain<'a, A> {
    ghost use Rattle.std.specs.Prelude.{List, ℕ};
    ghost use Rattle.chain_partition.specs.Sums.{IsSampled};

    ghost Value = { List ℕ };

    ghost view = { λ p. p.loads.now };

    ghost invariant = { λ p. IsSampled p.loads.now p.samples.items };
}

impl<'a, A: Allocator> Chain<'a, A> {
    /// The chain of these loads, in work units.
    ///
    /// # Errors
    ///
    /// [`ChainError::TooLong`] for 2^32 loads or more, then [`ChainError::TooHeavy`] where their sum is 2^63 or more, then
    /// [`ChainError::OutOfMemory`] where memory for the running sums was refused.
    pub fn new(alloc: A, loads: &'a [Units]) -> Result<Self, ChainError>
        ensures made { IfOk result (λ chain. chain ≡ loads.now) }
        ensures chain { OnOk result (IsChain loads.now) }
        ensures refused { IfErr result (IsRefused loads.now) }
    {
        if loads.len() > u32::MAX as usize {
            return Err(ChainError::TooLong);
        }
        if total(loads) >= 1 << 63 {
            return Err(ChainError::TooHeavy);
        }
        Ok(Chain::sampled(alloc, loads)?)
    }

    /// The chain of the loads of a snapshot, whose limits are narrower.
    ///
    /// # Errors
    ///
    /// Memory for the running sums was refused.
    pub(crate) fn of<B: Allocator>(alloc: A, loads: &'a Loads<B>) -> Result<Self, AllocError>
        ensures made { IfOk result (λ chain. chain ≡ loads.now) }
    {
        Chain::sampled(alloc, loads.as_slice())
    }

    // The chain of loads that are known to be one.
    fn sampled(alloc: A, loads: &'a [Units]) -> Result<Self, AllocError>
        requires chain { IsChain loads.now }
        ensures made { IfOk result (λ chain. chain ≡ loads.now) }
    {
        let mut samples = Vec::with_capacity(alloc, samples_of(loads.len()))?;
        push_samples(&mut samples, loads);
        Ok(Chain { loads, samples })
    }

    /// The load of the elements `first..end`. It takes no memory.
    pub fn load(&self, first: usize, end: usize) -> u64
        requires ordered { first ≤ end }
        requires within { end ≤ length self.now }
        ensures value { result ≡ load self.now first end }
        ensures small { result < 2 ^ 63 }
    {
        load_between(self.loads, self.samples.as_slice(), first, end)
    }

    /// The number of elements.
    pub fn len(&self) -> usize
        ensures value { result ≡ length self.now }
        ensures few { result < 2 ^ 32 }
        ensures chain { IsChain self.now }
    {
        self.loads.len()
    }

    /// Whether there is no element.
    pub fn is_empty(&self) -> bool
        ensures value { IsTrue result ↔ (self.now ≡ []) }
    {
        self.loads.is_empty()
    }

    /// The loads.
    pub fn loads(&self) -> &[Units]
        ensures value { result.now ≡ self.now }
        ensures chain { IsChain result.now }
    {
        self.loads
    }

    /// The running sums that are kept.
    pub(crate) fn samples(&self) -> &[u64]
        ensures valid { IsSampled self.now result.now }
    {
        self.samples.as_slice()
    }
}

/// The number of running sums that are kept for this number of elements.
pub(crate) fn samples_of(elements: usize) -> usize
    ensures value { result ≡ elements / 16 + 1 }
{
    elements / STRIDE + 1
}

/// Appends the load before each 16th element to a list that has the capacity for them.
pub(crate) fn push_samples<A: Allocator>(list: &mut Vec<u64, A>, loads: &[Units])
    requires chain { IsChain loads.now }
    requires room { vec_len list.old + length loads.now / 16 + 1 ≤ vec_capacity list.old }
    ensures sampled { AppendsSamples loads.now list.old.items list.new.items }
{
    list.push_reserved(0);
    let mut before = 0;
    for group in 0..loads.len() / STRIDE {
        let first = group * STRIDE;
        before += light_total(&loads[first..first + STRIDE]);
        list.push_reserved(before);
    }
}

/// The load of the elements `first..end`.
pub(crate) fn load_between(loads: &[Units], samples: &[u64], first: usize, end: usize) -> u64
    requires valid { IsSampled loads.now samples.now }
    requires ordered { first ≤ end }
    requires within { end ≤ length loads.now }
    ensures value { result ≡ load loads.now first end }
{
    load_before(loads, samples, end) - load_before(loads, samples, first)
}

/// The load of the elements before this one.
pub(crate) fn load_before(loads: &[Units], samples: &[u64], end: usize) -> u64
    requires valid { IsSampled loads.now samples.now }
    requires within { end ≤ length loads.now }
    ensures value { result ≡ load loads.now 0 end }
{
    let group = end / STRIDE;
    samples[group] + light_total(&loads[group * STRIDE..end])
}

// The sum of these loads, which fits 64 bits.
fn light_total(loads: &[Units]) -> u64
    requires light { sum loads.now < 2 ^ 63 }
    ensures value { result ≡ sum loads.now }
{
    let mut total = 0;
    for &units in loads {
        total += units;
    }
    total
}
