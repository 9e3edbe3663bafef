//! The load of every element in one round.

ghost use Rattle.std.specs.Prelude.{◌≡◌, ℕ, List, ◌≤◌, [], All, length, sum, IsTrue, ◌↔◌, SomeIff, bytes_eq};
ghost use Rattle.std.specs.Cmp.{partial_equiv_from_equiv};
ghost use Rattle.std.specs.Cmp.Lexicographic.{nat_list_eq_equiv};
ghost use Rattle.lb_snapshot.specs.Measured.{IsLoads, load};

use chare_index::Limits;
use std::alloc::{AllocError, Allocator, Global};
use std::marker::Model;

/// A number of work units, 0 to [`Limits::LOAD`].
pub type Units = u64;

/// The load of every element in one round, in order of index: at most [`Limits::ELEMENTS`] numbers of work
/// units, each at most [`Limits::LOAD`]. Contracts see it as the list of these numbers.
#[derive(Drop)]
#[derive_where(Debug)]
pub struct Loads<A: Allocator = Global> {
    units: Vec<Units, A>,
}

impl<A: Allocator> Model for Loads<A> {
    ghost Value = { List ℕ };

    ghost view = { λ l. l.units.items };

    ghost invariant = { λ l. IsLoads l.units.items };
}

impl<A: Allocator> Loads<A> {
    /// These loads, or `None` where there are more than [`Limits::ELEMENTS`] of them or one is above
    /// [`Limits::LOAD`].
    pub fn new(units: Vec<Units, A>) -> Option<Self>
        ensures made { SomeIff result (IsLoads units.items) units.items }
    {
        if units.len() <= Limits::ELEMENTS as usize && fit(&units) {
            Some(Loads { units })
        } else {
            None
        }
    }

    /// The loads, in order of index.
    pub fn as_slice(&self) -> &[Units]
        ensures value { result.now ≡ self.now }
        ensures within_limits { IsLoads self.now }
    {
        self.units.as_slice()
    }

    /// The number of elements.
    pub fn len(&self) -> usize
        ensures value { result ≡ length self.now }
        ensures few { result ≤ Limits.ELEMENTS }
    {
        self.units.len()
    }

    /// Whether there is no element.
    pub fn is_empty(&self) -> bool
        ensures value { IsTrue result ↔ (self.now ≡ []) }
    {
        self.units.is_empty()
    }

    /// The load of the elements `first..end`: at most 9,223,372,036,854,710,272 work units.
    pub fn load(&self, first: usize, end: usize) -> u64
        requires ordered { first ≤ end }
        requires within { end ≤ length self.now }
        ensures value { result ≡ load self.now first end }
    {
        total(&self.units[first..end])
    }

    /// Returns the list.
    pub fn into_vec(self) -> Vec<Units, A>
        ensures value { result.items ≡ self }
    {
        let Loads { units } = self;
        units
    }
}

// The sum of these loads, which are few and small enough for 64 bits.
#[tactic(auto, using(crate::proofs::LoadSums::next_fits))]
fn total(units: &[Units]) -> u64
    requires { IsLoads units.now }
    ensures { result ≡ sum units.now }
{
    let mut total = 0;
    for &units in units {
        total += units;
    }
    total
}

// Whether each load is within the limit. All bits of the limit are set, so no load is above it exactly where the bitwise "or"
// of all loads is not. The loop has no branch, so the compiler can take several loads at a time.
#[tactic(auto)]
fn fit(units: &[Units]) -> bool
    ensures { IsTrue result ↔ All (λ load. load ≤ Limits.LOAD) units.now }
{
    let mut bits = 0;
    for &units in units {
        bits |= units;
    }
    bits <= Limits::LOAD
}

impl<A: Allocator> PartialEq for Loads<A> {
    ghost eq = { λ a b. bytes_eq a b };

    ghost laws = { partial_equiv_from_equiv nat_list_eq_equiv };

    fn eq(&self, other: &Self) -> bool {
        self.as_slice() == other.as_slice()
    }
}

impl<A: Allocator + Copy> Clone for Loads<A> {
    ghost is_clone = { λ v w. w ≡ v };

    fn clone(&self) -> Result<Self, AllocError> {
        let units = Vec::from_slice(*self.units.allocator(), self.as_slice())?;
        Ok(Loads { units })
    }
}
