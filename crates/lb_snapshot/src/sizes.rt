//! The packed size and the present PE of every element.

ghost use Rattle.std.specs.Prelude.{◌≡◌, ℕ, ◌≤◌, All, List, [], length, IsTrue, ◌↔◌, SomeIff};
ghost use Rattle.std.specs.Cmp.{and_per, nat_eq_equiv, on_per, partial_equiv_from_equiv};
ghost use Rattle.std.specs.Cmp.Lexicographic.{pointwise, lists_per};
ghost use Rattle.lb_snapshot.specs.Measured.{same_size, IsSizes};

use chare_index::{Limits, Pe};
use std::alloc::{AllocError, Allocator, Global};
use std::marker::Model;

/// The packed size in bytes and the present PE of every element, in order of index: at most
/// [`Limits::ELEMENTS`] pairs, each size at most [`Limits::STATE_BYTES`]. Contracts see it as the list of
/// these pairs.
#[derive(Drop)]
#[derive_where(Debug)]
pub struct Sizes<A: Allocator = Global> {
    pairs: Vec<(u32, Pe), A>,
}

impl<A: Allocator> Model for Sizes<A> {
    ghost Value = { List (ℕ × ℕ) };

    ghost view = { λ s. s.pairs.items };

    ghost invariant = { λ s. IsSizes s.pairs.items };
}

impl<A: Allocator> Sizes<A> {
    /// These sizes and places, or `None` where there are more than [`Limits::ELEMENTS`] of them or a size is above
    /// [`Limits::STATE_BYTES`].
    pub fn new(pairs: Vec<(u32, Pe), A>) -> Option<Self>
        ensures made { SomeIff result (IsSizes pairs.items) pairs.items }
    {
        if pairs.len() <= Limits::ELEMENTS as usize && fit(&pairs) {
            Some(Sizes { pairs })
        } else {
            None
        }
    }

    /// The size and the present PE of each element, in order of index.
    pub fn as_slice(&self) -> &[(u32, Pe)]
        ensures value { result.now ≡ self.now }
        ensures within_limits { IsSizes self.now }
    {
        self.pairs.as_slice()
    }

    /// The number of elements.
    pub fn len(&self) -> usize
        ensures value { result ≡ length self.now }
        ensures few { result ≤ Limits.ELEMENTS }
    {
        self.pairs.len()
    }

    /// Whether there is no element.
    pub fn is_empty(&self) -> bool
        ensures value { IsTrue result ↔ (self.now ≡ []) }
    {
        self.pairs.is_empty()
    }

    /// Returns the list.
    pub fn into_vec(self) -> Vec<(u32, Pe), A>
        ensures value { result.items ≡ self }
    {
        let Sizes { pairs } = self;
        pairs
    }
}

impl<A: Allocator> PartialEq for Sizes<A> {
    ghost eq = { λ a b. pointwise same_size a b };

    ghost laws = { lists_per (and_per (on_per (λ t. t.0) (partial_equiv_from_equiv nat_eq_equiv)) (on_per (λ t. t.1) (partial_equiv_from_equiv nat_eq_equiv))) };

    fn eq(&self, other: &Self) -> bool {
        self.as_slice() == other.as_slice()
    }
}

impl<A: Allocator + Copy> Clone for Sizes<A> {
    ghost is_clone = { λ v w. w ≡ v };

    fn clone(&self) -> Result<Self, AllocError> {
        let pairs = Vec::from_slice(*self.pairs.allocator(), self.as_slice())?;
        Ok(Sizes { pairs })
    }
}

// Whether each size is within the limit.
fn fit(pairs: &[(u32, Pe)]) -> bool
    ensures { IsTrue result ↔ All (λ size. size.0 ≤ Limits.STATE_BYTES) pairs.now }
{
    pairs.iter().all(|&(bytes, _)| bytes <= Limits::STATE_BYTES)
}
