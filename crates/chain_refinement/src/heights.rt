//! Step functions along the chain, one for each block. They prove that no other cuts move fewer bytes.

ghost use Rattle.std.specs.Prelude.{◌≡◌, ℕ, List};

use std::alloc::{Allocator, Global};
use std::marker::Model;

/// A step function of the places along the chain: from the place of each step on it is higher by the step's rise. It is a plain
/// list of places and rises that may hold anything, and contracts see it as that list.
#[derive(Drop)]
#[derive_where(Debug)]
pub struct Steps<A: Allocator = Global> {
    steps: Vec<(u32, u64), A>,
}

impl<A: Allocator> Model for Steps<A> {
    ghost Value = { List (ℕ × ℕ) };

    ghost view = { λ s. s.steps.items };
}

impl<A: Allocator> Steps<A> {
    /// These steps.
    pub fn new(steps: Vec<(u32, u64), A>) -> Self
        ensures value { result ≡ steps.items }
    {
        Steps { steps }
    }

    /// The steps, in order.
    pub fn as_slice(&self) -> &[(u32, u64)]
        ensures value { result.now ≡ self.now }
    {
        self.steps.as_slice()
    }
}

/// A step function for each block: the proof that cuts move the fewest bytes. It is a plain list that may hold anything, and
/// contracts see it as the list of the lists of steps.
#[derive(Drop)]
#[derive_where(Debug)]
pub struct Heights<A: Allocator = Global> {
    rows: Vec<Steps<A>, A>,
}

impl<A: Allocator> Model for Heights<A> {
    ghost Value = { List (List (ℕ × ℕ)) };

    ghost view = { λ h. h.rows.items };
}

impl<A: Allocator> Heights<A> {
    /// These step functions.
    pub fn new(rows: Vec<Steps<A>, A>) -> Self
        ensures value { result ≡ rows.items }
    {
        Heights { rows }
    }

    /// The step functions, in order of block.
    pub fn as_slice(&self) -> &[Steps<A>]
        ensures value { result.now ≡ self.now }
    {
        self.rows.as_slice()
    }
}
