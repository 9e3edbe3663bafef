//! Bounds as steps.

ghost use Rattle.std.specs.Prelude.{◌≡◌, ℕ, List};

use std::alloc::{Allocator, Global};
use std::marker::Model;

/// A bound along the chain, in bytes, as steps: a place, and the bound from it on, up to the next step; before the first step
/// the bound is 0. It is a plain list that may hold anything, and contracts see it as that list.
#[derive(Drop)]
#[derive_where(Debug)]
pub struct Levels<A: Allocator = Global> {
    steps: Vec<(u32, u64), A>,
}

impl<A: Allocator> Model for Levels<A> {
    ghost Value = { List (ℕ × ℕ) };

    ghost view = { λ l. l.steps.items };
}

impl<A: Allocator> Levels<A> {
    /// These steps.
    pub fn new(steps: Vec<(u32, u64), A>) -> Self
        ensures value { result ≡ steps.items }
    {
        Levels { steps }
    }

    /// The steps, in order.
    pub fn as_slice(&self) -> &[(u32, u64)]
        ensures value { result.now ≡ self.now }
    {
        self.steps.as_slice()
    }
}

/// A bound for each number of blocks, from 0 on. It is a plain list that may hold anything, and contracts see it as the list of
/// the lists of steps.
#[derive(Drop)]
#[derive_where(Debug)]
pub struct ByteBounds<A: Allocator = Global> {
    rows: Vec<Levels<A>, A>,
}

impl<A: Allocator> Model for ByteBounds<A> {
    ghost Value = { List (List (ℕ × ℕ)) };

    ghost view = { λ b. b.rows.items };
}

impl<A: Allocator> ByteBounds<A> {
    /// These rows.
    pub fn new(rows: Vec<Levels<A>, A>) -> Self
        ensures value { result ≡ rows.items }
    {
        ByteBounds { rows }
    }

    /// The rows, in order of the number of blocks.
    pub fn as_slice(&self) -> &[Levels<A>]
        ensures value { result.now ≡ self.now }
    {
        self.rows.as_slice()
    }
}
