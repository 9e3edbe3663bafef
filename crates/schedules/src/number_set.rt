//! A set of small numbers, in which the k-th member in order can be found.

ghost use Rattle.std.specs.Prelude.{◌≡◌, ◌+◌, IfOk, false, length, replicate, slice_get, slice_set};
ghost use Rattle.schedules.specs.NumberSets.{below, members};

use std::alloc::{AllocError, Allocator, Global};
use std::marker::Model;

// How many numbers a block has.
const BLOCK: usize = 256;

/// A set of numbers below a bound. Adding a number and taking one out take constant time. Finding the k-th in order takes
/// one step for each block of 256 numbers before it, and one for each number before it in its own block. Contracts see it as
/// the list of flags that say of each number whether it is a member.
#[derive(Drop)]
pub(crate) struct NumberSet<A: Allocator = Global> {
    flags: Vec<bool, A>,
    // How many members each block has.
    blocks: Vec<u64, A>,
    len: u64,
}

impl<A: Allocator> Model for NumberSet<A> {
    ghost use Rattle.std.specs.Prelude.{Bool, List};
    ghost use Rattle.schedules.specs.NumberSets.{AreCounted};

    ghost Value = { List Bool };

    ghost view = { λ s. s.flags.items };

    ghost invariant = { λ s. AreCounted s.flags.items s.blocks.items s.len };
}

impl<A: Allocator + Copy> NumberSet<A> {
    /// The empty set of numbers below this bound.
    pub(crate) fn new(alloc: A, bound: u32) -> Result<Self, AllocError>
        ensures empty { IfOk result (λ set. set ≡ replicate bound false) }
    {
        let bound = bound as usize;
        Ok(NumberSet {
            flags: Vec::from_elem(alloc, false, bound)?,
            blocks: Vec::from_elem(alloc, 0u64, bound.div_ceil(BLOCK))?,
            len: 0,
        })
    }
}

impl<A: Allocator> NumberSet<A> {
    /// How many members it has.
    pub(crate) fn len(&self) -> u64
        ensures value { result ≡ length (members self.now) }
    {
        self.len
    }

    /// Makes a number a member, or takes it out. A number that is not below the bound changes nothing.
    pub(crate) fn put(&mut self, number: u32, member: bool)
        ensures put { self.new ≡ slice_set self.old number member }
    {
        let at = number as usize;
        if self.flags.len() <= at || self.flags[at] == member {
            return;
        }
        self.flags[at] = member;
        let block = &mut self.blocks[at / BLOCK];
        if member {
            *block += 1;
            self.len += 1;
        } else {
            *block -= 1;
            self.len -= 1;
        }
    }

    /// The member that has `place` members below it, or `None` where there are too few.
    pub(crate) fn nth(&self, place: u64) -> Option<u32>
        ensures value { result ≡ slice_get (members self.now) place }
    {
        let mut left = place;
        for block in 0..self.blocks.len() {
            let count = self.blocks[block];
            if left < count {
                return self.nth_from(block * BLOCK, left);
            }
            left -= count;
        }
        None
    }

    // The member that has `place` members below it from this number on.
    fn nth_from(&self, first: usize, place: u64) -> Option<u32>
        ensures value { result ≡ slice_get (members self.now) (below self.now first + place) }
    {
        let mut left = place;
        for at in first..self.flags.len() {
            if self.flags[at] {
                if left == 0 {
                    return Some(at as u32);
                }
                left -= 1;
            }
        }
        None
    }
}
