//! The elements on PEs that a run left, by value.

ghost use Rattle.std.specs.Prelude.{◌≡◌, ◌≢◌, ◌≤◌, ◌-◌, ℕ};
ghost use Rattle.std.specs.Iterator.{YieldsFirst, item_count};
ghost use Rattle.std.specs.List.{range_with_len};
ghost use Rattle.pe_state.specs.InOrder.{element_on, elements_at};

use crate::end::PeEnd;
use chare_index::{Index, Limits};
use chares::{Chare, Element};
use std::alloc::{Allocator, Global};
use std::marker::Model;

/// The elements that stand on PEs which a run left, by value, in the order of their indices. For each index it looks on one
/// PE after another, and takes no memory. Contracts see it as the list of the elements to come.
#[derive(Drop)]
pub struct Elements<C: Chare<A>, A: Allocator = Global> {
    ends: Vec<PeEnd<C, A>, A>,
    next: u32,
    n: u32,
}

impl<C: Chare<A>, A: Allocator> Model for Elements<C, A> {
    ghost use Rattle.std.specs.Prelude.{◌≤◌, ◌-◌, List};
    ghost use Rattle.std.specs.List.{range_with_len};
    ghost use Rattle.chare_index.specs.declared.limits.TheConstants.Limits.{ELEMENTS};
    ghost use Rattle.chares.specs.Elements.{ElementView};
    ghost use Rattle.pe_state.specs.InOrder.{elements_at};

    ghost Value = { List (ElementView C) };

    ghost view = { λ e. elements_at (range_with_len e.next (e.n - e.next)) e.ends.items };

    ghost invariant = { λ e. e.n ≤ ELEMENTS };
}

impl<C: Chare<A>, A: Allocator> Elements<C, A> {
    /// The elements with the indices below `n` that stand on these PEs.
    pub fn new(ends: Vec<PeEnd<C, A>, A>, n: u32) -> Self
        requires few { n ≤ Limits.ELEMENTS }
        ensures value { result ≡ elements_at (range_with_len 0 n) ends.items }
    {
        Elements { ends, next: 0, n }
    }
}

impl<C: Chare<A>, A: Allocator> Iterator for Elements<C, A> {
    type Item = Element<C, A>;

    ghost next_gives = { YieldsFirst (λ rest. rest) };

    ghost remaining = { item_count (λ rest. rest) };

    fn next(&mut self) -> Option<Element<C, A>> {
        while self.next < self.n {
            let index = Index::new(self.next)?;
            self.next += 1;
            if let Some(element) = take_from(&mut self.ends, index) {
                return Some(element);
            }
        }
        None
    }
}

// Takes the element with this index out of the first of these PEs where one stands. The others stay where they are.
fn take_from<C: Chare<A>, A: Allocator>(
    ends: &mut Vec<PeEnd<C, A>, A>,
    index: Index,
) -> Option<Element<C, A>>
    ensures value { result ≡ element_on index ends.old.items }
    ensures others { (i : ℕ) → i ≢ index → element_on i ends.new.items ≡ element_on i ends.old.items }
{
    for place in 0..ends.len() {
        if let Some(element) = ends[place].take(index) {
            return Some(element);
        }
    }
    None
}
