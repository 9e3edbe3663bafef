//! The elements of blocks, however a caller lists them.

ghost use Rattle.std.specs.Prelude.{◌≡◌, ℕ, ◌-◌, ◌*◌, ◌^◌, ◌<◌, ◌≤◌, length, slice_index, slice_range, sum_by};
ghost use Rattle.std.specs.List.{zip};
ghost use Rattle.lb_certificates.specs.Naming.{moved_bytes};

use crate::block_costs::{moved_to, write_costs};
use crate::listed_costs::{listed_moved_to, write_listed_costs};
use chare_index::Pe;
use std::marker::Model;

/// The packed size of each element and the PE that it is on. Contracts see it as the list of these pairs.
#[derive(Drop)]
pub(crate) struct Elements<'a> {
    listed: Listed<'a>,
}

// How the elements are listed: as pairs, or as a list of sizes and one of PEs of the same length.
#[derive(Drop)]
enum Listed<'a> {
    Pairs(&'a [(u32, Pe)]),
    Apart(&'a [u32], &'a [u32]),
}

impl<'a> Model for Elements<'a> {
    ghost use Rattle.std.specs.Prelude.{ℕ, List};
    ghost use Rattle.lb_certificates.specs.Internal.{ArePaired, sizes_of};

    ghost Value = { List (ℕ × ℕ) };

    ghost view = { λ e. sizes_of e.listed };

    ghost invariant = { λ e. ArePaired e.listed };
}

impl<'a> Elements<'a> {
    /// Elements that are pairs.
    pub(crate) fn of_pairs(pairs: &'a [(u32, Pe)]) -> Self
        ensures value { result ≡ pairs.now }
    {
        Elements {
            listed: Listed::Pairs(pairs),
        }
    }

    /// Elements that are two lists.
    pub(crate) fn of_lists(bytes: &'a [u32], places: &'a [u32]) -> Self
        requires paired { length places.now ≡ length bytes.now }
        ensures value { result ≡ zip bytes.now places.now }
    {
        Elements {
            listed: Listed::Apart(bytes, places),
        }
    }

    /// How many there are.
    pub(crate) fn count(&self) -> usize
        ensures value { result ≡ length self.now }
    {
        match &self.listed {
            Listed::Pairs(pairs) => pairs.len(),
            Listed::Apart(bytes, _) => bytes.len(),
        }
    }

    /// Writes what the block of the elements `first..end` costs on each of the first PEs: its bytes, less those that are
    /// there.
    pub(crate) fn write_costs(&self, first: usize, end: usize, costs: &mut [u64])
        requires few { length self.now < 2 ^ 32 }
        requires ordered { first ≤ end }
        requires inside { end ≤ length self.now }
        ensures costs { (p : ℕ) → p < length costs.new → slice_index costs.new p ≡ sum_by (λ size. moved_bytes size p) (slice_range self.now first end) }
    {
        match &self.listed {
            Listed::Pairs(pairs) => write_costs(costs, &pairs[first..end]),
            Listed::Apart(bytes, places) => write_listed_costs(
                costs,
                &bytes[first..end],
                &places[first..end],
            ),
        }
    }

    /// The bytes that move where the elements `first..end` are to run on this PE.
    pub(crate) fn moved_to(&self, first: usize, end: usize, pe: u32) -> u64
        requires few { length self.now < 2 ^ 32 }
        requires ordered { first ≤ end }
        requires inside { end ≤ length self.now }
        ensures value { result ≡ sum_by (λ size. moved_bytes size pe) (slice_range self.now first end) }
        ensures small { result ≤ (end - first) * 2 ^ 32 }
    {
        match &self.listed {
            Listed::Pairs(pairs) => moved_to(&pairs[first..end], pe),
            Listed::Apart(bytes, places) => listed_moved_to(
                &bytes[first..end],
                &places[first..end],
                pe,
            ),
        }
    }
}
