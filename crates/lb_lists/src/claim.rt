//! A decision that is claimed to be right, as plain lists.

ghost use Rattle.std.specs.Prelude.{◌≡◌, ◌≤◌, drop, take};
ghost use Rattle.lb_lists.specs.Claims.{shortened};
ghost use Rattle.lb_lists.specs.declared.limits.TheConstants.RunLimits.{PES};

use std::marker::Model;

/// What somebody claims to be a decision for a run, as plain lists. Contracts see it as the record of its lists.
#[derive(Drop)]
pub struct Claim<'a> {
    /// The load of the heaviest block, in work units.
    pub bottleneck: u64,
    /// The packed bytes of all elements that move.
    pub moved: u64,
    /// The PE on which each element is to run.
    pub new_places: &'a [u32],
    /// Where the blocks begin and end.
    pub cuts: &'a [u32],
    /// The fence that proves that the bottleneck is the least possible; empty for a bottleneck of 0.
    pub stops: &'a [u32],
    /// The PE on which each block runs.
    pub names: &'a [u32],
    /// The prices of the blocks, which with those of the PEs prove that no naming moves fewer bytes.
    pub block_prices: &'a [i64],
    /// The prices of the PEs.
    pub pe_prices: &'a [i64],
}

impl<'a> Model for Claim<'a> {
    ghost use Rattle.lb_lists.specs.Claims.{Claimed};

    ghost Value = { Claimed };

    ghost view = { λ c. record {
      bottleneck = c.bottleneck;
      moved = c.moved;
      new_places = c.new_places.now;
      cuts = c.cuts.now;
      stops = c.stops.now;
      names = c.names.now;
      block_prices = c.block_prices.now;
      pe_prices = c.pe_prices.now;
    } };
}

/// The first entries of a list, at most `most` of them.
pub(crate) fn front<T>(list: &[T], most: usize) -> &[T]
    ensures { result.now ≡ take most list.now }
{
    list.get(..most).unwrap_or(list)
}

/// The entries of a list behind the first `count`.
pub(crate) fn back<T>(list: &[T], count: usize) -> &[T]
    ensures { result.now ≡ drop count list.now }
{
    list.get(count..).unwrap_or(&[])
}

/// A claim with each list of the certificates cut off one entry past its proper length for `pes` PEs. A list that is too long
/// is still too long, so the claim has the same first flaw, however long its lists are.
pub(crate) fn shorten<'a>(claim: &Claim<'a>, pes: u32) -> Claim<'a>
    requires few_pes { pes ≤ PES }
    ensures { result ≡ shortened pes claim.now }
{
    let blocks = pes as usize;
    Claim {
        bottleneck: claim.bottleneck,
        moved: claim.moved,
        new_places: claim.new_places,
        cuts: front(claim.cuts, blocks + 2),
        stops: front(claim.stops, blocks + 2),
        names: front(claim.names, blocks + 1),
        block_prices: front(claim.block_prices, blocks + 1),
        pe_prices: front(claim.pe_prices, blocks + 1),
    }
}
