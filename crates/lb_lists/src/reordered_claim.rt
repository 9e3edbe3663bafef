//! A decision within a tolerance, in any order of the PEs, that is claimed to be right, as plain lists.

use crate::claim::Claim;
use std::marker::Model;

/// What somebody claims to be a decision within a tolerance in any order of the PEs, as plain lists. Contracts see it as the record
/// of its lists.
#[derive(Drop)]
pub struct ReorderedClaim<'a> {
    /// The decision. Its stops are those of the least division, and its prices are not looked at.
    pub decision: Claim<'a>,
    /// The least possible load of the heaviest block, which the stops prove.
    pub least: u64,
    /// Where the blocks of the least division begin and end.
    pub least_cuts: &'a [u32],
    /// For each row of the bounds the number of its first level, and behind them where the levels of the last row end. There are
    /// two bounds for each number of blocks from 0 to that of the PEs: first the rows of those whatever the PEs of the blocks are,
    /// and then the rows of those where none is the PE of the element behind them.
    pub level_starts: &'a [usize],
    /// The place of each level, from which on it holds.
    pub level_places: &'a [u32],
    /// Its bytes.
    pub level_bytes: &'a [u64],
}

impl<'a> Model for ReorderedClaim<'a> {
    ghost use Rattle.lb_lists.specs.ReorderedClaims.{ReorderedClaimed};

    ghost Value = { ReorderedClaimed };

    ghost view = { λ c. record {
      decision = c.decision;
      least = c.least;
      least_cuts = c.least_cuts.now;
      level_starts = c.level_starts.now;
      level_places = c.level_places.now;
      level_bytes = c.level_bytes.now;
    } };
}
