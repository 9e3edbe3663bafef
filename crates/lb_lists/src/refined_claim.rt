//! A decision within a tolerance that is claimed to be right, as plain lists.

use crate::claim::Claim;
use std::marker::Model;

/// What somebody claims to be a decision within a tolerance whose cuts are near the present ones, as plain lists. Contracts see
/// it as the record of its lists.
#[derive(Drop)]
pub struct RefinedClaim<'a> {
    /// The decision. Its stops are those of the least division. Where the PEs keep their order, its prices are not looked at.
    pub decision: Claim<'a>,
    /// Whether the PEs keep their order, so that the names are the order.
    pub keep_order: bool,
    /// The least possible load of the heaviest block, which the stops prove.
    pub least: u64,
    /// Where the blocks of the least division begin and end.
    pub least_cuts: &'a [u32],
    /// The PEs, in the present order of their elements.
    pub order: &'a [u32],
    /// Where the elements of each of these begin and end today.
    pub present: &'a [u32],
    /// For each block the number of its first step, and behind them where the steps of the last block end.
    pub step_starts: &'a [usize],
    /// The place of each step of the heights.
    pub step_places: &'a [u32],
    /// By how much the height rises there, in bytes.
    pub step_rises: &'a [u64],
}

impl<'a> Model for RefinedClaim<'a> {
    ghost use Rattle.lb_lists.specs.RefinedClaims.{RefinedClaimed};

    ghost Value = { RefinedClaimed };

    ghost view = { λ c. record {
      decision = c.decision;
      keep_order = c.keep_order;
      least = c.least;
      least_cuts = c.least_cuts.now;
      order = c.order.now;
      present = c.present.now;
      step_starts = c.step_starts.now;
      step_places = c.step_places.now;
      step_rises = c.step_rises.now;
    } };
}
