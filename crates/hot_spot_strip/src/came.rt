//! The values that have come from the neighbors of a strip.

ghost use Rattle.std.specs.Prelude.{◌≡◌, ◌<◌, ◌≤◌};
ghost use Rattle.chare_index.specs.declared.limits.TheConstants.Limits.{ELEMENTS};
ghost use Rattle.hot_spot_strip.specs.Coming.{are_beside, kept, kept_early, kept_now, moved_up};
ghost use Rattle.hot_spot_strip.specs.Chains.{is_beside};
ghost use Rattle.hot_spot_strip.specs.declared.limits.TheConstants.StripLimits.{ROUNDS};

use crate::posting::{left_of, right_of};
use crate::shown::{Shown, Side};
use crate::slot::Slot;
use chare_index::Index;

/// The values that have come from the neighbors of a strip: of the round that it is to compute next, and early ones of the
/// round after it, since a neighbor may be a round ahead.
#[derive(Clone, Copy, Debug, PartialEq, Eq)]
pub struct Came {
    pub(crate) left: Slot,
    pub(crate) right: Slot,
    pub(crate) early_left: Slot,
    pub(crate) early_right: Slot,
}

impl Came {
    /// Nothing has come.
    pub(crate) fn nothing() -> Came
        ensures value { result ≡ record { left = Slot.Empty; right = Slot.Empty; early_left = Slot.Empty; early_right = Slot.Empty } }
    {
        Came {
            left: Slot::Empty,
            right: Slot::Empty,
            early_left: Slot::Empty,
            early_right: Slot::Empty,
        }
    }

    /// The values with one more, where `done` rounds are computed. A value of a round other than the next two is ignored.
    pub(crate) fn kept(self, done: u32, shown: Shown) -> Came
        requires few { done ≤ ROUNDS }
        ensures value { result ≡ kept self done shown }
    {
        if shown.round == done {
            return self.kept_now(shown.side, shown.value);
        }
        if shown.round == done + 1 {
            return self.kept_early(shown.side, shown.value);
        }
        self
    }

    fn kept_now(mut self, side: Side, value: u64) -> Came
        ensures value { result ≡ kept_now self side value }
    {
        match side {
            Side::Left => self.left = Slot::Filled(value),
            Side::Right => self.right = Slot::Filled(value),
        }
        self
    }

    fn kept_early(mut self, side: Side, value: u64) -> Came
        ensures value { result ≡ kept_early self side value }
    {
        match side {
            Side::Left => self.early_left = Slot::Filled(value),
            Side::Right => self.early_right = Slot::Filled(value),
        }
        self
    }

    /// Whether strip `me` of `n` has the values of the next round from all neighbors that it has.
    pub(crate) fn are_beside(self, me: Index, n: u32) -> bool
        requires few { n ≤ ELEMENTS }
        ensures value { result ≡ are_beside self me n }
    {
        is_beside(left_of(me), self.left) && is_beside(right_of(me, n), self.right)
    }

    /// The values once the next round is computed: those that came early are then of the round that is next.
    pub(crate) fn moved_up(self) -> Came
        ensures value { result ≡ moved_up self }
    {
        Came {
            left: self.early_left,
            right: self.early_right,
            early_left: Slot::Empty,
            early_right: Slot::Empty,
        }
    }
}

// Whether the value of this neighbor has come, or there is no neighbor.
fn is_beside(neighbor: Option<Index>, slot: Slot) -> bool
    ensures value { result ≡ is_beside neighbor slot }
{
    neighbor.is_none() || slot.is_filled()
}
