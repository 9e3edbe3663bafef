//! The windows of a chain: the stretches whose elements stay single when all others are merged into runs.

ghost use Rattle.std.specs.Prelude.{◌≡◌, ◌↔◌, IfSome, IsSome, MatchBool, length};
ghost use Rattle.merged_chains.specs.Windows.{AreOrdered, NoneEmpty, SomeEmpty};

use crate::weights::rises;
use std::marker::Model;

/// Windows of a chain's elements: each element in one of them begins a run of the merged chain. The first and the last
/// elements of the windows are the ends of two greedy walks, within a lower and within a higher limit. Contracts see both
/// lists.
#[derive(Debug, Drop)]
pub struct Windows<'a> {
    lower: &'a [u32],
    upper: &'a [u32],
}

impl<'a> Model for Windows<'a> {
    ghost use Rattle.merged_chains.specs.Windows.{AreOrdered, WindowBounds};

    ghost Value = { WindowBounds };

    ghost view = { λ w. record { lower = w.lower.now; upper = w.upper.now } };

    ghost invariant = { λ w. AreOrdered w.lower.now w.upper.now };
}

impl<'a> Windows<'a> {
    /// The windows from each of these first elements to the last one beside it, both included; none where the lists differ
    /// in length, a window is empty, or a bound is below that of the window before.
    pub fn new(lower: &'a [u32], upper: &'a [u32]) -> Option<Self>
        ensures made { IfSome result (λ windows. windows ≡ record { lower = lower.now; upper = upper.now }) }
        ensures when { IsSome result ↔ AreOrdered lower.now upper.now }
    {
        if !are_ordered(lower, upper) {
            return None;
        }
        Some(Windows { lower, upper })
    }

    /// The first elements of the windows, in order.
    pub fn lower(&self) -> &[u32]
        ensures value { result.now ≡ self.now.lower }
    {
        self.lower
    }

    /// The last elements of the windows, in order.
    pub fn upper(&self) -> &[u32]
        ensures value { result.now ≡ self.now.upper }
        ensures ordered { AreOrdered self.now.lower self.now.upper }
    {
        self.upper
    }
}

// Whether the lists are the bounds of windows in order.
fn are_ordered(lower: &[u32], upper: &[u32]) -> bool
    ensures { MatchBool result (AreOrdered lower.now upper.now) (¬ (AreOrdered lower.now upper.now)) }
{
    if lower.len() != upper.len() {
        return false;
    }
    if !rises(lower) {
        return false;
    }
    if !rises(upper) {
        return false;
    }
    none_empty(lower, upper)
}

// Whether no window is empty.
fn none_empty(lower: &[u32], upper: &[u32]) -> bool
    requires { length lower.now ≡ length upper.now }
    ensures { MatchBool result (NoneEmpty lower.now upper.now) (SomeEmpty lower.now upper.now) }
{
    for k in 0..lower.len() {
        if upper[k] < lower[k] {
            return false;
        }
    }
    true
}
