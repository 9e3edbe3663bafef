//! What the columns report of what a decision changes.

ghost use Rattle.std.specs.Prelude.{◌≡◌, ◌*◌};
ghost use Rattle.load_report.specs.Text.{changes_of, ratio, unchanged};

use crate::cell::{Cell, ratio};
use crate::figures::{Change, Spread};
use crate::traffic::Traffic;

/// The cells for what a decision changes.
#[derive(Clone, Copy, Debug, PartialEq, Eq)]
pub(crate) struct Changes {
    pub(crate) least: Cell,
    pub(crate) moved: Cell,
    pub(crate) moved_share: Cell,
    pub(crate) bytes: Cell,
    pub(crate) bytes_share: Cell,
    pub(crate) leave: Cell,
    pub(crate) enter: Cell,
}

impl Changes {
    /// The cells where nothing is decided.
    pub(crate) fn none() -> Changes
        ensures { result ≡ unchanged }
    {
        Changes {
            least: Cell::Nothing,
            moved: Cell::Nothing,
            moved_share: Cell::Nothing,
            bytes: Cell::Nothing,
            bytes_share: Cell::Nothing,
            leave: Cell::Nothing,
            enter: Cell::Nothing,
        }
    }

    /// The cells for this change.
    pub(crate) fn of(spread: Spread, change: Change, traffic: Traffic) -> Changes
        ensures { result ≡ changes_of spread change traffic }
    {
        Changes {
            least: Cell::Number(change.least),
            moved: Cell::Number(change.moved),
            moved_share: share(change.moved, spread.elements),
            bytes: Cell::Number(change.bytes),
            bytes_share: share(change.bytes, change.all_bytes),
            leave: Cell::Number(traffic.leave),
            enter: Cell::Number(traffic.enter),
        }
    }
}

// A part of a whole in per cent.
fn share(part: u64, whole: u64) -> Cell
    ensures { result ≡ ratio (100 * part) whole }
{
    ratio(100 * u128::from(part), whole)
}
