//! What one processing element (PE) does with its elements, its letters and its parcels. It starts no thread and waits
//! for nobody; docs/EVENTS.md tells the protocol.
//!
//! - [`PeState`]: a PE, with a call for its part of each event.
//! - [`PeEnd`]: what a PE holds, as a run leaves it, and [`Elements`], the elements of such PEs by value.
//! - [`Parcel`], with [`HeldParcel`], [`Item`] and [`into_held`]: what is carried from PE to PE, and what a PE holds of
//!   that.
//! - [`Room`]: the elements that stand on a PE, and [`Entries`], a walk over them.
//! - [`Acted`]: which case of Act it was.
//! - [`StepError`]: why a call was refused.
#![tactic(auto)]

mod acted;
mod elements;
mod end;
mod entries;
mod error;
mod lent;
mod parcel;
mod pe;
mod room;
mod row;
mod shelf;

pub use acted::Acted;
pub use elements::Elements;
pub use end::PeEnd;
pub use entries::Entries;
pub use error::StepError;
pub use parcel::{HeldParcel, Item, Parcel, into_held};
pub use pe::PeState;
pub use room::Room;
