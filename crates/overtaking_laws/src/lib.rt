//! Laws of every free run: of lists of events over a network that keeps no order, where any parcel in a queue may overtake those
//! before it. They are the laws of lists of events, for which `rts_core` and `event_laws` have the definitions. Laws that do not
//! mention locations also hold in every stale run: a free run in which each rank has its own location cache, which may be stale. In a
//! stamped run the cache of a rank holds the places of a decided round that the rank knows, except for the elements in its own room,
//! and what is sent carries that round; then letters follow their elements again. Each law is a clause of a function that does nothing.
//!
//! - [`delivery_laws`]: a list of events is a free run, and so is one where a PE may take any parcel out of its queue.
//! - [`copy_laws`]: a list of events where each rank has a copy of the location words is a stale run, and so is a free run.
//! - [`free_account_laws`], [`stale_account_laws`]: where each letter and each element is.
//! - [`free_place_laws`], [`stale_place_laws`]: an element in a room is nowhere else; and in a free run its location word says where
//!   it is.
//! - [`free_agreement_laws`], [`stale_agreement_laws`]: what the board and the elements agree on, and what a decided round is decided from.
//! - [`free_barrier_law`], [`stale_barrier_law`]: before an element is resumed for a round every element has reported in it and it was decided.
//! - [`free_chase_law`]: how often a letter is forwarded, and what waits on a shelf.
//! - [`free_journal_law`], [`stale_journal_law`]: every letter in the journal of an element was posted to that element.
//! - [`stamped_copy_law`], [`stamped_chase_law`]: a stamped run is a stale run; how often a letter is forwarded in it, and for what
//!   it waits on a shelf.
#![tactic(auto)]

mod account;
mod agreement;
mod barrier;
mod copies;
mod deliveries;
mod letters;
mod places;
mod stamped;

pub use account::{free_account_laws, stale_account_laws};
pub use agreement::{free_agreement_laws, stale_agreement_laws};
pub use barrier::{free_barrier_law, stale_barrier_law};
pub use copies::copy_laws;
pub use deliveries::delivery_laws;
pub use letters::{free_chase_law, free_journal_law, stale_journal_law};
pub use places::{free_place_laws, stale_place_laws};
pub use stamped::{stamped_chase_law, stamped_copy_law};
