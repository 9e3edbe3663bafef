//! Laws of every list of events, and of the elements that they lead to. Each is a clause of a function that does nothing.
//!
//! - [`rounds_law`]: the rounds of one element, in order; the load and the size that it reports for a round are those of its
//!   work for that round.
//! - [`place_laws`]: where the elements are, and where their location words say so.
//! - [`agreement_laws`]: which elements have reported for the round under way, which are at work in it, and which wait
//!   for their places; what the snapshot of a decided round has of each element; and that those have finished of which it is
//!   said.
//! - [`barrier_law`]: before an element is resumed for a round every element has reported in it and it was decided, once; the
//!   element itself is then at its place in that decision; no event changes what is kept of a round; and the loads and sizes
//!   that it was decided on are those of what the elements did for the round.
//! - [`chase_law`]: how often a letter is forwarded, and what waits on a shelf.
//! - [`journal_law`]: every letter in the journal of an element was posted to that element.
//! - [`call_laws`]: a call of a PE that makes two events at once does what these events do.
#![tactic(auto)]

mod agreement;
mod barrier;
mod calls;
mod letters;
mod places;
mod rounds;

pub use agreement::agreement_laws;
pub use barrier::barrier_law;
pub use calls::call_laws;
pub use letters::{chase_law, journal_law};
pub use places::place_laws;
pub use rounds::rounds_law;
