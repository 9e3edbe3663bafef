//! The world of a run: PEs with their queues, a location word for each element, and the board, event by event.
//!
//! - [`World`], with [`Event`], [`Reports`] and [`Account`]: a run, step by step, and where its letters are.
//! - From `chares`, what a program writes and what an array is made of: [`Chare`], with [`Here`], [`Effect`], [`Sends`] and
//!   [`SendError`]; [`Letter`], [`Element`], [`Mark`] and [`Note`].
//! - From `pe_state`, what one PE does: [`PeState`], with [`Acted`], [`Parcel`] and [`StepError`].
#![tactic(auto)]

mod account;
mod event;
mod handlers;
mod laws;
mod opening;
mod queue;
mod reports;
mod stepping;
mod sync;
mod transport;
mod world;

pub use account::{Account, held_on, letters_held};
pub use chares::{Chare, Effect, Element, Here, Letter, Mark, Note, SendError, Sends};
pub use event::Event;
pub use laws::{account_laws, local_account_laws};
pub use opening::{opening_pes, opening_queues, opening_words};
pub use pe_state::{Acted, Parcel, PeState, StepError};
pub use queue::Queue;
pub use reports::Reports;
pub use world::World;
