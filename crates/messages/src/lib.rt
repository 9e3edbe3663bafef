//! Chares whose letters are messages of a type: they are posted as values, and handled as values.
//!
//! - [`Receives`]: a chare whose letters are messages of a type of its own.
//! - [`Typed`]: makes such a chare a [`Chare`](chares::Chare), which runs as any other does.
//! - [`post`], [`broadcast`]: post a message to one element, or to all.
//! - [`messages_law`]: a letter that was posted with a message is handled as that message.
#![tactic(auto)]

mod laws;
mod posting;
mod receives;
mod typed;

pub use laws::messages_law;
pub use posting::{broadcast, post};
pub use receives::Receives;
pub use typed::Typed;
