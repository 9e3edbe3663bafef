//! Reductions: each element contributes a value, and each gets the sum of them all, or another fold.
//!
//! The parts are combined in the order of the indices, so that also a sum of doubles has the same bits in each run, on any number of PEs
//! and in every order of events.
//!
//! - [`Contributes`]: a chare that may contribute a value in each handler. [`Input`]: what a handler is given. [`Reacted`]: what it returns.
//! - [`Combines`]: a value with its operation. [`Sum`], [`Least`], [`Greatest`]: those of numbers.
//! - [`Reducing`]: makes such a chare one whose letters are messages, which [`messages::Typed`] makes a chare of a run.
//! - [`send`], [`send_to_all`]: post a message of the chare's own.
//! - [`TreeMessage`]: what goes between the elements. [`tree_law`], [`fold_law`], [`exchange_law`]: laws of the tree that they
//!   go along, and of the results.
#![tactic(auto)]

mod combines;
mod contributes;
mod greatest;
mod laws;
mod least;
mod node;
mod reducing;
mod sending;
mod sum;
mod tree;
mod tree_message;

pub use combines::Combines;
pub use contributes::{Contributes, Input, Reacted};
pub use greatest::Greatest;
pub use laws::{exchange_law, fold_law, tree_law};
pub use least::Least;
pub use reducing::Reducing;
pub use sending::{send, send_to_all};
pub use sum::Sum;
pub use tree_message::TreeMessage;
