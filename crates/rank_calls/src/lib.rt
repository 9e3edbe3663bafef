//! A PE of chares whose handlers run elsewhere, behind a handle that a program in C can keep.
//!
//! Rattle calls no C. So control is turned round: the program asks the PE what is due, runs the handler itself, and hands the
//! answer in. It carries the parcels too, as bytes.
//!
//! - [`Handle`]: the pointer that the program keeps. [`Handle::call`] does what is asked.
//! - [`Request`], [`Reply`], [`CallError`]: what is asked, what is answered, and why nothing was done.
//! - [`Rank`], with [`RunName`] and [`Told`]: the PE behind the pointer, of a run that no code knows.
//!
//! # What the program promises
//!
//! A PE is proved for every run: how many elements and PEs it has, and what its handlers answer. Which run it is no code knows, and
//! a handle has it as ghost data from its beginning. `IsAsked` (specs/Calls.antt) is all that the program promises of the run:
//!
//! - A PE is opened with the numbers of elements and PEs that the run has.
//! - An answer that is handed in is the one of the run to the next entry of that element. For each program there is such a run, where
//!   it answers each entry of an element once: what it handed in.
//! - A parcel that is received was given up by a PE of the same run, as the same bytes, and is received once. An element has the history
//!   that its ghost entries say.
//!
//! All else that a call needs is tested, and is a [`CallError`] where it is not so: `refusal` (specs/Refusals.antt) says which.
#![tactic(auto)]

mod handle;
mod lodge;
mod opening;
mod rank;
mod request;
mod run;
mod serving;
mod steps;

pub use handle::Handle;
pub use rank::Rank;
pub use request::{CallError, Reply, Request};
pub use run::{RunName, Told};
