//! The board of a chare array behind a handle that a program in C can keep.
//!
//! - [`BoardHandle`]: the pointer that the program keeps. Its calls open and close a board, take reports, decide rounds, and read what was
//!   decided.
//! - [`Report`], [`Outline`]: what an element tells, and what a decision comes to.
//! - [`HandleError`]: why a call has done nothing.
//!
//! The program promises nothing but to keep the handle: all that a call needs is tested. Each call does what the board of
//! [`sync_board`] does, and says so in its words; under an error the board is as it was.
#![tactic(auto)]

mod deciding;
mod dumping;
mod error;
mod handle;
mod opening;
mod reading;
mod reporting;

pub use error::HandleError;
pub use handle::BoardHandle;
pub use reading::Outline;
pub use reporting::Report;
