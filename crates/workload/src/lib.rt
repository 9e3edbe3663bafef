//! Reads the text of a workload: how many PEs and chares a run has, how many rounds, and the amounts of each.
//!
//! - [`Workload`]: what a text says, read by [`Workload::parse`] from bytes or by [`Workload::read_from`] from a
//!   reader; [`Workload::read_from_logged`] reads it with the calls of the reader in a log.
//! - [`WorkError`]: why bytes are no such text.
//!
//! Each line is a word and numbers, each after one blank, and ends with a newline. Numbers are decimal, without
//! leading zeros, and have at most ten digits.
//!
//! ```text
//! pes 2
//! rounds 2
//! pad 8
//! chares 3
//! amounts 3 5 9
//! amounts 1 0 4294967295
//! ```
//!
//! ```
//! use workload::{WorkError, Workload};
//!
//! let workload = Workload::parse(alloc, b"pes 2\nrounds 0\npad 8\nchares 3\n")?;
//! assert!(rt; workload.chares == 3);
//! assert!(rt; matches!(Workload::parse(alloc, b"pes 02\n"), Err(WorkError::Form(1))));
//! assert!(rt;
//!     matches!(
//!         Workload::parse(alloc, b"pes 257\n"),
//!         Err(WorkError::Limit(1))
//!     )
//! );
//! ```
#![tactic(auto)]

mod error;
mod form;
mod judge;
mod laws;
mod reading;
mod workload;

pub use error::WorkError;
#[doc(hidden)]
pub use laws::workload_laws;
pub use workload::Workload;
