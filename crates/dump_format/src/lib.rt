//! What a dump is: a snapshot of a load database and, where it has one, a decision on it with every certificate. This crate has
//! the definitions by which reading and writing are proved: `specs/Text.antt` says which bytes are the text of a dump, in the
//! formats LBD1 and LBD2, and `specs/Fields.antt` which fields a text has, in order, and which fault each may have.
//!
//! - [`Dump`], with [`Recorded`]: the values.
//! - [`DumpError`]: the faults of a text, and why a dump was not read or written.
//! - [`dump_laws`]: bytes are the text of a dump, or they have a fault, and never both.
#![tactic(auto)]

mod dump;
mod error;
mod fields;
mod laws;
mod recorded;

pub use dump::Dump;
pub use error::DumpError;
pub use laws::dump_laws;
#[doc(hidden)]
pub use laws::format_laws;
pub use recorded::Recorded;
