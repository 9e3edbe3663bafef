//! Dumps: the snapshot of a load database and, where one was recorded, the decision on it, as bytes, written and read
//! exactly. The format LBD1 holds a snapshot whose loads have four bytes; LBD2 has loads of eight bytes, and a decision
//! with its certificates or none.
//!
//! - [`Dump`], with [`Recorded`]: what is written and read.
//! - [`encode_dump`] and [`write_dump`]: the one text in LBD2; [`encode`] and [`write_to`]: that of a snapshot in LBD1.
//! - [`decode`] and [`read_from`]: the dump of a text in either format, or the first fault of the bytes from left to right.
//! - [`read_from_logged`], [`write_dump_logged`] and [`write_to_logged`]: with the calls of the reader or the writer in a log,
//!   which has the failure where one of these failed.
//! - [`DumpReader`]: the same for a text that comes in pieces.
//! - [`DumpError`]: the faults.
//!
//! A text is read part by part: the head, the elements, the plan of a decision and its moves. Each part has a file here, whose
//! calls take the bytes that have come, judge every field that is whole, and return the values or the first fault.
//!
//! ```
//! use lb_dump::{DumpError, decode, encode};
//!
//! // No elements on three PEs, at step 7.
//! let text = b"LBD1\0\0\0\x07\0\0\0\x03\0\0\0\0";
//! let dump = decode(alloc, text)?;
//! assert!(rt; dump.snapshot().step() == 7 && dump.recorded().is_none());
//! assert!(rt; encode(alloc, dump.snapshot())?.as_slice() == text.as_slice());
//! assert!(rt; decode(alloc, &text[..15]).err() == Some(DumpError::Short(15)));
//! ```
#![tactic(auto)]

mod decoding;
mod elements;
mod head;
mod held;
mod moves;
mod numbers;
mod plan;
mod plan_lists;
mod plan_reading;
mod reader;
mod whole_dump;

pub use decoding::{decode, read_from, read_from_logged};
#[doc(hidden)]
pub use dump_format::format_laws;
pub use dump_format::{Dump, DumpError, Recorded};
pub use dump_writing::{
    encode, encode_dump, write_dump, write_dump_logged, write_to, write_to_logged,
};
pub use reader::DumpReader;
