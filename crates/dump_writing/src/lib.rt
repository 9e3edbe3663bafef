//! Writes dumps: the snapshot of a load database and, where one was recorded, a decision on it.
//!
//! - [`encode_dump`] and [`write_dump`]: the text of a dump in the format LBD2.
//! - [`encode`] and [`write_to`]: the text of a snapshot in the format LBD1, whose loads have 32 bits.
//! - [`write_dump_logged`] and [`write_to_logged`] write with a log, and fail only where that has a failure.
//!
//! `specs/Text.antt` of `dump_format` says which bytes these texts are.
//!
//! ```
//! use dump_format::{Dump, DumpError};
//! use dump_writing::{encode, encode_dump};
//! use lb_snapshot::{Loads, Sizes, Snapshot};
//!
//! // No elements on three PEs, at step 7.
//! let loads = Loads::new(Vec::new(alloc)).ok_or("too many")?;
//! let sizes = Sizes::new(Vec::new(alloc)).ok_or("too many")?;
//! let snapshot = Snapshot::new(7, 3, loads, sizes).ok_or("no snapshot")?;
//! let text = encode(alloc, &snapshot)?;
//! assert!(rt; text.as_slice() == b"LBD1\0\0\0\x07\0\0\0\x03\0\0\0\0".as_slice());
//!
//! let dump = Dump::new(snapshot, None).ok_or("no dump")?;
//! let text = encode_dump(alloc, &dump)?;
//! assert!(rt; text.as_slice() == b"LBD2\0\0\0\x07\0\0\0\x03\0\0\0\0\0\0\0\0".as_slice());
//! ```
#![tactic(auto)]

mod decision;
mod elements;
mod encoding;
mod head;
mod items;
mod lengths;
mod narrow;
mod putting;
mod writing;

pub use encoding::{encode, encode_dump};
pub use writing::{write_dump, write_dump_logged, write_to, write_to_logged};
