//! Reports on dumps of the load database: from the bytes of a reader, a line for the present placement, one for a
//! recorded decision, and one for the decision for each number of PEs, with one more for a decision within a tolerance; or one
//! for each element that moves.
//!
//! - [`report_dump`]: the report, from the bytes of a reader to the bytes of a writer; [`report_file`]: that of a file.
//! - [`tell`]: what is printed about a file, or the output, where no whole report was written.
//!
//! ```
//! use dump_report::report_dump;
//! use load_report::Style;
//!
//! // One element of 9 bytes on PE 1 of two. For one PE it moves to PE 0.
//! let dump = b"LBD1\0\0\0\x05\0\0\0\x02\0\0\0\x01\0\0\0\x04\0\0\0\x09\0\0\0\x01";
//! let style = Style {
//!     csv: true,
//!     moves: true,
//! };
//! let mut text = Vec::new(alloc);
//! let mut reader = dump.as_slice();
//! let ended = report_dump(alloc, &mut reader, &mut text, "one", &[1], None, style);
//! assert!(rt; ended.status() == 0);
//! assert!(rt; text.as_slice() == b"\"one\",1,0,1,0,9\n".as_slice());
//! ```
#![tactic(auto)]

mod dump_text;
mod report;
mod telling;

pub use report::{report_dump, report_dump_logged, report_file};
pub use telling::tell;
