//! The files of programs: how one is opened and watched while it is read, and how one is tried before it is written.
//!
//! - [`open_input`]: a file that is read, or for `-` the standard input, as an [`InputFile`].
//! - [`Watched`]: a reader whose bytes a [`Witness`] sees.
//! - [`why_unwritable`]: why a file cannot be written, before there is anything to write.
//!
//! ```
//! use program_files::{Watched, Witness};
//! use std::io::Read;
//!
//! #[derive(Clone, Copy)]
//! struct Lines(u32);
//!
//! impl Witness for Lines {
//!     fn sees(&mut self, bytes: &[u8]) {
//!         for byte in bytes {
//!             if *byte == b'\n' {
//!                 self.0 = self.0.saturating_add(1);
//!             }
//!         }
//!     }
//! }
//!
//! let mut lines = Lines(0);
//! let mut buf = [0; 8];
//! let text: &[u8] = b"one\ntwo\n";
//! let mut reader = Watched::new(text, &mut lines);
//! let _read = reader.read(&mut buf)?;
//! drop(reader);
//! assert!(rt; lines.0 == 2);
//! ```
#![tactic(auto)]

mod input;
mod output;
mod watched;

pub use input::{InputFile, open_input};
pub use output::why_unwritable;
pub use watched::{Watched, Witness};
