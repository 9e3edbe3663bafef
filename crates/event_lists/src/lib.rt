//! Writes and reads the text of a list of events.
//!
//! - [`write_events`]: the text of these events.
//! - [`read_events`]: the events of this text.
//! - [`EventListError`]: why bytes are no such text, and [`EventListLimits`], how many events a list may have.
//!
//! Each event is a line: its name, then the number of its PE and that of its element, where it names them, each after
//! one blank. Numbers are decimal, without leading zeros, and have at most ten digits. Each line ends with a newline.
//!
//! ```text
//! Start 0 3
//! Look 1
//! Flush 1
//! Deliver 0
//! Act 0
//! Report 1
//! Decide
//! Depart 0 3
//! Resume 1 3
//! ```
//!
//! ```
//! use event_lists::{EventListError, read_events, write_events};
//! use rts_core::Event;
//!
//! let events = read_events(alloc, b"Start 0 3\nDecide\n")?;
//! assert!(rt; events.len() == 2 && events[1] == Event::Decide);
//! assert!(rt; write_events(alloc, &events)?.as_bytes() == b"Start 0 3\nDecide\n".as_slice());
//! assert!(rt; read_events(alloc, b"Decide\nLook 01\n").err() == Some(EventListError::Form(2)));
//! assert!(rt; read_events(alloc, b"Decide\nLook 256\n").err() == Some(EventListError::Limit(2)));
//! ```
#![tactic(auto)]

mod error;
mod form;
mod laws;
mod line;
mod name;
mod numbers;
mod reader;
mod writer;

pub use error::EventListError;
pub use form::EventListLimits;
#[doc(hidden)]
pub use laws::event_list_laws;
pub use reader::read_events;
pub use writer::write_events;
