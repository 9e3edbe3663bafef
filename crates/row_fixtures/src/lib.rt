//! What the worked rows of several layers are made of: the crates named `.._rows` and the tests in `runs` use it.
//!
//! - [`CountingGate`] and [`MeetingGate`]: gates that show which workers pass, and that two of them do at the same time.
//! - [`Source`] and [`Sink`]: a reader and a writer that fail once, at a given call.
//! - [`example`] and its dumps, rows of dumps ([`push_element`]), and [`pe`] and [`round`] by their numbers.
#![tactic(auto)]

mod failing;
mod gates;
mod numbers;
mod rows;
mod worked;

pub use failing::{Sink, Source};
pub use gates::{CountingGate, MeetingGate};
pub use numbers::{pe, round};
pub use rows::push_element;
pub use worked::{EXAMPLE_DUMP, RECORDED_DUMP, example, example_sizes, is_example};
