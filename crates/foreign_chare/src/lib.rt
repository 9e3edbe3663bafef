//! A chare whose handlers run elsewhere, as in a program in C++: it answers what was handed in for it.
//!
//! - [`Foreign`]: the chare, of which a contract sees a stamp: the index of its element, how many entries that has handled, and the
//!   size of its object after the last of them.
//! - [`Script`]: names what the handlers of a run answer. A run has one whatever its handlers do: the answers that were handed in.
//! - [`Answer`], with [`Send`]: what a handler answered. It has the size of the object, which is at most [`OBJECT_BYTES`].
#![tactic(auto)]

mod answer;
mod foreign;
mod size;

pub use answer::{Answer, Send};
pub use foreign::{Foreign, Script};
pub use size::OBJECT_BYTES;
