//! The numbers that every other crate uses: the index of an element, the number of a processing element (PE) or of a
//! round, and the limit of each quantity of the runtime.
//!
//! - [`Index`] names an element of the chare array.
//! - [`Pe`] names a PE.
//! - [`Pes`] is a number of PEs.
//! - [`Round`] names a round of load balancing.
//! - [`opening_pe`] is the PE on which an element begins.
//! - [`Limits`] has every limit of the runtime, in this one place.
//! - [`Gate`] is a call that returns nothing, in which tests may wait, and [`NoGate`] is one that returns at once.
#![tactic(auto)]

mod gate;
mod index;
mod limits;
mod opening;
mod pe;
mod pes;
mod round;

pub use gate::{Gate, NoGate};
pub use index::Index;
pub use limits::Limits;
pub use opening::opening_pe;
pub use pe::Pe;
pub use pes::Pes;
pub use round::Round;
