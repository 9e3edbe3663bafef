//! What the elements of a run say of it once it has ended: whether the marks that they keep agree with the rounds that its board
//! decided, whether they have finished, and whether there was anything left to do. This needs no thread and no memory.
//!
//! - [`run_agrees`]: whether the marks of all elements of a run agree.
//! - [`pe_agrees`] and [`parcels_agree`]: whether those of all elements on a PE, or packed in parcels, agree.
//! - [`element_agrees`]: whether those of one element agree, which opened on its home.
//! - [`marks_agree`]: whether the given marks of an element agree.
//! - [`run_finished`]: whether every element of a run has finished.
//! - [`marks_law`]: in a run whose elements are what their journals say, marks agree that agree with the rounds.
//! - [`run_is_quiet`]: whether nothing was left to do when it ended.
#![tactic(auto)]

mod finished;
mod law;
mod marks;
mod quiet;
mod run;

pub use finished::run_finished;
pub use law::marks_law;
pub use marks::marks_agree;
pub use quiet::run_is_quiet;
pub use run::{element_agrees, parcels_agree, pe_agrees, run_agrees};
