//! Balance within a tolerance where the PEs may change their order: of all divisions whose greatest load is within a limit, and
//! all namings of their blocks, one that moves the fewest bytes, and a checker for it.
//!
//! - [`Reordered`]: the cuts and the names, with the division that the limit is measured from and the [`ByteBounds`] that prove
//!   that no others move fewer bytes.
//! - [`check_reordered`]: accepts it exactly where every part of it is right, and otherwise reports the first
//!   [`ReorderedFlaw`].
//! - [`moved_by`]: the bytes that cuts and names move.
//! - [`laws`]: what the definitions imply.
#![tactic(auto)]

mod block;
mod bounded;
mod check;
mod claim;
mod flaw;
mod follow;
pub mod laws;
mod levels;
mod most;
mod moved;
mod parts;
mod reordered;
mod row;
mod steep;
mod walk;

pub use check::check_reordered;
pub use flaw::ReorderedFlaw;
pub use levels::{ByteBounds, Levels};
pub use moved::moved_by;
pub use reordered::Reordered;
