//! A rod on fire: the heat equation over cells in doubles, as strips that are chares. In each step a strip gets the cells beside it
//! from its two neighbors as ghost cells, computes its cells, and contributes how much they changed at most. Cells that burn cost more,
//! and the fire goes along the rod, so the strips are balanced every few steps.
//!
//! - [`Rod`]: the strips of a rod, as they open. [`RodPlan`]: how long they go on, and how often they are balanced.
//! - [`RodStrip`]: the chare, which takes part in reductions; [`RodChare`]: the same as a chare of a run.
//! - [`GhostCell`]: what a strip tells a neighbor. [`CELLS`]: how many cells a strip has.
//! - [`next_cell`]: a step of one cell, with its numbers: [`RATE`], [`IGNITION`], [`FLAME`], [`SHARE`], [`PARTS`] and [`COLD`].
#![tactic(auto)]

mod ghost_cell;
mod heating;
mod plan;
mod posting;
mod rod;
mod rod_strip;
mod stage;
mod sweep;

pub use ghost_cell::GhostCell;
pub use heating::{COLD, FLAME, IGNITION, PARTS, RATE, SHARE, next_cell};
pub use plan::RodPlan;
pub use rod::{Rod, RodChare};
pub use rod_strip::RodStrip;
pub use sweep::CELLS;
