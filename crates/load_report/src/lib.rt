//! What a load balancing step does to the loads: the figures of a placement and of a decision, and the text of a report on
//! them.
#![tactic(auto)]

mod cell;
mod changes;
mod columns;
mod deviation;
mod figures;
mod laws;
mod line;
mod places;
mod style;
mod text;
mod traffic;

pub use figures::{Change, Spread};
#[doc(hidden)]
pub use laws::report_laws;
pub use places::{planned_places, present_places, refined_places};
pub use style::Style;
pub use text::{push_planned, push_present, push_recorded, push_refined};
pub use traffic::Traffic;
