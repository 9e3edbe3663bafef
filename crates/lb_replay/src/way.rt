//! The ways in which a replay can decide.

use chain_refinement::Tolerance;

/// How a replay decides.
#[derive(Clone, Copy, Debug)]
pub enum Way {
    /// The greatest load is the least possible one, and of the names those that move the fewest bytes: [`plan`](lb_strategy::plan).
    Least,
    /// Within this tolerance: [`refine`](lb_refinement::refine).
    Within(Tolerance),
    /// Within this tolerance, and the PEs keep their order: [`refine_keeping_order`](lb_refinement::refine_keeping_order).
    InOrder(Tolerance),
    /// Within this tolerance, where the PEs may change their order: [`refine_in_any_order`](lb_any_order::refine_in_any_order).
    InAnyOrder(Tolerance),
}
