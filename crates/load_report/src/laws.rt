//! Laws of the figures of a report, such as that a right decision has the least greatest load of consecutive blocks.

ghost use Rattle.std.specs.Prelude.{◌≡◌, ◌≤◌, ℕ, List, length};
ghost use Rattle.chain_refinement.specs.Tolerances.{limit_of};
ghost use Rattle.lb_refinement.specs.declared.refined.Refined.{Refined};
ghost use Rattle.lb_refinement.specs.Refined.{IsRefined, refined_cuts, refined_least, refined_names};
ghost use Rattle.lb_strategy.specs.declared.decision.Decision.{Decision};
ghost use Rattle.lb_strategy.specs.Decisions.{IsRight};
ghost use Rattle.load_report.specs.Figures.{greatest, load_of, planned_places};

use std::alloc::Allocator;

/// Laws of the figures. The function does nothing: its clauses are the laws. Where the elements are placed by a right decision,
/// the greatest load of a PE is its bottleneck, the least that it can be for consecutive blocks; and where they are placed by a
/// decision within a tolerance, the greatest load is above the least one by at most the tolerance.
pub fn report_laws<A: Allocator>()
    ensures planned_greatest { (loads : List ℕ) (sizes : List (ℕ × ℕ)) (pes : ℕ) (d : Decision A) → length loads ≡ length sizes → IsRight loads sizes pes d
        → greatest pes (load_of loads (planned_places d.division.cuts d.naming (length sizes))) ≡ d.division.bottleneck }
    ensures refined_greatest { (loads : List ℕ) (sizes : List (ℕ × ℕ)) (pes tolerance : ℕ) (r : Refined A) → length loads ≡ length sizes
        → IsRefined loads sizes pes tolerance r
        → greatest pes (load_of loads (planned_places (refined_cuts r) (refined_names r) (length sizes))) ≤ limit_of (refined_least r).bottleneck tolerance }
{}
