//! Laws of the definitions, each the contract of a function with an empty body.

ghost use Rattle.std.specs.Prelude.{ℕ, List};
ghost use Rattle.lb_refinement.specs.declared.refined.Refined.{Refined};
ghost use Rattle.lb_refinement.specs.InOrder.{IsRefinedInOrder};
ghost use Rattle.lb_refinement.specs.Refined.{AreSame, IsRefined};

use std::alloc::Allocator;

/// The loads, the sizes, the number of PEs and the tolerance determine the refined decision, except for heights and prices.
pub fn one_refined<A: Allocator>()
    ensures one_refined { (loads : List ℕ) (sizes : List (ℕ × ℕ)) (pes tolerance : ℕ) (one other : Refined A)
        → IsRefined loads sizes pes tolerance one → IsRefined loads sizes pes tolerance other → AreSame one other }
{}

/// The loads, the sizes, the number of PEs and the tolerance determine the decision that keeps the order of the PEs, except for
/// heights and prices.
pub fn one_in_order<A: Allocator>()
    ensures one_in_order { (loads : List ℕ) (sizes : List (ℕ × ℕ)) (pes tolerance : ℕ) (one other : Refined A)
        → IsRefinedInOrder loads sizes pes tolerance one → IsRefinedInOrder loads sizes pes tolerance other → AreSame one other }
{}
