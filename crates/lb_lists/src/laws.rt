//! Laws of the planner over lists: equal runs get equal plans, and a plan by scaled loads is nearly the best by the loads.

ghost use Rattle.std.specs.Prelude.{◌≡◌, ◌≤◌, ◌+◌, ◌*◌, Bool, ℕ, List, length};
ghost use Rattle.std.specs.Float.{Float};
ghost use Rattle.lb_certificates.specs.Chain.{peak, IsDivision, IsLeastDivision};
ghost use Rattle.lb_lists.specs.Places.{ArePlaces};
ghost use Rattle.lb_lists.specs.Plans.{IsPlan};
ghost use Rattle.lb_lists.specs.Refinings.{AreToldSame, IsDecidedRun, Standing, Told};
ghost use Rattle.lb_lists.specs.Runs.{Listed};
ghost use Rattle.lb_lists.specs.Scales.{in_ticks, ticks, IsScaled};

/// A law: two plans of one run for the same number of PEs have the same places, bottleneck and bytes. So each rank of a
/// parallel program may plan by itself, from the same lists. The function does nothing.
pub fn one_plan()
    ensures same_plan { (run : Listed) (pes : ℕ) (places others : List ℕ) (bottleneck other moved more : ℕ) → IsPlan run pes places bottleneck moved
        → IsPlan run pes others other more → (places ≡ others) × (bottleneck ≡ other) × (moved ≡ more) }
{}

/// A law: two decisions of one run within the same tolerance, for the same number of PEs, that both keep their order or both need
/// not, are both near the present cuts or both the plan, and have the same cuts, names, bytes, least division and places. So each
/// rank of a parallel program may decide by itself, from the same lists. The function does nothing.
pub fn one_refined_run()
    ensures same_kind { (run : Listed) (pes thousandths : ℕ) (keep near also : Bool) (told other : Told) (standing stood : Standing)
        → IsDecidedRun run pes thousandths keep near told standing → IsDecidedRun run pes thousandths keep also other stood → near ≡ also }
    ensures same_decision { (run : Listed) (pes thousandths : ℕ) (keep near also : Bool) (told other : Told) (standing stood : Standing)
        → IsDecidedRun run pes thousandths keep near told standing → IsDecidedRun run pes thousandths keep also other stood → AreToldSame told other }
    ensures same_places { (run : Listed) (pes thousandths : ℕ) (keep near also : Bool) (told other : Told) (standing stood : Standing) (places others : List ℕ)
        → IsDecidedRun run pes thousandths keep near told standing → IsDecidedRun run pes thousandths keep also other stood
        → ArePlaces told.cuts told.names (length run.loads) places → ArePlaces other.cuts other.names (length run.loads) others → places ≡ others }
{}

/// A law: where loads were counted in units by [`scale_loads`](crate::scale_loads), the heaviest block of a least division of
/// the counts is, by the loads themselves, heavier than that of any other division by at most one unit for each element. The
/// function does nothing.
pub fn near_least()
    ensures near { (loads : List Float) (unit : Float) (scaled : List ℕ) (pes bottleneck : ℕ) (cuts others : List ℕ) → IsScaled loads unit scaled
        → IsLeastDivision scaled pes bottleneck cuts → IsDivision 0 (length loads) pes others
        → peak (in_ticks loads) cuts ≤ peak (in_ticks loads) others + length loads * ticks unit }
{}
