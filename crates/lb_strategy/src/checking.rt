//! Checks a whole decision with its certificates.

ghost use Rattle.std.specs.Prelude.{◌≡◌, ◌≢◌, ◌<◌, ◌↔◌, ℕ, length, IsOk, OnOk, IfErr, MatchBool};
ghost use Rattle.lb_certificates.specs.Chain.{IsLeastDivision};
ghost use Rattle.lb_certificates.specs.Naming.{IsCheapest};
ghost use Rattle.lb_strategy.specs.Moves.{HasPlace};
ghost use Rattle.lb_strategy.specs.Decisions.{right_moves, IsFirstFlaw, IsNamedRight, IsRight};

use crate::decision::Decision;
use crate::moves::are_moves;
use lb_certificates::{Flaw, check_division, check_naming};
use lb_snapshot::{Loads, Sizes, Snapshot};
use std::alloc::Allocator;

/// Checks a decision for `pes` PEs on this snapshot, whoever made it. `Ok` means that no division of the elements into `pes`
/// consecutive blocks has a lighter heaviest block, that no naming of the blocks moves fewer bytes, and that the decision
/// states these bytes and the moves; so [`place_of`](Decision::place_of) may be called for each element.
///
/// Any number of PEs and any lists may be passed. It takes no memory.
///
/// # Errors
///
/// The first flaw of the division; where there is none, the first of the naming and its prices; and then
/// [`MovedWrong`](Flaw::MovedWrong) and [`MovesWrong`](Flaw::MovesWrong).
pub fn check<A: Allocator, B: Allocator>(
    snapshot: &Snapshot<A>,
    pes: u32,
    decision: &Decision<B>,
) -> Result<(), Flaw>
    ensures exact { IsOk result ↔ IsRight snapshot.now.loads snapshot.now.sizes pes decision.now }
    ensures least { OnOk result (IsLeastDivision snapshot.now.loads pes decision.now.division.bottleneck decision.now.division.cuts) }
    ensures cheapest { OnOk result (IsCheapest snapshot.now.sizes decision.now.division.cuts pes decision.now.naming) }
    ensures places { OnOk result ((i : ℕ) → i < length snapshot.now.sizes → HasPlace decision.now.division.cuts decision.now.naming i) }
    ensures first_flaw { IfErr result (IsFirstFlaw snapshot.now.loads snapshot.now.sizes pes decision.now) }
{
    check_parts(snapshot.loads(), snapshot.sizes(), pes, decision)
}

// Runs the checks of `check` on the loads and the sizes of a snapshot.
#[tactic(auto, using(crate::proofs::RightDecisions::named_from_right))]
fn check_parts<A: Allocator, B: Allocator>(
    loads: &Loads<A>,
    sizes: &Sizes<A>,
    pes: u32,
    decision: &Decision<B>,
) -> Result<(), Flaw>
    ensures exact { IsOk result ↔ IsRight loads.now sizes.now pes decision.now }
    ensures least { OnOk result (IsLeastDivision loads.now pes decision.now.division.bottleneck decision.now.division.cuts) }
    ensures cheapest { OnOk result (IsCheapest sizes.now decision.now.division.cuts pes decision.now.naming) }
    ensures places { OnOk result ((i : ℕ) → i < length sizes.now → HasPlace decision.now.division.cuts decision.now.naming i) }
    ensures first_flaw { IfErr result (IsFirstFlaw loads.now sizes.now pes decision.now) }
{
    check_division(loads, pes, &decision.division)?;
    let moved = check_naming(
        sizes,
        &decision.division.cuts,
        &decision.naming,
        &decision.prices,
    )?;
    if moved != decision.moved {
        return Err(Flaw::MovedWrong);
    }
    if !has_right_moves(sizes, decision) {
        return Err(Flaw::MovesWrong);
    }
    Ok(())
}

// Whether the decision's moves are those that its naming asks for.
fn has_right_moves<A: Allocator, B: Allocator>(sizes: &Sizes<A>, decision: &Decision<B>) -> bool
    requires { IsNamedRight sizes.now decision.now }
    ensures { MatchBool result (decision.now.moves ≡ right_moves sizes.now decision.now)
        (decision.now.moves ≢ right_moves sizes.now decision.now) }
{
    let cuts = decision.division.cuts.as_slice();
    let names = decision.naming.as_slice();
    are_moves(sizes.as_slice(), cuts, names, decision.moves.as_slice())
}
