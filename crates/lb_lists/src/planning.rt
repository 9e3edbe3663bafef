//! Writes only the new place of each element.

ghost use Rattle.std.specs.Prelude.{◌≡◌, ◌<◌, length, IfOk, IfErr, OnOk, OnErr};
ghost use Rattle.lb_certificates.specs.Chain.{IsDivision};
ghost use Rattle.lb_certificates.specs.Naming.{blocks_between};
ghost use Rattle.lb_lists.specs.Places.{ArePlaces};
ghost use Rattle.lb_lists.specs.Plans.{IsPlan};
ghost use Rattle.lb_lists.specs.Runs.{AreSmall, IsAsked, IsRefusal};

use crate::error::RunError;
use crate::places::write_places;
use crate::plan::{Plan, plan_run};
use crate::run::Run;
use std::alloc::Allocator;

/// The numbers of a plan.
#[derive(Clone, Copy, Debug, PartialEq, Eq)]
pub struct Planned {
    /// The load of the heaviest block, in work units.
    pub bottleneck: u64,
    /// The packed bytes of all elements that move.
    pub moved: u64,
}

/// Plans a run for `pes` PEs, and writes the PE on which each element is to run.
///
/// # Errors
///
/// As [`plan_run`], and [`BadInput`](RunError::BadInput) where there is not one new place for each element. After an error
/// nothing was written.
pub fn plan_into<A: Allocator + Copy>(
    alloc: A,
    run: &Run<'_>,
    pes: u32,
    new_places: &mut [u32],
) -> Result<Planned, RunError>
    ensures planned { IfOk result (λ p. IsPlan run.now pes new_places.new p.bottleneck p.moved) }
    ensures asked { OnOk result (IsAsked run.now pes × (length new_places.old ≡ length run.now.loads)) }
    ensures small { OnOk result (AreSmall run.now.loads) }
    ensures refused { IfErr result (IsRefusal (IsAsked run.now pes × (length new_places.old ≡ length run.now.loads)) (AreSmall run.now.loads)) }
    ensures kept { OnErr result (new_places.new ≡ new_places.old) }
{
    if new_places.len() != run.loads.len() {
        return Err(RunError::BadInput);
    }
    let plan = match plan_run(alloc, run, pes) {
        Ok(plan) => plan,
        Err(refused) => return Err(refused),
    };
    let planned = write_plan(&plan, new_places);
    drop(plan);
    Ok(planned)
}

/// Writes the places of a plan, and returns its numbers.
pub(crate) fn write_plan<A: Allocator>(plan: &Plan<A>, new_places: &mut [u32]) -> Planned
    requires divides { IsDivision 0 (length new_places.old) (blocks_between plan.now.division.cuts) plan.now.division.cuts }
    requires some_block { 0 < blocks_between plan.now.division.cuts }
    requires named { length plan.now.naming ≡ blocks_between plan.now.division.cuts }
    ensures bottleneck { result.bottleneck ≡ plan.now.division.bottleneck }
    ensures moved { result.moved ≡ plan.now.moved }
    ensures placed { ArePlaces plan.now.division.cuts plan.now.naming (length new_places.old) new_places.new }
{
    let cuts = plan.division.cuts.as_slice();
    write_places(cuts, plan.naming.as_slice(), new_places);
    Planned {
        bottleneck: plan.division.bottleneck,
        moved: plan.moved,
    }
}
