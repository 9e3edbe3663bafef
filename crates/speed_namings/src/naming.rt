//! Finds the cheapest names with which no PE ends after a time.

ghost use Rattle.std.specs.Prelude.{◌≡◌, ℕ, ◌<◌, IfErr, IfOk, length};
ghost use Rattle.lb_certificates.specs.Naming.{naming_cost, total};
ghost use Rattle.block_assignment.specs.declared.error.NameError.TheVariants.{OutOfMemory};
ghost use Rattle.block_assignment.specs.declared.limits.TheConstants.MatrixLimits.{BYTES};
ghost use Rattle.block_assignment.specs.Table.{cost_at};
ghost use Rattle.speed_certificates.specs.Speeds.{count};
ghost use Rattle.speed_namings.specs.Timely.{IsFirstCheapestTimely, MayRun, ProvesTimely};

use crate::costs::{cost_in_order, timely_costs};
use block_assignment::{CostMatrix, NameError, name_blocks_of};
use lb_certificates::{Naming, Prices};
use speed_certificates::{EndTime, PeSpeeds};
use std::alloc::Allocator;

/// Of the namings with which no PE ends after the time, the cheapest, and of these the first in dictionary order, with the prices
/// that prove it. `loads` has the load of each block, and the time has to be one by which each block can run on the PE of its own
/// number, as the time of a division is.
///
/// A pair that is not allowed is given a cost above that of the naming by numbers, so a cheapest naming has no such pair.
///
/// # Errors
///
/// [`OutOfMemory`](NameError::OutOfMemory) where memory for a list was refused.
pub fn name_by_speeds<A: Allocator + Copy, B: Allocator>(
    alloc: A,
    costs: &CostMatrix<B>,
    loads: &[u64],
    pes: &PeSpeeds<'_>,
    time: EndTime,
) -> Result<(Naming<A>, Prices<A>), NameError>
    requires pes { count pes.now ≡ costs.now.blocks }
    requires loads { length loads.now ≡ costs.now.blocks }
    requires in_order { (b : ℕ) → b < count pes.now → MayRun loads.now pes.now time b b }
    requires few_bytes { total costs.now.blocks (λ b. cost_at costs.now b b) < BYTES }
    ensures cheapest { IfOk result (λ answer. IsFirstCheapestTimely loads.now pes.now time (naming_cost (count pes.now) (cost_at costs.now)) answer.0) }
    ensures proved { IfOk result (λ answer. ProvesTimely loads.now pes.now time (cost_at costs.now) (naming_cost (count pes.now) (cost_at costs.now) answer.0) answer.1.u answer.1.v) }
    ensures only_memory { IfErr result (λ error. error ≡ OutOfMemory) }
{
    let forbidden = cost_in_order(costs) + 1;
    let timely = timely_costs(alloc, costs, loads, pes, time, forbidden)?;
    name_blocks_of(alloc, &timely)
}
