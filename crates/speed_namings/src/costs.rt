//! The costs of blocks on PEs where not every pair of the two is allowed.

ghost use Rattle.std.specs.Prelude.{◌≡◌, ◌+◌, ◌*◌, ◌<◌, ◌≤◌, ◌↔◌, IfOk, IsTrue, length, slice_index};
ghost use Rattle.lb_certificates.specs.Naming.{total};
ghost use Rattle.block_assignment.specs.Table.{cost_at};
ghost use Rattle.block_assignment.specs.declared.limits.TheConstants.MatrixLimits.{BYTES};
ghost use Rattle.speed_certificates.specs.Speeds.{count};
ghost use Rattle.speed_namings.specs.Timely.{AreTimelyCosts};

use block_assignment::CostMatrix;
use speed_certificates::{EndTime, PeSpeeds};
use std::alloc::{AllocError, Allocator};

/// What it costs that each block runs on the PE of its own number.
pub(crate) fn cost_in_order<A: Allocator>(costs: &CostMatrix<A>) -> u64
    ensures value { result ≡ total costs.now.blocks (λ b. cost_at costs.now b b) }
{
    let mut cost = 0;
    for b in 0..costs.blocks() {
        cost += costs.cost(b, b);
    }
    cost
}

/// These costs, with `forbidden` in place of each for which the PE would end after the time with that block.
pub(crate) fn timely_costs<A: Allocator, B: Allocator>(
    alloc: A,
    costs: &CostMatrix<B>,
    loads: &[u64],
    pes: &PeSpeeds<'_>,
    time: EndTime,
    forbidden: u64,
) -> Result<CostMatrix<A>, AllocError>
    requires pes { count pes.now ≡ costs.now.blocks }
    requires loads { length loads.now ≡ costs.now.blocks }
    requires small { forbidden ≤ BYTES }
    ensures made { IfOk result (AreTimelyCosts costs.now loads.now pes.now time forbidden) }
{
    let blocks = costs.blocks();
    let cells = blocks * blocks;
    let mut list = Vec::with_capacity(alloc, cells as usize)?;
    for cell in 0..cells {
        let (b, pe) = (cell / blocks, cell % blocks);
        let cost = if may_run(loads[b as usize], pes, time, pe) {
            costs.cost(b, pe)
        } else {
            forbidden
        };
        list.push_reserved(cost);
    }
    Ok(CostMatrix::new(blocks, list).unwrap())
}

/// Whether this PE ends by the time if its block has this load.
pub(crate) fn may_run(load: u64, pes: &PeSpeeds<'_>, time: EndTime, pe: u32) -> bool
    requires inside { pe < count pes.now }
    ensures { IsTrue result ↔ ((slice_index pes.now.background pe + load) * time.speed ≤ time.work * slice_index pes.now.speeds pe) }
{
    let work = u128::from(pes.background(pe)) + u128::from(load);
    work * u128::from(time.speed) <= u128::from(time.work) * u128::from(pes.speed(pe))
}
