//! The costs of blocks whose elements are plain lists, with none of a snapshot's limits.

ghost use Rattle.std.specs.Prelude.{◌≡◌, ℕ, ◌-◌, ◌<◌, ◌≤◌, [], length, slice_index, sum, sum_by, ◌↔◌, All, IsTrue, SomeIff, IfErr, IfOk, OnOk};
ghost use Rattle.std.specs.List.{zip};
ghost use Rattle.lb_certificates.specs.Naming.{naming_cost, moved_bytes, IsNaming};
ghost use Rattle.lb_certificates.specs.Held.{WhereHeld};
ghost use Rattle.block_assignment.specs.Held.{AreHeldBytes, HasHeldCosts, IsHeldRefusal};
ghost use Rattle.block_assignment.specs.Lists.{AreBlocksOf, IsRefusal};
ghost use Rattle.block_assignment.specs.Table.{IsMatrix, IsTableOf, cost_at};
ghost use Rattle.block_assignment.specs.declared.limits.TheConstants.MatrixLimits.{BYTES};

use crate::costs::Costs;
use crate::error::CostError;
use crate::held_rows::{check_table, costs_by_table};
use crate::limits::MatrixLimits;
use lb_certificates::Cuts;
use std::alloc::{AllocError, Allocator, Global};
use std::marker::Model;

/// The bytes that move where a block runs on a PE, for each block and each PE, as in a [`CostTable`](crate::CostTable),
/// but of 1 to [`MatrixLimits::BLOCKS`] blocks and as many PEs. Contracts see it as the number of blocks and the list of
/// the costs, row by row.
#[derive(Drop)]
#[derive_where(Debug)]
pub struct CostMatrix<A: Allocator = Global> {
    // How many blocks there are.
    count: u32,
    // The costs, row by row.
    costs: Vec<u64, A>,
}

impl<A: Allocator> Model for CostMatrix<A> {
    ghost use Rattle.block_assignment.specs.Table.{Table, IsMatrix};

    ghost Value = { Table };

    ghost view = { λ m. record { blocks = m.count; costs = m.costs.items } };

    ghost invariant = { λ m. IsMatrix (record { blocks = m.count; costs = m.costs.items }) };
}

impl<A: Allocator + Copy> CostMatrix<A> {
    /// The costs of the blocks into which these cuts divide the elements. `bytes` has the packed size of each element,
    /// and `places` the PE on which it stands. One whose PE is none of the blocks' moves wherever its block runs. The
    /// elements are walked over three times, and the matrix once.
    ///
    /// # Errors
    ///
    /// The first [`CostError`] that applies, in their order.
    pub fn of<C: Allocator>(
        alloc: A,
        bytes: &[u32],
        places: &[u32],
        cuts: &Cuts<C>,
    ) -> Result<Self, CostError>
        ensures matrix { IfOk result (IsTableOf (zip bytes.now places.now) cuts.now) }
        ensures accepted { OnOk result (AreBlocksOf bytes.now places.now cuts.now) }
        ensures refused { IfErr result (IsRefusal bytes.now places.now cuts.now) }
    {
        check_blocks(bytes, places, cuts)?;
        let cuts = cuts.as_slice();
        let costs = costs_of(alloc, bytes, places, cuts)?;
        Ok(CostMatrix {
            count: (cuts.len() - 1) as u32,
            costs,
        })
    }

    /// The costs by a table alone, whoever added it up. `held` has the bytes of the first block that are on each PE, those
    /// of the second, and so on, of as many PEs as blocks. Where it is the table of some elements and cuts, and each element
    /// is on one of these PEs, this is their matrix. The table is walked over three times.
    ///
    /// # Errors
    ///
    /// The first that applies of [`Unpaired`](CostError::Unpaired), where there is not a number for each block and each PE,
    /// [`BlockCount`](CostError::BlockCount), [`TooManyBytes`](CostError::TooManyBytes) and
    /// [`OutOfMemory`](CostError::OutOfMemory).
    pub fn of_held(alloc: A, held: &[u64], blocks: u32) -> Result<Self, CostError>
        ensures exact { IfOk result (HasHeldCosts blocks held.now) }
        ensures matrix { IfOk result (λ matrix. WhereHeld blocks held.now (λ sizes cuts. IsTableOf sizes cuts matrix)) }
        ensures accepted { OnOk result (AreHeldBytes blocks held.now) }
        ensures refused { IfErr result (IsHeldRefusal blocks held.now) }
    {
        check_table(held, blocks)?;
        let costs = costs_by_table(alloc, held, blocks)?;
        Ok(CostMatrix {
            count: blocks,
            costs,
        })
    }
}

impl<A: Allocator> CostMatrix<A> {
    /// The matrix of these costs, row by row, whatever they measure. It is `None` unless there are 1 to
    /// [`MatrixLimits::BLOCKS`] blocks and a cost for each block on each of as many PEs, none above [`MatrixLimits::BYTES`].
    pub fn new(blocks: u32, costs: Vec<u64, A>) -> Option<Self>
        ensures made { SomeIff result (IsMatrix (record { blocks = blocks; costs = costs.items })) (record { blocks = blocks; costs = costs.items }) }
    {
        let few = 1 <= blocks && blocks <= MatrixLimits::BLOCKS;
        if few && costs.len() as u64 == u64::from(blocks) * u64::from(blocks) && small(&costs) {
            Some(CostMatrix {
                count: blocks,
                costs,
            })
        } else {
            None
        }
    }

    /// The bytes of block `b` whose present PE is not `p`.
    pub fn cost(&self, b: u32, p: u32) -> u64
        requires block { b < self.now.blocks }
        requires pe { p < self.now.blocks }
        ensures value { result ≡ cost_at self.now b p }
        ensures small { result ≤ BYTES }
    {
        self.as_costs().cost(b, p)
    }

    /// The bytes that move where each block runs on the PE of its name.
    pub fn cost_of(&self, names: &[u32]) -> u64
        requires naming { IsNaming self.now.blocks names.now }
        ensures value { result ≡ naming_cost self.now.blocks (cost_at self.now) names.now }
    {
        self.as_costs().cost_of(names)
    }

    /// How many blocks there are, and as many PEs.
    pub fn blocks(&self) -> u32
        ensures value { result ≡ self.now.blocks }
        ensures within_limits { IsMatrix self.now }
    {
        self.count
    }

    /// What the search for names reads of it.
    pub(crate) fn as_costs(&self) -> Costs<'_>
        ensures value { result ≡ self.now }
    {
        Costs::new(self.count, &self.costs)
    }
}

// Whether no cost is above the limit.
fn small(costs: &[u64]) -> bool
    ensures { IsTrue result ↔ All (λ cost. cost ≤ BYTES) costs.now }
{
    costs.iter().all(|&cost| cost <= MatrixLimits::BYTES)
}

// Whether these lists are blocks of elements within the limits, and what is wrong first where they are not.
fn check_blocks<C: Allocator>(
    bytes: &[u32],
    places: &[u32],
    cuts: &Cuts<C>,
) -> Result<(), CostError>
    ensures accepted { OnOk result (AreBlocksOf bytes.now places.now cuts.now) }
    ensures refused { IfErr result (IsRefusal bytes.now places.now cuts.now) }
{
    if places.len() != bytes.len() {
        return Err(CostError::Unpaired);
    }
    let count = cuts.as_slice().len();
    if count < 2 || count > MatrixLimits::BLOCKS as usize + 1 {
        return Err(CostError::BlockCount);
    }
    if !cuts.divides(bytes.len()) {
        return Err(CostError::Undivided);
    }
    if sum_of(bytes) > u128::from(MatrixLimits::BYTES) {
        return Err(CostError::TooManyBytes);
    }
    Ok(())
}

// The costs of all blocks, block by block.
fn costs_of<A: Allocator + Copy>(
    alloc: A,
    bytes: &[u32],
    places: &[u32],
    cuts: &[u32],
) -> Result<Vec<u64, A>, AllocError>
    requires { AreBlocksOf bytes.now places.now cuts.now }
    ensures matrix { IfOk result (λ costs. IsMatrix (record { blocks = length cuts.now - 1; costs = costs.items })) }
    ensures exact { IfOk result (λ costs. IsTableOf (zip bytes.now places.now) cuts.now (record { blocks = length cuts.now - 1; costs = costs.items })) }
{
    let blocks = cuts.len() - 1;
    let mut costs = Vec::with_capacity(alloc, blocks * blocks)?;
    let mut row = vec![in alloc; 0u64; blocks]?;
    let pushed = push_rows(&mut costs, &mut row, bytes, places, cuts);
    drop(row);
    pushed?;
    Ok(costs)
}

// Puts the costs of all blocks, block by block, into the empty list `costs`. `row` is room for those of one block.
fn push_rows<A: Allocator>(
    costs: &mut Vec<u64, A>,
    row: &mut [u64],
    bytes: &[u32],
    places: &[u32],
    cuts: &[u32],
) -> Result<(), AllocError>
    requires empty { costs.old.items ≡ [] }
    requires width { length row.old ≡ length cuts.now - 1 }
    requires blocks { AreBlocksOf bytes.now places.now cuts.now }
    ensures matrix { OnOk result (IsMatrix (record { blocks = length cuts.now - 1; costs = costs.new.items })) }
    ensures exact { OnOk result (IsTableOf (zip bytes.now places.now) cuts.now (record { blocks = length cuts.now - 1; costs = costs.new.items })) }
{
    for b in 0..cuts.len() - 1 {
        let first = cuts[b] as usize;
        let end = cuts[b + 1] as usize;
        fill_row(row, &bytes[first..end], &places[first..end]);
        costs.extend_from_slice(row)?;
    }
    Ok(())
}

// What the block of these elements costs on each PE: its bytes, less those that stand there.
fn fill_row(row: &mut [u64], bytes: &[u32], places: &[u32])
    requires paired { length places.now ≡ length bytes.now }
    requires small { sum bytes.now ≤ BYTES }
    ensures { (p : ℕ) → p < length row.new → slice_index row.new p ≡ sum_by (λ size. moved_bytes size p) (zip bytes.now places.now) }
{
    row.fill(sum_of(bytes) as u64);
    for i in 0..bytes.len() {
        let place = places[i] as usize;
        if place < row.len() {
            row[place] -= u64::from(bytes[i]);
        }
    }
}

// The sum of these sizes.
fn sum_of(bytes: &[u32]) -> u128
    ensures { result ≡ sum bytes.now }
{
    let mut total = 0;
    for &size in bytes {
        total += u128::from(size);
    }
    total
}
