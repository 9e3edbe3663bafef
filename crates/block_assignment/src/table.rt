//! The table of what each block costs on each PE: the bytes that would move.

ghost use Rattle.std.specs.Prelude.{◌≡◌, ℕ, ◌+◌, ◌-◌, ◌^◌, ◌<◌, ◌≤◌, length, slice_index, sum_by, IfOk, OnOk, []};
ghost use Rattle.lb_certificates.specs.Chain.{IsDivision};
ghost use Rattle.lb_snapshot.specs.Measured.{IsSizes};
ghost use Rattle.lb_certificates.specs.Naming.{naming_cost, moved_bytes, IsNaming};
ghost use Rattle.block_assignment.specs.Table.{Table, IsTable, IsTableOf, cost_at};

use crate::costs::Costs;
use chare_index::{Limits, Pe};
use lb_certificates::Cuts;
use lb_snapshot::Sizes;
use std::alloc::{AllocError, Allocator, Global};
use std::marker::Model;

/// The bytes that move where a block runs on a PE, for each block and each PE: an assignment problem of 1 to
/// [`Limits::PES`] blocks and as many PEs. Contracts see it as the number of blocks and the list of the costs,
/// row by row.
#[derive(Drop)]
#[derive_where(Debug)]
pub struct CostTable<A: Allocator = Global> {
    // How many blocks there are.
    count: u32,
    // The costs, row by row.
    costs: Vec<u64, A>,
}

impl<A: Allocator> Model for CostTable<A> {
    ghost Value = { Table };

    ghost view = { λ t. record { blocks = t.count; costs = t.costs.items } };

    ghost invariant = { λ t. IsTable (record { blocks = t.count; costs = t.costs.items }) };
}

impl<A: Allocator + Copy> CostTable<A> {
    /// The table of the blocks into which these cuts divide the elements. An element whose PE is none of the
    /// blocks' moves wherever its block runs. The elements are walked over twice, and the table once.
    ///
    /// # Errors
    ///
    /// Out of memory, where the list of the costs or one row of it was refused.
    pub fn of<B: Allocator, C: Allocator>(
        alloc: A,
        sizes: &Sizes<B>,
        cuts: &Cuts<C>,
    ) -> Result<Self, AllocError>
        requires some_block { 1 < length cuts.now }
        requires few_blocks { length cuts.now ≤ Limits.PES + 1 }
        requires divides { IsDivision 0 (length sizes.now) (length cuts.now - 1) cuts.now }
        ensures table { IfOk result (IsTableOf sizes.now cuts.now) }
    {
        let cuts = cuts.as_slice();
        let costs = costs_of(alloc, sizes.as_slice(), cuts)?;
        Ok(CostTable {
            count: (cuts.len() - 1) as u32,
            costs,
        })
    }
}

impl<A: Allocator> CostTable<A> {
    /// The bytes of block `b` whose present PE is not `p`.
    pub fn cost(&self, b: u32, p: u32) -> u64
        requires block { b < self.now.blocks }
        requires pe { p < self.now.blocks }
        ensures value { result ≡ cost_at self.now b p }
        ensures small { result ≤ 2 ^ 36 }
    {
        self.as_costs().cost(b, p)
    }

    /// The bytes that move where each block runs on the PE of its name.
    pub fn cost_of(&self, names: &[u32]) -> u64
        requires naming { IsNaming self.now.blocks names.now }
        ensures value { result ≡ naming_cost self.now.blocks (cost_at self.now) names.now }
    {
        self.as_costs().cost_of(names)
    }

    /// How many blocks there are, and as many PEs.
    pub fn blocks(&self) -> u32
        ensures value { result ≡ self.now.blocks }
        ensures within_limits { IsTable self.now }
    {
        self.count
    }

    /// What the search for names reads of it.
    pub(crate) fn as_costs(&self) -> Costs<'_>
        ensures value { result ≡ self.now }
        ensures table { IsTable self.now }
    {
        Costs::new(self.count, &self.costs)
    }
}

// The costs of all blocks, block by block.
fn costs_of<A: Allocator + Copy>(
    alloc: A,
    pairs: &[(u32, Pe)],
    cuts: &[u32],
) -> Result<Vec<u64, A>, AllocError>
    requires sizes { IsSizes pairs.now }
    requires some_block { 1 < length cuts.now }
    requires few_blocks { length cuts.now ≤ Limits.PES + 1 }
    requires divides { IsDivision 0 (length pairs.now) (length cuts.now - 1) cuts.now }
    ensures table { IfOk result (λ costs. IsTable (record { blocks = length cuts.now - 1; costs = costs.items })) }
    ensures exact { IfOk result (λ costs. IsTableOf pairs.now cuts.now (record { blocks = length cuts.now - 1; costs = costs.items })) }
{
    let blocks = cuts.len() - 1;
    // Room for a list of all elements too, three numbers of 32 bits for each: a caller that lists the moves when the
    // table is gone finds there memory that is mapped.
    let list = pairs.len() * 3 / 2 + 2;
    let mut costs = Vec::with_capacity(alloc, list.max(blocks * blocks))?;
    let mut row = vec![in alloc; 0u64; blocks]?;
    let pushed = push_rows(&mut costs, &mut row, pairs, cuts);
    drop(row);
    pushed?;
    Ok(costs)
}

// Puts the costs of all blocks, block by block, into the empty list `costs`. `row` is room for those of one block.
fn push_rows<A: Allocator>(
    costs: &mut Vec<u64, A>,
    row: &mut [u64],
    pairs: &[(u32, Pe)],
    cuts: &[u32],
) -> Result<(), AllocError>
    requires empty { costs.old.items ≡ [] }
    requires width { length row.old ≡ length cuts.now - 1 }
    requires sizes { IsSizes pairs.now }
    requires some_block { 1 < length cuts.now }
    requires few_blocks { length cuts.now ≤ Limits.PES + 1 }
    requires divides { IsDivision 0 (length pairs.now) (length cuts.now - 1) cuts.now }
    ensures table { OnOk result (IsTable (record { blocks = length cuts.now - 1; costs = costs.new.items })) }
    ensures exact { OnOk result (IsTableOf pairs.now cuts.now (record { blocks = length cuts.now - 1; costs = costs.new.items })) }
{
    for b in 0..cuts.len() - 1 {
        let first = cuts[b] as usize;
        let end = cuts[b + 1] as usize;
        fill_row(row, &pairs[first..end]);
        costs.extend_from_slice(row)?;
    }
    Ok(())
}

// What the block of these elements costs on each PE: its bytes, less those that stand there.
#[tactic(auto, using(lb_certificates::proofs::BlockCosts::taken_off))]
fn fill_row(row: &mut [u64], pairs: &[(u32, Pe)])
    requires { IsSizes pairs.now }
    ensures { (p : ℕ) → p < length row.new → slice_index row.new p ≡ sum_by (λ size. moved_bytes size p) pairs.now }
{
    row.fill(bytes(pairs));
    for &(size, pe) in pairs {
        let place = pe.get() as usize;
        if place < row.len() {
            row[place] -= u64::from(size);
        }
    }
}

// The bytes of these elements.
#[tactic(auto, using(lb_certificates::proofs::BlockCosts::bytes_fit))]
fn bytes(pairs: &[(u32, Pe)]) -> u64
    requires { IsSizes pairs.now }
    ensures { result ≡ sum_by (λ size. size.0) pairs.now }
{
    let mut total = 0;
    for &(size, _) in pairs {
        total += u64::from(size);
    }
    total
}
