//! What the search for names reads of a table of costs, whatever its limits.

ghost use Rattle.std.specs.Prelude.{◌≡◌, ℕ, ◌<◌, ◌≤◌, length, slice_index};
ghost use Rattle.lb_certificates.specs.Naming.{naming_cost, IsNaming};
ghost use Rattle.block_assignment.specs.Table.{IsMatrix, cost_at};
ghost use Rattle.block_assignment.specs.declared.limits.TheConstants.MatrixLimits.{BYTES};

use std::marker::Model;

/// What each block costs on each PE. Contracts see it as the number of blocks and the list of the costs, row by row.
#[derive(Drop)]
pub(crate) struct Costs<'a> {
    // How many blocks there are.
    count: u32,
    // The costs, row by row.
    costs: &'a [u64],
}

impl<'a> Model for Costs<'a> {
    ghost use Rattle.block_assignment.specs.Table.{Table, IsMatrix};

    ghost Value = { Table };

    ghost view = { λ t. record { blocks = t.count; costs = t.costs.now } };

    ghost invariant = { λ t. IsMatrix (record { blocks = t.count; costs = t.costs.now }) };
}

impl<'a> Costs<'a> {
    /// The costs of this many blocks.
    pub(crate) fn new(count: u32, costs: &'a [u64]) -> Self
        requires matrix { IsMatrix (record { blocks = count; costs = costs.now }) }
        ensures value { result ≡ record { blocks = count; costs = costs.now } }
    {
        Costs { count, costs }
    }

    /// What block `b` costs on PE `p`.
    #[tactic(auto, using(crate::proofs::Sums::cost_within))]
    pub(crate) fn cost(&self, b: u32, p: u32) -> u64
        requires block { b < self.now.blocks }
        requires pe { p < self.now.blocks }
        ensures value { result ≡ cost_at self.now b p }
        ensures small { result ≤ BYTES }
    {
        self.costs[b as usize * self.blocks() as usize + p as usize]
    }

    /// The costs of block `b`, on each PE.
    #[tactic(auto, using(crate::proofs::Sums::cost_within))]
    pub(crate) fn row(&self, b: u32) -> &[u64]
        requires { b < self.now.blocks }
        ensures counted { length result.now ≡ self.now.blocks }
        ensures costs { (p : ℕ) → p < self.now.blocks → slice_index result.now p ≡ cost_at self.now b p }
        ensures small { (p : ℕ) → p < self.now.blocks → slice_index result.now p ≤ BYTES }
    {
        let start = b as usize * self.blocks() as usize;
        &self.costs[start..start + self.blocks() as usize]
    }

    /// What all blocks cost, each on the PE of its name.
    #[tactic(auto, using(crate::proofs::Sums::total_more))]
    pub(crate) fn cost_of(&self, names: &[u32]) -> u64
        requires naming { IsNaming self.now.blocks names.now }
        ensures value { result ≡ naming_cost self.now.blocks (cost_at self.now) names.now }
    {
        let mut total = 0;
        for b in 0..self.blocks() {
            total += self.cost(b, names[b as usize]);
        }
        total
    }

    /// The greatest cost.
    pub(crate) fn greatest(&self) -> u64
        ensures low { (b p : ℕ) → b < self.now.blocks → p < self.now.blocks → cost_at self.now b p ≤ result }
        ensures small { result ≤ BYTES }
    {
        let mut greatest = 0;
        for i in 0..self.costs.len() {
            if self.costs[i] > greatest {
                greatest = self.costs[i];
            }
        }
        greatest
    }

    /// How many blocks there are, and as many PEs.
    pub(crate) fn blocks(&self) -> u32
        ensures value { result ≡ self.now.blocks }
        ensures within_limits { IsMatrix self.now }
    {
        self.count
    }
}
