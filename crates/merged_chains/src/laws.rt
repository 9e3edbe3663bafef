//! The law of merged chains: which divisions of a merged chain stand for a least division of the chain.

ghost use Rattle.std.specs.Prelude.{ℕ, ◌<◌, ◌≤◌, ◌↔◌, List};
ghost use Rattle.lb_certificates.specs.declared.division.Division.{Division};
ghost use Rattle.chain_partition.specs.Chosen.{IsChosen};
ghost use Rattle.chain_partition.specs.Greedy.{CanFit, IsGreedy};
ghost use Rattle.merged_chains.specs.declared.walk.Walk.{Walk};
ghost use Rattle.merged_chains.specs.Merged.{AreWindows, IsMerged, KeepsEnds, unmerged_division};
ghost use Rattle.merged_chains.specs.Walks.{IsWalked, all_ends};
ghost use Rattle.merged_chains.specs.Weights.{FirstWeighs, NextWeighs};

use std::alloc::Allocator;

/// What a merged chain says of the chain, and why. The function does nothing: its clauses are the laws, of any loads,
/// any runs of them, and any number of blocks. Where the least bottleneck is from `low` to `high`, and each greedy end
/// within each limit from one below `low` to `high` begins a run, the chosen division of the merged chain, with the start
/// of a run in place of each cut and stop, is that of the chain: bottleneck, cuts and least fence. Two walks of the chain,
/// within one below `low` and within `high`, find windows that keep these ends.
pub fn merged_law<A: Allocator>()
    ensures same { (loads runs starts : List ℕ) (blocks low high : ℕ) (d : Division A) → IsMerged loads runs starts blocks low high
        → IsChosen runs blocks d → IsChosen loads blocks (unmerged_division starts d) }
    ensures windows { (loads starts : List ℕ) (blocks low high : ℕ) → AreWindows loads starts blocks low high → KeepsEnds loads starts blocks low high }
{}

/// What a walk says of a chain that it has come to the end of, part by part. The function does nothing: its clauses are the
/// laws, of any loads and any number of blocks. The ends that the walk found, and then the number of elements for each
/// block that is not closed, are the greedy ends within its limit. So the limit can hold all elements exactly where a block
/// is left.
pub fn walk_law()
    ensures ends { (loads ends : List ℕ) (blocks : ℕ) (walk : Walk) → IsWalked loads blocks ends walk → IsGreedy loads blocks walk.limit (all_ends loads ends blocks walk) }
    ensures fits { (loads ends : List ℕ) (blocks : ℕ) (walk : Walk) → IsWalked loads blocks ends walk
        → 1 ≤ blocks → (CanFit loads blocks walk.limit ↔ (walk.closed < blocks)) }
{}

/// What the loads that parts of a chain have of a division's ranges say of the chain. The function does nothing: its clauses
/// are the laws, of any division and any number of blocks. What the first part has of each range is the load of that range
/// in this part. And the loads of the ranges in the parts so far, with what the next part has, are those in all of them.
pub fn weights_law<A: Allocator>()
    ensures first { (part : List ℕ) (blocks : ℕ) (d : Division A) → FirstWeighs part blocks d }
    ensures next { (before part : List ℕ) (blocks : ℕ) (d : Division A) → NextWeighs before part blocks d }
{}
