//! What is known of the chosen division, as clauses of functions that do nothing.

ghost use Rattle.std.specs.Prelude.{ℕ, List};
ghost use Rattle.chain_partition.specs.Chosen.{IsChosen as IsPlainChosen};
ghost use Rattle.speed_certificates.specs.Speeds.{Pes, count};
ghost use Rattle.speed_certificates.specs.declared.division.TimedDivision.{TimedDivision};
ghost use Rattle.speed_partition.specs.Chosen.{IsChosen, IsTheOnly};
ghost use Rattle.speed_partition.specs.Equal.{AreEqual, plain_division};

use std::alloc::Allocator;

/// Loads and PEs have at most one chosen division. The clause is the law; the function does nothing.
pub fn chosen_once_law<A: Allocator>()
    ensures only { (loads : List ℕ) (pes : Pes) (d : TimedDivision A) → IsChosen loads pes d → IsTheOnly loads pes d }
{}

/// Over PEs of one speed and without background, the chosen division is the one that
/// [`divide_chain`](chain_partition::divide_chain) returns: it has the same cuts and the same least fence, and its time is the
/// bottleneck at that speed. The clause is the law; the function does nothing.
pub fn equal_speeds_law<A: Allocator>()
    ensures plain { (loads : List ℕ) (pes : Pes) (d : TimedDivision A) → AreEqual pes → IsChosen loads pes d → IsPlainChosen loads (count pes) (plain_division d) }
{}
