//! The law of merged chains whose ranks keep their order: when the cuts found on one are right for the chain.

ghost use Rattle.std.specs.Prelude.{ℕ, List};
ghost use Rattle.merged_chains.specs.Merged.{unmerged};
ghost use Rattle.merged_refinement.specs.InOrder.{AreFewestInOrder, AreNearestInOrder};
ghost use Rattle.merged_refinement.specs.Merged.{AreReaches, IsMergedInOrder, KeepsCuts, KeepsPlaces};

/// What a merged chain says of the cuts within a limit that keep the order of the ranks, and why. The function does nothing: its
/// clauses are the laws, of any loads, any bytes, any runs of them, and any number of ranks. Where each element between two
/// bounds of a cut begins a run, cuts of the merged chain that move the fewest bytes, with the start of a run in place of each,
/// are such cuts of the chain; and so are the nearest of them.
///
/// The bounds are two lists of cuts without a block above the limit: one of cuts up to the present ones, from the beginning of
/// the chain on, and one of cuts from the present ones on, up to its end. Any cuts within the limit, moved to the bounds where
/// they lie outside of them, are still within it, and no cut moves more bytes where it is nearer to the present one. So there
/// are best cuts within the bounds. Where no present block is above the limit, the present cuts are bounds on both sides, and the
/// runs are those of whole ranks.
///
/// Nor need elements begin a run that no cuts within the limit reach: those before a greedy walk from the end of the chain, and those
/// behind one from its beginning.
pub fn kept_cuts_law()
    ensures fewest { (loads bytes present runs run_bytes starts standing : List ℕ) (ranks limit : ℕ) (cuts : List ℕ)
        → IsMergedInOrder loads bytes present runs run_bytes starts standing ranks limit
        → AreFewestInOrder runs run_bytes standing ranks limit cuts
        → AreFewestInOrder loads bytes present ranks limit (unmerged starts cuts) }
    ensures nearest { (loads bytes present runs run_bytes starts standing : List ℕ) (ranks limit : ℕ) (cuts : List ℕ)
        → IsMergedInOrder loads bytes present runs run_bytes starts standing ranks limit
        → AreNearestInOrder runs run_bytes standing ranks limit cuts
        → AreNearestInOrder loads bytes present ranks limit (unmerged starts cuts) }
    ensures places { (loads starts near far first last : List ℕ) (ranks limit : ℕ) → AreReaches loads ranks limit first last
        → KeepsPlaces starts ranks near far first last → KeepsCuts loads starts ranks limit near far }
{}
