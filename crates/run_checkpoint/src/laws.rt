//! Laws of the text of a checkpoint: a text is that of at most one checkpoint, and a checkpoint has at most one text.

ghost use Rattle.std.specs.Prelude.{◌≡◌, ◌<◌, ◌≤◌, ℕ, List, length, replicate};
ghost use Rattle.run_checkpoint.specs.Faults.{IsFault};
ghost use Rattle.run_checkpoint.specs.Tallies.{TakesRound, amounts_of, tally_after};
ghost use Rattle.run_checkpoint.specs.Text.{CheckpointView, IsCheckpointText, IsWithin, checkpoint_text};
ghost use Rattle.run_checkpoint.specs.declared.error.CheckpointError.{CheckpointError};
ghost use Rattle.run_checkpoint.specs.declared.form.TheConstants.{TEXT_BYTES};
ghost use Rattle.workload.specs.Text.{IsText, IsWithin as IsWorkload, WorkloadView, workload_text};

/// Laws of the text. The function does nothing: its clauses are the laws. Bytes are the text of at most one checkpoint, a
/// checkpoint has at most one text, bytes have at most one fault, and never are a text and have a fault. What is written for a
/// checkpoint within its limits is its text, unless that of its workload is too long; no text is too long. After no rounds a
/// tally has its amounts and padding, and has posted and got nothing; and it goes from what it is after some rounds to what it is after
/// one more by its own steps, on the letter that its neighbor's step sends.
pub fn checkpoint_laws()
    ensures one_checkpoint { (c d : CheckpointView) (bytes : List ℕ) → IsCheckpointText c bytes → IsCheckpointText d bytes → c ≡ d }
    ensures one_text { (c : CheckpointView) (a b : List ℕ) → IsCheckpointText c a → IsCheckpointText c b → a ≡ b }
    ensures one_fault { (bytes : List ℕ) (e f : CheckpointError) → IsFault bytes e → IsFault bytes f → e ≡ f }
    ensures no_fault { (c : CheckpointView) (bytes : List ℕ) (e : CheckpointError) → IsCheckpointText c bytes → IsFault bytes e → ⊥ }
    ensures written { (c : CheckpointView) → IsWithin c → IsText c.workload (workload_text c.workload) → IsCheckpointText c (checkpoint_text c) }
    ensures short { (c : CheckpointView) (bytes : List ℕ) → IsCheckpointText c bytes → length bytes ≤ TEXT_BYTES }
    ensures opening { (w : WorkloadView) (i : ℕ) → tally_after w 0 i ≡ record { posted = 0; got = 0; sum = 0; amounts = amounts_of w i; pad = replicate w.pad 0 } }
    ensures next { (w : WorkloadView) (rounds i : ℕ) → IsWorkload w → rounds < w.rounds → i < w.chares → TakesRound w rounds i }
{}
