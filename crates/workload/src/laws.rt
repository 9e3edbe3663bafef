//! Laws of the text of a workload: a text is that of at most one workload, and a workload has at most one text.

ghost use Rattle.std.specs.Prelude.{◌≡◌, ◌⊎◌, ◌++◌, ◌<◌, ℕ, List, length};
ghost use Rattle.workload.specs.declared.error.WorkError.{WorkError};
ghost use Rattle.workload.specs.Faults.{IsFault, IsLineFault, IsOpen};
ghost use Rattle.workload.specs.Text.{IsText, WorkloadView};

/// Laws of the text. The function does nothing: its clauses are the laws. Bytes are the text of at most one workload, a
/// workload has at most one text, bytes have at most one fault, and they are a text or have a fault, and never both. The
/// beginning of a text has no fault that holds whatever follows; and where it is not the whole text, as it is it has the
/// fault of a line without its form.
#[tactic(auto, using(crate::proofs::Texts::text_laws))]
pub fn workload_laws()
    ensures one_workload { (v w : WorkloadView) (bytes : List ℕ) → IsText v bytes → IsText w bytes → v ≡ w }
    ensures one_text { (w : WorkloadView) (a b : List ℕ) → IsText w a → IsText w b → a ≡ b }
    ensures one_fault { (bytes : List ℕ) (e f : WorkError) → IsFault bytes e → IsFault bytes f → e ≡ f }
    ensures one_line { (bytes : List ℕ) (e f : WorkError) → IsLineFault bytes e → IsLineFault bytes f → e ≡ f }
    ensures no_fault { (w : WorkloadView) (bytes : List ℕ) (e : WorkError) → IsText w bytes → IsFault bytes e → ⊥ }
    ensures text_or_fault { (bytes : List ℕ) → ((w : WorkloadView) × IsText w bytes) ⊎ ((e : WorkError) × IsFault bytes e) }
    ensures open_front { (w : WorkloadView) (front rest : List ℕ) → IsText w (front ++ rest) → IsOpen front }
    ensures beginning { (w : WorkloadView) (front rest : List ℕ) → IsText w (front ++ rest) → 0 < length rest → (k : ℕ) × IsFault front (WorkError.Form k) }
{}
