//! Laws of the two formats: bytes are the text of at most one dump, and they are a text or have a fault, never both.

ghost use Rattle.std.specs.Prelude.{◌≡◌, ◌++◌, ◌⊎◌, ◌<◌, ℕ, List, All};
ghost use Rattle.lb_snapshot.specs.Measured.{Taken};
ghost use Rattle.dump_format.specs.declared.error.DumpError.{DumpError};
ghost use Rattle.dump_format.specs.Dumps.{Dumped};
ghost use Rattle.dump_format.specs.Text.{IsLbd1, IsLbd2, IsText};
ghost use Rattle.dump_format.specs.Faults.{IsBroken, IsFault, IsGood, IsTextFault, IsWhole};

use std::alloc::Allocator;

/// Laws of the formats. The function does nothing: its clauses are the laws. Bytes are the text of at most one dump, in
/// whichever format; a snapshot has at most one text of LBD1, and a dump at most one of LBD2. A text is whole and has no fault,
/// and bytes have at most one first fault; so what was written can be read back. A fault that shows in some bytes is a fault of
/// the text, and not of reading or writing; every longer text has it, and good bytes have none.
pub fn format_laws<A: Allocator>()
    ensures one_dump { (d e : Dumped A) (text : List ℕ) → IsText d text → IsText e text → d ≡ e }
    ensures one_lbd1 { (s : Taken) (a b : List ℕ) → IsLbd1 s a → IsLbd1 s b → a ≡ b }
    ensures one_lbd2 { (d : Dumped A) (a b : List ℕ) → IsLbd2 d a → IsLbd2 d b → a ≡ b }
    ensures whole { (d : Dumped A) (text : List ℕ) → IsText d text → IsWhole text }
    ensures no_fault { (d : Dumped A) (text : List ℕ) (e : DumpError) → IsText d text → IsFault text e → ⊥ }
    ensures one_fault { (text : List ℕ) (e f : DumpError) → IsFault text e → IsFault text f → e ≡ f }
    ensures good { (text : List ℕ) (e : DumpError) → IsGood text → IsBroken text e → ⊥ }
    ensures text_fault { (text : List ℕ) (e : DumpError) → IsBroken text e → IsTextFault e }
    ensures stays { (text more : List ℕ) (e : DumpError) → IsBroken text e → IsBroken (text ++ more) e }
{}

/// Laws of the two formats of a dump, LBD1 and LBD2. The function does nothing: its clauses are the laws. Bytes are the text of
/// a dump, or they have a fault, and never both. Bytes that are judged whole, field by field, are the text of a dump: each
/// field is that of a number.
pub fn dump_laws<A: Allocator>()
    ensures text_or_fault { (text : List ℕ) → All (λ byte. byte < 256) text → ((d : Dumped A) × IsText d text) ⊎ ((e : DumpError) × IsFault text e) }
    ensures never_both { (d : Dumped A) (text : List ℕ) (e : DumpError) → IsText d text → IsFault text e → ⊥ }
    ensures whole_is_text { (text : List ℕ) → All (λ byte. byte < 256) text → IsWhole text → (d : Dumped A) × IsText d text }
{}
