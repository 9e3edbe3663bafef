//! Laws of the text of an event list: a list in range has one text, and a text is that of at most one list.

ghost use Rattle.std.specs.Prelude.{◌≡◌, ◌⊎◌, ◌≤◌, ℕ, List, length, All};
ghost use Rattle.rts_core.specs.declared.event.Event.{Event};
ghost use Rattle.event_lists.specs.declared.error.EventListError.{EventListError};
ghost use Rattle.event_lists.specs.declared.form.TheConstants.EventListLimits.{EVENTS};
ghost use Rattle.event_lists.specs.Faults.{IsFault};
ghost use Rattle.event_lists.specs.Text.{IsText, IsWithin, events_text};

/// Laws of the text. The function does nothing: its clauses are the laws. Events that are in their range, and no more than a
/// list may have, have one text, and bytes are the text of at most one list of events. Bytes have at most one fault, and
/// they are a text or have a fault, and never both.
#[tactic(auto, using(crate::proofs::Texts::text_laws))]
pub fn event_list_laws()
    ensures written { (events : List Event) → All IsWithin events → length events ≤ EVENTS → IsText events (events_text events) }
    ensures one_list { (a b : List Event) (bytes : List ℕ) → IsText a bytes → IsText b bytes → a ≡ b }
    ensures one_text { (events : List Event) (a b : List ℕ) → IsText events a → IsText events b → a ≡ b }
    ensures one_fault { (bytes : List ℕ) (e f : EventListError) → IsFault bytes e → IsFault bytes f → e ≡ f }
    ensures no_fault { (events : List Event) (bytes : List ℕ) (e : EventListError) → IsText events bytes → IsFault bytes e → ⊥ }
    ensures text_or_fault { (bytes : List ℕ) → ((events : List Event) × IsText events bytes) ⊎ ((e : EventListError) × IsFault bytes e) }
{}
