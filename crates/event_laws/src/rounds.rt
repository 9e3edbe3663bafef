//! The rounds of one element: in which order it reaches AtSync and is resumed, and what it does for each round.

ghost use Rattle.std.specs.Prelude.{◌≡◌, ℕ, List, length, Some, slice_get};
ghost use Rattle.std.specs.List.{Contains};
ghost use Rattle.chares.specs.declared.note.Mark.TheVariants.{Synced};
ghost use Rattle.chares.specs.declared.note.Note.TheVariants.{Sync};
ghost use Rattle.chares.specs.Elements.{ElementView, opening_element, ran, IsElementInOrder, IsHistory};
ghost use Rattle.chares.specs.Letters.{Done};
ghost use Rattle.chares.specs.Orders.{MayHandle};
ghost use Rattle.event_laws.specs.Rounds.{MarksArePhases, HasOnePhase};

use chares::Chare;
use std::alloc::Allocator;

/// The rounds of every element. The function does nothing: its clauses are the laws, which hold for any chare. An element that
/// opens is in order, and stays so with each entry that it may handle. Of every element that is what its journal says: where its
/// marks say that it reached AtSync for a round, they name this element; the load is the units of what it has handled since
/// it reached AtSync for the round before, or since it opened, up to this one; and the size is the packed length of its chare
/// at that time. What an element did for a round has one load and one size.
pub fn rounds_law<C: Chare<A>, A: Allocator>()
    ensures opening { (e : ℕ) (chare : C) → IsElementInOrder (opening_element e chare) }
    ensures handled { (el : ElementView C) (n pe : ℕ) (done : Done) → IsElementInOrder el → MayHandle el.progress done → IsElementInOrder (ran C.step C.pack el n pe done) }
    ensures phase { (opened : List C) (el : ElementView C) → IsHistory C.step C.pack opened el → MarksArePhases C.step C.pack opened el }
    ensures once { (opened : List C) (el : ElementView C) → IsHistory C.step C.pack opened el → HasOnePhase C.step C.pack opened el }
{}
