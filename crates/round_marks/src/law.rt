//! The law of marks: what their check asks follows from what is said of rounds.

ghost use Rattle.std.specs.Prelude.{◌≡◌, ℕ, List, All, length};
ghost use Rattle.lb_database.specs.Measuring.{elements};
ghost use Rattle.pe_state.specs.Histories.{HasHistories, IsParcelHistory};
ghost use Rattle.pe_state.specs.Pes.{Parcel, PeView};
ghost use Rattle.round_marks.specs.Agreeing.{DoAllAgree};
ghost use Rattle.round_marks.specs.Runs.{AreAllMarked};
ghost use Rattle.sync_board.specs.Boards.{BoardState};

use chares::Chare;
use std::alloc::Allocator;

/// The law of marks. The function does nothing: its clause is the law. Where every element of a run is what its journal says, and the
/// board has as many elements as there were chares, nothing is wanted of the marks but that they agree with the rounds: that they name
/// their element, that they are in the order of the rounds, and that none is of a round after the one under way, follows.
pub fn marks_law<C: Chare<A>, A: Allocator>()
    ensures follow { (opened : List C) (board : BoardState A) (homes : List ℕ) (ends : List (PeView C)) (left : List (List Parcel))
        → elements board.database ≡ length opened → All (HasHistories C.step C.fits C.pack opened) ends
        → All (All (IsParcelHistory C.step C.fits C.pack opened)) left → DoAllAgree board homes ends left → AreAllMarked board homes ends left }
{}
