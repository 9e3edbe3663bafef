//! The board behind a handle as the board of the world.

ghost use Rattle.std.specs.Prelude.{◌≡◌, ◌<◌, ℕ, Bool, Option, true, [], ◌∷◌, Some};
ghost use Rattle.sync_board.specs.Boards.{Decides, after_finish, after_report, new_board};
ghost use Rattle.board_handle.specs.Calls.{IsTaken, strategy_in};
ghost use Rattle.board_handle.specs.Owning.{BoardView};
ghost use Rattle.chares.specs.declared.note.Note.TheVariants.{Finish, Sync};
ghost use Rattle.chares.specs.declared.trace_entry.TraceEntry.TheVariants.{Decided};
ghost use Rattle.lb_database.specs.Measuring.{elements};
ghost use Rattle.rank_calls.specs.Runs.{Run};
ghost use Rattle.rank_worlds.specs.LateNotes.{opening_late};
ghost use Rattle.rts_core.specs.Events.{IsDecision, board_after};

/// That the board behind a handle may be the board of the world of all ranks. The function does nothing: its clauses are the laws.
///
/// What a clause supposes is what that call of `BoardHandle` promises where it returns no error, in the words of its clauses `answer` and
/// `ok`. A handle that `open` has opened, with the numbers of elements and PEs of a run, has the board of the opening of that run. What
/// `report` or `finish` has taken is a note that the board of the world takes, and that board is then what the handle has. What `decide` has
/// decided is a decision of the board of the world, of the round that `decide` returned.
pub fn rank_board_laws()
    ensures opens { (run : Run) (within : Option ℕ) (is_open : Bool) (board : BoardView)
        → (is_open ≡ true) × (board ≡ new_board run.n run.pes (strategy_in within)) → board ≡ (opening_late run (strategy_in within)).board }
    ensures reported { (was is_open : Bool) (b next : BoardView) (e round units bytes pe : ℕ) → IsTaken was b e round bytes pe
        → (is_open ≡ true) × (next ≡ after_report b e units bytes pe) → board_after b (Sync e round units bytes pe) ≡ Some next }
    ensures finished { (was is_open : Bool) (b next : BoardView) (e : ℕ) → (was ≡ true) × (e < elements b.database)
        → (is_open ≡ true) × (next ≡ after_finish b e) → board_after b (Finish e) ≡ Some next }
    ensures decided { (was is_open : Bool) (b next : BoardView) (round : ℕ) → (was ≡ true) × (round ≡ b.database.round)
        → (is_open ≡ true) × Decides b next → IsDecision b next (Decided round ∷ []) }
{}
