//! What the sums of a run of tallies are.

ghost use Rattle.std.specs.Prelude.{◌≡◌, ℕ, ◌<◌, ◌^◌, List, length};
ghost use Rattle.rts_run.specs.Outcomes.{OutcomeView};
ghost use Rattle.run_text.specs.Laws.{IsAddedUp, IsTallyRun};
ghost use Rattle.run_text.specs.Sums.{AreTallies, packed_sum};
ghost use Rattle.tally.specs.Tallies.{TallyView, tally_pack};

use pup_pack::Pup;
use std::alloc::Allocator;
use tally::Tally;

/// The laws of the sums. The function does nothing: its clauses are the laws. What a run of tallies left meets what
/// [`outcome_text`](crate::outcome_text) requires; the sum in the pack of a tally is that of the tally; and the sum that is
/// printed for an element is that of the tally which it opened with, after all that it has handled.
pub fn sum_laws<A: Allocator + Copy>()
    ensures tallies { (opened : List TallyView) (o : OutcomeView TallyView A) → IsTallyRun ⟦<Tally<A> as Pup<A>>⟧.fits opened o → AreTallies (length opened) o }
    ensures packed { (t : TallyView) → t.sum < 2 ^ 64 → packed_sum (tally_pack t) ≡ t.sum }
    ensures sums { (opened : List TallyView) (o : OutcomeView TallyView A) (e : ℕ)
        → IsTallyRun ⟦<Tally<A> as Pup<A>>⟧.fits opened o → e < length opened → IsAddedUp opened o e }
{}
