//! What the text of a whole run is.

ghost use Rattle.std.specs.Prelude.{◌≡◌, ℕ, []};
ghost use Rattle.checkpointed_runs.specs.Whole.{whole_text};
ghost use Rattle.rts_run.specs.Outcomes.{OutcomeView};
ghost use Rattle.run_text.specs.Text.{outcome_text};
ghost use Rattle.tally.specs.Tallies.{TallyView};

use std::alloc::Allocator;

/// The law of the text of a whole run. The function does nothing: its clause is the law. Where no round was decided before, the text is
/// [`outcome_text`](run_text::outcome_text).
pub fn text_laws<A: Allocator>()
    ensures none_before { (n : ℕ) (o : OutcomeView TallyView A) → whole_text [] n o ≡ outcome_text n o }
{}
