//! The text of a whole run, of which some rounds were decided before. All of it is made before any of it is printed.

ghost use Rattle.std.specs.Prelude.{◌≡◌, ◌+◌, ◌*◌, ◌++◌, [], OnOk, IfOk, IfSome, length};
ghost use Rattle.std.specs.String.{string_bytes};
ghost use Rattle.checkpointed_runs.specs.Whole.{earlier_lines, later_lines, whole_text};
ghost use Rattle.run_text.specs.Sums.{AreTallies, element_sums};
ghost use Rattle.run_text.specs.Text.{ending_line};

use lb_snapshot::Snapshot;
use lb_strategy::Decision;
use rts_core::Account;
use rts_run::Outcome;
use run_checkpoint::DecidedRound;
use run_text::{push_account, push_ending, push_round};
use std::alloc::{AllocError, Allocator};
use tally::Tally;

/// The text of a whole run of `n` tallies: as [`outcome_text`](run_text::outcome_text), but first a line for each of the rounds that
/// were decided before the run which left this; the rounds of that run are counted on, and the account has also the letters of the
/// rounds before, one of each element in each of them.
///
/// # Errors
///
/// Memory was refused; also where the letters are 2^64 or more, which no run has.
pub fn whole_text<A: Allocator + Copy>(
    alloc: A,
    decided: &[DecidedRound],
    n: usize,
    outcome: &Outcome<Tally<A>, A>,
) -> Result<String<A>, AllocError>
    requires tallies { AreTallies n outcome.now }
    ensures text { IfOk result (λ text. string_bytes text ≡ whole_text decided.now n outcome.now) }
{
    let Some(account) = with_earlier(outcome.account(), n, decided.len()) else {
        return Err(AllocError);
    };
    let mut text = String::new(alloc);
    push_earlier(&mut text, decided)?;
    push_rest(alloc, &mut text, decided.len(), n, outcome)?;
    push_account(&mut text, &account)?;
    Ok(text)
}

// Appends the lines of the rounds of a run before which this number of rounds were decided, and its ending.
fn push_rest<A: Allocator + Copy>(
    alloc: A,
    text: &mut String<A>,
    before: usize,
    n: usize,
    outcome: &Outcome<Tally<A>, A>,
) -> Result<(), AllocError>
    requires tallies { AreTallies n outcome.now }
    ensures { OnOk result (string_bytes text.new
        ≡ string_bytes text.old ++ later_lines before outcome.now.board.rounds ++ ending_line outcome.now.fault (element_sums outcome.now n)) }
{
    push_later(text, before, outcome.rounds())?;
    push_ending(alloc, text, n, outcome)
}

// An account with the letters of earlier rounds of `n` elements.
fn with_earlier(account: Account, n: usize, rounds: usize) -> Option<Account>
    ensures posted { IfSome result (λ a. a.posted ≡ account.posted + n * rounds) }
    ensures executed { IfSome result (λ a. a.executed ≡ account.executed + n * rounds) }
    ensures held { IfSome result (λ a. a.held ≡ account.held) }
{
    let earlier = (n as u64).checked_mul(rounds as u64)?;
    Some(Account {
        posted: account.posted.checked_add(earlier)?,
        executed: account.executed.checked_add(earlier)?,
        held: account.held,
    })
}

// Appends the lines of the rounds that were decided before.
fn push_earlier<A: Allocator>(
    text: &mut String<A>,
    decided: &[DecidedRound],
) -> Result<(), AllocError>
    ensures { OnOk result (string_bytes text.new ≡ string_bytes text.old ++ earlier_lines decided.now) }
{
    for (i, DecidedRound { bottleneck, moved }) in decided.iter().enumerate() {
        push_round(text, i + 1, *bottleneck, *moved)?;
    }
    Ok(())
}

// Appends the lines of the rounds of a run before which this number of rounds were decided.
fn push_later<A: Allocator>(
    text: &mut String<A>,
    before: usize,
    rounds: &[(Snapshot<A>, Decision<A>)],
) -> Result<(), AllocError>
    ensures { OnOk result (string_bytes text.new ≡ string_bytes text.old ++ later_lines before rounds.now) }
{
    for (i, (_, decision)) in rounds.iter().enumerate() {
        let Some(number) = (i + 1).checked_add(before) else {
            return Err(AllocError);
        };
        push_round(text, number, decision.division.bottleneck, decision.moved)?;
    }
    Ok(())
}
