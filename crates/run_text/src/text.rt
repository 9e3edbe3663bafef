//! The printed text of an outcome. All of it is made before any of it is printed.

ghost use Rattle.std.specs.Prelude.{◌≡◌, ◌++◌, [], OnOk, IfOk};
ghost use Rattle.std.specs.List.{flat_map};
ghost use Rattle.std.specs.String.{string_bytes};
ghost use Rattle.rts_core.specs.Accounts.{posted_count, executed_count, held_count};
ghost use Rattle.run_account.specs.RunAccounts.{left_world};
ghost use Rattle.run_text.specs.Sums.{AreTallies, element_sums};
ghost use Rattle.run_text.specs.Text.{account_line, blank_number, decision_end, ending_line, fault_line, fault_word, outcome_text, round_line, round_lines, round_start, sums_line};

use crate::sums::sums_of;
use lb_snapshot::Snapshot;
use lb_strategy::Decision;
use pe_worker::Fault;
use rts_core::Account;
use rts_run::Outcome;
use std::alloc::{AllocError, Allocator};
use tally::Tally;

/// The text of what a run of `n` tallies left. Each line ends with a newline byte, and numbers are plain decimals. What this
/// requires of the outcome holds of one that [`run`](rts_run::run) returns, by its clauses `account` and `histories` and the
/// law `tallies` of [`sum_laws`](crate::sum_laws).
///
/// First a line `round r bottleneck B moved M` for each round that was decided, from round 1 on. Then `sums`, with the sum of
/// each element in the order of their indices, wherever it is; or, where a fault ended the run early, `fault` and one of
/// `memory`, `idle`, `unpack`, `stranger`, `toolong`, `worn`, `mismatch` and `stopped`. Last the account,
/// `posted X executed Y held Z`.
///
/// The time is linear in what the run left, except journals, which are not read.
///
/// # Errors
///
/// Memory was refused.
pub fn outcome_text<A: Allocator + Copy>(
    alloc: A,
    n: usize,
    outcome: &Outcome<Tally<A>, A>,
) -> Result<String<A>, AllocError>
    requires tallies { AreTallies n outcome.now }
    ensures text { IfOk result (λ text. string_bytes text ≡ outcome_text n outcome.now) }
{
    let mut text = String::new(alloc);
    push_outcome(alloc, &mut text, n, outcome)?;
    Ok(text)
}

// Writes the text of an outcome to an empty string.
fn push_outcome<A: Allocator + Copy>(
    alloc: A,
    text: &mut String<A>,
    n: usize,
    outcome: &Outcome<Tally<A>, A>,
) -> Result<(), AllocError>
    requires empty { string_bytes text.old ≡ [] }
    requires tallies { AreTallies n outcome.now }
    ensures text { OnOk result (string_bytes text.new ≡ outcome_text n outcome.now) }
{
    push_rounds(text, outcome.rounds())?;
    push_ending(alloc, text, n, outcome)?;
    push_account(text, &outcome.account())
}

fn push_rounds<A: Allocator>(
    text: &mut String<A>,
    rounds: &[(Snapshot<A>, Decision<A>)],
) -> Result<(), AllocError>
    ensures { OnOk result (string_bytes text.new ≡ string_bytes text.old ++ round_lines rounds.now) }
{
    for (i, (_, decision)) in rounds.iter().enumerate() {
        push_round(text, i + 1, decision.division.bottleneck, decision.moved)?;
    }
    Ok(())
}

/// Appends the line of a round. On an error a part of it may have been appended; the only error is that memory was refused.
pub fn push_round<A: Allocator>(
    text: &mut String<A>,
    round: usize,
    bottleneck: u64,
    moved: u64,
) -> Result<(), AllocError>
    ensures line { OnOk result (string_bytes text.new ≡ string_bytes text.old ++ round_line round bottleneck moved) }
{
    push_round_start(text, round)?;
    push_decision_end(text, bottleneck, moved)
}

// A round, without what was decided.
fn push_round_start<A: Allocator>(text: &mut String<A>, round: usize) -> Result<(), AllocError>
    ensures { OnOk result (string_bytes text.new ≡ string_bytes text.old ++ round_start round) }
{
    write!(text, "round {round}")
}

fn push_decision_end<A: Allocator>(
    text: &mut String<A>,
    bottleneck: u64,
    moved: u64,
) -> Result<(), AllocError>
    ensures { OnOk result (string_bytes text.new ≡ string_bytes text.old ++ decision_end bottleneck moved) }
{
    writeln!(text, " bottleneck {bottleneck} moved {moved}")
}

/// Appends the line of the fault, where there is one, or otherwise that of the sums. On an error a part of it may have been appended; the
/// only error is that memory was refused.
pub fn push_ending<A: Allocator + Copy>(
    alloc: A,
    text: &mut String<A>,
    n: usize,
    outcome: &Outcome<Tally<A>, A>,
) -> Result<(), AllocError>
    requires tallies { AreTallies n outcome.now }
    ensures line { OnOk result (string_bytes text.new ≡ string_bytes text.old ++ ending_line outcome.now.fault (element_sums outcome.now n)) }
{
    if let Some(fault) = outcome.fault() {
        return push_fault(text, fault);
    }
    let sums = sums_of(alloc, n, outcome)?;
    push_sums(text, &sums)
}

fn push_fault<A: Allocator>(text: &mut String<A>, fault: Fault) -> Result<(), AllocError>
    ensures { OnOk result (string_bytes text.new ≡ string_bytes text.old ++ fault_line fault) }
{
    let word = fault_word(fault);
    writeln!(text, "fault {word}")
}

/// The word for a fault, as in the text of what a run left.
pub fn fault_word(fault: Fault) -> &'static str
    ensures word { result.now ≡ fault_word fault }
{
    match fault {
        Fault::OutOfMemory => "memory",
        Fault::Idle => "idle",
        Fault::Unpack => "unpack",
        Fault::Stranger => "stranger",
        Fault::TooLong => "toolong",
        Fault::Worn => "worn",
        Fault::Mismatch => "mismatch",
        Fault::Stopped => "stopped",
        Fault::Quiet => "quiet",
    }
}

fn push_sums<A: Allocator>(text: &mut String<A>, sums: &[u64]) -> Result<(), AllocError>
    ensures { OnOk result (string_bytes text.new ≡ string_bytes text.old ++ sums_line sums.now) }
{
    text.push_str("sums")?;
    push_numbers(text, sums)?;
    text.push_str("\n")
}

// A blank and a number, for each.
fn push_numbers<A: Allocator>(text: &mut String<A>, numbers: &[u64]) -> Result<(), AllocError>
    ensures { OnOk result (string_bytes text.new ≡ string_bytes text.old ++ flat_map blank_number numbers.now) }
{
    for number in numbers {
        write!(text, " {number}")?;
    }
    Ok(())
}

/// Appends the line of an account. On an error a part of it may have been appended; the only error is that memory was refused.
pub fn push_account<A: Allocator>(text: &mut String<A>, account: &Account) -> Result<(), AllocError>
    ensures line { OnOk result (string_bytes text.new ≡ string_bytes text.old ++ account_line account.now.posted account.now.executed account.now.held) }
{
    let Account {
        posted,
        executed,
        held,
    } = *account;
    writeln!(text, "posted {posted} executed {executed} held {held}")
}
