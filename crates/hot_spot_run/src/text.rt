//! The printed text of a run. All of it is made before any of it is printed.

use crate::loads::{Spread, expected, measured};
use crate::sums::checksum;
use hot_spot_strip::{Strip, StripChain};
use rts_run::Outcome;
use run_text::fault_word;
use std::alloc::{AllocError, Allocator};

/// The text of what the run of a chain on this number of PEs left: for each round `round R greatest G average A moved M`, and
/// then `checksum S`; or in place of the checksum `fault`, and what ended the run early.
///
/// Of a chain that is balanced, the loads are those that were measured in the round, on the PEs where the strips were, and M is
/// the number of bytes that then moved. Of one that is not balanced nothing is measured, and the loads are those that the profile
/// gives for the round. The average is rounded down.
///
/// # Errors
///
/// Memory was refused.
pub fn text_of<A: Allocator + Copy>(
    alloc: A,
    chain: &StripChain<'_>,
    pes: u32,
    outcome: &Outcome<Strip<A>, A>,
) -> Result<String<A>, AllocError> {
    let mut text = String::new(alloc);
    if chain.mode.is_static() {
        push_expected(&mut text, chain, pes)?;
    } else {
        push_measured(&mut text, pes, outcome)?;
    }
    push_ending(&mut text, chain, outcome)?;
    Ok(text)
}

/// The last line of that text alone: the checksum, or what ended the run early.
///
/// # Errors
///
/// Memory was refused.
pub fn ending_of<A: Allocator + Copy>(
    alloc: A,
    chain: &StripChain<'_>,
    outcome: &Outcome<Strip<A>, A>,
) -> Result<String<A>, AllocError> {
    let mut text = String::new(alloc);
    push_ending(&mut text, chain, outcome)?;
    Ok(text)
}

fn push_measured<A: Allocator + Copy>(
    text: &mut String<A>,
    pes: u32,
    outcome: &Outcome<Strip<A>, A>,
) -> Result<(), AllocError> {
    for (i, (snapshot, decision)) in outcome.rounds().iter().enumerate() {
        push_round(text, i + 1, measured(snapshot), pes, decision.moved)?;
    }
    Ok(())
}

fn push_expected<A: Allocator>(
    text: &mut String<A>,
    chain: &StripChain<'_>,
    pes: u32,
) -> Result<(), AllocError> {
    for round in 0..chain.rounds {
        push_round(
            text,
            round as usize + 1,
            expected(chain, pes, round),
            pes,
            0,
        )?;
    }
    Ok(())
}

fn push_round<A: Allocator>(
    text: &mut String<A>,
    round: usize,
    spread: Spread,
    pes: u32,
    moved: u64,
) -> Result<(), AllocError> {
    let average = spread.total / u64::from(pes.max(1));
    let greatest = spread.greatest;
    writeln!(
        text,
        "round {round} greatest {greatest} average {average} moved {moved}"
    )
}

fn push_ending<A: Allocator + Copy>(
    text: &mut String<A>,
    chain: &StripChain<'_>,
    outcome: &Outcome<Strip<A>, A>,
) -> Result<(), AllocError> {
    if let Some(fault) = outcome.fault() {
        return writeln!(text, "fault {}", fault_word(fault));
    }
    let n = u32::try_from(chain.cells.len()).unwrap_or(u32::MAX);
    match checksum(n, outcome) {
        Some(sum) => writeln!(text, "checksum {sum:016x}"),
        None => writeln!(text, "checksum unknown"),
    }
}
