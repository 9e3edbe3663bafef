//! The printed text of a run. All of it is made before any of it is printed.

use crate::ending::RodEnding;
use chare_index::Index;
use heat_rod::RodChare;
use rts_run::Outcome;
use run_text::fault_word;
use std::alloc::{AllocError, Allocator, Global};

/// The text of what the run of a rod of `n` strips left: a line `steps S residual R checksum C`, in which R has the bits of the residual
/// of the last step, and C is of the bits of all cells in order; or in place of it `fault`, and what ended the run early.
///
/// # Errors
///
/// Memory was refused.
pub fn text_of(
    alloc: Global,
    n: u32,
    outcome: &Outcome<RodChare<Global>>,
) -> Result<String, AllocError> {
    let mut text = String::new(alloc);
    match outcome.fault() {
        Some(fault) => writeln!(text, "fault {}", fault_word(fault))?,
        None => push_ending(&mut text, ending_of(n, outcome))?,
    }
    Ok(text)
}

// How a rod of `n` strips ended, or `None` where a strip is on no PE.
fn ending_of(n: u32, outcome: &Outcome<RodChare<Global>>) -> Option<RodEnding> {
    let mut ending = RodEnding::of_no_strip();
    for place in 0..n {
        let element = outcome.element(Index::new(place)?)?;
        ending = ending.with(element.chare().chare().chare());
    }
    Some(ending)
}

// Adds the line that tells how a rod ended.
fn push_ending<A: Allocator>(
    text: &mut String<A>,
    ending: Option<RodEnding>,
) -> Result<(), AllocError> {
    let Some(ending) = ending else {
        return writeln!(text, "steps unknown");
    };
    let RodEnding {
        steps,
        residual,
        checksum,
    } = ending;
    writeln!(
        text,
        "steps {steps} residual {residual:016x} checksum {checksum:016x}"
    )
}
