//! What a report writes about a file.

ghost use Rattle.std.specs.Prelude.{◌≡◌, ◌++◌, ℕ, List, IfOk, OnOk, slice_index_or};
ghost use Rattle.lb_strategy.specs.Decisions.{IsRight};
ghost use Rattle.load_report.specs.Figures.{IsPlacement, IsRefinedFor, present_places, spread_of};
ghost use Rattle.load_report.specs.Text.{IsRecordedText, changed_line, decision_line, flawed_line, move_columns, move_lines};
ghost use Rattle.load_report.specs.Text.{planned_text, present_line, present_text, refined_line, refined_text};

use crate::cell::Cell;
use crate::changes::Changes;
use crate::columns::{flawed_columns, placement_columns};
use crate::figures::{Change, Spread};
use crate::line::{Column, push_line};
use crate::places::{planned_places, present_places, refined_places};
use crate::style::Style;
use crate::traffic::Traffic;
use chare_index::{Index, Pe};
use lb_refinement::Refined;
use lb_snapshot::Snapshot;
use lb_strategy::{Decision, check};
use std::alloc::{AllocError, Allocator};

/// Adds the line of the present placement, where no moves are asked for.
///
/// # Errors
///
/// Out of memory.
pub fn push_present<A: Allocator + Copy, B: Allocator>(
    text: &mut Vec<u8, A>,
    style: Style,
    name: &str,
    snapshot: &Snapshot<B>,
) -> Result<(), AllocError>
    ensures text { OnOk result (text.new.items ≡ text.old.items ++ present_text style name.now snapshot.now) }
{
    if style.moves {
        return Ok(());
    }
    push_present_line(text, style.csv, name, snapshot)
}

// The line of the present placement.
fn push_present_line<A: Allocator + Copy, B: Allocator>(
    text: &mut Vec<u8, A>,
    csv: bool,
    name: &str,
    snapshot: &Snapshot<B>,
) -> Result<(), AllocError>
    ensures { OnOk result (text.new.items ≡ text.old.items ++ present_line csv name.now snapshot.now) }
{
    let spread = present_spread(*text.allocator(), snapshot)?;
    let columns = placement_columns(Cell::Present, snapshot.step(), spread, Changes::none());
    push_line(text, csv, name, &columns)
}

// How the elements spread their load at present.
#[tactic(auto, using(crate::proofs::Placements::present_placed))]
fn present_spread<A: Allocator, B: Allocator>(
    alloc: A,
    snapshot: &Snapshot<B>,
) -> Result<Spread, AllocError>
    ensures { IfOk result (λ spread. spread ≡ spread_of snapshot.now.loads (present_places snapshot.now.sizes) snapshot.now.procs) }
{
    let places = present_places(alloc, snapshot)?;
    Ok(Spread::of(snapshot.loads(), &places, snapshot.procs()))
}

/// Adds what is reported of a planned decision for this number of PEs: its line, or those of the elements that it moves.
///
/// # Errors
///
/// Out of memory.
pub fn push_planned<A: Allocator + Copy, B: Allocator, C: Allocator>(
    text: &mut Vec<u8, A>,
    style: Style,
    name: &str,
    snapshot: &Snapshot<B>,
    pes: u32,
    decision: &Decision<C>,
) -> Result<(), AllocError>
    requires { IsRight snapshot.now.loads snapshot.now.sizes pes decision.now }
    ensures text { OnOk result (text.new.items ≡ text.old.items ++ planned_text style name.now snapshot.now pes decision.now) }
{
    if style.moves {
        let sizes = snapshot.sizes().as_slice();
        return push_moves(text, style.csv, name, sizes, pes, decision.moves.as_slice());
    }
    push_decision(
        text,
        Cell::Planned,
        style.csv,
        name,
        snapshot,
        pes,
        decision,
    )
}

/// Adds what is reported of a decision for this number of PEs within some tolerance: its line, or those of its moves.
///
/// # Errors
///
/// Out of memory.
pub fn push_refined<A: Allocator + Copy, B: Allocator, C: Allocator>(
    text: &mut Vec<u8, A>,
    style: Style,
    name: &str,
    snapshot: &Snapshot<B>,
    pes: u32,
    decision: &Refined<C>,
) -> Result<(), AllocError>
    requires { IsRefinedFor snapshot.now.loads snapshot.now.sizes pes decision.now }
    ensures text { OnOk result (text.new.items ≡ text.old.items ++ refined_text style name.now snapshot.now pes decision.now) }
{
    if style.moves {
        let sizes = snapshot.sizes().as_slice();
        return push_moves(
            text,
            style.csv,
            name,
            sizes,
            pes,
            decision.moves().as_slice(),
        );
    }
    push_refined_line(text, style.csv, name, snapshot, pes, decision)
}

/// Adds the line of a decision that was recorded for this number of PEs, where no moves are asked for: its figures if it is
/// right, and that it is flawed if it is not.
///
/// # Errors
///
/// Out of memory.
pub fn push_recorded<A: Allocator + Copy, B: Allocator, C: Allocator>(
    text: &mut Vec<u8, A>,
    style: Style,
    name: &str,
    snapshot: &Snapshot<B>,
    pes: u32,
    decision: &Decision<C>,
) -> Result<(), AllocError>
    ensures text { OnOk result ((made : List ℕ) × IsRecordedText style name.now snapshot.now pes decision.now made × (text.new.items ≡ text.old.items ++ made)) }
{
    if style.moves {
        return Ok(());
    }
    match check(snapshot, pes, decision) {
        Ok(()) => push_decision(
            text,
            Cell::Recorded,
            style.csv,
            name,
            snapshot,
            pes,
            decision,
        ),
        Err(_) => push_flawed(text, style.csv, name, snapshot, pes),
    }
}

// The line of a decision with a flaw.
fn push_flawed<A: Allocator + Copy, B: Allocator>(
    text: &mut Vec<u8, A>,
    csv: bool,
    name: &str,
    snapshot: &Snapshot<B>,
    pes: u32,
) -> Result<(), AllocError>
    ensures { OnOk result (text.new.items ≡ text.old.items ++ flawed_line csv name.now snapshot.now pes) }
{
    let columns = flawed_columns(snapshot.step(), pes, snapshot.loads().len());
    push_line(text, csv, name, &columns)
}

// The line of a right decision of this kind.
fn push_decision<A: Allocator + Copy, B: Allocator, C: Allocator>(
    text: &mut Vec<u8, A>,
    word: Cell,
    csv: bool,
    name: &str,
    snapshot: &Snapshot<B>,
    pes: u32,
    decision: &Decision<C>,
) -> Result<(), AllocError>
    requires { IsRight snapshot.now.loads snapshot.now.sizes pes decision.now }
    ensures { OnOk result (text.new.items ≡ text.old.items ++ decision_line word csv name.now snapshot.now pes decision.now) }
{
    let places = planned_places(*text.allocator(), snapshot, decision, pes)?;
    let change = Change::of(snapshot, decision, pes);
    push_changed(text, word, csv, name, snapshot, pes, &places, change)
}

// The line of a decision within a tolerance.
fn push_refined_line<A: Allocator + Copy, B: Allocator, C: Allocator>(
    text: &mut Vec<u8, A>,
    csv: bool,
    name: &str,
    snapshot: &Snapshot<B>,
    pes: u32,
    decision: &Refined<C>,
) -> Result<(), AllocError>
    requires { IsRefinedFor snapshot.now.loads snapshot.now.sizes pes decision.now }
    ensures { OnOk result (text.new.items ≡ text.old.items ++ refined_line csv name.now snapshot.now pes decision.now) }
{
    let places = refined_places(*text.allocator(), snapshot, decision, pes)?;
    let change = Change::of_refined(snapshot, decision, pes);
    push_changed(
        text,
        Cell::Within,
        csv,
        name,
        snapshot,
        pes,
        &places,
        change,
    )
}

// The line of a placement on this number of PEs, with what a decision for it changes.
fn push_changed<A: Allocator + Copy, B: Allocator>(
    text: &mut Vec<u8, A>,
    word: Cell,
    csv: bool,
    name: &str,
    snapshot: &Snapshot<B>,
    pes: u32,
    places: &[u32],
    change: Change,
) -> Result<(), AllocError>
    requires { IsPlacement snapshot.now.loads places.now pes }
    ensures { OnOk result (text.new.items ≡ text.old.items ++ changed_line word csv name.now snapshot.now pes places.now change) }
{
    let traffic = Traffic::of(*text.allocator(), snapshot, places, pes)?;
    let spread = Spread::of(snapshot.loads(), places, pes);
    let changes = Changes::of(spread, change, traffic);
    push_line(
        text,
        csv,
        name,
        &placement_columns(word, snapshot.step(), spread, changes),
    )
}

// A line for each move.
fn push_moves<A: Allocator + Copy>(
    text: &mut Vec<u8, A>,
    csv: bool,
    name: &str,
    sizes: &[(u32, Pe)],
    pes: u32,
    moves: &[(Index, Pe, Pe)],
) -> Result<(), AllocError>
    ensures { OnOk result (text.new.items ≡ text.old.items ++ move_lines csv name.now sizes.now pes moves.now) }
{
    for &step in moves {
        push_line(text, csv, name, &move_columns(sizes, pes, step))?;
    }
    Ok(())
}

// The columns of an element that moves.
fn move_columns(sizes: &[(u32, Pe)], pes: u32, step: (Index, Pe, Pe)) -> [Column; 5]
    ensures { result ≡ move_columns sizes.now pes step }
{
    let (index, from, to) = step;
    [
        (5, Cell::Number(u64::from(pes))),
        (7, Cell::Number(u64::from(index.get()))),
        (5, Cell::Number(u64::from(from.get()))),
        (5, Cell::Number(u64::from(to.get()))),
        (8, Cell::Number(bytes_at(sizes, index.get()))),
    ]
}

// The bytes of an element, and 0 where there is none.
fn bytes_at(sizes: &[(u32, Pe)], i: u32) -> u64
    ensures { result ≡ (slice_index_or sizes.now i (0, 0)).0 }
{
    match sizes.get(i as usize) {
        Some(&(bytes, _)) => u64::from(bytes),
        None => 0,
    }
}
