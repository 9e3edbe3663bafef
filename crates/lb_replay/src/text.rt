//! The printed text of a decision, of the plan or within a tolerance. The whole text is made before any of it is written.

ghost use Rattle.std.specs.Prelude.{◌≡◌, ◌++◌, [], OnOk, IfOk, IfErr, if◌then◌else◌, length};
ghost use Rattle.std.specs.List.{flat_map};
ghost use Rattle.std.specs.String.{string_bytes};
ghost use Rattle.lb_certificates.specs.Chain.{IsDivision};
ghost use Rattle.lb_strategy.specs.Decisions.{IsRight};
ghost use Rattle.lb_strategy.specs.declared.error.PlanError.TheVariants.{OutOfMemory};
ghost use Rattle.lb_replay.specs.declared.fault.Fault.TheVariants.{Plan};
ghost use Rattle.lb_replay.specs.Text.{head_line, bottleneck_line, floor_line, blank_number, block_start, block_line, block_lines, pe_line, moved_line, decision_text};
ghost use Rattle.lb_replay.specs.Text.{IsPrintable, limit_line, refined_text, reordered_line};

use crate::fault::Fault;
use chain_refinement::Tolerance;
use lb_certificates::Floor;
use lb_refinement::{Nearness, Refined};
use lb_snapshot::{Loads, Snapshot};
use lb_strategy::{Decision, PlanError};
use std::alloc::{AllocError, Allocator};

/// The text of a decision for `pes` PEs on the snapshot: its division with the floor, a line for each block, and
/// the bytes that move.
///
/// # Errors
///
/// Out of memory, as a fault of the plan.
pub(crate) fn decision_text<A: Allocator, B: Allocator, C: Allocator>(
    alloc: A,
    snapshot: &Snapshot<B>,
    pes: u32,
    decision: &Decision<C>,
) -> Result<String<A>, Fault>
    requires { IsRight snapshot.now.loads snapshot.now.sizes pes decision.now }
    ensures text { IfOk result (λ text. string_bytes text ≡ decision_text snapshot.now pes decision.now) }
    ensures fault { IfErr result (λ fault. fault ≡ Plan OutOfMemory) }
{
    let mut text = String::new(alloc);
    match push_decision(&mut text, snapshot, pes, decision) {
        Ok(()) => Ok(text),
        Err(_) => Err(Fault::Plan(PlanError::OutOfMemory)),
    }
}

// Writes the text of a decision to an empty string.
#[tactic(auto, using(crate::proofs::RightTexts::divides_from_right, crate::proofs::RightTexts::named_from_right))]
fn push_decision<A: Allocator, B: Allocator, C: Allocator>(
    text: &mut String<A>,
    snapshot: &Snapshot<B>,
    pes: u32,
    decision: &Decision<C>,
) -> Result<(), AllocError>
    requires empty { string_bytes text.old ≡ [] }
    requires right { IsRight snapshot.now.loads snapshot.now.sizes pes decision.now }
    ensures text { OnOk result (string_bytes text.new ≡ decision_text snapshot.now pes decision.now) }
{
    let loads = snapshot.loads();
    let cuts = decision.division.cuts.as_slice();
    push_head(text, snapshot.step(), pes, loads.len())?;
    push_bottleneck(text, decision.division.bottleneck)?;
    push_floor(text, &decision.division.floor)?;
    push_blocks(text, loads, cuts, decision.naming.as_slice())?;
    push_moved(text, decision.moved)
}

/// The text of a decision for `pes` PEs on the snapshot within the tolerance: the bottleneck and the floor of the least division,
/// the limit, a line for each block, and the bytes that move. In any order of the PEs a line says whether it is known that none
/// moves fewer bytes.
///
/// # Errors
///
/// Out of memory, as a fault of the plan.
pub(crate) fn refined_text<A: Allocator, B: Allocator, C: Allocator>(
    alloc: A,
    snapshot: &Snapshot<B>,
    pes: u32,
    tolerance: Tolerance,
    in_any_order: bool,
    decision: &Refined<C>,
) -> Result<String<A>, Fault>
    requires { IsPrintable snapshot.now.loads pes decision.now }
    ensures text { IfOk result (λ text. string_bytes text ≡ refined_text snapshot.now pes tolerance in_any_order decision.now) }
    ensures fault { IfErr result (λ fault. fault ≡ Plan OutOfMemory) }
{
    let mut text = String::new(alloc);
    match push_refined(&mut text, snapshot, pes, tolerance, in_any_order, decision) {
        Ok(()) => Ok(text),
        Err(_) => Err(Fault::Plan(PlanError::OutOfMemory)),
    }
}

// Writes the text of a decision within a tolerance to an empty string.
fn push_refined<A: Allocator, B: Allocator, C: Allocator>(
    text: &mut String<A>,
    snapshot: &Snapshot<B>,
    pes: u32,
    tolerance: Tolerance,
    in_any_order: bool,
    decision: &Refined<C>,
) -> Result<(), AllocError>
    requires empty { string_bytes text.old ≡ [] }
    requires printable { IsPrintable snapshot.now.loads pes decision.now }
    ensures text { OnOk result (string_bytes text.new ≡ refined_text snapshot.now pes tolerance in_any_order decision.now) }
{
    let loads = snapshot.loads();
    let least = decision.least();
    push_head(text, snapshot.step(), pes, loads.as_slice().len())?;
    push_bottleneck(text, least.bottleneck)?;
    push_floor(text, &least.floor)?;
    push_limit(text, tolerance.limit(least.bottleneck))?;
    push_reordered(text, in_any_order, &decision.nearness)?;
    push_blocks(text, loads, decision.cuts(), decision.names())?;
    push_moved(text, decision.moved())
}

// In any order of the PEs, whether no cuts and no names move fewer bytes.
fn push_reordered<A: Allocator, C: Allocator>(
    text: &mut String<A>,
    in_any_order: bool,
    nearness: &Nearness<C>,
) -> Result<(), AllocError>
    ensures { OnOk result (string_bytes text.new ≡ string_bytes text.old ++ (if in_any_order then reordered_line nearness.now else [])) }
{
    if !in_any_order {
        return Ok(());
    }
    match nearness {
        Nearness::InAnyOrder(_) => text.push_str("reordered yes\n"),
        Nearness::Planned => text.push_str("reordered no\n"),
        Nearness::InOrder(_) => text.push_str("reordered no\n"),
    }
}

fn push_head<A: Allocator>(
    text: &mut String<A>,
    step: u32,
    pes: u32,
    elements: usize,
) -> Result<(), AllocError>
    ensures { OnOk result (string_bytes text.new ≡ string_bytes text.old ++ head_line step pes elements) }
{
    writeln!(text, "step {step} procs {pes} elements {elements}")
}

fn push_bottleneck<A: Allocator>(text: &mut String<A>, bottleneck: u64) -> Result<(), AllocError>
    ensures { OnOk result (string_bytes text.new ≡ string_bytes text.old ++ bottleneck_line bottleneck) }
{
    writeln!(text, "bottleneck {bottleneck}")
}

fn push_floor<A: Allocator, B: Allocator>(
    text: &mut String<A>,
    floor: &Floor<B>,
) -> Result<(), AllocError>
    ensures { OnOk result (string_bytes text.new ≡ string_bytes text.old ++ floor_line floor.now) }
{
    let Floor::Fence(stops) = floor else {
        return text.push_str("fence zero\n");
    };
    text.push_str("fence")?;
    push_numbers(text, stops.as_slice())?;
    text.push_str("\n")
}

fn push_limit<A: Allocator>(text: &mut String<A>, limit: u64) -> Result<(), AllocError>
    ensures { OnOk result (string_bytes text.new ≡ string_bytes text.old ++ limit_line limit) }
{
    writeln!(text, "limit {limit}")
}

// A space and the number, for each number.
fn push_numbers<A: Allocator>(text: &mut String<A>, numbers: &[u32]) -> Result<(), AllocError>
    ensures { OnOk result (string_bytes text.new ≡ string_bytes text.old ++ flat_map blank_number numbers.now) }
{
    for number in numbers {
        write!(text, " {number}")?;
    }
    Ok(())
}

fn push_blocks<A: Allocator, B: Allocator>(
    text: &mut String<A>,
    loads: &Loads<B>,
    cuts: &[u32],
    names: &[u32],
) -> Result<(), AllocError>
    requires { IsDivision 0 (length loads.now) (length names.now) cuts.now }
    ensures { OnOk result (string_bytes text.new ≡ string_bytes text.old ++ block_lines loads.now cuts.now names.now (length names.now)) }
{
    for b in 0..names.len() {
        let first = cuts[b];
        let end = cuts[b + 1];
        let load = loads.load(first as usize, end as usize);
        push_block(text, b, first, end, load, names[b])?;
    }
    Ok(())
}

fn push_block<A: Allocator>(
    text: &mut String<A>,
    b: usize,
    first: u32,
    end: u32,
    load: u64,
    pe: u32,
) -> Result<(), AllocError>
    ensures { OnOk result (string_bytes text.new ≡ string_bytes text.old ++ block_line b first end load pe) }
{
    push_block_start(text, b, first, end, load)?;
    push_pe(text, first, end, pe)
}

// A block, without its PE.
fn push_block_start<A: Allocator>(
    text: &mut String<A>,
    b: usize,
    first: u32,
    end: u32,
    load: u64,
) -> Result<(), AllocError>
    ensures { OnOk result (string_bytes text.new ≡ string_bytes text.old ++ block_start b first end load) }
{
    write!(text, "block {b} {first}..{end} load {load} pe ")
}

// The PE of a block, or a dash where the block has no element.
fn push_pe<A: Allocator>(
    text: &mut String<A>,
    first: u32,
    end: u32,
    pe: u32,
) -> Result<(), AllocError>
    ensures { OnOk result (string_bytes text.new ≡ string_bytes text.old ++ pe_line first end pe) }
{
    if first == end {
        return text.push_str("-\n");
    }
    writeln!(text, "{pe}")
}

fn push_moved<A: Allocator>(text: &mut String<A>, moved: u64) -> Result<(), AllocError>
    ensures { OnOk result (string_bytes text.new ≡ string_bytes text.old ++ moved_line moved) }
{
    writeln!(text, "moved {moved}")
}
