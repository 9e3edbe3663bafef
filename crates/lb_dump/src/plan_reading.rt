//! What follows the elements in the format LBD2, up to the moves: a flag and, where that is 1, a decision's numbers and lists.
//! They come in pieces: `plan_end` returns the number of bytes that are needed next, and `read_plan` judges the bytes that have
//! come and makes a plan of them.

ghost use Rattle.std.specs.Prelude.{◌≡◌, ◌++◌, ◌+◌, ◌<◌, ◌≤◌, ◌⊎◌, ℕ, List, length, Err, IfErr, IfOk, MatchBool};
ghost use Rattle.dump_format.specs.Fields.{ending};
ghost use Rattle.dump_format.specs.Layout.{judge, Broken};
ghost use Rattle.lb_dump.specs.Plans.{IsBegun, IsPlan, IsRuleEnd, MayBegin, flag_in, kind_at, kind_in, plan_len, target_in};

use crate::numbers::{WORD_LEN, word};
use crate::plan::DecisionPart;
use crate::plan_lists::{after_floor, recorded_of};
use chare_index::Limits;
use dump_format::DumpError;
use std::alloc::Allocator;

/// Where the target begins, after the flag.
const TARGET_AT: usize = 4;

/// Where the cuts begin, after the target and the bottleneck.
const CUTS_AT: usize = 16;

/// The number of bytes that are needed before more can be judged: up to the end of the next field that has a rule.
pub(crate) fn plan_end(begun: &[u8]) -> usize
    requires { IsBegun begun.now }
    ensures more { length begun.now < result }
    ensures rule { IsRuleEnd begun.now result }
    ensures allowed { (rest : List ℕ) → length begun.now + length rest ≤ result → MayBegin (begun.now ++ rest) }
{
    if begun.len() < TARGET_AT {
        return TARGET_AT;
    }
    if begun.len() < TARGET_AT + WORD_LEN {
        return TARGET_AT + WORD_LEN;
    }
    let target = word(&begun[TARGET_AT..]) as usize;
    let kind_at = kind_at(target);
    if begun.len() < kind_at + WORD_LEN {
        return kind_at + WORD_LEN;
    }
    plan_len(target, word(&begun[kind_at..]))
}

/// The plan in these bytes, or [`DecisionPart::Begun`] where more have to come. No memory is requested before all have come.
///
/// # Errors
///
/// The first fault of the fields that are whole, or else memory for a list was refused.
pub(crate) fn read_plan<A: Allocator + Copy>(
    alloc: A,
    bytes: &[u8],
    count: u32,
) -> Result<DecisionPart<A>, DumpError>
    requires begun { MayBegin bytes.now }
    requires few { count ≤ Limits.ELEMENTS }
    ensures plan { IfOk result (IsPlan bytes.now count) }
    ensures broken { IfErr result (λ e. (e ≡ DumpError.OutOfMemory) ⊎ (judge (ending count) bytes.now ≡ Broken e)) }
    ensures all_come { result ≡ Err DumpError.OutOfMemory → length bytes.now ≡ plan_len (target_in bytes.now) (kind_in bytes.now) }
{
    if bytes.len() < TARGET_AT {
        return Ok(DecisionPart::Begun);
    }
    match word(bytes) {
        0 => return Ok(DecisionPart::Nothing),
        1 => {}
        _ => return Err(DumpError::Flag),
    }
    if bytes.len() < TARGET_AT + WORD_LEN {
        return Ok(DecisionPart::Begun);
    }
    let target = word(&bytes[TARGET_AT..]);
    if !is_target(target) {
        return Err(DumpError::Target);
    }
    read_lists(alloc, bytes, target as usize, count)
}

// Reads the lists of a decision, after a flag of 1 and a good target.
fn read_lists<A: Allocator + Copy>(
    alloc: A,
    bytes: &[u8],
    target: usize,
    count: u32,
) -> Result<DecisionPart<A>, DumpError>
    requires begun { MayBegin bytes.now }
    requires flag { flag_in bytes.now ≡ 1 }
    requires long { 8 ≤ length bytes.now }
    requires target { target ≡ target_in bytes.now }
    requires some_target { 0 < target }
    requires few_targets { target ≤ Limits.PES }
    requires few { count ≤ Limits.ELEMENTS }
    ensures plan { IfOk result (IsPlan bytes.now count) }
    ensures broken { IfErr result (λ e. (e ≡ DumpError.OutOfMemory) ⊎ (judge (ending count) bytes.now ≡ Broken e)) }
    ensures all_come { result ≡ Err DumpError.OutOfMemory → length bytes.now ≡ plan_len (target_in bytes.now) (kind_in bytes.now) }
{
    let kind_at = kind_at(target);
    if bytes.len() < kind_at + WORD_LEN {
        return Ok(DecisionPart::Begun);
    }
    let kind = word(&bytes[kind_at..]);
    if !is_kind(kind) {
        return Err(DumpError::Floor);
    }
    let len = plan_len(target, kind);
    if bytes.len() < len {
        return Ok(DecisionPart::Begun);
    }
    let moves = word(&bytes[len - WORD_LEN..]);
    if moves > count {
        return Err(DumpError::MoveCount);
    }
    let recorded = recorded_of(alloc, bytes, target)?;
    Ok(DecisionPart::Made(recorded, moves))
}

// Whether this number of PEs is 1 to [`Limits::PES`].
fn is_target(target: u32) -> bool
    ensures { MatchBool result ((0 < target) × (target ≤ Limits.PES)) ((target ≡ 0) ⊎ (Limits.PES < target)) }
{
    0 < target && target <= Limits::PES
}

// Whether a floor may be of this kind: there is none, or a fence.
fn is_kind(kind: u32) -> bool
    ensures { MatchBool result (kind ≤ 1) (1 < kind) }
{
    kind <= 1
}

// Where the kind of the floor begins, after the cuts.
fn kind_at(target: usize) -> usize
    requires { target ≤ Limits.PES }
    ensures { result ≡ kind_at target }
{
    CUTS_AT + WORD_LEN * (target + 1)
}

/// The length of a decision up to its moves, with its flag, by its target and the kind of its floor, 0 or 1.
pub(crate) fn plan_len(target: usize, kind: u32) -> usize
    requires { target ≤ Limits.PES }
    ensures value { result ≡ plan_len target kind }
{
    let stops = if kind == 0 { 0 } else { target + 1 };
    kind_at(target) + WORD_LEN + WORD_LEN * stops + after_floor(target)
}
