//! What a reader holds of a text, and how it takes in more: part by part, each by the function of its kind.

ghost use Rattle.std.specs.Prelude.{◌≡◌, ◌≢◌, ◌++◌, ◌+◌, ◌<◌, ◌≤◌, ◌⊎◌, [], length, IfErr, IfOk, IfSome, MatchOption, MatchResult, OnOk};
ghost use Rattle.dump_format.specs.Faults.{IsBroken, IsWhole};
ghost use Rattle.dump_format.specs.Fields.{dump};
ghost use Rattle.dump_format.specs.Layout.{judge, Unfinished};
ghost use Rattle.lb_dump.specs.Heads.{IsHead, head_text};
ghost use Rattle.lb_dump.specs.declared.head.Format.TheVariants.{Lbd2};
ghost use Rattle.lb_dump.specs.declared.plan.DecisionPart.TheVariants.{Begun};
ghost use Rattle.lb_dump.specs.Held.{HasMoves, IsHeld, text_of};
ghost use Rattle.lb_dump.specs.Reading.{HasGoodHead};

use crate::elements::{judge_element, take_elements};
use crate::head::{HEAD_LEN, Head, read_head};
use crate::moves::{MOVE_LEN, judge_move, take_moves};
use crate::plan::DecisionPart;
use crate::plan_reading::{plan_end, read_plan};
use crate::whole_dump::is_whole;
use chare_index::{Index, Pe};
use dump_format::DumpError;
use lb_snapshot::Units;
use std::alloc::{Allocator, Global};

/// The text so far: the values of each part that is whole, and the bytes of the part that has begun.
#[derive(Drop)]
#[derive_where(Debug)]
pub(crate) struct Held<A: Allocator = Global> {
    /// The head, once it is whole.
    pub(crate) head: Option<Head>,
    /// The loads of the elements that are whole.
    pub(crate) loads: Vec<Units, A>,
    /// Their sizes and places.
    pub(crate) sizes: Vec<(u32, Pe), A>,
    /// What follows the elements of LBD2, up to the moves.
    pub(crate) plan: DecisionPart<A>,
    /// The moves that are whole.
    pub(crate) moves: Vec<(Index, Pe, Pe), A>,
    /// The bytes of the part that has begun: the head, an element, a plan or a move.
    pub(crate) begun: Vec<u8, A>,
}

/// Takes in a piece.
///
/// # Errors
///
/// Out of memory, or else the first fault.
pub(crate) fn take_in<A: Allocator + Copy>(
    held: &mut Held<A>,
    piece: &[u8],
) -> Result<(), DumpError>
    requires { IsHeld held.old }
    ensures taken { OnOk result ((text_of held.new ≡ text_of held.old ++ piece.now) × IsHeld held.new) }
    ensures broken { IfErr result (λ e. (e ≡ DumpError.OutOfMemory) ⊎ IsBroken (text_of held.old ++ piece.now) e) }
    ensures no_growth { (length piece.now ≡ 0) ⊎ IsWhole (text_of held.old) → result ≢ Err DumpError.OutOfMemory }
    ensures head_first { result ≡ Err DumpError.OutOfMemory → HasGoodHead (text_of held.old ++ piece.now) }
{
    let mut rest = piece;
    while !rest.is_empty() {
        rest = take_next(held, rest)?;
    }
    Ok(())
}

// Takes in the bytes of the next part, or of several of one kind, and returns the bytes after them.
fn take_next<'a, A: Allocator + Copy>(
    held: &mut Held<A>,
    bytes: &'a [u8],
) -> Result<&'a [u8], DumpError>
    requires held { IsHeld held.old }
    requires some { 0 < length bytes.now }
    ensures taken { IfOk result (λ rest. (text_of held.new ++ rest.now ≡ text_of held.old ++ bytes.now) × IsHeld held.new) }
    ensures shorter { IfOk result (λ rest. length rest.now < length bytes.now) }
    ensures broken { IfErr result (λ e. (e ≡ DumpError.OutOfMemory) ⊎ IsBroken (text_of held.old ++ bytes.now) e) }
    ensures trailing { IsWhole (text_of held.old) → result ≡ Err DumpError.Trailing }
    ensures head_first { result ≡ Err DumpError.OutOfMemory → HasGoodHead (text_of held.old ++ bytes.now) }
{
    if is_whole(held) {
        return Err(DumpError::Trailing);
    }
    let Some(head) = held.head else {
        return take_head(held, bytes);
    };
    if held.loads.len() < head.count as usize {
        return take_element_bytes(held, head, bytes);
    }
    match held.plan {
        DecisionPart::Made(_, all) => take_move_bytes(held, head.count, all, bytes),
        DecisionPart::Begun | DecisionPart::Nothing => take_plan(held, head, bytes),
    }
}

// Takes in bytes of the head. The head is judged first, so that its fault is reported also where memory is refused.
fn take_head<'a, A: Allocator>(held: &mut Held<A>, bytes: &'a [u8]) -> Result<&'a [u8], DumpError>
    requires held { IsHeld held.old }
    requires headless { held.old.head ≡ None }
    requires some { 0 < length bytes.now }
    ensures taken { IfOk result (λ rest. (text_of held.new ++ rest.now ≡ text_of held.old ++ bytes.now) × IsHeld held.new) }
    ensures shorter { IfOk result (λ rest. length rest.now < length bytes.now) }
    ensures broken { IfErr result (λ e. (e ≡ DumpError.OutOfMemory) ⊎ IsBroken (text_of held.old ++ bytes.now) e) }
    ensures head_first { result ≡ Err DumpError.OutOfMemory → HasGoodHead (text_of held.old ++ bytes.now) }
{
    let (start, rest) = bytes.split_at(bytes.len().min(HEAD_LEN - held.begun.len()));
    let Some(head) = head_with(&held.begun, start)? else {
        held.begun.extend_from_slice(start)?;
        return Ok(rest);
    };
    held.begun.clear();
    held.head = Some(head);
    Ok(rest)
}

// The head, where it is whole with these bytes after those that have begun.
#[tactic(auto, using(std::proofs::lemmas::Slice::overwrites, crate::proofs::Steps::take_two))]
fn head_with(begun: &[u8], more: &[u8]) -> Result<Option<Head>, DumpError>
    requires { length begun.now + length more.now ≤ HEAD_LEN }
    ensures answer { MatchResult result
        (λ head. MatchOption head
        ((length (begun.now ++ more.now) < HEAD_LEN) × (judge dump (begun.now ++ more.now) ≡ Unfinished))
        (λ h. IsHead h × (begun.now ++ more.now ≡ head_text h)))
        (λ e. IsBroken (begun.now ++ more.now) e) }
{
    let len = begun.len() + more.len();
    let mut longer = [0; HEAD_LEN];
    longer[..begun.len()].copy_from_slice(begun);
    longer[begun.len()..len].copy_from_slice(more);
    read_head(&longer[..len])
}

// Takes in bytes of elements.
fn take_element_bytes<'a, A: Allocator>(
    held: &mut Held<A>,
    head: Head,
    bytes: &'a [u8],
) -> Result<&'a [u8], DumpError>
    requires held { IsHeld held.old }
    requires headed { held.old.head ≡ Some head }
    requires missing { length held.old.loads.items < head.count }
    requires some { 0 < length bytes.now }
    ensures taken { IfOk result (λ rest. (text_of held.new ++ rest.now ≡ text_of held.old ++ bytes.now) × IsHeld held.new) }
    ensures shorter { IfOk result (λ rest. length rest.now < length bytes.now) }
    ensures broken { IfErr result (λ e. (e ≡ DumpError.OutOfMemory) ⊎ IsBroken (text_of held.old ++ bytes.now) e) }
{
    if held.begun.is_empty() {
        return take_element_run(held, head, bytes);
    }
    let len = head.format.element_len();
    let (start, rest) = bytes.split_at(bytes.len().min(len - held.begun.len()));
    held.begun.extend_from_slice(start)?;
    if held.begun.len() < len {
        judge_element(head.format, &held.begun, held.loads.len())?;
        return Ok(rest);
    }
    take_elements(&head, &mut held.loads, &mut held.sizes, &held.begun)?;
    held.begun.clear();
    Ok(rest)
}

// Takes in bytes that begin where an element does.
fn take_element_run<'a, A: Allocator>(
    held: &mut Held<A>,
    head: Head,
    bytes: &'a [u8],
) -> Result<&'a [u8], DumpError>
    requires held { IsHeld held.old }
    requires headed { held.old.head ≡ Some head }
    requires missing { length held.old.loads.items < head.count }
    requires fresh { held.old.begun.items ≡ [] }
    requires some { 0 < length bytes.now }
    ensures taken { IfOk result (λ rest. (text_of held.new ++ rest.now ≡ text_of held.old ++ bytes.now) × IsHeld held.new) }
    ensures shorter { IfOk result (λ rest. length rest.now < length bytes.now) }
    ensures broken { IfErr result (λ e. (e ≡ DumpError.OutOfMemory) ⊎ IsBroken (text_of held.old ++ bytes.now) e) }
{
    let rest = take_elements(&head, &mut held.loads, &mut held.sizes, bytes)?;
    if held.loads.len() == head.count as usize {
        return Ok(rest);
    }
    judge_element(head.format, rest, held.loads.len())?;
    held.begun.extend_from_slice(rest)?;
    Ok(&[])
}

// Takes in bytes of a plan.
fn take_plan<'a, A: Allocator + Copy>(
    held: &mut Held<A>,
    head: Head,
    bytes: &'a [u8],
) -> Result<&'a [u8], DumpError>
    requires held { IsHeld held.old }
    requires headed { held.old.head ≡ Some head }
    requires all { length held.old.loads.items ≡ head.count }
    requires wide { head.format ≡ Lbd2 }
    requires begun { held.old.plan ≡ Begun }
    requires some { 0 < length bytes.now }
    ensures taken { IfOk result (λ rest. (text_of held.new ++ rest.now ≡ text_of held.old ++ bytes.now) × IsHeld held.new) }
    ensures shorter { IfOk result (λ rest. length rest.now < length bytes.now) }
    ensures broken { IfErr result (λ e. (e ≡ DumpError.OutOfMemory) ⊎ IsBroken (text_of held.old ++ bytes.now) e) }
{
    let alloc = *held.begun.allocator();
    let missing = plan_end(&held.begun) - held.begun.len();
    let (start, rest) = bytes.split_at(bytes.len().min(missing));
    held.begun.extend_from_slice(start)?;
    let plan = read_plan(alloc, &held.begun, head.count)?;
    if let DecisionPart::Begun = plan {
        return Ok(rest);
    }
    held.begun.clear();
    held.plan = plan;
    Ok(rest)
}

// Takes in bytes of moves, of which there will be `all`.
fn take_move_bytes<'a, A: Allocator>(
    held: &mut Held<A>,
    count: u32,
    all: u32,
    bytes: &'a [u8],
) -> Result<&'a [u8], DumpError>
    requires held { IsHeld held.old }
    requires headed { IfSome held.old.head (λ h. h.count ≡ count) }
    requires told { HasMoves held.old.plan all }
    requires missing { length held.old.moves.items < all }
    requires some { 0 < length bytes.now }
    ensures taken { IfOk result (λ rest. (text_of held.new ++ rest.now ≡ text_of held.old ++ bytes.now) × IsHeld held.new) }
    ensures shorter { IfOk result (λ rest. length rest.now < length bytes.now) }
    ensures broken { IfErr result (λ e. (e ≡ DumpError.OutOfMemory) ⊎ IsBroken (text_of held.old ++ bytes.now) e) }
{
    if held.begun.is_empty() {
        return take_move_run(held, count, all, bytes);
    }
    let (start, rest) = bytes.split_at(bytes.len().min(MOVE_LEN - held.begun.len()));
    held.begun.extend_from_slice(start)?;
    if held.begun.len() < MOVE_LEN {
        judge_move(count, &held.begun, held.moves.len())?;
        return Ok(rest);
    }
    take_moves(count, all, &mut held.moves, &held.begun)?;
    held.begun.clear();
    Ok(rest)
}

// Takes in bytes that begin where a move does.
fn take_move_run<'a, A: Allocator>(
    held: &mut Held<A>,
    count: u32,
    all: u32,
    bytes: &'a [u8],
) -> Result<&'a [u8], DumpError>
    requires held { IsHeld held.old }
    requires headed { IfSome held.old.head (λ h. h.count ≡ count) }
    requires told { HasMoves held.old.plan all }
    requires missing { length held.old.moves.items < all }
    requires fresh { held.old.begun.items ≡ [] }
    requires some { 0 < length bytes.now }
    ensures taken { IfOk result (λ rest. (text_of held.new ++ rest.now ≡ text_of held.old ++ bytes.now) × IsHeld held.new) }
    ensures shorter { IfOk result (λ rest. length rest.now < length bytes.now) }
    ensures broken { IfErr result (λ e. (e ≡ DumpError.OutOfMemory) ⊎ IsBroken (text_of held.old ++ bytes.now) e) }
{
    let rest = take_moves(count, all, &mut held.moves, bytes)?;
    if held.moves.len() == all as usize {
        return Ok(rest);
    }
    judge_move(count, rest, held.moves.len())?;
    held.begun.extend_from_slice(rest)?;
    Ok(&[])
}
