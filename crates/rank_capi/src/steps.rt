//! The steps.

ghost use Rattle.std.specs.Prelude.{◌≡◌, ◌≢◌, ◌<◌, ◌≤◌, ◌⊎◌, IfSome, MatchOption, MatchResult, None, Some, negsuc, pos, true};
ghost use Rattle.chare_index.specs.declared.limits.TheConstants.Limits.{ELEMENTS, PES, ROUND};
ghost use Rattle.pe_state.specs.Pes.{acting, departed, looked, noted, pe_after, resumed};
ghost use Rattle.rank_calls.specs.Calls.{IsRight};
ghost use Rattle.rank_calls.specs.Refusals.{due};
ghost use Rattle.rank_calls.specs.Runs.{stamp_pack, stamp_unpack, step_in};
ghost use Rattle.rank_capi.specs.Answers.{answered};
ghost use Rattle.rank_capi.specs.Statuses.{IsStatus};

use crate::asking::asked;
use chare_index::{Index, Pe, Round};
use foreign_chare::Answer;
use pup_pack::{Pup, PupError};
use rank_calls::{Handle, Request};
use std::alloc::Global;

// The answer that these bytes are, or the status: that of bad input, or of memory that was refused.
fn read(alloc: Global, bytes: &[u8]) -> Result<Answer, i32>
    ensures value { MatchResult result
        (λ answer. answered bytes.now ≡ Some answer)
        (λ status. (status ≡ negsuc 1) ⊎ ((status ≡ negsuc 0) × (answered bytes.now ≡ None))) }
{
    match Answer::unpack(alloc, bytes) {
        Ok((answer, len)) => {
            if len != bytes.len() {
                return Err(-1);
            }
            Ok(answer)
        }
        Err(PupError::OutOfMemory) => Err(-2),
        Err(_) => Err(-1),
    }
}

/// Records that the element that is looked for is on this PE.
#[unsafe(no_mangle)]
pub extern "C" fn tezgumi_pe_look(alloc: Global, handle: &mut Handle, address: u32) -> i32
    ensures run { handle.new.run ≡ handle.old.run }
    ensures done { result ≡ pos 0 → (handle.new.is_open ≡ true) × (handle.new.pe ≡ looked handle.old.pe address) }
    ensures kept { result ≢ pos 0 → (handle.new.is_open ≡ handle.old.is_open) × (handle.old.is_open ≡ true → handle.new.pe ≡ handle.old.pe) }
    ensures input { PES ≤ address → result ≡ negsuc 0 }
    ensures status { address < PES → IsStatus handle.old.run handle.old.is_open handle.old.pe (Request.Look address) (result ≡ pos 0) result }
{
    let Some(address) = Pe::new(address) else {
        return -1;
    };
    asked(alloc, handle, Request::Look(address))
}

/// Acts on the parcel in its hand, where no handler is due.
#[unsafe(no_mangle)]
pub extern "C" fn tezgumi_pe_act(alloc: Global, handle: &mut Handle) -> i32
    ensures run { handle.new.run ≡ handle.old.run }
    ensures done { result ≡ pos 0
        → (handle.new.is_open ≡ true) × (handle.new.pe ≡ pe_after handle.old.pe (acting (step_in handle.old.run) stamp_pack stamp_unpack handle.old.pe)) }
    ensures kept { result ≢ pos 0 → (handle.new.is_open ≡ handle.old.is_open) × (handle.old.is_open ≡ true → handle.new.pe ≡ handle.old.pe) }
    ensures status { IsStatus handle.old.run handle.old.is_open handle.old.pe Request.Act (result ≡ pos 0) result }
{
    asked(alloc, handle, Request::Act)
}

/// Has the letter in its hand executed, with the answer of the handler that was due.
#[unsafe(no_mangle)]
pub extern "C" fn tezgumi_pe_execute(alloc: Global, handle: &mut Handle, answer: &[u8]) -> i32
    requires asked { IfSome (answered answer.now) (λ a. IfSome (due handle.old.pe) (λ d. IsRight handle.old.run handle.old.pe a d.0)) }
    ensures run { handle.new.run ≡ handle.old.run }
    ensures done { result ≡ pos 0
        → (handle.new.is_open ≡ true) × (handle.new.pe ≡ pe_after handle.old.pe (acting (step_in handle.old.run) stamp_pack stamp_unpack handle.old.pe)) }
    ensures kept { result ≢ pos 0 → (handle.new.is_open ≡ handle.old.is_open) × (handle.old.is_open ≡ true → handle.new.pe ≡ handle.old.pe) }
    ensures status { MatchOption (answered answer.now)
        ((result ≡ negsuc 0) ⊎ (result ≡ negsuc 1))
        (λ a. (result ≡ negsuc 1) ⊎ IsStatus handle.old.run handle.old.is_open handle.old.pe (Request.Execute a) (result ≡ pos 0) result) }
{
    let answer = match read(alloc, answer) {
        Ok(answer) => answer,
        Err(status) => return status,
    };
    asked(alloc, handle, Request::Execute(answer))
}

/// Resumes an element after this round, or starts it where that is 0, with the answer of its handler.
#[unsafe(no_mangle)]
pub extern "C" fn tezgumi_pe_resume(
    alloc: Global,
    handle: &mut Handle,
    index: u32,
    round: u32,
    answer: &[u8],
) -> i32
    requires asked { IfSome (answered answer.now) (λ a. IsRight handle.old.run handle.old.pe a index) }
    ensures run { handle.new.run ≡ handle.old.run }
    ensures done { result ≡ pos 0 → (handle.new.is_open ≡ true) × (handle.new.pe ≡ resumed (step_in handle.old.run) stamp_pack handle.old.pe index round) }
    ensures kept { result ≢ pos 0 → (handle.new.is_open ≡ handle.old.is_open) × (handle.old.is_open ≡ true → handle.new.pe ≡ handle.old.pe) }
    ensures input { (ELEMENTS ≤ index) ⊎ (ROUND < round) → result ≡ negsuc 0 }
    ensures status { index < ELEMENTS → round ≤ ROUND → MatchOption (answered answer.now)
        ((result ≡ negsuc 0) ⊎ (result ≡ negsuc 1))
        (λ a. (result ≡ negsuc 1) ⊎ IsStatus handle.old.run handle.old.is_open handle.old.pe (Request.Resume index round a) (result ≡ pos 0) result) }
{
    let Some(index) = Index::new(index) else {
        return -1;
    };
    let Some(round) = Round::new(round) else {
        return -1;
    };
    let answer = match read(alloc, answer) {
        Ok(answer) => answer,
        Err(status) => return status,
    };
    asked(alloc, handle, Request::Resume(index, round, answer))
}

/// Packs an element that waits and puts it into the outbox, addressed to this PE.
#[unsafe(no_mangle)]
pub extern "C" fn tezgumi_pe_depart(alloc: Global, handle: &mut Handle, index: u32, to: u32) -> i32
    ensures run { handle.new.run ≡ handle.old.run }
    ensures done { result ≡ pos 0 → (handle.new.is_open ≡ true) × (handle.new.pe ≡ departed stamp_pack handle.old.pe index to) }
    ensures kept { result ≢ pos 0 → (handle.new.is_open ≡ handle.old.is_open) × (handle.old.is_open ≡ true → handle.new.pe ≡ handle.old.pe) }
    ensures input { (ELEMENTS ≤ index) ⊎ (PES ≤ to) → result ≡ negsuc 0 }
    ensures status { index < ELEMENTS → to < PES → IsStatus handle.old.run handle.old.is_open handle.old.pe (Request.Depart index to) (result ≡ pos 0) result }
{
    let Some(index) = Index::new(index) else {
        return -1;
    };
    let Some(to) = Pe::new(to) else {
        return -1;
    };
    asked(alloc, handle, Request::Depart(index, to))
}

/// Records that the board has received the oldest note that is owed.
#[unsafe(no_mangle)]
pub extern "C" fn tezgumi_pe_note_done(alloc: Global, handle: &mut Handle) -> i32
    ensures run { handle.new.run ≡ handle.old.run }
    ensures done { result ≡ pos 0 → (handle.new.is_open ≡ true) × (handle.new.pe ≡ noted handle.old.pe) }
    ensures kept { result ≢ pos 0 → (handle.new.is_open ≡ handle.old.is_open) × (handle.old.is_open ≡ true → handle.new.pe ≡ handle.old.pe) }
    ensures status { IsStatus handle.old.run handle.old.is_open handle.old.pe Request.NoteDone (result ≡ pos 0) result }
{
    asked(alloc, handle, Request::NoteDone)
}
