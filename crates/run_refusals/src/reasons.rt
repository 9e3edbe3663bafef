//! The first reason why a run is refused.

ghost use Rattle.std.specs.Prelude.{◌≡◌, ◌≤◌, ◌<◌, ◌↔◌, Bool, IfSome, MatchOption, true};
ghost use Rattle.lb_lists.specs.Runs.{AreSmall, FitsSnapshot, IsAsked};
ghost use Rattle.run_refusals.specs.Refusals.{refusal_number, AreCounted, ArePes, IsPlannable, IsRefusedFor};

use crate::entries::{first_above, first_load_above, first_load_past, first_past};
use crate::refusal::RunRefusal;
use chare_index::Limits;
use lb_lists::{Run, RunLimits};

/// Why a run that is to continue on `pes` PEs is refused, and `None` where it is not: within the limits of a tolerance, where one is
/// asked for, and otherwise within those of every run. It takes no memory.
pub fn run_refusal(run: &Run<'_>, pes: u32, within: bool) -> Option<RunRefusal>
    ensures exact { MatchOption result (IsPlannable run.now pes within) (IsRefusedFor run.now pes within) }
    ensures input { IfSome result (λ refusal. (refusal_number refusal ≤ 9) ↔ ¬ (IsAsked run.now pes)) }
    ensures load { IfSome result (λ refusal. (refusal_number refusal ≡ 10) ↔ (IsAsked run.now pes × ¬ (AreSmall run.now.loads))) }
    ensures too_large { IfSome result (λ refusal. (10 < refusal_number refusal)
        ↔ (IsAsked run.now pes × AreSmall run.now.loads × ¬ (FitsSnapshot run.now pes))) }
{
    if let Some(refusal) = pes_refusal(run, pes) {
        return Some(refusal);
    }
    if let Some(refusal) = count_refusal(run, pes) {
        return Some(refusal);
    }
    if let Some(refusal) = list_refusal(run, pes) {
        return Some(refusal);
    }
    if let Some(entry) = first_load_past(run.loads, RunLimits::LOAD) {
        return Some(RunRefusal::ManyUnits(entry));
    }
    if !within {
        return None;
    }
    tolerance_refusal(run, pes)
}

// Why these numbers of PEs are refused.
fn pes_refusal(run: &Run<'_>, pes: u32) -> Option<RunRefusal>
    ensures exact { (within : Bool) → MatchOption result (ArePes run.now pes) (IsRefusedFor run.now pes within) }
    ensures number { IfSome result (λ refusal. refusal_number refusal ≤ 9) }
    ensures unasked { IfSome result (λ _. ¬ (IsAsked run.now pes)) }
{
    if pes == 0 {
        return Some(RunRefusal::NoPes);
    }
    if pes > RunLimits::PES {
        return Some(RunRefusal::ManyPes);
    }
    if run.procs == 0 {
        return Some(RunRefusal::NoProcs);
    }
    if run.procs > RunLimits::PES {
        return Some(RunRefusal::ManyProcs);
    }
    None
}

// Why the lengths of the lists are refused.
fn count_refusal(run: &Run<'_>, pes: u32) -> Option<RunRefusal>
    requires pes { ArePes run.now pes }
    ensures exact { (within : Bool) → MatchOption result (AreCounted run.now pes) (IsRefusedFor run.now pes within) }
    ensures number { IfSome result (λ refusal. refusal_number refusal ≤ 9) }
    ensures unasked { IfSome result (λ _. ¬ (IsAsked run.now pes)) }
{
    let count = run.loads.len();
    if count > RunLimits::ELEMENTS as usize {
        return Some(RunRefusal::ManyElements);
    }
    if run.bytes.len() != count {
        return Some(RunRefusal::BytesCount);
    }
    if run.places.len() != count {
        return Some(RunRefusal::PlacesCount);
    }
    None
}

// Why the sizes or the places are refused.
fn list_refusal(run: &Run<'_>, pes: u32) -> Option<RunRefusal>
    requires counted { AreCounted run.now pes }
    ensures exact { (within : Bool) → MatchOption result (IsAsked run.now pes) (IsRefusedFor run.now pes within) }
    ensures number { IfSome result (λ refusal. refusal_number refusal ≤ 9) }
    ensures unasked { IfSome result (λ _. ¬ (IsAsked run.now pes)) }
{
    if let Some(entry) = first_past(run.bytes, RunLimits::BYTES) {
        return Some(RunRefusal::ManyBytes(entry));
    }
    match first_above(run.places, run.procs - 1) {
        Some(entry) => Some(RunRefusal::Astray(entry)),
        None => None,
    }
}

// Why a run that can be planned is too large for a tolerance.
fn tolerance_refusal(run: &Run<'_>, pes: u32) -> Option<RunRefusal>
    requires asked { IsAsked run.now pes }
    requires small { AreSmall run.now.loads }
    ensures exact { (within : Bool) → within ≡ true → MatchOption result (FitsSnapshot run.now pes) (IsRefusedFor run.now pes within) }
    ensures number { IfSome result (λ refusal. 10 < refusal_number refusal) }
    ensures unfit { IfSome result (λ _. ¬ (FitsSnapshot run.now pes)) }
{
    if run.loads.len() > Limits::ELEMENTS as usize {
        return Some(RunRefusal::ElementsWithin);
    }
    if run.procs > Limits::PES {
        return Some(RunRefusal::ProcsWithin);
    }
    if pes > Limits::PES {
        return Some(RunRefusal::PesWithin);
    }
    if let Some(entry) = first_load_above(run.loads, Limits::LOAD) {
        return Some(RunRefusal::LoadWithin(entry));
    }
    match first_above(run.bytes, Limits::STATE_BYTES) {
        Some(entry) => Some(RunRefusal::BytesWithin(entry)),
        None => None,
    }
}
