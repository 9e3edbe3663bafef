//! The events in which a PE runs a handler, or acts on what its hand holds.

ghost use Rattle.std.specs.Prelude.{◌≡◌, ◌<◌, ◌≤◌, ℕ, List, [], length, IfOk, IfErr, OnOk, OnErr, IfSome, IsSome, true};
ghost use Rattle.lb_database.specs.Measuring.{elements};
ghost use Rattle.chares.specs.declared.trace_entry.TraceEntry.{TraceEntry};
ghost use Rattle.pe_state.specs.Pes.{PeView, acting, may_resume, may_depart};
ghost use Rattle.pe_state.specs.Refusals.{RefusesStep, RefusesAct};
ghost use Rattle.rts_core.specs.Events.{start_event, due, resume_event, act_event};
ghost use Rattle.rts_core.specs.Parts.{or_same};
ghost use Rattle.rts_core.specs.Refusals.{RefusesStart, RefusesGoingOn};

use crate::reports::Reports;
use chare_index::{Index, Limits, NoGate, Pe, Round};
use chares::{Chare, Openings};
use pe_state::{PeState, StepError};
use std::alloc::Allocator;
use sync_board::Board;

/// Start: an element that has not started starts.
pub(crate) fn start<C: Chare<A>, H: Openings<C>, A: Allocator + Copy>(
    alloc: A,
    pe: &mut PeState<C, H, A>,
    e: Index,
) -> Result<Reports<A>, StepError>
    ensures ok { IfOk result (λ reports. (pe.new, reports) ≡ or_same (pe.old, []) (start_event C.step C.pack pe.old e)) }
    ensures err { OnErr result (pe.new ≡ pe.old) }
    ensures refused { IfErr result (RefusesStart C.step C.pack C.refuses pe.old e) }
{
    let mut reports = Vec::new(alloc);
    let Some(element) = pe.room().element(e) else {
        return Ok(Reports::of(reports));
    };
    if element.progress().started {
        return Ok(Reports::of(reports));
    }
    let round = Round::new(0).unwrap();
    pe.resume_traced(&NoGate, e, round, &mut reports)?;
    Ok(Reports::of(reports))
}

/// Act: what the hand holds is installed, executed, shelved or forwarded.
pub(crate) fn act<C: Chare<A>, H: Openings<C>, A: Allocator + Copy>(
    alloc: A,
    pe: &mut PeState<C, H, A>,
) -> Result<Reports<A>, StepError>
    ensures ok { IfOk result (λ reports. (pe.new, reports) ≡ or_same (pe.old, []) (act_event C.step C.pack C.unpack pe.old)) }
    ensures err { OnErr result (pe.new ≡ pe.old) }
    ensures enabled { OnErr result (IsSome (acting C.step C.pack C.unpack pe.old)) }
    ensures refused { IfErr result (RefusesStep (RefusesAct C.refuses pe.old)) }
{
    let mut reports = Vec::new(alloc);
    let _acted = pe.act_traced(&NoGate, &mut reports)?;
    Ok(Reports::of(reports))
}

/// Resume: an element that is at its place goes on.
pub(crate) fn resume<C: Chare<A>, H: Openings<C>, A: Allocator + Copy>(
    alloc: A,
    p: Pe,
    pe: &mut PeState<C, H, A>,
    board: &Board<A>,
    e: Index,
) -> Result<Reports<A>, StepError>
    requires same_array { elements board.now.database ≡ length H.opened }
    ensures ok { IfOk result (λ reports. (pe.new, reports) ≡ or_same (pe.old, []) (resume_event C.step C.pack p pe.old board.now e)) }
    ensures err { OnErr result (pe.new ≡ pe.old) }
    ensures refused { IfErr result (RefusesGoingOn C.step C.pack C.refuses p pe.old board.now e) }
{
    let mut reports = Vec::new(alloc);
    let Some((round, place)) = due_at(pe, board, e) else {
        return Ok(Reports::of(reports));
    };
    if place != p {
        return Ok(Reports::of(reports));
    }
    pe.resume_traced(&NoGate, e, round, &mut reports)?;
    Ok(Reports::of(reports))
}

/// The round for whose end an element of the PE waits, and its place in that round's decision.
pub(crate) fn due_at<C: Chare<A>, H: Openings<C>, A: Allocator>(
    pe: &PeState<C, H, A>,
    board: &Board<A>,
    e: Index,
) -> Option<(Round, Pe)>
    requires same_array { elements board.now.database ≡ length H.opened }
    ensures value { result ≡ due pe.now board.now e }
    ensures resumes { IfSome result (λ at. may_resume pe.now e at.0 ≡ true) }
    ensures departs { IfSome result (λ at. may_depart pe.now e ≡ true) }
    ensures before_last_round { IfSome result (λ at. at.0 < Limits.ROUND) }
    ensures below { IfSome result (λ at. at.1 < board.now.pes) }
    ensures within { IfSome result (λ at. e < length H.opened) }
{
    let round = pe.waits_for(e)?;
    let place = board.place_for(round, e)?;
    Some((round, place))
}
