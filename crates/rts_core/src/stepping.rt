//! The step of one PE, which sees itself, the queues, the location words and the board.

ghost use Rattle.std.specs.Prelude.{◌≡◌, ◌<◌, ℕ, List, [], length, IfOk, IfErr, OnOk, OnErr, IfSome, MatchOption, All, slice_get};
ghost use Rattle.lb_database.specs.Measuring.{elements};
ghost use Rattle.chares.specs.declared.trace_entry.TraceEntry.{TraceEntry};
ghost use Rattle.rts_core.specs.Events.{LocalView, local_step, or_nothing, enabled};
ghost use Rattle.rts_core.specs.Histories.{IsLocalView, AreHistories};
ghost use Rattle.rts_core.specs.Parts.{or_same};
ghost use Rattle.rts_core.specs.Refusals.{RefusesAt};
ghost use Rattle.rts_core.specs.Worlds.{IsWorld};

use crate::event::Event;
use crate::handlers::{act, resume, start};
use crate::queue::Queue;
use crate::reports::Reports;
use crate::sync::{depart, report};
use crate::transport::{deliver_at, flush, look};
use chare_index::Pe;
use chares::{Chare, Openings};
use pe_state::{PeState, StepError};
use std::alloc::Allocator;
use sync_board::Board;

/// Makes the PE of an event take its step, and returns the trace entries. An event that is not enabled
/// changes nothing.
pub(crate) fn step_at<C: Chare<A>, H: Openings<C>, A: Allocator + Copy>(
    alloc: A,
    event: Event,
    pe: &mut PeState<C, H, A>,
    queues: &mut [Queue<C, H, A>],
    words: &mut [Pe],
    board: &mut Board<A>,
) -> Result<Reports<A>, StepError>
    requires words_counted { length words.old ≡ length H.opened }
    requires run { IsLocalView C.step C.fits C.pack H.opened H.pes (record { pe = pe.old; queues = queues.old; words = words.old; board = board.old }) }
    ensures ok { IfOk result
        (λ reports. (record { pe = pe.new; queues = queues.new; words = words.new; board = board.new }, reports)
        ≡ or_same (record { pe = pe.old; queues = queues.old; words = words.old; board = board.old }, [])
        (local_step C.step C.pack C.unpack event (record { pe = pe.old; queues = queues.old; words = words.old; board = board.old }))) }
    ensures same_pe { OnErr result (pe.new ≡ pe.old) }
    ensures same_queues { OnErr result (queues.new ≡ queues.old) }
    ensures same_words { OnErr result (words.new ≡ words.old) }
    ensures same_board { OnErr result (board.new ≡ board.old) }
    ensures refused { IfErr result (RefusesAt C.step C.pack C.refuses C.unpack event (record { pe = pe.old; queues = queues.old; words = words.old; board = board.old })) }
    ensures kept { IsLocalView C.step C.fits C.pack H.opened H.pes (record { pe = pe.new; queues = queues.new; words = words.new; board = board.new }) }
{
    match event {
        Event::Start(_, e) => start(alloc, pe, e),
        Event::Look(_) => {
            look(pe, words);
            Ok(Reports::none(alloc))
        }
        Event::Flush(_) => {
            flush(pe, queues)?;
            Ok(Reports::none(alloc))
        }
        Event::Deliver(p) => {
            deliver_at(pe, queues, p);
            Ok(Reports::none(alloc))
        }
        Event::Act(_) => act(alloc, pe),
        Event::Report(_) => {
            let reports = report(alloc, pe, board)?;
            Ok(reports)
        }
        Event::Decide => Ok(Reports::none(alloc)),
        Event::Depart(p, e) => depart(alloc, p, pe, words, board, e),
        Event::Resume(p, e) => resume(alloc, p, pe, board, e),
    }
}

/// The step of PE p among all PEs, where there is such a PE.
#[tactic(auto, using(std::proofs::lemmas::Option::gets))]
pub(crate) fn step_in<C: Chare<A>, H: Openings<C>, A: Allocator + Copy>(
    alloc: A,
    p: Pe,
    event: Event,
    pes: &mut [PeState<C, H, A>],
    queues: &mut [Queue<C, H, A>],
    words: &mut [Pe],
    board: &mut Board<A>,
) -> Result<Reports<A>, StepError>
    requires world { IsWorld (length H.opened) H.pes (record { pes = pes.old; queues = queues.old; words = words.old; board = board.old }) }
    requires run { AreHistories C.step C.fits C.pack H.opened (record { pes = pes.old; queues = queues.old; words = words.old; board = board.old }) }
    ensures ok { IfOk result
        (λ reports. (record { pes = pes.new; queues = queues.new; words = words.new; board = board.new }, reports)
        ≡ or_nothing (record { pes = pes.old; queues = queues.old; words = words.old; board = board.old })
        (enabled C.step C.pack C.unpack (record { pes = pes.old; queues = queues.old; words = words.old; board = board.old }) event p)) }
    ensures same_pes { OnErr result (pes.new ≡ pes.old) }
    ensures same_queues { OnErr result (queues.new ≡ queues.old) }
    ensures same_words { OnErr result (words.new ≡ words.old) }
    ensures same_board { OnErr result (board.new ≡ board.old) }
    ensures refused { IfErr result
        (λ error. MatchOption (slice_get pes.old p) ⊥
        (λ pe. RefusesAt C.step C.pack C.refuses C.unpack event (record { pe = pe; queues = queues.old; words = words.old; board = board.old }) error)) }
    ensures world { IsWorld (length H.opened) H.pes (record { pes = pes.new; queues = queues.new; words = words.new; board = board.new }) }
    ensures run { AreHistories C.step C.fits C.pack H.opened (record { pes = pes.new; queues = queues.new; words = words.new; board = board.new }) }
{
    let i = p.get() as usize;
    if pes.len() <= i {
        return Ok(Reports::none(alloc));
    }
    step_at(alloc, event, &mut pes[i], queues, words, board)
}
