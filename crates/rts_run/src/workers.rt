//! The workers of a run, before they begin.

ghost use Rattle.std.specs.Prelude.{◌≡◌, ◌<◌, All, IfOk, Some, length, map, slice_get};
ghost use Rattle.std.specs.List.{range_with_len};
ghost use Rattle.std.specs.VecDeque.{deque_len};
ghost use Rattle.pe_queues.specs.Seats.{new_seat, pes};

use crate::config::Config;
use crate::options::Options;
use barrier::BoardStart;
use chares::{BodyLimit, Chare, Openings};
use pe_queues::Seat;
use pe_state::{Parcel, PeState};
use pe_worker::{Agenda, RunBeginning, SeatedPe, Worker};
use run_account::take_next;
use std::alloc::{AllocError, Allocator};
use std::collections::VecDeque;
use sync_board::Board;

/// A worker for each PE, in order, with its seat and its agenda. The only error is that memory was refused.
pub(crate) fn open_workers<
    C: Chare<A>,
    H: Openings<C> + BoardStart<A>,
    J: RunBeginning<C>,
    A: Allocator + Copy,
>(
    alloc: A,
    config: &Config,
    options: &Options,
    board: &Board<A>,
    mut states: VecDeque<PeState<C, H, A>, A>,
    mut seats: VecDeque<Seat<Parcel<C, H, A>, A>, A>,
) -> Result<VecDeque<Worker<C, H, J, A>, A>, AllocError>
    requires run { config.now.pes ≡ H.pes }
    requires served { pes J.beginning.post ≡ H.pes }
    requires starts { states.items ≡ J.beginning.starts }
    requires shares { map (λ s. s.seats) seats.items ≡ J.beginning.shares }
    requires in_order { map (λ pe. pe.me) states.items ≡ range_with_len 0 (length states.items) }
    requires as_many { length states.items ≡ length seats.items }
    requires new { All (λ s. s ≡ new_seat J.beginning.post s.seats) seats.items }
    ensures in_order { IfOk result (λ workers. map (λ w. w.seated.pe.me) workers.items ≡ range_with_len 0 (length states.items)) }
    ensures counted { IfOk result (λ workers. deque_len workers ≡ length states.items) }
{
    let mut workers = VecDeque::with_capacity(alloc, states.len())?;
    while let Some(pe) = take_next(&mut states) {
        let Some(seat) = take_next(&mut seats) else {
            unreachable!()
        };
        let agenda = Agenda::new(alloc, &pe, board, config.pes)?;
        let seated = seated(pe, seat, options.longest);
        workers.push_back_reserved(Worker::new(seated, agenda));
    }
    Ok(workers)
}

// A PE with its seat, on which letters are posted with bodies of up to this length.
#[tactic(auto, using(crate::proofs::Seated::seated_longer))]
fn seated<C: Chare<A>, H: Openings<C> + BoardStart<A>, J: RunBeginning<C>, A: Allocator + Copy>(
    pe: PeState<C, H, A>,
    seat: Seat<Parcel<C, H, A>, A>,
    longest: BodyLimit,
) -> SeatedPe<C, H, J, A>
    requires start { slice_get J.beginning.starts pe.me ≡ Some pe }
    requires seat { seat ≡ new_seat J.beginning.post seat.seats }
    requires share { slice_get J.beginning.shares pe.me ≡ Some seat.seats }
    requires served { pes J.beginning.post ≡ H.pes }
    ensures made { result ≡ record { pe = record pe { longest = longest }; seat = seat } }
{
    let mut seated = SeatedPe::new(pe, seat);
    seated.set_longest(longest);
    seated
}
