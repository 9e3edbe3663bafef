//! The lock around a board: a round of two elements on two PEs, call by call, decided alone and by two workers.

ghost use Rattle.std.specs.Prelude.{◌≡◌, []};
ghost use Rattle.sync_board.specs.declared.strategy.Strategy.TheVariants.{Least};

use at_sync::{Barrier, Board, BoardError};
use barrier::BoardSize;
use chare_index::{Index, NoGate, Pe, Round};
use row_fixtures::{pe, round};
use std::alloc::{AllocError, Allocator};
use std::marker::Brand;
use std::sync::Wait;
use std::test::Fail;
use std::thread::Threads;

// Decides the round, alone or by two workers.
fn decide<J: BoardSize<A>, R: Threads + Wait + Sync, A: Allocator + Copy>(
    rt: &R,
    barrier: &Barrier<J, A>,
    alone: bool,
) -> Result<Round, BoardError> {
    match alone {
        true => barrier.decide(rt),
        false => barrier.decide_with(rt, 2, &NoGate),
    }
}

// Whether an element reports 3 units and 5 bytes in round 1, on the PE of its number.
fn reports<J: BoardSize<A>, R: Wait, A: Allocator>(rt: &R, barrier: &Barrier<J, A>, i: u32) -> bool
    requires { J.pes ≡ 2 }
{
    barrier.report(rt, i, round(1), 3, 5, pe(i % 2)).is_ok()
}

// Whether the round waits for the second element, and is complete from its report to the decision.
fn is_decided<J: BoardSize<A>, R: Threads + Wait + Sync, A: Allocator + Copy>(
    rt: &R,
    barrier: &Barrier<J, A>,
    alone: bool,
) -> bool
    requires { J.pes ≡ 2 }
{
    let first = reports(rt, barrier, 0);
    let early = decide(rt, barrier, alone) == Err(BoardError::Incomplete);
    let open = !barrier.is_complete(rt);
    let second = reports(rt, barrier, 1) && barrier.is_complete(rt);
    let decided = decide(rt, barrier, alone) == Ok(round(1));
    first && early && open && second && decided && !barrier.is_complete(rt)
}

// The place of an element in a round, by its number.
fn place<J: BoardSize<A>, R: Wait, A: Allocator>(
    rt: &R,
    barrier: &Barrier<J, A>,
    number: u32,
    i: u32,
) -> Option<u32> {
    let place: Option<Pe> = barrier.place_for(rt, Round::new(number)?, Index::new(i)?);
    Some(place?.get())
}

// Whether both elements keep their places in round 1, and round 2 has none.
fn have_places<J: BoardSize<A>, R: Wait, A: Allocator>(rt: &R, barrier: &Barrier<J, A>) -> bool {
    place(rt, barrier, 1, 0) == Some(0)
        && place(rt, barrier, 1, 1) == Some(1)
        && place(rt, barrier, 2, 0).is_none()
}

// Whether all have finished once both elements have, and there is no third one.
fn finish<J: BoardSize<A>, R: Wait, A: Allocator>(rt: &R, barrier: &Barrier<J, A>) -> bool {
    let first = barrier.finish(rt, 0).is_ok() && !barrier.all_finished(rt);
    let second = barrier.finish(rt, 1).is_ok() && barrier.all_finished(rt);
    first && second && barrier.finish(rt, 2) == Err(BoardError::Stranger)
}

// Whether the board kept the names of round 1.
fn keeps<A: Allocator>(board: &Board<A>) -> bool {
    match board.decision_for(round(1)) {
        Some(decision) => decision.naming.as_slice() == [0, 1].as_slice(),
        None => false,
    }
}

// Whether all of this holds of one lock.
fn passes<J: BoardSize<A>, R: Threads + Wait + Sync, A: Allocator + Copy>(
    rt: &R,
    alloc: A,
    alone: bool,
) -> Result<bool, AllocError>
    requires elements { J.elements ≡ 2 }
    requires pes { J.pes ≡ 2 }
    requires by_strategy { J.strategy ≡ Least }
    requires earlier { J.earlier ≡ [] }
{
    let barrier = Barrier::<J, A>::new(Board::new(alloc, 2, 2)?);
    let decided = is_decided(rt, &barrier, alone) && have_places(rt, &barrier);
    let finished = finish(rt, &barrier);
    let board = barrier.into_board();
    Ok(decided && finished && keeps(&board))
}

#[test]
fn a_round_of_two_elements_that_one_worker_decides(rt: HostRuntime) -> Result<(), Fail> {
    assert!(rt; passes::<Brand, _, _>(&rt, rt.alloc(), true)?);
    Ok(())
}

#[test]
fn a_round_of_two_elements_that_two_workers_decide(rt: HostRuntime) -> Result<(), Fail> {
    assert!(rt; passes::<Brand, _, _>(&rt, rt.alloc(), false)?);
    Ok(())
}
