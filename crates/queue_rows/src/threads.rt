//! What several threads do with one post. The values are cells, which may pass from thread to thread but not
//! be shared.

ghost use Rattle.std.specs.Prelude.{◌≡◌, ◌<◌, ◌≤◌, ◌+◌, All, IfOk};
ghost use Rattle.std.specs.Thread.{IsSync};
ghost use Rattle.pe_queues.specs.Seats.{pes};

use crate::seats::next;
use pe_queues::{Full, Post, Seat};
use row_fixtures::pe;
use std::alloc::{AllocError, Global};
use std::cell::Cell;
use std::sync::Wait;
use std::test::Fail;
use std::thread::{self, Threads};

const EACH: u32 = 1_000;

// What a thread ends with: its seat, and the values that it took.
#[derive(Drop)]
struct Worker {
    seat: Seat<Cell<u32>>,
    taken: Vec<u32>,
}

// Puts a value, and takes one where the queue is full.
fn put_or_take<R: Wait>(
    rt: &R,
    post: &Post<Cell<u32>>,
    worker: &mut Worker,
    value: u32,
) -> Result<(), AllocError>
    requires own { worker.old.seat.post ≡ post.now }
    requires three { pes post.now ≡ 3 }
    ensures own { worker.new.seat.post ≡ post.now }
{
    let mut value = Cell::new(value);
    let place = pe(value.get() % 3);
    for _ in rt.forever() {
        match post.put(rt, &mut worker.seat, place, value) {
            Ok(()) => break,
            Err(Full(back)) => value = back,
        }
        match post.take(rt, &mut worker.seat, place) {
            Some(other) => worker.taken.push(other.get())?,
            None => thread::yield_now(),
        }
    }
    Ok(())
}

// Puts a thousand values, from this one on.
fn work<R: Wait>(
    rt: &R,
    alloc: Global,
    post: &Post<Cell<u32>>,
    seat: Seat<Cell<u32>>,
    first: u32,
) -> Result<Worker, AllocError>
    requires own { seat.post ≡ post.now }
    requires three { pes post.now ≡ 3 }
    requires few { first ≤ 3000 }
    ensures { IfOk result (λ worker. worker.seat.post ≡ post.now) }
{
    let mut worker = Worker {
        seat,
        taken: Vec::new(alloc),
    };
    for i in 0..EACH {
        put_or_take(rt, post, &mut worker, first + i)?;
    }
    Ok(worker)
}

// Two threads at once.
fn two<R: Threads + Wait + Sync>(
    rt: &R,
    alloc: Global,
    post: &Post<Cell<u32>>,
    seats: (Seat<Cell<u32>>, Seat<Cell<u32>>),
    first: u32,
) -> Result<(Worker, Worker), AllocError>
    requires own { (seats.0.post ≡ post.now) × (seats.1.post ≡ post.now) }
    requires three { pes post.now ≡ 3 }
    requires few { first ≤ 2000 }
    ensures { IfOk result (λ two. (two.0.seat.post ≡ post.now) × (two.1.seat.post ≡ post.now)) }
{
    let (one, other) = seats;
    let (a, b) = thread::join(
        rt,
        move || -> Result<Worker, AllocError>
            requires { (one.post ≡ post.now) × (pes post.now ≡ 3) × (first ≤ 2000) }
            ensures { IfOk result (λ worker. worker.seat.post ≡ post.entry.now) }
        { work(rt, alloc, post, one, first) },
        move || -> Result<Worker, AllocError>
            requires { (other.post ≡ post.now) × (pes post.now ≡ 3) × (first ≤ 2000) }
            ensures { IfOk result (λ worker. worker.seat.post ≡ post.entry.now) }
        { work(rt, alloc, post, other, first + EACH) },
    );
    Ok((a?, b?))
}

// All values that two workers took, and their seats joined into one.
fn together(post: &Post<Cell<u32>>, workers: (Worker, Worker)) -> Result<Worker, AllocError>
    requires own { (workers.0.seat.post ≡ post.now) × (workers.1.seat.post ≡ post.now) }
    ensures { IfOk result (λ worker. worker.seat.post ≡ post.now) }
{
    let (one, other) = workers;
    let mut taken = one.taken;
    taken.extend_from_slice(&other.taken)?;
    let seat = post.join(one.seat, other.seat);
    Ok(Worker { seat, taken })
}

// Four threads at once, each with a seat of its own.
fn four<R: Threads + Wait + Sync>(
    rt: &R,
    alloc: Global,
    post: &Post<Cell<u32>>,
    mut seats: Vec<Seat<Cell<u32>>>,
) -> Result<Worker, Fail>
    requires own { All (λ seat. seat.post ≡ post.now) seats.items }
    requires three { pes post.now ≡ 3 }
    ensures { IfOk result (λ worker. worker.seat.post ≡ post.now) }
{
    let low = pair(post, &mut seats)?;
    let high = pair(post, &mut seats)?;
    let (a, b) = thread::join(
        rt,
        move || -> Result<Worker, AllocError>
            requires { IsSync R.row × (low.0.post ≡ post.now) × (low.1.post ≡ post.now) × (pes post.now ≡ 3) }
            ensures { IfOk result (λ worker. worker.seat.post ≡ post.entry.now) }
        { together(post, two(rt, alloc, post, low, 0)?) },
        move || -> Result<Worker, AllocError>
            requires { IsSync R.row × (high.0.post ≡ post.now) × (high.1.post ≡ post.now) × (pes post.now ≡ 3) }
            ensures { IfOk result (λ worker. worker.seat.post ≡ post.entry.now) }
        { together(post, two(rt, alloc, post, high, 2 * EACH)?) },
    );
    Ok(together(post, (a?, b?))?)
}

// Two seats that have not been given out yet.
fn pair(
    post: &Post<Cell<u32>>,
    seats: &mut Vec<Seat<Cell<u32>>>,
) -> Result<(Seat<Cell<u32>>, Seat<Cell<u32>>), Fail>
    requires { All (λ seat. seat.post ≡ post.now) seats.old.items }
    ensures own { IfOk result (λ two. (two.0.post ≡ post.now) × (two.1.post ≡ post.now)) }
    ensures rest { All (λ seat. seat.post ≡ post.now) seats.new.items }
{
    let one = next(post, seats);
    let other = next(post, seats);
    match (one, other) {
        (Some(one), Some(other)) => Ok((one, other)),
        _ => Err(Fail::new("too few seats")),
    }
}

// Adds the values that are left in one queue, of at most eight places.
fn add_left(values: &mut Vec<u32>, queue: &[Cell<u32>]) -> Result<bool, AllocError> {
    for value in queue {
        values.push(value.get())?;
    }
    Ok(queue.len() <= 8)
}

// Whether these are the values below 4,000, in order.
fn are_all(values: &[u32]) -> bool {
    let mut same = values.len() == 4_000;
    for (value, want) in values.iter().zip(0..4_000u32) {
        same &= *value == want;
    }
    same
}

#[test]
fn four_seats(rt: HostRuntime) -> Result<(), Fail> {
    let (post, seats) = Post::new(rt.alloc(), 3, 4, 8)?;
    let Worker { seat, taken } = four(&rt, rt.alloc(), &post, seats)?;
    let Ok(left) = post.settle(&rt, seat) else {
        return Err(Fail::new("all seats were joined"));
    };
    let mut values = taken;
    for queue in &left {
        assert!(rt; add_left(&mut values, queue)?);
    }
    values.sort()?;
    assert!(rt; are_all(&values));
    Ok(())
}
