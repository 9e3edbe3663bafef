//! A thread pool: starts a thread for each worker, waits for all of them, and returns their results in order.

ghost use Rattle.std.specs.Prelude.{◌≡◌, ◌<◌, ◌≤◌, IfOk, OnErr, map, []};
ghost use Rattle.std.specs.VecDeque.{deque_len, deque_capacity};
ghost use Rattle.worker_threads.specs.Workers.{KeepsNumber};

use crate::begun::Begun;
use crate::work::{EachStarts, Ended, Starts, Work};
use std::alloc::{AllocError, Allocator, Global};
use std::collections::VecDeque;
use std::marker::Model;
use std::sync::Wait;
use std::sync::atomic::AtomicBool;
use std::thread;
use std::thread::{Scope, Threads};

/// The capacity for a run of this number of workers, each of which ends as a `D`. Contracts see it as that number.
#[derive(Drop)]
pub struct Crew<D: Ended, A: Allocator = Global> {
    // How many workers there is capacity for.
    room: usize,
    // The workers that have begun. It is empty until the run.
    begun: VecDeque<Begun<D>, A>,
    // What the workers ended as. It is empty until the run.
    done: VecDeque<D, A>,
}

impl<D: Ended, A: Allocator> Model for Crew<D, A> {
    ghost use Rattle.std.specs.Prelude.{◌≡◌, ◌≤◌, ℕ, []};
    ghost use Rattle.std.specs.VecDeque.{deque_capacity};

    ghost Value = { ℕ };

    ghost view = { λ c. c.room };

    ghost invariant = { λ c.
        (c.begun.items ≡ []) × (c.room ≤ deque_capacity c.begun)
        × (c.done.items ≡ []) × (c.room ≤ deque_capacity c.done) };
}

impl<D: Ended, A: Allocator> Crew<D, A> {
    /// Capacity for this number of workers. It runs out of memory only where there is a worker.
    pub fn with_capacity(alloc: A, workers: usize) -> Result<Self, AllocError>
    where
        A: Copy,
        ensures made { IfOk result (λ crew. crew ≡ workers) }
        ensures refused { OnErr result (0 < workers) }
    {
        let begun = VecDeque::with_capacity(alloc, workers)?;
        let done = VecDeque::with_capacity(alloc, workers)?;
        Ok(Crew {
            room: workers,
            begun,
            done,
        })
    }

    /// How many workers there is capacity for.
    pub fn capacity(&self) -> usize
        ensures value { result ≡ self.now }
    {
        self.room
    }

    /// Lets each worker do this work in a thread of its own, waits for all of them, and returns what each ended as, in
    /// the order of the workers. There has to be capacity for them, so this takes no memory. Where a thread cannot be
    /// started, `stop` is set, and that worker works in this thread: so its work has to end soon once `stop` is set.
    pub fn run<W: Work + Send, F: Fn(W) -> D + Sync, R: Threads + Wait>(
        self,
        rt: &R,
        work: &F,
        stop: &AtomicBool,
        workers: VecDeque<W, A>,
    ) -> VecDeque<D, A>
    where
        D: Send,
        requires room { deque_len workers ≤ self }
        requires callable { F.IsAlwaysCallable work.now }
        requires keeps_number { KeepsNumber W.number D.number (F.post work.now) }
        ensures in_order { map D.number result.items ≡ map W.number workers.items }
    {
        self.run_where(rt, work, stop, &EachStarts, workers)
    }

    /// Lets each worker do this work as [`run`](Crew::run) does, but starts threads only for those workers for which one
    /// may be started. Any other worker is treated as one for which no thread could be started.
    pub fn run_where<W: Work + Send, S: Starts, F: Fn(W) -> D + Sync, R: Threads + Wait>(
        self,
        rt: &R,
        work: &F,
        stop: &AtomicBool,
        starts: &S,
        workers: VecDeque<W, A>,
    ) -> VecDeque<D, A>
    where
        D: Send,
        requires room { deque_len workers ≤ self }
        requires callable { F.IsAlwaysCallable work.now }
        requires keeps_number { KeepsNumber W.number D.number (F.post work.now) }
        ensures in_order { map D.number result.items ≡ map W.number workers.items }
    {
        let crew = self;
        thread::scope(
            thread::scope_env(),
            rt,
            move |scope| -> VecDeque<D, A>
                requires { F.IsAlwaysCallable work.now × KeepsNumber W.number D.number (F.post work.now) × (deque_len workers ≤ crew) }
                ensures { map D.number result.items ≡ map W.number workers.items }
            { crew.run_within(scope, rt, work, stop, starts, workers) },
        )
    }

    // Does the same, in the threads of a scope.
    fn run_within<'s, E, W: Work + Send + 's, S: Starts, F: Fn(W) -> D + Sync, R: Threads>(
        self,
        scope: &Scope<'s, E>,
        rt: &R,
        work: &'s F,
        stop: &AtomicBool,
        starts: &S,
        workers: VecDeque<W, A>,
    ) -> VecDeque<D, A>
    where
        D: Send + 's,
        requires room { deque_len workers ≤ self }
        requires callable { F.IsAlwaysCallable work.now }
        requires keeps_number { KeepsNumber W.number D.number (F.post work.now) }
        ensures in_order { map D.number result.items ≡ map W.number workers.items }
    {
        let Crew {
            room: _,
            begun,
            done,
        } = self;
        let begun = begin_all(scope, work, stop, starts, workers, begun);
        end_all(rt, begun, done)
    }
}

// Begins each worker, in order.
fn begin_all<
    's,
    E,
    W: Work + Send + 's,
    D: Ended + Send + 's,
    S: Starts,
    F: Fn(W) -> D + Sync,
    A: Allocator,
>(
    scope: &Scope<'s, E>,
    work: &'s F,
    stop: &AtomicBool,
    starts: &S,
    mut workers: VecDeque<W, A>,
    mut begun: VecDeque<Begun<D>, A>,
) -> VecDeque<Begun<D>, A>
    requires callable { F.IsAlwaysCallable work.now }
    requires keeps_number { KeepsNumber W.number D.number (F.post work.now) }
    requires room { deque_len workers ≤ deque_capacity begun }
    requires none { begun.items ≡ [] }
    ensures value { result.items ≡ map W.number workers.items }
{
    while let Some(worker) = workers.pop_front() {
        begun.push_back_reserved(Begun::begin(scope, work, stop, starts, worker));
    }
    begun
}

// Waits for each worker, in order.
fn end_all<D: Ended, R: Threads, A: Allocator>(
    rt: &R,
    mut begun: VecDeque<Begun<D>, A>,
    mut done: VecDeque<D, A>,
) -> VecDeque<D, A>
    requires room { deque_len begun ≤ deque_capacity done }
    requires none { done.items ≡ [] }
    ensures value { map D.number result.items ≡ begun.items }
{
    while let Some(worker) = begun.pop_front() {
        done.push_back_reserved(worker.end(rt));
    }
    done
}
