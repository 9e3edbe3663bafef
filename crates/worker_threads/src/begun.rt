//! A worker that was started, in a thread or in its caller.

ghost use Rattle.std.specs.Prelude.{◌≡◌, IfErr, IfOk};
ghost use Rattle.worker_threads.specs.Workers.{KeepsNumber};

use crate::work::{Ended, Starts, Work};
use std::marker::Model;
use std::sync::atomic::AtomicBool;
use std::sync::atomic::Ordering::SeqCst;
use std::thread::{Promise, PromisedHandle, Scope, Threads};

// What a thread promises of the end of its worker: it has this number.
#[derive(Clone, Copy)]
pub(crate) struct Numbered(u32);

impl<D: Work> Promise<D> for Numbered {
    ghost kept_by = { λ promise done. D.number done ≡ promise.0 };
}

// Where the end of a worker is to be found.
#[derive(Drop)]
enum Place<D: Ended> {
    // In a thread of its own, which returns it once the worker has worked.
    Thread(PromisedHandle<D, Numbered>),
    // Here: the worker has already worked, since no thread could be started for it.
    Here(D),
}

// A worker that has begun. Contracts see it as its number.
#[derive(Drop)]
pub(crate) struct Begun<D: Ended> {
    number: u32,
    place: Place<D>,
}

impl<D: Ended> Model for Begun<D> {
    ghost use Rattle.std.specs.Prelude.{ℕ};
    ghost use Rattle.worker_threads.specs.Workers.{HasNumber};

    ghost Value = { ℕ };

    ghost view = { λ b. b.number };

    ghost invariant = { λ b. HasNumber D.number b.number b.place };
}

impl<D: Ended> Begun<D> {
    // Starts a worker in a thread. Where none may be started, or starting one fails, the stop flag is set for all, and this
    // worker works here, so that it ends at once.
    pub(crate) fn begin<'s, E, S: Starts, W: Work + Send + 's, F: Fn(W) -> D + Sync>(
        scope: &Scope<'s, E>,
        work: &'s F,
        stop: &AtomicBool,
        starts: &S,
        worker: W,
    ) -> Self
    where
        D: Send + 's,
        requires callable { F.IsAlwaysCallable work.now }
        requires keeps_number { KeepsNumber W.number D.number (F.post work.now) }
        ensures value { result ≡ W.number worker }
    {
        let number = worker.number();
        let working = move || -> D
            requires { F.IsAlwaysCallable work.now × KeepsNumber W.number D.number (F.post work.now) }
            ensures { D.number result ≡ W.number worker }
        { work(worker) };
        let place = match start(scope, starts, number, working) {
            Ok(handle) => Place::Thread(handle),
            Err(working) => {
                stop.store(true, SeqCst);
                Place::Here(working())
            }
        };
        Begun { number, place }
    }

    // What the worker ended as. Waits for its thread, if it has one.
    pub(crate) fn end<R: Threads>(self, rt: &R) -> D
        ensures value { D.number result ≡ self }
    {
        let Begun { number: _, place } = self;
        match place {
            Place::Thread(handle) => handle.join(rt),
            Place::Here(done) => done.without_thread(),
        }
    }
}

// Starts a thread for the worker with this number, if one may be started; where there is none, the work is handed back.
fn start<'s, E, S: Starts, D: Ended + Send + 's, F: FnOnce() -> D + Send + 's>(
    scope: &Scope<'s, E>,
    starts: &S,
    number: u32,
    working: F,
) -> Result<PromisedHandle<D, Numbered>, F>
    requires runs { F.pre working }
    requires keeps { (done : D) → F.post working done → D.number done ≡ number }
    ensures ok { IfOk result (λ handle. handle.promise.0 ≡ number) }
    ensures err { IfErr result (λ back. back ≡ working) }
{
    if !starts.may_start(number) {
        return Err(working);
    }
    match scope.spawn_with(Numbered(number), working) {
        Ok(handle) => Ok(handle),
        Err(refused) => Err(refused.value),
    }
}
