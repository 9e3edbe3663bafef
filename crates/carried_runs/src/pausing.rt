//! A watch that asks a run to pause after each round.

use chare_index::{Pe, Round};
use lb_snapshot::Snapshot;
use lb_strategy::Decision;
use pe_worker::{PeStep, Watch};
use std::alloc::Allocator;
use std::sync::atomic::{AtomicBool, Ordering};

/// Another watch, and a request to stop once a round was decided.
#[derive(Drop)]
pub(crate) struct Pausing<'a, V> {
    watch: &'a V,
    // Whether a round was decided since the run began, or went on.
    has_decided: AtomicBool,
}

impl<'a, V: Watch> Pausing<'a, V> {
    /// Beside this watch, for a run that begins.
    pub(crate) fn beside(watch: &'a V) -> Self {
        Pausing {
            watch,
            has_decided: AtomicBool::new(false),
        }
    }

    /// Whether a run that stopped has done so for a pause, and not because the other watch asked for it. The request is withdrawn, so
    /// that the run can go on.
    pub(crate) fn withdraw(&self) -> bool {
        self.has_decided.swap(false, Ordering::Relaxed) && !self.watch.wants_stop()
    }
}

impl<V: Watch> Watch for Pausing<'_, V> {
    fn decided(&self, round: Round, executed: u64) {
        self.watch.decided(round, executed);
        self.has_decided.store(true, Ordering::Relaxed);
    }

    fn follows_rounds(&self) -> bool {
        self.watch.follows_rounds()
    }

    fn made_round<B: Allocator + Copy>(&self, snapshot: &Snapshot<B>, decision: &Decision<B>) {
        self.watch.made_round(snapshot, decision);
    }

    fn wants_stop(&self) -> bool {
        self.has_decided.load(Ordering::Relaxed) || self.watch.wants_stop()
    }

    fn follows_steps(&self) -> bool {
        self.watch.follows_steps()
    }

    fn begins_step(&self, pe: Pe) {
        self.watch.begins_step(pe);
    }

    fn made_step(&self, pe: Pe, step: PeStep, posted: u64) {
        self.watch.made_step(pe, step, posted);
    }
}
