//! A watch of a run that is carried on, which is told of the letters of both parts.

use chare_index::{Pe, Round};
use lb_snapshot::Snapshot;
use lb_strategy::Decision;
use pe_worker::{PeStep, Watch};
use std::alloc::Allocator;

/// Another watch, and how many letters the earlier run executed. The other watch is told of these too.
#[derive(Drop)]
pub(crate) struct CountingOn<'a, V> {
    watch: &'a V,
    before: u64,
}

impl<'a, V: Watch> CountingOn<'a, V> {
    /// Tells this watch of a run that goes on after this number of letters were executed.
    pub(crate) fn after(before: u64, watch: &'a V) -> Self {
        CountingOn { watch, before }
    }
}

impl<V: Watch> Watch for CountingOn<'_, V> {
    fn decided(&self, round: Round, executed: u64) {
        self.watch
            .decided(round, self.before.saturating_add(executed));
    }

    fn follows_rounds(&self) -> bool {
        self.watch.follows_rounds()
    }

    fn made_round<B: Allocator + Copy>(&self, snapshot: &Snapshot<B>, decision: &Decision<B>) {
        self.watch.made_round(snapshot, decision);
    }

    fn wants_stop(&self) -> bool {
        self.watch.wants_stop()
    }

    fn follows_steps(&self) -> bool {
        self.watch.follows_steps()
    }

    fn begins_step(&self, pe: Pe) {
        self.watch.begins_step(pe);
    }

    fn made_step(&self, pe: Pe, step: PeStep, posted: u64) {
        self.watch.made_step(pe, step, posted);
    }
}
