//! The tallies of a workload, made anew for each run.

ghost use Rattle.std.specs.Prelude.{◌≡◌};
ghost use Rattle.workload.specs.Text.{IsWithin};

use schedules::Cast;
use std::alloc::{AllocError, Allocator};
use tally::Tally;
use workload::Workload;
use workload_run::tallies_of;

/// The tallies of a workload, made anew for each run.
#[derive(Drop)]
pub(crate) struct TallyCast<'a, A: Allocator> {
    workload: &'a Workload<A>,
    ghost within: { IsWithin workload.now },
}

impl<'a, A: Allocator> TallyCast<'a, A> {
    /// The tallies of this workload.
    pub(crate) fn new(workload: &'a Workload<A>) -> Self
        requires within { IsWithin workload.now }
        ensures workload { result.workload ≡ workload.entry }
    {
        TallyCast { workload }
    }
}

impl<A: Allocator + Copy> Cast<Tally<A>, A> for TallyCast<'_, A> {
    ghost use Rattle.workload_run.specs.Tallies.{tallies_of};

    ghost chares = { λ cast. tallies_of cast.workload.now };

    fn chares(&self, alloc: A) -> Result<Vec<Tally<A>, A>, AllocError> {
        tallies_of(alloc, self.workload)
    }
}
