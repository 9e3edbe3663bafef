//! An event that happened, with the trace entries that it added.

ghost use Rattle.std.specs.Prelude.{◌≡◌};

use chares::TraceEntry;
use rts_core::{Event, Reports};
use std::alloc::{Allocator, Global};
use std::marker::Model;

/// An event that happened, with its trace entries. Contracts see it as the pair of them.
#[derive(Drop)]
pub struct Step<A: Allocator = Global> {
    event: Event,
    reports: Reports<A>,
}

impl<A: Allocator> Model for Step<A> {
    ghost use Rattle.courses.specs.Courses.{Made};

    ghost Value = { Made };

    ghost view = { λ s. (s.event, s.reports) };
}

impl<A: Allocator> Step<A> {
    /// A step of a course.
    pub(crate) fn new(event: Event, reports: Reports<A>) -> Self
        ensures made { result ≡ (event, reports) }
    {
        Step { event, reports }
    }

    /// What happened.
    pub fn event(&self) -> Event
        ensures value { result ≡ self.now.0 }
    {
        self.event
    }

    /// Its trace entries, in order.
    pub fn entries(&self) -> &[TraceEntry]
        ensures value { result.now ≡ self.now.1 }
    {
        self.reports.as_slice()
    }
}
