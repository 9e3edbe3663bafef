//! What a step of the world returns.

ghost use Rattle.std.specs.Prelude.{◌≡◌, [], ◌↔◌, IsTrue, length};

use chares::TraceEntry;
use std::alloc::{Allocator, Global};
use std::marker::Model;

/// The reports of one event: the entries that it adds to the trace, in order. Contracts see them as a list.
#[derive(Drop)]
pub struct Reports<A: Allocator = Global> {
    reports: Vec<TraceEntry, A>,
}

impl<A: Allocator> Model for Reports<A> {
    ghost use Rattle.std.specs.Prelude.{List};
    ghost use Rattle.chares.specs.declared.trace_entry.TraceEntry.{TraceEntry};

    ghost Value = { List TraceEntry };

    ghost view = { λ r. r.reports.items };
}

impl<A: Allocator> Reports<A> {
    /// The reports of an event that adds nothing to the trace.
    pub(crate) fn none(alloc: A) -> Self
        ensures made { result ≡ [] }
    {
        Reports {
            reports: Vec::new(alloc),
        }
    }

    /// The reports of an event with these entries.
    pub(crate) fn of(reports: Vec<TraceEntry, A>) -> Self
        ensures made { result ≡ reports.items }
    {
        Reports { reports }
    }

    /// The entries.
    pub fn as_slice(&self) -> &[TraceEntry]
        ensures value { result.now ≡ self.now }
    {
        self.reports.as_slice()
    }

    /// How many entries there are.
    pub fn len(&self) -> usize
        ensures value { result ≡ length self.now }
    {
        self.reports.len()
    }

    /// Whether there is none.
    pub fn is_empty(&self) -> bool
        ensures value { IsTrue result ↔ (length self.now ≡ 0) }
    {
        self.reports.is_empty()
    }
}
