//! How many letters a course has posted and executed, as its trace entries say.

ghost use Rattle.std.specs.Prelude.{◌≡◌, ◌++◌, ◌∷◌, ◌↔◌, ◌^◌, ◌%◌, ◌+◌, [], IsTrue, List, length};
ghost use Rattle.courses.specs.Courses.{Made, trace_of};
ghost use Rattle.rts_core.specs.Accounts.{execution_of, executions, post_of, posts};
ghost use Rattle.schedules.specs.Counting.{Counts};

use chares::TraceEntry;
use courses::Step;
use std::alloc::Allocator;

/// How many letters were posted, and how many executed, each modulo 2^64. So a step needs no walk over the places of letters.
#[derive(Clone, Copy)]
pub(crate) struct LetterCount {
    pub(crate) posted: u64,
    pub(crate) executed: u64,
}

impl LetterCount {
    /// The count before the first step.
    pub(crate) fn of_no_step() -> Self
        ensures counts { Counts [] result }
    {
        LetterCount {
            posted: 0,
            executed: 0,
        }
    }

    /// Whether as many were executed as were posted, so that perhaps none is held.
    pub(crate) fn is_balanced(self) -> bool
        ensures value { IsTrue result ↔ (self.posted ≡ self.executed) }
    {
        self.posted == self.executed
    }

    /// The count with the letters of the last of these steps.
    pub(crate) fn with_last<A: Allocator>(self, steps: &[Step<A>]) -> Self
        ensures counts { (before : List Made) (made : Made) → steps.now ≡ before ++ made ∷ [] → Counts (trace_of before) self → Counts (trace_of steps.now) result }
    {
        match steps.last() {
            Some(step) => self.with(step.entries()),
            None => self,
        }
    }

    // The count with the letters of these entries.
    fn with(self, entries: &[TraceEntry]) -> Self
        ensures posted { result.posted ≡ (self.posted + length (posts entries.now)) % 2 ^ 64 }
        ensures executed { result.executed ≡ (self.executed + length (executions entries.now)) % 2 ^ 64 }
    {
        let mut count = self;
        for entry in entries {
            count.posted = count.posted.wrapping_add(posts_in(entry));
            count.executed = count.executed.wrapping_add(executions_in(entry));
        }
        count
    }
}

// How many letters an entry says were posted.
fn posts_in(entry: &TraceEntry) -> u64
    ensures value { result ≡ length (post_of entry.now) }
{
    match entry {
        TraceEntry::Posted(_, _) => 1,
        _ => 0,
    }
}

// How many letters an entry says were executed.
fn executions_in(entry: &TraceEntry) -> u64
    ensures value { result ≡ length (execution_of entry.now) }
{
    match entry {
        TraceEntry::Executed(_, _) => 1,
        _ => 0,
    }
}
