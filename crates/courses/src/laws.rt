//! Laws of courses.

ghost use Rattle.std.specs.Prelude.{List};
ghost use Rattle.rts_core.specs.Runs.{Reaches};
ghost use Rattle.rts_core.specs.Worlds.{WorldView};
ghost use Rattle.courses.specs.Courses.{Leads, Made, events_of, trace_of};

use chares::Chare;
use std::alloc::Allocator;

/// The steps of a course are a list of events that reaches its world, with its trace; so what is proved of every list of events
/// holds of it: the laws of the barrier, of the places of elements, and of the ways of letters. The function does nothing: its
/// clause is the law.
pub fn course_laws<C: Chare<A>, A: Allocator>()
    ensures reaches { (w last : WorldView C A) (steps : List Made) → Leads C.step C.pack C.unpack w steps last
        → Reaches C.step C.pack C.unpack w (events_of steps) (last, trace_of steps) }
{}
