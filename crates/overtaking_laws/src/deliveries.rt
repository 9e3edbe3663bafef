//! What a free run is: it may be a list of events, and in it a PE may take any parcel out of its queue.

ghost use Rattle.std.specs.Prelude.{◌≡◌, ◌⊎◌, ℕ, List, [], map};
ghost use Rattle.rts_core.specs.declared.event.Event.{Event};
ghost use Rattle.rts_core.specs.declared.event.Event.TheVariants.{Deliver};
ghost use Rattle.rts_core.specs.Events.{After, Happens};
ghost use Rattle.rts_core.specs.Runs.{Reaches};
ghost use Rattle.rts_core.specs.Worlds.{WorldView};
ghost use Rattle.overtaking_laws.specs.FreeRuns.{FreeStep, ReachesFreely, ReachesUnordered};
ghost use Rattle.overtaking_laws.specs.FreeRuns.FreeStep.{Makes};
ghost use Rattle.overtaking_laws.specs.Overtaking.{Overtakes, TakesAny};

use chares::Chare;
use std::alloc::Allocator;

/// What free runs there are. The function does nothing: its clauses are the laws. They hold for any chares, from any world on.
/// Where a PE takes a parcel out of its queue, wherever in the queue it is, the parcel overtakes those before it, and then it
/// is delivered. A delivery from a queue that keeps its order takes the front, which has nothing before it, or changes nothing.
/// So every list of events in which a delivery may be of any parcel is a free run, with the same trace. A list of events where
/// queues keep their order is one in which nothing overtakes.
pub fn delivery_laws<C: Chare<A>, A: Allocator>()
    ensures taken { (p : ℕ) (w next : WorldView C A) → TakesAny p w next
        → (between : WorldView C A) × Overtakes w between × Happens C.step C.pack C.unpack between (Deliver p) (next, []) }
    ensures front { (p : ℕ) (w : WorldView C A) (next : After C A) → Happens C.step C.pack C.unpack w (Deliver p) next
        → (next ≡ (w, [])) ⊎ ((takes : TakesAny p w next.0) × (takes.before ≡ []) × (next.1 ≡ [])) }
    ensures unordered { (w : WorldView C A) (events : List Event) (last : After C A) → ReachesUnordered C.step C.pack C.unpack w events last
        → (steps : List FreeStep) × ReachesFreely C.step C.pack C.unpack w steps last }
    ensures ordered { (w : WorldView C A) (events : List Event) (last : After C A) → Reaches C.step C.pack C.unpack w events last
        → ReachesFreely C.step C.pack C.unpack w (map Makes events) last }
{}
