//! One step of a run by a seed.

ghost use Rattle.std.specs.Prelude.{◌≡◌, ◌++◌, [], ◌∷◌, IfErr, IfOk, OnErr, MatchBool};
ghost use Rattle.courses.specs.Courses.{IsEnabled, IsIdle, Made, RefusesTaking};
ghost use Rattle.rts_core.specs.Events.{Happens};
ghost use Rattle.rts_core.specs.declared.event.Event.{Event};
ghost use Rattle.schedules.specs.Choices.{Knows, put_into, turn_of};
ghost use Rattle.schedules.specs.Courses.{IsDone};
ghost use Rattle.schedules.specs.Draws.{AnyIsChosen, Draws, IsChosen, drawn, places_after};

use crate::chooser::Chooser;
use chare_index::Pe;
use chares::{Chare, Openings};
use courses::{Course, Refusal, take_any};
use rts_core::{Event, World};
use std::alloc::Allocator;

/// Takes the step that is drawn, and updates what is enabled; or returns false where no event is enabled.
pub(crate) fn draw_step<C: Chare<A>, H: Openings<C>, A: Allocator + Copy>(
    course: &mut Course<C, H, A>,
    chooser: &mut Chooser<A>,
) -> Result<bool, Refusal>
    requires goes_on { ¬ (IsDone course.old.world) }
    requires knows { Knows course.old.world chooser.old.choices }
    ensures strategy { course.new.strategy ≡ course.old.strategy }
    ensures bias { chooser.new.bias ≡ chooser.old.bias }
    ensures idle { IfOk result (λ taken. MatchBool taken (Knows course.new.world chooser.new.choices)
        ((course.new ≡ course.old) × IsIdle C.step C.pack C.unpack course.new.world)) }
    ensures drawn { IfOk result (λ taken. MatchBool taken ((made : Made) × (course.new.steps ≡ course.old.steps ++ made ∷ [])
        × Draws C.step C.pack C.unpack chooser.old.bias (turn_of course.old.world chooser.old) made (turn_of course.new.world chooser.new)) (course.new ≡ course.old)) }
    ensures none { OnErr result (course.new ≡ course.old) }
    ensures chosen { IfErr result (λ refusal. IsChosen C.step C.pack C.unpack chooser.old.bias (turn_of course.old.world chooser.old) refusal.event) }
    ensures refused { IfErr result (λ refusal. RefusesTaking C.step C.pack C.refuses C.unpack course.new.world refusal.event refusal.error) }
{
    if take_drawn(course, chooser)? {
        return Ok(true);
    }
    find_step(course, chooser)
}

// Takes the step that is drawn, and updates what is enabled; or returns false where no event is drawn that is enabled, so that
// any other serves.
fn take_drawn<C: Chare<A>, H: Openings<C>, A: Allocator + Copy>(
    course: &mut Course<C, H, A>,
    chooser: &mut Chooser<A>,
) -> Result<bool, Refusal>
    requires goes_on { ¬ (IsDone course.old.world) }
    requires knows { Knows course.old.world chooser.old.choices }
    ensures strategy { course.new.strategy ≡ course.old.strategy }
    ensures bias { chooser.new.bias ≡ chooser.old.bias }
    ensures knows { IfOk result (λ _. Knows course.new.world chooser.new.choices) }
    ensures drawn { IfOk result (λ taken. MatchBool taken ((made : Made) × (course.new.steps ≡ course.old.steps ++ made ∷ [])
        × Draws C.step C.pack C.unpack chooser.old.bias (turn_of course.old.world chooser.old) made (turn_of course.new.world chooser.new)) (course.new ≡ course.old)) }
    ensures any { IfOk result (λ taken. MatchBool taken (Unit {0}) (AnyIsChosen C.step C.pack C.unpack chooser.old.bias (turn_of course.old.world chooser.old))) }
    ensures rest { IfOk result (λ taken. MatchBool taken (Unit {0}) ((chooser.new.choices ≡ chooser.old.choices)
        × (chooser.new.state ≡ (drawn chooser.old.bias (turn_of course.old.world chooser.old)).1))) }
    ensures none { OnErr result (course.new ≡ course.old) }
    ensures chosen { IfErr result (λ refusal. IsChosen C.step C.pack C.unpack chooser.old.bias (turn_of course.old.world chooser.old) refusal.event) }
    ensures refused { IfErr result (λ refusal. RefusesTaking C.step C.pack C.refuses C.unpack course.new.world refusal.event refusal.error) }
{
    let Some(event) = chooser.draw(course.world()) else {
        return Ok(false);
    };
    let to = goes_to(course.world(), &event);
    if !course.take(&event)? {
        return Ok(false);
    }
    let entries = course.steps().last().unwrap().entries();
    chooser.see(course.world(), &event, to, entries);
    Ok(true)
}

// Takes a step with an event that is enabled and was overlooked, which never is; or returns false where no event is enabled. So
// that a run is idle only where nothing can happen rests on no bookkeeping.
fn find_step<C: Chare<A>, H: Openings<C>, A: Allocator + Copy>(
    course: &mut Course<C, H, A>,
    chooser: &mut Chooser<A>,
) -> Result<bool, Refusal>
    requires knows { Knows course.old.world chooser.old.choices }
    ensures strategy { course.new.strategy ≡ course.old.strategy }
    ensures bias { chooser.new.bias ≡ chooser.old.bias }
    ensures state { chooser.new.state ≡ chooser.old.state }
    ensures found { IfOk result (λ found. MatchBool found ((made : Made) × (course.new.steps ≡ course.old.steps ++ made ∷ [])
        × IsEnabled C.step C.pack C.unpack course.old.world made.0 × Happens C.step C.pack C.unpack course.old.world made.0 (course.new.world, made.1)
        × (chooser.new.choices.places ≡ places_after chooser.old.choices.places made) × Knows course.new.world chooser.new.choices)
        ((course.new ≡ course.old) × IsIdle C.step C.pack C.unpack course.new.world)) }
    ensures none { OnErr result (course.new ≡ course.old) }
    ensures refused { IfErr result (λ refusal. RefusesTaking C.step C.pack C.refuses C.unpack course.new.world refusal.event refusal.error) }
{
    if !take_any(course)? {
        return Ok(false);
    }
    let step = course.steps().last().unwrap();
    chooser.look_again(course.world(), &step.event(), step.entries());
    Ok(true)
}

// The PE whose queue an event puts a parcel into.
fn goes_to<C: Chare<A>, H: Openings<C>, A: Allocator>(
    world: &World<C, H, A>,
    event: &Event,
) -> Option<Pe>
    ensures value { result ≡ put_into world.now event.now }
{
    let Event::Flush(p) = event else {
        return None;
    };
    world.pe(*p)?.front_out()
}
