//! A search for an event that is enabled.

ghost use Rattle.std.specs.Prelude.{◌≡◌, ◌≤◌, ◌<◌, ℕ, IfErr, IfOk, OnErr, MatchBool};
ghost use Rattle.courses.specs.Courses.{IsIdle, RefusesTaking};
ghost use Rattle.courses.specs.Searches.{IsQuiet, NoneEnabled, TakesSome, events_for};

use crate::course::{Course, Refusal};
use chare_index::{Index, Limits, Pe};
use chares::{Chare, Openings};
use rts_core::{Event, World};
use std::alloc::Allocator;

/// Takes the first event that is enabled, by the number of its PE; or returns false, and changes nothing, where no event at all is
/// enabled. It tries each event that there may be: some for each PE, and three for each PE and element.
///
/// # Errors
///
/// Those of [`Course::take`], on which the course is unchanged.
pub fn take_any<C: Chare<A>, H: Openings<C>, A: Allocator + Copy>(
    course: &mut Course<C, H, A>,
) -> Result<bool, Refusal>
    ensures found { IfOk result (λ found. MatchBool found (TakesSome C.step C.pack C.unpack course.old course.new)
        (IsIdle C.step C.pack C.unpack course.old.world × (course.new ≡ course.old))) }
    ensures refused { IfErr result (λ refusal. RefusesTaking C.step C.pack C.refuses C.unpack course.new.world refusal.event refusal.error) }
    ensures err { OnErr result (course.new ≡ course.old) }
{
    let pes = course.pes();
    for number in 0..pes {
        match take_at(course, Pe::new(number).unwrap()) {
            Ok(false) => {}
            Ok(true) => return Ok(true),
            Err(refusal) => return Err(refusal),
        }
    }
    let decide = Event::Decide;
    match course.take(&decide) {
        Ok(found) => Ok(found),
        Err(refusal) => Err(refusal),
    }
}

// Takes the first event of PE p that is enabled.
fn take_at<C: Chare<A>, H: Openings<C>, A: Allocator + Copy>(
    course: &mut Course<C, H, A>,
    p: Pe,
) -> Result<bool, Refusal>
    ensures found { IfOk result (λ found. MatchBool found (TakesSome C.step C.pack C.unpack course.old course.new)
        (IsQuiet C.step C.pack C.unpack course.old.world p × (course.new ≡ course.old))) }
    ensures refused { IfErr result (λ refusal. RefusesTaking C.step C.pack C.refuses C.unpack course.new.world refusal.event refusal.error) }
    ensures err { OnErr result (course.new ≡ course.old) }
{
    let events = [
        Event::Look(p),
        Event::Flush(p),
        Event::Deliver(p),
        Event::Act(p),
        Event::Report(p),
    ];
    match take_first(course, &events) {
        Ok(false) => take_for(course, p),
        Ok(true) => Ok(true),
        Err(refusal) => Err(refusal),
    }
}

// Takes the first event of PE p that names an element and is enabled.
fn take_for<C: Chare<A>, H: Openings<C>, A: Allocator + Copy>(
    course: &mut Course<C, H, A>,
    p: Pe,
) -> Result<bool, Refusal>
    ensures found { IfOk result (λ found. MatchBool found (TakesSome C.step C.pack C.unpack course.old course.new)
        (((e : ℕ) → NoneEnabled C.step C.pack C.unpack course.old.world (events_for p e)) × (course.new ≡ course.old))) }
    ensures refused { IfErr result (λ refusal. RefusesTaking C.step C.pack C.refuses C.unpack course.new.world refusal.event refusal.error) }
    ensures err { OnErr result (course.new ≡ course.old) }
{
    let elements = elements_at(course.world(), p);
    for number in 0..elements {
        let e = Index::new(number).unwrap();
        let events = [Event::Start(p, e), Event::Depart(p, e), Event::Resume(p, e)];
        match take_first(course, &events) {
            Ok(false) => {}
            Ok(true) => return Ok(true),
            Err(refusal) => return Err(refusal),
        }
    }
    Ok(false)
}

// Takes the first of these events that is enabled.
fn take_first<C: Chare<A>, H: Openings<C>, A: Allocator + Copy>(
    course: &mut Course<C, H, A>,
    events: &[Event],
) -> Result<bool, Refusal>
    ensures found { IfOk result (λ found. MatchBool found (TakesSome C.step C.pack C.unpack course.old course.new)
        (NoneEnabled C.step C.pack C.unpack course.old.world events.now × (course.new ≡ course.old))) }
    ensures refused { IfErr result (λ refusal. RefusesTaking C.step C.pack C.refuses C.unpack course.new.world refusal.event refusal.error) }
    ensures err { OnErr result (course.new ≡ course.old) }
{
    for event in events {
        match course.take(event) {
            Ok(false) => {}
            Ok(true) => return Ok(true),
            Err(refusal) => return Err(refusal),
        }
    }
    Ok(false)
}

// An element whose index is not below this number has no event on PE p that is enabled.
fn elements_at<C: Chare<A>, H: Openings<C>, A: Allocator>(world: &World<C, H, A>, p: Pe) -> u32
    ensures few { result ≤ Limits.ELEMENTS }
    ensures beyond { (e : ℕ) → result ≤ e → NoneEnabled C.step C.pack C.unpack world.now (events_for p e) }
{
    let Some(pe) = world.pe(p) else {
        return 0;
    };
    pe.known();
    pe.n()
}
