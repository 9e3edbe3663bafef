//! What a worker says of its steps to who looks on.

use crate::watch::{PeStep, Watch};
use barrier::{BoardSize, RoundPlaces};
use chare_index::{Index, Pe};
use chares::{Carried, Chare, LetterId, Openings};
use pe_state::{Acted, PeState};
use std::alloc::Allocator;

// The letter with its element, or the element, that is in the hand of a PE.
#[derive(Clone, Copy)]
pub(crate) enum InHand {
    Letter(LetterId, Index),
    Element(Index),
}

/// What is in the hand of a PE, where somebody follows its steps. An act is about to begin then.
pub(crate) fn before_act<V: Watch, C: Chare<A>, H: Openings<C>, A: Allocator>(
    watch: &V,
    pe: &PeState<C, H, A>,
) -> Option<InHand> {
    if !watch.follows_steps() {
        return None;
    }
    let item = pe.as_end().hand()?;
    watch.begins_step(pe.me());
    match &item.parcel {
        Carried::Letter(letter) => Some(InHand::Letter(letter.id(), letter.to())),
        Carried::Element(element) => Some(InHand::Element(element.index())),
    }
}

/// Tells that a PE acted so on what was in its hand.
pub(crate) fn after_act<V: Watch, C: Chare<A>, H: Openings<C>, A: Allocator>(
    watch: &V,
    pe: &PeState<C, H, A>,
    held: Option<InHand>,
    acted: Option<Acted>,
) {
    if let Some(step) = act_of(held, acted) {
        watch.made_step(pe.me(), step, pe.as_end().count());
    }
}

// The step that an act was.
fn act_of(held: Option<InHand>, acted: Option<Acted>) -> Option<PeStep> {
    let acted = acted?;
    match held? {
        InHand::Letter(id, element) => letter_step(id, element, acted),
        InHand::Element(element) => Some(PeStep::Installed(element)),
    }
}

// The step that an act on a letter was.
fn letter_step(id: LetterId, element: Index, acted: Acted) -> Option<PeStep> {
    match acted {
        Acted::Executed => Some(PeStep::Executed(id, element)),
        Acted::Shelved => Some(PeStep::Shelved(id)),
        Acted::Forwarded => Some(PeStep::Forwarded(id)),
        Acted::Installed => None,
    }
}

/// A PE is about to let an element start or go on.
pub(crate) fn before_element<V: Watch, C: Chare<A>, H: Openings<C>, A: Allocator>(
    watch: &V,
    pe: &PeState<C, H, A>,
) {
    if watch.follows_steps() {
        watch.begins_step(pe.me());
    }
}

/// Tells that a PE made this step.
pub(crate) fn after<V: Watch, C: Chare<A>, H: Openings<C>, A: Allocator>(
    watch: &V,
    pe: &PeState<C, H, A>,
    step: PeStep,
) {
    if watch.follows_steps() {
        watch.made_step(pe.me(), step, pe.as_end().count());
    }
}

/// Tells that an element of a PE went on after the round that these places are of: here, or to its place.
pub(crate) fn after_going_on<V: Watch, C: Chare<A>, H: Openings<C>, J: BoardSize<A>, A: Allocator>(
    watch: &V,
    pe: &PeState<C, H, A>,
    places: &RoundPlaces<J, A>,
    element: Index,
) {
    if !watch.follows_steps() {
        return;
    }
    let step = match places.place_of(element) {
        Some(place) if place != pe.me() => PeStep::Departed(element, place),
        _ => PeStep::Resumed(element, places.round()),
    };
    watch.made_step(pe.me(), step, pe.as_end().count());
}
