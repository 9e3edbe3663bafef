//! Whether the elements of a run have finished: those in the rooms, the hands and the outboxes of its PEs, and in its queues.

ghost use Rattle.std.specs.Prelude.{◌≡◌, ◌↔◌, All, IfSome, IsTrue, map};
ghost use Rattle.round_marks.specs.Finished.{HasFinished, HasFinishedParcel, HasFinishedPe, HaveAllFinished};

use chares::{Carried, Chare, Element};
use pe_state::{HeldParcel, Item, PeEnd};
use std::alloc::Allocator;

/// Whether every element of a run has finished, by its own progress and whatever its board was told: those that its PEs have
/// at the end, and those that are packed in the parcels that it left in its queues. The check takes no memory, and time
/// linear in the number of elements, letters and PEs.
pub fn run_finished<C: Chare<A>, A: Allocator>(
    ends: &[PeEnd<C, A>],
    left: &[Vec<HeldParcel<A>, A>],
) -> bool
    ensures finished { IsTrue result ↔ HaveAllFinished ends.now (map (λ queue. queue.items) left.now) }
{
    pes_finished(ends) && queues_finished(left)
}

// Whether all elements of these PEs have finished.
fn pes_finished<C: Chare<A>, A: Allocator>(pes: &[PeEnd<C, A>]) -> bool
    ensures { IsTrue result ↔ All HasFinishedPe pes.now }
{
    for pe in pes {
        if !pe_finished(pe) {
            return false;
        }
    }
    true
}

// Whether all elements that are packed in the parcels of these queues have finished.
fn queues_finished<A: Allocator>(queues: &[Vec<HeldParcel<A>, A>]) -> bool
    ensures { IsTrue result ↔ All (All HasFinishedParcel) (map (λ queue. queue.items) queues.now) }
{
    for queue in queues {
        if !parcels_finished(queue.as_slice()) {
            return false;
        }
    }
    true
}

// Whether all elements of a PE have finished: those in its room, and those packed in its hand and in its outbox.
fn pe_finished<C: Chare<A>, A: Allocator>(pe: &PeEnd<C, A>) -> bool
    ensures { IsTrue result ↔ HasFinishedPe pe.now }
{
    room_finished(pe) && hand_finished(pe) && outbox_finished(pe)
}

// Whether all elements in the room of a PE have finished.
fn room_finished<C: Chare<A>, A: Allocator>(pe: &PeEnd<C, A>) -> bool
    ensures { IsTrue result ↔ All (λ x. HasFinished x.1) pe.now.room }
{
    for (_, element) in pe.room().iter() {
        if !has_finished(element) {
            return false;
        }
    }
    true
}

// Whether an element in a room has finished.
fn has_finished<C: Chare<A>, A: Allocator>(element: &Element<C, A>) -> bool
    ensures { IsTrue result ↔ HasFinished element.now }
{
    element.progress().finished
}

// Whether the element that is packed in the hand of a PE has finished, if one is.
fn hand_finished<C: Chare<A>, A: Allocator>(pe: &PeEnd<C, A>) -> bool
    ensures { IsTrue result ↔ IfSome pe.now.hand (λ x. HasFinishedParcel x.parcel) }
{
    match pe.hand() {
        Some(item) => parcel_finished(&item.parcel),
        None => true,
    }
}

// Whether all elements that are packed in the outbox of a PE have finished.
fn outbox_finished<C: Chare<A>, A: Allocator>(pe: &PeEnd<C, A>) -> bool
    ensures { IsTrue result ↔ All (λ x. HasFinishedParcel x.parcel) pe.now.outbox }
{
    let (front, back) = pe.outbox().as_slices();
    items_finished(front) && items_finished(back)
}

// Whether all elements that are packed in a part of an outbox have finished.
fn items_finished<A: Allocator>(items: &[Item<A>]) -> bool
    ensures { IsTrue result ↔ All (λ x. HasFinishedParcel x.parcel) items.now }
{
    items.iter().all(|item| parcel_finished(&item.parcel))
}

// Whether all elements that are packed in these parcels have finished.
fn parcels_finished<A: Allocator>(parcels: &[HeldParcel<A>]) -> bool
    ensures { IsTrue result ↔ All HasFinishedParcel parcels.now }
{
    parcels.iter().all(|parcel| parcel_finished(parcel))
}

// Whether the element that is packed in a parcel has finished, if one is.
fn parcel_finished<A: Allocator>(parcel: &HeldParcel<A>) -> bool
    ensures { IsTrue result ↔ HasFinishedParcel parcel.now }
{
    match parcel {
        Carried::Letter(_) => true,
        Carried::Element(packed) => packed.progress().finished,
    }
}
