//! How seats are joined, and how a post ends once they all are.
ghost use Rattle.std.specs.Prelude.{◌≡◌, ◌≤◌, All, length};
ghost use Rattle.pe_queues.specs.Seats.{IsAllSeats, AreLeft, joined};

use super::Post;
use crate::seat::Seat;
use std::alloc::Allocator;
use std::sync::Wait;

impl<T: Drop, A: Allocator> Post<T, A> {
    // Two seats as one: their tickets queue by queue, and the rooms of the one that has them.
    pub(super) fn joined(&self, first: Seat<T, A>, second: Seat<T, A>) -> Seat<T, A>
        requires own { first.post ≡ self.now }
        requires others { second.post ≡ self.now }
        ensures both { result ≡ joined first second }
    {
        let Seat {
            mut tickets,
            seats,
            capacity,
            rooms,
        } = first;
        let Seat {
            tickets: mut others,
            seats: more,
            capacity: _,
            rooms: other_rooms,
        } = second;
        while let Some(other) = others.pop() {
            let k = others.len();
            self.queues[k].join(&mut tickets[k], other);
        }
        Seat {
            tickets,
            seats: seats + more,
            capacity,
            rooms: rooms.or(other_rooms),
        }
    }

    // What is left in each queue, which goes into the rooms that all seats have.
    pub(super) fn drained<R: Wait>(self, rt: &R, seat: Seat<T, A>) -> Vec<Vec<T, A>, A>
        requires own { seat.post ≡ self }
        requires all { IsAllSeats seat }
        ensures left { AreLeft seat result.items }
        ensures few { All (λ queue. length queue.items ≤ self.capacity) result.items }
    {
        let Post {
            queues,
            capacity: _,
        } = self;
        let Seat {
            mut tickets,
            rooms,
            ..
        } = seat;
        let Some(mut left) = rooms else {
            unreachable!();
        };
        for k in 0..queues.len() {
            queues[k].drain(rt, &mut tickets[k], &mut left[k]);
        }
        left
    }
}
