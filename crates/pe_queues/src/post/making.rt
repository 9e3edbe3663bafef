//! How a post is made: its queues with one seat that is all seats, from which the others are split off.
ghost use Rattle.std.specs.Prelude.{◌≡◌, ◌-◌, ◌<◌, ◌≤◌, All, length, sum_by, IfOk};
ghost use Rattle.chare_index.specs.declared.limits.TheConstants.Limits.{PES, SEATS};
ghost use Rattle.pe_queues.specs.Seats.{new_seat};

use super::Post;
use crate::queue::Queue;
use crate::seat::Seat;
use chare_index::Limits;
use std::alloc::{AllocError, Allocator};

impl<T: Drop, A: Allocator> Post<T, A> {
    // Empty queues, and the seat that is all seats, with room for what will be left.
    pub(super) fn open(
        alloc: A,
        count: usize,
        capacity: usize,
    ) -> Result<(Self, Seat<T, A>), AllocError>
    where
        A: Copy,
        requires some { 0 < count }
        requires few { count ≤ PES }
        requires wide { 0 < capacity }
        ensures sized { IfOk result (λ made. (length made.0.queues ≡ count) × (made.0.capacity ≡ capacity)) }
        ensures all { IfOk result (λ made. made.1 ≡ new_seat made.0 SEATS) }
    {
        let mut queues = Vec::with_capacity(alloc, count)?;
        let mut tickets = Vec::with_capacity(alloc, count)?;
        let mut rooms = Vec::with_capacity(alloc, count)?;
        for _i in 0..count {
            let room = Vec::with_capacity(alloc, capacity)?;
            let (queue, ticket) = Queue::new(alloc, capacity)?;
            queues.push_reserved(queue);
            tickets.push_reserved(ticket);
            rooms.push_reserved(room);
        }
        let seat = Seat {
            tickets,
            seats: Limits::SEATS,
            capacity,
            rooms: Some(rooms),
        };
        Ok((Post { queues, capacity }, seat))
    }

    // This many seats, which together are all seats.
    pub(super) fn hand_out(
        &self,
        alloc: A,
        all: Seat<T, A>,
        seats: u32,
    ) -> Result<Vec<Seat<T, A>, A>, AllocError>
    where
        A: Copy,
        requires all { all ≡ new_seat self.now SEATS }
        requires some { 0 < seats }
        requires few { seats ≤ SEATS }
        ensures count { IfOk result (λ given. length given.items ≡ seats) }
        ensures fresh { IfOk result (λ given. All (λ seat. seat ≡ new_seat self.now seat.seats) given.items) }
        ensures shared { IfOk result (λ given. sum_by (λ seat. seat.seats) given.items ≡ SEATS) }
    {
        let mut given = Vec::with_capacity(alloc, seats as usize)?;
        let mut rest = all;
        for _n in 1..seats {
            let (left, one) = self.split(alloc, rest)?;
            given.push_reserved(one);
            rest = left;
        }
        given.push_reserved(rest);
        Ok(given)
    }

    // Splits one seat off a seat through which nothing has gone yet.
    fn split(&self, alloc: A, seat: Seat<T, A>) -> Result<(Seat<T, A>, Seat<T, A>), AllocError>
        requires own { seat.post ≡ self.now }
        requires fresh { seat ≡ new_seat self.now seat.seats }
        requires more { 1 < seat.seats }
        ensures left { IfOk result (λ two. two.0 ≡ new_seat self.now (seat.seats - 1)) }
        ensures one { IfOk result (λ two. two.1 ≡ new_seat self.now 1) }
    {
        let Seat {
            mut tickets,
            seats,
            capacity,
            rooms,
        } = seat;
        let mut ones = Vec::with_capacity(alloc, self.queues.len())?;
        for k in 0..self.queues.len() {
            ones.push_reserved(self.queues[k].split(&mut tickets[k]));
        }
        let left = Seat {
            tickets,
            seats: seats - 1,
            capacity,
            rooms,
        };
        let one = Seat {
            tickets: ones,
            seats: 1,
            capacity,
            rooms: None,
        };
        Ok((left, one))
    }
}
