//! The PEs of a run, gathered from their workers.

ghost use Rattle.std.specs.Prelude.{◌≡◌, ◌+◌, ◌++◌, ◌∷◌, [], ◌<◌, ◌≤◌, length, map, sum_by, vec_capacity};
ghost use Rattle.std.specs.List.{range_with_len};
ghost use Rattle.chare_index.specs.declared.limits.TheConstants.Limits.{SEATS};
ghost use Rattle.pe_queues.specs.Seats.{pes};
ghost use Rattle.rts_core.specs.Histories.{AreHistories};
ghost use Rattle.run_account.specs.Gathering.{CountOn};
ghost use Rattle.run_account.specs.RunAccounts.{IsRunAccount, left_world};

use crate::left_buffers::LeftBuffers;
use chares::{Chare, Openings};
use pe_queues::{Post, Seat};
use pe_state::{HeldParcel, Parcel, PeEnd};
use pe_worker::{RunBeginning, SeatedPe};
use std::alloc::{Allocator, Global};
use std::marker::{Model, PhantomData};
use std::sync::Wait;

/// The PEs of a run in order, from the first on, and the one seat that their seats were joined to. Contracts see them as the
/// record `GatheredView`. They keep the sums of the local accounts, which add up to the account of the run once all are
/// gathered and the queues are settled.
#[derive(Drop)]
pub struct Gathered<C: Chare<A>, H: Openings<C>, J: RunBeginning<C>, A: Allocator = Global> {
    ends: Vec<PeEnd<C, A>, A>,
    seat: Seat<Parcel<C, H, A>, A>,
    of: PhantomData<J>,
}

impl<C: Chare<A>, H: Openings<C>, J: RunBeginning<C>, A: Allocator> Model for Gathered<C, H, J, A> {
    ghost use Rattle.std.specs.Prelude.{vec_capacity};
    ghost use Rattle.run_account.specs.Gathering.{AreGathered, GatheredView};

    ghost Value = { GatheredView C };

    ghost view = { λ g. record { ends = g.ends.items; seat = g.seat; room = vec_capacity g.ends } };

    ghost invariant = { λ g. AreGathered C.step C.fits C.pack H.opened J.beginning g.ends.items g.seat };
}

impl<C: Chare<A>, H: Openings<C>, J: RunBeginning<C>, A: Allocator> Gathered<C, H, J, A> {
    /// The first PE, in a buffer with capacity for all.
    pub fn first(first: SeatedPe<C, H, J, A>, room: Vec<PeEnd<C, A>, A>) -> Self
        requires first { first.pe.me ≡ 0 }
        requires empty { room.items ≡ [] }
        requires some_room { 0 < vec_capacity room }
        ensures ends { result.ends ≡ first.pe ∷ [] }
        ensures room { result.room ≡ vec_capacity room }
    {
        let (pe, seat) = first.into_parts();
        let mut ends = room;
        ends.push_reserved(pe.into_end());
        Gathered {
            ends,
            seat,
            of: PhantomData,
        }
    }

    /// Adds the next PE in order. The buffer has the capacity, so this takes no memory.
    pub fn with(self, post: &Post<Parcel<C, H, A>, A>, next: SeatedPe<C, H, J, A>) -> Self
        requires own { post.now ≡ J.beginning.post }
        requires next { next.pe.me ≡ length self.ends }
        requires some_room { length self.ends < self.room }
        ensures ends { result.ends ≡ self.ends ++ next.pe ∷ [] }
        ensures room { result.room ≡ self.room }
    {
        let (pe, seat) = next.into_parts();
        let Gathered {
            mut ends,
            seat: all,
            of: _,
        } = self;
        ends.push_reserved(pe.into_end());
        let seat = post.join(all, seat);
        Gathered {
            ends,
            seat,
            of: PhantomData,
        }
    }

    /// Ends the queues, once all PEs are gathered, and returns the PEs, in order, and what is left in the queue of each,
    /// front first. The clause `account` is the account of the run, with what the PEs that it began with had done before; by
    /// `counts` none of them has posted fewer letters than at the start. This takes no memory.
    pub fn settled<R: Wait>(
        self,
        rt: &R,
        post: Post<Parcel<C, H, A>, A>,
        room: LeftBuffers<A>,
    ) -> (Vec<PeEnd<C, A>, A>, Vec<Vec<HeldParcel<A>, A>, A>)
        requires own { post ≡ J.beginning.post }
        requires all_seats { sum_by (λ n. n) J.beginning.shares ≡ SEATS }
        requires shared { length self.ends ≡ length J.beginning.shares }
        requires whole { length self.ends ≡ length J.beginning.starts }
        requires in_order { map (λ pe. pe.me) J.beginning.starts ≡ range_with_len 0 (length J.beginning.starts) }
        requires beginning { IsRunAccount C.step H.opened (left_world J.beginning.starts []) }
        requires served { pes post ≡ length self.ends }
        requires one_each { room.queues ≡ length self.ends }
        requires wide { room.capacity ≡ post.capacity }
        ensures ends { result.0.items ≡ self.ends }
        ensures counted { length result.1.items ≡ length self.ends }
        ensures counts { CountOn J.beginning.starts result.0.items }
        ensures histories { AreHistories C.step C.fits C.pack H.opened (left_world result.0.items (map (λ q. q.items) result.1.items)) }
        ensures account { IsRunAccount C.step H.opened (left_world result.0.items (map (λ q. q.items) result.1.items)) }
    {
        let Gathered { ends, seat, of: _ } = self;
        let Ok(left) = post.settle(rt, seat) else {
            unreachable!()
        };
        (ends, room.release(left))
    }
}
