//! A queue of parcels before a PE.

ghost use Rattle.std.specs.Prelude.{◌≡◌, List, [], ◌∷◌, ◌++◌, length, Some, IfSome, IsSome, OnOk, OnErr, MatchOption};
ghost use Rattle.pe_state.specs.Pes.{front_address, front_parcel, gave_up};

use chares::{Chare, Openings};
use pe_state::{Parcel, PeState};
use std::alloc::{AllocError, Allocator, Global};
use std::collections::VecDeque;
use std::marker::Model;

/// The parcels in the queue before a PE. Its capacity has no limit. Contracts see it as the list of parcels, the
/// front first.
#[derive(Drop)]
pub struct Queue<C: Chare<A>, H: Openings<C>, A: Allocator = Global> {
    parcels: VecDeque<Parcel<C, H, A>, A>,
}

impl<C: Chare<A>, H: Openings<C>, A: Allocator> Model for Queue<C, H, A> {
    ghost use Rattle.std.specs.Prelude.{List};
    ghost use Rattle.pe_state.specs.Pes.{Parcel};

    ghost Value = { List Parcel };

    ghost view = { λ q. q.parcels.items };
}

impl<C: Chare<A>, H: Openings<C>, A: Allocator + Copy> Queue<C, H, A> {
    /// An empty queue.
    pub(crate) fn new(alloc: A) -> Self
        ensures made { result ≡ [] }
    {
        Queue {
            parcels: VecDeque::new(alloc),
        }
    }

    /// Moves the front of the outbox of a PE to the back.
    pub(crate) fn push_from(&mut self, pe: &mut PeState<C, H, A>) -> Result<(), AllocError>
        requires addressed { IsSome (front_address pe.old.outbox) }
        ensures put { OnOk result (IfSome (front_parcel pe.old.outbox) (λ parcel. self.new ≡ self.old ++ parcel ∷ [])) }
        ensures front { IsSome (front_parcel pe.old.outbox) }
        ensures ok { OnOk result (pe.new ≡ gave_up pe.old) }
        ensures err { OnErr result (self.new ≡ self.old) }
        ensures same_pe { OnErr result (pe.new ≡ pe.old) }
    {
        self.parcels.reserve(1)?;
        let parcel = pe.sent();
        self.parcels.push_back_reserved(parcel);
        Ok(())
    }

    /// Pops the parcel at the front.
    pub(crate) fn pop(&mut self) -> Option<Parcel<C, H, A>>
        ensures taken { MatchOption result ((self.old ≡ []) × (self.new ≡ [])) (λ parcel. self.old ≡ parcel ∷ self.new) }
    {
        self.parcels.pop_front()
    }
}

impl<C: Chare<A>, H: Openings<C>, A: Allocator> Queue<C, H, A> {
    /// The parcels, the front first.
    pub fn parcels(&self) -> &VecDeque<Parcel<C, H, A>, A>
        ensures value { result.now.items ≡ self.now }
    {
        &self.parcels
    }

    /// The parcels by value, the front first.
    pub fn into_parcels(self) -> VecDeque<Parcel<C, H, A>, A>
        ensures value { result.items ≡ self }
    {
        self.parcels
    }
}
