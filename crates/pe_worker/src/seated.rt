//! A PE of a run with the seat through which its parcels come and go.

ghost use Rattle.std.specs.Prelude.{◌≡◌, slice_get, Some};
ghost use Rattle.pe_queues.specs.Seats.{new_seat, pes};
ghost use Rattle.pe_worker.specs.Seated.{Beginning, IsSeated};

use barrier::{BoardSize, BoardStart};
use chare_index::Pe;
use chares::{BodyLimit, Chare, Openings};
use pe_queues::{PeCount, Seat};
use pe_state::{Parcel, PeState};
use std::alloc::{Allocator, Global};
use std::marker::{Brand, Model, PhantomData};

/// Names how a run over threads begins: its queues, its PEs as they begin, and how many seats each of them has. What a
/// worker's type promises, it promises of this run.
pub trait RunBeginning<C> {
    /// The beginning.
    ghost beginning: { Beginning C };
}

impl<C> RunBeginning<C> for Brand {
    ghost use Rattle.std.specs.Prelude.{[]};

    ghost beginning = { record { post = record { queues = []; capacity = 1 }; starts = []; shares = [] } };
}

/// The numbers of a run that opens with the chares and PEs that `H` names, for its words and its board, with the strategy by
/// which its rounds are decided, and those that were decided before.
pub struct OfRun<C, H>(PhantomData<(C, H)>);

impl<C, H: Openings<C>> PeCount for OfRun<C, H> {
    ghost pes = { H.pes };
}

impl<C, H: Openings<C> + BoardStart<A>, A> BoardSize<A> for OfRun<C, H> {
    ghost use Rattle.std.specs.Prelude.{length};

    ghost elements = { length H.opened };

    ghost pes = { H.pes };

    ghost strategy = { H.strategy };

    ghost earlier = { H.earlier };
}

/// A PE and its seat. Contracts see it as the record `SeatedView`. What the PE has received was taken through the seat and
/// what it has given away was put through it, so that the local account of the PE is one of these.
#[derive(Drop)]
pub struct SeatedPe<C: Chare<A>, H: Openings<C>, J: RunBeginning<C>, A: Allocator = Global> {
    pub(crate) pe: PeState<C, H, A>,
    pub(crate) seat: Seat<Parcel<C, H, A>, A>,
    of: PhantomData<J>,
}

impl<C: Chare<A>, H: Openings<C>, J: RunBeginning<C>, A: Allocator> Model for SeatedPe<C, H, J, A> {
    ghost use Rattle.pe_worker.specs.Seated.{IsSeated, SeatedView};

    ghost Value = { SeatedView C };

    ghost view = { λ w. record { pe = w.pe; seat = w.seat } };

    ghost invariant = { λ w. IsSeated C.step H.opened H.pes J.beginning w.pe w.seat };
}

impl<C: Chare<A>, H: Openings<C>, J: RunBeginning<C>, A: Allocator> SeatedPe<C, H, J, A> {
    /// A PE as it begins, with a seat through which nothing has gone.
    pub fn new(pe: PeState<C, H, A>, seat: Seat<Parcel<C, H, A>, A>) -> Self
        requires start { slice_get J.beginning.starts pe.me ≡ Some pe }
        requires seat { seat ≡ new_seat J.beginning.post seat.seats }
        requires share { slice_get J.beginning.shares pe.me ≡ Some seat.seats }
        requires served { pes J.beginning.post ≡ H.pes }
        ensures made { result ≡ record { pe = pe; seat = seat } }
    {
        SeatedPe {
            pe,
            seat,
            of: PhantomData,
        }
    }

    /// Lets the bodies of letters that are posted on its PE have this many bytes.
    pub fn set_longest(&mut self, longest: BodyLimit)
        ensures ok { self.new ≡ record self.old { pe = record (self.old.pe) { longest = longest } } }
    {
        self.pe.set_longest(longest);
    }

    /// The number of its PE.
    pub fn me(&self) -> Pe
        ensures value { result ≡ self.now.pe.me }
    {
        self.pe.me()
    }

    /// Its PE.
    pub fn pe(&self) -> &PeState<C, H, A>
        ensures value { result.now ≡ self.now.pe }
    {
        &self.pe
    }

    /// Its PE and its seat. The clause `tied` says what ties them.
    pub fn into_parts(self) -> (PeState<C, H, A>, Seat<Parcel<C, H, A>, A>)
        ensures pe { result.0 ≡ self.pe }
        ensures seat { result.1 ≡ self.seat }
        ensures tied { IsSeated C.step H.opened H.pes J.beginning self.pe self.seat }
    {
        let SeatedPe { pe, seat, of: _ } = self;
        (pe, seat)
    }
}
