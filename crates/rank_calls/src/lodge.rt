//! A PE that is there, or not.

ghost use Rattle.std.specs.Prelude.{◌≡◌, MatchOption, true, false};
ghost use Rattle.foreign_chare.specs.Scripts.{Stamp};
ghost use Rattle.pe_state.specs.Pes.{PeView};

use crate::rank::Rank;
use crate::run::RunName;
use loose_box::Loose;
use std::alloc::Global;
use std::marker::Model;
use std::ptr::null_mut;

// A box of a PE as its pointer, where it is open, and nothing, where it is closed.
pub(crate) struct Lodge<R: RunName> {
    pub(crate) at: *mut Rank<R>,
    pub(crate) is_open: bool,
    pub(crate) ghost pe: { PeView Stamp },
}

impl<R: RunName> Model for Lodge<R> {
    ghost use Rattle.rank_calls.specs.Owning.{lodged};

    ghost also_owns = { λ l. lodged R.row (record { run = R.run }) l.at l.is_open l.pe };
}

impl<R: RunName> Lodge<R> {
    // A closed one.
    pub(crate) fn closed() -> Self
        ensures is_open { result.is_open ≡ false }
    {
        Lodge {
            at: null_mut(),
            is_open: false,
        }
    }

    // An open one.
    pub(crate) fn of(rank: Loose<Rank<R>, Global>) -> Self
        ensures is_open { result.is_open ≡ true }
        ensures pe { result.pe ≡ rank.value }
    {
        let Loose { at, alloc: _ } = rank;
        Lodge { at, is_open: true }
    }

    // What an open one has.
    pub(crate) fn into_loose(self, alloc: Global) -> Option<Loose<Rank<R>, Global>>
        ensures pe { MatchOption result (self.is_open ≡ false) (λ rank. (self.is_open ≡ true) × (rank.value ≡ self.pe)) }
    {
        let Lodge { at, is_open } = self;
        if !is_open {
            return None;
        }
        Some(Loose { at, alloc })
    }
}
