//! The handle that a program keeps.

ghost use Rattle.std.specs.Prelude.{◌≡◌, true, false};
ghost use Rattle.foreign_chare.specs.Scripts.{Stamp};
ghost use Rattle.pe_state.specs.Pes.{PeView};
ghost use Rattle.rank_calls.specs.Calls.{IsAsked, IsServed};
ghost use Rattle.rank_calls.specs.Runs.{Run};

use crate::lodge::Lodge;
use crate::rank::Rank;
use crate::request::{Reply, Request};
use crate::serving::serve;
use std::alloc::Global;
use std::marker::{Brand, Model};
use std::mem::replace;
use std::ptr::null_mut;

/// A pointer that a program in C keeps, to a PE of a run that no code knows. A handle of zeros is closed. It may be moved, and is
/// never copied.
#[repr(C)]
pub struct Handle {
    at: *mut u8,
    pub is_open: bool,
    pub ghost run: { Run },
    pub ghost pe: { PeView Stamp },
}

impl Model for Handle {
    ghost use Rattle.rank_calls.specs.Owning.{held};

    ghost also_owns = { λ h. held h.at h.is_open h.run h.pe };
}

impl Handle {
    // A closed handle.
    fn closed() -> Handle
        ensures is_open { result.is_open ≡ false }
    {
        Handle {
            at: null_mut(),
            is_open: false,
        }
    }

    // Does what is asked, by the name of its run.
    fn turn(self, alloc: Global, request: Request) -> (Handle, Reply)
        requires asked { IsAsked self.run self.pe request }
        ensures run { result.0.run ≡ self.run }
        ensures served { IsServed self.run self.is_open self.pe request result.1 result.0.is_open result.0.pe }
    {
        let Handle { at, is_open } = self;
        let lodge = Lodge {
            at: at as *mut Rank<Brand>,
            is_open,
        };
        let served = serve::<Brand>(lodge, alloc, request);
        let (lodge, reply) = served;
        let Lodge { at, is_open } = lodge;
        (
            Handle {
                at: at as *mut u8,
                is_open,
            },
            reply,
        )
    }

    // A closed handle owns nothing.
    fn leave(self)
        requires is_closed { self.is_open ≡ false }
    {
        let Handle { at: _, is_open: _ } = self;
    }

    /// Does what is asked, and answers. What is answered is so, and the PE is as the definitions of its steps say, or as it was
    /// (`IsServed`), where the program keeps its promise of the run (`IsAsked`). It is refused where the tests say so (`refusal`), and
    /// what is not may only have failed (`MayFail`). The run stays.
    pub fn call(&mut self, alloc: Global, request: Request) -> Reply
        requires asked { IsAsked self.old.run self.old.pe request }
        ensures run { self.new.run ≡ self.old.run }
        ensures served { IsServed self.old.run self.old.is_open self.old.pe request result self.new.is_open self.new.pe }
    {
        let handle = replace(self, Handle::closed());
        let (handle, reply) = handle.turn(alloc, request);
        let closed = replace(self, handle);
        closed.leave();
        reply
    }
}
