//! The handle that a program keeps.

ghost use Rattle.std.specs.Prelude.{◌≡◌, MatchOption, true, false};
ghost use Rattle.board_handle.specs.Owning.{BoardView};

use loose_box::Loose;
use std::alloc::Global;
use std::marker::Model;
use std::mem::replace;
use std::ptr::null_mut;
use sync_board::Board;

/// A pointer that a program in C keeps, to a board. A handle of zeros is closed. It may be moved, and is never copied.
#[repr(C)]
pub struct BoardHandle {
    at: *mut u8,
    /// Whether it has a board.
    pub is_open: bool,
    pub ghost board: { BoardView },
}

impl Model for BoardHandle {
    ghost use Rattle.board_handle.specs.Owning.{held};

    ghost also_owns = { λ h. held h.at h.is_open h.board };
}

impl BoardHandle {
    // A closed handle.
    fn closed() -> BoardHandle
        ensures is_open { result.is_open ≡ false }
    {
        BoardHandle {
            at: null_mut(),
            is_open: false,
        }
    }

    // An open handle.
    fn of(board: Loose<Board, Global>) -> BoardHandle
        ensures is_open { result.is_open ≡ true }
        ensures board { result.board ≡ board.value }
    {
        let Loose { at, alloc: _ } = board;
        BoardHandle {
            at: at as *mut u8,
            is_open: true,
        }
    }

    // What an open handle has.
    fn into_loose(self, alloc: Global) -> Option<Loose<Board, Global>>
        ensures board { MatchOption result (self.is_open ≡ false) (λ board. (self.is_open ≡ true) × (board.value ≡ self.board)) }
    {
        let BoardHandle { at, is_open } = self;
        if !is_open {
            return None;
        }
        Some(Loose {
            at: at as *mut Board,
            alloc,
        })
    }

    // A closed handle owns nothing.
    fn leave(self)
        requires is_closed { self.is_open ≡ false }
    {
        let BoardHandle { at: _, is_open: _ } = self;
    }

    /// Takes the board out of an open handle, which is closed then.
    pub(crate) fn take(&mut self, alloc: Global) -> Option<Box<Board>>
        ensures board { MatchOption result (self.old.is_open ≡ false) (λ board. (self.old.is_open ≡ true) × (board.value ≡ self.old.board)) }
        ensures is_closed { self.new.is_open ≡ false }
    {
        let taken = replace(self, BoardHandle::closed());
        let board = taken.into_loose(alloc)?;
        Some(board.into_box())
    }

    /// Puts a board into a closed handle.
    pub(crate) fn put(&mut self, board: Box<Board>)
        requires is_closed { self.old.is_open ≡ false }
        ensures is_open { self.new.is_open ≡ true }
        ensures board { self.new.board ≡ board.value }
    {
        let handle = BoardHandle::of(Loose::of(board));
        let closed = replace(self, handle);
        closed.leave();
    }
}
