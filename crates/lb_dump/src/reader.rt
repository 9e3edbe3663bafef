//! Reads a dump that comes in pieces.

ghost use Rattle.std.specs.Prelude.{◌≡◌, ◌≢◌, [], ◌++◌, Ok, Err, IfOk};
ghost use Rattle.lb_dump.specs.Reading.{EndsReading, Feeds, HasGoodHead, NeedsNone};

use crate::held::{Held, take_in};
use crate::plan::DecisionPart;
use crate::whole_dump::dump_at_end;
use dump_format::{Dump, DumpError};
use std::alloc::{Allocator, Global};
use std::marker::Model;

/// Reads a dump that comes in pieces. It puts elements and moves into their lists as they come, and keeps the bytes of one part
/// at most. With the first byte after the head it reserves memory for as many elements as the head says, at most 65,536, and
/// with the first byte of a move for as many moves as the decision says, at most as many as there are elements. Contracts see
/// the reader as the text so far or, after a fault, as that fault.
#[derive(Drop)]
#[derive_where(Debug)]
pub struct DumpReader<A: Allocator = Global> {
    held: Held<A>,
    fault: Option<DumpError>,
}

impl<A: Allocator> Model for DumpReader<A> {
    ghost use Rattle.std.specs.Prelude.{IfNone};
    ghost use Rattle.lb_dump.specs.Held.{IsHeld, text_of};
    ghost use Rattle.lb_dump.specs.Reading.{Progress, progress_of};

    ghost Value = { Progress };

    ghost view = { λ r. progress_of (text_of r.held) r.fault };

    ghost invariant = { λ r. IfNone r.fault (IsHeld r.held) };
}

impl<A: Allocator> DumpReader<A> {
    /// A reader that was given no piece. It takes no memory.
    pub fn new(alloc: A) -> Self
    where
        A: Copy,
        ensures value { result ≡ Ok [] }
    {
        DumpReader {
            held: Held {
                head: None,
                loads: Vec::new(alloc),
                sizes: Vec::new(alloc),
                plan: DecisionPart::Begun,
                moves: Vec::new(alloc),
                begun: Vec::new(alloc),
            },
            fault: None,
        }
    }

    /// Takes the next piece of the text, which may be empty.
    ///
    /// # Errors
    ///
    /// The first fault of the text so far, with the piece that brings it, and never
    /// [`Short`](DumpError::Short), which only [`end`](Self::end) reports; [`OutOfMemory`](DumpError::OutOfMemory)
    /// where a request for memory is refused, in place of a fault after the head that the same piece brings. Each later
    /// call returns the same error.
    pub fn feed(&mut self, piece: &[u8]) -> Result<(), DumpError>
    where
        A: Copy,
        ensures fed { Feeds self.old piece.now result self.new }
        ensures no_growth { IfOk self.old (λ text. NeedsNone text piece.now → result ≢ Err DumpError.OutOfMemory) }
        ensures head_first { IfOk self.old (λ text. result ≡ Err DumpError.OutOfMemory → HasGoodHead (text ++ piece.now)) }
    {
        if let Some(fault) = self.fault {
            return Err(fault);
        }
        let taken = take_in(&mut self.held, piece);
        if let Err(fault) = taken {
            self.fault = Some(fault);
        }
        taken
    }

    /// The dump of all pieces.
    ///
    /// # Errors
    ///
    /// What [`feed`](Self::feed) returned last where that was an error, or else [`Short`](DumpError::Short) where
    /// the text is not whole. It takes no memory.
    pub fn end(self) -> Result<Dump<A>, DumpError>
        ensures ends { EndsReading self result }
    {
        let DumpReader { held, fault } = self;
        match fault {
            Some(fault) => Err(fault),
            None => dump_at_end(held),
        }
    }
}
