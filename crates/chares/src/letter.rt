//! A letter, with its number, its address, its body and its count of hops.

ghost use Rattle.std.specs.Prelude.{◌≡◌, ℕ, ◌+◌, min, IfOk};
ghost use Rattle.chares.specs.Letters.{LetterView, hopped};

use crate::body::Body;
use chare_index::{Index, Pe};
use std::alloc::{AllocError, Allocator, Global};
use std::marker::Model;

/// The number of a letter: the PE that posted it, and how many letters that PE had posted before.
pub type LetterId = (Pe, u32);

/// A letter to an element. [`Sends::put`](crate::Sends::put) makes one, and [`Letter::arrived`] one that another process has given
/// up; it cannot be copied. Contracts see it as the record `LetterView`.
#[derive(Drop)]
pub struct Letter<A: Allocator = Global> {
    id: LetterId,
    to: Index,
    hops: u32,
    body: Body<A>,
}

impl<A: Allocator> Model for Letter<A> {
    ghost use Rattle.chares.specs.Letters.{LetterView};

    ghost Value = { LetterView };

    ghost view = { λ l. record { id = l.id; to = l.to; body = l.body; hops = l.hops } };
}

impl<A: Allocator> Letter<A> {
    /// A letter that nobody has forwarded.
    pub(crate) fn new(id: LetterId, to: Index, body: Body<A>) -> Self
        ensures value { result ≡ record { id = id; to = to; body = body; hops = 0 } }
    {
        Letter {
            id,
            to,
            hops: 0,
            body,
        }
    }

    /// Its number.
    pub fn id(&self) -> LetterId
        ensures value { result ≡ self.now.id }
    {
        self.id
    }

    /// The element that it is for.
    pub fn to(&self) -> Index
        ensures value { result ≡ self.now.to }
    {
        self.to
    }

    /// Its body: what it says.
    pub fn body(&self) -> &[u8]
        ensures value { result.now ≡ self.now.body }
    {
        self.body.as_slice()
    }

    /// How often it was forwarded. The count stops at 4,294,967,295.
    pub fn hops(&self) -> u32
        ensures value { result ≡ self.now.hops }
    {
        self.hops
    }

    /// Counts one more hop.
    pub fn hop(&mut self)
        ensures ok { self.new ≡ hopped self.old }
    {
        self.hops = self.hops.saturating_add(1);
    }
}

impl<A: Allocator> Letter<A> {
    /// A letter that came as a message from another process, where it was given up as this one is made. The only error is that
    /// memory was refused.
    pub fn arrived(
        alloc: A,
        id: LetterId,
        to: Index,
        hops: u32,
        body: Vec<u8, A>,
    ) -> Result<Self, AllocError>
    where
        A: Copy,
        ensures value { IfOk result (λ l. l ≡ record { id = id; to = to; body = body.items; hops = hops }) }
    {
        let body = Body::of_vec(alloc, body)?;
        Ok(Letter { id, to, hops, body })
    }
}
