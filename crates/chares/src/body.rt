//! The body of a letter. A short one is stored in the letter itself, a longer one on the heap.

ghost use Rattle.std.specs.Prelude.{◌≡◌, ◌≤◌, length, IfOk};

use std::alloc::{AllocError, Allocator, Global};
use std::marker::Model;

/// How many bytes a body keeps in itself.
const SHORT: usize = 15;

/// What a letter says, a list of bytes. Up to 15 bytes are kept in the letter itself: most letters are short, and a
/// letter that needs no memory of its own is cheaper to post, keep and drop. A longer body is on the heap.
#[derive(Drop)]
pub(crate) struct Body<A: Allocator = Global> {
    bytes: Bytes<A>,
}

// Where the bytes are. A vector in place of the box would make each letter larger.
#[derive(Drop)]
enum Bytes<A: Allocator> {
    Short([u8; SHORT], u8),
    Long(Box<Vec<u8, A>, A>),
}

impl<A: Allocator> Model for Body<A> {
    ghost use Rattle.std.specs.Prelude.{ℕ, List};
    ghost use Rattle.chares.specs.Bodies.{bytes_of, IsBody};

    ghost Value = { List ℕ };

    ghost view = { λ b. bytes_of b.bytes };

    ghost invariant = { λ b. IsBody b.bytes };
}

impl<A: Allocator> Body<A> {
    /// The bytes.
    pub(crate) fn as_slice(&self) -> &[u8]
        ensures value { result.now ≡ self.now }
    {
        match &self.bytes {
            Bytes::Short(bytes, len) => &bytes[..*len as usize],
            Bytes::Long(bytes) => bytes.as_slice(),
        }
    }
}

impl<A: Allocator + Copy> Body<A> {
    /// A copy of the bytes. It needs memory only where there are more than 15.
    pub(crate) fn copy_of(alloc: A, bytes: &[u8]) -> Result<Self, AllocError>
        ensures value { IfOk result (λ body. body ≡ bytes.now) }
    {
        if bytes.len() <= SHORT {
            return Ok(Body::short(bytes));
        }
        Body::long(alloc, Vec::from_slice(alloc, bytes)?)
    }

    /// These bytes, which are moved where there are more than 15.
    pub(crate) fn of_vec(alloc: A, bytes: Vec<u8, A>) -> Result<Self, AllocError>
        ensures value { IfOk result (λ body. body ≡ bytes.items) }
    {
        if bytes.len() <= SHORT {
            return Ok(Body::short(&bytes));
        }
        Body::long(alloc, bytes)
    }

    // These bytes, on the heap.
    fn long(alloc: A, bytes: Vec<u8, A>) -> Result<Self, AllocError>
        ensures value { IfOk result (λ body. body ≡ bytes.items) }
    {
        match Box::new(alloc, bytes) {
            Ok(bytes) => Ok(Body {
                bytes: Bytes::Long(bytes),
            }),
            Err(_) => Err(AllocError),
        }
    }

    // A copy of a few bytes.
    fn short(bytes: &[u8]) -> Self
        requires few { length bytes.now ≤ SHORT }
        ensures value { result ≡ bytes.now }
    {
        let mut short = [0; SHORT];
        short[..bytes.len()].copy_from_slice(bytes);
        Body {
            bytes: Bytes::Short(short, bytes.len() as u8),
        }
    }
}
