//! A reader whose bytes are seen on their way.

ghost use Rattle.std.specs.Prelude.{◌≡◌};

use std::io::{self, Read};

/// What sees the bytes that a reader gives.
pub trait Witness {
    /// Sees the next bytes.
    fn sees(&mut self, bytes: &[u8]);
}

/// A reader, whose bytes a witness sees, in order and each once.
#[derive(Drop)]
pub struct Watched<'a, R, W> {
    inner: R,
    witness: &'a mut W,
}

impl<'a, R, W> Watched<'a, R, W> {
    /// This reader, before any call.
    pub fn new(inner: R, witness: &'a mut W) -> Self
        ensures inner { result.inner ≡ inner }
    {
        Watched { inner, witness }
    }
}

impl<R: Read, W: Witness> Read for Watched<'_, R, W> {
    ghost remaining = { λ watched. R.remaining watched.inner };

    fn read(&mut self, buf: &mut [u8]) -> io::Result<usize> {
        let len = self.inner.read(buf)?;
        self.witness.sees(&buf[..len]);
        Ok(len)
    }
}
