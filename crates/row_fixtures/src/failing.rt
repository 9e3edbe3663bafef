//! A reader and a writer that fail once, at a given call.

ghost use Rattle.std.specs.Prelude.{◌≡◌, []};

use std::io::{self, Error, ErrorKind, Read, Write};

/// A reader that gives at most `at_once` bytes per call, and fails at one call, counted from 0, whatever comes after it.
#[derive(Drop)]
pub struct Source<'a> {
    /// The bytes that it has yet to give.
    pub rest: &'a [u8],
    /// The most bytes that it gives in one call.
    pub at_once: usize,
    /// The number of its calls so far.
    pub calls: usize,
    /// The call at which it fails, and the kind of the error.
    pub fails: Option<(usize, ErrorKind)>,
}

impl<'a> Source<'a> {
    /// A reader of these bytes. It fails at the call with this number, if any, with an error of this kind.
    pub fn new(rest: &'a [u8], at_once: usize, fails: Option<(usize, ErrorKind)>) -> Source<'a>
        ensures not_called { result.calls ≡ 0 }
        ensures rest { result.rest.now ≡ rest.now }
        ensures at_once { result.at_once ≡ at_once }
        ensures fails { result.fails ≡ fails }
    {
        Source {
            rest,
            at_once,
            calls: 0,
            fails,
        }
    }
}

impl Read for Source<'_> {
    fn read(&mut self, buf: &mut [u8]) -> io::Result<usize> {
        let call = self.calls;
        self.calls = call.saturating_add(1);
        if let Some((at, kind)) = self.fails
            && at == call
        {
            return Err(Error::from(kind));
        }
        let len = self.rest.len().min(self.at_once).min(buf.len());
        let (now, rest) = self.rest.split_at(len);
        buf[..len].copy_from_slice(now);
        self.rest = rest;
        Ok(len)
    }
}

/// A writer that takes at most `at_once` bytes per call, and fails at one call, counted from 0, whatever comes after it: with
/// an error, or where there is none by taking no byte.
#[derive(Drop)]
pub struct Sink {
    /// What it has taken.
    pub taken: Vec<u8>,
    /// The most bytes that it takes in one call.
    pub at_once: usize,
    /// The number of its calls so far.
    pub calls: usize,
    /// The call at which it fails.
    pub fails_at: usize,
    /// The kind of the error, if it fails with one.
    pub error: Option<ErrorKind>,
}

impl Sink {
    /// A writer that has taken nothing. It fails at the call with this number, with an error of this kind, if any.
    pub fn new(
        rt: &impl AllocGlobal,
        at_once: usize,
        fails_at: usize,
        error: Option<ErrorKind>,
    ) -> Sink
        ensures nothing_taken { result.taken.items ≡ [] }
        ensures not_called { result.calls ≡ 0 }
        ensures at_once { result.at_once ≡ at_once }
        ensures fails_at { result.fails_at ≡ fails_at }
        ensures error { result.error ≡ error }
    {
        Sink {
            taken: Vec::new(rt.alloc()),
            at_once,
            calls: 0,
            fails_at,
            error,
        }
    }
}

impl Write for Sink {
    fn write(&mut self, buf: &[u8]) -> io::Result<usize> {
        let call = self.calls;
        self.calls = call.saturating_add(1);
        if call == self.fails_at {
            return self.error.map_or(Ok(0), |kind| Err(Error::from(kind)));
        }
        let len = buf.len().min(self.at_once);
        self.taken.extend_from_slice(&buf[..len])?;
        Ok(len)
    }

    fn flush(&mut self) -> io::Result<()> {
        Ok(())
    }
}
