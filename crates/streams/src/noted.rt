//! A reader or writer that remembers its last error.

ghost use Rattle.std.specs.Prelude.{◌≡◌, false, None};

use crate::log::CallLog;
use std::io::{self, Read, Write};

/// A reader or a writer with the log of its calls, so that its last error can be reported.
#[derive(Drop)]
pub struct Noted<S> {
    inner: S,
    log: CallLog,
}

impl<S> Noted<S> {
    /// This reader or writer, before any call.
    pub fn new(inner: S) -> Noted<S>
        ensures inner { result.inner ≡ inner }
        ensures none { result.log.failure ≡ None }
    {
        Noted {
            inner,
            log: CallLog::new(),
        }
    }

    /// The last error.
    pub fn failure(&self) -> Option<io::Error>
        ensures value { result ≡ self.now.log.failure }
    {
        self.log.failure()
    }
}

impl<S: Read> Read for Noted<S> {
    ghost remaining = { λ noted. S.remaining noted.inner };

    fn read(&mut self, buf: &mut [u8]) -> io::Result<usize> {
        self.log.read(&mut self.inner, buf)
    }
}

impl<S: Write> Write for Noted<S> {
    ghost contents = { λ noted. S.contents noted.inner };

    fn write(&mut self, buf: &[u8]) -> io::Result<usize> {
        self.log.write(&mut self.inner, buf)
    }

    fn flush(&mut self) -> io::Result<()> {
        self.log.flush(&mut self.inner)
    }
}
