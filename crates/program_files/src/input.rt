//! Files that a program reads.

use std::fs::{File, Files};
use std::io::{self, Input, Read};

/// A file that is read, or the standard input.
#[derive(Drop)]
pub enum InputFile<F, S> {
    /// A file of the system.
    Named(F),
    /// The standard input.
    Standard(S),
}

impl<F: Read, S: Read> Read for InputFile<F, S> {
    fn read(&mut self, buf: &mut [u8]) -> io::Result<usize> {
        match self {
            InputFile::Named(file) => file.read(buf),
            InputFile::Standard(input) => input.read(buf),
        }
    }
}

/// Opens the file of this name, or the standard input for `-`.
///
/// # Errors
///
/// That of the system.
pub fn open_input<R: Files + Input>(
    rt: &R,
    name: &str,
) -> io::Result<InputFile<R::File, R::Reader>> {
    if name == "-" {
        return Ok(InputFile::Standard(rt.reader()));
    }
    match File::open(rt, name) {
        Ok(file) => Ok(InputFile::Named(file)),
        Err(reason) => Err(reason),
    }
}
