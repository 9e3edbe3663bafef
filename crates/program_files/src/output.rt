//! Files that a program is to write, tried before there is anything to write.

use std::fs::{Files, OpenOptions, metadata, remove_file};
use std::io::{self, ErrorKind};

/// Why the file of this name cannot be written, or `None` where it can, as far as can be said without writing. What is there stays as
/// it is: a file is opened and not written, and one that is not there is made and removed again. A pipe or a device is not tried.
pub fn why_unwritable<R: Files>(rt: &R, name: &str) -> Option<io::Error> {
    match metadata(rt, name) {
        Ok(found) if found.is_dir() => Some(io::Error::from(ErrorKind::IsADirectory)),
        Ok(found) if found.is_file() => OpenOptions::new().write(true).open(rt, name).err(),
        Ok(_) => None,
        Err(reason) if reason.kind() == ErrorKind::NotFound => why_not_made(rt, name),
        Err(reason) => Some(reason),
    }
}

// Why a file of this name, which is not there, cannot be made. A link that leads nowhere is left as it is.
fn why_not_made<R: Files>(rt: &R, name: &str) -> Option<io::Error> {
    let made = OpenOptions::new()
        .write(true)
        .create_new(true)
        .open(rt, name);
    match made {
        Ok(file) => {
            drop(file);
            remove_file(rt, name).err()
        }
        Err(reason) if reason.kind() == ErrorKind::AlreadyExists => None,
        Err(reason) => Some(reason),
    }
}
