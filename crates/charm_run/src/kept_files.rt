//! The files of checkpoints in the system.

ghost use Rattle.std.specs.Prelude.{None};

use checkpointed_runs::CheckpointFiles;
use std::alloc::AllocError;
use std::fs::{File, Files, OpenFile, OpenOptions, Permissions, metadata, remove_file, rename};
use std::io::{self, ErrorKind, Write};
use std::os::unix::fs::{OpenOptionsExt, PermissionsExt};

/// How many names of a new file are tried.
const MOST_NAMES: u32 = 10_000;

/// The bits of a mode that say who may do what.
const ACCESS: u32 = 0o7777;

/// The files of the system, in which a new file of its own takes the place of a checkpoint.
#[derive(Drop)]
pub(crate) struct KeptFiles<'a, R>(pub(crate) &'a R);

/// A new file, with its name.
#[derive(Drop)]
pub(crate) struct NewFile<F> {
    file: F,
    name: String,
}

impl<F: Write> Write for NewFile<F> {
    fn write(&mut self, buf: &[u8]) -> io::Result<usize> {
        self.file.write(buf)
    }

    fn flush(&mut self) -> io::Result<()> {
        self.file.flush()
    }
}

impl<R: Files + AllocGlobal> CheckpointFiles for KeptFiles<'_, R> {
    type File = NewFile<R::File>;

    // what a system is asked for is not known
    ghost asked = { λ _. None };

    fn create_beside(&mut self, name: &str) -> io::Result<NewFile<R::File>> {
        let mode = mode_of(self.0, name);
        let new = make_beside(self.0, name, mode.unwrap_or(0o666))?;
        if let Err(reason) = keep_mode(&new.file, mode) {
            self.remove(new);
            return Err(reason);
        }
        Ok(new)
    }

    fn put_in_place(&mut self, file: NewFile<R::File>, name: &str) -> io::Result<()> {
        let NewFile { file, name: new } = file;
        if let Err(reason) = place(self.0, file, &new, name) {
            let _gone = remove_file(self.0, new.as_str());
            return Err(reason);
        }
        sync_folder(self.0, name)
    }

    fn remove(&mut self, file: NewFile<R::File>) {
        let _gone = remove_file(self.0, file.name.as_str());
    }
}

// The mode of the file that has this name, or that a link of this name leads to.
fn mode_of<R: Files>(rt: &R, name: &str) -> Option<u32> {
    let found = metadata(rt, name).ok()?;
    found
        .is_file()
        .then_some(found.permissions().mode() & ACCESS)
}

// Makes a new file in the folder of this one: `NAME.new`, or where something has that name, `NAME.new.2`, and so on. The system makes a
// file only where nothing has its name, so it follows no link, and waits for no pipe.
fn make_beside<R: Files + AllocGlobal>(
    rt: &R,
    name: &str,
    mode: u32,
) -> io::Result<NewFile<R::File>> {
    for number in 1..=MOST_NAMES {
        let new = new_name(rt, name, number)?;
        let made = OpenOptions::new()
            .write(true)
            .create_new(true)
            .mode(mode)
            .open(rt, new.as_str());
        match made {
            Ok(file) => return Ok(NewFile { file, name: new }),
            Err(reason) if reason.kind() == ErrorKind::AlreadyExists => {}
            Err(reason) => return Err(reason),
        }
    }
    Err(io::Error::from(ErrorKind::AlreadyExists))
}

// The name of a new file that is tried as this one, from 1 on. The only error is that memory was refused.
fn new_name<R: AllocGlobal>(rt: &R, name: &str, number: u32) -> Result<String, AllocError> {
    if number == 1 {
        return format!(in rt.alloc(); "{name}.new");
    }
    format!(in rt.alloc(); "{name}.new.{number}")
}

// Gives a new file this mode, where it has another.
fn keep_mode<F: OpenFile>(file: &F, mode: Option<u32>) -> io::Result<()> {
    let Some(mode) = mode else {
        return Ok(());
    };
    if file.metadata()?.permissions().mode() & ACCESS == mode {
        return Ok(());
    }
    file.set_permissions(Permissions::from_mode(mode))
}

// Gives a new file the name, once what is in it is on the disk.
fn place<R: Files>(rt: &R, file: R::File, new: &str, name: &str) -> io::Result<()> {
    file.sync_all()?;
    drop(file);
    rename(rt, new, name)
}

// Waits until the names in the folder of this file are on the disk, where the folder can be opened and the file system has such a call.
fn sync_folder<R: Files>(rt: &R, name: &str) -> io::Result<()> {
    let Ok(folder) = File::open(rt, folder_of(name)) else {
        return Ok(());
    };
    match folder.sync_all() {
        Err(reason) if reason.kind() != ErrorKind::InvalidInput => Err(reason),
        _ => Ok(()),
    }
}

// The folder of the file with this name.
fn folder_of(name: &str) -> &str {
    match name.rsplit_once('/') {
        None => ".",
        Some(("", _)) => "/",
        Some((folder, _)) => folder,
    }
}
