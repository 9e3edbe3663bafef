//! The files of a checkpoint: a new one, and the one whose place it takes.

ghost use Rattle.std.specs.Prelude.{◌≡◌, ◌∷◌, [], ℕ, List, Option, Some, IfOk, IfSome, OnOk};
ghost use Rattle.std.specs.Io.KnownBytes.{Appends};
ghost use Rattle.checkpointed_runs.specs.Keeping.{FileRequest, AsksFor, Made, Placed, Removed, Replaces};
ghost use Rattle.run_checkpoint.specs.Text.{checkpoint_text};

use chare_index::Pe;
use run_checkpoint::{DecidedRound, write_checkpoint};
use std::alloc::Allocator;
use std::io::{self, Write};
use workload::Workload;

/// Where checkpoints go.
pub trait CheckpointFiles {
    /// A new file, which is open, and is there under a name of its own.
    type File: Write + Drop;

    // what was asked for, in order, where that is known
    ghost asked: { Self → Option (List FileRequest) };

    /// Makes an empty file in the folder of the file with this name, under a name that nothing had there: neither a file, nor a link,
    /// nor anything else. Who may read the other file, may read this one. Where it is known what is asked for, it is known what a file
    /// holds, too.
    fn create_beside(&mut self, name: &str) -> io::Result<Self::File>
        ensures asked { AsksFor (asked self.old) (asked self.new) (Made name.now ∷ []) }
        ensures empty { IfSome (asked self.new) (λ _. IfOk result (λ file. Self.File.contents file ≡ Some [])) };

    /// Waits until what is in this new file outlasts the system. Then it gives the file this name, for good; another file that had the
    /// name is no more. At no time is there no file of this name, if there was one. A new file that does not get the name is removed.
    fn put_in_place(&mut self, file: Self::File, name: &str) -> io::Result<()>
        ensures asked { AsksFor (asked self.old) (asked self.new) (Placed name.now (Self.File.contents file) ∷ []) };

    /// Removes this new file.
    fn remove(&mut self, file: Self::File)
        ensures asked { AsksFor (asked self.old) (asked self.new) (Removed ∷ []) };
}

/// Writes a checkpoint to a new file, which then takes this name. So a file of that name is whole at any time: it is the one before, or the
/// new one.
///
/// # Errors
///
/// Memory was refused, or the system's reason, where the new file was not made, written or put in its place. It is removed then.
pub fn replace<F: CheckpointFiles, A: Allocator + Copy>(
    alloc: A,
    files: &mut F,
    name: &str,
    decided: &[DecidedRound],
    places: &[Pe],
    workload: &Workload<A>,
) -> io::Result<()>
    ensures asked { Replaces name.now (checkpoint_text (record { decided = decided.now; places = places.now; workload = workload.now }))
        (F.asked files.old) (F.asked files.new) result }
{
    let mut file = files.create_beside(name)?;
    match fill(alloc, &mut file, decided, places, workload) {
        Ok(()) => files.put_in_place(file, name),
        Err(reason) => {
            files.remove(file);
            Err(reason)
        }
    }
}

// Writes the text of a checkpoint, and flushes the writer.
fn fill<W: Write, A: Allocator + Copy>(
    alloc: A,
    writer: &mut W,
    decided: &[DecidedRound],
    places: &[Pe],
    workload: &Workload<A>,
) -> io::Result<()>
    ensures written { OnOk result (Appends (W.contents writer.old) (W.contents writer.new)
        (checkpoint_text (record { decided = decided.now; places = places.now; workload = workload.now }))) }
{
    write_checkpoint(alloc, decided, places, workload, writer)?;
    writer.flush()
}
