//! What a program tells its user about a file that it could not use.

ghost use Rattle.std.specs.Prelude.{◌≡◌, ◌++◌, ℕ, List, codes, IfNone, IfSome, IsFalse, IsTrue};
ghost use Rattle.streams.specs.Telling.{Tells, TellsAll, fault_line};

use crate::output::write_out;
use std::alloc::Allocator;
use std::io::{self, Write};

/// What a program says about a file.
#[derive(Clone, Copy, Debug)]
pub struct Advice<'a> {
    /// The program's name.
    pub program: &'a str,
    /// What to do about a file that was not opened, or not read.
    pub unread: &'a str,
    /// What to do about a file whose contents are wrong.
    pub wrong: &'a str,
}

impl Advice<'_> {
    /// Writes what is wrong with the file of this name, in one line. Where it was not opened or a read failed, the line has the
    /// system's reason and what to do about that; otherwise, where the file is faulty, what to do about that. Where a file was
    /// read and is not faulty, nothing is written.
    ///
    /// Returns whether the whole line was written, which it is not where memory was refused or the writer failed.
    pub fn tell<A: Allocator + Copy, W: Write>(
        self,
        alloc: A,
        writer: &mut W,
        name: &str,
        reason: Option<io::Error>,
        faulty: bool,
    ) -> bool
        ensures reason { IfSome reason (λ _. (shown : List ℕ)
            × Tells (fault_line self.entry.program.now name.now (shown ++ codes "; " ++ self.entry.unread.now)) (W.contents writer.old) (W.contents writer.new) result) }
        ensures fault { IfNone reason (IsTrue faulty
            → Tells (fault_line self.entry.program.now name.now self.entry.wrong.now) (W.contents writer.old) (W.contents writer.new) result) }
        ensures silent { IfNone reason (IsFalse faulty → TellsAll (W.contents writer.old) (W.contents writer.new) result) }
    {
        match reason {
            Some(reason) => self.tell_reason(alloc, writer, name, reason),
            None if faulty => tell_line(alloc, writer, self.program, name, self.wrong),
            None => true,
        }
    }

    // Writes why a file was not read.
    fn tell_reason<A: Allocator + Copy, W: Write>(
        self,
        alloc: A,
        writer: &mut W,
        name: &str,
        reason: io::Error,
    ) -> bool
        ensures { (shown : List ℕ)
            × Tells (fault_line self.entry.program.now name.now (shown ++ codes "; " ++ self.entry.unread.now)) (W.contents writer.old) (W.contents writer.new) result }
    {
        let Ok(shown) = format!(in alloc; "{reason}") else {
            return false;
        };
        let unread = self.unread;
        let Ok(said) = format!(in alloc; "{shown}; {unread}") else {
            return false;
        };
        tell_line(alloc, writer, self.program, name, &said)
    }
}

// Writes this about a file, in a line.
fn tell_line<A: Allocator, W: Write>(
    alloc: A,
    writer: &mut W,
    program: &str,
    name: &str,
    said: &str,
) -> bool
    ensures { Tells (fault_line program.now name.now said.now) (W.contents writer.old) (W.contents writer.new) result }
{
    let Ok(line) = format!(in alloc; "{program}: {name}: {said}\n") else {
        return false;
    };
    write_out(writer, line.as_bytes())
}
