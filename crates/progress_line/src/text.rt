//! The text of the line. It is made anew for each line, and takes no memory except that of the formatter.

ghost use Rattle.std.specs.Prelude.{◌≡◌, ◌-◌, Some, codes, length};
ghost use Rattle.std.specs.List.{repeat};
ghost use Rattle.progress_line.specs.Text.{line_text, of_text, rate, standing_text};

use std::fmt::{self, Display, Formatter, Write};

/// The columns that a line fills, so that it covers a longer one, and fits a terminal of 80.
pub(crate) const WIDTH: usize = 79;

/// How far a run is.
#[derive(Clone, Copy, Debug, PartialEq, Eq)]
pub struct Standing {
    /// The last round that was decided.
    pub round: u64,
    /// How many rounds there will be, where that is known.
    pub rounds: Option<u64>,
    /// The letters that were executed.
    pub executed: u64,
    /// The time that the run has taken.
    pub milliseconds: u64,
}

impl Standing {
    /// The letters that were executed per second, on average.
    pub fn letters_a_second(&self) -> u64
        ensures value { result ≡ rate self.now.executed self.now.milliseconds }
    {
        let letters = u128::from(self.executed) * 1000 / u128::from(self.milliseconds.max(1));
        u64::try_from(letters).unwrap_or(u64::MAX)
    }
}

impl Display for Standing {
    ghost output = { λ standing. Some (standing_text standing) };

    fn fmt<W: Write>(&self, f: &mut Formatter<W>) -> fmt::Result {
        let Standing {
            round,
            executed,
            ..
        } = *self;
        let rate = self.letters_a_second();
        write!(
            f,
            "round {round}{}, {executed} letters executed, {rate} a second",
            Of(self.rounds)
        )
    }
}

/// The number of rounds, where it is known.
#[derive(Clone, Copy)]
struct Of(Option<u64>);

impl Display for Of {
    ghost output = { λ of. Some (of_text of.0) };

    fn fmt<W: Write>(&self, f: &mut Formatter<W>) -> fmt::Result {
        match self.0 {
            Some(rounds) => write!(f, " of {rounds}"),
            None => f.write_str(""),
        }
    }
}

/// A standing as a line of its own on a terminal.
#[derive(Clone, Copy)]
pub(crate) struct Line(pub(crate) Standing);

impl Display for Line {
    ghost output = { λ line. Some (line_text line.0) };

    fn fmt<W: Write>(&self, f: &mut Formatter<W>) -> fmt::Result {
        let mut room = Room { columns: WIDTH };
        write!(room, "{}", self.0)?;
        write!(f, "\r{}{}", self.0, Blanks(room.columns))
    }
}

/// The columns of the line that a text leaves free.
#[derive(Drop)]
struct Room {
    columns: usize,
}

impl Write for Room {
    ghost write_str_gives = { λ room text left. left.columns ≡ room.columns - length text };

    fn write_str(&mut self, text: &str) -> fmt::Result {
        self.columns = self.columns.saturating_sub(text.len());
        Ok(())
    }
}

/// This number of blanks.
#[derive(Clone, Copy)]
struct Blanks(usize);

impl Display for Blanks {
    ghost output = { λ blanks. Some (repeat blanks.0 (codes " ")) };

    fn fmt<W: Write>(&self, f: &mut Formatter<W>) -> fmt::Result {
        f.write_repeated(" ", self.0)
    }
}
