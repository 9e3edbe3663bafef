//! What can be wrong with a line.

use crate::kind::Kind;
use std::fmt::{self, Display, Formatter, Write};

/// What is wrong with a line of a workload.
#[derive(Clone, Copy, Debug, PartialEq, Eq)]
pub enum Reason {
    /// It does not begin with the word of its kind.
    Word(Kind),
    /// It has this number, which is out of the range of its kind.
    Range(Kind, u64),
    /// It has the first number of amounts, in place of the second, which is that of the chares.
    Few(u32, u32),
    /// It has more amounts than this number of chares.
    Many(u32),
    /// It has no number.
    NoNumber(Kind),
    /// It has more than one number.
    TwoNumbers(Kind),
    /// A carriage return is in it.
    CarriageReturn,
    /// A number in it begins with a zero, and is not 0.
    Zero,
    /// A number in it has more than ten digits.
    Digits,
    /// No number follows a blank.
    Blank,
    /// This byte stands where a digit or the end of the line has to.
    Byte(u8),
    /// The text ends before it.
    Missing(Kind),
    /// The text ends in it.
    Unended,
    /// It follows the last line, that of this number of rounds.
    Surplus(u32),
}

/// A faulty line, with what is wrong with it. It is written as `line 1: pes 257, at most 256`.
#[derive(Clone, Copy, Debug, PartialEq, Eq)]
pub struct FaultyLine {
    /// The number of the line, from 1 on.
    pub line: u32,
    /// What is wrong with it.
    pub reason: Reason,
}

impl Display for FaultyLine {
    fn fmt<W: Write>(&self, f: &mut Formatter<W>) -> fmt::Result {
        write!(f, "line {}: {}", self.line, self.reason)
    }
}

impl Display for Reason {
    fn fmt<W: Write>(&self, f: &mut Formatter<W>) -> fmt::Result {
        match *self {
            Reason::Word(kind) => write!(f, "does not begin with {}", kind.word()),
            Reason::Range(kind, number) => write_range(f, kind, number),
            Reason::Few(found, chares) => write!(f, "{found} amounts, {chares} chares"),
            Reason::Many(chares) => write!(f, "more than {chares} amounts, {chares} chares"),
            Reason::NoNumber(kind) => write!(f, "no number after {}", kind.word()),
            Reason::TwoNumbers(kind) => write!(f, "more than one number after {}", kind.word()),
            Reason::CarriageReturn => f.write_str(
                "a carriage return: end lines with a newline alone",
            ),
            Reason::Zero => f.write_str("a zero in front of a number"),
            Reason::Digits => f.write_str("a number of more than ten digits"),
            Reason::Blank => f.write_str("no number after a blank"),
            Reason::Byte(byte) => write_byte(f, byte),
            Reason::Missing(kind) => write!(f, "missing, and has to begin with {}", kind.word()),
            Reason::Unended => f.write_str("no newline at its end"),
            Reason::Surplus(rounds) => write!(f, "follows the amounts of the last round, {rounds}"),
        }
    }
}

// Writes a number with the limit that it passed.
fn write_range<W: Write>(f: &mut Formatter<W>, kind: Kind, number: u64) -> fmt::Result {
    let name = kind.name();
    if number < kind.least() {
        return write!(f, "{name} {number}, at least {}", kind.least());
    }
    write!(f, "{name} {number}, at most {}", kind.most())
}

// Writes a byte that stands where a digit has to: itself, where it can be shown, or its number.
fn write_byte<W: Write>(f: &mut Formatter<W>, byte: u8) -> fmt::Result {
    if byte.is_ascii_graphic() {
        return write!(f, "{} where a digit has to be", char::from(byte));
    }
    write!(f, "byte {byte} where a digit has to be")
}
