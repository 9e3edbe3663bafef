//! Sees the lines of a workload, up to the first that is faulty.

ghost use Rattle.std.specs.Prelude.{◌≡◌, IfSome};

use crate::kind::Kind;
use crate::reason::{FaultyLine, Reason};
use program_files::Witness;
use std::alloc::Allocator;
use workload::WorkError;

/// Digits of the longest number.
const DIGITS: u32 = 10;

/// How many lines come before those of the rounds.
const HEAD_LINES: u32 = 4;

/// Where in a line the next byte is.
#[derive(Clone, Copy, Debug, PartialEq, Eq)]
enum Spot {
    /// After this number of bytes of its word.
    Word(usize),
    /// After a blank and digits: their value, and how many there are.
    Number(u64, u32),
}

/// Sees the bytes of a workload as they are read, and keeps what is wrong with the first faulty line. It takes no memory.
#[derive(Clone, Copy, Debug)]
pub struct LineWitness {
    // The number of the line that the next byte belongs to, and its kind.
    line: u32,
    kind: Kind,
    spot: Spot,
    rounds: u32,
    chares: u32,
    // How many numbers of this line have begun.
    numbers: u32,
    // The first number of this line that is out of its range.
    past: Option<u64>,
    found: Option<FaultyLine>,
}

impl LineWitness {
    /// Before any byte.
    pub fn new() -> LineWitness {
        LineWitness {
            line: 1,
            kind: Kind::Pes,
            spot: Spot::Word(0),
            rounds: 0,
            chares: 0,
            numbers: 0,
            past: None,
            found: None,
        }
    }

    /// The first faulty line of a text that ends here, or `None` where no line is.
    pub fn faulty_line(&self) -> Option<FaultyLine> {
        if self.found.is_some() || self.is_whole() {
            return self.found;
        }
        let reason = match self.spot {
            Spot::Word(0) => Reason::Missing(self.kind),
            _ => Reason::Unended,
        };
        Some(FaultyLine {
            line: self.line,
            reason,
        })
    }

    // Whether all lines are there.
    fn is_whole(&self) -> bool {
        self.kind == Kind::Amounts && self.line > HEAD_LINES.saturating_add(self.rounds)
    }

    // How many numbers this line has to have.
    fn wanted(&self) -> u32 {
        match self.kind {
            Kind::Amounts => self.chares,
            _ => 1,
        }
    }

    // Takes the next byte. The error is what is wrong with the line.
    fn take(&mut self, byte: u8) -> Result<(), Reason> {
        if self.is_whole() {
            return Err(Reason::Surplus(self.rounds));
        }
        match self.spot {
            Spot::Word(at) => self.take_in_word(at, byte),
            Spot::Number(value, digits) => self.take_in_number(value, digits, byte),
        }
    }

    // Takes a byte of the word, or the one after it.
    fn take_in_word(&mut self, at: usize, byte: u8) -> Result<(), Reason> {
        let word = self.kind.word().as_bytes();
        if at < word.len() {
            if byte != word[at] {
                return Err(Reason::Word(self.kind));
            }
            self.spot = Spot::Word(at + 1);
            return Ok(());
        }
        self.take_between(byte)
    }

    // Takes a byte after a blank.
    fn take_in_number(&mut self, value: u64, digits: u32, byte: u8) -> Result<(), Reason> {
        if byte.is_ascii_digit() {
            return self.take_digit(value, digits, byte);
        }
        if digits == 0 {
            return Err(match byte {
                b' ' | b'\n' => Reason::Blank,
                b'\r' => Reason::CarriageReturn,
                _ => Reason::Byte(byte),
            });
        }
        let is_in_range = self.kind.least() <= value && value <= self.kind.most();
        if !is_in_range && self.past.is_none() {
            self.past = Some(value);
        }
        self.take_between(byte)
    }

    // Takes a digit of a number that has this value so far.
    fn take_digit(&mut self, value: u64, digits: u32, byte: u8) -> Result<(), Reason> {
        if digits == 1 && value == 0 {
            return Err(Reason::Zero);
        }
        if digits >= DIGITS {
            return Err(Reason::Digits);
        }
        let digit = u64::from(byte.saturating_sub(b'0'));
        let value = value.saturating_mul(10).saturating_add(digit);
        self.spot = Spot::Number(value, digits + 1);
        Ok(())
    }

    // Takes the byte after a word or a number.
    fn take_between(&mut self, byte: u8) -> Result<(), Reason> {
        match byte {
            b' ' if self.numbers < self.wanted() => {
                self.numbers += 1;
                self.spot = Spot::Number(0, 0);
                Ok(())
            }
            b' ' => Err(self.too_many()),
            b'\n' if self.numbers < self.wanted() => Err(self.too_few()),
            b'\n' => self.end_line(),
            b'\r' => Err(Reason::CarriageReturn),
            _ if self.numbers == 0 => Err(Reason::Word(self.kind)),
            _ => Err(Reason::Byte(byte)),
        }
    }

    // What is wrong with a line that ends too early.
    fn too_few(&self) -> Reason {
        match self.kind {
            Kind::Amounts => Reason::Few(self.numbers, self.chares),
            _ => Reason::NoNumber(self.kind),
        }
    }

    // What is wrong with a line that goes on too long.
    fn too_many(&self) -> Reason {
        match self.kind {
            Kind::Amounts => Reason::Many(self.chares),
            _ => Reason::TwoNumbers(self.kind),
        }
    }

    // Ends a line that has its form.
    fn end_line(&mut self) -> Result<(), Reason> {
        if let Some(number) = self.past {
            return Err(Reason::Range(self.kind, number));
        }
        let value = match self.spot {
            Spot::Number(value, _) => u32::try_from(value).unwrap_or(u32::MAX),
            Spot::Word(_) => 0,
        };
        self.kind = match self.kind {
            Kind::Pes => Kind::Rounds,
            Kind::Rounds => {
                self.rounds = value;
                Kind::Pad
            }
            Kind::Pad => Kind::Chares,
            Kind::Chares => {
                self.chares = value;
                Kind::Amounts
            }
            Kind::Amounts => Kind::Amounts,
        };
        self.line = self.line.saturating_add(1);
        self.numbers = 0;
        self.spot = Spot::Word(0);
        Ok(())
    }
}

impl Witness for LineWitness {
    fn sees(&mut self, bytes: &[u8]) {
        for byte in bytes {
            if self.found.is_some() {
                return;
            }
            if let Err(reason) = self.take(*byte) {
                self.found = Some(FaultyLine {
                    line: self.line,
                    reason,
                });
            }
        }
    }
}

/// The words for a fault of a workload, which the witness saw: what is wrong with the line that the fault names, or that the text is
/// too long. `None` where there is nothing to say, or memory was refused.
pub fn said_of_fault<A: Allocator>(
    alloc: A,
    witness: &LineWitness,
    fault: WorkError,
) -> Option<String<A>> {
    let line = match fault {
        WorkError::Form(line) | WorkError::Limit(line) => line,
        WorkError::Long => return format!(in alloc; "more than 67108864 bytes").ok(),
        WorkError::Read | WorkError::OutOfMemory => return None,
    };
    let found = witness.faulty_line()?;
    if found.line != line {
        return None;
    }
    format!(in alloc; "{found}").ok()
}
