//! Reads a workload byte by byte, and reports the first fault.

ghost use Rattle.std.specs.Prelude.{◌≡◌, ◌≢◌, ◌+◌, ◌-◌, ◌<◌, ◌⊎◌, ◌==◌, if◌then◌else◌, true, false, [], ◌∷◌, ◌++◌, length, slice_get, IsTrue, MatchResult, Ok, Err, Some, vec_len, vec_capacity};
ghost use Rattle.workload.specs.Faults.{in_range, is_whole};
ghost use Rattle.workload.specs.declared.form.TheConstants.{BLANK, NEWLINE};
ghost use Rattle.workload.specs.Machine.{Grows, IsGrowing, IsHeld, Reaches, add, ended, is_full, lines_of_view, run, start, state_of, step, step_at};

use crate::error::WorkError;
use crate::form::{BLANK, DIGITS, Line, NEWLINE};
use crate::workload::Workload;
use std::alloc::{Allocator, Global};
use std::mem;

/// Where in a line the next byte is.
#[derive(Clone, Copy, Debug, PartialEq, Eq)]
pub(crate) enum Spot {
    /// After this number of bytes of its word. After the whole word a blank or the newline follows.
    Word(usize),
    /// After a blank and this many digits, which have this value.
    Number(u64, u32),
}

/// Judges the bytes of a workload as they come. It takes no memory before the first amount.
#[derive(Drop)]
#[derive_where(Debug)]
pub(crate) struct Judge<A: Allocator = Global> {
    /// The kind of the line that the next byte belongs to.
    line: Line,
    spot: Spot,
    /// How many numbers of this line have not begun.
    left: u32,
    /// Whether a number of this line is out of its range.
    past: bool,
    /// The numbers of this line of amounts that are complete.
    row: Vec<u32, A>,
    pes: u32,
    rounds: u32,
    pad: u32,
    chares: u32,
    amounts: Vec<Vec<u32, A>, A>,
}

impl<A: Allocator + Copy> Judge<A> {
    /// The judge before the first byte.
    pub(crate) fn new(alloc: A) -> Self
        ensures fresh { state_of result ≡ start [] }
        ensures held { IsHeld result }
    {
        Judge {
            line: Line::Pes,
            spot: Spot::Word(0),
            left: 1,
            past: false,
            row: Vec::new(alloc),
            pes: 0,
            rounds: 0,
            pad: 0,
            chares: 0,
            amounts: Vec::new(alloc),
        }
    }

    /// Takes the next bytes.
    ///
    /// # Errors
    ///
    /// The first fault that holds whatever follows, or out of memory.
    pub(crate) fn feed(&mut self, bytes: &[u8]) -> Result<(), WorkError>
        requires held { IsHeld self.old }
        ensures fed { MatchResult result
            (λ _. (run bytes.now (state_of self.old) ≡ Ok (state_of self.new)) × IsHeld self.new)
            (λ e. ((e ≡ WorkError.OutOfMemory) × Grows (state_of self.old) bytes.now) ⊎ (run bytes.now (state_of self.old) ≡ Err e)) }
    {
        let mut rest = bytes;
        while let Some(byte) = rest.first() {
            self.take(*byte)?;
            rest = self.take_numbers(&rest[1..]);
        }
        Ok(())
    }

    // Takes the digits at the front of these bytes, if they go on a number, and then each amount that follows a blank, as long as
    // nothing has to be reserved or refused. Returns the bytes after them.
    fn take_numbers<'b>(&mut self, bytes: &'b [u8]) -> &'b [u8]
        requires held { IsHeld self.old }
        ensures taken { Reaches bytes.now (state_of self.old) result.now (state_of self.new) }
        ensures held { IsHeld self.new }
    {
        let mut rest = self.take_digits(bytes);
        while self.take_blank(rest) {
            rest = self.take_digits(&rest[1..]);
        }
        rest
    }

    // Takes the blank at the front of these bytes, if it ends an amount for which the list has room. Returns whether it did.
    #[tactic(auto, unfolding(crate::specs::Machine::step, crate::specs::Machine::step_at, crate::specs::Machine::turn))]
    fn take_blank(&mut self, bytes: &[u8]) -> bool
        requires held { IsHeld self.old }
        ensures taken { IsTrue result → (slice_get bytes.now 0 ≡ Some BLANK) × (step (state_of self.old) BLANK ≡ Ok (state_of self.new)) }
        ensures left { (result ≡ false) → state_of self.new ≡ state_of self.old }
        ensures held { IsHeld self.new }
    {
        let Spot::Number(value, digits) = self.spot else {
            return false;
        };
        let goes_on = bytes.first() == Some(&BLANK) && digits != 0 && self.left != 0;
        if !goes_on || !self.has_room_for(value) {
            return false;
        }
        self.row.push_reserved(value as u32);
        self.begin_number();
        true
    }

    // Whether the list of amounts has room for this one, which is in its range and follows no other that is not.
    fn has_room_for(&self, amount: u64) -> bool
        requires held { IsHeld self.now }
        ensures ranged { IsTrue result → IsTrue (in_range (state_of self.now).form amount) }
        ensures amounts { IsTrue result → (self.now.line ≡ Line.Amounts) × (self.now.past ≡ false) × (is_whole (state_of self.now).lines ≡ false) }
        ensures room { IsTrue result → vec_len self.now.row < vec_capacity self.now.row }
    {
        self.line == Line::Amounts
            && !self.past
            && self.amounts.len() != self.rounds as usize
            && amount <= u32::MAX as u64
            && self.row.len() < self.row.capacity()
    }

    // Takes the digits at the front of these bytes, if they go on a number, and returns the bytes after them.
    fn take_digits<'b>(&mut self, bytes: &'b [u8]) -> &'b [u8]
        requires held { IsHeld self.old }
        ensures taken { Reaches bytes.now (state_of self.old) result.now (state_of self.new) }
        ensures held { IsHeld self.new }
    {
        let Spot::Number(mut value, mut digits) = self.spot else {
            return bytes;
        };
        if self.is_whole() {
            return bytes;
        }
        let mut rest = bytes;
        while let Some(byte) = rest.first() {
            if !byte.is_ascii_digit() || is_full(value, digits) {
                break;
            }
            value = 10 * value + (*byte - b'0') as u64;
            digits += 1;
            rest = &rest[1..];
        }
        self.spot = Spot::Number(value, digits);
        rest
    }

    #[tactic(auto, unfolding(crate::specs::Machine::step))]
    fn take(&mut self, byte: u8) -> Result<(), WorkError>
        requires held { IsHeld self.old }
        ensures stepped { MatchResult result
            (λ _. (step (state_of self.old) byte ≡ Ok (state_of self.new)) × IsHeld self.new)
            (λ e. ((e ≡ WorkError.OutOfMemory) × IsGrowing (state_of self.old)) ⊎ (step (state_of self.old) byte ≡ Err e)) }
    {
        match self.spot {
            _ if self.is_whole() => Err(self.formless()),
            Spot::Word(at) => self.take_in_word(at, byte),
            Spot::Number(value, digits) => self.take_in_number(value, digits, byte),
        }
    }

    // Takes a byte of the word or, after the whole word, the one that follows it.
    #[tactic(auto, unfolding(crate::specs::Machine::step_at, crate::specs::Machine::turn))]
    fn take_in_word(&mut self, at: usize, byte: u8) -> Result<(), WorkError>
        requires held { IsHeld self.old }
        requires more { is_whole (state_of self.old).lines ≡ false }
        requires spot { self.old.spot ≡ Spot.Word at }
        ensures stepped { MatchResult result
            (λ _. (step_at (Spot.Word at) (state_of self.old) byte ≡ Ok (state_of self.new)) × IsHeld self.new)
            (λ e. ((e ≡ WorkError.OutOfMemory) × IsGrowing (state_of self.old)) ⊎ (step_at (Spot.Word at) (state_of self.old) byte ≡ Err e)) }
    {
        let word = self.line.word();
        if at < word.len() {
            if byte != word[at] {
                return Err(self.formless());
            }
            self.spot = Spot::Word(at + 1);
            return Ok(());
        }
        if byte != self.separator() {
            return Err(self.formless());
        }
        if self.left == 0 {
            return self.end_amounts();
        }
        self.begin_number();
        Ok(())
    }

    // Takes a byte after a blank.
    #[tactic(auto, unfolding(crate::specs::Machine::step_at, crate::specs::Machine::turn))]
    fn take_in_number(&mut self, value: u64, digits: u32, byte: u8) -> Result<(), WorkError>
        requires held { IsHeld self.old }
        requires more { is_whole (state_of self.old).lines ≡ false }
        requires spot { self.old.spot ≡ Spot.Number value digits }
        ensures stepped { MatchResult result
            (λ _. (step_at (Spot.Number value digits) (state_of self.old) byte ≡ Ok (state_of self.new)) × IsHeld self.new)
            (λ e. ((e ≡ WorkError.OutOfMemory) × IsGrowing (state_of self.old)) ⊎ (step_at (Spot.Number value digits) (state_of self.old) byte ≡ Err e)) }
    {
        if byte.is_ascii_digit() {
            if is_full(value, digits) {
                return Err(self.formless());
            }
            self.spot = Spot::Number(10 * value + (byte - b'0') as u64, digits + 1);
            return Ok(());
        }
        if digits == 0 || byte != self.separator() {
            return Err(self.formless());
        }
        if self.left == 0 {
            return self.end_line(value);
        }
        self.keep(value)?;
        self.begin_number();
        Ok(())
    }

    // The byte that follows a word or a number that is complete.
    fn separator(&self) -> u8
        ensures { result ≡ (if self.now.left == 0 then NEWLINE else BLANK) }
    {
        if self.left == 0 { NEWLINE } else { BLANK }
    }

    // Begins the number after a blank.
    fn begin_number(&mut self)
        requires some { 0 < self.old.left }
        ensures begun { self.new ≡ record self.old { spot = Spot.Number 0 0; left = self.old.left - 1 } }
    {
        self.left -= 1;
        self.spot = Spot::Number(0, 0);
    }

    // Ends a line with its last number.
    #[tactic(auto, unfolding(crate::specs::Machine::ended))]
    fn end_line(&mut self, value: u64) -> Result<(), WorkError>
        requires held { IsHeld self.old }
        requires more { is_whole (state_of self.old).lines ≡ false }
        requires last { self.old.left ≡ 0 }
        ensures ended { MatchResult result
            (λ _. (ended (state_of self.old).lines (add (state_of self.old).form (state_of self.old).row value) ≡ Ok (state_of self.new)) × IsHeld self.new)
            (λ e. ((e ≡ WorkError.OutOfMemory) × IsGrowing (state_of self.old))
            ⊎ (ended (state_of self.old).lines (add (state_of self.old).form (state_of self.old).row value) ≡ Err e)) }
    {
        if self.line == Line::Amounts {
            self.keep(value)?;
            return self.end_amounts();
        }
        if !self.line.allows(value) {
            return Err(WorkError::Limit(self.number()));
        }
        self.end_head(value as u32);
        Ok(())
    }

    // Ends one of the first four lines with this number.
    fn end_head(&mut self, value: u32)
        requires held { IsHeld self.old }
        requires head { self.old.line ≢ Line.Amounts }
        requires ranged { in_range (state_of self.old).form value ≡ true }
        ensures ended { (state_of self.new ≡ start ((state_of self.old).lines ++ (value ∷ []) ∷ [])) × IsHeld self.new }
    {
        self.spot = Spot::Word(0);
        self.left = 1;
        match self.line {
            Line::Pes => {
                self.pes = value;
                self.line = Line::Rounds;
            }
            Line::Rounds => {
                self.rounds = value;
                self.line = Line::Pad;
            }
            Line::Pad => {
                self.pad = value;
                self.line = Line::Chares;
            }
            Line::Chares => {
                self.chares = value;
                self.left = value;
                self.line = Line::Amounts;
            }
            Line::Amounts => unreachable!(),
        }
    }

    // Keeps an amount, unless it or one before it is out of its range. At the first amount of a line the list
    // reserves capacity for all.
    fn keep(&mut self, value: u64) -> Result<(), WorkError>
        requires held { IsHeld self.old }
        requires amounts { self.old.line ≡ Line.Amounts }
        ensures kept { MatchResult result
            (λ _. (state_of self.new ≡ record (state_of self.old) { row = add (state_of self.old).form (state_of self.old).row value }) × IsHeld self.new)
            (λ e. e ≡ WorkError.OutOfMemory) }
        ensures line { self.new.line ≡ self.old.line }
    {
        if self.past {
            return Ok(());
        }
        if !self.line.allows(value) {
            self.past = true;
            return Ok(());
        }
        self.row.reserve_exact(self.left as usize + 1)?;
        self.row.push_reserved(value as u32);
        Ok(())
    }

    // Ends a line of amounts. At the first such line the list of lines reserves capacity for all.
    #[tactic(auto, unfolding(crate::specs::Machine::ended))]
    fn end_amounts(&mut self) -> Result<(), WorkError>
        requires held { IsHeld self.old }
        requires more { is_whole (state_of self.old).lines ≡ false }
        requires amounts { self.old.line ≡ Line.Amounts }
        ensures ended { MatchResult result
            (λ _. (ended (state_of self.old).lines (state_of self.old).row ≡ Ok (state_of self.new)) × IsHeld self.new)
            (λ e. ((e ≡ WorkError.OutOfMemory) × IsGrowing (state_of self.old)) ⊎ (ended (state_of self.old).lines (state_of self.old).row ≡ Err e)) }
    {
        if self.past {
            return Err(WorkError::Limit(self.number()));
        }
        let missing = self.rounds as usize - self.amounts.len();
        self.amounts.reserve_exact(missing)?;
        let alloc = *self.row.allocator();
        let row = mem::replace(&mut self.row, Vec::new(alloc));
        self.amounts.push_reserved(row);
        self.spot = Spot::Word(0);
        self.left = self.chares;
        Ok(())
    }

    // Whether all lines are there.
    fn is_whole(&self) -> bool
        requires held { IsHeld self.now }
        ensures { result ≡ is_whole (state_of self.now).lines }
    {
        match self.line {
            Line::Amounts => self.amounts.len() == self.rounds as usize,
            _ => false,
        }
    }

    // The number of the line that the next byte belongs to.
    fn number(&self) -> u32
        requires held { IsHeld self.now }
        ensures { result ≡ length (state_of self.now).lines + 1 }
    {
        match self.line {
            Line::Pes => 1,
            Line::Rounds => 2,
            Line::Pad => 3,
            Line::Chares => 4,
            Line::Amounts => 5 + self.amounts.len() as u32,
        }
    }

    // The fault of a line that does not have its form.
    fn formless(&self) -> WorkError
        requires held { IsHeld self.now }
        ensures { result ≡ WorkError.Form (length (state_of self.now).lines + 1) }
    {
        WorkError::Form(self.number())
    }

    /// The workload, if the text ends here.
    ///
    /// # Errors
    ///
    /// The fault of the line that is missing or not ended.
    pub(crate) fn end(self) -> Result<Workload<A>, WorkError>
        requires held { IsHeld self }
        ensures ends { MatchResult result
            (λ w. (is_whole (state_of self).lines ≡ true) × ((state_of self).lines ≡ lines_of_view w))
            (λ e. (is_whole (state_of self).lines ≡ false) × (e ≡ WorkError.Form (length (state_of self).lines + 1))) }
    {
        if !self.is_whole() {
            return Err(self.formless());
        }
        let Judge {
            line: _,
            spot: _,
            left: _,
            past: _,
            row: _,
            pes,
            rounds,
            pad,
            chares,
            amounts,
        } = self;
        Ok(Workload {
            pes,
            rounds,
            pad,
            chares,
            amounts,
        })
    }
}

// Whether no digit may follow: the number has as many as it may, or is a zero.
fn is_full(value: u64, digits: u32) -> bool
    ensures { result ≡ is_full value digits }
{
    digits == DIGITS || digits == 1 && value == 0
}
