//! What each line of a workload has to be. `specs/Faults.antt` says the same.

ghost use Rattle.std.specs.Prelude.{◌≡◌, ℕ};
ghost use Rattle.workload.specs.Faults.{in_range};
ghost use Rattle.workload.specs.Machine.{form_of};

use chare_index::Limits;
use tally::TallyLimits;

/// The longest text, in bytes.
pub(crate) const TEXT_BYTES: usize = 67_108_864;

/// Digits of the longest number.
pub(crate) const DIGITS: u32 = 10;

/// Comes before each number.
pub(crate) const BLANK: u8 = b' ';

/// Ends each line.
pub(crate) const NEWLINE: u8 = b'\n';

/// The kinds of lines, in their order. Of the last kind there are as many as there are rounds.
#[derive(Clone, Copy, Debug, PartialEq, Eq)]
pub(crate) enum Line {
    Pes,
    Rounds,
    Pad,
    Chares,
    Amounts,
}

impl Line {
    /// The word that begins it.
    pub(crate) fn word(self) -> &'static [u8]
        ensures { (chares : ℕ) → result.now ≡ (form_of self chares).word }
    {
        match self {
            Line::Pes => b"pes",
            Line::Rounds => b"rounds",
            Line::Pad => b"pad",
            Line::Chares => b"chares",
            Line::Amounts => b"amounts",
        }
    }

    /// Whether this number may be in it.
    pub(crate) fn allows(self, number: u64) -> bool
        ensures { (chares : ℕ) → result ≡ in_range (form_of self chares) number }
    {
        match self {
            Line::Pes => 1 <= number && number <= Limits::PES as u64,
            Line::Rounds => number <= TallyLimits::AMOUNTS as u64,
            Line::Pad => number <= TallyLimits::PAD_BYTES as u64,
            Line::Chares => number <= Limits::ELEMENTS as u64,
            Line::Amounts => number <= u32::MAX as u64,
        }
    }
}
