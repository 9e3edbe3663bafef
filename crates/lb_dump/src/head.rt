//! The head of a text: the magic, the step, the number of PEs and the number of elements.

ghost use Rattle.std.specs.Prelude.{◌≡◌, ◌+◌, ◌≤◌, ◌<◌, length, slice_index, MatchResult, MatchOption};
ghost use Rattle.dump_format.specs.Faults.{IsBroken};
ghost use Rattle.dump_format.specs.Layout.{judge, Unfinished};
ghost use Rattle.dump_format.specs.Fields.{dump};
ghost use Rattle.lb_dump.specs.Heads.{HasMagic, IsHead, element_len, fourth_byte, head_text};

use crate::numbers::{WORD_LEN, word};
use chare_index::Limits;
use dump_format::DumpError;

/// The length of the head.
pub(crate) const HEAD_LEN: usize = 16;

/// The first three bytes of the magic, with which every text begins.
const MAGIC: [u8; 3] = *b"LBD";

/// Which format a text has, by the fourth byte of its magic.
#[derive(Clone, Copy, Debug, PartialEq, Eq)]
pub(crate) enum Format {
    /// A snapshot whose loads have four bytes.
    Lbd1,
    /// A snapshot whose loads have eight bytes, and a decision or none.
    Lbd2,
}

impl Format {
    /// The length of a load.
    pub(crate) fn load_len(self) -> usize
        ensures value { result + 8 ≡ element_len self }
    {
        match self {
            Format::Lbd1 => 4,
            Format::Lbd2 => 8,
        }
    }

    /// The length of an element: its load, its size and its place.
    pub(crate) fn element_len(self) -> usize
        ensures value { result ≡ element_len self }
    {
        self.load_len() + 2 * WORD_LEN
    }
}

/// What the first sixteen bytes of a text say.
#[derive(Clone, Copy, Debug, PartialEq, Eq)]
pub(crate) struct Head {
    /// The format.
    pub(crate) format: Format,
    /// The step of the run.
    pub(crate) step: u32,
    /// The number of PEs.
    pub(crate) procs: u32,
    /// The number of elements.
    pub(crate) count: u32,
}

/// The head in the first bytes of a text, or `None` where they are fewer than its 16.
///
/// # Errors
///
/// The first fault of the fields that are whole.
pub(crate) fn read_head(bytes: &[u8]) -> Result<Option<Head>, DumpError>
    requires { length bytes.now ≤ HEAD_LEN }
    ensures answer { MatchResult result
        (λ head. MatchOption head
        ((length bytes.now < HEAD_LEN) × (judge dump bytes.now ≡ Unfinished))
        (λ h. IsHead h × (bytes.now ≡ head_text h)))
        (λ e. IsBroken bytes.now e) }
{
    judge_magic(bytes)?;
    if bytes.len() < 3 * WORD_LEN {
        return Ok(None);
    }
    let procs = word(&bytes[2 * WORD_LEN..]);
    if procs == 0 || procs > Limits::PES {
        return Err(DumpError::Procs);
    }
    if bytes.len() < HEAD_LEN {
        return Ok(None);
    }
    let count = word(&bytes[3 * WORD_LEN..]);
    if count > Limits::ELEMENTS {
        return Err(DumpError::Count);
    }
    Ok(Some(Head {
        format: format_of(bytes),
        step: word(&bytes[WORD_LEN..]),
        procs,
        count,
    }))
}

// Judges the bytes of the magic that have come.
fn judge_magic(bytes: &[u8]) -> Result<(), DumpError>
    ensures { MatchResult result (λ _. HasMagic bytes.now) (λ e. IsBroken bytes.now e) }
{
    for k in 0..MAGIC.len().min(bytes.len()) {
        if bytes[k] != MAGIC[k] {
            return Err(DumpError::Magic);
        }
    }
    if bytes.len() > MAGIC.len() && bytes[3] != b'1' && bytes[3] != b'2' {
        return Err(DumpError::Magic);
    }
    Ok(())
}

// The format of a text whose magic is whole.
fn format_of(bytes: &[u8]) -> Format
    requires long { 3 < length bytes.now }
    requires magic { HasMagic bytes.now }
    ensures { slice_index bytes.now 3 ≡ fourth_byte result }
{
    if bytes[3] == b'1' {
        Format::Lbd1
    } else {
        Format::Lbd2
    }
}
