//! The kinds of lines.

ghost use Rattle.std.specs.Prelude.{◌≡◌, ℕ};
ghost use Rattle.workload_reasons.specs.Kinds.{form_of_kind};

use chare_index::Limits;
use tally::TallyLimits;

/// The kinds of lines of a workload, in their order.
#[derive(Clone, Copy, Debug, PartialEq, Eq)]
pub enum Kind {
    /// The number of PEs.
    Pes,
    /// The number of rounds.
    Rounds,
    /// The padding of each chare.
    Pad,
    /// The number of chares.
    Chares,
    /// The amounts of a round.
    Amounts,
}

impl Kind {
    /// The word that begins it.
    pub(crate) fn word(self) -> &'static str
        ensures { (chares : ℕ) → result.now ≡ (form_of_kind self chares).word }
    {
        match self {
            Kind::Pes => "pes",
            Kind::Rounds => "rounds",
            Kind::Pad => "pad",
            Kind::Chares => "chares",
            Kind::Amounts => "amounts",
        }
    }

    /// What a number of it is called.
    pub(crate) fn name(self) -> &'static str {
        match self {
            Kind::Amounts => "amount",
            _ => self.word(),
        }
    }

    /// The least number that may be in it.
    pub(crate) fn least(self) -> u64
        ensures { (chares : ℕ) → result ≡ (form_of_kind self chares).least }
    {
        match self {
            Kind::Pes => 1,
            _ => 0,
        }
    }

    /// The greatest number that may be in it.
    pub(crate) fn most(self) -> u64
        ensures { (chares : ℕ) → result ≡ (form_of_kind self chares).most }
    {
        match self {
            Kind::Pes => u64::from(Limits::PES),
            Kind::Rounds => u64::from(TallyLimits::AMOUNTS),
            Kind::Pad => u64::from(TallyLimits::PAD_BYTES),
            Kind::Chares => u64::from(Limits::ELEMENTS),
            Kind::Amounts => u64::from(u32::MAX),
        }
    }
}
