//! The reasons for which a run over lists is refused, and their numbers.

ghost use Rattle.std.specs.Prelude.{◌≡◌, ◌≤◌};
ghost use Rattle.run_refusals.specs.Refusals.{refusal_entry, refusal_number};

/// Why a run is refused. Of several reasons the first in this order is given. An entry is the index of an element.
#[derive(Clone, Copy, Debug, PartialEq, Eq)]
pub enum RunRefusal {
    /// The number of PEs on which it is to continue is 0.
    NoPes,
    /// It is above [`RunLimits::PES`](lb_lists::RunLimits::PES).
    ManyPes,
    /// The number of PEs of the run is 0.
    NoProcs,
    /// It is above [`RunLimits::PES`](lb_lists::RunLimits::PES).
    ManyProcs,
    /// There are more loads than [`RunLimits::ELEMENTS`](lb_lists::RunLimits::ELEMENTS).
    ManyElements,
    /// There is not one packed size for each load.
    BytesCount,
    /// There is not one place for each load.
    PlacesCount,
    /// With this packed size they add up to more than [`RunLimits::BYTES`](lb_lists::RunLimits::BYTES).
    ManyBytes(u32),
    /// This place is none of the PEs of the run, and it is the first.
    Astray(u32),
    /// With this load they add up to more than [`RunLimits::LOAD`](lb_lists::RunLimits::LOAD).
    ManyUnits(u32),
    /// For a tolerance there are more elements than [`Limits::ELEMENTS`](chare_index::Limits::ELEMENTS).
    ElementsWithin,
    /// For a tolerance the run has more PEs than [`Limits::PES`](chare_index::Limits::PES).
    ProcsWithin,
    /// For a tolerance it is to continue on more than that.
    PesWithin,
    /// For a tolerance this load is above [`Limits::LOAD`](chare_index::Limits::LOAD), and it is the first.
    LoadWithin(u32),
    /// For a tolerance this packed size is above [`Limits::STATE_BYTES`](chare_index::Limits::STATE_BYTES), and it is the first.
    BytesWithin(u32),
}

/// The number of a reason, from 1, in the order in which they are looked for: up to 9 the input is bad, 10 is a bad load, and from 11
/// on the run is too large for a tolerance.
pub fn number_of_refusal(refusal: RunRefusal) -> u8
    ensures value { result ≡ refusal_number refusal }
    ensures positive { 1 ≤ result }
    ensures few { result ≤ 15 }
{
    match refusal {
        RunRefusal::NoPes => 1,
        RunRefusal::ManyPes => 2,
        RunRefusal::NoProcs => 3,
        RunRefusal::ManyProcs => 4,
        RunRefusal::ManyElements => 5,
        RunRefusal::BytesCount => 6,
        RunRefusal::PlacesCount => 7,
        RunRefusal::ManyBytes(_) => 8,
        RunRefusal::Astray(_) => 9,
        RunRefusal::ManyUnits(_) => 10,
        RunRefusal::ElementsWithin => 11,
        RunRefusal::ProcsWithin => 12,
        RunRefusal::PesWithin => 13,
        RunRefusal::LoadWithin(_) => 14,
        RunRefusal::BytesWithin(_) => 15,
    }
}

/// The entry that a reason names, and 0 where it names none.
pub fn entry_of_refusal(refusal: RunRefusal) -> u32
    ensures value { result ≡ refusal_entry refusal }
{
    match refusal {
        RunRefusal::ManyBytes(entry)
        | RunRefusal::Astray(entry)
        | RunRefusal::ManyUnits(entry)
        | RunRefusal::LoadWithin(entry)
        | RunRefusal::BytesWithin(entry) => entry,
        _ => 0,
    }
}
