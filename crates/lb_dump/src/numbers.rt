//! Numbers in a text, the highest byte first.

ghost use Rattle.std.specs.Prelude.{◌≡◌, ◌<◌, ◌≤◌, length};
ghost use Rattle.std.specs.Int.{from_be_bytes, w32, w64};

use chare_index::{Index, Limits, Pe};

/// The length of a number of four bytes.
pub(crate) const WORD_LEN: usize = 4;

/// The length of a number of eight bytes.
pub(crate) const LONG_LEN: usize = 8;

/// The number in the first four bytes.
pub(crate) fn word(bytes: &[u8]) -> u32
    requires { WORD_LEN ≤ length bytes.now }
    ensures value { result ≡ from_be_bytes w32 bytes.now }
{
    u32::from_be_bytes([bytes[0], bytes[1], bytes[2], bytes[3]])
}

/// The number in the first eight bytes.
pub(crate) fn long(bytes: &[u8]) -> u64
    requires { LONG_LEN ≤ length bytes.now }
    ensures value { result ≡ from_be_bytes w64 bytes.now }
{
    u64::from_be_bytes([
        bytes[0], bytes[1], bytes[2], bytes[3], bytes[4], bytes[5], bytes[6], bytes[7],
    ])
}

/// The element with this index.
#[tactic(auto, using(lb_snapshot::proofs::Made::made_where))]
pub(crate) fn index(place: u32) -> Index
    requires { place < Limits.ELEMENTS }
    ensures { result ≡ place }
{
    Index::new(place).unwrap()
}

/// The PE with this number.
#[tactic(auto, using(lb_snapshot::proofs::Made::made_where))]
pub(crate) fn pe(number: u32) -> Pe
    requires { number < Limits.PES }
    ensures { result ≡ number }
{
    Pe::new(number).unwrap()
}
