//! A tally, packed and unpacked.

use pup_pack::{Pup, PupError};
use std::alloc::Global;
use tally::Tally;

// A tally with one of two amounts posted, one got, the sum 7, the amounts 5 and 6, and the padding 9.
const PACKED: [u8; 33] = [
    0, 0, 0, 1, 0, 0, 0, 1, 0, 0, 0, 0, 0, 0, 0, 7, 0, 0, 0, 2, 0, 0, 0, 5, 0, 0, 0, 6, 0, 0, 0, 1,
    9,
];

#[test]
fn a_tally_packs_and_unpacks(rt: HostRuntime) {
    let (tally, len) = <Tally as Pup<Global>>::unpack(rt.alloc(), &PACKED).expect(&rt, "no tally");
    assert!(rt; len == 33 && tally.packed_len() == 33 && tally.sum() == 7);
    let mut out = Vec::new(rt.alloc());
    assert!(rt; tally.pack_into(&mut out).is_ok());
    assert!(rt; out.as_slice() == PACKED.as_slice());
}

#[test]
fn more_posted_than_there_are_is_no_tally(rt: HostRuntime) {
    let mut bytes = PACKED;
    bytes[3] = 3;
    let refusal = <Tally as Pup<Global>>::unpack(rt.alloc(), &bytes).err();
    assert!(rt; refusal == Some(PupError::Bad));
}
