//! The list of 1 and 2, packed and unpacked, and bytes that are no list.

use pup_pack::{Items, Pup, PupError};
use std::alloc::Global;
use std::process::Abort;

const ONE_TWO: [u8; 12] = [0, 0, 0, 2, 0, 0, 0, 1, 0, 0, 0, 2];

fn one_and_two(rt: &(impl Abort + AllocGlobal)) -> Items<u32> {
    Items::new(Vec::from_slice(rt.alloc(), &[1, 2]).expect(rt, "out of memory"))
}

// Whether the list of 1 and 2 packs into its bytes.
fn is_packed(rt: &(impl Abort + AllocGlobal)) -> bool {
    let list = one_and_two(rt);
    let mut out = Vec::new(rt.alloc());
    let packed = list.pack_into(&mut out).is_ok() && out.as_slice() == ONE_TWO.as_slice();
    packed && list.packed_len() == 12
}

// Whether its bytes, with two more behind them, unpack to it.
fn is_unpacked(alloc: Global) -> bool {
    let longer = [0, 0, 0, 2, 0, 0, 0, 1, 0, 0, 0, 2, 7, 7];
    match <Items<u32> as Pup<Global>>::unpack(alloc, &longer) {
        Ok((list, len)) => len == 12 && list.into_vec().as_slice() == [1, 2].as_slice(),
        Err(_) => false,
    }
}

fn refusal(alloc: Global, bytes: &[u8]) -> Option<PupError> {
    <Items<u32> as Pup<Global>>::unpack(alloc, bytes).err()
}

#[test]
fn the_list_of_one_and_two(rt: HostRuntime) {
    assert!(rt; is_packed(&rt) && is_unpacked(rt.alloc()));
    assert!(rt; refusal(rt.alloc(), &ONE_TWO[..11]) == Some(PupError::Short));
    assert!(rt; refusal(rt.alloc(), &[0, 16, 0, 1]) == Some(PupError::TooLong));
}
