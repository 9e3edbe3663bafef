//! What lists give back, loads of ranges, and what other cuts and names of the worked examples cost.

use crate::fixtures::{index, loads, moves, pe, prefix, sizes, table};
use crate::lists::{is_list, list};
use chain_partition::Chain;
use lb_certificates::PriceList;
use std::process::Abort;

#[test]
fn lists_come_back(rt: HostRuntime) {
    let step = (index(&rt, 0), pe(&rt, 0), pe(&rt, 1));
    assert!(rt; is_list(loads(&rt, &[3, 4]).into_vec(), &[3, 4]));
    assert!(rt; is_list(sizes(&rt, &[(10, 1)]).into_vec(), &[(10, pe(&rt, 1))]));
    assert!(rt; is_list(moves(&rt, &[(0, 0, 1)]).into_vec(), &[step]));
    assert!(rt; is_list(PriceList::new(list(&rt, &[-1, 2])).into_vec(), &[-1, 2]));
}

// The loads of the last three of these five elements: by their list, by running sums, and by a chain.
fn last_three(rt: &(impl Abort + AllocGlobal), units: &[u64]) -> Option<[u64; 3]> {
    let (all, sums) = (loads(rt, units), prefix(rt, units));
    let chain = Chain::new(rt.alloc(), units).ok()?;
    if all.len() != 5 || sums.len() != 5 || chain.len() != 5 {
        return None;
    }
    Some([all.load(2, 5), sums.load(2, 5), chain.load(2, 5)])
}

// In five elements of loads 1 to 5 blocks of equal counts have 12 in the heavier one, which is not the least.
#[test]
fn blocks_of_equal_counts_are_heavier(rt: HostRuntime) {
    assert!(rt; last_three(&rt, &[1, 2, 3, 4, 5]) == Some([12; 3]));
}

// The bytes that move where each of two blocks has its own number as its name.
fn numbered(rt: &(impl Abort + AllocGlobal), pairs: &[(u32, u32)], cuts: &[u32]) -> Option<u64> {
    let table = table(rt, pairs, cuts);
    if table.blocks() != 2 {
        return None;
    }
    Some(table.cost(0, 0).saturating_add(table.cost(1, 1)))
}

#[test]
fn blocks_that_keep_their_numbers_move_more(rt: HostRuntime) {
    assert!(rt; numbered(&rt, &[(10, 0), (9, 1), (8, 0)], &[0, 2, 3]) == Some(17));
    assert!(rt; numbered(&rt, &[(8, 1), (8, 1), (8, 0), (8, 0)], &[0, 2, 4]) == Some(32));
}
