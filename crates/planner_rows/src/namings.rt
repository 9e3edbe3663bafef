//! The worked examples, and a full array.

ghost use Rattle.std.specs.Prelude.{◌≡◌};
ghost use Rattle.lb_certificates.specs.Naming.{IsNaming};

use crate::fixtures::table;
use crate::lists::{assert_for, is_list, list, push, same};
use block_assignment::{CostTable, name_blocks};
use lb_certificates::{Naming, Prices};
use std::process::Abort;

fn named(rt: &(impl Abort + AllocGlobal), table: &CostTable) -> (Naming, Prices)
    ensures naming { IsNaming table.now.blocks result.0 }
{
    name_blocks(rt.alloc(), table).expect(rt, "out of memory")
}

fn costs(rt: &(impl Abort + AllocGlobal), table: &CostTable) -> Vec<u64> {
    let mut costs = Vec::new(rt.alloc());
    for b in 0..table.blocks() {
        for p in 0..table.blocks() {
            push(rt, &mut costs, table.cost(b, p));
        }
    }
    costs
}

fn sum(prices: &[i64]) -> i64 {
    let mut sum = 0i64;
    for &price in prices {
        sum = sum.saturating_add(price);
    }
    sum
}

// The sum of all prices.
fn total(prices: &Prices) -> i64 {
    sum(prices.u.as_slice()).saturating_add(sum(prices.v.as_slice()))
}

// Whether these are the names that are found, and this is their cost and the sum of their prices.
fn is_named(rt: &(impl Abort + AllocGlobal), table: &CostTable, names: &[u32], cost: i64) -> bool {
    let (naming, prices) = named(rt, table);
    let moved = table.cost_of(naming.as_slice());
    same(naming.as_slice(), names)
        && i128::from(moved) == i128::from(cost)
        && total(&prices) == cost
}

// The elements of an example, the cuts of its blocks, their costs, their names and what these cost.
type Example = (
    &'static [(u32, u32)],
    &'static [u32],
    &'static [u64],
    &'static [u32],
    i64,
);

static EXAMPLES: [Example; 5] = [
    (
        &[(10, 0), (9, 1), (8, 0)],
        &[0, 2, 3],
        &[9, 10, 0, 8],
        &[1, 0],
        10,
    ),
    (
        &[(8, 1), (8, 1), (8, 0), (8, 0)],
        &[0, 2, 4],
        &[16, 0, 0, 16],
        &[1, 0],
        0,
    ),
    (
        &[(5, 0), (4, 1), (5, 0), (1, 1), (4, 1), (3, 2)],
        &[0, 2, 4, 6],
        &[4, 5, 9, 1, 5, 6, 7, 3, 4],
        &[1, 0, 2],
        10,
    ),
    (
        &[],
        &[0, 0, 0, 0],
        &[0, 0, 0, 0, 0, 0, 0, 0, 0],
        &[0, 1, 2],
        0,
    ),
    (&[(7, 5)], &[0, 1], &[7], &[0], 7),
];

#[test]
fn the_examples_have_their_names(rt: HostRuntime) {
    for &(pairs, cuts, bytes, names, cost) in &EXAMPLES {
        let table = table(&rt, pairs, cuts);
        assert_for(&rt, is_list(costs(&rt, &table), bytes), pairs);
        assert_for(&rt, is_named(&rt, &table, names, cost), pairs);
    }
}

// The cost table of the most elements that are allowed, each with the most bytes that are allowed, in 256 blocks of 256 elements.
fn full_table(rt: &(impl Abort + AllocGlobal)) -> CostTable {
    let mut pairs = Vec::new(rt.alloc());
    for i in 0..65_536u32 {
        push(rt, &mut pairs, (1_048_576, i * 7 % 256));
    }
    let mut cuts = list(rt, &[0]);
    for b in 0..256u32 {
        push(rt, &mut cuts, b * 256 + 256);
    }
    table(rt, &pairs, &cuts)
}

#[test]
fn a_full_array_on_all_pes(rt: HostRuntime) {
    let table = full_table(&rt);
    let (naming, prices) = named(&rt, &table);
    assert_for(&rt, naming.as_slice().len() == 256, "names");
    assert_for(&rt, total(&prices) == 256 * 255 * 1_048_576, "prices");
}
