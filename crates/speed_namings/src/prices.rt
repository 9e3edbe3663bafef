//! Checks that prices prove a naming cheapest of those with which no PE ends after a time.

ghost use Rattle.std.specs.Prelude.{◌≡◌, ℕ, ◌+◌, ◌<◌, ◌≤◌, ◌^◌, length, IfOk, OnOk, IfErr, MatchBool, MatchOption, pos, neg_ℤ, ◌+ℤ◌, ◌<ℤ◌, ◌≤ℤ◌};
ghost use Rattle.lb_certificates.specs.Naming.{IsNaming, naming_cost, price_at, price_sum};
ghost use Rattle.block_assignment.specs.Table.{cost_at};
ghost use Rattle.speed_certificates.specs.Speeds.{count};
ghost use Rattle.speed_namings.specs.Flaws.{HasNamesFlaw, IsFirst, IsFirstHigh};
ghost use Rattle.speed_namings.specs.Timely.{AllMayRun, AllLow, AreTimelyNames, MayRun};

use crate::costs::may_run;
use crate::flaw::NamesFlaw;
use block_assignment::CostMatrix;
use speed_certificates::{EndTime, PeSpeeds};
use std::alloc::Allocator;

/// What the naming costs, or the first flaw of its prices.
pub(crate) fn check_prices<A: Allocator>(
    costs: &CostMatrix<A>,
    loads: &[u64],
    pes: &PeSpeeds<'_>,
    time: EndTime,
    names: &[u32],
    u: &[i64],
    v: &[i64],
) -> Result<u64, NamesFlaw>
    requires pes { count pes.now ≡ costs.now.blocks }
    requires loads { length loads.now ≡ costs.now.blocks }
    requires naming { IsNaming (count pes.now) names.now }
    requires timely { AllMayRun loads.now pes.now time names.now }
    ensures right { OnOk result (AreTimelyNames costs.now loads.now pes.now time names.now u.now v.now) }
    ensures moved { IfOk result (λ moved. moved ≡ naming_cost (count pes.now) (cost_at costs.now) names.now) }
    ensures first_flaw { IfErr result (IsFirst (HasNamesFlaw costs.now loads.now pes.now time names.now u.now v.now)) }
{
    let blocks = costs.blocks();
    if u.len() != blocks as usize || v.len() != blocks as usize {
        return Err(NamesFlaw::PriceCount);
    }
    if let Some((b, pe)) = first_high(costs, loads, pes, time, u, v) {
        return Err(NamesFlaw::PriceHigh(b, pe));
    }
    let moved = costs.cost_of(names);
    if sum_of(u) + sum_of(v) != i128::from(moved) {
        return Err(NamesFlaw::PriceGap);
    }
    Ok(moved)
}

// The first allowed pair of a block and a PE whose prices add up to more than its cost.
fn first_high<A: Allocator>(
    costs: &CostMatrix<A>,
    loads: &[u64],
    pes: &PeSpeeds<'_>,
    time: EndTime,
    u: &[i64],
    v: &[i64],
) -> Option<(u32, u32)>
    requires pes { count pes.now ≡ costs.now.blocks }
    requires loads { length loads.now ≡ costs.now.blocks }
    requires block_prices { length u.now ≡ costs.now.blocks }
    requires pe_prices { length v.now ≡ costs.now.blocks }
    ensures { MatchOption result (AllLow costs.now loads.now pes.now time u.now v.now (count pes.now)) (IsFirstHigh costs.now loads.now pes.now time u.now v.now) }
{
    for b in 0..pes.len() {
        if let Some(pe) = first_high_of(costs, loads, pes, time, u, v, b) {
            return Some((b, pe));
        }
    }
    None
}

// The first such PE of this block.
fn first_high_of<A: Allocator>(
    costs: &CostMatrix<A>,
    loads: &[u64],
    pes: &PeSpeeds<'_>,
    time: EndTime,
    u: &[i64],
    v: &[i64],
    b: u32,
) -> Option<u32>
    requires pes { count pes.now ≡ costs.now.blocks }
    requires loads { length loads.now ≡ costs.now.blocks }
    requires block_prices { length u.now ≡ costs.now.blocks }
    requires pe_prices { length v.now ≡ costs.now.blocks }
    requires inside { b < count pes.now }
    ensures { MatchOption result
        ((p : ℕ) → p < count pes.now → MayRun loads.now pes.now time b p → (price_at u.now b +ℤ price_at v.now p) ≤ℤ pos (cost_at costs.now b p))
        (λ p. (p < count pes.now) × MayRun loads.now pes.now time b p × (pos (cost_at costs.now b p) <ℤ (price_at u.now b +ℤ price_at v.now p))
        × ((q : ℕ) → q < p → MayRun loads.now pes.now time b q → (price_at u.now b +ℤ price_at v.now q) ≤ℤ pos (cost_at costs.now b q))) }
{
    for pe in 0..pes.len() {
        if may_run(loads[b as usize], pes, time, pe)
            && is_high(u[b as usize], v[pe as usize], costs.cost(b, pe))
        {
            return Some(pe);
        }
    }
    None
}

// Whether two prices add up to more than this cost.
fn is_high(block_price: i64, pe_price: i64, cost: u64) -> bool
    ensures { MatchBool result (pos cost <ℤ (block_price +ℤ pe_price)) ((block_price +ℤ pe_price) ≤ℤ pos cost) }
{
    i128::from(block_price) + i128::from(pe_price) > i128::from(cost)
}

// The sum of fewer than 2^32 prices, which fits 128 bits.
fn sum_of(prices: &[i64]) -> i128
    requires { length prices.now < 2 ^ 32 }
    ensures value { result ≡ price_sum prices.now }
    ensures low { neg_ℤ (pos (2 ^ 95)) ≤ℤ result }
    ensures high { result ≤ℤ pos (2 ^ 95) }
{
    let mut sum = 0;
    for &price in prices {
        sum += i128::from(price);
    }
    sum
}
