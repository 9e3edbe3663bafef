//! Checks names of blocks on PEs that differ, and their prices.

ghost use Rattle.std.specs.Prelude.{◌≡◌, ℕ, ◌+◌, ◌*◌, ◌<◌, ◌≤◌, ◌^◌, length, slice_index, IsOk, IfOk, OnOk, IfErr, MatchBool, MatchOption, ◌↔◌, pos, neg_ℤ, ◌+ℤ◌, ◌<ℤ◌, ◌≤ℤ◌};
ghost use Rattle.lb_certificates.specs.Flaws.{AreApart, Repeats};
ghost use Rattle.lb_certificates.specs.Naming.{IsNaming, naming_cost, price_at, price_sum};
ghost use Rattle.block_assignment.specs.Table.{cost_at};
ghost use Rattle.speed_certificates.specs.Speeds.{count};
ghost use Rattle.speed_namings.specs.Flaws.{HasNamesFlaw, IsFirst, IsFirstHigh, IsFirstLate};
ghost use Rattle.speed_namings.specs.Timely.{AllMayRun, AllLow, AreTimelyNames, IsCheapestTimely, MayRun, ProvesTimely};

use crate::costs::may_run;
use crate::flaw::NamesFlaw;
use crate::prices::check_prices;
use block_assignment::CostMatrix;
use lb_certificates::{Naming, Prices};
use speed_certificates::{EndTime, PeSpeeds};
use std::alloc::Allocator;

/// Checks names of blocks, whoever made them, and returns what they cost. `loads` has the load of each block. `Ok` means that no PE
/// ends after the time, and that no naming with which none does costs less.
///
/// Any lists may be passed. No memory is taken.
///
/// # Errors
///
/// The first [`NamesFlaw`] that applies, in their order.
///
/// Prices prove an assignment cheapest by the duality of linear programs: R. K. Ahuja, T. L. Magnanti and J. B. Orlin, "Network
/// Flows", Prentice Hall 1993, chapter 12.
pub fn check_timely_names<A: Allocator, B: Allocator>(
    costs: &CostMatrix<A>,
    loads: &[u64],
    pes: &PeSpeeds<'_>,
    time: EndTime,
    naming: &Naming<B>,
    prices: &Prices<B>,
) -> Result<u64, NamesFlaw>
    requires pes { count pes.now ≡ costs.now.blocks }
    requires loads { length loads.now ≡ costs.now.blocks }
    ensures exact { IsOk result ↔ AreTimelyNames costs.now loads.now pes.now time naming.now prices.now.u prices.now.v }
    ensures moved { IfOk result (λ moved. moved ≡ naming_cost (count pes.now) (cost_at costs.now) naming.now) }
    ensures cheapest { OnOk result (IsCheapestTimely loads.now pes.now time (naming_cost (count pes.now) (cost_at costs.now)) naming.now) }
    ensures first_flaw { IfErr result (IsFirst (HasNamesFlaw costs.now loads.now pes.now time naming.now prices.now.u prices.now.v)) }
{
    let names = naming.as_slice();
    let u = prices.u.as_slice();
    let v = prices.v.as_slice();
    check_lists(costs, loads, pes, time, names, u, v)
}

// The check, over plain lists.
fn check_lists<A: Allocator>(
    costs: &CostMatrix<A>,
    loads: &[u64],
    pes: &PeSpeeds<'_>,
    time: EndTime,
    names: &[u32],
    u: &[i64],
    v: &[i64],
) -> Result<u64, NamesFlaw>
    requires pes { count pes.now ≡ costs.now.blocks }
    requires loads { length loads.now ≡ costs.now.blocks }
    ensures right { OnOk result (AreTimelyNames costs.now loads.now pes.now time names.now u.now v.now) }
    ensures moved { IfOk result (λ moved. moved ≡ naming_cost (count pes.now) (cost_at costs.now) names.now) }
    ensures first_flaw { IfErr result (IsFirst (HasNamesFlaw costs.now loads.now pes.now time names.now u.now v.now)) }
{
    check_names(costs, loads, pes, time, names, u, v)?;
    if let Some(b) = first_late(loads, pes, time, names) {
        return Err(NamesFlaw::NameLate(b));
    }
    check_prices(costs, loads, pes, time, names, u, v)
}

// Whether the names are a naming.
fn check_names<A: Allocator>(
    costs: &CostMatrix<A>,
    loads: &[u64],
    pes: &PeSpeeds<'_>,
    time: EndTime,
    names: &[u32],
    u: &[i64],
    v: &[i64],
) -> Result<(), NamesFlaw>
    ensures naming { OnOk result (IsNaming (count pes.now) names.now) }
    ensures first_flaw { IfErr result (IsFirst (HasNamesFlaw costs.now loads.now pes.now time names.now u.now v.now)) }
{
    if names.len() != pes.len() as usize {
        return Err(NamesFlaw::NameCount);
    }
    if !all_below(names, pes.len()) {
        return Err(NamesFlaw::NameRange);
    }
    if !all_apart(names) {
        return Err(NamesFlaw::NameTwice);
    }
    Ok(())
}

// The first block with which its PE ends after the time.
fn first_late(loads: &[u64], pes: &PeSpeeds<'_>, time: EndTime, names: &[u32]) -> Option<u32>
    requires loads { length loads.now ≡ count pes.now }
    requires naming { IsNaming (count pes.now) names.now }
    ensures { MatchOption result (AllMayRun loads.now pes.now time names.now) (IsFirstLate loads.now pes.now time names.now) }
{
    for b in 0..pes.len() {
        if !may_run(loads[b as usize], pes, time, names[b as usize]) {
            return Some(b);
        }
    }
    None
}

// Whether all names are PEs.
fn all_below(names: &[u32], blocks: u32) -> bool
    ensures { MatchBool result ((b : ℕ) → b < length names.now → slice_index names.now b < blocks)
        ((b : ℕ) × (b < length names.now) × (blocks ≤ slice_index names.now b)) }
{
    for &name in names {
        if name >= blocks {
            return false;
        }
    }
    true
}

// Whether no two names are equal.
fn all_apart(names: &[u32]) -> bool
    ensures { MatchBool result (AreApart names.now) (Repeats names.now) }
{
    for b in 0..names.len() {
        if names[..b].contains(&names[b]) {
            return false;
        }
    }
    true
}
