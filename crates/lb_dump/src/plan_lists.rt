//! The numbers and lists of a decision, from its bytes.

ghost use Rattle.std.specs.Prelude.{◌≡◌, ◌++◌, ◌+◌, ◌-◌, ◌*◌, ◌<◌, ◌≤◌, ℕ, [], length, IfOk, flat_map};
ghost use Rattle.dump_format.specs.Dumps.{AreFields, ArePrices, AreWords, IsRecorded};
ghost use Rattle.dump_format.specs.Text.{price, word as word_text};
ghost use Rattle.lb_dump.specs.PlanLists.{floor_len, AreNamedIn, ArePricesIn, IsDivisionIn, IsFloorIn};
ghost use Rattle.lb_dump.specs.Plans.{flag_in, kind_in, plan_bytes, plan_len, target_in, word_at};

use crate::numbers::{LONG_LEN, WORD_LEN, long, word};
use chare_index::Limits;
use dump_format::Recorded;
use lb_certificates::{Cuts, Division, Floor, Naming, PriceList, Prices, Stops};
use lb_strategy::{Decision, Moves};
use std::alloc::{AllocError, Allocator};

/// The decision, without its moves, in these bytes. The memory of each list is requested once, with its exact length.
///
/// # Errors
///
/// Memory for a list was refused.
pub(crate) fn recorded_of<A: Allocator + Copy>(
    alloc: A,
    bytes: &[u8],
    target: usize,
) -> Result<Recorded<A>, AllocError>
    requires flag { flag_in bytes.now ≡ 1 }
    requires target { target_in bytes.now ≡ target }
    requires some_target { 0 < target }
    requires few_targets { target ≤ Limits.PES }
    requires kind { kind_in bytes.now ≤ 1 }
    requires whole { length bytes.now ≡ plan_len target (kind_in bytes.now) }
    ensures spelled { IfOk result (λ r. bytes.now ≡ word_text 1 ++ plan_bytes r (word_at bytes.now (length bytes.now - 4))) }
    ensures recorded { IfOk result (λ r. (elements : ℕ) → IsRecorded elements r) }
    ensures fields { IfOk result (λ r. AreFields r) }
    ensures no_moves { IfOk result (λ r. r.decision.moves ≡ []) }
{
    let (front, back) = bytes.split_at(bytes.len() - after_floor(target));
    let (lists, numbers) = back.split_at(lists_len(target));
    let division = division_of(alloc, &front[2 * WORD_LEN..], target)?;
    let (naming, prices) = naming_of(alloc, lists, target)?;
    Ok(Recorded {
        target: target as u32,
        decision: Decision {
            division,
            naming,
            prices,
            moved: long(numbers),
            moves: Moves::new(Vec::new(alloc)),
        },
    })
}

// The length of the names and the prices.
fn lists_len(target: usize) -> usize
    requires { target ≤ Limits.PES }
    ensures { result ≡ 20 * target }
{
    WORD_LEN * target + 2 * (LONG_LEN * target)
}

/// The length of what follows the floor, up to the moves.
pub(crate) fn after_floor(target: usize) -> usize
    requires { target ≤ Limits.PES }
    ensures { result ≡ 20 * target + 12 }
{
    lists_len(target) + LONG_LEN + WORD_LEN
}

// The bottleneck, the cuts and the floor.
fn division_of<A: Allocator + Copy>(
    alloc: A,
    bytes: &[u8],
    target: usize,
) -> Result<Division<A>, AllocError>
    requires few_targets { target ≤ Limits.PES }
    requires kind { word_at bytes.now (8 + 4 * (target + 1)) ≤ 1 }
    requires whole { length bytes.now ≡ 8 + 4 * (target + 1) + floor_len (word_at bytes.now (8 + 4 * (target + 1))) (target + 1) }
    ensures { IfOk result (λ division. IsDivisionIn bytes.now target division) }
{
    let (cuts, floor) = bytes[LONG_LEN..].split_at(WORD_LEN * (target + 1));
    let cuts = words_in(alloc, cuts, target + 1)?;
    let floor = floor_of(alloc, floor, target + 1)?;
    Ok(Division {
        bottleneck: long(bytes),
        cuts: Cuts::new(cuts),
        floor,
    })
}

// A floor, whose fence has this number of stops.
fn floor_of<A: Allocator>(alloc: A, bytes: &[u8], stops: usize) -> Result<Floor<A>, AllocError>
    requires kind { word_at bytes.now 0 ≤ 1 }
    requires whole { length bytes.now ≡ floor_len (word_at bytes.now 0) stops }
    ensures { IfOk result (λ floor. IsFloorIn bytes.now stops floor) }
{
    if word(bytes) == 0 {
        return Ok(Floor::Zero);
    }
    let stops = words_in(alloc, &bytes[WORD_LEN..], stops)?;
    Ok(Floor::Fence(Stops::new(stops)))
}

// The names, and the prices of the blocks and of the PEs.
fn naming_of<A: Allocator + Copy>(
    alloc: A,
    bytes: &[u8],
    target: usize,
) -> Result<(Naming<A>, Prices<A>), AllocError>
    requires few_targets { target ≤ Limits.PES }
    requires whole { length bytes.now ≡ 20 * target }
    ensures { IfOk result (λ named. AreNamedIn bytes.now target named.0 named.1) }
{
    let (names, prices) = bytes.split_at(WORD_LEN * target);
    let names = words_in(alloc, names, target)?;
    let prices = prices_of(alloc, prices, target)?;
    Ok((Naming::new(names), prices))
}

// The prices of the blocks and of the PEs.
fn prices_of<A: Allocator + Copy>(
    alloc: A,
    bytes: &[u8],
    target: usize,
) -> Result<Prices<A>, AllocError>
    requires few_targets { target ≤ Limits.PES }
    requires whole { length bytes.now ≡ 16 * target }
    ensures { IfOk result (λ prices. ArePricesIn bytes.now target prices) }
{
    let (u, v) = bytes.split_at(LONG_LEN * target);
    let u = prices_in(alloc, u, target)?;
    let v = prices_in(alloc, v, target)?;
    Ok(Prices {
        u: PriceList::new(u),
        v: PriceList::new(v),
    })
}

// The `count` numbers of four bytes in these bytes.
fn words_in<A: Allocator>(alloc: A, bytes: &[u8], count: usize) -> Result<Vec<u32, A>, AllocError>
    requires { length bytes.now ≡ 4 * count }
    ensures spelled { IfOk result (λ words. flat_map word_text words.items ≡ bytes.now) }
    ensures counted { IfOk result (λ words. length words.items ≡ count) }
    ensures range { IfOk result (λ words. AreWords words.items) }
{
    let mut words = Vec::with_capacity(alloc, count)?;
    let mut rest = bytes;
    for _ in 0..count {
        let (first, behind) = rest.split_at(WORD_LEN);
        words.push_reserved(word(first));
        rest = behind;
    }
    Ok(words)
}

// The `count` prices in these bytes.
fn prices_in<A: Allocator>(alloc: A, bytes: &[u8], count: usize) -> Result<Vec<i64, A>, AllocError>
    requires { length bytes.now ≡ 8 * count }
    ensures spelled { IfOk result (λ prices. flat_map price prices.items ≡ bytes.now) }
    ensures counted { IfOk result (λ prices. length prices.items ≡ count) }
    ensures range { IfOk result (λ prices. ArePrices prices.items) }
{
    let mut prices = Vec::with_capacity(alloc, count)?;
    let mut rest = bytes;
    for _ in 0..count {
        let (first, behind) = rest.split_at(LONG_LEN);
        prices.push_reserved(long(first).cast_signed());
        rest = behind;
    }
    Ok(prices)
}
