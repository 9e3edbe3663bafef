//! How far the loads of PEs are from their average.

ghost use Rattle.std.specs.Prelude.{◌≡◌, ◌*◌, ◌^◌, ◌<◌, ◌≤◌, ℕ, length, slice_index};
ghost use Rattle.load_report.specs.Figures.{billion, billionths, deviation_of, square_apart, squares_of};

use chare_index::Limits;

/// Loads are compared in billionths of their average.
const BILLION: u128 = 1_000_000_000;

/// The standard deviation of the first of these loads over their average, in thousandths, to the nearest. `total` is their
/// sum.
pub(crate) fn deviation_of(sums: &[u64], pes: u32, total: u64) -> u64
    requires room { pes ≤ length sums.now }
    requires few { pes ≤ Limits.PES }
    requires parts { (p : ℕ) → p < pes → slice_index sums.now p ≤ total }
    ensures { result ≡ deviation_of pes total (slice_index sums.now) }
{
    if pes == 0 {
        return 0;
    }
    let squares = squares_of(sums, pes, total);
    let doubled = (4 * squares / (u128::from(pes) * (BILLION * 1000))).isqrt();
    ((doubled + 1) / 2) as u64
}

// The sum of the squares of the distances of the first of these loads from their average.
#[tactic(auto, using(crate::proofs::PlacedLoads::total_more))]
fn squares_of(sums: &[u64], pes: u32, total: u64) -> u128
    requires room { pes ≤ length sums.now }
    requires few { pes ≤ Limits.PES }
    requires parts { (p : ℕ) → p < pes → slice_index sums.now p ≤ total }
    ensures value { result ≡ squares_of pes total (slice_index sums.now) }
    ensures small { result ≤ pes * 2 ^ 100 }
{
    let mut squares = 0;
    for p in 0..pes as usize {
        squares += square_apart(billionths(pes, total, sums[p]));
    }
    squares
}

// A load in billionths of the average.
fn billionths(pes: u32, total: u64, load: u64) -> u128
    requires few { pes ≤ Limits.PES }
    requires part { load ≤ total }
    ensures value { result ≡ billionths pes total load }
    ensures small { result ≤ 2 ^ 40 }
{
    if total == 0 {
        return BILLION;
    }
    let total = u128::from(total);
    (2 * (BILLION * (u128::from(load) * u128::from(pes))) + total) / (2 * total)
}

// The square of the distance of this number from a billion.
fn square_apart(billionths: u128) -> u128
    requires { billionths ≤ 2 ^ 40 }
    ensures value { result ≡ square_apart billionths billion }
    ensures small { result ≤ 2 ^ 100 }
{
    let apart = billionths.abs_diff(BILLION);
    apart * apart
}
