//! Sums of loads and of sizes, in 128 bits.

ghost use Rattle.std.specs.Prelude.{◌≡◌, ◌*◌, ◌^◌, ◌≤◌, length, sum};

use lb_snapshot::Units;

/// The sum of these loads, in work units. In 128 bits that of any list fits.
pub fn total(loads: &[Units]) -> u128
    ensures value { result ≡ sum loads.now }
{
    small_total(loads)
}

/// The sum of these numbers, and how large it is at most.
pub(crate) fn small_total(numbers: &[u64]) -> u128
    ensures value { result ≡ sum numbers.now }
    ensures small { result ≤ length numbers.now * 2 ^ 64 }
{
    let mut total = 0;
    for &number in numbers {
        total += u128::from(number);
    }
    total
}
