//! Time in ticks, which are so short that two different end times are at least one apart. So the search for a time is one for a
//! whole number.

ghost use Rattle.std.specs.Prelude.{◌≡◌, ◌+◌, ◌*◌, ◌^◌, ◌<◌, ◌≤◌, ℕ, length};
ghost use Rattle.std.specs.Int.{IsGcd};
ghost use Rattle.speed_partition.specs.Ticks.{IsNeeded, IsLimit, IsScale};

use speed_certificates::{EndTime, PeSpeeds, SpeedLimits};

/// How many ticks a unit of time has: the square of the greatest speed, divided by the greatest common divisor of all speeds. End
/// times are fractions whose denominators are speeds, and the cross products that tell two of them apart are multiples of that
/// divisor.
pub(crate) fn ticks_in_unit(pes: &PeSpeeds<'_>) -> u64
    ensures scale { IsScale pes.now result }
{
    let count = pes.len();
    let mut greatest = pes.speed(0);
    let mut divisor = greatest;
    for pe in 1..count {
        greatest = greatest.max(pes.speed(pe));
        divisor = common_divisor(divisor, pes.speed(pe));
    }
    u64::from(greatest) * u64::from(greatest / divisor)
}

// The greatest number that divides both, by Euclid's algorithm.
fn common_divisor(a: u32, b: u32) -> u32
    ensures { IsGcd a b result }
{
    let mut x = a;
    let mut y = b;
    while y != 0 {
        let rest = x % y;
        x = y;
        y = rest;
    }
    x
}

/// The least number of ticks that are not before this time.
pub(crate) fn ticks_to(time: EndTime, scale: u64) -> u128
    requires some_speed { 1 ≤ time.speed }
    requires fine { scale ≤ 2 ^ 40 }
    ensures needed { IsNeeded time.work time.speed scale result }
    ensures small { result ≤ time.work * scale }
{
    (u128::from(time.work) * u128::from(scale)).div_ceil(u128::from(time.speed))
}

/// The greatest load with which a PE of this speed and background ends by so many ticks. One of 64 bits stands for all greater ones,
/// since no block weighs more.
pub(crate) fn limit_of(background: u64, speed: u32, ticks: u128, scale: u64) -> u64
    requires some_tick { 1 ≤ scale }
    requires slow { speed ≤ SpeedLimits.SPEED }
    requires few { ticks ≤ 2 ^ 107 }
    requires idle { background * scale ≤ ticks * speed }
    ensures limit { IsLimit background speed ticks scale result }
{
    let work = ticks * u128::from(speed) / u128::from(scale);
    (work - u128::from(background)).min(u128::from(u64::MAX)) as u64
}
