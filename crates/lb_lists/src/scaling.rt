//! Loads that were measured in seconds, as whole numbers of a unit.

ghost use Rattle.std.specs.Prelude.{◌≡◌, ◌≢◌, ◌⊎◌, ◌<◌, ◌≤◌, ◌+◌, ◌-◌, ◌*◌, ◌/◌, ◌^◌, ◌↔◌, ℕ, All, IfOk, IfErr, OnOk, OnErr, MatchOption, length, max, take, from_bits};
ghost use Rattle.std.specs.Float.{binary64};
ghost use Rattle.lb_lists.specs.Runs.{AreSmall};
ghost use Rattle.lb_lists.specs.Scales.{counts, load_limit, ticks, AreSmallIn, IsFirstScaleFault, IsLoadFault, IsMeasured, IsRoomFor, IsScaled, IsScaleRefusal};

use crate::limits::RunLimits;
use lb_snapshot::Units;
use thiserror::Error;

/// Why loads were not scaled. Of several reasons, the first in this order is given; of several bad loads, the fault of the
/// first.
#[derive(Clone, Copy, Debug, PartialEq, Eq, Error)]
pub enum ScaleError {
    /// There is not one scaled load for each load, or there are more than [`RunLimits::ELEMENTS`].
    #[error("bad input")]
    BadInput,
    /// A load is not a number.
    #[error("a load is not a number")]
    NotANumber,
    /// A load is below 0; it may be minus infinity.
    #[error("a load is negative")]
    Negative,
    /// A load is infinite.
    #[error("a load is infinite")]
    Infinite,
}

// The sign bit of a double, and the lowest bit of its exponent.
const SIGN: u64 = 1 << 63;

const HIDDEN: u64 = 1 << 52;

// What is wrong with a load, if anything is.
fn fault_of(load: f64) -> Option<ScaleError>
    ensures { MatchOption result (IsMeasured load) (IsLoadFault load) }
{
    if load.is_nan() {
        return Some(ScaleError::NotANumber);
    }
    if load < 0.0 {
        return Some(ScaleError::Negative);
    }
    if load.is_infinite() {
        return Some(ScaleError::Infinite);
    }
    None
}

// What is wrong with the first load that is not right.
fn first_fault(loads: &[f64]) -> Option<ScaleError>
    ensures { MatchOption result (All IsMeasured loads.now) (IsFirstScaleFault loads.now) }
{
    for &load in loads {
        if let Some(fault) = fault_of(load) {
            return Some(fault);
        }
    }
    None
}

// The digits of a load, and the number of places by which they are shifted.
fn parts_of(load: f64) -> (u64, u32)
    requires { IsMeasured load }
    ensures ticks { ticks load ≡ result.0 * 2 ^ result.1 }
    ensures digits { result.0 < 2 ^ 53 }
    ensures shift { result.1 < 2047 }
    ensures zero { result.0 ≡ 0 → result.1 ≡ 0 }
{
    let bits = load.to_bits();
    let (field, digits) = (bits % SIGN / HIDDEN, bits % HIDDEN);
    if field == 0 {
        return (digits, 0);
    }
    (digits + HIDDEN, field as u32 - 1)
}

// The greatest number of bits that each of this number of scaled loads may have.
fn bits_for(count: usize) -> u32
    requires { count < 2 ^ 32 }
    ensures limit { load_limit count ≡ 2 ^ result - 1 }
    ensures many { count ≤ 2 ^ (63 - result) }
    ensures some { 31 ≤ result }
    ensures few { result ≤ 47 }
{
    62 - (count.max(65_536) - 1).ilog2()
}

// The least power of two in which a load has at most this number of bits.
fn power_for(load: f64, bits: u32) -> u32
    requires measured { IsMeasured load }
    requires some { 31 ≤ bits }
    ensures small { ticks load / 2 ^ result < 2 ^ bits }
    ensures least { (power : ℕ) → power < result → 2 ^ bits ≤ ticks load / 2 ^ power }
    ensures bound { result < 2098 }
{
    let (digits, shift) = parts_of(load);
    if digits == 0 {
        return 0;
    }
    (digits.ilog2() + shift).saturating_sub(bits - 1)
}

// The greater of two powers.
fn greater(power: u32, other: u32) -> u32
    ensures { result ≡ max power other }
{
    power.max(other)
}

// The least power of two in which each load has at most this number of bits.
fn power_of(loads: &[f64], bits: u32) -> u32
    requires measured { All IsMeasured loads.now }
    requires some { 31 ≤ bits }
    ensures small { AreSmallIn (2 ^ bits - 1) result loads.now }
    ensures least { (power : ℕ) → power < result → ¬ (AreSmallIn (2 ^ bits - 1) power loads.now) }
    ensures bound { result < 2098 }
{
    let mut power = 0;
    for &load in loads {
        power = greater(power, power_for(load, bits));
    }
    power
}

// The number of units of this power in a load, rounded down.
fn count_of(load: f64, power: u32) -> u64
    requires measured { IsMeasured load }
    requires small { ticks load / 2 ^ power < 2 ^ 47 }
    ensures { result ≡ ticks load / 2 ^ power }
{
    let (digits, shift) = parts_of(load);
    if shift < power {
        return digits >> (power - shift).min(63);
    }
    digits << (shift - power)
}

// Writes the number of units of this power in each load.
fn write_counts(loads: &[f64], power: u32, scaled: &mut [u64])
    requires counted { length scaled.old ≡ length loads.now }
    requires measured { All IsMeasured loads.now }
    requires small { AreSmallIn (2 ^ 47 - 1) power loads.now }
    ensures { scaled.new ≡ counts power loads.now }
{
    for i in 0..loads.len() {
        scaled[i] = count_of(loads[i], power);
    }
}

// The unit of this power.
fn unit_of(power: u32) -> f64
    requires { power < 2098 }
    ensures measured { IsMeasured result }
    ensures ticks { ticks result ≡ 2 ^ power }
{
    if power < 52 {
        return f64::from_bits(1 << power);
    }
    f64::from_bits(u64::from(power - 51) << 52)
}

/// Counts measured loads, for example in seconds, in a unit that it chooses: the least power of two in which no count is above
/// the limit, which is 2^47 - 1 for up to 65,536 loads, and half as great for each time that there may be twice as many. So the
/// counts add up to less than 2^63, and can be planned. Each count is rounded down. The unit is returned; a bottleneck times
/// the unit is in seconds again.
///
/// Rounding takes less than one unit from each element. So a division that is least for the counts is, in seconds, nearly least
/// for the loads: the heaviest block of any other is lighter by at most one unit for each element
/// ([`near_least`](crate::near_least)).
///
/// # Errors
///
/// A [`ScaleError`], in its order. After an error nothing was written.
pub fn scale_loads(loads: &[f64], scaled: &mut [Units]) -> Result<f64, ScaleError>
    ensures scaled { IfOk result (λ unit. IsScaled loads.now unit scaled.new) }
    ensures small { OnOk result (AreSmall scaled.new) }
    ensures measured { OnOk result (IsRoomFor (length scaled.old) loads.now × All IsMeasured loads.now) }
    ensures refused { IfErr result (IsScaleRefusal loads.now (length scaled.old)) }
    ensures kept { OnErr result (scaled.new ≡ scaled.old) }
{
    if scaled.len() != loads.len() || loads.len() > RunLimits::ELEMENTS as usize {
        return Err(ScaleError::BadInput);
    }
    if let Some(fault) = first_fault(loads) {
        return Err(fault);
    }
    let power = power_of(loads, bits_for(loads.len()));
    write_counts(loads, power, scaled);
    Ok(unit_of(power))
}
