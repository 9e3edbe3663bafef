//! What a PE has to do in all, and whether that ends after or before a time.

ghost use Rattle.std.specs.Prelude.{◌≡◌, ◌+◌, ◌*◌, ◌<◌, ◌≤◌, ◌↔◌, IsTrue, sum};

use crate::time::EndTime;
use lb_certificates::total;
use lb_snapshot::Units;

// At any speed, so many units take longer than 64 bits of work at any other speed. Below it, products with a speed fit 128 bits.
const LONG: u128 = 1 << 96;

/// The background and the loads together. The sum fits 128 bits, however great the loads are.
#[tactic(auto, using(crate::proofs::Works::work_fits))]
pub(crate) fn work_of(background: u64, loads: &[Units]) -> u128
    ensures { result ≡ background + sum loads.now }
{
    u128::from(background) + total(loads)
}

/// Whether this work, at this speed, ends after the time.
#[tactic(auto, using(crate::proofs::Works::product_fits, crate::proofs::Works::long_work))]
pub(crate) fn ends_after(work: u128, speed: u32, time: EndTime) -> bool
    requires some_speed { 1 ≤ time.speed }
    ensures { IsTrue result ↔ (time.work * speed < work * time.speed) }
{
    if work >= LONG {
        return true;
    }
    u128::from(time.work) * u128::from(speed) < work * u128::from(time.speed)
}

/// Whether it ends before the time.
#[tactic(auto, using(crate::proofs::Works::product_fits, crate::proofs::Works::long_work))]
pub(crate) fn ends_before(work: u128, speed: u32, time: EndTime) -> bool
    requires some_speed { 1 ≤ time.speed }
    ensures { IsTrue result ↔ (work * time.speed < time.work * speed) }
{
    if work >= LONG {
        return false;
    }
    work * u128::from(time.speed) < u128::from(time.work) * u128::from(speed)
}
