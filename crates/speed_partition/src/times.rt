//! Which of two times is the later one.

ghost use Rattle.std.specs.Prelude.{◌≡◌, ◌⊎◌, ◌*◌, ◌<◌, ◌↔◌, IsTrue};
ghost use Rattle.speed_certificates.specs.Speeds.{IsNoLater};

use speed_certificates::EndTime;

/// Whether a time is after another. A time of speed 0 is after all times whose speed is not 0.
pub(crate) fn is_after(time: EndTime, other: EndTime) -> bool
    ensures { IsTrue result ↔ (other.work * time.speed < time.work * other.speed) }
{
    u128::from(time.work) * u128::from(other.speed)
        > u128::from(other.work) * u128::from(time.speed)
}

/// The later of two times, and the first where neither is.
pub(crate) fn later(one: EndTime, other: EndTime) -> EndTime
    ensures either { (result ≡ one) ⊎ (result ≡ other) }
    ensures from_one { IsNoLater one result }
    ensures from_other { IsNoLater other result }
{
    if is_after(other, one) { other } else { one }
}

/// The earlier of two times, and the first where neither is.
pub(crate) fn earlier(one: EndTime, other: EndTime) -> EndTime
    ensures either { (result ≡ one) ⊎ (result ≡ other) }
    ensures to_one { IsNoLater result one }
    ensures to_other { IsNoLater result other }
{
    if is_after(one, other) { other } else { one }
}
