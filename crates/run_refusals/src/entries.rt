//! The first entry of a list that breaks a rule.

ghost use Rattle.std.specs.Prelude.{◌≡◌, ◌≤◌, ◌<◌, ◌^◌, All, MatchOption, length, sum};
ghost use Rattle.run_refusals.specs.Refusals.{IsFirstAbove, PassesAt};

/// The first of these numbers that is above a limit.
pub(crate) fn first_above(numbers: &[u32], limit: u32) -> Option<u32>
    requires few { length numbers.now < 2 ^ 32 }
    ensures { MatchOption result (All (λ number. number ≤ limit) numbers.now) (IsFirstAbove numbers.now limit) }
{
    for i in 0..numbers.len() {
        if numbers[i] > limit {
            return Some(i as u32);
        }
    }
    None
}

/// The first of these loads that is above a limit.
pub(crate) fn first_load_above(loads: &[u64], limit: u64) -> Option<u32>
    requires few { length loads.now < 2 ^ 32 }
    ensures { MatchOption result (All (λ units. units ≤ limit) loads.now) (IsFirstAbove loads.now limit) }
{
    for i in 0..loads.len() {
        if loads[i] > limit {
            return Some(i as u32);
        }
    }
    None
}

/// The first of these sizes with which they add up to more than a limit.
pub(crate) fn first_past(sizes: &[u32], limit: u64) -> Option<u32>
    requires few { length sizes.now < 2 ^ 32 }
    ensures { MatchOption result (sum sizes.now ≤ limit) (PassesAt sizes.now limit) }
{
    let mut left = limit;
    for i in 0..sizes.len() {
        let size = u64::from(sizes[i]);
        if size > left {
            return Some(i as u32);
        }
        left -= size;
    }
    None
}

/// The first of these loads with which they add up to more than a limit.
pub(crate) fn first_load_past(loads: &[u64], limit: u64) -> Option<u32>
    requires few { length loads.now < 2 ^ 32 }
    ensures { MatchOption result (sum loads.now ≤ limit) (PassesAt loads.now limit) }
{
    let mut left = limit;
    for i in 0..loads.len() {
        if loads[i] > left {
            return Some(i as u32);
        }
        left -= loads[i];
    }
    None
}
