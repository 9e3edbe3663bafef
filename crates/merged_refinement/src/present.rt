//! The present cuts between the ranks, with bounds on how far each needs to be moved.

ghost use Rattle.std.specs.Prelude.{◌≡◌, ℕ, ◌+◌, ◌-◌, ◌<◌, ◌≤◌, MatchBool, length, slice_index};
ghost use Rattle.std.specs.List.Sorted.{IsNonDecreasing};
ghost use Rattle.lb_snapshot.specs.Measured.{load};
ghost use Rattle.lb_certificates.specs.Certificate.{NoneAbove};
ghost use Rattle.lb_certificates.specs.Chain.{IsDivision};
ghost use Rattle.merged_refinement.specs.Lists.{AreFirst, AreLast, AreRunReaches, AreSingle, IsSingle};
ghost use Rattle.merged_refinement.specs.Merged.{AreBounds};

use chain_partition::Chain;
use std::alloc::Allocator;

/// The present cuts of a chain on ranks in their order, one more than ranks, and which places of each need be looked at: those between
/// its bounds which cuts within the limit reach. Where no present block is above the limit, the present cuts are both bounds.
#[derive(Clone, Copy, Debug)]
pub struct Present<'a> {
    /// The present cuts.
    pub cuts: &'a [u32],
    /// The lower bound of each cut.
    pub near: &'a [u32],
    /// The upper bound of each cut.
    pub far: &'a [u32],
    /// The first place that each cut reaches; 0 for each bounds nothing.
    pub first: &'a [u32],
    /// The last place that each cut reaches; the number of elements for each bounds nothing.
    pub last: &'a [u32],
}

// Whether the bounds are right: lists of cuts that divide the chain from its beginning, and up to its end, without a block above the
// limit, on either side of the present cuts.
pub(crate) fn are_bounds<B: Allocator>(
    loads: &Chain<'_, B>,
    present: &Present<'_>,
    limit: u64,
) -> bool
    requires some_rank { 2 ≤ length present.now.cuts.now }
    requires near { length present.now.near.now ≡ length present.now.cuts.now }
    requires far { length present.now.far.now ≡ length present.now.cuts.now }
    requires divides { IsDivision 0 (length loads.now) (length present.now.cuts.now - 1) present.now.cuts.now }
    ensures { MatchBool result (AreBounds loads.now present.now.cuts.now (length present.now.cuts.now - 1) limit present.now.near.now present.now.far.now)
        (¬ (AreBounds loads.now present.now.cuts.now (length present.now.cuts.now - 1) limit present.now.near.now present.now.far.now)) }
{
    let last = present.cuts.len() - 1;
    if !divides(present.near, 0, present.near[last]) {
        return false;
    }
    if !divides(present.far, present.far[0], present.cuts[last]) {
        return false;
    }
    if !are_before(present.near, present.cuts) {
        return false;
    }
    if !are_before(present.cuts, present.far) {
        return false;
    }
    if !none_above(loads, present.near, limit) {
        return false;
    }
    none_above(loads, present.far, limit)
}

// Whether these cuts divide the elements first..end.
pub(crate) fn divides(cuts: &[u32], first: u32, end: u32) -> bool
    requires some { 0 < length cuts.now }
    ensures { MatchBool result (IsDivision first end (length cuts.now - 1) cuts.now) (¬ (IsDivision first end (length cuts.now - 1) cuts.now)) }
{
    if cuts[0] != first {
        return false;
    }
    if !rises(cuts) {
        return false;
    }
    cuts[cuts.len() - 1] == end
}

// Whether no number is greater than the next.
fn rises(numbers: &[u32]) -> bool
    ensures { MatchBool result (IsNonDecreasing numbers.now) (¬ (IsNonDecreasing numbers.now)) }
{
    numbers.is_sorted()
}

// Whether no number is above that of the other list at the same place.
fn are_before(numbers: &[u32], others: &[u32]) -> bool
    requires { length others.now ≡ length numbers.now }
    ensures { MatchBool result ((b : ℕ) → b < length numbers.now → slice_index numbers.now b ≤ slice_index others.now b)
        (¬ ((b : ℕ) → b < length numbers.now → slice_index numbers.now b ≤ slice_index others.now b)) }
{
    for b in 0..numbers.len() {
        if numbers[b] > others[b] {
            return false;
        }
    }
    true
}

// Whether no block between these cuts is above the limit.
fn none_above<B: Allocator>(loads: &Chain<'_, B>, cuts: &[u32], limit: u64) -> bool
    requires some { 0 < length cuts.now }
    requires ordered { IsNonDecreasing cuts.now }
    requires inside { (b : ℕ) → b < length cuts.now → slice_index cuts.now b ≤ length loads.now }
    ensures { MatchBool result (NoneAbove loads.now (length cuts.now - 1) limit cuts.now) (¬ (NoneAbove loads.now (length cuts.now - 1) limit cuts.now)) }
{
    for b in 0..cuts.len() - 1 {
        if loads.load(cuts[b] as usize, cuts[b + 1] as usize) > limit {
            return false;
        }
    }
    true
}

// Whether every run between the places of a cut between blocks that need be looked at has one element.
pub(crate) fn are_single(starts: &[u32], present: &Present<'_>) -> bool
    requires some { 2 ≤ length present.now.near.now }
    requires far { length present.now.far.now ≡ length present.now.near.now }
    requires first { length present.now.first.now ≡ length present.now.near.now }
    requires last { length present.now.last.now ≡ length present.now.near.now }
    requires inside { (b : ℕ) → b < length present.now.near.now → slice_index present.now.far.now b < length starts.now }
    ensures { MatchBool result (AreSingle starts.now (length present.now.near.now - 1) present.now.near.now present.now.far.now present.now.first.now present.now.last.now)
        (¬ (AreSingle starts.now (length present.now.near.now - 1) present.now.near.now present.now.far.now present.now.first.now present.now.last.now)) }
{
    for b in 1..present.near.len() - 1 {
        let from = present.near[b].max(present.first[b]);
        let to = present.far[b].min(present.last[b]);
        if !are_single_between(starts, from, to) {
            return false;
        }
    }
    true
}

// Whether every run between two of them has one element.
fn are_single_between(starts: &[u32], from: u32, to: u32) -> bool
    requires inside { to < length starts.now }
    ensures { MatchBool result (from ≤ to → slice_index starts.now to ≡ slice_index starts.now from + (to - from))
        (¬ (from ≤ to → slice_index starts.now to ≡ slice_index starts.now from + (to - from))) }
{
    if from > to {
        return true;
    }
    u64::from(starts[to as usize]) == u64::from(starts[from as usize]) + u64::from(to - from)
}

// Whether cuts within the limit reach no further than these places.
pub(crate) fn are_reaches<B: Allocator>(
    loads: &Chain<'_, B>,
    starts: &[u32],
    present: &Present<'_>,
    limit: u64,
) -> bool
    requires some { 0 < length present.now.first.now }
    requires counted { length starts.now ≡ length loads.now + 1 }
    requires last { length present.now.last.now ≡ length present.now.first.now }
    ensures { MatchBool result (AreRunReaches loads.now starts.now (length present.now.first.now - 1) limit present.now.first.now present.now.last.now)
        (¬ (AreRunReaches loads.now starts.now (length present.now.first.now - 1) limit present.now.first.now present.now.last.now)) }
{
    let end = present.first.len() - 1;
    if !rises(present.first) || present.first[end] as usize > loads.len() {
        return false;
    }
    if !rises(present.last) || present.last[end] as usize > loads.len() {
        return false;
    }
    if !are_first(loads, starts, present.first, limit) {
        return false;
    }
    are_last(loads, starts, present.last, limit)
}

// Whether no cuts within the limit come before these places.
fn are_first<B: Allocator>(loads: &Chain<'_, B>, starts: &[u32], first: &[u32], limit: u64) -> bool
    requires some { 0 < length first.now }
    requires counted { length starts.now ≡ length loads.now + 1 }
    requires rises { IsNonDecreasing first.now }
    requires inside { (b : ℕ) → b < length first.now → slice_index first.now b ≤ length loads.now }
    ensures { MatchBool result (AreFirst loads.now starts.now (length first.now - 1) limit first.now) (¬ (AreFirst loads.now starts.now (length first.now - 1) limit first.now)) }
{
    for b in 0..first.len() - 1 {
        let begin = first[b] as usize;
        if begin > 0
            && !is_too_wide(
                loads,
                starts,
                begin - 1,
                first[b + 1] as usize,
                begin - 1,
                limit,
            )
        {
            return false;
        }
    }
    true
}

// Whether none come behind these.
fn are_last<B: Allocator>(loads: &Chain<'_, B>, starts: &[u32], last: &[u32], limit: u64) -> bool
    requires some { 0 < length last.now }
    requires counted { length starts.now ≡ length loads.now + 1 }
    requires rises { IsNonDecreasing last.now }
    requires inside { (b : ℕ) → b < length last.now → slice_index last.now b ≤ length loads.now }
    ensures { MatchBool result (AreLast loads.now starts.now (length last.now - 1) limit last.now) (¬ (AreLast loads.now starts.now (length last.now - 1) limit last.now)) }
{
    for b in 0..last.len() - 1 {
        let end = last[b + 1] as usize;
        if end < loads.len() && !is_too_wide(loads, starts, last[b] as usize, end + 1, end, limit) {
            return false;
        }
    }
    true
}

// Whether a block is above the limit, and a run of it has one element.
fn is_too_wide<B: Allocator>(
    loads: &Chain<'_, B>,
    starts: &[u32],
    begin: usize,
    end: usize,
    run: usize,
    limit: u64,
) -> bool
    requires counted { length starts.now ≡ length loads.now + 1 }
    requires onward { begin ≤ end }
    requires inside { end ≤ length loads.now }
    requires there { run < length loads.now }
    ensures { MatchBool result ((limit < load loads.now begin end) × IsSingle starts.now run) (¬ ((limit < load loads.now begin end) × IsSingle starts.now run)) }
{
    if loads.load(begin, end) <= limit {
        return false;
    }
    u64::from(starts[run + 1]) == u64::from(starts[run]) + 1
}
