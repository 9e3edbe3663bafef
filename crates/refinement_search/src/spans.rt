//! The places of each block's row.

ghost use Rattle.std.specs.Prelude.{◌≡◌, ℕ, ◌+◌, ◌-◌, ◌<◌, ◌≤◌, IfOk, length, slice_index};
ghost use Rattle.lb_certificates.specs.Chain.{IsDivision};
ghost use Rattle.refinement_search.specs.Spans.{AreFars, AreNears};

use std::alloc::{AllocError, Allocator};

/// The first place of each row: the present cut, or the farthest place that a block within the limit reaches from the
/// first place of the row before, whichever comes first.
///
/// # Errors
///
/// Memory for the list was refused.
pub(crate) fn first_places<A: Allocator>(
    alloc: A,
    starts: &[u32],
    present: &[u32],
    blocks: usize,
) -> Result<Vec<u32, A>, AllocError>
    requires some_block { 0 < blocks }
    requires divides { IsDivision 0 (length starts.now - 1) blocks present.now }
    requires some_place { 0 < length starts.now }
    requires before { (x : ℕ) → x < length starts.now → slice_index starts.now x ≤ x }
    ensures counted { IfOk result (λ near. length near.items ≡ blocks) }
    ensures near { IfOk result (λ near. AreNears present.now blocks (slice_index starts.now) (slice_index near.items)) }
{
    let mut near = vec![in alloc; 0; blocks]?;
    write_near(starts, present, &mut near);
    Ok(near)
}

// Writes these places.
fn write_near(starts: &[u32], present: &[u32], near: &mut [u32])
    requires some_block { 0 < length near.old }
    requires divides { IsDivision 0 (length starts.now - 1) (length near.old) present.now }
    requires some_place { 0 < length starts.now }
    requires before { (x : ℕ) → x < length starts.now → slice_index starts.now x ≤ x }
    requires first { slice_index near.old 0 ≡ 0 }
    ensures counted { length near.new ≡ length near.old }
    ensures near { AreNears present.now (length near.old) (slice_index starts.now) (slice_index near.new) }
{
    for b in 0..near.len() - 1 {
        near[b + 1] = reached(starts, near[b], present[b + 1]);
    }
}

// The farthest place up to this cut that a block reaches from a place within the limit.
fn reached(starts: &[u32], from: u32, cut: u32) -> u32
    requires onward { from ≤ cut }
    requires inside { cut < length starts.now }
    requires before { slice_index starts.now from ≤ from }
    ensures onward { from ≤ result }
    ensures to { result ≤ cut }
    ensures reached { slice_index starts.now result ≤ from }
{
    let mut x = from;
    while x < cut && starts[x as usize + 1] <= from {
        x += 1;
    }
    x
}

/// The last place of each row: the present cut, or the least start of a block that ends at the last place of the row
/// behind, whichever comes last.
///
/// # Errors
///
/// Memory for the list was refused.
pub(crate) fn last_places<A: Allocator>(
    alloc: A,
    starts: &[u32],
    present: &[u32],
    blocks: usize,
) -> Result<Vec<u32, A>, AllocError>
    requires some_block { 0 < blocks }
    requires divides { IsDivision 0 (length starts.now - 1) blocks present.now }
    requires some_place { 0 < length starts.now }
    requires before { (x : ℕ) → x < length starts.now → slice_index starts.now x ≤ x }
    ensures counted { IfOk result (λ far. length far.items ≡ blocks) }
    ensures far { IfOk result (λ far. AreFars present.now blocks (length starts.now - 1) (slice_index starts.now) (slice_index far.items)) }
{
    let mut far = vec![in alloc; 0; blocks]?;
    write_far(starts, present, &mut far);
    Ok(far)
}

// Writes these places.
fn write_far(starts: &[u32], present: &[u32], far: &mut [u32])
    requires some_block { 0 < length far.old }
    requires divides { IsDivision 0 (length starts.now - 1) (length far.old) present.now }
    requires some_place { 0 < length starts.now }
    requires before { (x : ℕ) → x < length starts.now → slice_index starts.now x ≤ x }
    ensures counted { length far.new ≡ length far.old }
    ensures far { AreFars present.now (length far.old) (length starts.now - 1) (slice_index starts.now) (slice_index far.new) }
{
    let mut b = far.len() - 1;
    far[b] = present[b].max(starts[starts.len() - 1]);
    while b > 0 {
        b -= 1;
        far[b] = present[b].max(starts[far[b + 1] as usize]);
    }
}
