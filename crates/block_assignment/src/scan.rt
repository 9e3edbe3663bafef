//! One step of the search: one walk over the PEs that were not scanned.

ghost use Rattle.std.specs.Prelude.{◌≡◌, ℕ, ◌+◌, ◌^◌, ◌<◌, ◌≤◌, length, slice_index, IfSome, MatchBool, MatchOption};
ghost use Rattle.block_assignment.specs.Search.{IsNearest, IsRelaxed, IsUnscanned};

/// A block that joins the tree of a search.
#[derive(Clone, Copy)]
pub(crate) struct Joining {
    /// Its number.
    pub(crate) block: u32,
    /// Its price.
    pub(crate) price: u64,
    /// How far it is from the root.
    pub(crate) distance: u64,
}

/// Brings PEs that were not scanned nearer by way of a block that joins the tree, whose costs are this row, and returns
/// the place of the nearest in the list of them. A free PE is taken before others that are as near, so that equal costs
/// do not make the tree grow. No other PEs are looked at, and the ranks are not read: they say which PEs the list has.
/// The walk goes from the end of the list to its start, since a loop down to 0 compares its place with no length.
#[inline(never)]
pub(crate) fn scan(
    joining: Joining,
    row: &[u64],
    discount: &[u64],
    rank: &[u32],
    to_scan: &[u32],
    holders: &[Option<u32>],
    distance: &mut [u64],
    from: &mut [u32],
) -> Option<usize>
    requires discounts { length discount.now ≡ length row.now }
    requires ranks { length rank.now ≡ length row.now }
    requires unscanned { IsUnscanned rank.now to_scan.now (length row.now) }
    requires held { length holders.now ≡ length row.now }
    requires distances { length distance.old ≡ length row.now }
    requires froms { length from.old ≡ length row.now }
    requires near { joining.distance ≤ 2 ^ 49 }
    requires small { (p : ℕ) → p < length row.now → slice_index row.now p + slice_index discount.now p ≤ 2 ^ 49 }
    requires low { (p : ℕ) → p < length row.now → joining.price ≤ slice_index row.now p + slice_index discount.now p }
    ensures relaxed { (p : ℕ) → p < length row.now → slice_index rank.now p ≡ 0
        → IsRelaxed joining.distance (slice_index row.now p) joining.price (slice_index discount.now p) joining.block
        (slice_index distance.old p) (slice_index from.old p) (slice_index distance.new p) (slice_index from.new p) }
    ensures kept_distance { (p : ℕ) → 0 < slice_index rank.now p → slice_index distance.new p ≡ slice_index distance.old p }
    ensures kept_from { (p : ℕ) → 0 < slice_index rank.now p → slice_index from.new p ≡ slice_index from.old p }
    ensures nearest { MatchOption result
        ((p : ℕ) → p < length row.now → 0 < slice_index rank.now p)
        (λ place. IsNearest rank.now distance.new (length row.now) (slice_index to_scan.now place)) }
    ensures listed { IfSome result (λ place. place < length to_scan.now) }
{
    let mut nearest = None;
    let mut least = u64::MAX;
    let mut free = false;
    let mut place = to_scan.len();
    while place > 0 {
        place -= 1;
        let p = to_scan[place] as usize;
        let way = joining.distance + row[p] + discount[p] - joining.price;
        let mut far = distance[p];
        if way < far {
            far = way;
            distance[p] = way;
            from[p] = joining.block;
        }
        if comes_first(far, &holders[p], least, free) {
            nearest = Some(place);
            least = far;
            free = holders[p].is_none();
        }
    }
    nearest
}

// Whether a PE is to be scanned before the nearest of those behind it: it is nearer, or as near and free, or as near
// where that is not free. So of those that are as near it is the first free one, or the first if none is free. Most PEs
// are farther, so one comparison rules them out; the holder is looked up only where a PE is as near, which is rare.
fn comes_first(far: u64, holder: &Option<u32>, least: u64, least_free: bool) -> bool
    ensures { MatchBool result (far ≤ least) (least ≤ far) }
{
    far <= least && (far < least || !least_free || holder.is_none())
}
