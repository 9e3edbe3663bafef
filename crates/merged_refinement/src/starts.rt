//! The least start of a block that ends at each place.

ghost use Rattle.std.specs.Prelude.{◌≡◌, ◌+◌, ◌^◌, ◌<◌, IfOk, length, slice_index};
ghost use Rattle.chain_refinement.specs.Walks.{IsLeastStart};
ghost use Rattle.refinement_search.specs.Windows.{AreStarts};

use chain_partition::Chain;
use std::alloc::{AllocError, Allocator};

/// The least start for each place from 0 to the number of elements.
///
/// # Errors
///
/// Memory for the one list was refused.
pub(crate) fn least_starts<A: Allocator, B: Allocator>(
    alloc: A,
    loads: &Chain<'_, B>,
    limit: u64,
) -> Result<Vec<u32, A>, AllocError>
    ensures counted { IfOk result (λ starts. length starts.items ≡ length loads.now + 1) }
    ensures starts { IfOk result (λ starts. AreStarts loads.now limit (slice_index starts.items)) }
{
    let mut starts = vec![in alloc; 0; loads.len() + 1]?;
    write_starts(loads, limit, &mut starts);
    Ok(starts)
}

// Writes these starts.
fn write_starts<B: Allocator>(loads: &Chain<'_, B>, limit: u64, starts: &mut [u32])
    requires room { length starts.old ≡ length loads.now + 1 }
    requires first { slice_index starts.old 0 ≡ 0 }
    ensures starts { AreStarts loads.now limit (slice_index starts.new) }
{
    let mut start = 0;
    for end in 0..loads.len() {
        start = slid(loads, start, end, limit);
        starts[end + 1] = start as u32;
    }
}

// The least start of a block that ends behind this element, from that of one that ends before it.
fn slid<B: Allocator>(loads: &Chain<'_, B>, start: usize, element: usize, limit: u64) -> usize
    requires few { length loads.now < 2 ^ 32 }
    requires inside { element < length loads.now }
    requires before { IsLeastStart loads.now element limit start }
    ensures least { IsLeastStart loads.now (element + 1) limit result }
{
    let mut from = start;
    while loads.load(from, element + 1) > limit {
        from += 1;
    }
    from
}
