//! The least start of a block that ends at each place.

ghost use Rattle.std.specs.Prelude.{◌≡◌, ◌+◌, IfOk, length, slice_index, vec_len};
ghost use Rattle.lb_snapshot.specs.Measured.{IsLoads};
ghost use Rattle.refinement_search.specs.Windows.{AreStarts};

use chain_refinement::walk::{Window, slid};
use lb_snapshot::Units;
use std::alloc::{AllocError, Allocator};

/// The least start for each place from 0 to the number of elements.
///
/// # Errors
///
/// Memory for the one list was refused.
pub(crate) fn least_starts<A: Allocator>(
    alloc: A,
    loads: &[Units],
    limit: u64,
) -> Result<Vec<u32, A>, AllocError>
    requires { IsLoads loads.now }
    ensures counted { IfOk result (λ starts. length starts.items ≡ length loads.now + 1) }
    ensures starts { IfOk result (λ starts. AreStarts loads.now limit (slice_index starts.items)) }
{
    let mut starts = vec![in alloc; 0; loads.len() + 1]?;
    write_starts(loads, limit, &mut starts);
    Ok(starts)
}

// Writes these starts.
fn write_starts(loads: &[Units], limit: u64, starts: &mut [u32])
    requires valid { IsLoads loads.now }
    requires room { length starts.old ≡ length loads.now + 1 }
    requires first { slice_index starts.old 0 ≡ 0 }
    ensures starts { AreStarts loads.now limit (slice_index starts.new) }
{
    let mut window = Window {
        start: 0,
        weight: 0,
    };
    for end in 0..loads.len() {
        window = slid(loads, window, end, limit);
        starts[end + 1] = window.start as u32;
    }
}
