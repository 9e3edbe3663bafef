//! What a block costs on each PE, its bytes that are elsewhere, where its elements are a list of sizes and one of PEs.

ghost use Rattle.std.specs.Prelude.{◌≡◌, ℕ, ◌*◌, ◌^◌, ◌<◌, ◌≤◌, length, slice_index, sum, sum_by};
ghost use Rattle.std.specs.List.{zip};
ghost use Rattle.lb_certificates.specs.Naming.{moved_bytes};

/// Writes what the block of these elements costs on each of the first PEs: its bytes, less those that are there.
pub(crate) fn write_listed_costs(costs: &mut [u64], bytes: &[u32], places: &[u32])
    requires paired { length places.now ≡ length bytes.now }
    requires few { length bytes.now < 2 ^ 32 }
    ensures { (p : ℕ) → p < length costs.new → slice_index costs.new p ≡ sum_by (λ size. moved_bytes size p) (zip bytes.now places.now) }
{
    costs.fill(listed_bytes(bytes));
    for i in 0..bytes.len() {
        let place = places[i] as usize;
        if place < costs.len() {
            costs[place] -= u64::from(bytes[i]);
        }
    }
}

// The sum of these sizes.
fn listed_bytes(bytes: &[u32]) -> u64
    requires { length bytes.now < 2 ^ 32 }
    ensures { result ≡ sum bytes.now }
{
    let mut total = 0;
    for &size in bytes {
        total += u64::from(size);
    }
    total
}

/// The bytes that move where these elements are to run on this PE.
pub(crate) fn listed_moved_to(bytes: &[u32], places: &[u32], pe: u32) -> u64
    requires paired { length places.now ≡ length bytes.now }
    requires few { length bytes.now < 2 ^ 32 }
    ensures value { result ≡ sum_by (λ size. moved_bytes size pe) (zip bytes.now places.now) }
    ensures small { result ≤ length bytes.now * 2 ^ 32 }
{
    let mut moved = 0;
    for i in 0..bytes.len() {
        moved += u64::from(size_to(bytes[i], places[i], pe));
    }
    moved
}

// The bytes that move where an element of this size on this place is to run on this PE.
fn size_to(bytes: u32, place: u32, pe: u32) -> u32
    ensures { result ≡ moved_bytes (bytes, place) pe }
{
    if place == pe { 0 } else { bytes }
}
