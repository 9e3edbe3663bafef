//! The PE on which each element begins.

ghost use Rattle.std.specs.Prelude.{◌≡◌, ◌*◌, ◌/◌, ◌<◌, ◌≤◌};

use crate::index::Index;
use crate::limits::Limits;
use crate::pe::Pe;

/// The PE on which element `i` of `n` begins, with `p` PEs: `i * p / n`, rounded down. So each PE begins with a
/// run of elements, and the runs differ in length by one at most.
pub fn opening_pe(i: Index, n: u32, p: u32) -> Pe
    requires element { i < n }
    requires elements { n ≤ Limits.ELEMENTS }
    requires some_pe { 1 ≤ p }
    requires pes { p ≤ Limits.PES }
    ensures place { result ≡ i * p / n }
{
    Pe::new(i.get() * p / n).unwrap()
}
