//! Bounds of the least bottleneck of a chain, from its total and its greatest load alone.

ghost use Rattle.std.specs.Prelude.{◌≡◌, ℕ, ◌+◌, ◌-◌, ◌/◌, ◌%◌, ◌≤◌, ◌^◌, List, max, min, sum};
ghost use Rattle.lb_certificates.specs.Chain.{IsLeastPeak};
ghost use Rattle.chain_partition.specs.Search.{Enclose};
ghost use Rattle.merged_chains.specs.Totals.{IsGreatest};

use lb_snapshot::Units;

/// Two limits that enclose the least bottleneck, in work units: no limit below `low` can hold all elements, and `high` can.
#[derive(Clone, Copy, Debug, PartialEq, Eq)]
pub struct Bounds {
    /// The least bottleneck is this or more.
    pub low: u64,
    /// The least bottleneck is this or less.
    pub high: u64,
}

/// Where a search begins that knows only the total of a chain's loads, the greatest of them, and the number of blocks, 1
/// or more: A. Pinar and C. Aykanat, JPDC 64(8), 2004. The heaviest block weighs at least the greatest load and an even
/// share of the total; and with an even share plus the greatest load as the limit, each block that cannot take the next
/// element weighs more than such a share, so not all blocks can be of that kind.
pub fn bounds_by_totals(total: u64, greatest: Units, pes: u32) -> Bounds
    requires some_pe { 1 ≤ pes }
    ensures low { result.low ≡ max greatest (total / pes + min 1 (total % pes)) }
    ensures high { result.high ≡ min (total / pes + greatest) (2 ^ 64 - 1) }
    ensures encloses { (loads : List ℕ) → sum loads ≡ total → IsGreatest loads greatest → Enclose loads pes result.low result.high }
    ensures least { (loads : List ℕ) (least : ℕ) → sum loads ≡ total → IsGreatest loads greatest → IsLeastPeak loads 0 pes least
        → (result.low ≤ least) × (least ≤ result.high) }
{
    let pes = u64::from(pes);
    Bounds {
        low: greatest.max(total.div_ceil(pes)),
        high: (total / pes).saturating_add(greatest),
    }
}
