//! Where an element runs, by cuts and names.

ghost use Rattle.std.specs.Prelude.{◌≡◌};
ghost use Rattle.std.specs.List.Sorted.{IsNonDecreasing};
ghost use Rattle.lb_certificates.specs.Naming.{block_of};

/// The block that contains element `i`: the one before the first cut above it, found by binary search.
pub fn block_around(cuts: &[u32], i: u32) -> usize
    requires ordered { IsNonDecreasing cuts.now }
    ensures value { result ≡ block_of cuts.now i }
{
    cuts.partition_point(|&cut| cut <= i).saturating_sub(1)
}
