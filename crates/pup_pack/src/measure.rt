//! Lengths of packs.

ghost use Rattle.std.specs.Prelude.{◌≡◌, ◌+◌, ◌*◌, ◌<◌, ◌≤◌, ℕ};

use chare_index::Limits;

/// The packed length of two parts together, from the length that each part reports: their sum, or 1,048,577 where that is more
/// than 1,048,576.
pub fn both_len(first: u32, second: u32) -> u32
    ensures len { first + second ≤ Limits.STATE_BYTES → result ≡ first + second }
    ensures over { Limits.STATE_BYTES < first + second → result ≡ Limits.STATE_BYTES + 1 }
{
    let both = first.saturating_add(second);
    both.min(Limits::STATE_BYTES + 1)
}

/// The packed length of `count` parts of the same length, from the length that each reports: their product, or 1,048,577 where
/// that is more than 1,048,576.
pub fn all_len(count: usize, each: u32) -> u32
    ensures len { count * each ≤ Limits.STATE_BYTES → result ≡ count * each }
    ensures over { Limits.STATE_BYTES < count * each → result ≡ Limits.STATE_BYTES + 1 }
{
    match (count as u64).checked_mul(each as u64) {
        Some(all) if all <= Limits::STATE_BYTES as u64 => all as u32,
        _ => Limits::STATE_BYTES + 1,
    }
}
