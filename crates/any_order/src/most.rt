//! The PE that has most of a block.

ghost use Rattle.std.specs.Prelude.{◌≡◌, ◌≢◌, ℕ, ◌+◌, ◌<◌, ◌≤◌, ◌^◌, length, slice_index, slice_set};
ghost use Rattle.chare_index.specs.declared.limits.TheConstants.Limits.{PES};
ghost use Rattle.chain_refinement.specs.Refinement.{held_bytes};
ghost use Rattle.any_order.specs.Internal.{IsMost};

use chare_index::Limits;

/// The most bytes of a block on any PE but one, that PE, and the most on any other.
#[derive(Clone, Copy)]
pub(crate) struct Most {
    pub(crate) pe: u32,
    pub(crate) bytes: u64,
    pub(crate) others: u64,
}

impl Most {
    /// Where no PE has any bytes, and the most is on none.
    pub(crate) const NOTHING: Most = Most {
        pe: Limits::PES,
        bytes: 0,
        others: 0,
    };
}

/// The most, where this PE now has this number of bytes.
#[tactic(auto, using(crate::proofs::Mosts::more_on_most, crate::proofs::Mosts::more_than_most, crate::proofs::Mosts::more_on_other))]
pub(crate) fn raised(most: Most, pe: u32, bytes: u64) -> Most
    ensures { (held next : ℕ → ℕ) (own : ℕ) → IsMost held own most → pe ≢ own → next pe ≡ bytes
        → ((other : ℕ) → other ≢ pe → next other ≡ held other) → held pe ≤ bytes → IsMost next own result }
{
    if pe == most.pe {
        return Most {
            pe,
            bytes,
            others: most.others,
        };
    }
    if bytes > most.bytes {
        return Most {
            pe,
            bytes,
            others: most.bytes,
        };
    }
    Most {
        pe: most.pe,
        bytes: most.bytes,
        others: most.others.max(bytes),
    }
}

/// The most, where one more element joins the block.
pub(crate) fn joined(element: (u32, u32), own: u32, kept: &mut [u64], most: Most) -> Most
    requires counted { length kept.old ≡ PES }
    requires in_range { element.1 < PES }
    requires fits { slice_index kept.old element.1 + element.0 < 2 ^ 64 }
    ensures kept { kept.new ≡ slice_set kept.old element.1 (slice_index kept.old element.1 + element.0) }
    ensures most { (held next : ℕ → ℕ) → IsMost held own most → held element.1 ≡ slice_index kept.old element.1
        → ((pe : ℕ) → next pe ≡ held pe + held_bytes element pe) → IsMost next own result }
{
    let (bytes, pe) = element;
    let now = kept[pe as usize] + u64::from(bytes);
    kept[pe as usize] = now;
    if pe == own {
        return most;
    }
    raised(most, pe, now)
}
