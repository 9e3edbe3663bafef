//! The PEs that a tree has not scanned, in ascending order at the front of a list, so that a walk over them meets no
//! other.

ghost use Rattle.std.specs.Prelude.{◌≡◌, ℕ, ◌+◌, ◌^◌, ◌<◌, ◌≤◌, length, slice_index};

/// Lists all PEs, as many as there is room for.
pub(crate) fn list_all(pes: &mut [u32])
    requires few { length pes.old ≤ 2 ^ 32 }
    ensures each { (p : ℕ) → p < length pes.new → slice_index pes.new p ≡ p }
{
    for p in 0..pes.len() {
        pes[p] = p as u32;
    }
}

/// Takes out the PE at a place of the first `count`. Those behind it move up by one.
pub(crate) fn take_out(pes: &mut [u32], count: usize, place: usize)
    requires inside { place < count }
    requires within { count ≤ length pes.old }
    ensures before { (i : ℕ) → i < place → slice_index pes.new i ≡ slice_index pes.old i }
    ensures behind { (i : ℕ) → place ≤ i → i + 1 < count → slice_index pes.new i ≡ slice_index pes.old (i + 1) }
{
    pes.copy_within(place + 1..count, place);
}
