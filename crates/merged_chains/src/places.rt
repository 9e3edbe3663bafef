//! Reads an entry of a list that may be too short.

ghost use Rattle.std.specs.Prelude.{◌≡◌, slice_index};

/// The place with this number, or 0 where the list does not have it.
pub(crate) fn place_of(places: &[u32], number: usize) -> u32
    ensures value { result ≡ slice_index places.now number }
{
    places.get(number).copied().unwrap_or(0)
}
