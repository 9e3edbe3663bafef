//! The tree of a reduction.

ghost use Rattle.std.specs.Prelude.{◌≡◌, ℕ, ◌<◌, ◌≤◌};
ghost use Rattle.chare_index.specs.declared.limits.TheConstants.Limits.{ELEMENTS};
ghost use Rattle.reductions.specs.Trees.{SLOTS, has_child, parent, slot};

use chare_index::Index;

/// How many slots a node has.
pub(crate) const SLOTS: u8 = 16;

/// The slot that an element has in its parent.
pub(crate) fn slot(me: Index) -> u8
    ensures value { result ≡ slot me }
    ensures few { result ≤ SLOTS }
{
    (me.get() as u16).trailing_zeros() as u8
}

/// The parent of an element that is not element 0.
pub(crate) fn parent(me: Index) -> Index
    ensures value { result ≡ parent me }
    ensures before { result ≤ me }
{
    let width = 1u32 << slot(me);
    Index::new(me.get().saturating_sub(width)).unwrap()
}

/// Whether an element has a child in a slot, among this many elements.
pub(crate) fn has_child(n: u32, me: Index, in_slot: u8) -> bool
    requires slot { in_slot < SLOTS }
    ensures value { result ≡ has_child n me in_slot }
{
    in_slot < slot(me) && me.get() + (1u32 << in_slot) < n
}
