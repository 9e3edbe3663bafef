//! The node of an element in the tree of a reduction.

ghost use Rattle.std.specs.Prelude.{◌≡◌, ◌++◌, ◌∷◌, [], ◌<◌, ◌≤◌, Bool, true, false, length, OnErr, OnOk, IfSome, IsNone, ◌↔◌, Some, None};
ghost use Rattle.reductions.specs.NodePacks.{is_node, of_parts};
ghost use Rattle.reductions.specs.Nodes.{contributed, emptied, gathered, is_full, opening_node, part_in, with_more, with_part, with_waits};
ghost use Rattle.reductions.specs.Trees.{SLOTS};

use crate::combines::Combines;
use crate::tree::{self, has_child, slot};
use chare_index::Index;
use pup_pack::{Fields, Items, Pup, PupError};
use std::alloc::{AllocError, Allocator, Global};
use std::marker::Model;
use std::mem::replace;

/// A part: the value of a child's subtree, with the slot of that child.
pub(crate) type Part<V> = (u8, V);

/// What an element keeps of the reduction that is under way. Contracts see it as the record `NodeView`.
#[derive(Drop)]
pub(crate) struct Node<V, A: Allocator = Global> {
    own: Option<V>,
    parts: Items<Part<V>, A>,
    waits: bool,
}

impl<V, A: Allocator> Model for Node<V, A> {
    ghost use Rattle.std.specs.Prelude.{◌≡◌, true};
    ghost use Rattle.reductions.specs.NodePacks.{is_node};
    ghost use Rattle.reductions.specs.Nodes.{NodeView};

    ghost Value = { NodeView V };

    ghost view = { λ node. record { own = node.own; parts = node.parts; waits = node.waits } };

    ghost invariant = { λ node. is_node (record { own = node.own; parts = node.parts; waits = node.waits }) ≡ true };
}

/// The fields of a node, as they are packed.
type Fielded<V, A> = (Option<V>, (Items<Part<V>, A>, bool));

impl<V, A: Allocator> Node<V, A> {
    /// A node with nothing in it.
    pub(crate) fn opening(alloc: A) -> Self
        ensures value { result ≡ opening_node }
    {
        Node {
            own: None,
            parts: Items::new(Vec::new(alloc)),
            waits: false,
        }
    }

    /// Whether the element has contributed and not got the result.
    pub(crate) fn waits(&self) -> bool
        ensures value { result ≡ self.now.waits }
    {
        self.waits
    }

    /// Whether all its places for parts are taken.
    pub(crate) fn is_full(&self) -> bool
        ensures value { result ≡ is_full self.now }
    {
        self.parts.as_slice().len() >= tree::SLOTS as usize
    }

    /// Keeps a part for which there is a place.
    pub(crate) fn push(&mut self, part: Part<V>) -> Result<(), AllocError>
    where
        V: Drop,
        requires room { is_full self.old ≡ false }
        ensures ok { OnOk result (self.new ≡ with_part self.old part) }
        ensures err { OnErr result (self.new ≡ self.old) }
    {
        match self.parts.push(part) {
            Ok(()) => Ok(()),
            Err(_) => Err(AllocError),
        }
    }

    /// Forgets what has gone on. The memory of the parts stays for those of the next reduction.
    pub(crate) fn empty(&mut self, alloc: A)
    where
        V: Drop,
        ensures value { self.new ≡ emptied self.old }
    {
        self.own = None;
        if self.parts.as_slice().is_empty() {
            return;
        }
        let mut parts = replace(&mut self.parts, Items::new(Vec::new(alloc))).into_vec();
        parts.clear();
        self.parts = Items::new(parts);
    }

    // The node with these fields, or `None` past the slots.
    fn of_parts(parts: Fielded<V, A>) -> Option<Self>
    where
        V: Drop,
        ensures value { IfSome result (λ node. node ≡ of_parts parts) }
        ensures refused { IsNone result ↔ (is_node (of_parts parts) ≡ false) }
    {
        let (own, (parts, waits)) = parts;
        if parts.as_slice().len() > tree::SLOTS as usize {
            return None;
        }
        Some(Node { own, parts, waits })
    }
}

impl<A: Allocator + Copy, V: Combines<A>> Pup<A> for Node<V, A> {
    ghost use Rattle.std.specs.Prelude.{◌≡◌, true};
    ghost use Rattle.pup_pack.specs.Packing.{trips_by};
    ghost use Rattle.pup_pack.specs.Structs.{made, judged};
    ghost use Rattle.reductions.specs.NodePacks.{is_node, node_trips, of_parts, parts_of};

    ghost fits = { λ node. ⟦<Fielded<V, A> as Pup<A>>⟧.fits (parts_of node) × (is_node node ≡ true) };

    ghost counted = { λ node. ⟦<Fielded<V, A> as Pup<A>>⟧.counted (parts_of node) };

    ghost pack = { λ node. ⟦<Fielded<V, A> as Pup<A>>⟧.pack (parts_of node) };

    ghost unpack = { λ bytes. judged is_node (made of_parts (⟦<Fielded<V, A> as Pup<A>>⟧.unpack bytes)) };

    ghost round_trip = { (node_trips (trips_by V.fits V.counted V.pack V.unpack V.round_trip)).trip };

    fn packed_len(&self) -> u32 {
        Fields::<A>::fields_len(&(&self.own, (&self.parts, &self.waits)))
    }

    fn pack_into(&self, out: &mut Vec<u8, A>) -> Result<(), PupError> {
        (&self.own, (&self.parts, &self.waits)).pack_fields(out)
    }

    fn unpack(alloc: A, bytes: &[u8]) -> Result<(Node<V, A>, usize), PupError> {
        let (parts, len) = <Fielded<V, A> as Pup<A>>::unpack(alloc, bytes)?;
        let node = Node::of_parts(parts).ok_or(PupError::Bad)?;
        Ok((node, len))
    }
}

impl<A: Allocator + Copy, V: Combines<A>> Node<V, A> {
    /// The value of the subtree of an element, where this is its own contribution and this part is there beside those that came, or
    /// `None` while one is missing.
    #[tactic(auto, using(crate::proofs::Nodes::gathered_none, crate::proofs::Nodes::gathered_more, crate::proofs::Nodes::without_own, crate::proofs::Nodes::without_part))]
    pub(crate) fn whole(
        &self,
        n: u32,
        me: Index,
        own: Option<V>,
        more: Option<Part<V>>,
    ) -> Option<V>
        ensures value { result ≡ gathered V.combined n me own (with_more self.now.parts more) SLOTS }
    {
        let Some(mut value) = own else {
            return None;
        };
        for in_slot in 0..slot(me) {
            if has_child(n, me, in_slot) {
                let Some(part) = found(self.parts.as_slice(), more, in_slot) else {
                    return None;
                };
                value = value.combine(part);
            }
        }
        Some(value)
    }

    /// The value of its subtree with one more part.
    pub(crate) fn whole_with(&self, n: u32, me: Index, part: Part<V>) -> Option<V>
        ensures value { result ≡ gathered V.combined n me self.now.own (self.now.parts ++ part ∷ []) SLOTS }
    {
        self.whole(n, me, self.own, Some(part))
    }

    /// What goes on from an element with this contribution, where it waits for a result or not.
    pub(crate) fn plan(&self, n: u32, me: Index, waits: bool, contribution: Option<V>) -> Option<V>
        ensures value { result ≡ (contributed V.combined n me (with_waits self.now waits) contribution).goes_on }
    {
        if waits || contribution.is_none() {
            return None;
        }
        self.whole(n, me, contribution, None)
    }

    /// Takes the contribution, of which this goes on.
    pub(crate) fn take(
        &mut self,
        alloc: A,
        n: u32,
        me: Index,
        waits: bool,
        contribution: Option<V>,
        goes_on: Option<V>,
    )
        requires planned { goes_on ≡ (contributed V.combined n me (with_waits self.old waits) contribution).goes_on }
        ensures value { self.new ≡ (contributed V.combined n me (with_waits self.old waits) contribution).node }
    {
        self.waits = waits || contribution.is_some();
        if waits || contribution.is_none() {
            return;
        }
        if goes_on.is_some() {
            self.empty(alloc);
        } else {
            self.own = contribution;
        }
    }
}

// The part in a slot, among these and then this one.
#[tactic(auto, using(crate::proofs::Nodes::part_first, crate::proofs::Nodes::part_later))]
fn found<V: Copy>(parts: &[Part<V>], more: Option<Part<V>>, in_slot: u8) -> Option<V>
    ensures value { result ≡ part_in in_slot (with_more parts.now more) }
{
    if let Some(value) = part_in(parts, in_slot) {
        return Some(value);
    }
    match more {
        Some(part) if part.0 == in_slot => Some(part.1),
        _ => None,
    }
}

// The part in a slot, the first where there are several.
fn part_in<V: Copy>(parts: &[Part<V>], in_slot: u8) -> Option<V>
    ensures value { result ≡ part_in in_slot parts.now }
{
    for part in parts {
        if part.0 == in_slot {
            return Some(part.1);
        }
    }
    None
}
