//! Turns a chare that takes part in reductions into a chare with messages. The elements form a tree.

ghost use Rattle.std.specs.Prelude.{◌≡◌, ◌≢◌, ◌⊎◌, ℕ, ◌+◌, ◌<◌, ◌≤◌, ◌∷◌, [], List, length, IfErr, IfOk, OnErr, OnOk};
ghost use Rattle.chare_index.specs.declared.limits.TheConstants.Limits.{BODY_BYTES, ELEMENTS, LETTERS};
ghost use Rattle.chares.specs.Posting.{posted};
ghost use Rattle.chares.specs.declared.sends.SendError.TheVariants.{OutOfMemory, Worn};
ghost use Rattle.messages.specs.Messages.{letters, to_all};
ghost use Rattle.reductions.specs.Combining.{VALUE_BYTES};
ghost use Rattle.reductions.specs.Nodes.{opening_node};
ghost use Rattle.reductions.specs.Stepping.{gets_part, no_work, passed_on, reacts, waiting};
ghost use Rattle.reductions.specs.TreeMessages.{tree_pack, user_pack};

use crate::combines::Combines;
use crate::contributes::{Contributes, Input, Reacted};
use crate::node::{Node, Part};
use crate::tree::{parent, slot};
use crate::tree_message::TreeMessage;
use chare_index::{Gate, Index, Round};
use chares::{Effect, Here, SendError, Sends};
use messages::{Receives, broadcast, post};
use pup_pack::{Fields, Pup, PupError};
use std::alloc::{Allocator, Global};
use std::marker::Model;

/// A chare that takes part in reductions, as a chare with messages. With [`messages::Typed`] it is a chare of a run. Contracts see it as the
/// record `ReducingView`.
///
/// Each element is a node of a tree. Its value is its own contribution, and then the parts of its children, which are the values of their
/// subtrees. Once all of them are there, the value goes to the element's parent as a part, or from element 0 to all elements as the result.
/// So a reduction of n elements takes 2 n - 1 letters. An element may move between PEs meanwhile: what it has of a reduction moves with it.
#[derive(Drop)]
pub struct Reducing<C: Contributes<A>, A: Allocator = Global> {
    chare: C,
    node: Node<C::Value, A>,
}

impl<C: Contributes<A>, A: Allocator> Model for Reducing<C, A> {
    ghost use Rattle.reductions.specs.Stepping.{ReducingView};

    ghost Value = { ReducingView C C.Value };

    ghost view = { λ r. record { chare = r.chare; node = r.node } };
}

impl<A: Allocator, C: Contributes<A>> Reducing<C, A> {
    /// A chare that has contributed nothing yet.
    pub fn new(alloc: A, chare: C) -> Self
        ensures value { result ≡ record { chare = chare; node = opening_node } }
    {
        Reducing {
            chare,
            node: Node::opening(alloc),
        }
    }

    /// The chare.
    pub fn chare(&self) -> &C
        ensures value { result.now ≡ self.now.chare }
    {
        &self.chare
    }

    /// The chare, by value.
    pub fn into_chare(self) -> C
        ensures value { result ≡ self.chare }
    {
        self.chare
    }

    /// Whether the element has contributed to a reduction whose result it has not got.
    pub fn waits(&self) -> bool
        ensures value { result ≡ self.now.node.waits }
    {
        self.node.waits()
    }
}

impl<A: Allocator + Copy, C: Contributes<A>> Pup<A> for Reducing<C, A> {
    ghost use Rattle.std.specs.Prelude.{refl};
    ghost use Rattle.pup_pack.specs.Packing.{trips_by};
    ghost use Rattle.pup_pack.specs.Structs.{made};
    ghost use Rattle.pup_pack.specs.Trips.{pair_trips, struct_trips};
    ghost use Rattle.reductions.specs.NodePacks.{node_trips};

    ghost fits = { λ r. C.fits r.chare × ⟦<Node<C::Value, A> as Pup<A>>⟧.fits r.node };

    ghost counted = { λ r. C.counted r.chare × ⟦<Node<C::Value, A> as Pup<A>>⟧.counted r.node };

    ghost pack = { λ r. ⟦<(C, Node<C::Value, A>) as Pup<A>>⟧.pack (r.chare, r.node) };

    ghost unpack = { λ bytes. made (λ x. record { chare = x.0; node = x.1 }) (⟦<(C, Node<C::Value, A>) as Pup<A>>⟧.unpack bytes) };

    ghost round_trip = { (struct_trips (λ r. (r.chare, r.node)) (λ x. record { chare = x.0; node = x.1 }) (λ _. refl)
        (pair_trips (trips_by C.fits C.counted C.pack C.unpack C.round_trip)
        (node_trips (trips_by C.Value.fits C.Value.counted C.Value.pack C.Value.unpack C.Value.round_trip)))).trip };

    fn packed_len(&self) -> u32 {
        Fields::<A>::fields_len(&(&self.chare, &self.node))
    }

    fn pack_into(&self, out: &mut Vec<u8, A>) -> Result<(), PupError> {
        (&self.chare, &self.node).pack_fields(out)
    }

    fn unpack(alloc: A, bytes: &[u8]) -> Result<(Reducing<C, A>, usize), PupError> {
        let ((chare, node), len) = <(C, Node<C::Value, A>) as Pup<A>>::unpack(alloc, bytes)?;
        Ok((Reducing { chare, node }, len))
    }
}

impl<A: Allocator + Copy, C: Contributes<A>> Reducing<C, A> {
    // The chare reacts, where it waits for a result or not, and its contribution goes its way.
    #[tactic(auto, using(crate::proofs::Letters::worn_in_all))]
    fn react<G: Gate, P: Drop>(
        &mut self,
        here: &Here<'_, G>,
        input: Input<C::Message, C::Value>,
        waits: bool,
        sends: &mut Sends<P, A>,
    ) -> Result<Effect, SendError>
        requires member { here.now.me < here.now.n }
        requires few { here.now.n ≤ ELEMENTS }
        requires same_array { sends.old.n ≡ here.now.n }
        ensures state { OnOk result (self.new ≡ (reacts C.step C.Value.combined (waiting self.old waits) here.now.me here.now.n input).state) }
        ensures effect { IfOk result (λ e. e ≡ (reacts C.step C.Value.combined (waiting self.old waits) here.now.me here.now.n input).effect) }
        ensures sends { OnOk result (sends.new ≡ posted sends.old (letters (tree_pack C.Message.pack C.Value.pack)
            (reacts C.step C.Value.combined (waiting self.old waits) here.now.me here.now.n input).sends)) }
        ensures err { OnErr result (self.new ≡ self.old) }
        ensures refused { IfErr result (λ e. e ≢ OutOfMemory → C.refuses self.old.chare here.now.me here.now.n sends.old.count input e
            ⊎ ((e ≡ Worn) × (LETTERS < sends.old.count + length (reacts C.step C.Value.combined (waiting self.old waits) here.now.me here.now.n input).sends))) }
        ensures only_posts { (out : List (ℕ × List ℕ)) × (sends.new ≡ posted sends.old out) }
    {
        let reacted = given(&self.chare, here, input, sends)?;
        let contribution = reacted.contribution;
        let goes_on = self.node.plan(here.n, here.me, waits, contribution);
        if let Err(error) = pass_on::<C::Message, C::Value, P, A>(sends, here.me, goes_on) {
            return Err(error);
        }
        let alloc = sends.allocator();
        self.node
            .take(alloc, here.n, here.me, waits, contribution, goes_on);
        self.chare.apply(reacted.change);
        Ok(reacted.effect)
    }

    // A part comes.
    fn get_part<G: Gate, P: Drop>(
        &mut self,
        here: &Here<'_, G>,
        part: Part<C::Value>,
        sends: &mut Sends<P, A>,
    ) -> Result<Effect, SendError>
        requires member { here.now.me < here.now.n }
        requires few { here.now.n ≤ ELEMENTS }
        requires same_array { sends.old.n ≡ here.now.n }
        ensures state { OnOk result (self.new ≡ (gets_part C.step C.Value.combined self.old here.now.me here.now.n part).state) }
        ensures effect { IfOk result (λ e. e ≡ no_work) }
        ensures sends { OnOk result (sends.new ≡ posted sends.old (letters (tree_pack C.Message.pack C.Value.pack)
            (gets_part C.step C.Value.combined self.old here.now.me here.now.n part).sends)) }
        ensures err { OnErr result (self.new ≡ self.old) }
        ensures refused { IfErr result (λ e. e ≢ OutOfMemory → (e ≡ Worn)
            × (LETTERS < sends.old.count + length (gets_part C.step C.Value.combined self.old here.now.me here.now.n part).sends)) }
        ensures only_posts { (out : List (ℕ × List ℕ)) × (sends.new ≡ posted sends.old out) }
    {
        if self.node.is_full() {
            return Ok(no_work());
        }
        let goes_on = self.node.whole_with(here.n, here.me, part);
        if goes_on.is_none() {
            self.node.push(part)?;
            return Ok(no_work());
        }
        if let Err(error) = pass_on::<C::Message, C::Value, P, A>(sends, here.me, goes_on) {
            return Err(error);
        }
        self.node.empty(sends.allocator());
        Ok(no_work())
    }
}

impl<A: Allocator + Copy, C: Contributes<A>> Receives<A> for Reducing<C, A> {
    ghost use Rattle.reductions.specs.NodePacks.{reducing_packs};
    ghost use Rattle.reductions.specs.Stepping.{ReducingRefuses, reducing_step};

    type Message = TreeMessage<C::Message, C::Value>;

    ghost step = { reducing_step C.step C.Value.combined };

    ghost refuses = { ReducingRefuses C.step C.Value.combined C.refuses };

    ghost packs = { reducing_packs C.Value.fits C.Value.counted C.Value.pack C.Value.small C.fits C.counted C.pack C.packs };

    fn on_message<G: Gate, P: Drop>(
        &mut self,
        here: &Here<'_, G>,
        message: TreeMessage<C::Message, C::Value>,
        sends: &mut Sends<P, A>,
    ) -> Result<Effect, SendError> {
        match message {
            TreeMessage::User(message) => {
                let waits = self.node.waits();
                self.react(here, Input::Message(message), waits, sends)
            }
            TreeMessage::Part(in_slot, value) => self.get_part(here, (in_slot, value), sends),
            TreeMessage::Whole(value) => self.react(here, Input::Reduced(value), false, sends),
        }
    }

    fn on_resume<G: Gate, P: Drop>(
        &mut self,
        here: &Here<'_, G>,
        round: Round,
        sends: &mut Sends<P, A>,
    ) -> Result<Effect, SendError> {
        let waits = self.node.waits();
        self.react(here, Input::Resumed(round), waits, sends)
    }
}

// Gives a chare what it reacts to.
fn given<G: Gate, P: Drop, C: Contributes<A>, A: Allocator>(
    chare: &C,
    here: &Here<'_, G>,
    input: Input<C::Message, C::Value>,
    sends: &mut Sends<P, A>,
) -> Result<Reacted<C::Change, C::Value>, SendError>
    requires member { here.now.me < here.now.n }
    requires few { here.now.n ≤ ELEMENTS }
    requires same_array { sends.old.n ≡ here.now.n }
    ensures state { IfOk result (λ r. C.changed chare.now r.change ≡ (C.step chare.now here.now.me here.now.n input).state) }
    ensures effect { IfOk result (λ r. r.effect ≡ (C.step chare.now here.now.me here.now.n input).effect) }
    ensures contribution { IfOk result (λ r. r.contribution ≡ (C.step chare.now here.now.me here.now.n input).contribution) }
    ensures sends { OnOk result (sends.new ≡ posted sends.old (letters (user_pack C.Message.pack) (C.step chare.now here.now.me here.now.n input).sends)) }
    ensures refused { IfErr result (λ e. e ≢ OutOfMemory → C.refuses chare.now here.now.me here.now.n sends.old.count input e) }
    ensures only_posts { (out : List (ℕ × List ℕ)) × (sends.new ≡ posted sends.old out) }
{
    match input {
        Input::Resumed(round) => chare.on_resume(here, round, sends),
        Input::Message(message) => chare.on_message(here, message, sends),
        Input::Reduced(value) => chare.on_result(here, value, sends),
    }
}

// Sends a value on from an element, if it is whole: from element 0 to all as the result, and from any other to its parent as a part.
fn pass_on<M: Pup<A> + Drop, V: Combines<A>, P: Drop, A: Allocator + Copy>(
    sends: &mut Sends<P, A>,
    me: Index,
    goes_on: Option<V>,
) -> Result<(), SendError>
    requires member { me < sends.old.n }
    requires few { sends.old.n ≤ ELEMENTS }
    ensures ok { OnOk result (sends.new ≡ posted sends.old (letters (tree_pack M.pack V.pack) (passed_on sends.old.n me goes_on))) }
    ensures refused { IfErr result (λ e. e ≢ OutOfMemory → (e ≡ Worn) × (LETTERS < sends.old.count + length (passed_on {M = M} sends.old.n me goes_on))) }
    ensures only_posts { (out : List (ℕ × List ℕ)) × (sends.new ≡ posted sends.old out) }
{
    let Some(value) = goes_on else {
        return Ok(());
    };
    is_small(&value);
    if me.get() == 0 {
        let message: TreeMessage<M, V> = TreeMessage::Whole(value);
        return tell_all(sends, &message);
    }
    let message: TreeMessage<M, V> = TreeMessage::Part(slot(me), value);
    tell(sends, parent(me), &message)
}

// A value packs into few bytes.
fn is_small<V: Combines<A>, A: Allocator>(value: &V)
    ensures counted { V.counted value.now }
    ensures few { length (V.pack value.now) ≤ VALUE_BYTES }
{
    let _len = value.packed_len();
}

// Posts a short message to an element.
#[tactic(auto, using(crate::proofs::Letters::post_worn))]
fn tell<T: Pup<A>, P: Drop, A: Allocator + Copy>(
    sends: &mut Sends<P, A>,
    to: Index,
    message: &T,
) -> Result<(), SendError>
    requires known { to < sends.old.n }
    requires counted { T.counted message.now }
    requires short { length (T.pack message.now) ≤ BODY_BYTES }
    ensures ok { OnOk result (sends.new ≡ posted sends.old (letters T.pack ((to, message.now) ∷ []))) }
    ensures refused { IfErr result (λ e. e ≢ OutOfMemory → (e ≡ Worn) × (LETTERS < sends.old.count + 1)) }
    ensures only_posts { (out : List (ℕ × List ℕ)) × (sends.new ≡ posted sends.old out) }
{
    let _longest = sends.longest().get();
    post(sends, to, message)
}

// Posts a short message to all elements.
fn tell_all<T: Pup<A>, P: Drop, A: Allocator + Copy>(
    sends: &mut Sends<P, A>,
    message: &T,
) -> Result<(), SendError>
    requires few { sends.old.n ≤ ELEMENTS }
    requires counted { T.counted message.now }
    requires short { length (T.pack message.now) ≤ BODY_BYTES }
    ensures ok { OnOk result (sends.new ≡ posted sends.old (letters T.pack (to_all sends.old.n message.now))) }
    ensures refused { IfErr result (λ e. e ≢ OutOfMemory → (e ≡ Worn) × (LETTERS < sends.old.count + length (to_all sends.old.n message.now))) }
    ensures only_posts { (out : List (ℕ × List ℕ)) × (sends.new ≡ posted sends.old out) }
{
    let _longest = sends.longest().get();
    broadcast(sends, message)
}

// A part takes no work.
fn no_work() -> Effect
    ensures value { result ≡ no_work }
{
    Effect {
        units: 0,
        at_sync: false,
        finished: false,
    }
}
