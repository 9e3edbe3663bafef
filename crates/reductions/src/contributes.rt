//! The trait of a chare that takes part in reductions.

ghost use Rattle.std.specs.Prelude.{◌≡◌, ◌≢◌, ℕ, ◌+◌, ◌<◌, ◌≤◌, List, length, IfErr, IfOk, OnOk};
ghost use Rattle.chare_index.specs.declared.limits.TheConstants.Limits.{STATE_BYTES};
ghost use Rattle.chares.specs.Posting.{posted};
ghost use Rattle.chares.specs.declared.sends.SendError.{SendError};
ghost use Rattle.chares.specs.declared.sends.SendError.TheVariants.{OutOfMemory};
ghost use Rattle.messages.specs.Messages.{letters};
ghost use Rattle.reductions.specs.declared.contributes.Input.{Input};
ghost use Rattle.reductions.specs.Reactions.{NODE_BYTES, Reaction};
ghost use Rattle.reductions.specs.TreeMessages.{user_pack};

use crate::combines::Combines;
use chare_index::{Gate, Limits, Round};
use chares::{Effect, Here, SendError, Sends};
use pup_pack::Pup;
use std::alloc::Allocator;

/// What a chare is given to react to, as its step takes it.
#[derive(Drop)]
pub enum Input<M, V> {
    /// It goes on after this round, or starts where it is 0.
    Resumed(Round),
    /// A message.
    Message(M),
    /// The result of a reduction.
    Reduced(V),
}

/// What a chare makes of what it is given.
#[derive(Drop)]
pub struct Reacted<D, V> {
    /// What changes in its state.
    pub change: D,
    /// What its handler returns.
    pub effect: Effect,
    /// What it contributes to the next reduction, if it does. A contribution is passed over while the chare waits for the result of its
    /// last one; it may contribute again in reaction to that result.
    pub contribution: Option<V>,
}

/// An object of the chare array that takes part in reductions. It is a chare with messages, [`messages::Receives`], by
/// [`Reducing`](crate::Reducing), and its contract is that of one, in two halves: [`on_resume`](Contributes::on_resume),
/// [`on_message`](Contributes::on_message) and [`on_result`](Contributes::on_result) read the state and post messages, and
/// [`apply`](Contributes::apply) changes the state and cannot fail. So the part that a contribution makes is posted, or refused, before
/// anything changes.
///
/// Every element has to contribute to each reduction. Its result comes to each by [`on_result`](Contributes::on_result).
pub trait Contributes<A: Allocator>: Pup<A> + Drop {
    /// What its letters say. They are posted by [`send`](crate::send) and [`send_to_all`](crate::send_to_all).
    type Message: Pup<A> + Drop;

    /// What it contributes.
    type Value: Combines<A>;

    /// What changes in its state.
    type Change: Drop;

    /// The step: from the state, the index of the element, the number of elements, and what it is given.
    ghost step: { Self → ℕ → ℕ → Input Self.Message Self.Value → Reaction Self Self.Message Self.Value };

    /// The state with a change.
    ghost changed: { Self → Self.Change → Self };

    /// Where it may return an error other than out of memory: from the state, the index of the element, the number of elements, how many
    /// letters the PE has posted, and what it is given.
    ghost refuses: { Self → ℕ → ℕ → ℕ → Input Self.Message Self.Value → SendError → Type 0 };

    /// Reacts to a resumption after this round, or to the start where it is 0: posts messages, and returns what is to change in the state.
    fn on_resume<G: Gate, P: Drop>(
        &self,
        here: &Here<'_, G>,
        round: Round,
        sends: &mut Sends<P, A>,
    ) -> Result<Reacted<Self::Change, Self::Value>, SendError>
        requires member { here.now.me < here.now.n }
        requires few { here.now.n ≤ Limits.ELEMENTS }
        requires same_array { sends.old.n ≡ here.now.n }
        ensures state { IfOk result (λ r. changed self.now r.change ≡ (step self.now here.now.me here.now.n (Input.Resumed round)).state) }
        ensures effect { IfOk result (λ r. r.effect ≡ (step self.now here.now.me here.now.n (Input.Resumed round)).effect) }
        ensures contribution { IfOk result (λ r. r.contribution ≡ (step self.now here.now.me here.now.n (Input.Resumed round)).contribution) }
        ensures sends { OnOk result (sends.new ≡ posted sends.old (letters (user_pack Self.Message.pack) (step self.now here.now.me here.now.n (Input.Resumed round)).sends)) }
        ensures refused { IfErr result (λ e. e ≢ OutOfMemory → refuses self.now here.now.me here.now.n sends.old.count (Input.Resumed round) e) }
        ensures only_posts { (out : List (ℕ × List ℕ)) × (sends.new ≡ posted sends.old out) };

    /// Reacts to a message.
    fn on_message<G: Gate, P: Drop>(
        &self,
        here: &Here<'_, G>,
        message: Self::Message,
        sends: &mut Sends<P, A>,
    ) -> Result<Reacted<Self::Change, Self::Value>, SendError>
        requires member { here.now.me < here.now.n }
        requires few { here.now.n ≤ Limits.ELEMENTS }
        requires same_array { sends.old.n ≡ here.now.n }
        ensures state { IfOk result (λ r. changed self.now r.change ≡ (step self.now here.now.me here.now.n (Input.Message message)).state) }
        ensures effect { IfOk result (λ r. r.effect ≡ (step self.now here.now.me here.now.n (Input.Message message)).effect) }
        ensures contribution { IfOk result (λ r. r.contribution ≡ (step self.now here.now.me here.now.n (Input.Message message)).contribution) }
        ensures sends { OnOk result (sends.new ≡ posted sends.old (letters (user_pack Self.Message.pack) (step self.now here.now.me here.now.n (Input.Message message)).sends)) }
        ensures refused { IfErr result (λ e. e ≢ OutOfMemory → refuses self.now here.now.me here.now.n sends.old.count (Input.Message message) e) }
        ensures only_posts { (out : List (ℕ × List ℕ)) × (sends.new ≡ posted sends.old out) };

    /// Reacts to the result of a reduction.
    fn on_result<G: Gate, P: Drop>(
        &self,
        here: &Here<'_, G>,
        value: Self::Value,
        sends: &mut Sends<P, A>,
    ) -> Result<Reacted<Self::Change, Self::Value>, SendError>
        requires member { here.now.me < here.now.n }
        requires few { here.now.n ≤ Limits.ELEMENTS }
        requires same_array { sends.old.n ≡ here.now.n }
        ensures state { IfOk result (λ r. changed self.now r.change ≡ (step self.now here.now.me here.now.n (Input.Reduced value)).state) }
        ensures effect { IfOk result (λ r. r.effect ≡ (step self.now here.now.me here.now.n (Input.Reduced value)).effect) }
        ensures contribution { IfOk result (λ r. r.contribution ≡ (step self.now here.now.me here.now.n (Input.Reduced value)).contribution) }
        ensures sends { OnOk result (sends.new ≡ posted sends.old (letters (user_pack Self.Message.pack) (step self.now here.now.me here.now.n (Input.Reduced value)).sends)) }
        ensures refused { IfErr result (λ e. e ≢ OutOfMemory → refuses self.now here.now.me here.now.n sends.old.count (Input.Reduced value) e) }
        ensures only_posts { (out : List (ℕ × List ℕ)) × (sends.new ≡ posted sends.old out) };

    /// Changes the state.
    fn apply(&mut self, change: Self::Change)
        ensures state { self.new ≡ changed self.old change };

    /// Every value packs, and leaves room for 1,024 bytes.
    ghost packs: { (s : Self) → Self.fits s → Self.counted s × (length (Self.pack s) + NODE_BYTES ≤ STATE_BYTES) };
}
