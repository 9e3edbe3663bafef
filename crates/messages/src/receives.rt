//! The trait of a chare whose letters are messages of one type.

ghost use Rattle.std.specs.Prelude.{◌≡◌, ◌≢◌, ℕ, ◌<◌, ◌≤◌, List, length, OnOk, OnErr, IfErr, IfOk};
ghost use Rattle.chare_index.specs.declared.limits.TheConstants.Limits.{STATE_BYTES};
ghost use Rattle.chares.specs.Posting.{posted};
ghost use Rattle.chares.specs.declared.entry.Entry.{Entry};
ghost use Rattle.chares.specs.declared.sends.SendError.{SendError};
ghost use Rattle.chares.specs.declared.sends.SendError.TheVariants.{OutOfMemory};
ghost use Rattle.messages.specs.Messages.{MessageOutcome, letters};

use chare_index::{Gate, Limits, Round};
use chares::{Effect, Here, SendError, Sends};
use pup_pack::Pup;
use std::alloc::Allocator;

/// An object of the chare array whose letters are messages of a type. It is a [`Chare`](chares::Chare) by
/// [`Typed`](crate::Typed), and its contract is that of one, with a message in place of a body: one step, and a handler that
/// returns an error leaves its state unchanged. It posts messages by [`post`](crate::post) and [`broadcast`](crate::broadcast).
pub trait Receives<A: Allocator>: Pup<A> + Drop {
    /// What its letters say.
    type Message: Pup<A> + Drop;

    /// The step: from the state, the index of the element, the number of elements, and what it is given.
    ghost step: { Self → ℕ → ℕ → Entry Self.Message → MessageOutcome Self Self.Message };

    /// Where a handler may return an error other than out of memory: from the state, the index of the element, the number of
    /// elements, how many letters the PE has posted, and what the handler is given.
    ghost refuses: { Self → ℕ → ℕ → ℕ → Entry Self.Message → SendError → Type 0 };

    /// Handles a message.
    fn on_message<G: Gate, P: Drop>(
        &mut self,
        here: &Here<'_, G>,
        message: Self::Message,
        sends: &mut Sends<P, A>,
    ) -> Result<Effect, SendError>
        requires member { here.now.me < here.now.n }
        requires few { here.now.n ≤ Limits.ELEMENTS }
        requires same_array { sends.old.n ≡ here.now.n }
        ensures state { OnOk result (self.new ≡ (step self.old here.now.me here.now.n (Entry.Letter message)).state) }
        ensures effect { IfOk result (λ e. e ≡ (step self.old here.now.me here.now.n (Entry.Letter message)).effect) }
        ensures sends { OnOk result (sends.new ≡ posted sends.old (letters Self.Message.pack (step self.old here.now.me here.now.n (Entry.Letter message)).sends)) }
        ensures err { OnErr result (self.new ≡ self.old) }
        ensures refused { IfErr result (λ e. e ≢ OutOfMemory → refuses self.old here.now.me here.now.n sends.old.count (Entry.Letter message) e) }
        ensures only_posts { (out : List (ℕ × List ℕ)) × (sends.new ≡ posted sends.old out) };

    /// Goes on after this round, or starts where it is 0.
    fn on_resume<G: Gate, P: Drop>(
        &mut self,
        here: &Here<'_, G>,
        round: Round,
        sends: &mut Sends<P, A>,
    ) -> Result<Effect, SendError>
        requires member { here.now.me < here.now.n }
        requires few { here.now.n ≤ Limits.ELEMENTS }
        requires same_array { sends.old.n ≡ here.now.n }
        ensures state { OnOk result (self.new ≡ (step self.old here.now.me here.now.n (Entry.Resumption round)).state) }
        ensures effect { IfOk result (λ e. e ≡ (step self.old here.now.me here.now.n (Entry.Resumption round)).effect) }
        ensures sends { OnOk result (sends.new ≡ posted sends.old (letters Self.Message.pack (step self.old here.now.me here.now.n (Entry.Resumption round)).sends)) }
        ensures err { OnErr result (self.new ≡ self.old) }
        ensures refused { IfErr result (λ e. e ≢ OutOfMemory → refuses self.old here.now.me here.now.n sends.old.count (Entry.Resumption round) e) }
        ensures only_posts { (out : List (ℕ × List ℕ)) × (sends.new ≡ posted sends.old out) };

    /// Every value packs.
    ghost packs: { (s : Self) → Self.fits s → Self.counted s × (length (Self.pack s) ≤ STATE_BYTES) };
}
