//! The traits of a chare: its handlers, what a handler is given and returns, and how a run opens.

ghost use Rattle.std.specs.Prelude.{◌≡◌, ◌≢◌, ℕ, ◌+◌, ◌<◌, ◌≤◌, List, length, OnOk, OnErr, IfErr, IfOk};
ghost use Rattle.chare_index.specs.declared.limits.TheConstants.Limits.{STATE_BYTES};
ghost use Rattle.chares.specs.declared.entry.Entry.{Entry};
ghost use Rattle.chares.specs.declared.sends.SendError.{SendError};
ghost use Rattle.chares.specs.declared.sends.SendError.TheVariants.{OutOfMemory};
ghost use Rattle.chares.specs.Steps.{Outcome};
ghost use Rattle.chares.specs.Posting.{posted};

use crate::entry::Entry;
use crate::sends::{SendError, Sends};
use chare_index::{Gate, Index, Limits, Round};
use lb_snapshot::Units;
use pup_pack::Pup;
use std::alloc::Allocator;
use std::marker::Brand;

/// Where a handler runs.
#[derive(Drop)]
pub struct Here<'a, G: Gate> {
    /// The element whose handler it is.
    pub me: Index,
    /// How many elements the array has.
    pub n: u32,
    /// The gate, which handlers may pass.
    pub gate: &'a G,
}

/// What a handler returns.
#[derive(Clone, Copy, Debug, PartialEq, Eq)]
pub struct Effect {
    /// The work units that it took.
    pub units: Units,
    /// Whether the element is ready to be balanced.
    pub at_sync: bool,
    /// Whether the element has finished. Then `at_sync` is ignored.
    pub finished: bool,
}

/// An object of the chare array. Its contract is one step: the result of a handler, from the state, the index of the
/// element, the number of elements and what the handler is given. A handler that returns an error leaves its state
/// unchanged, and its PE takes back what it had posted. A handler may also pass over a refused send and return Ok,
/// where its step has no such send.
pub trait Chare<A: Allocator>: Pup<A> + Drop {
    /// The step: from the state, the index of the element, the number of elements, and what it is given.
    ghost step: { Self → ℕ → ℕ → Entry (List ℕ) → Outcome Self };

    /// Where a handler may return an error other than out of memory: from the state, the index of the element, the
    /// number of elements, how many letters the PE has posted, and what the handler is given.
    ghost refuses: { Self → ℕ → ℕ → ℕ → Entry (List ℕ) → SendError → Type 0 };

    /// Handles a letter with this body.
    fn on_letter<G: Gate, P: Drop>(
        &mut self,
        here: &Here<'_, G>,
        body: &[u8],
        sends: &mut Sends<P, A>,
    ) -> Result<Effect, SendError>
        requires member { here.now.me < here.now.n }
        requires few { here.now.n ≤ Limits.ELEMENTS }
        requires same_array { sends.old.n ≡ here.now.n }
        ensures state { OnOk result (self.new ≡ (step self.old here.now.me here.now.n (Entry.Letter body.now)).state) }
        ensures effect { IfOk result (λ e. e ≡ (step self.old here.now.me here.now.n (Entry.Letter body.now)).effect) }
        ensures sends { OnOk result (sends.new ≡ posted sends.old (step self.old here.now.me here.now.n (Entry.Letter body.now)).sends) }
        ensures err { OnErr result (self.new ≡ self.old) }
        ensures refused { IfErr result (λ e. e ≢ OutOfMemory → refuses self.old here.now.me here.now.n sends.old.count (Entry.Letter body.now) e) }
        ensures only_posts { (out : List (ℕ × List ℕ)) × (sends.new ≡ posted sends.old out) };

    /// Goes on after this round, or starts where it is 0.
    fn on_resume<G: Gate, P: Drop>(
        &mut self,
        here: &Here<'_, G>,
        round: Round,
        sends: &mut Sends<P, A>,
    ) -> Result<Effect, SendError>
        requires member { here.now.me < here.now.n }
        requires few { here.now.n ≤ Limits.ELEMENTS }
        requires same_array { sends.old.n ≡ here.now.n }
        ensures state { OnOk result (self.new ≡ (step self.old here.now.me here.now.n (Entry.Resumption round)).state) }
        ensures effect { IfOk result (λ e. e ≡ (step self.old here.now.me here.now.n (Entry.Resumption round)).effect) }
        ensures sends { OnOk result (sends.new ≡ posted sends.old (step self.old here.now.me here.now.n (Entry.Resumption round)).sends) }
        ensures err { OnErr result (self.new ≡ self.old) }
        ensures refused { IfErr result (λ e. e ≢ OutOfMemory → refuses self.old here.now.me here.now.n sends.old.count (Entry.Resumption round) e) }
        ensures only_posts { (out : List (ℕ × List ℕ)) × (sends.new ≡ posted sends.old out) };

    /// Every value packs.
    ghost packs: { (s : Self) → Self.fits s → Self.counted s × (length (Self.pack s) ≤ STATE_BYTES) };
}

/// A chare that can be given what no contract sees, as the answer to its next entry that was worked out elsewhere. It leaves
/// the chare as it is.
pub trait Armed<A: Allocator>: Chare<A> {
    /// What it is given.
    type Given: Drop;

    /// What it may be given.
    ghost may_take: { Self → Self.Given → Type 0 };

    /// Takes it.
    fn take_in(&mut self, given: Self::Given)
        requires fit { may_take self.old given }
        ensures kept { self.new ≡ self.old };
}

/// Names an opening of a run: the chares that it begins with, in order of their index, and the number of its PEs.
/// What a type promises of a whole run, such as what an element has done since the opening, it promises of the
/// opening that is named.
pub trait Openings<C> {
    /// The chares.
    ghost opened: { List C };

    /// How many PEs there are.
    ghost pes: { ℕ };
}

impl<C> Openings<C> for Brand {
    ghost use Rattle.std.specs.Prelude.{[]};

    ghost opened = { [] };

    ghost pes = { 1 };
}
