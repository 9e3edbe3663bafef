//! A strip of cells in a chain of strips.

ghost use Rattle.std.specs.Prelude.{◌≡◌, ◌≢◌, ◌*◌, ◌<◌, ◌≤◌, ◌↔◌, ℕ, List, length, Some, false, IfErr, IfOk, IfSome, IsNone, OnErr, OnOk};
ghost use Rattle.chare_index.specs.declared.limits.TheConstants.Limits.{ELEMENTS};
ghost use Rattle.chares.specs.declared.sends.SendError.TheVariants.{OutOfMemory};
ghost use Rattle.chares.specs.Posting.{posted};
ghost use Rattle.hot_spot_strip.specs.Chains.{WornBy};
ghost use Rattle.hot_spot_strip.specs.Profile.{cell_work};
ghost use Rattle.hot_spot_strip.specs.Strips.{after_round, are_within, asks, begins, effect_of, goes_on, is_strip, of_parts, opening_strip};
ghost use Rattle.hot_spot_strip.specs.Strips.{shown_by, shown_left, shown_right, takes};

use crate::came::Came;
use crate::cells::{compute, first_value, last_value};
use crate::limits::StripLimits;
use crate::mode::Mode;
use crate::posting::{left_of, post, right_of};
use crate::profile::cell_work;
use crate::shown::{Shown, Side};
use crate::slot::Slot;
use chare_index::{Gate, Index, Round};
use chares::{Chare, Effect, Here, SendError, Sends};
use lb_snapshot::Units;
use pup_pack::{Fields, Items, Pup, PupError};
use std::alloc::{Allocator, Global};
use std::marker::Model;
use std::mem;

/// A strip of cells in a chain of strips. In each round it shows its neighbors the values at its ends, and computes its cells
/// once it has theirs: its work is the rounds of mixing that this takes. It packs into 72 bytes and 8 for each cell, and keeps
/// to [`StripLimits`].
#[derive(Drop)]
pub struct Strip<A: Allocator = Global> {
    mode: Mode,
    rounds: u32,
    work: u32,
    begun: u32,
    done: u32,
    came: Came,
    cells: Items<u64, A>,
    alloc: A,
}

impl<A: Allocator> Model for Strip<A> {
    ghost use Rattle.std.specs.Prelude.{◌≡◌, true};
    ghost use Rattle.hot_spot_strip.specs.Strips.{StripView, is_strip};

    ghost Value = { StripView };

    ghost view = { λ s. record { mode = s.mode; rounds = s.rounds; work = s.work; begun = s.begun; done = s.done; came = s.came; cells = s.cells } };

    ghost invariant = { λ s. is_strip (record { mode = s.mode; rounds = s.rounds; work = s.work; begun = s.begun; done = s.done; came = s.came; cells = s.cells }) ≡ true };
}

/// The fields of a strip, as they are packed.
type Parts<A> = (Mode, (u32, (u32, (u32, (u32, SlotParts<A>)))));

/// The fields from the slots on.
type SlotParts<A> = (Slot, (Slot, (Slot, (Slot, Items<u64, A>))));

impl<A: Allocator> Strip<A> {
    /// A strip with these cells that is to compute `rounds` rounds and has begun none, or `None` past a limit. In the middle of
    /// the hot spot a cell takes `work` more rounds of mixing than far from it.
    pub fn new(alloc: A, mode: Mode, rounds: u32, work: u32, cells: Items<u64, A>) -> Option<Self>
        ensures value { IfSome result (λ s. s ≡ opening_strip mode rounds work cells) }
        ensures refused { IsNone result ↔ (is_strip (opening_strip mode rounds work cells) ≡ false) }
    {
        let none = Slot::Empty;
        let slots = (none, (none, (none, (none, cells))));
        Strip::of_parts(alloc, (mode, (rounds, (work, (0, (0, slots))))))
    }

    /// Its cells.
    pub fn cells(&self) -> &[u64]
        ensures value { result.now ≡ self.now.cells }
    {
        self.cells.as_slice()
    }

    // The strip with these fields, or `None` past a limit.
    fn of_parts(alloc: A, parts: Parts<A>) -> Option<Self>
        ensures value { IfSome result (λ s. s ≡ of_parts parts) }
        ensures refused { IsNone result ↔ (is_strip (of_parts parts) ≡ false) }
    {
        let (mode, (rounds, (work, (begun, (done, slots))))) = parts;
        let (left, (right, (early_left, (early_right, cells)))) = slots;
        if !are_within(rounds, begun, done, cells.as_slice().len()) {
            return None;
        }
        let came = Came {
            left,
            right,
            early_left,
            early_right,
        };
        Some(Strip {
            mode,
            rounds,
            work,
            begun,
            done,
            came,
            cells,
            alloc,
        })
    }
}

// Whether a strip may have this number of rounds, of which it has begun and computed these numbers, and this number of cells.
fn are_within(rounds: u32, begun: u32, done: u32, cells: usize) -> bool
    ensures value { result ≡ are_within rounds begun done cells }
{
    rounds <= StripLimits::ROUNDS
        && begun <= rounds
        && done <= begun
        && cells <= StripLimits::CELLS as usize
}

impl<A: Allocator + Copy> Pup<A> for Strip<A> {
    ghost use Rattle.std.specs.Prelude.{◌≡◌, refl, true};
    ghost use Rattle.pup_pack.specs.Structs.{made, judged};
    ghost use Rattle.pup_pack.specs.Trips.{judged_trips, list_trips, pair_trips, struct_trips, u32_trips, u64_trips};
    ghost use Rattle.hot_spot_strip.specs.Modes.{mode_trips};
    ghost use Rattle.hot_spot_strip.specs.Slots.{slot_trips};
    ghost use Rattle.hot_spot_strip.specs.Strips.{is_strip, of_parts, parts};

    ghost fits = { λ s. ⟦<Parts<A> as Pup<A>>⟧.fits (parts s) × (is_strip s ≡ true) };

    ghost counted = { λ s. ⟦<Parts<A> as Pup<A>>⟧.counted (parts s) };

    ghost pack = { λ s. ⟦<Parts<A> as Pup<A>>⟧.pack (parts s) };

    ghost unpack = { λ bytes. judged is_strip (made of_parts (⟦<Parts<A> as Pup<A>>⟧.unpack bytes)) };

    ghost round_trip = { (judged_trips is_strip (struct_trips parts of_parts (λ _. refl)
        (pair_trips mode_trips (pair_trips u32_trips (pair_trips u32_trips (pair_trips u32_trips (pair_trips u32_trips
        (pair_trips slot_trips (pair_trips slot_trips (pair_trips slot_trips (pair_trips slot_trips (list_trips u64_trips)))))))))))).trip };

    fn packed_len(&self) -> u32 {
        let came = &self.came;
        let early = (&came.early_left, (&came.early_right, &self.cells));
        let slots = (&came.left, (&came.right, early));
        let rest = (&self.work, (&self.begun, (&self.done, slots)));
        (&self.mode, (&self.rounds, rest)).fields_len()
    }

    fn pack_into(&self, out: &mut Vec<u8, A>) -> Result<(), PupError> {
        let came = &self.came;
        let early = (&came.early_left, (&came.early_right, &self.cells));
        let slots = (&came.left, (&came.right, early));
        let rest = (&self.work, (&self.begun, (&self.done, slots)));
        (&self.mode, (&self.rounds, rest)).pack_fields(out)
    }

    fn unpack(alloc: A, bytes: &[u8]) -> Result<(Strip<A>, usize), PupError> {
        let (parts, len) = <Parts<A> as Pup<A>>::unpack(alloc, bytes)?;
        let strip = Strip::of_parts(alloc, parts).ok_or(PupError::Bad)?;
        Ok((strip, len))
    }
}

impl<A: Allocator + Copy> Strip<A> {
    // Whether a round follows the next one.
    fn goes_on(&self) -> bool
        ensures value { result ≡ goes_on self.now }
    {
        self.done < self.rounds && self.done + 1 < self.rounds
    }

    // How many rounds of mixing each cell takes in the next round.
    fn cell_work(&self, me: Index, n: u32) -> u64
        requires member { me < n }
        requires few { n ≤ ELEMENTS }
        requires some_round { self.now.done < self.now.rounds }
        ensures value { result ≡ cell_work me n self.now.done self.now.rounds self.now.work }
        ensures small { result ≤ 4294967296 }
    {
        cell_work(me.get(), n, self.done, self.rounds, self.work)
    }

    // The work of the next round.
    #[tactic(auto, using(crate::proofs::Units::units_fit))]
    fn units(&self, work: u64) -> Units
        requires small { work ≤ 4294967296 }
        ensures value { result ≡ length self.now.cells * work }
    {
        self.cells.as_slice().len() as u64 * work
    }

    // Computes the next round, which it has begun, from what has come.
    fn advance(&mut self, came: Came, me: Index, n: u32) -> Effect
        requires member { me < n }
        requires few { n ≤ ELEMENTS }
        requires begun { self.old.done < self.old.begun }
        ensures state { self.new ≡ after_round self.old came me n }
        ensures effect { result ≡ effect_of self.old me n }
    {
        let work = self.cell_work(me, n);
        let is_static = self.mode.is_static();
        let effect = Effect {
            units: self.units(work),
            at_sync: !is_static,
            finished: is_static && !self.goes_on(),
        };
        let none = Items::new(Vec::new(self.alloc));
        let mut cells = mem::replace(&mut self.cells, none).into_vec();
        compute(&mut cells, came.left.value(), came.right.value(), work);
        self.cells = Items::new(cells);
        self.came = came.moved_up();
        self.done += 1;
        effect
    }

    // Shows each neighbor the value at that end.
    #[tactic(auto, using(chares::proofs::SeveralPosts::posted_both))]
    fn show<P: Drop>(&self, me: Index, n: u32, sends: &mut Sends<P, A>) -> Result<(), SendError>
        requires member { me < n }
        requires few { n ≤ ELEMENTS }
        requires same_array { sends.old.n ≡ n }
        ensures ok { OnOk result (sends.new ≡ posted sends.old (shown_by self.now me n)) }
        ensures refused { IfErr result (λ e. e ≢ OutOfMemory → WornBy sends.old.count (shown_by self.now me n) e) }
        ensures only_posts { (out : List (ℕ × List ℕ)) × (sends.new ≡ posted sends.old out) }
    {
        self.show_left(me, sends)?;
        self.show_right(me, n, sends)?;
        Ok(())
    }

    // Shows the neighbor on the left the first value.
    fn show_left<P: Drop>(&self, me: Index, sends: &mut Sends<P, A>) -> Result<(), SendError>
        requires member { me < sends.old.n }
        ensures ok { OnOk result (sends.new ≡ posted sends.old (shown_left self.now me)) }
        ensures err { OnErr result (sends.new ≡ sends.old) }
        ensures refused { IfErr result (λ e. e ≢ OutOfMemory → WornBy sends.old.count (shown_left self.now me) e) }
    {
        let shown = self.shown(Side::Right, first_value(self.cells(), 0));
        post(sends, left_of(me), &shown.body())
    }

    // Shows the neighbor on the right the last value.
    fn show_right<P: Drop>(
        &self,
        me: Index,
        n: u32,
        sends: &mut Sends<P, A>,
    ) -> Result<(), SendError>
        requires few { n ≤ ELEMENTS }
        requires same_array { sends.old.n ≡ n }
        ensures ok { OnOk result (sends.new ≡ posted sends.old (shown_right self.now me n)) }
        ensures err { OnErr result (sends.new ≡ sends.old) }
        ensures refused { IfErr result (λ e. e ≢ OutOfMemory → WornBy sends.old.count (shown_right self.now me n) e) }
    {
        let shown = self.shown(Side::Left, last_value(self.cells(), 0));
        post(sends, right_of(me, n), &shown.body())
    }

    // This value of the next round, for a neighbor that gets it on this side.
    fn shown(&self, side: Side, value: u64) -> Shown
        ensures value { result ≡ record { side = side; round = self.now.done; value = value } }
    {
        Shown {
            side,
            round: self.done,
            value,
        }
    }

    // The strip itself, if it posts itself a letter to go on after the next round.
    fn asks(&self, me: Index) -> Option<Index>
        ensures value { result ≡ asks self.now me }
        ensures itself { IfSome result (λ i. i ≡ me) }
    {
        if self.mode.is_static() && self.goes_on() {
            return Some(me);
        }
        None
    }

    // Begins the next round.
    #[tactic(auto, using(chares::proofs::SeveralPosts::posted_both, chares::proofs::SeveralPosts::posted_none))]
    fn begin<P: Drop>(
        &mut self,
        me: Index,
        n: u32,
        sends: &mut Sends<P, A>,
    ) -> Result<Effect, SendError>
        requires member { me < n }
        requires few { n ≤ ELEMENTS }
        requires same_array { sends.old.n ≡ n }
        ensures state { OnOk result (self.new ≡ (begins self.old me n).state) }
        ensures effect { IfOk result (λ e. e ≡ (begins self.old me n).effect) }
        ensures sends { OnOk result (sends.new ≡ posted sends.old (begins self.old me n).sends) }
        ensures err { OnErr result (self.new ≡ self.old) }
        ensures refused { IfErr result (λ e. e ≢ OutOfMemory → WornBy sends.old.count (begins self.old me n).sends e) }
        ensures only_posts { (out : List (ℕ × List ℕ)) × (sends.new ≡ posted sends.old out) }
    {
        if self.done >= self.rounds {
            return Ok(Effect {
                units: 0,
                at_sync: false,
                finished: true,
            });
        }
        self.show(me, n, sends)?;
        if !self.came.are_beside(me, n) {
            self.begun = self.done + 1;
            return Ok(waits());
        }
        post(sends, self.asks(me), &[])?;
        self.begun = self.done + 1;
        Ok(self.advance(self.came, me, n))
    }

    // Takes what a neighbor shows.
    #[tactic(auto, using(chares::proofs::SeveralPosts::posted_none))]
    fn take<P: Drop>(
        &mut self,
        shown: Shown,
        me: Index,
        n: u32,
        sends: &mut Sends<P, A>,
    ) -> Result<Effect, SendError>
        requires member { me < n }
        requires few { n ≤ ELEMENTS }
        requires same_array { sends.old.n ≡ n }
        ensures state { OnOk result (self.new ≡ (takes self.old me n (Some shown)).state) }
        ensures effect { IfOk result (λ e. e ≡ (takes self.old me n (Some shown)).effect) }
        ensures sends { OnOk result (sends.new ≡ posted sends.old (takes self.old me n (Some shown)).sends) }
        ensures err { OnErr result (self.new ≡ self.old) }
        ensures refused { IfErr result (λ e. e ≢ OutOfMemory → WornBy sends.old.count (takes self.old me n (Some shown)).sends e) }
        ensures only_posts { (out : List (ℕ × List ℕ)) × (sends.new ≡ posted sends.old out) }
    {
        let came = self.came.kept(self.done, shown);
        if self.begun <= self.done || !came.are_beside(me, n) {
            self.came = came;
            return Ok(waits());
        }
        post(sends, self.asks(me), &[])?;
        Ok(self.advance(came, me, n))
    }
}

// What a handler returns that leaves the strip waiting.
fn waits() -> Effect
    ensures value { result ≡ record { units = 0; at_sync = false; finished = false } }
{
    Effect {
        units: 0,
        at_sync: false,
        finished: false,
    }
}

impl<A: Allocator + Copy> Chare<A> for Strip<A> {
    ghost use Rattle.hot_spot_strip.specs.Strips.{StripRefuses, strip_packs, strip_step};

    ghost step = { strip_step };

    ghost refuses = { StripRefuses };

    ghost packs = { λ s fit. strip_packs s fit.1 };

    #[tactic(auto, using(chares::proofs::SeveralPosts::posted_none))]
    fn on_letter<G: Gate, P: Drop>(
        &mut self,
        here: &Here<'_, G>,
        body: &[u8],
        sends: &mut Sends<P, A>,
    ) -> Result<Effect, SendError> {
        if body.is_empty() {
            return self.begin(here.me, here.n, sends);
        }
        let Some(shown) = Shown::read(body) else {
            return Ok(waits());
        };
        self.take(shown, here.me, here.n, sends)
    }

    fn on_resume<G: Gate, P: Drop>(
        &mut self,
        here: &Here<'_, G>,
        _round: Round,
        sends: &mut Sends<P, A>,
    ) -> Result<Effect, SendError> {
        self.begin(here.me, here.n, sends)
    }
}
