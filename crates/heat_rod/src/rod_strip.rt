//! A strip of cells of the rod.

ghost use Rattle.std.specs.Prelude.{◌≡◌, ◌≢◌, ◌+◌, ◌<◌, ◌≤◌, ◌↔◌, ℕ, List, [], None, false, length, IfErr, IfOk, IfSome, IsNone, OnErr, OnOk};
ghost use Rattle.chare_index.specs.declared.limits.TheConstants.Limits.{ELEMENTS, LETTERS};
ghost use Rattle.chares.specs.declared.sends.SendError.TheVariants.{OutOfMemory, Worn};
ghost use Rattle.chares.specs.Posting.{posted};
ghost use Rattle.heat_rod.specs.GhostCells.{cell_letters};
ghost use Rattle.heat_rod.specs.Packing.{of_parts};
ghost use Rattle.heat_rod.specs.Strips.{at_stage, begins, changed, computes, idle, is_strip, opening_strip, shown, shown_left, shown_right};

use crate::ghost_cell::GhostCell;
use crate::plan::RodPlan;
use crate::posting::{left_of, right_of, show};
use crate::stage::{Stage, heat_in};
use crate::sweep::{CELLS, stepped, work_of};
use chare_index::{Gate, Index, Round};
use chares::{Effect, Here, SendError, Sends};
use pup_pack::{Fields, Items, Pup, PupError};
use reductions::{Contributes, Greatest, Reacted};
use std::alloc::{AllocError, Allocator, Global};
use std::marker::Model;

/// A strip of cells of the rod. In each step it tells its neighbors the cells at its ends, computes its cells once it has theirs, and
/// contributes how much one of them changed at most. The result, which is the residual of the step, says whether it goes on. It packs
/// into at most 54 bytes and 8 for each cell.
#[derive(Drop)]
pub struct RodStrip<A: Allocator = Global> {
    plan: RodPlan,
    stage: Stage,
    cells: Items<f64, A>,
}

impl<A: Allocator> Model for RodStrip<A> {
    ghost use Rattle.std.specs.Prelude.{◌≡◌, true};
    ghost use Rattle.heat_rod.specs.Strips.{RodStripView, is_strip};

    ghost Value = { RodStripView };

    ghost view = { λ s. record { plan = s.plan; stage = s.stage; cells = s.cells } };

    ghost invariant = { λ s. is_strip (record { plan = s.plan; stage = s.stage; cells = s.cells }) ≡ true };
}

/// What changes in a strip: how far it has come, and its cells where it has computed them.
#[derive(Drop)]
pub struct StripChange<A: Allocator> {
    stage: Stage,
    cells: Option<Items<f64, A>>,
}

impl<A: Allocator> Model for StripChange<A> {
    ghost use Rattle.std.specs.Prelude.{◌≡◌, true};
    ghost use Rattle.heat_rod.specs.Strips.{ChangeView, is_change};

    ghost Value = { ChangeView };

    ghost view = { λ c. record { stage = c.stage; cells = c.cells } };

    ghost invariant = { λ c. is_change (record { stage = c.stage; cells = c.cells }) ≡ true };
}

/// What a handler of a strip returns.
type RodReacted<A> = Reacted<StripChange<A>, Greatest<f64>>;

/// The fields of a strip, as they are packed.
type Parts<A> = (
    (u32, u32, f64),
    (u32, u32, f64, Option<f64>, Option<f64>),
    Items<f64, A>,
);

impl<A: Allocator> RodStrip<A> {
    /// A strip that opens with this temperature in each of its cells.
    ///
    /// # Errors
    ///
    /// Memory was refused.
    pub fn opening(alloc: A, plan: RodPlan, heat: f64) -> Result<Self, AllocError>
        ensures value { IfOk result (λ s. s ≡ opening_strip plan heat) }
    {
        let mut cells = Vec::new(alloc);
        cells.resize(CELLS as usize, heat)?;
        Ok(RodStrip {
            plan,
            stage: Stage::opening(),
            cells: Items::new(cells),
        })
    }

    /// Its cells.
    pub fn cells(&self) -> &[f64]
        ensures value { result.now ≡ self.now.cells }
    {
        self.cells.as_slice()
    }

    /// How many steps it has computed.
    pub fn steps(&self) -> u32
        ensures value { result ≡ self.now.stage.done }
    {
        self.stage.done
    }

    /// The residual of the last step: the greatest change of a cell of the rod.
    pub fn residual(&self) -> f64
        ensures value { result ≡ self.now.stage.residual }
    {
        self.stage.residual
    }

    // The strip with these fields, or `None` where it has too many cells.
    fn of_parts(parts: Parts<A>) -> Option<Self>
        ensures value { IfSome result (λ s. s ≡ of_parts parts) }
        ensures refused { IsNone result ↔ (is_strip (of_parts parts) ≡ false) }
    {
        let ((steps, every, small), (begun, done, residual, left, right), cells) = parts;
        if cells.as_slice().len() > CELLS as usize {
            return None;
        }
        let plan = RodPlan {
            steps,
            every,
            small,
        };
        let stage = Stage {
            begun,
            done,
            residual,
            left,
            right,
        };
        Some(RodStrip { plan, stage, cells })
    }
}

impl<A: Allocator + Copy> Pup<A> for RodStrip<A> {
    ghost use Rattle.std.specs.Prelude.{◌≡◌, refl, true};
    ghost use Rattle.pup_pack.specs.Structs.{made, judged};
    ghost use Rattle.pup_pack.specs.Trips.{f64_trips, five_trips, judged_trips, list_trips, option_trips, struct_trips, three_trips, u32_trips};
    ghost use Rattle.heat_rod.specs.Packing.{of_parts, parts};
    ghost use Rattle.heat_rod.specs.Strips.{is_strip};

    ghost fits = { λ s. ⟦<Parts<A> as Pup<A>>⟧.fits (parts s) × (is_strip s ≡ true) };

    ghost counted = { λ s. ⟦<Parts<A> as Pup<A>>⟧.counted (parts s) };

    ghost pack = { λ s. ⟦<Parts<A> as Pup<A>>⟧.pack (parts s) };

    ghost unpack = { λ bytes. judged is_strip (made of_parts (⟦<Parts<A> as Pup<A>>⟧.unpack bytes)) };

    ghost round_trip = { (judged_trips is_strip (struct_trips parts of_parts (λ _. refl) (three_trips (three_trips u32_trips u32_trips f64_trips)
        (five_trips u32_trips u32_trips f64_trips (option_trips f64_trips) (option_trips f64_trips)) (list_trips f64_trips)))).trip };

    fn packed_len(&self) -> u32 {
        let plan = (&self.plan.steps, &self.plan.every, &self.plan.small);
        let at = &self.stage;
        let stage = (&at.begun, &at.done, &at.residual, &at.left, &at.right);
        (plan, stage, &self.cells).fields_len()
    }

    fn pack_into(&self, out: &mut Vec<u8, A>) -> Result<(), PupError> {
        let plan = (&self.plan.steps, &self.plan.every, &self.plan.small);
        let at = &self.stage;
        let stage = (&at.begun, &at.done, &at.residual, &at.left, &at.right);
        (plan, stage, &self.cells).pack_fields(out)
    }

    fn unpack(alloc: A, bytes: &[u8]) -> Result<(RodStrip<A>, usize), PupError> {
        let (parts, len) = <Parts<A> as Pup<A>>::unpack(alloc, bytes)?;
        let strip = RodStrip::of_parts(parts).ok_or(PupError::Bad)?;
        Ok((strip, len))
    }
}

impl<A: Allocator + Copy> RodStrip<A> {
    // Tells each neighbor the cell at that end.
    #[tactic(auto, using(chares::proofs::SeveralPosts::posted_none, crate::proofs::Showing::both_shown, crate::proofs::Showing::both_worn))]
    fn show<P: Drop>(
        &self,
        stage: Stage,
        me: Index,
        n: u32,
        sends: &mut Sends<P, A>,
    ) -> Result<(), SendError>
        requires member { me < n }
        requires few { n ≤ ELEMENTS }
        requires same_array { sends.old.n ≡ n }
        ensures ok { OnOk result (sends.new ≡ posted sends.old (cell_letters (shown (at_stage self.now stage) me n))) }
        ensures refused { IfErr result (λ e. e ≢ OutOfMemory → (e ≡ Worn) × (LETTERS < sends.old.count + length (shown (at_stage self.now stage) me n))) }
        ensures only_posts { (out : List (ℕ × List ℕ)) × (sends.new ≡ posted sends.old out) }
    {
        self.show_left(stage, me, sends)?;
        self.show_right(stage, me, n, sends)?;
        Ok(())
    }

    // Tells the neighbor on the left the first cell.
    fn show_left<P: Drop>(
        &self,
        stage: Stage,
        me: Index,
        sends: &mut Sends<P, A>,
    ) -> Result<(), SendError>
        requires member { me < sends.old.n }
        ensures ok { OnOk result (sends.new ≡ posted sends.old (cell_letters (shown_left (at_stage self.now stage) me))) }
        ensures err { OnErr result (sends.new ≡ sends.old) }
        ensures refused { IfErr result (λ e. e ≢ OutOfMemory → (e ≡ Worn) × (LETTERS < sends.old.count + length (shown_left (at_stage self.now stage) me))) }
    {
        let first = self.cells().first().copied();
        show(sends, left_of(me), stage.cell(false, first))
    }

    // Tells the neighbor on the right the last cell.
    fn show_right<P: Drop>(
        &self,
        stage: Stage,
        me: Index,
        n: u32,
        sends: &mut Sends<P, A>,
    ) -> Result<(), SendError>
        requires few { n ≤ ELEMENTS }
        requires same_array { sends.old.n ≡ n }
        ensures ok { OnOk result (sends.new ≡ posted sends.old (cell_letters (shown_right (at_stage self.now stage) me n))) }
        ensures err { OnErr result (sends.new ≡ sends.old) }
        ensures refused { IfErr result (λ e. e ≢ OutOfMemory → (e ≡ Worn) × (LETTERS < sends.old.count + length (shown_right (at_stage self.now stage) me n))) }
    {
        let last = self.cells().last().copied();
        show(sends, right_of(me, n), stage.cell(true, last))
    }

    // Computes the step that it has begun, between the ghost cells of this stage.
    #[tactic(auto, using(crate::proofs::Steps::few_next))]
    fn compute(&self, stage: Stage, alloc: A) -> Result<RodReacted<A>, SendError>
        requires begun { stage.done < stage.begun }
        ensures state { IfOk result (λ r. changed self.now r.change ≡ (computes (at_stage self.now stage) []).state) }
        ensures effect { IfOk result (λ r. r.effect ≡ (computes (at_stage self.now stage) []).effect) }
        ensures contribution { IfOk result (λ r. r.contribution ≡ (computes (at_stage self.now stage) []).contribution) }
        ensures refused { IfErr result (λ e. e ≡ OutOfMemory) }
    {
        let cells = self.cells.as_slice();
        let (left, right) = (heat_in(stage.left), heat_in(stage.right));
        let (next, change) = stepped(alloc, cells, left, right)?;
        let units = work_of(cells);
        Ok(Reacted {
            change: StripChange {
                stage: stage.ends_step(),
                cells: Some(next),
            },
            effect: Effect {
                units,
                at_sync: false,
                finished: false,
            },
            contribution: Some(Greatest(change)),
        })
    }

    // Begins the next step, if there is one.
    #[tactic(auto, using(chares::proofs::SeveralPosts::posted_none))]
    fn begin<P: Drop>(
        &self,
        stage: Stage,
        me: Index,
        n: u32,
        sends: &mut Sends<P, A>,
    ) -> Result<RodReacted<A>, SendError>
        requires member { me < n }
        requires few { n ≤ ELEMENTS }
        requires same_array { sends.old.n ≡ n }
        ensures state { IfOk result (λ r. changed self.now r.change ≡ (begins (at_stage self.now stage) me n).state) }
        ensures effect { IfOk result (λ r. r.effect ≡ (begins (at_stage self.now stage) me n).effect) }
        ensures contribution { IfOk result (λ r. r.contribution ≡ (begins (at_stage self.now stage) me n).contribution) }
        ensures sends { OnOk result (sends.new ≡ posted sends.old (cell_letters (begins (at_stage self.now stage) me n).sends)) }
        ensures refused { IfErr result (λ e. e ≢ OutOfMemory → (e ≡ Worn) × (LETTERS < sends.old.count + length (begins (at_stage self.now stage) me n).sends)) }
        ensures only_posts { (out : List (ℕ × List ℕ)) × (sends.new ≡ posted sends.old out) }
    {
        if self.plan.is_over(stage) {
            return Ok(rest(stage, idle(false, true)));
        }
        self.show(stage, me, n, sends)?;
        let stage = stage.begins_step();
        if !stage.has_cells(me, n) {
            return Ok(rest(stage, idle(false, false)));
        }
        self.compute(stage, sends.allocator())
    }
}

// A handler that leaves the cells as they are, and contributes nothing.
fn rest<A: Allocator>(stage: Stage, effect: Effect) -> RodReacted<A>
    ensures value { result ≡ record { change = record { stage = stage; cells = None }; effect = effect; contribution = None } }
{
    Reacted {
        change: StripChange { stage, cells: None },
        effect,
        contribution: None,
    }
}

// An effect without work.
fn idle(at_sync: bool, finished: bool) -> Effect
    ensures value { result ≡ idle at_sync finished }
{
    Effect {
        units: 0,
        at_sync,
        finished,
    }
}

impl<A: Allocator + Copy> Contributes<A> for RodStrip<A> {
    ghost use Rattle.heat_rod.specs.Packing.{strip_packs};
    ghost use Rattle.heat_rod.specs.Strips.{RodRefuses, changed, rod_step};

    type Message = GhostCell;

    type Value = Greatest<f64>;

    type Change = StripChange<A>;

    ghost step = { rod_step };

    ghost changed = { changed };

    ghost refuses = { RodRefuses };

    ghost packs = { λ s fit. strip_packs s fit.1 };

    fn on_resume<G: Gate, P: Drop>(
        &self,
        here: &Here<'_, G>,
        _round: Round,
        sends: &mut Sends<P, A>,
    ) -> Result<RodReacted<A>, SendError> {
        self.begin(self.stage, here.me, here.n, sends)
    }

    #[tactic(auto, using(chares::proofs::SeveralPosts::posted_none))]
    fn on_message<G: Gate, P: Drop>(
        &self,
        here: &Here<'_, G>,
        cell: GhostCell,
        sends: &mut Sends<P, A>,
    ) -> Result<RodReacted<A>, SendError> {
        let stage = self.stage.keeps(cell);
        if stage.begun <= stage.done || !stage.has_cells(here.me, here.n) {
            return Ok(rest(stage, idle(false, false)));
        }
        self.compute(stage, sends.allocator())
    }

    #[tactic(auto, using(chares::proofs::SeveralPosts::posted_none))]
    fn on_result<G: Gate, P: Drop>(
        &self,
        here: &Here<'_, G>,
        residual: Greatest<f64>,
        sends: &mut Sends<P, A>,
    ) -> Result<RodReacted<A>, SendError> {
        let stage = self.stage.hears(residual.0);
        if !self.plan.is_over(stage) && self.plan.is_due(stage) {
            return Ok(rest(stage, idle(true, false)));
        }
        self.begin(stage, here.me, here.n, sends)
    }

    fn apply(&mut self, change: StripChange<A>) {
        let StripChange { stage, cells } = change;
        self.stage = stage;
        let Some(cells) = cells else {
            return;
        };
        self.cells = cells;
    }
}
