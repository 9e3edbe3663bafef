//! The load database, after the one of measurement-based load balancing in Charm++: elements are measured
//! while they run, and balanced once each has reached AtSync.

ghost use Rattle.std.specs.Prelude.{◌≡◌, ℕ, ◌+◌, ◌<◌, ◌≤◌, ◌↔◌, IfOk, IfErr, IsTrue, MatchResult, OnOk, OnErr, slice_get};
ghost use Rattle.lb_database.specs.Measuring.{Measured, IsMeasured, elements, saturated, opening, report_of, IsComplete, StandBelow, with_charge, with_report, IsSnapshotOf};
ghost use Rattle.lb_database.specs.Refusals.{RefusesNew, RefusesCharge, IsReport, RefusesReport, RefusesSnapshot, HasNextRound, RefusesNextRound};

use crate::error::DbError;
use crate::lists::{copied_loads, filled, reported_sizes};
use chare_index::{Limits, Pe, Round};
use lb_snapshot::{Snapshot, Units};
use std::alloc::{AllocError, Allocator, Global};
use std::marker::Model;

/// What is measured of the elements of a chare array in one round: the work units charged to each, and the
/// packed size in bytes and the place of each element that has reported. It has at most
/// [`Limits::ELEMENTS`] elements, and its rounds are 1 to [`Limits::ROUND`]. Only `new`, `at` and
/// `snapshot` take memory. A call that is refused leaves it unchanged. Contracts see it as the
/// record `Measured`.
#[derive(Drop)]
#[derive_where(Debug)]
pub struct LoadDb<A: Allocator = Global> {
    // The round that is measured.
    round: Round,
    // The units charged to each element in the round.
    loads: Vec<Units, A>,
    // The size and the place of each element that has reported in the round.
    reports: Vec<Option<(u32, Pe)>, A>,
    // The number of elements that have not reported. It is kept so that `is_complete` need not search the list.
    missing: usize,
}

impl<A: Allocator> Model for LoadDb<A> {
    ghost use Rattle.std.specs.Prelude.{◌≡◌, count_by, is_none};
    ghost use Rattle.lb_database.specs.Measuring.{Measured, IsMeasured};

    ghost Value = { Measured };

    ghost view = { λ d. record { round = d.round; loads = d.loads.items; reports = d.reports.items } };

    ghost invariant = { λ d.
        IsMeasured (record { round = d.round; loads = d.loads.items; reports = d.reports.items })
        × (d.missing ≡ count_by is_none d.reports.items) };
}

impl<A: Allocator> LoadDb<A> {
    /// A database of `n` elements in round 1, with no units and no reports.
    ///
    /// # Errors
    ///
    /// [`DbError::OutOfMemory`] where memory was refused.
    pub fn new(alloc: A, n: u32) -> Result<Self, DbError>
    where
        A: Copy,
        requires few { n ≤ Limits.ELEMENTS }
        ensures made { IfOk result (λ d. d ≡ opening 1 n) }
        ensures refused { IfErr result (RefusesNew n) }
    {
        LoadDb::at(alloc, n, Round::new(1).unwrap())
    }

    /// A database of `n` elements in the given round, with no units and no reports.
    ///
    /// # Errors
    ///
    /// [`DbError::OutOfMemory`] where memory was refused.
    pub fn at(alloc: A, n: u32, round: Round) -> Result<Self, DbError>
    where
        A: Copy,
        requires few { n ≤ Limits.ELEMENTS }
        requires numbered { 0 < round }
        ensures made { IfOk result (λ d. d ≡ opening round n) }
        ensures refused { IfErr result (RefusesNew n) }
    {
        let n = n as usize;
        Ok(LoadDb {
            round,
            loads: filled(alloc, 0, n)?,
            reports: filled(alloc, None, n)?,
            missing: n,
        })
    }

    /// Adds work units to the load of element `i`, up to [`Limits::LOAD`], whether the element has reported or not.
    ///
    /// # Errors
    ///
    /// [`DbError::Stranger`] where there is no such element.
    pub fn charge(&mut self, i: u32, units: Units) -> Result<(), DbError>
        ensures answer { MatchResult result (λ _. i < elements self.old) (RefusesCharge self.old i) }
        ensures ok { OnOk result (self.new ≡ with_charge self.old i units) }
        ensures err { OnErr result (self.new ≡ self.old) }
    {
        match self.loads.get_mut(i as usize) {
            Some(load) => {
                *load = saturating_sum(*load, units);
                Ok(())
            }
            None => Err(DbError::Stranger),
        }
    }

    /// Records that element `i` waits on `pe` for the end of `round`, and the number of bytes that it packs into.
    ///
    /// # Errors
    ///
    /// The first that applies: [`DbError::Stranger`] where there is no such element, [`DbError::WrongRound`] where the database
    /// is in another round, [`DbError::Twice`] where the element has already reported, and [`DbError::TooLarge`] above
    /// [`Limits::STATE_BYTES`].
    pub fn report(&mut self, i: u32, round: Round, bytes: u32, pe: Pe) -> Result<(), DbError>
        ensures answer { MatchResult result (λ _. IsReport self.old i round bytes) (RefusesReport self.old i round bytes) }
        ensures ok { OnOk result (self.new ≡ with_report self.old i bytes pe) }
        ensures err { OnErr result (self.new ≡ self.old) }
    {
        let Some(report) = self.reports.get_mut(i as usize) else {
            return Err(DbError::Stranger);
        };
        if round != self.round {
            return Err(DbError::WrongRound);
        }
        if report.is_some() {
            return Err(DbError::Twice);
        }
        if bytes > Limits::STATE_BYTES {
            return Err(DbError::TooLarge);
        }
        *report = Some((bytes, pe));
        self.missing -= 1;
        Ok(())
    }

    /// Whether every element has reported in the round. With no elements it is so at once.
    #[tactic(auto, using(crate::proofs::Reports::all_there, crate::proofs::Reports::none_missing))]
    pub fn is_complete(&self) -> bool
        ensures complete { IsTrue result ↔ IsComplete self.now }
    {
        self.missing == 0
    }

    /// Whether each element that has reported is on one of the PEs `0..pes`.
    pub fn stands_on(&self, pes: u32) -> bool
        ensures below { IsTrue result ↔ StandBelow pes self.now }
    {
        self.reports
            .iter()
            .all(|report| report.is_none_or(|(_, place)| place.get() < pes))
    }

    /// What a load balancer decides on, taken at `step` of a run on `pes` PEs. All elements have to be on these PEs, which
    /// [`stands_on`](LoadDb::stands_on) tests.
    ///
    /// # Errors
    ///
    /// [`DbError::Incomplete`] where an element has not reported, then [`DbError::OutOfMemory`] where memory was refused.
    pub fn snapshot(&self, step: u32, pes: u32) -> Result<Snapshot<A>, DbError>
    where
        A: Copy,
        requires some_pe { 0 < pes }
        requires few_pes { pes ≤ Limits.PES }
        requires placed { StandBelow pes self.now }
        ensures answer { MatchResult result (λ _. IsComplete self.now) (RefusesSnapshot self.now) }
        ensures taken { IfOk result (IsSnapshotOf self.now step pes) }
    {
        if self.is_complete() {
            Ok(self.taken(step, pes)?)
        } else {
            Err(DbError::Incomplete)
        }
    }

    // The snapshot of a complete round.
    fn taken(&self, step: u32, pes: u32) -> Result<Snapshot<A>, AllocError>
    where
        A: Copy,
        requires complete { IsComplete self.now }
        requires some_pe { 0 < pes }
        requires few_pes { pes ≤ Limits.PES }
        requires placed { StandBelow pes self.now }
        ensures of_all { IfOk result (IsSnapshotOf self.now step pes) }
        ensures refused { OnErr result (0 < elements self.now) }
    {
        let alloc = *self.loads.allocator();
        let loads = copied_loads(alloc, &self.loads)?;
        let sizes = reported_sizes(alloc, &self.reports)?;
        Ok(Snapshot::new(step, pes, loads, sizes).unwrap())
    }

    /// Begins the next round, with no units and no reports.
    ///
    /// # Errors
    ///
    /// The first that applies: [`DbError::Incomplete`] where an element has not reported, and [`DbError::Worn`] in round
    /// [`Limits::ROUND`].
    pub fn next_round(&mut self) -> Result<(), DbError>
        ensures answer { MatchResult result (λ _. HasNextRound self.old) (RefusesNextRound self.old) }
        ensures ok { OnOk result (self.new ≡ opening (self.old.round + 1) (elements self.old)) }
        ensures err { OnErr result (self.new ≡ self.old) }
    {
        if !self.is_complete() {
            return Err(DbError::Incomplete);
        }
        let Some(round) = Round::new(self.round.get() + 1) else {
            return Err(DbError::Worn);
        };
        self.round = round;
        self.loads.fill(0);
        self.reports.fill(None);
        self.missing = self.reports.len();
        Ok(())
    }

    /// The round that is measured.
    pub fn round(&self) -> Round
        ensures value { result ≡ self.now.round }
    {
        self.round
    }

    /// The number of elements.
    pub fn len(&self) -> usize
        ensures value { result ≡ elements self.now }
        ensures within_limits { IsMeasured self.now }
    {
        self.loads.len()
    }

    /// Whether there is no element.
    pub fn is_empty(&self) -> bool
        ensures value { IsTrue result ↔ (elements self.now ≡ 0) }
    {
        self.loads.is_empty()
    }

    /// The units charged to element `i` in the round, or `None` where there is no such element.
    pub fn load(&self, i: u32) -> Option<Units>
        ensures value { result ≡ slice_get self.now.loads i }
    {
        self.loads.get(i as usize).copied()
    }

    /// The packed size in bytes and the place that element `i` has reported in the round, or `None` where
    /// it has not, or there is no such element.
    pub fn reported(&self, i: u32) -> Option<(u32, Pe)>
        ensures value { result ≡ report_of self.now i }
    {
        self.reports.get(i as usize).copied().flatten()
    }
}

// The sum, or the limit of a load where that is less.
fn saturating_sum(load: Units, units: Units) -> Units
    ensures value { result ≡ saturated (load + units) }
{
    load.saturating_add(units).min(Limits::LOAD)
}
