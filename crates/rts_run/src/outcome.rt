//! What a run left.

ghost use Rattle.std.specs.Prelude.{◌≡◌, ◌+◌, ◌≤◌, length, map};
ghost use Rattle.chare_index.specs.declared.limits.TheConstants.Limits.{PES};
ghost use Rattle.sync_board.specs.Boards.{IsBoard};
ghost use Rattle.rts_core.specs.Accounts.{IsCounted, posted_count, executed_count, held_count};
ghost use Rattle.run_account.specs.RunAccounts.{left_world};
ghost use Rattle.lb_database.specs.Measuring.{elements};
ghost use Rattle.pe_state.specs.InOrder.{elements_at};
ghost use Rattle.rts_run.specs.Outcomes.{element_on};
ghost use Rattle.std.specs.List.{range_with_len};
ghost use Rattle.std.specs.Option.{option_copied};

use crate::counting::{held_by, posted_by, queued_in};
use chare_index::{Index, Pe};
use chares::{Chare, Element};
use lb_snapshot::Snapshot;
use lb_strategy::Decision;
use pe_state::{Elements, HeldParcel, PeEnd};
use pe_worker::Fault;
use rts_core::Account;
use std::alloc::{Allocator, Global};
use std::marker::Model;
use sync_board::Board;

/// What a run left: the PE on which each element opened, its PEs as their workers ended, the parcels in their queues, the board with
/// each round that was decided, and the fault that ended the run early, if one did. Its type does not name the run, so that it may be handed on freely; the
/// clauses of [`run`](crate::run) say what holds of it. Contracts see it as the record `OutcomeView`.
#[derive(Drop)]
pub struct Outcome<C: Chare<A>, A: Allocator = Global> {
    homes: Vec<Pe, A>,
    ends: Vec<PeEnd<C, A>, A>,
    left: Vec<Vec<HeldParcel<A>, A>, A>,
    board: Board<A>,
    fault: Option<Fault>,
}

impl<C: Chare<A>, A: Allocator> Model for Outcome<C, A> {
    ghost use Rattle.std.specs.Prelude.{◌≤◌, length, map};
    ghost use Rattle.chare_index.specs.declared.limits.TheConstants.Limits.{PES};
    ghost use Rattle.rts_core.specs.Accounts.{IsCounted};
    ghost use Rattle.run_account.specs.RunAccounts.{left_world};
    ghost use Rattle.rts_run.specs.Outcomes.{OutcomeView};

    ghost Value = { OutcomeView C A };

    ghost view = { λ o. record { homes = o.homes.items; ends = o.ends.items; left = map (λ q. q.items) o.left.items; board = o.board; fault = o.fault } };

    ghost invariant = { λ o.
        (length o.ends.items ≤ PES)
        × IsCounted (left_world o.ends.items (map (λ q. q.items) o.left.items)) };
}

impl<C: Chare<A>, A: Allocator> Outcome<C, A> {
    /// The outcome of a run whose elements opened on these homes, and that left these PEs, these parcels in the queue of each, this
    /// board, and this fault, if it ended early. The letters have to add up: as many were posted as are held and were executed.
    /// [`into_parts`](Outcome::into_parts) gives the parts back.
    pub fn new(
        homes: Vec<Pe, A>,
        ends: Vec<PeEnd<C, A>, A>,
        left: Vec<Vec<HeldParcel<A>, A>, A>,
        board: Board<A>,
        fault: Option<Fault>,
    ) -> Self
        requires few_pes { length ends.items ≤ PES }
        requires counted { IsCounted (left_world ends.items (map (λ q. q.items) left.items)) }
        ensures homes { result.homes ≡ homes.items }
        ensures ends { result.ends ≡ ends.items }
        ensures left { result.left ≡ map (λ q. q.items) left.items }
        ensures board { result.board ≡ board }
        ensures fault { result.fault ≡ fault }
    {
        Outcome {
            homes,
            ends,
            left,
            board,
            fault,
        }
    }

    /// The PE on which each element opened, in the order of the indices.
    pub fn homes(&self) -> &[Pe]
        ensures value { result.now ≡ self.now.homes }
    {
        &self.homes
    }

    /// Its PEs, in order.
    pub fn ends(&self) -> &[PeEnd<C, A>]
        ensures value { result.now ≡ self.now.ends }
    {
        &self.ends
    }

    /// The element with this index, on the PE where it is; `None` where there is none, or it is on its way, packed: as a fault
    /// ended the run, or as the last element finished. The PEs are searched one after another.
    pub fn element(&self, index: Index) -> Option<&Element<C, A>>
        ensures value { option_copied result ≡ element_on index self.now.ends }
    {
        element_on(&self.ends, index)
    }

    /// The parcels left in the queue of each PE, in order of PE, and the front of each queue first.
    pub fn left(&self) -> &[Vec<HeldParcel<A>, A>]
        ensures value { map (λ q. q.items) result.now ≡ self.now.left }
    {
        &self.left
    }

    /// The board, with who has finished, and the reports of the round that was under way.
    pub fn board(&self) -> &Board<A>
        ensures value { result.now ≡ self.now.board }
    {
        &self.board
    }

    /// The snapshot and the decision of each round that was decided, from round 1 on.
    pub fn rounds(&self) -> &[(Snapshot<A>, Decision<A>)]
        ensures value { result.now ≡ self.now.board.rounds }
        ensures consistent { IsBoard self.now.board }
    {
        self.board.rounds()
    }

    /// Why the run ended early, or what is wrong with it. In an outcome that [`run`](crate::run) returns it is `None` only
    /// where every element has finished.
    pub fn fault(&self) -> Option<Fault>
        ensures value { result ≡ self.now.fault }
    {
        self.fault
    }

    /// Where its elements opened, its PEs, what is left in their queues, the board, and the fault, each by value. [`PeEnd::take`] gives an element of a
    /// PE, and [`Board::into_rounds`] the snapshot and the decision of each round.
    pub fn into_parts(
        self,
    ) -> (
        Vec<Pe, A>,
        Vec<PeEnd<C, A>, A>,
        Vec<Vec<HeldParcel<A>, A>, A>,
        Board<A>,
        Option<Fault>,
    )
        ensures homes { result.0.items ≡ self.homes }
        ensures ends { result.1.items ≡ self.ends }
        ensures left { map (λ q. q.items) result.2.items ≡ self.left }
        ensures board { result.3 ≡ self.board }
        ensures fault { result.4 ≡ self.fault }
    {
        let Outcome {
            homes,
            ends,
            left,
            board,
            fault,
        } = self;
        (homes, ends, left, board, fault)
    }

    /// Its elements, each by value, in the order of their indices; [`Element::into_chare`] gives the chare of one. Those that
    /// are on their way, packed, are left out, as [`element`](Outcome::element) does not find them. The rest of the outcome is
    /// dropped. This takes no memory.
    ///
    /// ```ignore
    /// let mut chares = Vec::new(alloc);
    /// for element in outcome.into_elements() {
    ///     chares.push(element.into_chare())?;
    /// }
    /// ```
    pub fn into_elements(self) -> Elements<C, A>
        ensures value { result ≡ elements_at (range_with_len 0 (elements self.board.database)) self.ends }
    {
        let n = self.board.len() as u32;
        Elements::new(self.ends, n)
    }

    /// How many letters were posted, how many of them were executed, and how many are held. This takes no memory. It visits
    /// each PE and each parcel, but no journals: a letter that was posted and is not held was executed.
    pub fn account(&self) -> Account
        ensures posted { result.posted ≡ posted_count (left_world self.now.ends self.now.left) }
        ensures executed { result.executed ≡ executed_count (left_world self.now.ends self.now.left) }
        ensures held { result.held ≡ held_count (left_world self.now.ends self.now.left) }
        ensures balanced { result.posted ≡ result.executed + result.held }
    {
        let ends = self.ends.as_slice();
        let left = self.left.as_slice();
        let posted = posted_by(ends);
        let held = held_by(ends) + queued_in(left);
        Account {
            posted,
            executed: posted - held,
            held,
        }
    }
}

// The element with this index, on the first of these PEs that has it.
fn element_on<C: Chare<A>, A: Allocator>(
    ends: &[PeEnd<C, A>],
    index: Index,
) -> Option<&Element<C, A>>
    ensures value { option_copied result ≡ element_on index ends.now }
{
    for end in ends {
        if let Some(element) = end.room().element(index) {
            return Some(element);
        }
    }
    None
}
