//! Reading what is kept of the rounds that were decided.

ghost use Rattle.std.specs.Prelude.{◌≡◌, ◌≤◌, IfErr, IfOk, MatchResult, None, OnErr, length, map, take, drop, true};
ghost use Rattle.sync_board.specs.Boards.{kept_of};
ghost use Rattle.lb_database.specs.Measuring.{elements};
ghost use Rattle.board_handle.specs.Calls.{IsSame, RefusesBlocks, RefusesPlace, RefusesSnapshot};
ghost use Rattle.board_handle.specs.Reading.{AreBlocks, AreReported, IsBehindBlocks, IsPlace};

use crate::error::HandleError;
use crate::handle::BoardHandle;
use chare_index::{Index, Pe, Round};
use lb_snapshot::Snapshot;
use std::alloc::Global;
use sync_board::Board;

/// What a decision comes to.
#[derive(Clone, Copy, Debug)]
pub struct Outline {
    /// The greatest load of a block.
    pub bottleneck: u64,
    /// The packed bytes of all elements that move.
    pub moved: u64,
}

impl BoardHandle {
    /// Writes the cuts and the names of the decision of a round: block `b` has the elements from cut `b` up to the next, and runs on
    /// PE `names[b]`. There is a block for each PE, so there are as many names and one cut more. What the lists have behind that stays.
    ///
    /// # Errors
    ///
    /// In this order: [`IsClosed`](HandleError::IsClosed); [`BadInput`](HandleError::BadInput) where a list is too short;
    /// [`Undecided`](HandleError::Undecided). Then nothing is written.
    pub fn decision(
        &mut self,
        alloc: Global,
        round: u32,
        cuts: &mut [u32],
        names: &mut [u32],
    ) -> Result<Outline, HandleError>
        ensures answer { MatchResult result
            (λ outline. (self.old.is_open ≡ true) × AreBlocks self.old.board round outline.bottleneck outline.moved cuts.new names.new)
            (RefusesBlocks self.old.is_open self.old.board round (length cuts.old) (length names.old)) }
        ensures same { IsSame self.old.is_open self.old.board self.new.is_open self.new.board }
        ensures behind { IsBehindBlocks self.old.board cuts.old cuts.new names.old names.new }
        ensures kept { OnErr result ((cuts.new ≡ cuts.old) × (names.new ≡ names.old)) }
    {
        let Some(board) = self.take(alloc) else {
            return Err(HandleError::IsClosed);
        };
        let written = write_blocks(&board, round, cuts, names);
        self.put(board);
        written
    }

    /// The place of an element in the decision of a round, which is one of the board's PEs.
    ///
    /// # Errors
    ///
    /// In this order: [`IsClosed`](HandleError::IsClosed), [`Stranger`](HandleError::Stranger), [`Undecided`](HandleError::Undecided).
    pub fn place(&mut self, alloc: Global, round: u32, element: u32) -> Result<u32, HandleError>
        ensures answer { MatchResult result (λ pe. (self.old.is_open ≡ true) × IsPlace self.old.board round element pe)
            (RefusesPlace self.old.is_open self.old.board round element) }
        ensures same { IsSame self.old.is_open self.old.board self.new.is_open self.new.board }
    {
        let Some(board) = self.take(alloc) else {
            return Err(HandleError::IsClosed);
        };
        let place = find_place(&board, round, element);
        self.put(board);
        place
    }

    /// Writes what each element reported for a round that is decided: its load, its packed bytes and its place, in order of index. What
    /// the lists have behind that stays.
    ///
    /// # Errors
    ///
    /// In this order: [`IsClosed`](HandleError::IsClosed); [`BadInput`](HandleError::BadInput) where a list is too short;
    /// [`Undecided`](HandleError::Undecided). Then nothing is written.
    pub fn snapshot(
        &mut self,
        alloc: Global,
        round: u32,
        loads: &mut [u64],
        bytes: &mut [u32],
        places: &mut [u32],
    ) -> Result<(), HandleError>
        ensures answer { MatchResult result (λ _. (self.old.is_open ≡ true) × AreReported self.old.board round loads.new bytes.new places.new)
            (RefusesSnapshot self.old.is_open self.old.board round (length loads.old) (length bytes.old) (length places.old)) }
        ensures same { IsSame self.old.is_open self.old.board self.new.is_open self.new.board }
        ensures loads_behind { drop (elements self.old.board.database) loads.new ≡ drop (elements self.old.board.database) loads.old }
        ensures bytes_behind { drop (elements self.old.board.database) bytes.new ≡ drop (elements self.old.board.database) bytes.old }
        ensures places_behind { drop (elements self.old.board.database) places.new ≡ drop (elements self.old.board.database) places.old }
        ensures kept { OnErr result ((loads.new ≡ loads.old) × (bytes.new ≡ bytes.old) × (places.new ≡ places.old)) }
    {
        let Some(board) = self.take(alloc) else {
            return Err(HandleError::IsClosed);
        };
        let written = write_snapshot(&board, round, loads, bytes, places);
        self.put(board);
        written
    }
}

/// The round with this number, where the board may have decided it.
#[tactic(auto, using(crate::proofs::Rounds::not_past))]
pub(crate) fn round_of(board: &Board, round: u32) -> Result<Round, HandleError>
    ensures value { IfOk result (λ r. r ≡ round) }
    ensures none { OnErr result (kept_of board.now.rounds round ≡ None) }
    ensures error { IfErr result (λ error. error ≡ HandleError.Undecided) }
{
    let Some(round) = Round::new(round) else {
        // Of the rounds up to the last one, those before the present one are kept.
        let _rounds = board.rounds();
        let _len = board.len();
        return Err(HandleError::Undecided);
    };
    Ok(round)
}

// Writes the decision of a round.
#[tactic(auto, using(crate::proofs::Rounds::cut_count, crate::proofs::Rounds::name_count))]
fn write_blocks(
    board: &Board,
    round: u32,
    cuts: &mut [u32],
    names: &mut [u32],
) -> Result<Outline, HandleError>
    ensures answer { MatchResult result (λ outline. AreBlocks board.now round outline.bottleneck outline.moved cuts.new names.new)
        (RefusesBlocks true board.now round (length cuts.old) (length names.old)) }
    ensures behind { IsBehindBlocks board.now cuts.old cuts.new names.old names.new }
    ensures kept { OnErr result ((cuts.new ≡ cuts.old) × (names.new ≡ names.old)) }
{
    let pes = board.pes() as usize;
    if cuts.len() <= pes || names.len() < pes {
        return Err(HandleError::BadInput);
    }
    let round = round_of(board, round)?;
    let Some(decision) = board.decision_for(round) else {
        return Err(HandleError::Undecided);
    };
    cuts[..pes + 1].copy_from_slice(decision.division.cuts.as_slice());
    names[..pes].copy_from_slice(decision.naming.as_slice());
    Ok(Outline {
        bottleneck: decision.division.bottleneck,
        moved: decision.moved,
    })
}

// The place of an element in the decision of a round.
fn find_place(board: &Board, round: u32, element: u32) -> Result<u32, HandleError>
    ensures answer { MatchResult result (IsPlace board.now round element) (RefusesPlace true board.now round element) }
{
    if board.len() <= element as usize {
        return Err(HandleError::Stranger);
    }
    let Some(index) = Index::new(element) else {
        return Err(HandleError::Stranger);
    };
    let round = round_of(board, round)?;
    match board.place_for(round, index) {
        Some(pe) => Ok(pe.get()),
        None => Err(HandleError::Undecided),
    }
}

// Writes what was reported for a round.
#[tactic(auto, using(crate::proofs::Rounds::load_count))]
fn write_snapshot(
    board: &Board,
    round: u32,
    loads: &mut [u64],
    bytes: &mut [u32],
    places: &mut [u32],
) -> Result<(), HandleError>
    ensures answer { MatchResult result (λ _. AreReported board.now round loads.new bytes.new places.new)
        (RefusesSnapshot true board.now round (length loads.old) (length bytes.old) (length places.old)) }
    ensures loads_behind { drop (elements board.now.database) loads.new ≡ drop (elements board.now.database) loads.old }
    ensures bytes_behind { drop (elements board.now.database) bytes.new ≡ drop (elements board.now.database) bytes.old }
    ensures places_behind { drop (elements board.now.database) places.new ≡ drop (elements board.now.database) places.old }
    ensures kept { OnErr result ((loads.new ≡ loads.old) × (bytes.new ≡ bytes.old) × (places.new ≡ places.old)) }
{
    let n = board.len();
    if loads.len() < n || bytes.len() < n || places.len() < n {
        return Err(HandleError::BadInput);
    }
    let round = round_of(board, round)?;
    let _rounds = board.rounds();
    let Some((snapshot, _)) = board.kept_for(round) else {
        return Err(HandleError::Undecided);
    };
    write_reports(snapshot, loads, bytes, places);
    Ok(())
}

// Writes a snapshot.
fn write_reports(snapshot: &Snapshot, loads: &mut [u64], bytes: &mut [u32], places: &mut [u32])
    requires loads_room { length snapshot.now.loads ≤ length loads.old }
    requires bytes_room { length snapshot.now.loads ≤ length bytes.old }
    requires places_room { length snapshot.now.loads ≤ length places.old }
    ensures loads { take (length snapshot.now.loads) loads.new ≡ snapshot.now.loads }
    ensures bytes { take (length snapshot.now.loads) bytes.new ≡ map (λ size. size.0) snapshot.now.sizes }
    ensures places { take (length snapshot.now.loads) places.new ≡ map (λ size. size.1) snapshot.now.sizes }
    ensures loads_behind { drop (length snapshot.now.loads) loads.new ≡ drop (length snapshot.now.loads) loads.old }
    ensures bytes_behind { drop (length snapshot.now.loads) bytes.new ≡ drop (length snapshot.now.loads) bytes.old }
    ensures places_behind { drop (length snapshot.now.loads) places.new ≡ drop (length snapshot.now.loads) places.old }
{
    let n = snapshot.loads().len();
    let sizes = snapshot.sizes().as_slice();
    loads[..n].copy_from_slice(snapshot.loads().as_slice());
    write_bytes(sizes, &mut bytes[..n]);
    write_places(sizes, &mut places[..n]);
}

// Writes the packed bytes of each element.
fn write_bytes(sizes: &[(u32, Pe)], bytes: &mut [u32])
    requires room { length bytes.old ≡ length sizes.now }
    ensures value { bytes.new ≡ map (λ size. size.0) sizes.now }
{
    for i in 0..sizes.len() {
        bytes[i] = sizes[i].0;
    }
}

// Writes the place of each element.
fn write_places(sizes: &[(u32, Pe)], places: &mut [u32])
    requires room { length places.old ≡ length sizes.now }
    ensures value { places.new ≡ map (λ size. size.1) sizes.now }
{
    for i in 0..sizes.len() {
        places[i] = sizes[i].1.get();
    }
}
