//! The elements that a decision moves, each with its present and its new PE.

ghost use Rattle.std.specs.Prelude.{◌≡◌, ◌≢◌, ℕ, List, ◌+◌, ◌-◌, ◌++◌, ◌<◌, ◌≤◌, [], ◌∷◌, length, take, slice_index, slice_index_or, IfOk, OnOk, OnErr, MatchBool, MatchOption};
ghost use Rattle.std.specs.Cmp.{and_per, nat_eq_equiv, on_per, partial_equiv_from_equiv};
ghost use Rattle.std.specs.Cmp.Lexicographic.{pointwise, lists_per};
ghost use Rattle.std.specs.List.{filter};
ghost use Rattle.std.specs.Option.{option_to_list};
ghost use Rattle.lb_certificates.specs.Chain.{IsDivision};
ghost use Rattle.lb_snapshot.specs.Measured.{IsSizes};
ghost use Rattle.lb_certificates.specs.Naming.{blocks_between, block_of, AreBlocks, IsNaming};
ghost use Rattle.lb_strategy.specs.Moves.{same_move, is_move, moves_below, planned_pe};

use chare_index::{Index, Limits, Pe};
use std::alloc::{AllocError, Allocator, Global};
use std::marker::Model;

/// The elements that a decision moves, each with the PE that it is on and the one on which it is to run. It is a plain list
/// that may hold anything, and contracts see it as that list.
#[derive(Drop)]
#[derive_where(Debug)]
pub struct Moves<A: Allocator = Global> {
    moves: Vec<(Index, Pe, Pe), A>,
}

impl<A: Allocator> Model for Moves<A> {
    ghost Value = { List (ℕ × ℕ × ℕ) };

    ghost view = { λ m. m.moves.items };
}

impl<A: Allocator> Moves<A> {
    /// These moves.
    pub fn new(moves: Vec<(Index, Pe, Pe), A>) -> Self
        ensures value { result ≡ moves.items }
    {
        Moves { moves }
    }

    /// The moves, in order.
    pub fn as_slice(&self) -> &[(Index, Pe, Pe)]
        ensures value { result.now ≡ self.now }
    {
        self.moves.as_slice()
    }

    /// Returns the list.
    pub fn into_vec(self) -> Vec<(Index, Pe, Pe), A>
        ensures value { result.items ≡ self }
    {
        let Moves { moves } = self;
        moves
    }
}

impl<A: Allocator> PartialEq for Moves<A> {
    ghost eq = { λ a b. pointwise same_move a b };

    ghost laws = { lists_per (and_per (and_per (on_per (λ t. t.0) (partial_equiv_from_equiv nat_eq_equiv)) (on_per (λ t. t.1) (partial_equiv_from_equiv nat_eq_equiv)))
        (on_per (λ t. t.2) (partial_equiv_from_equiv nat_eq_equiv))) };

    fn eq(&self, other: &Self) -> bool {
        self.as_slice() == other.as_slice()
    }
}

impl<A: Allocator + Copy> Clone for Moves<A> {
    ghost is_clone = { λ v w. w ≡ v };

    fn clone(&self) -> Result<Self, AllocError> {
        let moves = Vec::from_slice(*self.moves.allocator(), self.as_slice())?;
        Ok(Moves { moves })
    }
}

// The move of an element that is on one PE and is to run on another.
fn move_of(i: u32, present: Pe, planned: u32) -> Option<(Index, Pe, Pe)>
    requires index { i < Limits.ELEMENTS }
    requires pe { planned < Limits.PES }
    ensures { option_to_list result ≡ filter is_move ((i, present, planned) ∷ []) }
{
    if present.get() == planned {
        return None;
    }
    Some((Index::new(i).unwrap(), present, Pe::new(planned).unwrap()))
}

// Adds a move, where there is one.
fn push_move<A: Allocator>(
    moves: &mut Vec<(Index, Pe, Pe), A>,
    step: Option<(Index, Pe, Pe)>,
) -> Result<(), AllocError>
    ensures { OnOk result (moves.new.items ≡ moves.old.items ++ option_to_list step) }
{
    if let Some(step) = step {
        moves.push(step)?;
    }
    Ok(())
}

// The block of an element that is in this block or a later one.
#[tactic(auto, using(lb_certificates::proofs::BlockSums::block_of_is))]
fn block_from(cuts: &[u32], from: usize, i: u32) -> usize
    requires divides { IsDivision 0 (slice_index cuts.now (blocks_between cuts.now)) (blocks_between cuts.now) cuts.now }
    requires from { from < blocks_between cuts.now }
    requires not_before { slice_index cuts.now from ≤ i }
    requires inside { i < slice_index cuts.now (blocks_between cuts.now) }
    ensures block { result ≡ block_of cuts.now i }
    ensures within { result < blocks_between cuts.now }
    ensures begins { slice_index cuts.now result ≤ i }
{
    for b in from..cuts.len() - 1 {
        if i < cuts[b + 1] {
            return b;
        }
    }
    from
}

// The index after the next move, where the list continues with this move; where there is no move to make, the same index.
fn place_behind(
    moves: &[(Index, Pe, Pe)],
    next: usize,
    step: Option<(Index, Pe, Pe)>,
) -> Option<usize>
    requires { next ≤ length moves.now }
    ensures { MatchOption result
        ((rest : List (ℕ × ℕ × ℕ)) → moves.now ≢ take next moves.now ++ option_to_list step ++ rest)
        (λ behind. (behind ≤ length moves.now) × (take behind moves.now ≡ take next moves.now ++ option_to_list step)) }
{
    let Some(step) = step else { return Some(next) };
    if next < moves.len() && moves[next] == step {
        return Some(next + 1);
    }
    None
}

// The number of elements that are on another PE than this one.
fn elsewhere(pairs: &[(u32, Pe)], pe: u32) -> usize
    ensures { result ≤ length pairs.now }
{
    let mut count = 0;
    for &(_, present) in pairs {
        if present.get() != pe {
            count += 1;
        }
    }
    count
}

// The number of moves that a naming asks for, which is the capacity of their list.
fn count_moves(sizes: &[(u32, Pe)], cuts: &[u32], names: &[u32]) -> usize
    requires blocks { AreBlocks sizes.now cuts.now }
    requires naming { IsNaming (blocks_between cuts.now) names.now }
{
    let mut count: usize = 0;
    for b in 0..names.len() {
        let block = &sizes[cuts[b] as usize..cuts[b + 1] as usize];
        count = count.saturating_add(elsewhere(block, names[b]));
    }
    count
}

/// The moves that a naming asks for: of each element whose present PE is not the name of its block, in order of index.
///
/// # Errors
///
/// Memory for the list was refused.
#[tactic(auto, using(crate::proofs::MoveLists::moves_more))]
pub fn moves_of<A: Allocator>(
    alloc: A,
    sizes: &[(u32, Pe)],
    cuts: &[u32],
    names: &[u32],
) -> Result<Moves<A>, AllocError>
    requires blocks { AreBlocks sizes.now cuts.now }
    requires naming { IsNaming (blocks_between cuts.now) names.now }
    requires sizes { IsSizes sizes.now }
    ensures moves { IfOk result (λ moves. moves ≡ moves_below sizes.now cuts.now names.now (length sizes.now)) }
{
    let mut moves = Vec::with_capacity(alloc, count_moves(sizes, cuts, names))?;
    for b in 0..names.len() {
        for i in cuts[b] as usize..cuts[b + 1] as usize {
            let (_, present) = sizes[i];
            push_move(&mut moves, move_of(i as u32, present, names[b]))?;
        }
    }
    Ok(Moves::new(moves))
}

/// Whether these are the moves that a naming asks for, in order of index.
#[tactic(auto, using(crate::proofs::MoveLists::moves_more))]
pub(crate) fn are_moves(
    sizes: &[(u32, Pe)],
    cuts: &[u32],
    names: &[u32],
    moves: &[(Index, Pe, Pe)],
) -> bool
    requires blocks { AreBlocks sizes.now cuts.now }
    requires naming { IsNaming (blocks_between cuts.now) names.now }
    requires sizes { IsSizes sizes.now }
    ensures { MatchBool result
        (moves.now ≡ moves_below sizes.now cuts.now names.now (length sizes.now))
        (moves.now ≢ moves_below sizes.now cuts.now names.now (length sizes.now)) }
{
    let mut b = 0;
    let mut next = 0;
    for i in 0..sizes.len() {
        b = block_from(cuts, b, i as u32);
        let (_, present) = sizes[i];
        let Some(behind) = place_behind(moves, next, move_of(i as u32, present, names[b])) else {
            return false;
        };
        next = behind;
    }
    next == moves.len()
}
