//! Ghost cells for the neighbors, which a strip at an end of the rod may not have.

ghost use Rattle.std.specs.Prelude.{◌≡◌, ◌≢◌, ◌+◌, ◌<◌, ◌≤◌, IfErr, IfSome, OnErr, OnOk, length};
ghost use Rattle.chare_index.specs.declared.limits.TheConstants.Limits.{ELEMENTS, LETTERS};
ghost use Rattle.chares.specs.declared.sends.SendError.TheVariants.{OutOfMemory, Worn};
ghost use Rattle.chares.specs.Posting.{posted};
ghost use Rattle.heat_rod.specs.GhostCells.{cell_letters, cells_to, left_of, right_of};

use crate::ghost_cell::GhostCell;
use chare_index::Index;
use chares::{SendError, Sends};
use reductions::send;
use std::alloc::Allocator;

/// The strip on the left, if there is one.
pub(crate) fn left_of(me: Index) -> Option<Index>
    ensures value { result ≡ left_of me }
    ensures within { IfSome result (λ i. i < me) }
{
    if me.get() == 0 {
        return None;
    }
    Index::new(me.get() - 1)
}

/// The strip on the right, if there is one.
pub(crate) fn right_of(me: Index, n: u32) -> Option<Index>
    requires few { n ≤ ELEMENTS }
    ensures value { result ≡ right_of me n }
    ensures within { IfSome result (λ i. i < n) }
{
    if n <= me.get() + 1 {
        return None;
    }
    Index::new(me.get() + 1)
}

/// Posts a ghost cell to this strip, if there is one.
#[tactic(auto, using(chares::proofs::SeveralPosts::posted_none, crate::proofs::Showing::cell_refused))]
pub(crate) fn show<P: Drop, A: Allocator + Copy>(
    sends: &mut Sends<P, A>,
    to: Option<Index>,
    cell: GhostCell,
) -> Result<(), SendError>
    requires member { IfSome to (λ i. i < sends.old.n) }
    ensures ok { OnOk result (sends.new ≡ posted sends.old (cell_letters (cells_to to cell))) }
    ensures err { OnErr result (sends.new ≡ sends.old) }
    ensures refused { IfErr result (λ e. e ≢ OutOfMemory → (e ≡ Worn) × (LETTERS < sends.old.count + length (cells_to to cell))) }
{
    let Some(to) = to else {
        return Ok(());
    };
    let _longest = sends.longest().get();
    send(sends, to, cell)
}
