//! A chain of strips, as it opens.

ghost use Rattle.std.specs.Prelude.{◌≡◌, ◌-◌, ◌≤◌, IfErr, IfOk, false, true};
ghost use Rattle.hot_spot_strip.specs.Openings.{IsChain, opening_cells, opening_strips};
ghost use Rattle.hot_spot_strip.specs.Strips.{is_strip, opening_strip};
ghost use Rattle.hot_spot_strip.specs.declared.error.StripChainError.TheVariants.{Limit};

use crate::error::StripChainError;
use crate::mixing::mix;
use crate::mode::Mode;
use crate::strip::Strip;
use pup_pack::Items;
use std::alloc::{AllocError, Allocator};

/// A chain of strips. The cell with number `k`, counted from 0 over all strips, begins as `mix(k)`.
#[derive(Clone, Copy, Debug)]
pub struct StripChain<'a> {
    /// Whether it is balanced.
    pub mode: Mode,
    /// How many rounds it has.
    pub rounds: u32,
    /// How many rounds of mixing more a cell in the middle of the hot spot takes than one far from it.
    pub work: u32,
    /// How many cells each strip has, in order from one end of the chain to the other.
    pub cells: &'a [u32],
}

impl StripChain<'_> {
    /// Its strips, as they open.
    ///
    /// # Errors
    ///
    /// The first that is met: [`Limit`](StripChainError::Limit) where a number is past its limit, and only there, or
    /// [`OutOfMemory`](StripChainError::OutOfMemory).
    pub fn strips<A: Allocator + Copy>(&self, alloc: A) -> Result<Vec<Strip<A>, A>, StripChainError>
        ensures opened { IfOk result (λ strips. strips.items ≡ opening_strips self.now.mode self.now.rounds self.now.work 0 self.now.cells.now) }
        ensures within { IfOk result (λ _. IsChain self.now.mode self.now.rounds self.now.work self.now.cells.now) }
        ensures refused { IfErr result (λ e. e ≡ Limit → ¬ (IsChain self.now.mode self.now.rounds self.now.work self.now.cells.now)) }
    {
        let mut strips = Vec::new(alloc);
        let mut first = 0u64;
        for count in self.cells {
            let Some(end) = first.checked_add(u64::from(*count)) else {
                return Err(StripChainError::Limit);
            };
            let strip = self.strip(alloc, first, end)?;
            strips.push(strip)?;
            first = end;
        }
        Ok(strips)
    }

    // The strip with the cells from number `first` up to `end`, as it opens.
    fn strip<A: Allocator + Copy>(
        &self,
        alloc: A,
        first: u64,
        end: u64,
    ) -> Result<Strip<A>, StripChainError>
        requires ordered { first ≤ end }
        ensures opened { IfOk result (λ strip. strip ≡ opening_strip self.now.mode self.now.rounds self.now.work (opening_cells first (end - first))) }
        ensures within { IfOk result (λ strip. is_strip strip ≡ true) }
        ensures refused { IfErr result (λ e. e ≡ Limit
            → is_strip (opening_strip self.now.mode self.now.rounds self.now.work (opening_cells first (end - first))) ≡ false) }
    {
        let cells = cells(alloc, first, end)?;
        match Strip::new(alloc, self.mode, self.rounds, self.work, cells) {
            Some(strip) => Ok(strip),
            None => Err(StripChainError::Limit),
        }
    }
}

// The cells with the numbers from `first` up to `end`.
fn cells<A: Allocator>(alloc: A, first: u64, end: u64) -> Result<Items<u64, A>, AllocError>
    requires ordered { first ≤ end }
    ensures opened { IfOk result (λ cells. cells ≡ opening_cells first (end - first)) }
{
    let mut cells = Vec::new(alloc);
    for number in first..end {
        cells.push(mix(number))?;
    }
    Ok(Items::new(cells))
}
