//! A PE as it opens.

ghost use Rattle.std.specs.Prelude.{◌≡◌, ◌<◌, ◌≤◌, IfOk, OnOk};
ghost use Rattle.rank_calls.specs.Runs.{opened, with_element};

use crate::rank::Rank;
use crate::run::RunName;
use chare_index::{Index, Limits, Pe, opening_pe};
use chares::History;
use foreign_chare::Foreign;
use pe_state::PeState;
use std::alloc::{AllocError, Global};

impl<R: RunName> Rank<R> {
    /// PE `me` as it opens, with the elements that begin on it. The only error is that memory was refused.
    #[tactic(auto, using(crate::proofs::Openings::opening_length))]
    pub(crate) fn open(alloc: Global, me: Pe, pes: u32, n: u32) -> Result<Self, AllocError>
        requires member { me < pes }
        requires few_pes { pes ≤ Limits.PES }
        requires few { n ≤ Limits.ELEMENTS }
        requires run { pes ≡ R.run.pes }
        requires array { n ≡ R.run.n }
        ensures value { IfOk result (λ rank. rank ≡ opened pes n me) }
    {
        let mut rank = Rank {
            pe: PeState::new(alloc, me, pes, n),
        };
        for place in 0..n {
            let index = Index::new(place).unwrap();
            rank.begin(index, pes, n)?;
        }
        Ok(rank)
    }

    // Places an element, where it begins on this PE.
    #[tactic(auto, using(crate::proofs::Openings::opening_get))]
    fn begin(&mut self, index: Index, pes: u32, n: u32) -> Result<(), AllocError>
        requires element { index < n }
        requires some_pe { 1 ≤ pes }
        requires few_pes { pes ≤ Limits.PES }
        requires few { n ≤ Limits.ELEMENTS }
        requires run { pes ≡ R.run.pes }
        requires array { n ≡ R.run.n }
        ensures value { OnOk result (self.new ≡ with_element pes n self.old index) }
    {
        if opening_pe(index, n, pes) != self.pe.me() {
            return Ok(());
        }
        if self.pe.room().element(index).is_some() {
            return Ok(());
        }
        self.pe.place(index, Foreign::new(index.get()))?;
        self.pe.set_history(index, History::Dropped);
        Ok(())
    }
}
