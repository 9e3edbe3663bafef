//! Why a run over plain lists is not planned or checked.

ghost use Rattle.std.specs.Prelude.{◌≡◌};
ghost use Rattle.lb_lists.specs.Runs.{refusal_of};

use chain_partition::ChainError;
use thiserror::Error;

/// Why a run was not planned, or a claim not checked. Of several reasons the first in this order is given.
#[derive(Clone, Copy, Debug, PartialEq, Eq, Error)]
pub enum RunError {
    /// The lists describe no run within the [`RunLimits`](crate::RunLimits), the number of PEs is not 1 to 4,096, or a list for
    /// the answer does not have the length that it needs.
    #[error("bad input")]
    BadInput,
    /// The loads add up to more than [`RunLimits::LOAD`](crate::RunLimits::LOAD).
    #[error("the loads add up to too much")]
    BadLoad,
    /// Memory was refused.
    #[error("out of memory")]
    OutOfMemory,
}

/// Why nothing was decided within a tolerance. Of several reasons the first in this order is given, but that
/// [`TooLarge`](RefineError::TooLarge) comes after the other reasons of a run and before memory is asked for.
#[derive(Clone, Copy, Debug, PartialEq, Eq, Error)]
pub enum RefineError {
    /// The tolerance is above [`Tolerance::MOST`](chain_refinement::Tolerance::MOST).
    #[error("the tolerance is too great")]
    BadTolerance,
    /// The tolerance is not too great, and the run was not planned for this reason.
    #[error("{0}")]
    Run(RunError),
    /// The run could be planned, but is past the limits of a snapshot: more than
    /// [`Limits::ELEMENTS`](chare_index::Limits::ELEMENTS) elements or [`Limits::PES`](chare_index::Limits::PES) PEs, or an
    /// element of more than [`Limits::LOAD`](chare_index::Limits::LOAD) work units or
    /// [`Limits::STATE_BYTES`](chare_index::Limits::STATE_BYTES) bytes.
    #[error("a tolerance is for at most 65,536 elements, of less than 2^47 units and at most 1 MiB each, and 256 PEs")]
    TooLarge,
}

impl From<ChainError> for RunError {
    ghost from_gives = { λ refused e. e ≡ refusal_of refused };

    fn from(error: ChainError) -> RunError {
        match error {
            ChainError::TooLong => RunError::BadInput,
            ChainError::TooHeavy => RunError::BadLoad,
            ChainError::OutOfMemory => RunError::OutOfMemory,
        }
    }
}
