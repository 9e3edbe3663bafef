//! Why a run ends early, and what can be wrong with its outcome.

ghost use Rattle.pe_state.specs.Refusals.{RefusesStep};
ghost use Rattle.pe_worker.specs.Causes.{HasCause, MayRefuse};

use chares::{Chare, Openings};
use pe_state::StepError;
use std::alloc::Allocator;
use thiserror::Error;

/// Why a run ended before every element had finished, or what is wrong with its outcome. The numbers are stable; 7 is not
/// used.
#[derive(Clone, Copy, Debug, PartialEq, Eq, Error)]
pub enum Fault {
    /// No memory was left, or a thread could not be started.
    #[error("out of memory, or no thread could be started")]
    OutOfMemory = 1,
    /// A worker found nothing to do for as many turns in a row as it may.
    #[error("a worker found nothing to do for as many turns as it may")]
    Idle = 2,
    /// The bytes of an element are no state. This never comes, since a state that was packed is unpacked again.
    #[error("the bytes of an element are no state")]
    Unpack = 3,
    /// A handler was refused a letter to an element that is not there, and passed the refusal on.
    #[error("a letter to an element that is not there")]
    Stranger = 4,
    /// A handler was refused a letter with too long a body, and passed the refusal on.
    #[error("a letter with too long a body")]
    TooLong = 5,
    /// A handler was refused a letter since its PE has posted as many as it may, and passed the refusal on; or the last
    /// round was to be decided.
    #[error("a PE has posted as many letters as it may, or the last round was to be decided")]
    Worn = 6,
    /// The marks of the elements do not agree with the rounds that were decided.
    #[error("the marks of the elements do not agree with the rounds")]
    Mismatch = 8,
    /// The run was stopped before every element had finished: its [`Watch`](crate::Watch) asked it to, or no worker says why.
    #[error("the run was stopped before every element had finished")]
    Stopped = 9,
    /// Nothing was left to do, and not every element had finished: no letter was anywhere but on a shelf, and no element could go on.
    #[error("nothing was left to do, and not every element had finished")]
    Quiet = 10,
}

/// What a refused step of a PE comes to. The bytes of an element always are a state.
pub(crate) fn fault_of<C: Chare<A>, H: Openings<C>, A: Allocator>(error: StepError) -> Fault
    requires cause { RefusesStep (MayRefuse C.step C.pack C.refuses H.opened) error }
    ensures cause { HasCause C.step C.pack C.refuses H.opened result }
{
    match error {
        StepError::OutOfMemory => Fault::OutOfMemory,
        StepError::Unpack => unreachable!(),
        StepError::Stranger => Fault::Stranger,
        StepError::TooLong => Fault::TooLong,
        StepError::Worn => Fault::Worn,
    }
}
