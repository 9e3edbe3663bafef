//! Why a dump is not read or written.

ghost use Rattle.std.specs.Prelude.{◌≡◌};
ghost use Rattle.dump_format.specs.Faults.{fault_number};
ghost use Rattle.dump_format.specs.declared.error.DumpError.TheVariants.{OutOfMemory};

use std::alloc::{AllocError, AllocFailed};
use thiserror::Error;

/// Why a dump was not read or written. Of the faults of a text, [`Magic`](DumpError::Magic) to
/// [`Trailing`](DumpError::Trailing) and [`Load`](DumpError::Load) to [`Move`](DumpError::Move), the first from left to
/// right is reported: a wrong magic byte at once, and any other once its field is whole.
#[derive(Clone, Copy, Debug, PartialEq, Eq, Error)]
pub enum DumpError {
    /// A byte of the first four is neither that of `LBD1` nor that of `LBD2`.
    #[error("not a dump")]
    Magic,
    /// The text ends after this number of bytes, before its last field does.
    #[error("the dump ends after {0} bytes")]
    Short(u32),
    /// The number of PEs is 0 or above 256 (`Limits::PES`).
    #[error("the number of PEs is out of range")]
    Procs,
    /// There are more than 65,536 elements (`Limits::ELEMENTS`).
    #[error("too many elements")]
    Count,
    /// The packed size of this element is above 1,048,576 bytes (`Limits::STATE_BYTES`).
    #[error("the size of element {0} is out of range")]
    Size(u32),
    /// The place of this element is not below the number of PEs.
    #[error("the place of element {0} is out of range")]
    Place(u32),
    /// A byte follows the end of the text.
    #[error("bytes follow the end")]
    Trailing,
    /// The reader failed, or was called more often than any dump has bytes.
    #[error("reading failed")]
    Read,
    /// The writer failed, or took no byte.
    #[error("writing failed")]
    Write,
    /// Memory was refused.
    #[error("out of memory")]
    OutOfMemory,
    /// The load of this element is above 140,737,488,355,327 (`Limits::LOAD`).
    #[error("the load of element {0} is out of range")]
    Load(u32),
    /// The flag that says whether a decision follows is neither 0 nor 1.
    #[error("the flag is out of range")]
    Flag,
    /// The number of PEs that the decision is for is 0 or above 256 (`Limits::PES`).
    #[error("the target is out of range")]
    Target,
    /// The kind of the floor is neither 0 nor 1.
    #[error("the floor is out of range")]
    Floor,
    /// There are more moves than elements.
    #[error("too many moves")]
    MoveCount,
    /// A number of this move is out of range: no element has its index, or a PE is above 255.
    #[error("move {0} is out of range")]
    Move(u32),
    /// This element is the first whose load is above 4,294,967,295, so LBD1 cannot represent it.
    #[error("the load of element {0} is too great for the format")]
    Wide(u32),
}

impl DumpError {
    /// The number of this kind of fault, 1 to 17 in the order above. It stays the same in later versions.
    pub fn number(self) -> u8
        ensures value { result ≡ fault_number self }
    {
        match self {
            DumpError::Magic => 1,
            DumpError::Short(_) => 2,
            DumpError::Procs => 3,
            DumpError::Count => 4,
            DumpError::Size(_) => 5,
            DumpError::Place(_) => 6,
            DumpError::Trailing => 7,
            DumpError::Read => 8,
            DumpError::Write => 9,
            DumpError::OutOfMemory => 10,
            DumpError::Load(_) => 11,
            DumpError::Flag => 12,
            DumpError::Target => 13,
            DumpError::Floor => 14,
            DumpError::MoveCount => 15,
            DumpError::Move(_) => 16,
            DumpError::Wide(_) => 17,
        }
    }
}

impl From<AllocError> for DumpError {
    ghost from_gives = { λ _ e. e ≡ OutOfMemory };

    fn from(_: AllocError) -> DumpError {
        DumpError::OutOfMemory
    }
}

impl<T: Drop> From<AllocFailed<T>> for DumpError {
    ghost from_gives = { λ _ e. e ≡ OutOfMemory };

    fn from(_: AllocFailed<T>) -> DumpError {
        DumpError::OutOfMemory
    }
}
