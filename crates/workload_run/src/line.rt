//! The one line that is written where there is no outcome.

ghost use Rattle.std.specs.Prelude.{◌≡◌, IfOk};
ghost use Rattle.std.specs.String.{string_bytes};
ghost use Rattle.workload_run.specs.Lines.{fault_line};

use std::alloc::{AllocError, Allocator};
use workload::WorkError;

/// The line where memory was refused.
pub(crate) const NO_MEMORY: &str = "out of memory\n";

/// The line of a fault of a workload, other than that memory was refused.
///
/// # Errors
///
/// Out of memory.
pub(crate) fn fault_line<A: Allocator>(alloc: A, fault: WorkError) -> Result<String<A>, AllocError>
    ensures line { IfOk result (λ line. string_bytes line ≡ fault_line fault) }
{
    match fault {
        WorkError::Form(k) => format!(in alloc; "workload: line {k}\n"),
        WorkError::Limit(k) => format!(in alloc; "workload: limit in line {k}\n"),
        WorkError::Long => String::from_str(alloc, "workload: too long\n"),
        WorkError::Read => String::from_str(alloc, "workload: read failed\n"),
        WorkError::OutOfMemory => String::from_str(alloc, NO_MEMORY),
    }
}
