//! The text of a dump or a snapshot as a vector of bytes.

ghost use Rattle.std.specs.Prelude.{IfOk, IfErr};
ghost use Rattle.dump_format.specs.Text.{IsLbd1, IsLbd2};
ghost use Rattle.dump_writing.specs.Narrow.{RefusesLbd1};

use crate::lengths::dump_len;
use crate::narrow::{NarrowSnapshot, narrow_len, put_narrow};
use crate::writing::write_dump;
use dump_format::{Dump, DumpError};
use lb_snapshot::Snapshot;
use std::alloc::{AllocError, Allocator};
use streams::CallLog;

/// The text of a dump in the format LBD2.
///
/// # Errors
///
/// Memory was refused.
pub fn encode_dump<A: Allocator, B: Allocator>(
    alloc: A,
    dump: &Dump<B>,
) -> Result<Vec<u8, A>, AllocError>
    ensures text { IfOk result (λ text. IsLbd2 dump.now text.items) }
{
    let mut text = Vec::with_capacity(alloc, dump_len(dump))?;
    write_dump(&mut text, dump).map_err(|_| AllocError)?;
    Ok(text)
}

/// The text of a snapshot in the format LBD1.
///
/// # Errors
///
/// In this order:
/// - [`Wide`](DumpError::Wide) with the first element whose load is above 4,294,967,295.
/// - [`OutOfMemory`](DumpError::OutOfMemory) where memory was refused.
pub fn encode<A: Allocator, B: Allocator>(
    alloc: A,
    snapshot: &Snapshot<B>,
) -> Result<Vec<u8, A>, DumpError>
    ensures text { IfOk result (λ text. IsLbd1 snapshot.now text.items) }
    ensures refused { IfErr result (RefusesLbd1 snapshot.now.loads) }
{
    let narrow = NarrowSnapshot::of(snapshot)?;
    let mut text = Vec::with_capacity(alloc, narrow_len(&narrow))?;
    put_narrow(&mut text, &narrow, &mut CallLog::new()).map_err(|_| DumpError::OutOfMemory)?;
    Ok(text)
}
