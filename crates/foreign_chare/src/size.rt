//! The size of an object.

use chare_index::Limits;

/// How many bytes an object of another program may have at most: 1,048,560. With the 16 bytes of its stamp that is a pack of the
/// greatest length.
pub const OBJECT_BYTES: u32 = Limits::STATE_BYTES - 16;
