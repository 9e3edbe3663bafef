//! How long a dump is by its head, for what is said of one that ends too early.
//!
//! - [`HeadWitness`]: sees the head of a dump while it is read.
//! - [`said_of_end`]: where the dump ends, and of how many bytes.
#![tactic(auto)]

ghost use Rattle.std.specs.Prelude.{◌≡◌, ◌+◌, ◌*◌, ◌≤◌, ◌^◌, ◌<◌, length, take};
ghost use Rattle.dump_lengths.specs.Lengths.{element_len, end_len};

use program_files::Witness;
use std::alloc::{AllocError, Allocator};

/// The length of the head: the magic, the step, the number of PEs and that of elements.
const HEAD_LEN: usize = 16;

/// Keeps the head of a dump, the first 16 bytes, as they are read.
#[derive(Clone, Copy, Debug)]
pub struct HeadWitness {
    head: [u8; 16],
    len: usize,
}

impl HeadWitness {
    /// Before any byte.
    pub fn new() -> HeadWitness {
        HeadWitness {
            head: [0; HEAD_LEN],
            len: 0,
        }
    }

    // How many elements the dump has, and whether it is in the format LBD2, where the head is whole.
    fn found(&self) -> Option<(u32, bool)> {
        if self.len < HEAD_LEN {
            return None;
        }
        let [_, _, _, format, _, _, _, _, _, _, _, _, a, b, c, d] = self.head;
        Some((u32::from_be_bytes([a, b, c, d]), format == b'2'))
    }
}

impl Witness for HeadWitness {
    fn sees(&mut self, bytes: &[u8]) {
        for byte in bytes {
            if self.len >= HEAD_LEN {
                return;
            }
            self.head[self.len] = *byte;
            self.len += 1;
        }
    }
}

/// The length of a dump of this many elements: that of one in the format LBD1, and the least of one in LBD2, which has no decision.
pub fn whole_len(count: u32, is_wide: bool) -> u64
    ensures value { result ≡ end_len count is_wide }
{
    let count = u64::from(count);
    if is_wide {
        16 + 16 * count + 4
    } else {
        16 + 12 * count
    }
}

/// Where a dump that ends after this many bytes ends, and of how many: `ends at byte 40 of 52`.
///
/// # Errors
///
/// Memory was refused.
pub fn said_of_end<A: Allocator>(
    alloc: A,
    head: &HeadWitness,
    end: u64,
) -> Result<String<A>, AllocError> {
    let Some((count, is_wide)) = head.found() else {
        return format!(in alloc; "ends at byte {end} of at least {HEAD_LEN}");
    };
    let least = whole_len(count, is_wide);
    if end >= least {
        return format!(in alloc; "ends at byte {end}, in its decision");
    }
    if is_wide {
        return format!(in alloc; "ends at byte {end} of at least {least}");
    }
    format!(in alloc; "ends at byte {end} of {least}")
}
