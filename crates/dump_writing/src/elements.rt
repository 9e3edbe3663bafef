//! Writes the head and the elements of a snapshot in LBD2.

ghost use Rattle.std.specs.Prelude.{◌≡◌, ◌++◌, ℕ, List, length, slice_index, slice_index_or, OnErr};
ghost use Rattle.std.specs.Int.{w64};
ghost use Rattle.dump_format.specs.Text.{word, long, element_text, elements_text};
ghost use Rattle.dump_writing.specs.Joined.{joined, joined_elements};
ghost use Rattle.dump_writing.specs.Parts.{front_text};
ghost use Rattle.dump_writing.specs.Writing.{Puts};
ghost use Rattle.streams.specs.Logs.{HasRefused};

use crate::head::head;
use crate::items::Items;
use crate::putting::{put, put_items};
use chare_index::Pe;
use dump_format::DumpError;
use lb_snapshot::{Snapshot, Units};
use std::alloc::Allocator;
use std::io::Write;
use streams::CallLog;

/// The elements of a snapshot in the format LBD2, each with its load in 64 bits.
#[derive(Drop)]
pub(crate) struct Elements<'a> {
    loads: &'a [Units],
    sizes: &'a [(u32, Pe)],
    ghost paired: { length loads.now ≡ length sizes.now },
}

impl Items<16> for Elements<'_> {
    ghost count = { λ elements. length elements.loads.now };

    ghost item = { λ elements k. element_text w64 (slice_index elements.loads.now k) (slice_index_or elements.sizes.now k (0, 0)) };

    ghost text = { λ elements. elements_text w64 elements.loads.now elements.sizes.now };

    ghost is_joined = { λ elements. joined_elements w64 elements.loads.now elements.sizes.now elements.paired };

    fn count(&self) -> usize {
        self.loads.len()
    }

    fn item(&self, i: usize) -> [u8; 16] {
        let (size, place) = self.sizes[i];
        long_and_words(self.loads[i], size, place.get())
    }
}

// A number of 64 bits and two of 32.
fn long_and_words(first: u64, second: u32, third: u32) -> [u8; 16]
    ensures { result ≡ long first ++ (word second ++ word third) }
{
    let mut text = [0; 16];
    text[..8].copy_from_slice(&first.to_be_bytes());
    text[8..12].copy_from_slice(&second.to_be_bytes());
    text[12..].copy_from_slice(&third.to_be_bytes());
    text
}

/// Writes the text of a snapshot in the format LBD2, up to its last element.
pub(crate) fn put_front<W: Write, A: Allocator>(
    writer: &mut W,
    snapshot: &Snapshot<A>,
    log: &mut CallLog,
) -> Result<(), DumpError>
    ensures written { Puts (W.contents writer.old) (W.contents writer.new) (front_text snapshot.now) result }
    ensures unwritten { OnErr result (HasRefused log.new) }
{
    let loads = snapshot.loads().as_slice();
    let sizes = snapshot.sizes().as_slice();
    let count = loads.len() as u32;
    put(
        writer,
        &head(b'2', snapshot.step(), snapshot.procs(), count),
        log,
    )?;
    put_items(writer, &Elements { loads, sizes }, log)
}
