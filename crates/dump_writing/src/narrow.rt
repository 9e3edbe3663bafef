//! Writes a snapshot in LBD1, if none of its loads needs more than 32 bits.

ghost use Rattle.std.specs.Prelude.{◌≡◌, ◌^◌, ◌<◌, ℕ, All, List, length, slice_index, slice_index_or, OnOk, OnErr, IfOk, IfErr};
ghost use Rattle.std.specs.Int.{w32};
ghost use Rattle.dump_format.specs.Text.{word, element_text, elements_text, lbd1_text};
ghost use Rattle.dump_writing.specs.Joined.{joined, joined_elements};
ghost use Rattle.dump_writing.specs.Narrow.{IsNarrow, IsWideAt, taken};
ghost use Rattle.dump_writing.specs.Writing.{Puts};
ghost use Rattle.streams.specs.Logs.{HasRefused};

use crate::head::head;
use crate::items::{Items, three_words};
use crate::lengths::{HEAD_LEN, NARROW_LEN};
use crate::putting::{put, put_items};
use chare_index::Pe;
use dump_format::DumpError;
use lb_snapshot::{Snapshot, Units};
use std::alloc::Allocator;
use std::io::Write;
use streams::CallLog;

/// A snapshot that the format LBD1 can represent: none of its loads needs more than 32 bits.
#[derive(Drop)]
pub(crate) struct NarrowSnapshot<'a> {
    step: u32,
    procs: u32,
    loads: &'a [Units],
    sizes: &'a [(u32, Pe)],
    ghost narrow: { IsNarrow (taken step procs loads.now sizes.now) },
}

impl<'a> NarrowSnapshot<'a> {
    /// This snapshot, or the first of its loads that is too great.
    pub(crate) fn of<A: Allocator>(
        snapshot: &'a Snapshot<A>,
    ) -> Result<NarrowSnapshot<'a>, DumpError>
        ensures value { IfOk result (λ it. taken it.step it.procs it.loads.now it.sizes.now ≡ snapshot.now) }
        ensures refused { IfErr result (IsWideAt snapshot.now.loads) }
    {
        let loads = snapshot.loads().as_slice();
        refuse_wide(loads)?;
        Ok(NarrowSnapshot {
            step: snapshot.step(),
            procs: snapshot.procs(),
            loads,
            sizes: snapshot.sizes().as_slice(),
        })
    }
}

// Refuses the first load that needs more than 32 bits.
fn refuse_wide(loads: &[Units]) -> Result<(), DumpError>
    requires { length loads.now < 2 ^ 32 }
    ensures narrow { OnOk result (All (λ load. load < 2 ^ 32) loads.now) }
    ensures refused { IfErr result (IsWideAt loads.now) }
{
    match loads.iter().position(|&load| load > u64::from(u32::MAX)) {
        None => Ok(()),
        Some(i) => Err(DumpError::Wide(i as u32)),
    }
}

impl Items<12> for NarrowSnapshot<'_> {
    ghost count = { λ it. length it.loads.now };

    ghost item = { λ it k. element_text w32 (slice_index it.loads.now k) (slice_index_or it.sizes.now k (0, 0)) };

    ghost text = { λ it. elements_text w32 it.loads.now it.sizes.now };

    ghost is_joined = { λ it. joined_elements w32 it.loads.now it.sizes.now it.narrow.snapshot.placed.paired };

    fn count(&self) -> usize {
        self.loads.len()
    }

    fn item(&self, i: usize) -> [u8; 12] {
        let (size, place) = self.sizes[i];
        three_words(self.loads[i] as u32, size, place.get())
    }
}

/// The number of bytes in the text of a snapshot in the format LBD1.
pub(crate) fn narrow_len(snapshot: &NarrowSnapshot<'_>) -> usize
    ensures { result ≡ length (lbd1_text (taken snapshot.now.step snapshot.now.procs snapshot.now.loads.now snapshot.now.sizes.now)) }
{
    HEAD_LEN + NARROW_LEN * snapshot.loads.len()
}

/// Writes the text of a snapshot in the format LBD1.
pub(crate) fn put_narrow<W: Write>(
    writer: &mut W,
    snapshot: &NarrowSnapshot<'_>,
    log: &mut CallLog,
) -> Result<(), DumpError>
    ensures written { Puts (W.contents writer.old) (W.contents writer.new)
        (lbd1_text (taken snapshot.now.step snapshot.now.procs snapshot.now.loads.now snapshot.now.sizes.now)) result }
    ensures unwritten { OnErr result (HasRefused log.new) }
{
    let count = snapshot.loads.len() as u32;
    put(
        writer,
        &head(b'1', snapshot.step, snapshot.procs, count),
        log,
    )?;
    put_items(writer, snapshot, log)
}
