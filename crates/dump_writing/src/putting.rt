//! Writes bytes, and lists block by block, to any writer.

ghost use Rattle.std.specs.Prelude.{◌≡◌, ◌+◌, ◌*◌, ◌-◌, ◌<◌, ◌≤◌, ℕ, List, length, take, OnErr};
ghost use Rattle.std.specs.Io.KnownBytes.{Appends};
ghost use Rattle.dump_writing.specs.Joined.{joined};
ghost use Rattle.dump_writing.specs.Writing.{Puts};
ghost use Rattle.streams.specs.Logs.{HasRefused};

use crate::items::Items;
use dump_format::DumpError;
use std::io::Write;
use streams::CallLog;

/// The number of items that are written at a time.
const BLOCK: usize = 512;

/// The most bytes of an item.
const ITEM_LEN: usize = 16;

/// Writes these bytes.
pub(crate) fn put<W: Write>(
    writer: &mut W,
    bytes: &[u8],
    log: &mut CallLog,
) -> Result<(), DumpError>
    ensures written { Puts (W.contents writer.old) (W.contents writer.new) bytes.now result }
    ensures unwritten { OnErr result (HasRefused log.new) }
{
    let mut rest = bytes;
    while !rest.is_empty() {
        match log.write(writer, rest) {
            Ok(0) | Err(_) => return Err(DumpError::Write),
            Ok(len) => (_, rest) = rest.split_at(len),
        }
    }
    Ok(())
}

// Writes the items `first..end` to the start of a block.
fn fill<const N: usize, L: Items<N>>(block: &mut [u8], list: &L, first: usize, end: usize)
    requires ordered { first ≤ end }
    requires inside { end ≤ L.count list.now }
    requires room { N * (end - first) ≤ length block.old }
    ensures { take (N * (end - first)) block.new ≡ joined (λ k. L.item list.now (first + k)) (end - first) }
{
    let mut at = 0;
    for i in first..end {
        block[at..at + N].copy_from_slice(&list.item(i));
        at += N;
    }
}

/// Writes the items of a list, one after another, a block of them at a time.
pub(crate) fn put_items<W: Write, const N: usize, L: Items<N>>(
    writer: &mut W,
    list: &L,
    log: &mut CallLog,
) -> Result<(), DumpError>
    requires { N ≤ ITEM_LEN }
    ensures written { Puts (W.contents writer.old) (W.contents writer.new) (L.text list.now) result }
    ensures unwritten { OnErr result (HasRefused log.new) }
{
    let count = list.count();
    let mut block = [0; BLOCK * ITEM_LEN];
    let mut first = 0;
    while first < count {
        let end = first + (count - first).min(BLOCK);
        fill(&mut block, list, first, end);
        put(writer, &block[..N * (end - first)], log)?;
        first = end;
    }
    Ok(())
}
