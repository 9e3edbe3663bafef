//! Writes the text of a checkpoint line by line: memory never holds more than one line of it.

ghost use Rattle.std.specs.Prelude.{◌≡◌, ◌++◌, ◌∷◌, [], List, codes, length, OnOk};
ghost use Rattle.std.specs.List.{flat_map};
ghost use Rattle.std.specs.String.{string_bytes};
ghost use Rattle.run_checkpoint.specs.Text.{checkpoint_text, decided_line, decision_end, places_line, round_lines, round_start};
ghost use Rattle.run_checkpoint.specs.Writing.{Puts};
ghost use Rattle.workload.specs.Text.{amounts_text, line, workload_text};

use crate::checkpoint::DecidedRound;
use crate::putting::put;
use chare_index::Pe;
use std::alloc::{AllocError, Allocator};
use std::io::{self, Write};
use workload::Workload;

/// Writes the text of a checkpoint: what was decided for each round, the PE of each chare, and the workload. It is written
/// line by line, and the buffer holds one line.
///
/// [`Checkpoint::parse`](crate::Checkpoint::parse) returns the same parts from the text, where they are within their limits.
///
/// # Errors
///
/// Memory was refused, the writer failed, with any error, or it took no byte (`WriteZero`). A prefix of the text has then been
/// written. No call of the writer is made again.
pub fn write_checkpoint<W: Write, A: Allocator, B: Allocator>(
    alloc: B,
    decided: &[DecidedRound],
    places: &[Pe],
    workload: &Workload<A>,
    writer: &mut W,
) -> io::Result<()>
    ensures written { Puts (W.contents writer.old) (W.contents writer.new)
        (checkpoint_text (record { decided = decided.now; places = places.now; workload = workload.now })) result }
{
    let mut buffer = String::new(alloc);
    put_head(writer, &mut buffer, decided.len())?;
    put_rounds(writer, &mut buffer, decided)?;
    put_places(writer, &mut buffer, places)?;
    put_workload(writer, &mut buffer, workload)
}

// Writes the first line. The string is a buffer, here and below.
fn put_head<W: Write, B: Allocator>(
    writer: &mut W,
    buffer: &mut String<B>,
    rounds: usize,
) -> io::Result<()>
    ensures { Puts (W.contents writer.old) (W.contents writer.new) (line (codes "checkpoint") (rounds ∷ [])) result }
{
    buffer.clear();
    push_head(buffer, rounds)?;
    put(writer, buffer.as_bytes())
}

fn push_head<B: Allocator>(text: &mut String<B>, rounds: usize) -> Result<(), AllocError>
    requires empty { string_bytes text.old ≡ [] }
    ensures { OnOk result (string_bytes text.new ≡ line (codes "checkpoint") (rounds ∷ [])) }
{
    writeln!(text, "checkpoint {rounds}")
}

// Writes the lines of these rounds, from round 1 on.
fn put_rounds<W: Write, B: Allocator>(
    writer: &mut W,
    buffer: &mut String<B>,
    decided: &[DecidedRound],
) -> io::Result<()>
    ensures { Puts (W.contents writer.old) (W.contents writer.new) (round_lines 1 decided.now) result }
{
    for (i, round) in decided.iter().enumerate() {
        put_round(writer, buffer, i + 1, round)?;
    }
    Ok(())
}

fn put_round<W: Write, B: Allocator>(
    writer: &mut W,
    buffer: &mut String<B>,
    r: usize,
    round: &DecidedRound,
) -> io::Result<()>
    ensures { Puts (W.contents writer.old) (W.contents writer.new) (decided_line r round.now) result }
{
    buffer.clear();
    push_round(buffer, r, round.bottleneck, round.moved)?;
    put(writer, buffer.as_bytes())
}

fn push_round<B: Allocator>(
    text: &mut String<B>,
    round: usize,
    bottleneck: u64,
    moved: u64,
) -> Result<(), AllocError>
    requires empty { string_bytes text.old ≡ [] }
    ensures { OnOk result (string_bytes text.new ≡ decided_line round (record { bottleneck = bottleneck; moved = moved })) }
{
    push_round_start(text, round)?;
    push_decision_end(text, bottleneck, moved)
}

// A round, without what was decided.
fn push_round_start<B: Allocator>(text: &mut String<B>, round: usize) -> Result<(), AllocError>
    ensures { OnOk result (string_bytes text.new ≡ string_bytes text.old ++ round_start round) }
{
    write!(text, "round {round}")
}

fn push_decision_end<B: Allocator>(
    text: &mut String<B>,
    bottleneck: u64,
    moved: u64,
) -> Result<(), AllocError>
    ensures { OnOk result (string_bytes text.new ≡ string_bytes text.old ++ decision_end bottleneck moved) }
{
    writeln!(text, " bottleneck {bottleneck} moved {moved}")
}

// Writes the line of the places.
fn put_places<W: Write, B: Allocator>(
    writer: &mut W,
    buffer: &mut String<B>,
    places: &[Pe],
) -> io::Result<()>
    ensures { Puts (W.contents writer.old) (W.contents writer.new) (places_line places.now) result }
{
    buffer.clear();
    push_places(buffer, places)?;
    put(writer, buffer.as_bytes())
}

fn push_places<B: Allocator>(text: &mut String<B>, places: &[Pe]) -> Result<(), AllocError>
    requires empty { string_bytes text.old ≡ [] }
    ensures { OnOk result (string_bytes text.new ≡ places_line places.now) }
{
    text.push_str("places")?;
    for place in places {
        let number = place.get();
        write!(text, " {number}")?;
    }
    text.push_str("\n")
}

// Writes the text of a workload.
fn put_workload<W: Write, A: Allocator, B: Allocator>(
    writer: &mut W,
    buffer: &mut String<B>,
    workload: &Workload<A>,
) -> io::Result<()>
    ensures { Puts (W.contents writer.old) (W.contents writer.new) (workload_text workload.now) result }
{
    put_line(writer, buffer, "pes", &[workload.pes])?;
    put_line(writer, buffer, "rounds", &[workload.rounds])?;
    put_line(writer, buffer, "pad", &[workload.pad])?;
    put_line(writer, buffer, "chares", &[workload.chares])?;
    put_amounts(writer, buffer, &workload.amounts)
}

// Writes the lines of amounts.
fn put_amounts<W: Write, A: Allocator, B: Allocator>(
    writer: &mut W,
    buffer: &mut String<B>,
    rows: &[Vec<u32, A>],
) -> io::Result<()>
    ensures { Puts (W.contents writer.old) (W.contents writer.new) (flat_map (λ row. amounts_text row.items) rows.now) result }
{
    for row in rows {
        put_line(writer, buffer, "amounts", row)?;
    }
    Ok(())
}

// Writes a line: a word, and numbers.
fn put_line<W: Write, B: Allocator>(
    writer: &mut W,
    buffer: &mut String<B>,
    word: &str,
    numbers: &[u32],
) -> io::Result<()>
    ensures { Puts (W.contents writer.old) (W.contents writer.new) (line word.now numbers.now) result }
{
    buffer.clear();
    push_line(buffer, word, numbers)?;
    put(writer, buffer.as_bytes())
}

fn push_line<B: Allocator>(
    text: &mut String<B>,
    word: &str,
    numbers: &[u32],
) -> Result<(), AllocError>
    requires empty { string_bytes text.old ≡ [] }
    ensures { OnOk result (string_bytes text.new ≡ line word.now numbers.now) }
{
    text.push_str(word)?;
    for number in numbers {
        write!(text, " {number}")?;
    }
    text.push_str("\n")
}
