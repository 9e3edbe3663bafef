//! Writes the decision that follows the elements in LBD2.

ghost use Rattle.std.specs.Prelude.{◌^◌, ◌<◌, List, ℕ, length, OnErr};
ghost use Rattle.dump_format.specs.Text.{floor_text, plan_text, ending_text};
ghost use Rattle.dump_writing.specs.Parts.{division_text, naming_text};
ghost use Rattle.dump_writing.specs.Writing.{Puts};
ghost use Rattle.streams.specs.Logs.{HasRefused};

use crate::putting::{put, put_items};
use dump_format::{Dump, DumpError, Recorded};
use lb_certificates::{Division, Floor};
use lb_strategy::Decision;
use std::alloc::Allocator;
use std::io::Write;
use streams::CallLog;

/// Writes what follows the elements in the format LBD2: 0, or 1 and the decision.
pub(crate) fn put_ending<W: Write, A: Allocator>(
    writer: &mut W,
    dump: &Dump<A>,
    log: &mut CallLog,
) -> Result<(), DumpError>
    ensures written { Puts (W.contents writer.old) (W.contents writer.new) (ending_text dump.now.recorded) result }
    ensures unwritten { OnErr result (HasRefused log.new) }
{
    let Some(recorded) = dump.recorded() else {
        return put(writer, &0_u32.to_be_bytes(), log);
    };
    put(writer, &1_u32.to_be_bytes(), log)?;
    put_plan(writer, recorded, log)?;
    put_items(writer, &recorded.decision.moves.as_slice(), log)
}

// Writes a decision up to its moves.
fn put_plan<W: Write, A: Allocator>(
    writer: &mut W,
    recorded: &Recorded<A>,
    log: &mut CallLog,
) -> Result<(), DumpError>
    requires { length recorded.now.decision.moves < 2 ^ 32 }
    ensures written { Puts (W.contents writer.old) (W.contents writer.new) (plan_text recorded.now) result }
    ensures unwritten { OnErr result (HasRefused log.new) }
{
    put(writer, &recorded.target.to_be_bytes(), log)?;
    put_division(writer, &recorded.decision.division, log)?;
    put_naming(writer, &recorded.decision, log)
}

// Writes a division: its bottleneck, its cuts and its floor.
fn put_division<W: Write, A: Allocator>(
    writer: &mut W,
    division: &Division<A>,
    log: &mut CallLog,
) -> Result<(), DumpError>
    ensures written { Puts (W.contents writer.old) (W.contents writer.new) (division_text division.now) result }
    ensures unwritten { OnErr result (HasRefused log.new) }
{
    put(writer, &division.bottleneck.to_be_bytes(), log)?;
    put_items(writer, &division.cuts.as_slice(), log)?;
    put_floor(writer, &division.floor, log)
}

// Writes a floor: 0, or 1 and its stops.
fn put_floor<W: Write, A: Allocator>(
    writer: &mut W,
    floor: &Floor<A>,
    log: &mut CallLog,
) -> Result<(), DumpError>
    ensures written { Puts (W.contents writer.old) (W.contents writer.new) (floor_text floor.now) result }
    ensures unwritten { OnErr result (HasRefused log.new) }
{
    match floor {
        Floor::Zero => put(writer, &0_u32.to_be_bytes(), log),
        Floor::Fence(stops) => {
            put(writer, &1_u32.to_be_bytes(), log)?;
            put_items(writer, &stops.as_slice(), log)
        }
    }
}

// Writes the names, the prices, the bytes moved and the number of moves.
fn put_naming<W: Write, A: Allocator>(
    writer: &mut W,
    decision: &Decision<A>,
    log: &mut CallLog,
) -> Result<(), DumpError>
    requires { length decision.now.moves < 2 ^ 32 }
    ensures written { Puts (W.contents writer.old) (W.contents writer.new) (naming_text decision.now) result }
    ensures unwritten { OnErr result (HasRefused log.new) }
{
    put_items(writer, &decision.naming.as_slice(), log)?;
    put_items(writer, &decision.prices.u.as_slice(), log)?;
    put_items(writer, &decision.prices.v.as_slice(), log)?;
    put(writer, &decision.moved.to_be_bytes(), log)?;
    let moves = decision.moves.as_slice().len() as u32;
    put(writer, &moves.to_be_bytes(), log)
}
