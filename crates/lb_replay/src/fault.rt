//! The lines that report a fault of a dump or a flaw of its decision.

ghost use Rattle.std.specs.Prelude.{◌≡◌, [], OnOk, IfOk};
ghost use Rattle.std.specs.String.{string_bytes};
ghost use Rattle.lb_replay.specs.Internal.{without_memory};
ghost use Rattle.lb_replay.specs.Text.{dump_advice, dump_line, fault_line, flaw_line, flaw_name};

use dump_format::DumpError;
use lb_certificates::Flaw;
use lb_strategy::PlanError;
use std::alloc::{AllocError, AllocFailed, Allocator};

/// What is reported in place of a text, or of the line that a decision is right.
#[derive(Clone, Copy)]
pub(crate) enum Fault {
    /// The dump was not read.
    Dump(DumpError),
    /// The dump was read, and no decision or no text was made.
    Plan(PlanError),
    /// The first flaw of the recorded decision.
    Flawed(Flaw),
    /// No decision was recorded.
    NoDecision,
}

impl Fault {
    /// The fault that is reported in place of this one where memory for its line is refused.
    pub(crate) fn without_memory(self) -> Fault
        ensures value { result ≡ without_memory self }
    {
        match self {
            Fault::Plan(_) => Fault::Plan(PlanError::OutOfMemory),
            Fault::Dump(_) | Fault::Flawed(_) | Fault::NoDecision => {
                Fault::Dump(DumpError::OutOfMemory)
            }
        }
    }
}

/// The line for out of memory.
pub(crate) const NO_MEMORY: &str = "out of memory\n";

/// The line that reports a fault.
///
/// # Errors
///
/// Out of memory.
pub(crate) fn fault_line<A: Allocator>(alloc: A, fault: Fault) -> Result<String<A>, AllocError>
    ensures line { IfOk result (λ line. string_bytes line ≡ fault_line fault) }
{
    match fault {
        Fault::Dump(fault) => dump_line(alloc, fault),
        Fault::Plan(PlanError::OutOfMemory) => String::from_str(alloc, NO_MEMORY),
        Fault::Flawed(flaw) => flaw_line(alloc, flaw),
        Fault::NoDecision => String::from_str(alloc, "check: no decision\n"),
    }
}

// The line that reports a fault of the dump. Its numbers are `Limits::PES`, `Limits::ELEMENTS` and
// `Limits::STATE_BYTES`.
fn dump_line<A: Allocator>(alloc: A, fault: DumpError) -> Result<String<A>, AllocError>
    ensures line { IfOk result (λ line. string_bytes line ≡ dump_line fault) }
{
    match fault {
        DumpError::Magic => String::from_str(alloc, "dump: not LBD1 or LBD2\n"),
        DumpError::Short(n) => format!(in alloc; "dump: ends at byte {n}\n"),
        DumpError::Procs => String::from_str(alloc, "dump: procs out of 1..256\n"),
        DumpError::Count => String::from_str(alloc, "dump: more than 65536 elements\n"),
        DumpError::Size(i) => format!(in alloc; "dump: element {i} has more than 1048576 bytes\n"),
        DumpError::Place(i) => format!(in alloc; "dump: element {i} is on no processor\n"),
        DumpError::Trailing => String::from_str(alloc, "dump: bytes after the last element\n"),
        DumpError::Read => String::from_str(alloc, "dump: read failed\n"),
        DumpError::Write | DumpError::Wide(_) => String::from_str(alloc, "dump: write failed\n"),
        DumpError::OutOfMemory => String::from_str(alloc, NO_MEMORY),
        DumpError::Load(i) => format!(in alloc; "dump: element {i} has too great a load\n"),
        DumpError::Flag => String::from_str(alloc, "dump: flag is not 0 or 1\n"),
        DumpError::Target => String::from_str(alloc, "dump: target out of 1..256\n"),
        DumpError::Floor => String::from_str(alloc, "dump: floor is not 0 or 1\n"),
        DumpError::MoveCount => String::from_str(alloc, "dump: more moves than elements\n"),
        DumpError::Move(k) => format!(in alloc; "dump: move {k} is out of range\n"),
    }
}

/// What to do about a fault in the bytes of a dump. A read that failed and memory that ran out are no such faults: for them
/// each program has advice of its own.
pub fn dump_advice(fault: DumpError) -> &'static str
    ensures value { result.now ≡ dump_advice fault }
{
    match fault {
        DumpError::Magic => {
            "a dump begins with LBD1 or LBD2: give one that charm_run --dump wrote, or see docs/FORMATS.md"
        }
        DumpError::Short(_) => "a dump goes on here: copy it whole, or write it again",
        DumpError::Trailing => "a dump ends here: give one dump in a file",
        _ => "see docs/FORMATS.md for what is expected there, and write the dump again",
    }
}

// The line that reports a flaw: its name and its numbers.
fn flaw_line<A: Allocator>(alloc: A, flaw: Flaw) -> Result<String<A>, AllocError>
    ensures line { IfOk result (λ line. string_bytes line ≡ flaw_line flaw) }
{
    let name = flaw_name(flaw);
    match flaw {
        Flaw::Heavy(n) | Flaw::FenceLight(n) => format!(in alloc; "check: {name} {n}\n"),
        Flaw::PriceHigh(b, p) => format!(in alloc; "check: {name} {b} {p}\n"),
        _ => format!(in alloc; "check: {name}\n"),
    }
}

// The name of a flaw.
fn flaw_name(flaw: Flaw) -> &'static str
    ensures { result.now ≡ flaw_name flaw }
{
    match flaw {
        Flaw::CutCount => "CutCount",
        Flaw::CutStart => "CutStart",
        Flaw::CutOrder => "CutOrder",
        Flaw::CutEnd => "CutEnd",
        Flaw::Heavy(_) => "Heavy",
        Flaw::FenceCount => "FenceCount",
        Flaw::FenceStart => "FenceStart",
        Flaw::FenceOrder => "FenceOrder",
        Flaw::FenceEnd => "FenceEnd",
        Flaw::FenceLight(_) => "FenceLight",
        Flaw::ZeroFloor => "ZeroFloor",
        Flaw::NameCount => "NameCount",
        Flaw::NameRange => "NameRange",
        Flaw::NameTwice => "NameTwice",
        Flaw::PriceCount => "PriceCount",
        Flaw::PriceHigh(_, _) => "PriceHigh",
        Flaw::PriceGap => "PriceGap",
        Flaw::MovedWrong => "MovedWrong",
        Flaw::MovesWrong => "MovesWrong",
    }
}
