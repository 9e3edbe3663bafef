//! The JSON value of each event.

ghost use Rattle.std.specs.Prelude.{◌≡◌, codes, IfOk};
ghost use Rattle.std.specs.String.{string_bytes};
ghost use Rattle.serde_json.specs.Data.{string, object, member, no_members};
ghost use Rattle.serde_json.specs.View.{view};
ghost use Rattle.run_trace.specs.declared.event.TraceEvent.TheVariants.{Row, Slice, Instant, Decision, Load, Leaves, Comes};
ghost use Rattle.run_trace.specs.Events.{count, event_data, flow_name, flow_number, letter_name, load_name, pe_name, sign_name, work_data, work_kind, work_name};

use crate::event::{Flow, Sign, TraceEvent, Work};
use crate::time::time_value;
use chare_index::Limits;
use serde_json::{Value, json};
use std::alloc::{AllocError, Global};

/// The value of an event.
pub(crate) fn event_value(alloc: Global, event: &TraceEvent) -> Result<Value, AllocError>
    ensures value { IfOk result (λ v. view v ≡ event_data event.now) }
{
    match event {
        TraceEvent::Row(pe) => row_value(alloc, *pe),
        TraceEvent::Slice {
            pe,
            at,
            duration,
            work,
            element,
        } => slice_value(alloc, *pe, *at, *duration, work, *element),
        TraceEvent::Instant { pe, at, sign } => instant_value(alloc, *pe, *at, sign),
        TraceEvent::Decision { at, round } => decision_value(alloc, *at, *round),
        TraceEvent::Load { pe, at, load } => load_value(alloc, *pe, *at, *load),
        TraceEvent::Leaves { pe, at, flow } => leaving_value(alloc, *pe, *at, flow),
        TraceEvent::Comes { pe, at, flow } => coming_value(alloc, *pe, *at, flow),
    }
}

fn row_value(alloc: Global, pe: u32) -> Result<Value, AllocError>
    ensures value { IfOk result (λ v. view v ≡ event_data (Row pe)) }
{
    let name = pe_text(alloc, pe)?;
    json!(in alloc; {"args": {"name": name}, "name": "thread_name", "ph": "M", "pid": 1u64, "tid": pe})
}

// What the row of a PE is called.
fn pe_text(alloc: Global, pe: u32) -> Result<String, AllocError>
    ensures text { IfOk result (λ text. string_bytes text ≡ pe_name pe) }
{
    let mut text = String::new(alloc);
    write!(text, "PE {pe}")?;
    Ok(text)
}

fn slice_value(
    alloc: Global,
    pe: u32,
    at: u64,
    duration: u64,
    work: &Work,
    element: u32,
) -> Result<Value, AllocError>
    ensures value { IfOk result (λ v. view v ≡ event_data (Slice pe at duration work.now element)) }
{
    let said = work_value(alloc, work, element)?;
    let (at, duration) = (time_value(at), time_value(duration));
    let (name, kind) = (work_name(work), work_kind(work));
    json!(in alloc; {"args": said, "cat": kind, "dur": duration, "name": name, "ph": "X", "pid": 1u64, "tid": pe, "ts": at})
}

fn work_value(alloc: Global, work: &Work, element: u32) -> Result<Value, AllocError>
    ensures value { IfOk result (λ v. view v ≡ work_data work.now element) }
{
    match work {
        Work::Letter(pe, number) => letter_value(alloc, *pe, *number, element),
        Work::Resume(round) => round_value(alloc, *round, element),
        Work::Start | Work::Depart | Work::Arrive => element_value(alloc, element),
    }
}

fn element_value(alloc: Global, element: u32) -> Result<Value, AllocError>
    ensures value { IfOk result (λ v. view v ≡ object (member (codes "element") (count element) no_members)) }
{
    json!(in alloc; {"element": element})
}

fn letter_value(alloc: Global, pe: u32, number: u32, element: u32) -> Result<Value, AllocError>
    ensures value { IfOk result (λ v. view v ≡ object (member (codes "element") (count element) (member (codes "letter") (string (letter_name pe number)) no_members))) }
{
    let mut letter = String::new(alloc);
    write!(letter, "{pe}.{number}")?;
    json!(in alloc; {"element": element, "letter": letter})
}

fn round_value(alloc: Global, round: u32, element: u32) -> Result<Value, AllocError>
    ensures value { IfOk result (λ v. view v ≡ object (member (codes "element") (count element) (member (codes "round") (count round) no_members))) }
{
    json!(in alloc; {"element": element, "round": round})
}

fn work_name(work: &Work) -> &'static str
    ensures value { result.now ≡ work_name work.now }
{
    match work {
        Work::Start => "start",
        Work::Letter(_, _) => "letter",
        Work::Resume(_) => "resume",
        Work::Depart => "depart",
        Work::Arrive => "arrive",
    }
}

fn work_kind(work: &Work) -> &'static str
    ensures value { result.now ≡ work_kind work.now }
{
    match work {
        Work::Start | Work::Letter(_, _) | Work::Resume(_) => "handler",
        Work::Depart | Work::Arrive => "move",
    }
}

fn instant_value(alloc: Global, pe: u32, at: u64, sign: &Sign) -> Result<Value, AllocError>
    ensures value { IfOk result (λ v. view v ≡ event_data (Instant pe at sign.now)) }
{
    let (at, name) = (time_value(at), sign_name(sign));
    json!(in alloc; {"name": name, "ph": "i", "pid": 1u64, "s": "t", "tid": pe, "ts": at})
}

fn sign_name(sign: &Sign) -> &'static str
    ensures value { result.now ≡ sign_name sign.now }
{
    match sign {
        Sign::Report => "report",
        Sign::Resumption => "resumption",
        Sign::Shelve => "shelve",
        Sign::Forward => "forward",
    }
}

fn decision_value(alloc: Global, at: u64, round: u32) -> Result<Value, AllocError>
    ensures value { IfOk result (λ v. view v ≡ event_data (Decision at round)) }
{
    let at = time_value(at);
    json!(in alloc; {"args": {"round": round}, "name": "decision", "ph": "i", "pid": 1u64, "s": "g", "tid": 0u64, "ts": at})
}

fn load_value(alloc: Global, pe: u32, at: u64, load: u64) -> Result<Value, AllocError>
    ensures value { IfOk result (λ v. view v ≡ event_data (Load pe at load)) }
{
    let (at, name) = (time_value(at), load_text(alloc, pe)?);
    json!(in alloc; {"args": {"load": load}, "name": name, "ph": "C", "pid": 1u64, "ts": at})
}

// What the counter of a PE is called.
fn load_text(alloc: Global, pe: u32) -> Result<String, AllocError>
    ensures text { IfOk result (λ text. string_bytes text ≡ load_name pe) }
{
    let mut text = String::new(alloc);
    write!(text, "load of PE {pe}")?;
    Ok(text)
}

fn leaving_value(alloc: Global, pe: u32, at: u64, flow: &Flow) -> Result<Value, AllocError>
    ensures value { IfOk result (λ v. view v ≡ event_data (Leaves pe at flow.now)) }
{
    let (at, name, number) = (time_value(at), flow_name(flow), flow_number(flow));
    json!(in alloc; {"cat": name, "id": number, "name": name, "ph": "s", "pid": 1u64, "tid": pe, "ts": at})
}

fn coming_value(alloc: Global, pe: u32, at: u64, flow: &Flow) -> Result<Value, AllocError>
    ensures value { IfOk result (λ v. view v ≡ event_data (Comes pe at flow.now)) }
{
    let (at, name, number) = (time_value(at), flow_name(flow), flow_number(flow));
    json!(in alloc; {"bp": "e", "cat": name, "id": number, "name": name, "ph": "f", "pid": 1u64, "tid": pe, "ts": at})
}

fn flow_name(flow: &Flow) -> &'static str
    ensures value { result.now ≡ flow_name flow.now }
{
    match flow {
        Flow::Letter(_, _) => "letter",
        Flow::Element(_) => "element",
    }
}

fn flow_number(flow: &Flow) -> u64
    ensures value { result ≡ flow_number flow.now }
{
    match flow {
        Flow::Letter(pe, number) => u64::from(*number) * u64::from(Limits::PES) + u64::from(*pe),
        Flow::Element(element) => u64::from(*element),
    }
}
