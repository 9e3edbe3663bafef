//! What happened in a run, in order of time, and its trace in the Trace Event Format, which chrome://tracing and Perfetto read.
//!
//! - [`Recorder`]: a [`Watch`](pe_worker::Watch) that keeps each step of a run over threads, with its time. [`Tracing`]: a recorder or
//!   none, so that one call of a run serves both.
//! - [`Timeline`]: what happened: of a recorder, or of the steps of a run on one thread, by their numbers. [`Happening`]: what a PE did,
//!   or a decision, with its time.
//! - [`trace_of`]: the events that show what happened; [`write_trace`] writes their text; [`keep_trace`]: that of a file, or the
//!   [`LostTrace`], with the system's reason.
//! - [`TraceEvent`]: a handler as a slice in the row of its PE, an arrow for a letter or for an element that moves, an instant, a
//!   decision, or the load of a PE. [`event_text`]: its text, which is JSON; [`events_text`]: the text of a trace.
#![tactic(auto)]

mod error;
mod event;
mod happening;
mod loads;
mod lost;
mod pe_trace;
mod recorder;
mod shown;
mod steps;
mod text;
mod time;
mod timeline;
mod trace;
mod tracing;
mod value;

pub use error::TraceError;
pub use event::{Flow, Sign, TraceEvent, Work};
pub use happening::{Action, Happening, What};
pub use lost::LostTrace;
pub use recorder::Recorder;
pub use steps::happening_of;
pub use text::{event_text, events_text};
pub use timeline::Timeline;
pub use trace::{keep_trace, trace_of, write_trace};
pub use tracing::Tracing;
