//! A run over threads: a worker for each PE, the queues and location words between them, and the board under its lock.
//!
//! - [`run`]: runs chares until every one has finished, or a fault is met; [`Config`]: on how many PEs, and with which limits.
//! - [`run_with`]: a run with other [`Options`] than the usual ones: how long letters may be (a [`BodyLimit`]), how rounds are decided
//!   (a [`Strategy`], within a [`Tolerance`]), whether elements keep what they have handled (a [`History`]), and what happens where
//!   workers find nothing to do ([`Idle`]).
//! - [`run_watched`]: such a run, observed by a [`Watch`].
//! - [`Outcome`], with a [`PeEnd`] for each PE: what a run left. Nothing is lost, whatever the schedule was and whatever went wrong.
//! - [`OpenedRun`], with [`open_post`] and [`run_opened`]: what a run begins with, for one that opens in another way.
//! - [`RunError`]: why a run did not begin, with the [`Setting`] that is out of its limits. [`Fault`]: why one ended early.
//!
//! docs/RUNS.md has the protocol.
//!
//! ```
//! use chare_index::NoGate;
//! use rts_run::{Config, run};
//! use tally::Tally;
//!
//! // Two chares on two PEs, each of which sends its amount to the other and is balanced once.
//! let (three, five) = (
//!     Tally::with_amounts(alloc, &[3], 8)?,
//!     Tally::with_amounts(alloc, &[5], 8)?,
//! );
//! let chares = vec![in alloc; three, five]?;
//! let outcome = run(&rt, alloc, &Config::usual(2), &NoGate, chares)?;
//! assert!(rt; outcome.fault().is_none() && outcome.rounds().len() == 1);
//! let account = outcome.account();
//! assert!(rt; account.posted == 2 && account.executed == 2 && account.held == 0);
//! ```
#![tactic(auto)]

mod config;
mod counting;
mod error;
mod gathering;
mod opened_run;
mod options;
mod outcome;
mod running;
mod workers;

pub use chain_refinement::Tolerance;
pub use chares::{BodyLimit, History};
pub use config::Config;
pub use error::{RunError, Setting};
pub use opened_run::{OpenedRun, open_post};
pub use options::{Idle, Options};
pub use outcome::Outcome;
pub use pe_state::PeEnd;
pub use pe_worker::{Fault, NoWatch, PeStep, Watch};
pub use running::{run, run_opened, run_watched, run_with};
pub use sync_board::Strategy;
