//! The worked rows of `charm_run`: texts of workloads and their faults, whole runs from bytes to bytes, readers and writers that fail,
//! and the dumps of a run.
#![tactic(auto)]

#[cfg(test)]
mod dumps;
#[cfg(test)]
mod failures;
#[cfg(test)]
mod fixtures;
#[cfg(test)]
mod parsing;
#[cfg(test)]
mod worked;
