//! The worked rows of runs over threads: four tallies on two PEs, runs that end early, handlers that run at the same time, queues with
//! capacity for one parcel, and the limits of a run.
#![tactic(auto)]

#[cfg(test)]
mod ends_early;
#[cfg(test)]
mod fixtures;
#[cfg(test)]
mod limits;
#[cfg(test)]
mod narrow;
#[cfg(test)]
mod together;
#[cfg(test)]
mod worked;
