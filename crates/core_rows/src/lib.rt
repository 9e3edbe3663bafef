//! The worked rows of the core: packed states, where elements begin, and worlds, event by event.
#![tactic(auto)]

#[cfg(test)]
mod couriers;
#[cfg(test)]
mod errors;
#[cfg(test)]
mod fixtures;
#[cfg(test)]
mod open_worlds;
#[cfg(test)]
mod opening_pes;
#[cfg(test)]
mod packing;
#[cfg(test)]
mod scripts;
#[cfg(test)]
mod steps;
#[cfg(test)]
mod tallies;
