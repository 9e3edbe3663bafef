//! The worked rows of the planner: snapshots and certificates, divisions by one worker and by several, namings, and whole decisions.
#![tactic(auto)]

#[cfg(test)]
mod certificates;
#[cfg(test)]
mod decisions;
#[cfg(test)]
mod divisions;
#[cfg(test)]
mod fixtures;
#[cfg(test)]
mod limits;
#[cfg(test)]
mod lists;
#[cfg(test)]
mod naming_checks;
#[cfg(test)]
mod namings;
#[cfg(test)]
mod values;
#[cfg(test)]
mod walks;
#[cfg(test)]
mod workers;
