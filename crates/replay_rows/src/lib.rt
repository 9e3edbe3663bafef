//! The worked rows of `lb_sim`: whole replays and checks, the line of each fault of a dump, readers and writers that fail, and the
//! words of a command line.
#![tactic(auto)]

#[cfg(test)]
mod command_lines;
#[cfg(test)]
mod failures;
#[cfg(test)]
mod fixtures;
#[cfg(test)]
mod replays;
#[cfg(test)]
mod rows;
#[cfg(test)]
mod runs;
