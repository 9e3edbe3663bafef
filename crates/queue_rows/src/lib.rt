//! The worked rows of the queues between PEs: what one thread does with a post, what four threads do with one, and location words.
#![tactic(auto)]

#[cfg(test)]
mod locations;
#[cfg(test)]
mod posts;
#[cfg(test)]
mod seats;
#[cfg(test)]
mod threads;
