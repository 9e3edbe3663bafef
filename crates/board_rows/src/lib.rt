//! The worked rows of the board: a round of two elements, alone and through the lock, each refusal, and a full array.
#![tactic(auto)]

#[cfg(test)]
mod board;
#[cfg(test)]
mod fixtures;
#[cfg(test)]
mod lock;
