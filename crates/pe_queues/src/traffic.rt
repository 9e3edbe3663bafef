//! What went through some seats at a queue, for proofs alone.

use std::collections::LinkedList;

/// What has gone through some seats at one queue. It stands in proofs alone: no value of it is made.
pub struct Traffic<T> {
    /// How many of the seats these are.
    pub seats: u64,
    /// How many of them brought the room for what is left in the end.
    pub rooms: u64,
    /// What was put through them.
    pub puts: LinkedList<T>,
    /// What was taken through them.
    pub takes: LinkedList<T>,
}
