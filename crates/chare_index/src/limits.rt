//! The limits of the runtime, all in one place.

/// The limits of the runtime. Each quantity ranges from the lowest value given here to the constant, both included.
#[derive(Clone, Copy, Debug, PartialEq, Eq)]
pub struct Limits;

impl Limits {
    /// Elements of the array, from 0.
    pub const ELEMENTS: u32 = 65_536;

    /// PEs, from 1.
    pub const PES: u32 = 256;

    /// Work units of one element in one round, from 0. Units above this are not counted.
    pub const LOAD: u64 = 140_737_488_355_327;

    /// Bytes of one packed element, from 0.
    pub const STATE_BYTES: u32 = 1_048_576;

    /// Bytes of the body of one letter, from 0.
    pub const BODY_BYTES: u32 = 1_024;

    /// Letters that one PE may post; their numbers begin with 0.
    pub const LETTERS: u64 = 4_294_967_296;

    /// Rounds, from 0, which stands for the start of an element. The last round is never decided.
    pub const ROUND: u32 = 2_147_483_648;

    /// Parcels that the queue of one PE holds, from 1.
    pub const CAPACITY: u32 = 4_096;

    /// Seats of the threads that use a set of queues, from 1.
    pub const SEATS: u32 = 256;

    /// Threads that try bottlenecks at the same time, from 1.
    pub const PROBE_WORKERS: u32 = 64;

    /// Turns in a row in which a worker may find nothing to do, from 1.
    pub const IDLE_TURNS: u64 = 1_099_511_627_776;
}
