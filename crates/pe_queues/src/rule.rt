//! The rule of one queue, and what each kind of step on it does to the traffic of the seat that steps. The form of
//! such a rule is that of the invariants of concurrent separation logic: a fact of the shared queue and of what each
//! thread knows, which every single step keeps.
ghost use Rattle.std.specs.Prelude.{◌≡◌, List};
ghost use Rattle.pe_queues.specs.Conservation.{Conserved, Seen, all_traffic, with_put, with_take, without_one, of_one, of_both, no_traffic};

use crate::traffic::Traffic;
use crossbeam_queue::protocol::{Join, Lesson, Outcome, Protocol, Split};

/// What was put through all seats is what was taken through all seats and what the queue holds.
pub struct Balance;

impl<T> Protocol<T, Traffic<T>> for Balance {
    ghost holds = { Conserved };

    ghost first = { all_traffic };
}

/// A push, or a push that finds the queue full.
pub struct Push;

impl<T> Outcome<T, Traffic<T>> for Push {
    ghost then = { λ traffic value after. after ≡ with_put traffic value };
}

impl<T> Lesson<T, Traffic<T>> for Push {
    ghost fact = { Seen };
}

/// A pop, or a pop that finds the queue empty.
pub struct Pop;

impl<T> Outcome<T, Traffic<T>> for Pop {
    ghost then = { λ traffic value after. (after ≡ with_take traffic value) × ((items : List T) × Seen after items) };
}

impl<T> Lesson<T, Traffic<T>> for Pop {
    ghost fact = { Seen };
}

/// A seat is split off from others, or joined to others.
pub struct Sharing;

impl<T> Split<Traffic<T>> for Sharing {
    ghost left = { without_one };

    ghost right = { λ traffic. of_one };
}

impl<T> Join<Traffic<T>> for Sharing {
    ghost both = { of_both };

    ghost spent = { no_traffic };
}

/// A look at the queue, which changes nothing.
pub struct Look;

impl<T> Lesson<T, Traffic<T>> for Look {
    ghost fact = { Seen };
}
