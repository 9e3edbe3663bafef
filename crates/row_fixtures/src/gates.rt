//! Gates that show which workers pass, and that two of them do so at the same time.

use chare_index::Gate;
use std::sync::atomic::{AtomicU64, Ordering};

/// A gate that counts its calls by each of workers 0 to 3, and those by any other number.
#[derive(Drop)]
pub struct CountingGate {
    first: AtomicU64,
    second: AtomicU64,
    third: AtomicU64,
    fourth: AtomicU64,
    others: AtomicU64,
}

impl Gate for CountingGate {
    fn pass(&self, who: u32) {
        let count = match who {
            0 => &self.first,
            1 => &self.second,
            2 => &self.third,
            3 => &self.fourth,
            _ => &self.others,
        };
        count.fetch_add(1, Ordering::SeqCst);
    }
}

impl CountingGate {
    /// A gate that nobody has passed.
    pub fn new() -> CountingGate {
        CountingGate {
            first: AtomicU64::new(0),
            second: AtomicU64::new(0),
            third: AtomicU64::new(0),
            fourth: AtomicU64::new(0),
            others: AtomicU64::new(0),
        }
    }

    /// Whether each of this many workers, 0 to 4, has passed with its own number, as often as any other and at least `least` times, and
    /// nobody else has.
    pub fn counts_each(&self, workers: u32, least: u64) -> bool {
        let often = self.first.load(Ordering::SeqCst);
        let rest = [
            (1, &self.second),
            (2, &self.third),
            (3, &self.fourth),
            (4, &self.others),
        ];
        let mut alike = if workers == 0 {
            often == 0
        } else {
            often >= least
        };
        for (who, count) in &rest {
            let expected = if *who < workers { often } else { 0 };
            alike &= count.load(Ordering::SeqCst) == expected;
        }
        alike
    }
}

/// For how many steps a worker waits for the other.
const PATIENCE: u64 = 1_000_000_000;

/// A gate that holds each of two workers, 0 and 1, until it has seen the other.
#[derive(Drop)]
pub struct MeetingGate {
    first: AtomicU64,
    second: AtomicU64,
    missed: AtomicU64,
}

impl Gate for MeetingGate {
    fn pass(&self, who: u32) {
        let (own, other) = if who == 0 {
            (&self.first, &self.second)
        } else {
            (&self.second, &self.first)
        };
        own.store(1, Ordering::SeqCst);
        for _ in 0..PATIENCE {
            if other.load(Ordering::SeqCst) == 1 {
                return;
            }
        }
        self.missed.store(1, Ordering::SeqCst);
    }
}

impl MeetingGate {
    /// A gate that nobody has passed.
    pub fn new() -> MeetingGate {
        MeetingGate {
            first: AtomicU64::new(0),
            second: AtomicU64::new(0),
            missed: AtomicU64::new(0),
        }
    }

    /// Whether worker 0 and another have passed, and each has seen the other in time.
    pub fn has_met(&self) -> bool {
        self.first.load(Ordering::SeqCst) == 1
            && self.second.load(Ordering::SeqCst) == 1
            && self.missed.load(Ordering::SeqCst) == 0
    }
}
