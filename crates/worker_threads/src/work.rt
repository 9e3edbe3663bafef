//! The traits of a worker, of what it ends as, and of the rule by which threads are started.

ghost use Rattle.std.specs.Prelude.{◌≡◌, ℕ};

/// What takes part in a run: a worker, or what a worker ends as. By its number it is known which worker an end
/// belongs to; its type has whatever else is to be known of it.
pub trait Work: Drop {
    /// The number of a value.
    ghost number: { Self → ℕ };

    /// The number, as the program sees it.
    fn number(&self) -> u32
        ensures value { result ≡ number self.now };
}

/// What a worker ends as.
pub trait Ended: Work {
    /// What it is where no thread could be started for its worker.
    ghost refused: { Self → Self };

    /// The end of a worker for which no thread could be started. The stop flag was set before it began, and it has
    /// worked without a thread.
    fn without_thread(self) -> Self
        ensures refused { result ≡ refused self }
        ensures same_number { Self.number result ≡ Self.number self };
}

/// Says for which workers a thread may be started.
pub trait Starts {
    /// Whether a thread may be started for the worker with this number. The system may refuse one all the same.
    fn may_start(&self, number: u32) -> bool;
}

/// A thread may be started for each worker.
#[derive(Clone, Copy, Debug, Drop)]
pub struct EachStarts;

impl Starts for EachStarts {
    fn may_start(&self, _number: u32) -> bool {
        true
    }
}
