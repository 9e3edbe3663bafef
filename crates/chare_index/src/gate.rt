//! A call inside handlers and searches at which tests can wait. Programs use one that returns at once.

/// A call that a handler or a search makes with a number of its own. It returns nothing, so no state and no result depends on
/// it. Tests wait inside it, to see that two calls overlap.
pub trait Gate {
    /// Called by `who`, a number that the caller chooses.
    fn pass(&self, who: u32);
}

/// The gate that returns at once.
#[derive(Clone, Copy, Debug, Drop)]
pub struct NoGate;

impl Gate for NoGate {
    fn pass(&self, _who: u32) {}
}
