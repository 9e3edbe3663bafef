//! One entry of an element's journal: a letter that it handled, or its resumption after a round.

use chare_index::Round;

/// What an element handles, and so an entry of its journal: a letter, or its resumption after a round. Its start
/// counts as the resumption after round 0. `L` is the letter, or only its body where nothing else of the letter
/// matters.
#[derive(Drop)]
pub enum Entry<L> {
    /// A letter was executed.
    Letter(L),
    /// The element was resumed, or started.
    Resumption(Round),
}
