//! What an element has handled and no longer keeps.

ghost use Rattle.std.specs.Prelude.{◌≡◌, List, [], ◌++◌};
ghost use Rattle.std.specs.Borrow.{ftrue};
ghost use Rattle.chares.specs.Letters.{Done};

use crate::journal::Journal;
use std::alloc::Allocator;
use std::marker::{Model, Send, Sync};

/// Entries that were settled. They take no bytes: only contracts know them.
#[derive(Drop)]
pub struct Past {
    pub ghost entries: { List Done },
}

impl Model for Past {
    ghost also_owns = { λ _. ftrue };
}

// A struct with `also_owns` has neither by itself. This one owns nothing.
unsafe impl Send for Past {}

unsafe impl Sync for Past {}

impl Past {
    pub(crate) fn new() -> Past
        ensures { result.entries ≡ [] }
    {
        Past {}
    }

    // What was settled before, with what is kept.
    pub(crate) fn with<A: Allocator>(_before: &Past, _kept: &Journal<A>) -> Past
        ensures { result.entries ≡ _before.now.entries ++ _kept.now.entries }
    {
        Past {}
    }
}
