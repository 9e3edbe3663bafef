//! Takes the first value of a list, with a contract that loops can use.

ghost use Rattle.std.specs.Prelude.{◌≡◌, ◌∷◌, [], MatchOption};

use std::alloc::Allocator;
use std::collections::VecDeque;

/// Takes the first of a list of owners, as [`VecDeque::pop_front`] does. Its contract says in one equation what is left,
/// and a loop over owners needs no more.
pub fn take_next<T: Drop, A: Allocator>(left: &mut VecDeque<T, A>) -> Option<T>
    ensures taken { MatchOption result ((left.old.items ≡ []) × (left.new.items ≡ [])) (λ first. left.old.items ≡ first ∷ left.new.items) }
{
    left.pop_front()
}
