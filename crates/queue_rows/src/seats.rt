//! The seats of a post, as the tests use them.

ghost use Rattle.std.specs.Prelude.{◌≡◌, All, IfOk, IfSome, length};
ghost use Rattle.pe_queues.specs.Seats.{pes};

use pe_queues::{Post, PostError, Seat};
use std::alloc::Allocator;
use std::test::Fail;

/// The next seat that has not been given out yet.
pub(crate) fn next<T: Drop, A: Allocator>(
    post: &Post<T, A>,
    seats: &mut Vec<Seat<T, A>, A>,
) -> Option<Seat<T, A>>
    requires of_post { All (λ seat. seat.post ≡ post.now) seats.old.items }
    ensures own { IfSome result (λ seat. seat.post ≡ post.now) }
    ensures rest { All (λ seat. seat.post ≡ post.now) seats.new.items }
{
    seats.pop()
}

/// A post with this number of queues, each of this capacity, and its two seats.
pub(crate) fn two_seats<T: Drop, A: Allocator + Copy>(
    alloc: A,
    queues: u32,
    capacity: u32,
) -> Result<(Post<T, A>, Seat<T, A>, Seat<T, A>), PostError>
    ensures sized { IfOk result (λ made. pes made.0 ≡ queues) }
    ensures own { IfOk result (λ made. (made.1.post ≡ made.0) × (made.2.post ≡ made.0)) }
{
    let (post, mut seats) = Post::new(alloc, queues, 2, capacity)?;
    let first = next(&post, &mut seats);
    let second = next(&post, &mut seats);
    match (first, second) {
        (Some(first), Some(second)) => Ok((post, first, second)),
        _ => Err(PostError::SeatsOut),
    }
}
