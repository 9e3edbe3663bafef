//! What one thread can do with a post.

ghost use Rattle.std.specs.Prelude.{◌≡◌, ◌<◌, IfOk};
ghost use Rattle.pe_queues.specs.Seats.{pes};

use crate::seats::{next, two_seats};
use pe_queues::{Full, Post, PostError, Seat, Unsettled};
use row_fixtures::pe;
use std::alloc::{AllocError, Allocator};
use std::sync::Wait;
use std::test::Fail;

// Whether a queue of one place takes a value and refuses a second one, returns the first one and is empty
// then.
fn fills_and_empties<R: Wait, A: Allocator>(
    rt: &R,
    post: &Post<char, A>,
    seat: &mut Seat<char, A>,
) -> bool
    requires own { seat.old.post ≡ post.now }
    requires known { 0 < pes post.now }
    ensures { seat.new.post ≡ post.now }
{
    let put = post.put(rt, seat, pe(0), 'a') == Ok(());
    let full = post.put(rt, seat, pe(0), 'b') == Err(Full('b'));
    let taken = post.take(rt, seat, pe(0)) == Some('a');
    let empty = post.take(rt, seat, pe(0)).is_none();
    put && full && taken && empty
}

// Whether single attempts put and take so, with no other thread in the way.
fn tries_so<A: Allocator>(post: &Post<char, A>, seat: &mut Seat<char, A>) -> bool
    requires own { seat.old.post ≡ post.now }
    requires known { 0 < pes post.now }
    ensures { seat.new.post ≡ post.now }
{
    let put = post.try_put(seat, pe(0), 'a') == Ok(());
    let full = post.try_put(seat, pe(0), 'b') == Err('b');
    let taken = post.try_take(seat, pe(0)) == Some('a');
    let empty = post.try_take(seat, pe(0)).is_none();
    put && full && taken && empty
}

// The post and the seat that are given back where one seat is missing.
fn refused<R: Wait, A: Allocator>(
    post: Post<char, A>,
    rt: &R,
    seat: Seat<char, A>,
) -> Result<(Post<char, A>, Seat<char, A>), Fail>
    requires { seat.post ≡ post }
    ensures { IfOk result (λ back. (back.0 ≡ post) × (back.1 ≡ seat)) }
{
    let Err(unsettled) = post.settle(rt, seat) else {
        return Err(Fail::new("a seat was out"));
    };
    let Unsettled { post, seat, cause } = unsettled;
    if cause != PostError::SeatsOut {
        return Err(Fail::new("another cause"));
    }
    Ok((post, seat))
}

// Whether a queue of one place fills and empties so, and a value that is then put into it is left.
fn holds_one<R: Wait, A: Allocator + Copy>(rt: &R, alloc: A) -> Result<bool, Fail> {
    let (post, mut first, second) = two_seats(alloc, 1, 1)?;
    let emptied = fills_and_empties(rt, &post, &mut first) && tries_so(&post, &mut first);
    let put = post.put(rt, &mut first, pe(0), 'b').is_ok();
    let (post, first) = refused(post, rt, first)?;
    let all = post.join(second, first);
    let Ok(left) = post.settle(rt, all) else {
        return Err(Fail::new("all seats were joined"));
    };
    Ok(emptied && put && left.len() == 1 && left[0].as_slice() == ['b'].as_slice())
}

#[test]
fn a_queue_of_one_place(rt: HostRuntime) -> Result<(), Fail> {
    assert!(rt; holds_one(&rt, rt.alloc())?);
    Ok(())
}

// Numbers of PEs, of seats and of places, and the error of a post with these.
type Row = (u32, u32, u32, PostError);

fn is_refused<A: Allocator + Copy>(alloc: A, row: &Row) -> bool {
    let (pes, seats, capacity, told) = *row;
    match Post::<u8, A>::new(alloc, pes, seats, capacity) {
        Ok(_) => false,
        Err(error) => error == told,
    }
}

#[test]
fn numbers_out_of_range(rt: HostRuntime) {
    const REFUSED: [Row; 7] = [
        (0, 1, 1, PostError::Zero),
        (1, 0, 1, PostError::Zero),
        (1, 1, 0, PostError::Zero),
        (257, 0, 1, PostError::Zero),
        (257, 1, 1, PostError::TooMany),
        (1, 257, 1, PostError::TooMany),
        (1, 1, 4097, PostError::TooMany),
    ];
    for row in &REFUSED {
        assert!(rt; is_refused(rt.alloc(), row), "{row:?}");
    }
}

// An error, its number and its text.
type Told = (PostError, u32, &'static str);

fn is_told<A: Allocator>(alloc: A, row: &Told) -> bool {
    let (error, number, text) = *row;
    match format!(in alloc; "{error}") {
        Ok(told) => error as u32 == number && told.as_str() == text,
        Err(AllocError) => false,
    }
}

#[test]
fn numbers_and_texts(rt: HostRuntime) {
    const TEXTS: [Told; 4] = [
        (PostError::Zero, 1, "a number is zero"),
        (PostError::TooMany, 2, "a number is past its limit"),
        (PostError::SeatsOut, 3, "a seat is still out"),
        (PostError::OutOfMemory, 4, "out of memory"),
    ];
    for row in &TEXTS {
        assert!(rt; is_told(rt.alloc(), row), "{row:?}");
    }
}

// Whether the last queue of the largest post takes a value, and returns it.
fn holds_in_last<R: Wait, A: Allocator + Copy>(rt: &R, alloc: A) -> Result<bool, Fail> {
    let (post, mut seats) = Post::new(alloc, 256, 256, 4096)?;
    let Some(mut seat) = next(&post, &mut seats) else {
        return Err(Fail::new("no seat"));
    };
    let put = post.put(rt, &mut seat, pe(255), 7u32).is_ok();
    let sized = seats.len() == 255 && post.capacity() == 4096;
    Ok(put && sized && post.take(rt, &mut seat, pe(255)) == Some(7))
}

#[test]
fn as_large_as_may_be(rt: HostRuntime) -> Result<(), Fail> {
    assert!(rt; holds_in_last(&rt, rt.alloc())?);
    Ok(())
}
