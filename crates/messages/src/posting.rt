//! Posting messages.

ghost use Rattle.std.specs.Prelude.{◌≡◌, ◌≢◌, ℕ, ◌+◌, ◌∷◌, [], ◌<◌, ◌≤◌, List, length, MatchResult, IfErr, IfOk, OnErr, OnOk};
ghost use Rattle.chare_index.specs.declared.limits.TheConstants.Limits.{BODY_BYTES, ELEMENTS, LETTERS, STATE_BYTES};
ghost use Rattle.chares.specs.Posting.{posted};
ghost use Rattle.chares.specs.declared.sends.SendError.TheVariants.{OutOfMemory};
ghost use Rattle.messages.specs.Messages.{IsBroadcast, IsMessagePost, RefusesBroadcast, RefusesMessagePost, RefusesPack, letters, to_all};

use chare_index::{Index, Limits};
use chares::{SendError, Sends};
use pup_pack::{Pup, PupError};
use std::alloc::{AllocError, Allocator};

/// Posts a message to an element: its pack is the body of the letter.
///
/// # Errors
///
/// Nothing is posted on any of them. The first that applies: [`Stranger`](SendError::Stranger),
/// [`TooLong`](SendError::TooLong) where the pack is longer than a body may be, [`Worn`](SendError::Worn), [`TooLong`](SendError::TooLong)
/// where a list in the message has more items than a list that packs may have, [`OutOfMemory`](SendError::OutOfMemory).
#[tactic(auto, using(crate::proofs::Broadcasts::message_refused))]
pub fn post<M: Pup<A>, P: Drop, A: Allocator + Copy>(
    sends: &mut Sends<P, A>,
    to: Index,
    message: &M,
) -> Result<(), SendError>
    ensures answer { MatchResult result (λ _. IsMessagePost sends.old to (M.counted message.now) (M.pack message.now))
        (RefusesMessagePost sends.old to (M.counted message.now) (M.pack message.now)) }
    ensures ok { OnOk result (sends.new ≡ posted sends.old (letters M.pack ((to, message.now) ∷ []))) }
    ensures err { OnErr result (sends.new ≡ sends.old) }
    ensures fits { M.fits message.now }
    ensures least { BODY_BYTES ≤ sends.old.longest }
{
    let len = message.packed_len();
    let longest = sends.longest().get();
    if sends.n() <= to.get() {
        return Err(SendError::Stranger);
    }
    if len > longest {
        return Err(SendError::TooLong);
    }
    if sends.count() == Limits::LETTERS {
        return Err(SendError::Worn);
    }
    match pack_of(sends.allocator(), len, message) {
        Ok(body) => sends.put_vec(to, body),
        Err(error) => Err(error),
    }
}

/// Posts a message to each element of the array, in the order of their indices: a letter to each.
///
/// # Errors
///
/// The first that applies: [`TooLong`](SendError::TooLong) and [`Worn`](SendError::Worn), as of [`post`], the latter where there are not
/// letter numbers for all; nothing is posted then. After [`OutOfMemory`](SendError::OutOfMemory) some of the letters may be posted.
#[tactic(auto, using(crate::proofs::Broadcasts::broadcast_refused, crate::proofs::Broadcasts::packed_to_all))]
pub fn broadcast<M: Pup<A>, P: Drop, A: Allocator + Copy>(
    sends: &mut Sends<P, A>,
    message: &M,
) -> Result<(), SendError>
    requires few { sends.old.n ≤ ELEMENTS }
    ensures answer { MatchResult result (λ _. IsBroadcast sends.old (M.counted message.now) (M.pack message.now))
        (RefusesBroadcast sends.old (M.counted message.now) (M.pack message.now)) }
    ensures ok { OnOk result (sends.new ≡ posted sends.old (letters M.pack (to_all sends.old.n message.now))) }
    ensures only_posts { (out : List (ℕ × List ℕ)) × (sends.new ≡ posted sends.old out) }
    ensures err { IfErr result (λ e. e ≢ OutOfMemory → sends.new ≡ sends.old) }
    ensures fits { M.fits message.now }
    ensures least { BODY_BYTES ≤ sends.old.longest }
{
    let len = message.packed_len();
    let longest = sends.longest().get();
    if len > longest {
        return Err(SendError::TooLong);
    }
    if sends.count().saturating_add(u64::from(sends.n())) > Limits::LETTERS {
        return Err(SendError::Worn);
    }
    match pack_of(sends.allocator(), len, message) {
        Ok(body) => put_to_all(sends, &body),
        Err(error) => Err(error),
    }
}

// Posts a letter with this body to each element.
#[tactic(auto, using(crate::proofs::Broadcasts::none_posted, crate::proofs::Broadcasts::one_more, crate::proofs::Broadcasts::counted_after))]
fn put_to_all<P: Drop, A: Allocator + Copy>(
    sends: &mut Sends<P, A>,
    body: &[u8],
) -> Result<(), SendError>
    requires few { sends.old.n ≤ ELEMENTS }
    requires short { length body.now ≤ sends.old.longest }
    requires numbered { sends.old.count + sends.old.n ≤ LETTERS }
    ensures ok { OnOk result (sends.new ≡ posted sends.old (to_all sends.old.n body.now)) }
    ensures only_memory { IfErr result (λ e. e ≡ OutOfMemory) }
    ensures only_posts { (out : List (ℕ × List ℕ)) × (sends.new ≡ posted sends.old out) }
{
    for i in 0..sends.n() {
        let Some(to) = Index::new(i) else {
            unreachable!()
        };
        sends.put(to, body)?;
    }
    Ok(())
}

// The pack of a message, which is short, in memory for this many bytes. A list that is too long is refused as too long.
fn pack_of<M: Pup<A>, A: Allocator>(
    alloc: A,
    len: u32,
    message: &M,
) -> Result<Vec<u8, A>, SendError>
    requires short { length (M.pack message.now) ≤ STATE_BYTES }
    ensures value { IfOk result (λ body. body.items ≡ M.pack message.now) }
    ensures packs { OnOk result (M.counted message.now) }
    ensures refused { IfErr result (RefusesPack (M.counted message.now)) }
{
    let mut body = Vec::with_capacity(alloc, len as usize)?;
    match message.pack_into(&mut body) {
        Ok(()) => Ok(body),
        Err(PupError::TooLong) => Err(SendError::TooLong),
        Err(_) => Err(SendError::OutOfMemory),
    }
}
