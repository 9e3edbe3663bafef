//! Messages of a chare that takes part in reductions.

ghost use Rattle.std.specs.Prelude.{◌≡◌, ◌≢◌, ℕ, ◌∷◌, [], ◌≤◌, List, MatchResult, IfErr, OnErr, OnOk};
ghost use Rattle.chare_index.specs.declared.limits.TheConstants.Limits.{BODY_BYTES, ELEMENTS};
ghost use Rattle.chares.specs.Posting.{posted};
ghost use Rattle.chares.specs.declared.sends.SendError.TheVariants.{OutOfMemory};
ghost use Rattle.messages.specs.Messages.{IsBroadcast, IsMessagePost, RefusesBroadcast, RefusesMessagePost, letters, to_all};
ghost use Rattle.reductions.specs.TreeMessages.{user_pack};

use crate::tree_message::TreeMessage;
use chare_index::Index;
use chares::{SendError, Sends};
use messages::{broadcast, post};
use pup_pack::Pup;
use std::alloc::Allocator;

// A message of the chares. The type of values makes no difference to its pack.
type OfUser<M> = TreeMessage<M, bool>;

/// Posts a message to an element, as [`messages::post`] does. Its pack has one byte more.
///
/// # Errors
///
/// Those of [`messages::post`].
pub fn send<M: Pup<A> + Drop, P: Drop, A: Allocator + Copy>(
    sends: &mut Sends<P, A>,
    to: Index,
    message: M,
) -> Result<(), SendError>
    ensures answer { MatchResult result (λ _. IsMessagePost sends.old to (M.counted message) (user_pack M.pack message))
        (RefusesMessagePost sends.old to (M.counted message) (user_pack M.pack message)) }
    ensures ok { OnOk result (sends.new ≡ posted sends.old (letters (user_pack M.pack) ((to, message) ∷ []))) }
    ensures err { OnErr result (sends.new ≡ sends.old) }
    ensures fits { M.fits message }
    ensures least { BODY_BYTES ≤ sends.old.longest }
{
    let message: OfUser<M> = TreeMessage::User(message);
    post(sends, to, &message)
}

/// Posts a message to each element of the array, as [`messages::broadcast`] does.
///
/// # Errors
///
/// Those of [`messages::broadcast`].
pub fn send_to_all<M: Pup<A> + Drop, P: Drop, A: Allocator + Copy>(
    sends: &mut Sends<P, A>,
    message: M,
) -> Result<(), SendError>
    requires few { sends.old.n ≤ ELEMENTS }
    ensures answer { MatchResult result (λ _. IsBroadcast sends.old (M.counted message) (user_pack M.pack message))
        (RefusesBroadcast sends.old (M.counted message) (user_pack M.pack message)) }
    ensures ok { OnOk result (sends.new ≡ posted sends.old (letters (user_pack M.pack) (to_all sends.old.n message))) }
    ensures only_posts { (out : List (ℕ × List ℕ)) × (sends.new ≡ posted sends.old out) }
    ensures err { IfErr result (λ e. e ≢ OutOfMemory → sends.new ≡ sends.old) }
    ensures fits { M.fits message }
    ensures least { BODY_BYTES ≤ sends.old.longest }
{
    let message: OfUser<M> = TreeMessage::User(message);
    broadcast(sends, &message)
}
