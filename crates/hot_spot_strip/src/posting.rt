//! Letters to neighbors, which one at an end of the chain may not have.

ghost use Rattle.std.specs.Prelude.{◌≡◌, ◌≢◌, ◌+◌, ◌<◌, ◌≤◌, IfErr, IfSome, OnErr, OnOk, length};
ghost use Rattle.chare_index.specs.declared.limits.TheConstants.Limits.{BODY_BYTES, ELEMENTS, LETTERS};
ghost use Rattle.chares.specs.declared.sends.SendError.TheVariants.{OutOfMemory, Worn};
ghost use Rattle.chares.specs.Posting.{posted};
ghost use Rattle.hot_spot_strip.specs.Chains.{WornBy, left_of, letters_to, right_of};

use chare_index::Index;
use chares::{SendError, Sends};
use std::alloc::Allocator;

/// The strip on the left, if there is one.
pub(crate) fn left_of(me: Index) -> Option<Index>
    ensures value { result ≡ left_of me }
    ensures within { IfSome result (λ i. i < me) }
{
    if me.get() == 0 {
        return None;
    }
    Index::new(me.get() - 1)
}

/// The strip on the right, if there is one.
pub(crate) fn right_of(me: Index, n: u32) -> Option<Index>
    requires few { n ≤ ELEMENTS }
    ensures value { result ≡ right_of me n }
    ensures within { IfSome result (λ i. i < n) }
{
    if n <= me.get() + 1 {
        return None;
    }
    Index::new(me.get() + 1)
}

/// Posts a letter to this strip, if there is one.
#[tactic(auto, using(chares::proofs::SeveralPosts::posted_none))]
pub(crate) fn post<P: Drop, A: Allocator + Copy>(
    sends: &mut Sends<P, A>,
    to: Option<Index>,
    body: &[u8],
) -> Result<(), SendError>
    requires member { IfSome to (λ i. i < sends.old.n) }
    requires short { length body.now ≤ BODY_BYTES }
    ensures ok { OnOk result (sends.new ≡ posted sends.old (letters_to to body.now)) }
    ensures err { OnErr result (sends.new ≡ sends.old) }
    ensures refused { IfErr result (λ e. e ≢ OutOfMemory → WornBy sends.old.count (letters_to to body.now) e) }
{
    let Some(to) = to else {
        return Ok(());
    };
    sends.put(to, body)
}
