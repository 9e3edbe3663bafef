//! The events by which parcels pass between a PE and the queues.

ghost use Rattle.std.specs.Prelude.{◌≡◌, ◌<◌, ℕ, List, OnOk, OnErr, IsSome, All};
ghost use Rattle.pe_state.specs.Pes.{PeView, Parcel};
ghost use Rattle.rts_core.specs.Events.{look_event, flush_event, delivered, deliver_event};
ghost use Rattle.rts_core.specs.Parts.{or_same};

use crate::queue::Queue;
use chare_index::Pe;
use chares::{Chare, Openings};
use pe_state::PeState;
use std::alloc::{AllocError, Allocator};

/// Look: a letter of the PE gets the PE that the location word of its element names.
#[tactic(auto, using(std::proofs::lemmas::Option::gets))]
pub(crate) fn look<C: Chare<A>, H: Openings<C>, A: Allocator + Copy>(
    pe: &mut PeState<C, H, A>,
    words: &[Pe],
)
    requires { All (λ q. q < H.pes) words.now }
    ensures { pe.new ≡ or_same pe.old (look_event pe.old words.now) }
{
    let Some(element) = pe.wants() else {
        return;
    };
    let e = element.get() as usize;
    if words.len() <= e {
        return;
    }
    pe.look(words[e]);
}

/// Flush: the front of the outbox goes to the back of the queue of the PE that it is addressed to.
#[tactic(auto, using(std::proofs::lemmas::Option::gets))]
pub(crate) fn flush<C: Chare<A>, H: Openings<C>, A: Allocator + Copy>(
    pe: &mut PeState<C, H, A>,
    queues: &mut [Queue<C, H, A>],
) -> Result<(), AllocError>
    ensures ok { OnOk result ((pe.new, queues.new) ≡ or_same (pe.old, queues.old) (flush_event pe.old queues.old)) }
    ensures err { OnErr result (pe.new ≡ pe.old) }
    ensures same_queues { OnErr result (queues.new ≡ queues.old) }
    ensures enabled { OnErr result (IsSome (flush_event pe.old queues.old)) }
{
    let Some(to) = pe.front_out() else {
        return Ok(());
    };
    let q = to.get() as usize;
    if queues.len() <= q {
        return Ok(());
    }
    queues[q].push_from(pe)
}

/// Deliver: the front of the queue of a PE goes into its hand.
pub(crate) fn deliver<C: Chare<A>, H: Openings<C>, A: Allocator + Copy>(
    pe: &mut PeState<C, H, A>,
    queue: &mut Queue<C, H, A>,
)
    ensures { (pe.new, queue.new) ≡ or_same (pe.old, queue.old) (delivered pe.old queue.old) }
{
    if !pe.as_end().hand().is_none() {
        return;
    }
    let Some(parcel) = queue.pop() else {
        return;
    };
    pe.receive(parcel);
}

/// Deliver, where there is such a queue.
#[tactic(auto, using(std::proofs::lemmas::Option::gets, crate::proofs::Steps::delivered_at))]
pub(crate) fn deliver_at<C: Chare<A>, H: Openings<C>, A: Allocator + Copy>(
    pe: &mut PeState<C, H, A>,
    queues: &mut [Queue<C, H, A>],
    p: Pe,
)
    ensures { (pe.new, queues.new) ≡ or_same (pe.old, queues.old) (deliver_event pe.old queues.old p) }
{
    let q = p.get() as usize;
    if queues.len() <= q {
        return;
    }
    deliver(pe, &mut queues[q]);
}
