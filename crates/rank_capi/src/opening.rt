//! Opening and closing.

ghost use Rattle.std.specs.Prelude.{◌≡◌, ◌≢◌, ◌<◌, ◌≤◌, negsuc, pos, true, false};
ghost use Rattle.chare_index.specs.declared.limits.TheConstants.Limits.{PES};
ghost use Rattle.rank_calls.specs.Runs.{opened};
ghost use Rattle.rank_capi.specs.Statuses.{IsStatus};

use crate::asking::asked;
use chare_index::Pe;
use rank_calls::{Handle, Request};
use std::alloc::Global;

/// Opens PE `me` of `pes`, with the elements of an array of `n` that begin on it: element `i` begins on PE `i * pes / n`, rounded down.
#[unsafe(no_mangle)]
pub extern "C" fn tezgumi_pe_open(
    alloc: Global,
    handle: &mut Handle,
    me: u32,
    pes: u32,
    n: u32,
) -> i32
    requires asked_pes { pes ≡ handle.old.run.pes }
    requires asked_n { n ≡ handle.old.run.n }
    ensures run { handle.new.run ≡ handle.old.run }
    ensures opened { result ≡ pos 0 → (handle.old.is_open ≡ false) × (handle.new.is_open ≡ true) × (handle.new.pe ≡ opened pes n me) }
    ensures kept { result ≢ pos 0 → (handle.new.is_open ≡ handle.old.is_open) × (handle.old.is_open ≡ true → handle.new.pe ≡ handle.old.pe) }
    ensures input { PES ≤ me → result ≡ negsuc 0 }
    ensures status { me < PES → IsStatus handle.old.run handle.old.is_open handle.old.pe (Request.Open me pes n) (result ≡ pos 0) result }
{
    let Some(me) = Pe::new(me) else {
        return -1;
    };
    asked(alloc, handle, Request::Open(me, pes, n))
}

/// Closes a PE, and frees what it has.
#[unsafe(no_mangle)]
pub extern "C" fn tezgumi_pe_close(alloc: Global, handle: &mut Handle) -> i32
    ensures run { handle.new.run ≡ handle.old.run }
    ensures closed { result ≡ pos 0 → (handle.old.is_open ≡ true) × (handle.new.is_open ≡ false) }
    ensures kept { result ≢ pos 0 → (handle.new.is_open ≡ handle.old.is_open) × (handle.old.is_open ≡ true → handle.new.pe ≡ handle.old.pe) }
    ensures status { IsStatus handle.old.run handle.old.is_open handle.old.pe Request.Close (result ≡ pos 0) result }
{
    asked(alloc, handle, Request::Close)
}
