//! A call that does a step.

ghost use Rattle.std.specs.Prelude.{◌≡◌, ◌≢◌, pos};
ghost use Rattle.rank_calls.specs.Calls.{IsAsked, IsDone, IsSame, IsStep};
ghost use Rattle.rank_capi.specs.Statuses.{IsStatus};

use crate::statuses::status_of;
use rank_calls::{Handle, Reply, Request};
use std::alloc::Global;

/// Has a PE do what is asked, which is a step, and says by a status whether it has.
#[tactic(auto, using(crate::proofs::Told::stray, crate::proofs::Told::refused_told, crate::proofs::Told::done_told))]
pub(crate) fn asked(alloc: Global, handle: &mut Handle, request: Request) -> i32
    requires asked { IsAsked handle.old.run handle.old.pe request }
    requires step { IsStep request }
    ensures run { handle.new.run ≡ handle.old.run }
    ensures status { IsStatus handle.old.run handle.old.is_open handle.old.pe request (result ≡ pos 0) result }
    ensures done { result ≡ pos 0 → IsDone handle.old.run handle.old.is_open handle.old.pe request handle.new.is_open handle.new.pe }
    ensures kept { result ≢ pos 0 → IsSame handle.old.is_open handle.old.pe handle.new.is_open handle.new.pe }
{
    match handle.call(alloc, request) {
        Reply::Done => 0,
        Reply::Refused(error) => status_of(error),
        _ => unreachable!(),
    }
}
