//! The greatest end time of a division.

ghost use Rattle.std.specs.Prelude.{◌≡◌, ◌<◌, length};
ghost use Rattle.lb_certificates.specs.Chain.{IsDivision};
ghost use Rattle.speed_certificates.specs.Speeds.{count, speed_of, work_of};
ghost use Rattle.speed_partition.specs.Chosen.{IsFirstLatest};

use crate::times::is_after;
use chain_partition::Chain;
use speed_certificates::{EndTime, PeSpeeds};
use std::alloc::Allocator;

/// The greatest end time of these cuts, written as the end of the first PE that ends then.
pub(crate) fn latest_end<A: Allocator>(
    chain: &Chain<'_, A>,
    pes: &PeSpeeds<'_>,
    cuts: &[u32],
) -> EndTime
    requires divides { IsDivision 0 (length chain.now) (count pes.now) cuts.now }
    ensures latest { IsFirstLatest chain.now pes.now cuts.now (count pes.now) result }
{
    let count = pes.len();
    let mut latest = end_of(chain, pes, cuts, 0);
    for pe in 1..count {
        let end = end_of(chain, pes, cuts, pe);
        if is_after(end, latest) {
            latest = end;
        }
    }
    latest
}

// When this PE ends.
fn end_of<A: Allocator>(chain: &Chain<'_, A>, pes: &PeSpeeds<'_>, cuts: &[u32], pe: u32) -> EndTime
    requires divides { IsDivision 0 (length chain.now) (count pes.now) cuts.now }
    requires inside { pe < count pes.now }
    ensures work { result.work ≡ work_of chain.now pes.now cuts.now pe }
    ensures speed { result.speed ≡ speed_of pes.now pe }
{
    let load = chain.load(cuts[pe as usize] as usize, cuts[pe as usize + 1] as usize);
    EndTime {
        work: pes.background(pe) + load,
        speed: pes.speed(pe),
    }
}
