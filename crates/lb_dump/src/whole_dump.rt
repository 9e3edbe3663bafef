//! The dump at the end of a text.

ghost use Rattle.std.specs.Prelude.{◌≡◌, ◌<◌, ◌^◌, MatchBool, length};
ghost use Rattle.dump_format.specs.Faults.{IsWhole};
ghost use Rattle.dump_format.specs.Fields.{dump};
ghost use Rattle.dump_format.specs.Layout.{judge, Unfinished};
ghost use Rattle.dump_format.specs.Text.{IsText};
ghost use Rattle.lb_dump.specs.declared.head.Format.TheVariants.{Lbd1, Lbd2};
ghost use Rattle.lb_dump.specs.Plans.{floor_kind};
ghost use Rattle.lb_dump.specs.Held.{AreSome, IsHeld, text_of};
ghost use Rattle.lb_dump.specs.Made.{HasTarget, plan_size, recorded_with, taken_of, with_moves};
ghost use Rattle.lb_dump.specs.Reading.{EndsText};

use crate::head::{Format, HEAD_LEN, Head};
use crate::held::Held;
use crate::moves::MOVE_LEN;
use crate::numbers::WORD_LEN;
use crate::plan::DecisionPart;
use crate::plan_reading::plan_len;
use chare_index::{Index, Pe};
use dump_format::{Dump, DumpError, Recorded};
use lb_certificates::Floor;
use lb_snapshot::{Loads, Sizes, Snapshot, Units};
use lb_strategy::{Decision, Moves};
use std::alloc::Allocator;

/// The dump, where the text ends here, or `Short` where it is not whole. It takes no memory.
pub(crate) fn dump_at_end<A: Allocator>(held: Held<A>) -> Result<Dump<A>, DumpError>
    requires held { IsHeld held }
    ensures ends { EndsText (text_of held) result }
{
    if !is_whole(&held) {
        return Err(DumpError::Short(text_len(&held) as u32));
    }
    Ok(dump_of(held))
}

/// Whether the text is whole, so that nothing may follow.
pub(crate) fn is_whole<A: Allocator>(held: &Held<A>) -> bool
    requires held { IsHeld held.now }
    ensures { MatchBool result (IsWhole (text_of held.now)) (judge dump (text_of held.now) ≡ Unfinished) }
{
    let Some(head) = held.head else { return false };
    if held.loads.len() < head.count as usize {
        return false;
    }
    match held.plan {
        DecisionPart::Begun => is_narrow(head.format),
        DecisionPart::Nothing => true,
        DecisionPart::Made(_, all) => held.moves.len() >= all as usize,
    }
}

// Whether nothing follows the elements in this format.
fn is_narrow(format: Format) -> bool
    ensures { MatchBool result (format ≡ Lbd1) (format ≡ Lbd2) }
{
    match format {
        Format::Lbd1 => true,
        Format::Lbd2 => false,
    }
}

// The length of the text so far.
fn text_len<A: Allocator>(held: &Held<A>) -> usize
    requires held { IsHeld held.now }
    ensures value { result ≡ length (text_of held.now) }
    ensures small { result < 2 ^ 32 }
{
    let Some(head) = held.head else {
        return held.begun.len();
    };
    let elements = head.format.element_len() * held.loads.len();
    let moves = MOVE_LEN * held.moves.len();
    HEAD_LEN + elements + plan_size(&held.plan) + moves + held.begun.len()
}

// The length of a plan that is whole.
fn plan_size<A: Allocator>(plan: &DecisionPart<A>) -> usize
    requires { HasTarget plan.now }
    ensures { result ≡ plan_size plan.now }
{
    match plan {
        DecisionPart::Begun => 0,
        DecisionPart::Nothing => WORD_LEN,
        DecisionPart::Made(recorded, _) => {
            plan_len(
                recorded.target as usize,
                kind_of(&recorded.decision.division.floor),
            )
        }
    }
}

// The kind of a floor.
fn kind_of<A: Allocator>(floor: &Floor<A>) -> u32
    ensures { result ≡ floor_kind floor.now }
{
    match floor {
        Floor::Zero => 0,
        Floor::Fence(_) => 1,
    }
}

// The dump of a whole text.
fn dump_of<A: Allocator>(held: Held<A>) -> Dump<A>
    requires held { IsHeld held }
    requires whole { IsWhole (text_of held) }
    ensures { IsText result (text_of held) }
{
    let Held {
        head,
        loads,
        sizes,
        plan,
        moves,
        begun,
    } = held;
    drop(begun);
    let snapshot = snapshot_of(head.unwrap(), loads, sizes);
    Dump::new(snapshot, recorded_of(plan, moves)).unwrap()
}

// The snapshot that a whole text begins with.
fn snapshot_of<A: Allocator>(
    head: Head,
    loads: Vec<Units, A>,
    sizes: Vec<(u32, Pe), A>,
) -> Snapshot<A>
    requires some { AreSome head loads.items sizes.items }
    ensures { result ≡ taken_of head loads.items sizes.items }
{
    let loads = Loads::new(loads).unwrap();
    let sizes = Sizes::new(sizes).unwrap();
    Snapshot::new(head.step, head.procs, loads, sizes).unwrap()
}

// The decision that was recorded, with its moves.
fn recorded_of<A: Allocator>(
    plan: DecisionPart<A>,
    moves: Vec<(Index, Pe, Pe), A>,
) -> Option<Recorded<A>>
    ensures { result ≡ recorded_with plan moves.items }
{
    match plan {
        DecisionPart::Made(recorded, _) => Some(with_moves(recorded, moves)),
        DecisionPart::Begun | DecisionPart::Nothing => None,
    }
}

// A decision with other moves.
fn with_moves<A: Allocator>(recorded: Recorded<A>, moves: Vec<(Index, Pe, Pe), A>) -> Recorded<A>
    ensures { result ≡ with_moves recorded moves.items }
{
    let Recorded { target, decision } = recorded;
    let Decision {
        division,
        naming,
        prices,
        moved,
        moves: none,
    } = decision;
    drop(none);
    Recorded {
        target,
        decision: Decision {
            division,
            naming,
            prices,
            moved,
            moves: Moves::new(moves),
        },
    }
}
