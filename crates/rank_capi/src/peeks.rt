//! What a PE shows: each leaves it as it is.

ghost use Rattle.std.specs.Prelude.{◌≡◌, ◌≢◌, ◌<◌, ◌⊎◌, ◌↔◌, length, take, drop, IsSomeAnd, None, Some, negsuc, pos, true, false, slice_get};
ghost use Rattle.pe_state.specs.Pes.{front_address, wanted};
ghost use Rattle.rank_calls.specs.Refusals.{due};
ghost use Rattle.rank_capi.specs.Notes.{note_in};

use crate::statuses::{LONG, NOTHING, status_of};
use chares::Note;
use rank_calls::{Handle, Reply, Request};
use std::alloc::Global;

/// Shows whose handler is due for the letter in the hand of a PE: writes the element, the body, and how long that is.
#[unsafe(no_mangle)]
pub extern "C" fn tezgumi_pe_due(
    alloc: Global,
    handle: &mut Handle,
    index: &mut u32,
    body: &mut [u8],
    len: &mut usize,
) -> i32
    ensures run { handle.new.run ≡ handle.old.run }
    ensures is_open { handle.new.is_open ≡ handle.old.is_open }
    ensures same { handle.old.is_open ≡ true → handle.new.pe ≡ handle.old.pe }
    ensures statuses { (result ≡ pos 0) ⊎ ((result ≡ pos 1) ⊎ ((result ≡ pos 2) ⊎ ((result ≡ negsuc 1) ⊎ (result ≡ negsuc 2)))) }
    ensures closed { (result ≡ negsuc 2) ↔ (handle.old.is_open ≡ false) }
    ensures shown { result ≡ pos 0 → IsSomeAnd (due handle.old.pe) (λ d. (index.new ≡ d.0) × (take len.new body.new ≡ d.1) × (len.new ≡ length d.1)) }
    ensures nothing { result ≡ pos 1 → due handle.old.pe ≡ None }
    ensures long { result ≡ pos 2 → IsSomeAnd (due handle.old.pe) (λ d. (length body.old < len.new) × (len.new ≡ length d.1)) }
    ensures behind { drop len.new body.new ≡ drop len.new body.old }
    ensures not_written { result ≢ pos 0 → (body.new ≡ body.old) × (index.new ≡ index.old) }
    ensures same_len { result ≢ pos 0 → result ≢ pos 2 → len.new ≡ len.old }
{
    match handle.call(alloc, Request::Due(body.len())) {
        Reply::IsDue(letter) => {
            let Some(letter) = letter else {
                return NOTHING;
            };
            let (element, bytes) = letter;
            let count = bytes.len();
            body[..count].copy_from_slice(bytes.as_slice());
            *index = element.get();
            *len = count;
            0
        }
        Reply::Long(count) => {
            *len = count;
            LONG
        }
        Reply::Refused(error) => status_of(error),
        _ => unreachable!(),
    }
}

/// Shows which element is to be looked for.
#[unsafe(no_mangle)]
pub extern "C" fn tezgumi_pe_wanted(alloc: Global, handle: &mut Handle, index: &mut u32) -> i32
    ensures run { handle.new.run ≡ handle.old.run }
    ensures is_open { handle.new.is_open ≡ handle.old.is_open }
    ensures same { handle.old.is_open ≡ true → handle.new.pe ≡ handle.old.pe }
    ensures statuses { (result ≡ pos 0) ⊎ ((result ≡ pos 1) ⊎ (result ≡ negsuc 2)) }
    ensures closed { (result ≡ negsuc 2) ↔ (handle.old.is_open ≡ false) }
    ensures shown { result ≡ pos 0 → wanted handle.old.pe ≡ Some index.new }
    ensures nothing { result ≡ pos 1 → wanted handle.old.pe ≡ None }
    ensures not_written { result ≢ pos 0 → index.new ≡ index.old }
{
    match handle.call(alloc, Request::Wanted) {
        Reply::IsWanted(Some(element)) => {
            *index = element.get();
            0
        }
        Reply::IsWanted(None) => NOTHING,
        Reply::Refused(error) => status_of(error),
        _ => unreachable!(),
    }
}

/// Shows where the front of the outbox goes.
#[unsafe(no_mangle)]
pub extern "C" fn tezgumi_pe_front(alloc: Global, handle: &mut Handle, to: &mut u32) -> i32
    ensures run { handle.new.run ≡ handle.old.run }
    ensures is_open { handle.new.is_open ≡ handle.old.is_open }
    ensures same { handle.old.is_open ≡ true → handle.new.pe ≡ handle.old.pe }
    ensures statuses { (result ≡ pos 0) ⊎ ((result ≡ pos 1) ⊎ (result ≡ negsuc 2)) }
    ensures closed { (result ≡ negsuc 2) ↔ (handle.old.is_open ≡ false) }
    ensures shown { result ≡ pos 0 → front_address handle.old.pe.outbox ≡ Some to.new }
    ensures nothing { result ≡ pos 1 → front_address handle.old.pe.outbox ≡ None }
    ensures not_written { result ≢ pos 0 → to.new ≡ to.old }
{
    match handle.call(alloc, Request::Front) {
        Reply::IsFront(Some(pe)) => {
            *to = pe.get();
            0
        }
        Reply::IsFront(None) => NOTHING,
        Reply::Refused(error) => status_of(error),
        _ => unreachable!(),
    }
}

// A note as numbers.
#[derive(Clone, Copy)]
struct Told {
    kind: u32,
    index: u32,
    round: u32,
    load: u64,
    bytes: u32,
}

// The numbers of a note.
fn told_of(note: Note) -> Told
    ensures value { note_in result.kind result.index result.round result.load result.bytes note }
{
    match note {
        Note::Sync(index, round, load, bytes, _) => Told {
            kind: 0,
            index: index.get(),
            round: round.get(),
            load,
            bytes: bytes.get(),
        },
        Note::Finish(index) => Told {
            kind: 1,
            index: index.get(),
            round: 0,
            load: 0,
            bytes: 0,
        },
    }
}

/// Shows the note that is owed first: its kind, 0 for an element that waits and 1 for one that has finished, the element, the round,
/// the load and the bytes. Unused fields are written as 0.
#[unsafe(no_mangle)]
pub extern "C" fn tezgumi_pe_next_note(
    alloc: Global,
    handle: &mut Handle,
    kind: &mut u32,
    index: &mut u32,
    round: &mut u32,
    load: &mut u64,
    bytes: &mut u32,
) -> i32
    ensures run { handle.new.run ≡ handle.old.run }
    ensures is_open { handle.new.is_open ≡ handle.old.is_open }
    ensures same { handle.old.is_open ≡ true → handle.new.pe ≡ handle.old.pe }
    ensures statuses { (result ≡ pos 0) ⊎ ((result ≡ pos 1) ⊎ (result ≡ negsuc 2)) }
    ensures closed { (result ≡ negsuc 2) ↔ (handle.old.is_open ≡ false) }
    ensures shown { result ≡ pos 0 → IsSomeAnd (slice_get handle.old.pe.notes 0) (note_in kind.new index.new round.new load.new bytes.new) }
    ensures nothing { result ≡ pos 1 → slice_get handle.old.pe.notes 0 ≡ None }
    ensures not_written { result ≢ pos 0
        → (kind.new ≡ kind.old) × (index.new ≡ index.old) × (round.new ≡ round.old) × (load.new ≡ load.old) × (bytes.new ≡ bytes.old) }
{
    match handle.call(alloc, Request::NextNote) {
        Reply::IsOwed(Some(note)) => {
            let told = told_of(note);
            *kind = told.kind;
            *index = told.index;
            *round = told.round;
            *load = told.load;
            *bytes = told.bytes;
            0
        }
        Reply::IsOwed(None) => NOTHING,
        Reply::Refused(error) => status_of(error),
        _ => unreachable!(),
    }
}
