//! What the elements of a run have added up, read where each of them is.

ghost use Rattle.std.specs.Prelude.{◌≡◌, All, IfOk, IfSome, map, replicate, slice_set};
ghost use Rattle.std.specs.List.{flat_map};
ghost use Rattle.std.specs.Map.{values_of};
ghost use Rattle.std.specs.Option.{option_to_list};
ghost use Rattle.run_account.specs.Noting.{with_noted};
ghost use Rattle.run_text.specs.Sums.{AreTallies, HasTallyPacks, IsTallyPack, IsTallyParcel, all_sums, element_sums, packed_sum, standing_sum, sums_at, sums_in};

use chare_index::Index;
use chares::Carried;
use pe_state::{HeldParcel, Item, PeEnd};
use rts_run::Outcome;
use std::alloc::{AllocError, Allocator};
use tally::Tally;

/// The sums of `n` elements, in the order of their indices. Each place is visited once. The only error is that memory was
/// refused.
pub(crate) fn sums_of<A: Allocator + Copy>(
    alloc: A,
    n: usize,
    outcome: &Outcome<Tally<A>, A>,
) -> Result<Vec<u64, A>, AllocError>
    requires tallies { AreTallies n outcome.now }
    ensures sums { IfOk result (λ sums. sums.items ≡ element_sums outcome.now n) }
{
    let mut sums = zeros(alloc, n)?;
    note_all(&mut sums, outcome);
    Ok(sums)
}

// This number of zeros.
fn zeros<A: Allocator>(alloc: A, len: usize) -> Result<Vec<u64, A>, AllocError>
    ensures { IfOk result (λ sums. sums.items ≡ replicate len 0) }
{
    let mut sums = Vec::new(alloc);
    sums.resize(len, 0)?;
    Ok(sums)
}

// Notes the sums of all elements that a run left.
#[tactic(auto, using(run_account::proofs::Noting::noted_append))]
fn note_all<A: Allocator + Copy>(sums: &mut [u64], outcome: &Outcome<Tally<A>, A>)
    requires at_pes { All HasTallyPacks outcome.now.ends }
    requires in_queues { All (All IsTallyParcel) outcome.now.left }
    ensures noted { sums.new ≡ with_noted sums.old (all_sums outcome.now) }
{
    note_pes(sums, outcome.ends());
    note_queues(sums, outcome.left());
}

// Notes the sums of all elements of these PEs.
fn note_pes<A: Allocator + Copy>(sums: &mut [u64], ends: &[PeEnd<Tally<A>, A>])
    requires { All HasTallyPacks ends.now }
    ensures { sums.new ≡ with_noted sums.old (flat_map sums_at ends.now) }
{
    for end in ends {
        note_pe(sums, end);
    }
}

// Notes the sums of all elements of a PE.
#[tactic(auto, using(run_account::proofs::Noting::noted_append))]
fn note_pe<A: Allocator + Copy>(sums: &mut [u64], end: &PeEnd<Tally<A>, A>)
    requires { HasTallyPacks end.now }
    ensures { sums.new ≡ with_noted sums.old (sums_at end.now) }
{
    note_hand(sums, end);
    note_outbox(sums, end);
    note_room(sums, end);
}

// Notes the sum of the element in the hand of a PE, if one is there.
fn note_hand<A: Allocator + Copy>(sums: &mut [u64], end: &PeEnd<Tally<A>, A>)
    requires { HasTallyPacks end.now }
    ensures { sums.new ≡ with_noted sums.old (flat_map (λ x. sums_in x.parcel) (option_to_list end.now.hand)) }
{
    let Some(item) = end.hand() else {
        return;
    };
    note_parcel(sums, &item.parcel);
}

// Notes the sums of the elements in the outbox of a PE.
fn note_outbox<A: Allocator + Copy>(sums: &mut [u64], end: &PeEnd<Tally<A>, A>)
    requires { HasTallyPacks end.now }
    ensures { sums.new ≡ with_noted sums.old (flat_map (λ x. sums_in x.parcel) end.now.outbox) }
{
    let (front, back) = end.outbox().as_slices();
    note_items(sums, front);
    note_items(sums, back);
}

// Notes the sums of the elements in a part of an outbox.
fn note_items<A: Allocator>(sums: &mut [u64], items: &[Item<A>])
    requires { All (λ x. IsTallyParcel x.parcel) items.now }
    ensures { sums.new ≡ with_noted sums.old (flat_map (λ x. sums_in x.parcel) items.now) }
{
    for item in items {
        note_parcel(sums, &item.parcel);
    }
}

// Notes the sums of the elements in the room of a PE.
fn note_room<A: Allocator + Copy>(sums: &mut [u64], end: &PeEnd<Tally<A>, A>)
    ensures { sums.new ≡ with_noted sums.old (map standing_sum (values_of end.now.room)) }
{
    for (_, element) in end.room().iter() {
        note(sums, element.index(), element.chare().sum());
    }
}

// Notes the sums of the elements in these queues.
fn note_queues<A: Allocator>(sums: &mut [u64], queues: &[Vec<HeldParcel<A>, A>])
    requires { All (All IsTallyParcel) (map (λ queue. queue.items) queues.now) }
    ensures { sums.new ≡ with_noted sums.old (flat_map (flat_map sums_in) (map (λ queue. queue.items) queues.now)) }
{
    for queue in queues {
        note_parcels(sums, queue.as_slice());
    }
}

// Notes the sums of the elements in a queue.
fn note_parcels<A: Allocator>(sums: &mut [u64], parcels: &[HeldParcel<A>])
    requires { All IsTallyParcel parcels.now }
    ensures { sums.new ≡ with_noted sums.old (flat_map sums_in parcels.now) }
{
    for parcel in parcels {
        note_parcel(sums, parcel);
    }
}

// Notes the sum of the element of a parcel, if it is one.
fn note_parcel<A: Allocator>(sums: &mut [u64], parcel: &HeldParcel<A>)
    requires { IsTallyParcel parcel.now }
    ensures { sums.new ≡ with_noted sums.old (sums_in parcel.now) }
{
    let Carried::Element(packed) = parcel else {
        return;
    };
    note(sums, packed.index(), packed_sum(packed.bytes()));
}

// The sum of a tally that is packed.
fn packed_sum(bytes: &[u8]) -> u64
    requires { IsTallyPack bytes.now }
    ensures { result ≡ packed_sum bytes.now }
{
    let sum = [
        bytes[8], bytes[9], bytes[10], bytes[11], bytes[12], bytes[13], bytes[14], bytes[15],
    ];
    u64::from_be_bytes(sum)
}

// Notes the sum of an element, if the list has a place for it.
fn note(sums: &mut [u64], index: Index, sum: u64)
    ensures { sums.new ≡ slice_set sums.old index sum }
{
    let i = index.get() as usize;
    if sums.len() <= i {
        return;
    }
    sums[i] = sum;
}
