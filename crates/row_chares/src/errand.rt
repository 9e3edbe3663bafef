//! A chare whose state says how many letters it sends, where to, and when it has finished.

ghost use Rattle.std.specs.Prelude.{◌≡◌, ◌≢◌, ◌≤◌, ◌<◌, ◌∷◌, [], List, ℕ, IfErr, MatchResult, OnErr, OnOk};
ghost use Rattle.chare_index.specs.declared.limits.TheConstants.Limits.{ELEMENTS};
ghost use Rattle.chares.specs.declared.sends.SendError.TheVariants.{OutOfMemory};
ghost use Rattle.chares.specs.Posting.{IsPost, RefusesPut, posted};
ghost use Rattle.row_chares.specs.Errands.{RefusesAll, empty_letters};

use chare_index::{Gate, Index, Round};
use chares::{Chare, Effect, Here, SendError, Sends};
use pup_pack::{Fields, Pup, PupError};
use std::alloc::Allocator;
use std::marker::Model;

/// A chare that sends empty letters. As it goes on after a round, or starts, it passes the gate with the sum of 1,000,
/// twice the round and its index.
#[derive(Drop)]
pub struct Errand {
    /// The element that its letters go to.
    pub to: u32,
    /// How many it sends as it starts, and after each round.
    pub letters: u32,
    /// How many it sends for each letter that it gets.
    pub replies: u32,
    /// How many letters it has yet to get before it finishes.
    pub wanted: u32,
    /// The number of rounds after which it may finish.
    pub rounds: u32,
}

impl Errand {
    /// A chare that finishes as it starts.
    pub fn none() -> Errand {
        Errand {
            to: 0,
            letters: 0,
            replies: 0,
            wanted: 0,
            rounds: 0,
        }
    }
}

impl Model for Errand {
    ghost use Rattle.row_chares.specs.Errands.{ErrandView};

    ghost Value = { ErrandView };

    ghost view = { λ e. record { to = e.to; letters = e.letters; replies = e.replies; wanted = e.wanted; rounds = e.rounds } };
}

// The fields, as they are packed.
type Parts = (u32, (u32, (u32, (u32, u32))));

// Sends an empty letter to an element.
fn send_one<P: Drop, A: Allocator + Copy>(sends: &mut Sends<P, A>, to: u32) -> Result<(), SendError>
    requires few { sends.old.n ≤ ELEMENTS }
    ensures answer { MatchResult result (λ _. IsPost sends.old to []) (RefusesPut sends.old to []) }
    ensures ok { OnOk result (sends.new ≡ posted sends.old ((to, []) ∷ [])) }
    ensures err { OnErr result (sends.new ≡ sends.old) }
{
    let to = Index::new(to).ok_or(SendError::Stranger)?;
    sends.put(to, &[])
}

// Sends this number of empty letters to an element.
fn send_all<P: Drop, A: Allocator + Copy>(
    sends: &mut Sends<P, A>,
    letters: u32,
    to: u32,
) -> Result<(), SendError>
    requires few { sends.old.n ≤ ELEMENTS }
    ensures ok { OnOk result (sends.new ≡ posted sends.old (empty_letters letters to)) }
    ensures refused { IfErr result (λ e. e ≢ OutOfMemory → RefusesAll sends.old.n sends.old.count letters to e) }
    ensures only_posts { (out : List (ℕ × List ℕ)) × (sends.new ≡ posted sends.old out) }
{
    for _sent in 0..letters {
        send_one(sends, to)?;
    }
    Ok(())
}

impl<A: Allocator + Copy> Pup<A> for Errand {
    ghost use Rattle.std.specs.Prelude.{refl};
    ghost use Rattle.pup_pack.specs.Structs.{made};
    ghost use Rattle.pup_pack.specs.Trips.{pair_trips, struct_trips, u32_trips};
    ghost use Rattle.row_chares.specs.Errands.{of_parts, parts};

    ghost fits = { λ e. ⟦<Parts as Pup<A>>⟧.fits (parts e) };

    ghost counted = { λ e. ⟦<Parts as Pup<A>>⟧.counted (parts e) };

    ghost pack = { λ e. ⟦<Parts as Pup<A>>⟧.pack (parts e) };

    ghost unpack = { λ bytes. made of_parts (⟦<Parts as Pup<A>>⟧.unpack bytes) };

    ghost round_trip = { (struct_trips parts of_parts (λ _. refl)
        (pair_trips u32_trips (pair_trips u32_trips (pair_trips u32_trips (pair_trips u32_trips u32_trips))))).trip };

    fn packed_len(&self) -> u32 {
        let last = (&self.replies, (&self.wanted, &self.rounds));
        Fields::<A>::fields_len(&(&self.to, (&self.letters, last)))
    }

    fn pack_into(&self, out: &mut Vec<u8, A>) -> Result<(), PupError> {
        (
            &self.to,
            (&self.letters, (&self.replies, (&self.wanted, &self.rounds))),
        )
            .pack_fields(out)
    }

    fn unpack(alloc: A, bytes: &[u8]) -> Result<(Errand, usize), PupError> {
        let (parts, len) = <Parts as Pup<A>>::unpack(alloc, bytes)?;
        let (to, (letters, (replies, (wanted, rounds)))) = parts;
        let errand = Errand {
            to,
            letters,
            replies,
            wanted,
            rounds,
        };
        Ok((errand, len))
    }
}

impl<A: Allocator + Copy> Chare<A> for Errand {
    ghost use Rattle.row_chares.specs.Errands.{ErrandRefuses, errand_packs, errand_step};

    ghost step = { errand_step };

    ghost refuses = { ErrandRefuses };

    ghost packs = { λ e fit. errand_packs e };

    fn on_letter<G: Gate, P: Drop>(
        &mut self,
        _here: &Here<'_, G>,
        _body: &[u8],
        sends: &mut Sends<P, A>,
    ) -> Result<Effect, SendError> {
        send_all(sends, self.replies, self.to)?;
        self.wanted = self.wanted.saturating_sub(1);
        Ok(Effect {
            units: 0,
            at_sync: false,
            finished: self.wanted == 0,
        })
    }

    fn on_resume<G: Gate, P: Drop>(
        &mut self,
        here: &Here<'_, G>,
        round: Round,
        sends: &mut Sends<P, A>,
    ) -> Result<Effect, SendError> {
        let twice = round.get().saturating_mul(2);
        here.gate
            .pass(here.me.get().saturating_add(1_000).saturating_add(twice));
        send_all(sends, self.letters, self.to)?;
        let ready = round.get() < self.rounds;
        Ok(Effect {
            units: 0,
            at_sync: ready,
            finished: !ready && self.wanted == 0,
        })
    }
}
