//! `ring`: a token goes around a ring of chares, ten times, and the letters are counted.
#![tactic(auto)]

ghost use Rattle.std.specs.Prelude.{◌≡◌, ◌+◌, ◌%◌, ◌<◌, ◌≤◌, false};
ghost use Rattle.chare_index.specs.declared.limits.TheConstants.Limits.{ELEMENTS};

use chare_index::{Gate, Index, NoGate, Round};
use chares::{Chare, Effect, Here, SendError, Sends};
use pup_pack::{Pup, PupError};
use rts_core::Account;
use rts_run::{Config, Outcome, RunError, run};
use std::alloc::{AllocError, Allocator};
use std::fmt::Display;
use std::marker::Model;
use std::process::ExitCode;
use std::sync::Wait;
use std::thread::Threads;

/// A chare in a ring. Its state is how many visits of the token are still to come.
#[derive(Drop)]
struct Member {
    left: u32,
}

// Contracts see it as that number.
impl Model for Member {
    ghost use Rattle.std.specs.Prelude.{ℕ};

    ghost Value = { ℕ };

    ghost view = { λ m. m.left };
}

// It packs as that number does.
impl<A: Allocator> Pup<A> for Member {
    ghost use Rattle.pup_pack.specs.Trips.{u32_trips};

    ghost fits = { λ m. ⟦<u32 as Pup<A>>⟧.fits m };

    ghost counted = { λ m. ⟦<u32 as Pup<A>>⟧.counted m };

    ghost pack = { λ m. ⟦<u32 as Pup<A>>⟧.pack m };

    ghost unpack = { λ bytes. ⟦<u32 as Pup<A>>⟧.unpack bytes };

    ghost round_trip = { u32_trips.trip };

    fn packed_len(&self) -> u32 {
        <u32 as Pup<A>>::packed_len(&self.left)
    }

    fn pack_into(&self, out: &mut Vec<u8, A>) -> Result<(), PupError> {
        self.left.pack_into(out)
    }

    fn unpack(alloc: A, bytes: &[u8]) -> Result<(Member, usize), PupError> {
        let (left, len) = <u32 as Pup<A>>::unpack(alloc, bytes)?;
        Ok((Member { left }, len))
    }
}

// specs/Rings.antt has its step; the handlers below are proved to keep it.
impl<A: Allocator + Copy> Chare<A> for Member {
    ghost use Rattle.ring.specs.Rings.{MemberRefuses, member_packs, member_step};

    ghost step = { member_step };

    ghost refuses = { MemberRefuses };

    ghost packs = { λ m fit. member_packs m };

    fn on_letter<G: Gate, P: Drop>(
        &mut self,
        here: &Here<'_, G>,
        _body: &[u8],
        sends: &mut Sends<P, A>,
    ) -> Result<Effect, SendError> {
        let left = self.left.saturating_sub(1);
        if left == 0 && here.me.get() == 0 {
            self.left = 0;
            return Ok(effect(true));
        }
        sends.put(next(here.me, here.n), &[])?;
        self.left = left;
        Ok(effect(left == 0))
    }

    fn on_resume<G: Gate, P: Drop>(
        &mut self,
        here: &Here<'_, G>,
        _round: Round,
        sends: &mut Sends<P, A>,
    ) -> Result<Effect, SendError> {
        if self.left == 0 || here.me.get() != 0 {
            return Ok(effect(self.left == 0));
        }
        sends.put(next(here.me, here.n), &[])?;
        Ok(effect(false))
    }
}

// A visit takes one unit of work.
fn effect(finished: bool) -> Effect
    ensures value { result ≡ record { units = 1; at_sync = false; finished = finished } }
{
    Effect {
        units: 1,
        at_sync: false,
        finished,
    }
}

// The next in the ring.
fn next(me: Index, n: u32) -> Index
    requires member { me < n }
    requires few { n ≤ ELEMENTS }
    ensures value { result ≡ (me + 1) % n }
{
    Index::new((me.get() + 1) % n).unwrap()
}

fn main(rt: HostRuntime) -> ExitCode {
    let outcome = match run_ring(&rt, 100, 10) {
        Ok(outcome) => outcome,
        Err(error) => return report(&rt, &error),
    };
    match outcome.fault() {
        Some(fault) => report(&rt, &fault),
        None => print_account(&rt, outcome.account()),
    }
}

// Reports why there is no account.
fn report<E: Display>(rt: &impl Eprint, error: &E) -> ExitCode {
    let _ = eprintln!(rt; "ring: {error}");
    ExitCode::from(1)
}

fn print_account(rt: &(impl Print + Eprint), account: Account) -> ExitCode {
    let Account {
        posted,
        executed,
        held,
    } = account;
    match println!(rt; "posted {posted} executed {executed} held {held}") {
        Ok(()) => ExitCode::from(0),
        Err(error) => report(rt, &error),
    }
}

// Runs this number of members on two PEs, each of which the token visits this number of times.
fn run_ring<R: Threads + Wait + Sync + AllocGlobal>(
    rt: &R,
    members: u32,
    visits: u32,
) -> Result<Outcome<Member>, RunError> {
    let config = Config::usual(2);
    let chares = ring(rt, members, visits)?;
    let outcome: Outcome<Member> = run(rt, rt.alloc(), &config, &NoGate, chares)?;
    Ok(outcome)
}

fn ring<R: AllocGlobal>(rt: &R, members: u32, visits: u32) -> Result<Vec<Member>, AllocError> {
    let mut chares = Vec::with_capacity(rt.alloc(), members as usize)?;
    for _ in 0..members {
        chares.push(Member { left: visits })?;
    }
    Ok(chares)
}
