//! What one PE did.

ghost use Rattle.std.specs.Prelude.{◌≡◌, ◌++◌, ◌∷◌, [], true, MatchBool, MatchResult, min};

use crate::happening::{Action, Happening, What};
use chare_index::{Pe, Round};
use pe_worker::PeStep;
use std::alloc::{AllocError, Allocator};

/// What one PE did so far, in order.
#[derive(Drop)]
pub(crate) struct PeTrace<A: Allocator> {
    happenings: Vec<Happening, A>,
    // Whether an entry is missing, since memory was refused for it.
    is_short: bool,
    // When the step that is under way began, or when the last one ended.
    began: u64,
    // How many letters the PE has posted.
    posted: u32,
}

impl<A: Allocator> PeTrace<A> {
    /// An empty row of a PE that has posted this number of letters before.
    pub(crate) fn after(alloc: A, posted: u64) -> Self
        ensures empty { result.happenings.items ≡ [] }
        ensures posted { result.posted ≡ min posted 0xffff_ffff }
    {
        PeTrace {
            happenings: Vec::new(alloc),
            is_short: false,
            began: 0,
            posted: number_of(posted),
        }
    }

    /// A step begins. Where the time is not known, it begins where the last one ended.
    pub(crate) fn begin(&mut self, now: Option<u64>) {
        self.began = now.unwrap_or(self.began);
    }

    /// The PE made this step. `posted` is how many letters it has posted after it.
    pub(crate) fn end(&mut self, pe: Pe, step: PeStep, posted: u64, now: Option<u64>) {
        let now = now.unwrap_or(self.began);
        let at = match step {
            PeStep::Reported => now,
            _ => self.began,
        };
        let end = number_of(posted);
        let what = What::Done(pe, action_of(step), self.posted, end);
        self.posted = end;
        self.began = now;
        self.note(Happening {
            at,
            duration: now.saturating_sub(at),
            what,
        });
    }

    /// This round was decided.
    pub(crate) fn decide(&mut self, round: Round, now: Option<u64>) {
        let now = now.unwrap_or(self.began);
        self.began = now;
        self.note(Happening {
            at: now,
            duration: 0,
            what: What::Decided(round),
        });
    }

    /// Adds what happened as the last entry; or notes that it is missing.
    pub(crate) fn note(&mut self, happening: Happening)
        ensures kept { MatchBool self.new.is_short (self.new.happenings.items ≡ self.old.happenings.items)
            (self.new.happenings.items ≡ self.old.happenings.items ++ happening ∷ []) }
    {
        if self.is_short || self.happenings.push(happening).is_err() {
            self.is_short = true;
        }
    }

    /// All that happened.
    ///
    /// # Errors
    ///
    /// Memory was refused for an entry.
    pub(crate) fn into_happenings(self) -> Result<Vec<Happening, A>, AllocError>
        ensures all { MatchResult result (λ all. all.items ≡ self.happenings.items) (λ _. self.is_short ≡ true) }
    {
        let PeTrace {
            happenings,
            is_short,
            began: _,
            posted: _,
        } = self;
        if is_short {
            return Err(AllocError);
        }
        Ok(happenings)
    }
}

// A number of letters, or the greatest of 32 bits.
fn number_of(posted: u64) -> u32
    ensures value { result ≡ min posted 0xffff_ffff }
{
    u32::try_from(posted).unwrap_or(u32::MAX)
}

// What a PE did in a step.
fn action_of(step: PeStep) -> Action {
    match step {
        PeStep::Started(element) => Action::Started(element),
        PeStep::Executed(letter, element) => Action::Executed(letter, element),
        PeStep::Shelved(letter) => Action::Shelved(letter),
        PeStep::Forwarded(letter) => Action::Forwarded(letter),
        PeStep::Installed(element) => Action::Installed(element),
        PeStep::Reported => Action::Reported,
        PeStep::Departed(element, _) => Action::Departed(element),
        PeStep::Resumed(element, round) => Action::Resumed(element, round),
    }
}
