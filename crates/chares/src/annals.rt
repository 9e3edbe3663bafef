//! The annals of an element: its journal, of which only what came since it settled is kept.

ghost use Rattle.std.specs.Prelude.{◌≡◌, ◌∷◌, ◌++◌, [], ◌<◌, List, length, OnOk, true, false};
ghost use Rattle.chares.specs.Annals.{AnnalsView, history_after};
ghost use Rattle.chares.specs.Letters.{Done};
ghost use Rattle.chares.specs.declared.entry.Entry.{Entry};
ghost use Rattle.chares.specs.declared.history.History.TheVariants.{Kept, Dropped};

use crate::history::History;
use crate::journal::Journal;
use crate::letter::Letter;
use crate::past::Past;
use chare_index::Round;
use std::alloc::{AllocError, Allocator, Global};
use std::marker::Model;

/// How many letters an element keeps at most whose history is dropped: so its buffer of them stays below a kilobyte.
const MOST_LETTERS: usize = 16;

/// A body of this many bytes is dropped before another letter is handled, while its memory is still in the processor's cache: the next
/// message can have it.
const LONG_BODY: usize = 64;

/// All that an element has handled, in order. Its last entries are kept; those before are settled: they take no memory, and only
/// contracts know them. How many are kept depends on the [`History`]: annals that keep it have settled nothing. Contracts see the
/// annals as the record `AnnalsView`.
#[derive(Drop)]
pub struct Annals<A: Allocator = Global> {
    past: Past,
    kept: Journal<A>,
    settled: u64,
    history: History,
}

impl<A: Allocator> Model for Annals<A> {
    ghost use Rattle.std.specs.Prelude.{◌≡◌, ◌++◌, [], length};
    ghost use Rattle.chares.specs.Annals.{AnnalsView};
    ghost use Rattle.chares.specs.declared.history.History.TheVariants.{Kept};

    ghost Value = { AnnalsView };

    ghost view = { λ j. record {
      entries = j.past.entries ++ j.kept.entries;
      kept = j.kept.entries;
      settled = j.settled;
      history = j.history;
      letter_room = j.kept.letter_room;
      resumption_room = j.kept.resumption_room;
    } };

    ghost invariant = { λ j. (length j.past.entries ≡ j.settled) × (j.history ≡ Kept → j.past.entries ≡ []) };
}

impl<A: Allocator> Annals<A> {
    /// Empty annals, which keep their entries.
    pub(crate) fn new(alloc: A) -> Self
    where
        A: Copy,
        ensures value { result.entries ≡ [] }
        ensures history { result.history ≡ Kept }
    {
        Annals {
            past: Past::new(),
            kept: Journal::new(alloc),
            settled: 0,
            history: History::Kept,
        }
    }

    /// Annals of this many entries, all of them settled, whose history is dropped.
    pub(crate) fn arrived(alloc: A, past: Past, settled: u64) -> Self
    where
        A: Copy,
        requires counted { length past.entries ≡ settled }
        ensures value { result.entries ≡ past.entries }
        ensures history { result.history ≡ Dropped }
    {
        Annals {
            past,
            kept: Journal::new(alloc),
            settled,
            history: History::Dropped,
        }
    }

    /// Keeps or drops what is handled. Annals that have settled something have dropped their history for good.
    pub(crate) fn set_history(&mut self, history: History)
        ensures ok { self.new ≡ record self.old { history = history_after self.old.settled history } }
    {
        if self.settled > 0 {
            self.history = History::Dropped;
            return;
        }
        self.history = history;
    }

    /// Reserves the memory of one more letter. What is kept is settled first, where the history is dropped and it is much.
    pub(crate) fn reserve_letter(&mut self) -> Result<(), AllocError>
        ensures entries { self.new.entries ≡ self.old.entries }
        ensures reserved { OnOk result (0 < self.new.letter_room) }
        ensures history { self.new.history ≡ self.old.history }
        ensures keeps { self.old.history ≡ Kept → (self.new.kept ≡ self.old.kept) × (self.new.settled ≡ self.old.settled) }
    {
        if self.is_dropped() && self.keeps_much() {
            self.settle();
        }
        self.kept.reserve_letter()
    }

    // Whether many letters are kept, or the last one is long.
    fn keeps_much(&self) -> bool {
        let letters = self.kept.letters();
        match letters.last() {
            Some(last) => letters.len() >= MOST_LETTERS || last.body().len() >= LONG_BODY,
            None => false,
        }
    }

    /// Reserves the memory of one more resumption. What is kept is settled first, where the history is dropped.
    pub(crate) fn reserve_resumption(&mut self) -> Result<(), AllocError>
        ensures entries { self.new.entries ≡ self.old.entries }
        ensures reserved { OnOk result (0 < self.new.resumption_room) }
        ensures history { self.new.history ≡ self.old.history }
        ensures keeps { self.old.history ≡ Kept → (self.new.kept ≡ self.old.kept) × (self.new.settled ≡ self.old.settled) }
    {
        self.settle();
        self.kept.reserve_resumption()
    }

    // Whether the history is dropped.
    fn is_dropped(&self) -> bool
        ensures kept { self.now.history ≡ Kept → result ≡ false }
        ensures dropped { result ≡ true → self.now.history ≡ Dropped }
    {
        matches!(self.history, History::Dropped)
    }

    /// Adds a letter, in memory that was reserved for it.
    pub(crate) fn push_letter(&mut self, letter: Letter<A>)
        requires reserved { 0 < self.old.letter_room }
        ensures entries { self.new.entries ≡ self.old.entries ++ Entry.Letter letter ∷ [] }
        ensures kept { self.new.kept ≡ self.old.kept ++ Entry.Letter letter ∷ [] }
        ensures same { (self.new.settled ≡ self.old.settled) × (self.new.history ≡ self.old.history) }
    {
        self.kept.push_letter(letter);
    }

    /// Adds a resumption after this round, in memory that was reserved for it.
    pub(crate) fn push_resumption(&mut self, round: Round)
        requires reserved { 0 < self.old.resumption_room }
        ensures entries { self.new.entries ≡ self.old.entries ++ Entry.Resumption round ∷ [] }
        ensures kept { self.new.kept ≡ self.old.kept ++ Entry.Resumption round ∷ [] }
        ensures same { (self.new.settled ≡ self.old.settled) × (self.new.history ≡ self.old.history) }
    {
        self.kept.push_resumption(round);
    }

    // Settles what is kept, where the history is dropped: it takes no more memory.
    fn settle(&mut self)
        ensures entries { self.new.entries ≡ self.old.entries }
        ensures history { self.new.history ≡ self.old.history }
        ensures keeps { self.old.history ≡ Kept → (self.new.kept ≡ self.old.kept) × (self.new.settled ≡ self.old.settled) }
    {
        if !self.is_dropped() {
            return;
        }
        let Some(settled) = self.settled.checked_add(self.kept.len() as u64) else {
            return;
        };
        self.past = Past::with(&self.past, &self.kept);
        self.settled = settled;
        self.kept.clear();
    }

    /// Whether all is kept, or what came before is dropped.
    pub fn history(&self) -> History
        ensures value { result ≡ self.now.history }
    {
        self.history
    }

    /// How many letters and resumptions are settled: none, where the history is kept.
    pub fn settled(&self) -> u64
        ensures value { result ≡ self.now.settled }
        ensures all { self.now.history ≡ Kept → result ≡ 0 }
    {
        self.settled
    }

    /// The letters and resumptions since, which are all but as many as are settled: all, where the history is kept. A resumption
    /// counts the letters before it among these.
    pub fn kept(&self) -> &Journal<A>
        ensures value { result.now.entries ≡ self.now.kept }
        ensures last { (past : List Done) × (length past ≡ self.now.settled) × (self.now.entries ≡ past ++ result.now.entries) }
        ensures all { self.now.history ≡ Kept → result.now.entries ≡ self.now.entries }
    {
        &self.kept
    }
}
