//! The journal of an element.

ghost use Rattle.std.specs.Prelude.{◌≡◌, ◌∷◌, ◌++◌, [], ◌<◌, ◌==◌, length, filter_map, OnOk};
ghost use Rattle.chares.specs.Journals.{JournalView, entries_from, letter_of, AreInOrder};
ghost use Rattle.chares.specs.declared.entry.Entry.{Entry};

use crate::letter::Letter;
use chare_index::Round;
use std::alloc::{AllocError, Allocator, Global};
use std::marker::Model;

/// A resumption in a journal, in 16 bytes.
#[derive(Clone, Copy, Debug, PartialEq, Eq)]
pub struct ResumedAt {
    /// The round after which the element was resumed, or 0 for its start.
    pub round: Round,
    /// How many letters the element had executed before.
    pub letters: u64,
}

/// The letters and resumptions that an element has handled, in order. A long run has many resumptions for each letter, so they
/// are kept apart from the letters, in less memory. Contracts see a journal as the record `JournalView`.
#[derive(Drop)]
pub struct Journal<A: Allocator = Global> {
    letters: Vec<Letter<A>, A>,
    resumptions: Vec<ResumedAt, A>,
}

impl<A: Allocator> Model for Journal<A> {
    ghost use Rattle.std.specs.Prelude.{◌-◌, length, vec_len, vec_capacity};
    ghost use Rattle.chares.specs.Journals.{JournalView, entries_from, AreInOrder};

    ghost Value = { JournalView };

    ghost view = { λ j. record {
      entries = entries_from 0 j.letters.items j.resumptions.items;
      letter_room = vec_capacity j.letters - vec_len j.letters;
      resumption_room = vec_capacity j.resumptions - vec_len j.resumptions;
    } };

    ghost invariant = { λ j. AreInOrder 0 (length j.letters.items) j.resumptions.items };
}

impl<A: Allocator> Journal<A> {
    /// An empty journal.
    pub(crate) fn new(alloc: A) -> Self
    where
        A: Copy,
        ensures value { result.entries ≡ [] }
    {
        Journal {
            letters: Vec::new(alloc),
            resumptions: Vec::new(alloc),
        }
    }

    /// Reserves the memory of one more letter.
    pub(crate) fn reserve_letter(&mut self) -> Result<(), AllocError>
        ensures entries { self.new.entries ≡ self.old.entries }
        ensures reserved { OnOk result (0 < self.new.letter_room) }
    {
        self.letters.reserve(1)
    }

    /// Reserves the memory of one more resumption.
    pub(crate) fn reserve_resumption(&mut self) -> Result<(), AllocError>
        ensures entries { self.new.entries ≡ self.old.entries }
        ensures reserved { OnOk result (0 < self.new.resumption_room) }
    {
        self.resumptions.reserve(1)
    }

    /// Adds a letter, in memory that was reserved for it.
    pub(crate) fn push_letter(&mut self, letter: Letter<A>)
        requires reserved { 0 < self.old.letter_room }
        ensures entries { self.new.entries ≡ self.old.entries ++ Entry.Letter letter ∷ [] }
    {
        let Ok(()) = self.letters.push(letter) else {
            unreachable!()
        };
    }

    /// Adds a resumption after this round, in memory that was reserved for it.
    pub(crate) fn push_resumption(&mut self, round: Round)
        requires reserved { 0 < self.old.resumption_room }
        ensures entries { self.new.entries ≡ self.old.entries ++ Entry.Resumption round ∷ [] }
    {
        let letters = self.letters.len() as u64;
        let Ok(()) = self.resumptions.push(ResumedAt { round, letters }) else {
            unreachable!()
        };
    }

    /// Drops all entries.
    pub(crate) fn clear(&mut self)
        ensures entries { self.new.entries ≡ [] }
    {
        self.letters.clear();
        self.resumptions.clear();
    }

    /// How many letters and resumptions there are.
    pub fn len(&self) -> usize
        ensures value { result ≡ length self.now.entries }
    {
        self.letters.len() + self.resumptions.len()
    }

    /// Whether there are none.
    pub fn is_empty(&self) -> bool
        ensures value { result ≡ (length self.now.entries == 0) }
    {
        self.len() == 0
    }

    /// The letters.
    pub fn letters(&self) -> &[Letter<A>]
        ensures value { result.now ≡ filter_map letter_of self.now.entries }
    {
        self.letters.as_slice()
    }

    /// The resumptions, each with its place among the letters.
    pub fn resumptions(&self) -> &[ResumedAt]
        ensures value { self.now.entries ≡ entries_from 0 (filter_map letter_of self.now.entries) result.now }
        ensures in_order { AreInOrder 0 (length (filter_map letter_of self.now.entries)) result.now }
    {
        self.resumptions.as_slice()
    }
}
