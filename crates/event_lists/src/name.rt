//! The names of the events, with the numbers that follow each.

ghost use Rattle.std.specs.Prelude.{◌≡◌, MatchOption};
ghost use Rattle.event_lists.specs.Lines.{behind, event_of, first_name, has_element, has_pe, name_at, name_text};
ghost use Rattle.event_lists.specs.Text.{IsWithin};

use chare_index::{Index, Pe};
use rts_core::Event;

/// The names of events, each with what follows it.
#[derive(Clone, Copy, Debug, PartialEq, Eq)]
pub(crate) enum Name {
    Start,
    Look,
    Flush,
    Deliver,
    Act,
    Report,
    Decide,
    Depart,
    Resume,
}

impl Name {
    /// The name that begins these bytes, and the bytes after it. No name begins another one.
    pub(crate) fn at(bytes: &[u8]) -> Option<(Name, &[u8])>
        ensures { MatchOption result (name_at bytes.now ≡ None) (λ found. name_at bytes.now ≡ Some (found.0, found.1.now)) }
    {
        let names = [
            Name::Start,
            Name::Look,
            Name::Flush,
            Name::Deliver,
            Name::Act,
            Name::Report,
            Name::Decide,
            Name::Depart,
            Name::Resume,
        ];
        first_name(&names, bytes)
    }

    // Its bytes.
    fn text(self) -> &'static [u8]
        ensures { result.now ≡ name_text self }
    {
        match self {
            Name::Start => b"Start",
            Name::Look => b"Look",
            Name::Flush => b"Flush",
            Name::Deliver => b"Deliver",
            Name::Act => b"Act",
            Name::Report => b"Report",
            Name::Decide => b"Decide",
            Name::Depart => b"Depart",
            Name::Resume => b"Resume",
        }
    }

    /// Whether the number of a PE follows it.
    pub(crate) fn has_pe(self) -> bool
        ensures { result ≡ has_pe self }
    {
        !matches!(self, Name::Decide)
    }

    /// Whether the number of an element follows that.
    pub(crate) fn has_element(self) -> bool
        ensures { result ≡ has_element self }
    {
        matches!(self, Name::Start | Name::Depart | Name::Resume)
    }

    /// The event of this name, of this PE and this element, where it has them.
    pub(crate) fn event(self, pe: Pe, element: Index) -> Event
        ensures event { result ≡ event_of self pe element }
        ensures within { IsWithin result }
    {
        match self {
            Name::Start => Event::Start(pe, element),
            Name::Look => Event::Look(pe),
            Name::Flush => Event::Flush(pe),
            Name::Deliver => Event::Deliver(pe),
            Name::Act => Event::Act(pe),
            Name::Report => Event::Report(pe),
            Name::Decide => Event::Decide,
            Name::Depart => Event::Depart(pe, element),
            Name::Resume => Event::Resume(pe, element),
        }
    }
}

// The first of these names that the bytes begin with, and the bytes after it.
fn first_name<'a>(names: &[Name], bytes: &'a [u8]) -> Option<(Name, &'a [u8])>
    ensures { MatchOption result (first_name names.now bytes.now ≡ None) (λ found. first_name names.now bytes.now ≡ Some (found.0, found.1.now)) }
{
    for name in names {
        if let Some(rest) = behind(name.text(), bytes) {
            return Some((*name, rest));
        }
    }
    None
}

/// The bytes after this word, where they begin with it.
pub(crate) fn behind<'a>(word: &[u8], bytes: &'a [u8]) -> Option<&'a [u8]>
    ensures { MatchOption result (behind word.now bytes.now ≡ None) (λ rest. behind word.now bytes.now ≡ Some rest.now) }
{
    bytes.strip_prefix(word)
}
