//! Reads one line of an event list.

ghost use Rattle.std.specs.Prelude.{◌≡◌, ◌⊎◌, ◌++◌, ◌<◌, false, MatchOption, MatchResult, SomeIff};
ghost use Rattle.event_lists.specs.declared.error.EventListError.TheVariants.{Form, Limit};
ghost use Rattle.event_lists.specs.Faults.{IsMalformed, IsPast};
ghost use Rattle.event_lists.specs.Lines.{event_of, has_element, has_pe, line_at};
ghost use Rattle.event_lists.specs.Text.{event_line, IsWithin};

use crate::error::EventListError;
use crate::name::{Name, behind};
use crate::numbers::number_at;
use chare_index::{Index, Limits, Pe};
use rts_core::Event;

/// The event of the line at the front of these bytes, and the bytes after it. `number` is the number of this line.
///
/// # Errors
///
/// [`Form`](EventListError::Form) where the bytes begin with no line of one of the nine forms, and otherwise
/// [`Limit`](EventListError::Limit) where a number in it is out of its range.
pub(crate) fn read_line(bytes: &[u8], number: u32) -> Result<(Event, &[u8]), EventListError>
    ensures { MatchResult result
        (λ found. (bytes.now ≡ event_line found.0 ++ found.1.now) × IsWithin found.0)
        (λ e. ((e ≡ Form number) × IsMalformed bytes.now) ⊎ ((e ≡ Limit number) × IsPast bytes.now)) }
{
    let Some((line, rest)) = line_at(bytes) else {
        return Err(EventListError::Form(number));
    };
    match line.event() {
        Some(event) => Ok((event, rest)),
        None => Err(EventListError::Limit(number)),
    }
}

// What a line says: its name, and the numbers after it, 0 for each that it does not have.
#[derive(Clone, Copy, Debug, PartialEq, Eq)]
struct Line {
    name: Name,
    pe: u64,
    element: u64,
}

// The line at the front of these bytes, and the bytes after it.
fn line_at(bytes: &[u8]) -> Option<(Line, &[u8])>
    ensures { MatchOption result (line_at bytes.now ≡ None)
        (λ found. line_at bytes.now ≡ Some (record { name = found.0.name; pe = found.0.pe; element = found.0.element; rest = found.1.now })) }
{
    let (name, rest) = Name::at(bytes)?;
    let (pe, rest) = number_at(name.has_pe(), rest)?;
    let (element, rest) = number_at(name.has_element(), rest)?;
    let rest = behind(b"\n", rest)?;
    Some((Line { name, pe, element }, rest))
}

impl Line {
    // Its event, or `None` where a number is out of its range.
    fn event(self) -> Option<Event>
        requires no_pe { has_pe self.name ≡ false → self.pe ≡ 0 }
        requires no_element { has_element self.name ≡ false → self.element ≡ 0 }
        ensures { MatchOption result (IsWithin (event_of self.name self.pe self.element) → ⊥)
            (λ event. (event ≡ event_of self.name self.pe self.element) × IsWithin event) }
    {
        let pe = pe_of(self.pe)?;
        let element = index_of(self.element)?;
        Some(self.name.event(pe, element))
    }
}

// The PE of this number.
fn pe_of(number: u64) -> Option<Pe>
    ensures { SomeIff result (number < Limits.PES) number }
{
    Pe::new(u32::try_from(number).ok()?)
}

// The element of this number.
fn index_of(number: u64) -> Option<Index>
    ensures { SomeIff result (number < Limits.ELEMENTS) number }
{
    Index::new(u32::try_from(number).ok()?)
}
