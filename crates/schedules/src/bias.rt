//! Which kinds of events are drawn more often or less often.

ghost use Rattle.std.specs.Prelude.{◌≡◌, ◌≤◌};
ghost use Rattle.schedules.specs.Draws.{factor, weight};

use chare_index::Pe;

/// What is drawn more often than the rest, or less often. Without a bias each enabled event is as likely as every other.
#[derive(Clone, Copy, Debug, Default, PartialEq, Eq)]
pub struct Bias {
    /// Letters are looked up, sent, delivered and executed 16 times as often.
    pub letters_first: bool,
    /// Elements report, depart and go on 16 times as often, and rounds are decided 16 times as often.
    pub moves_first: bool,
    /// Letters are looked up 16 times as often, and so long before they leave that their elements have moved meanwhile.
    pub stale_looks: bool,
    /// Where an event of this PE is drawn, the draw is repeated, up to 15 times.
    pub starved: Option<Pe>,
}

/// The factor of a bias.
const FACTOR: u64 = 16;

/// The kinds of events, in the order in which a number that is drawn goes through them.
#[derive(Clone, Copy, Debug, PartialEq, Eq)]
pub(crate) enum Kind {
    Look,
    Flush,
    Deliver,
    Act,
    Report,
    // An element starts, departs or goes on.
    Element,
    Decide,
}

impl Bias {
    /// The factor by which a bias makes the events of this kind more likely.
    pub(crate) fn weight(&self, kind: Kind) -> u64
        ensures value { result ≡ weight self.now kind }
        ensures some { 1 ≤ result }
        ensures few { result ≤ 256 }
    {
        match kind {
            Kind::Look => factor(self.letters_first) * factor(self.stale_looks),
            Kind::Flush | Kind::Deliver | Kind::Act => factor(self.letters_first),
            Kind::Report | Kind::Element | Kind::Decide => factor(self.moves_first),
        }
    }
}

fn factor(biased: bool) -> u64
    ensures value { result ≡ factor biased }
    ensures some { 1 ≤ result }
    ensures few { result ≤ 16 }
{
    if biased { FACTOR } else { 1 }
}
