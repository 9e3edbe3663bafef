//! The location cache: for each element a word that says on which PE it is believed to be.

ghost use Rattle.std.specs.Prelude.{◌≡◌, ◌==◌, ◌<◌, ℕ, All, length, IfOk};
ghost use Rattle.chare_index.specs.declared.limits.TheConstants.Limits.{PES};

use chare_index::{Index, Pe};
use std::alloc::{AllocError, Allocator, Global};
use std::marker::{Brand, Model, PhantomData};
use std::sync::atomic::Ordering::SeqCst;
use std::sync::atomic::{AtomicIn, Rule};

/// How many PEs a run has. The rule of a word knows this number by a type; each call that makes words picks it.
pub trait PeCount {
    ghost pes: { ℕ };
}

impl PeCount for Brand {
    ghost pes = { 1 };
}

/// The rule of a word: it is the number of one of the run's PEs.
pub struct IsPe<P>(PhantomData<P>);

impl<P: PeCount> Rule for IsPe<P> {
    ghost invariant = { λ word. (word < P.pes) × (word < PES) };
}

/// Where each element is believed to be: a word for each, which every thread may look up and set at any time, and
/// which always is one of the run's PEs. Contracts see how many elements and PEs there are, and not what the words
/// are, since another thread may set them.
#[derive(Drop)]
pub struct Locations<P: PeCount, A: Allocator = Global> {
    // The number of PEs of the run.
    pes: u32,
    // The PE of each element.
    words: Vec<AtomicIn<IsPe<P>>, A>,
}

impl<P: PeCount, A: Allocator> Model for Locations<P, A> {
    ghost use Rattle.std.specs.Prelude.{◌≡◌, vec_len};
    ghost use Rattle.pe_queues.specs.Whereabouts.{Whereabouts};

    ghost Value = { Whereabouts };

    ghost view = { λ l. record { elements = vec_len l.words; pes = l.pes } };

    ghost invariant = { λ l. l.pes ≡ P.pes };
}

impl<P: PeCount, A: Allocator> Locations<P, A> {
    /// A word for each element, which says that it is at this place. Each place has to be one of the `pes` PEs of
    /// the run. The only error is that memory was refused.
    pub fn new(alloc: A, places: &[Pe], pes: u32) -> Result<Self, AllocError>
        requires counted { pes ≡ P.pes }
        requires known { All (λ place. place < pes) places.now }
        ensures elements { IfOk result (λ made. made.elements ≡ length places.now) }
        ensures pes { IfOk result (λ made. made.pes ≡ pes) }
    {
        let mut words = Vec::with_capacity(alloc, places.len())?;
        for place in places {
            words.push_reserved(AtomicIn::new(u64::from(place.get())));
        }
        Ok(Locations { pes, words })
    }

    /// The PE that the word of an element names. The element has to have a word. The call waits for nobody.
    pub fn look(&self, element: Index) -> Pe
        requires known { element < self.now.elements }
        ensures in_range { result < self.now.pes }
    {
        let word = self.words[element.get() as usize].load(SeqCst);
        Pe::new(word as u32).unwrap()
    }

    /// Makes the word of an element name a PE. The element has to have a word, and the PE has to be one of the
    /// run's. The call waits for nobody.
    pub fn set(&self, element: Index, place: Pe)
        requires known { element < self.now.elements }
        requires in_range { place < self.now.pes }
    {
        let word = &self.words[element.get() as usize];
        word.store(u64::from(place.get()), SeqCst);
    }

    /// How many elements have a word.
    pub fn len(&self) -> usize
        ensures value { result ≡ self.now.elements }
    {
        self.words.len()
    }

    /// Whether no element has a word.
    pub fn is_empty(&self) -> bool
        ensures value { result ≡ (self.now.elements == 0) }
    {
        self.words.is_empty()
    }

    /// The number of PEs of the run.
    pub fn pes(&self) -> u32
        ensures value { result ≡ self.now.pes }
    {
        self.pes
    }
}
