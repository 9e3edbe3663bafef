//! What a handler posts letters with.

ghost use Rattle.std.specs.Prelude.{◌≡◌, ℕ, ◌+◌, ◌∷◌, ◌++◌, [], ◌<◌, ◌≤◌, length, take, true, false, IfOk, IfErr, OnOk, OnErr, MatchResult, vec_len, vec_capacity, if◌then◌else◌};
ghost use Rattle.chare_index.specs.declared.limits.TheConstants.Limits.{BODY_BYTES, LETTERS};
ghost use Rattle.std.specs.VecDeque.{deque_len, deque_capacity};
ghost use Rattle.chares.specs.declared.sends.SendError.TheVariants.{OutOfMemory};
ghost use Rattle.chares.specs.Posting.{Posting, posted, traced, with_entry, IsPost, RefusesPut};

use crate::body::Body;
use crate::body_limit::BodyLimit;
use crate::carried::{Addressed, Carried};
use crate::letter::Letter;
use crate::trace_entry::TraceEntry;
use chare_index::{Index, Limits, Pe};
use std::alloc::{AllocError, AllocFailed, Allocator, Global};
use std::collections::VecDeque;
use std::marker::Model;
use thiserror::Error;

/// Why a letter was not posted. Where several reasons apply, the one with the lowest number is reported. The numbers
/// are stable.
#[derive(Clone, Copy, Debug, PartialEq, Eq, Error)]
pub enum SendError {
    /// There is no element with this index.
    #[error("there is no such element")]
    Stranger = 1,
    /// The body is longer than a letter of the run may be: than 1,024 bytes, where it asks for no more.
    #[error("the body is too long")]
    TooLong = 2,
    /// The PE has posted as many letters as it may.
    #[error("no letter number is left")]
    Worn = 3,
    /// No memory was left.
    #[error("out of memory")]
    OutOfMemory = 4,
}

impl From<AllocError> for SendError {
    ghost from_gives = { λ _ e. e ≡ OutOfMemory };

    fn from(_: AllocError) -> SendError {
        SendError::OutOfMemory
    }
}

impl<T: Drop> From<AllocFailed<T>> for SendError {
    ghost from_gives = { λ _ e. e ≡ OutOfMemory };

    fn from(_: AllocFailed<T>) -> SendError {
        SendError::OutOfMemory
    }
}

/// What waits in an outbox: a letter, or an element that `P` stands for, perhaps with the PE that it goes to.
pub type Out<P, A = Global> = Addressed<Carried<Letter<A>, P>>;

/// The outbox of a PE, lent to a handler that runs there, which may only post letters. `P` is what else may wait in it.
/// Contracts see it as the record `Posting`.
#[derive(Drop)]
pub struct Sends<P, A: Allocator = Global> {
    me: Pe,
    n: u32,
    longest: BodyLimit,
    count: u64,
    outbox: VecDeque<Out<P, A>, A>,
    // Whether one place of the outbox is kept free, for a parcel that may come back.
    spare: bool,
    // Whether a trace is kept.
    tracing: bool,
    trace: Vec<TraceEntry, A>,
    alloc: A,
}

impl<P, A: Allocator> Model for Sends<P, A> {
    ghost use Rattle.std.specs.Prelude.{◌≡◌, ◌<◌, ◌≤◌, true};
    ghost use Rattle.std.specs.VecDeque.{deque_len, deque_capacity};
    ghost use Rattle.chare_index.specs.declared.limits.TheConstants.Limits.{LETTERS};
    ghost use Rattle.chares.specs.Posting.{Posting};

    ghost Value = { Posting P };

    ghost view = { λ s. record {
      me = s.me;
      n = s.n;
      longest = s.longest;
      count = s.count;
      outbox = s.outbox.items;
      spare = s.spare;
      tracing = s.tracing;
      trace = s.trace.items;
    } };

    ghost invariant = { λ s. (s.count ≤ LETTERS) × (s.spare ≡ true → deque_len s.outbox < deque_capacity s.outbox) };
}

impl<P: Drop, A: Allocator> Sends<P, A> {
    /// Posts a letter with a copy of this body to an element.
    ///
    /// # Errors
    ///
    /// Nothing is posted on any of them. The first that applies: [`Stranger`](SendError::Stranger),
    /// [`TooLong`](SendError::TooLong), [`Worn`](SendError::Worn), [`OutOfMemory`](SendError::OutOfMemory).
    pub fn put(&mut self, to: Index, body: &[u8]) -> Result<(), SendError>
    where
        A: Copy,
        ensures answer { MatchResult result (λ _. IsPost self.old to body.now) (RefusesPut self.old to body.now) }
        ensures ok { OnOk result (self.new ≡ posted self.old ((to, body.now) ∷ [])) }
        ensures err { OnErr result (self.new ≡ self.old) }
        ensures least { BODY_BYTES ≤ self.old.longest }
    {
        self.judge(to, body)?;
        let body = Body::copy_of(self.alloc, body)?;
        self.post(to, body)?;
        Ok(())
    }

    /// Posts a letter with this body to an element. A body of more than 15 bytes is moved into the letter, and not copied.
    ///
    /// # Errors
    ///
    /// Those of [`put`](Sends::put). The body is dropped.
    pub fn put_vec(&mut self, to: Index, body: Vec<u8, A>) -> Result<(), SendError>
    where
        A: Copy,
        ensures answer { MatchResult result (λ _. IsPost self.old to body.items) (RefusesPut self.old to body.items) }
        ensures ok { OnOk result (self.new ≡ posted self.old ((to, body.items) ∷ [])) }
        ensures err { OnErr result (self.new ≡ self.old) }
        ensures least { BODY_BYTES ≤ self.old.longest }
    {
        self.judge(to, &body)?;
        let body = Body::of_vec(self.alloc, body)?;
        self.post(to, body)?;
        Ok(())
    }

    // Whether a letter with this body may be posted to an element, or else the first reason why not.
    fn judge(&self, to: Index, body: &[u8]) -> Result<(), SendError>
        ensures answer { MatchResult result (λ _. IsPost self.now to body.now) (RefusesPut self.now to body.now) }
        ensures least { BODY_BYTES ≤ self.now.longest }
    {
        let longest = self.longest.get();
        if self.n <= to.get() {
            return Err(SendError::Stranger);
        }
        if body.len() > longest as usize {
            return Err(SendError::TooLong);
        }
        if self.count == Limits::LETTERS {
            return Err(SendError::Worn);
        }
        Ok(())
    }

    // Posts a letter with this body, where it may be posted.
    fn post(&mut self, to: Index, body: Body<A>) -> Result<(), AllocError>
    where
        A: Copy,
        requires may { IsPost self.old to body }
        ensures ok { OnOk result (self.new ≡ posted self.old ((to, body) ∷ [])) }
        ensures err { OnErr result (self.new ≡ self.old) }
    {
        reserve_entry(&mut self.trace, self.tracing)?;
        self.outbox.reserve(2)?;
        let number = self.count as u32;
        let posted = TraceEntry::Posted((self.me, number), to);
        let letter = Letter::new((self.me, number), to, body);
        let out = Addressed {
            parcel: Carried::Letter(letter),
            address: None,
        };
        self.outbox.push_back_reserved(out);
        add_entry(&mut self.trace, self.tracing, posted);
        self.count += 1;
        Ok(())
    }

    /// Adds an entry to the trace, where one is kept.
    pub(crate) fn log(&mut self, new: TraceEntry) -> Result<(), AllocError>
        ensures ok { OnOk result (self.new ≡ with_entry self.old new) }
        ensures err { OnErr result (self.new ≡ self.old) }
    {
        reserve_entry(&mut self.trace, self.tracing)?;
        add_entry(&mut self.trace, self.tracing, new);
        Ok(())
    }

    /// How many parcels wait in the outbox.
    pub(crate) fn waiting(&self) -> usize
        ensures value { result ≡ length self.now.outbox }
    {
        self.outbox.len()
    }

    /// How many entries the trace has so far.
    pub(crate) fn logged(&self) -> usize
        ensures value { result ≡ length self.now.trace }
    {
        self.trace.len()
    }

    /// Takes back everything posted and entered in the trace since these counts were read.
    pub(crate) fn rewind(&mut self, count: u64, waiting: usize, logged: usize)
        requires fewer { count ≤ self.old.count }
        ensures ok { self.new ≡ record self.old { count = count; outbox = take waiting self.old.outbox; trace = take logged self.old.trace } }
    {
        self.outbox.truncate(waiting);
        self.trace.truncate(logged);
        self.count = count;
    }

    /// How many elements there are.
    pub fn n(&self) -> u32
        ensures value { result ≡ self.now.n }
    {
        self.n
    }

    /// Where its letters take their memory: a handler that packs what it posts takes it there too.
    pub fn allocator(&self) -> A
    where
        A: Copy,
    {
        self.alloc
    }

    /// How many bytes the body of a letter may have.
    pub fn longest(&self) -> BodyLimit
        ensures value { result ≡ self.now.longest }
    {
        self.longest
    }

    /// How many letters the PE has posted.
    pub fn count(&self) -> u64
        ensures value { result ≡ self.now.count }
        ensures few { result ≤ LETTERS }
    {
        self.count
    }

    /// The outbox of a PE that has posted `count` letters, whose bodies may have `longest` bytes, with the trace of the event so far.
    ///
    /// It is public only for the crate of the PEs, which lends its outbox to a handler: the language has no items that a
    /// single other crate may use. A chare is handed a `Sends` and cannot make one for a PE that runs; a caller elsewhere
    /// gets an outbox of its own, whose letters reach no PE.
    pub fn lend(
        alloc: A,
        me: Pe,
        n: u32,
        longest: BodyLimit,
        count: u64,
        outbox: VecDeque<Out<P, A>, A>,
        spare: bool,
        tracing: bool,
        trace: Vec<TraceEntry, A>,
    ) -> Self
        requires numbered { count ≤ LETTERS }
        requires spare_place { spare ≡ true → deque_len outbox < deque_capacity outbox }
        ensures value { result ≡ record { me = me; n = n; longest = longest; count = count; outbox = outbox.items; spare = spare; tracing = tracing; trace = trace.items } }
    {
        Sends {
            me,
            n,
            longest,
            count,
            outbox,
            spare,
            tracing,
            trace,
            alloc,
        }
    }

    /// What is there after the handler: how many letters the PE has posted, its outbox, and the trace.
    pub fn give_back(self) -> (u64, VecDeque<Out<P, A>, A>, Vec<TraceEntry, A>)
        ensures count { result.0 ≡ self.count }
        ensures few { self.count ≤ LETTERS }
        ensures outbox { result.1.items ≡ self.outbox }
        ensures spare_place { self.spare ≡ true → deque_len result.1 < deque_capacity result.1 }
        ensures trace { result.2.items ≡ self.trace }
    {
        let Sends {
            me: _,
            n: _,
            longest: _,
            count,
            outbox,
            spare: _,
            tracing: _,
            trace,
            alloc: _,
        } = self;
        (count, outbox, trace)
    }
}

/// Reserves the memory of one more entry of a trace, where one is kept.
pub fn reserve_entry<A: Allocator>(
    trace: &mut Vec<TraceEntry, A>,
    tracing: bool,
) -> Result<(), AllocError>
    ensures items { trace.new.items ≡ trace.old.items }
    ensures reserved { OnOk result (tracing ≡ true → vec_len trace.new < vec_capacity trace.new) }
    ensures wanted { OnErr result (tracing ≡ true) }
{
    if !tracing {
        return Ok(());
    }
    trace.reserve(1)
}

/// Adds an entry to a trace, where one is kept, in memory that was reserved for it.
pub fn add_entry<A: Allocator>(trace: &mut Vec<TraceEntry, A>, tracing: bool, report: TraceEntry)
    requires reserved { tracing ≡ true → vec_len trace.old < vec_capacity trace.old }
    ensures added { trace.new.items ≡ traced tracing trace.old.items (report ∷ []) }
{
    if !tracing {
        return;
    }
    let Ok(()) = trace.push(report) else {
        unreachable!()
    };
}
