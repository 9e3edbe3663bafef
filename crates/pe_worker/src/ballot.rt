//! Quiescence detection: whether a run has nothing left to do, by what its workers say of their idle turns.

use chare_index::Pe;
use std::alloc::{AllocError, Allocator, Global};
use std::sync::atomic::AtomicU64;
use std::sync::atomic::Ordering::SeqCst;

/// How many idle turns in a row a worker takes before it asks the others: a few milliseconds.
const PATIENCE: u64 = 10_000;

/// A question that all workers answer by an idle turn. Who asks has found nothing to do for a while. Each worker answers with the
/// number of the question that it had read before its last turn, if that turn was idle.
///
/// Once all have answered, the same is asked again: a worker that answered early may have been sent a letter by one that answered
/// late, and be busy with it. A worker that answers both questions and was not woken between them took idle turns alone from the one
/// to the other. So when the second question was asked, nobody was doing anything, and since then each has looked for something to
/// do, and there was nothing that another could have changed. (E. W. Dijkstra, W. H. J. Feijen and A. J. M. van Gasteren,
/// "Derivation of a termination detection algorithm for distributed computations", Information Processing Letters 16(5), 1983, detect
/// the end of a computation by a second look in the same way.)
///
/// No clause rests on it: what is left of a run shows whether anything was left to do.
#[derive(Drop)]
pub(crate) struct Ballot<A: Allocator = Global> {
    // The number of the last question, or 0.
    asked: AtomicU64,
    // How often a worker did something after an idle turn.
    woken: AtomicU64,
    // The answer of each worker, or 0.
    answers: Vec<AtomicU64, A>,
}

/// A question that was asked: its number, how often workers had been woken before the first of the two, and whether it is the second.
#[derive(Clone, Copy, Debug)]
pub(crate) struct Question {
    number: u64,
    woken: u64,
    is_second: bool,
}

impl<A: Allocator> Ballot<A> {
    /// A ballot of this many workers, before any question. The only error is that memory was refused.
    pub(crate) fn new(alloc: A, workers: u32) -> Result<Self, AllocError> {
        let mut answers = Vec::with_capacity(alloc, workers as usize)?;
        for _worker in 0..workers {
            answers.push(AtomicU64::new(0))?;
        }
        Ok(Ballot {
            asked: AtomicU64::new(0),
            woken: AtomicU64::new(0),
            answers,
        })
    }

    /// The number of the last question, which a worker reads before a turn.
    pub(crate) fn asked(&self) -> u64 {
        self.asked.load(SeqCst)
    }

    /// A worker that had read this number took an idle turn.
    pub(crate) fn answer(&self, pe: Pe, number: u64) {
        if let Some(answer) = self.answers.get(pe.get() as usize) {
            answer.store(number, SeqCst);
        }
    }

    /// A worker did something in a turn, after an idle one.
    pub(crate) fn wake(&self, pe: Pe) {
        self.answer(pe, 0);
        self.woken.fetch_add(1, SeqCst);
    }

    /// Asks the workers for the first time, where this one has been idle for this many turns in a row.
    pub(crate) fn ask(&self, idle: u64) -> Option<Question> {
        if idle < PATIENCE {
            return None;
        }
        let woken = self.woken.load(SeqCst);
        Some(Question {
            number: self.next_number(),
            woken,
            is_second: false,
        })
    }

    /// Asks the workers again, once all have answered the first question.
    pub(crate) fn ask_again(&self, first: Question) -> Question {
        Question {
            number: self.next_number(),
            woken: first.woken,
            is_second: true,
        }
    }

    // The number of the next question.
    fn next_number(&self) -> u64 {
        self.asked.fetch_add(1, SeqCst).saturating_add(1)
    }

    /// Whether a worker was woken since the first question was asked. Then it has to be asked anew.
    pub(crate) fn is_void(&self, question: Question) -> bool {
        self.woken.load(SeqCst) != question.woken
    }

    /// Whether all workers have answered a question, and none was woken since the first was asked.
    pub(crate) fn is_answered(&self, question: Question) -> bool {
        for answer in self.answers.as_slice() {
            if answer.load(SeqCst) < question.number {
                return false;
            }
        }
        !self.is_void(question)
    }
}

impl Question {
    /// Whether it is the second question, whose answers say that nothing is left to do.
    pub(crate) fn is_second(self) -> bool {
        self.is_second
    }
}
