//! A meeting at which one worker waits for another.
use std::sync::atomic::{AtomicBool, AtomicUsize, Ordering};
use std::thread;
use std::time::{Clock, Duration};

/// More than any worker's number.
const NOBODY: usize = usize::MAX;

/// How many milliseconds the first worker waits at most.
const MOST_MILLISECONDS: u32 = 10_000;

/// Holds the worker that reads first until another one has written answers.
#[derive(Drop)]
pub(crate) struct Meeting<'a, R> {
    rt: &'a R,
    first: AtomicUsize,
    other_answered: AtomicBool,
    met: AtomicBool,
}

impl<'a, R: Clock> Meeting<'a, R> {
    /// A meeting that no worker has come to.
    pub(crate) fn new(rt: &'a R) -> Meeting<'a, R> {
        Meeting {
            rt,
            first: AtomicUsize::new(NOBODY),
            other_answered: AtomicBool::new(false),
            met: AtomicBool::new(false),
        }
    }

    /// Whether another worker wrote answers while the first was held.
    pub(crate) fn is_met(&self) -> bool {
        self.met.load(Ordering::SeqCst)
    }

    /// Waits until another worker has written answers, but no longer than ten seconds.
    fn hold(&self) {
        for _ in 0..MOST_MILLISECONDS {
            if self.other_answered.load(Ordering::SeqCst) {
                self.met.store(true, Ordering::SeqCst);
                return;
            }
            thread::sleep(self.rt, Duration::from_millis(1));
        }
    }

    /// This worker is about to read: the first that does so is held.
    pub(crate) fn come_to_read(&self, worker: usize) {
        let is_first = self
            .first
            .compare_exchange(NOBODY, worker, Ordering::SeqCst, Ordering::SeqCst)
            .is_ok();
        if is_first {
            self.hold();
        }
    }

    /// This worker has written answers.
    pub(crate) fn note_answers(&self, worker: usize) {
        if self.first.load(Ordering::SeqCst) != worker {
            self.other_answered.store(true, Ordering::SeqCst);
        }
    }
}
