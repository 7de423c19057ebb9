//! What stands round the threads that ask: words, a number that they tell each other, and the time.

use crate::calls::{Answer, Aside};
use parking_lot_rwlock::LockTable;
use std::sync::atomic::{AtomicU64, Ordering};
use std::thread;
use std::time::{Clock, Duration, Instant};

/// How many turns of one millisecond something is awaited for.
const TURNS: u32 = 10_000;

/// What threads share beside a lock, which has the first row of the table.
#[derive(Drop)]
pub struct Scene<'s, 'l, R> {
    pub rt: &'s R,
    pub table: &'s LockTable<'l, R>,
    /// A moment that has come.
    pub past: Instant,
    pub said: AtomicU64,
}

impl<R: Clock> Scene<'_, '_, R> {
    /// The number that was said last.
    pub fn said(&self) -> u64 {
        self.said.load(Ordering::SeqCst)
    }

    /// Says a number.
    pub fn say(&self, number: u64) {
        self.said.store(number, Ordering::SeqCst);
    }

    /// Waits until the word is this one, and answers whether it is.
    fn comes(&self, word: u64) -> bool {
        for _turn in 0..TURNS {
            if self.table.word(0) == Some(word) {
                return true;
            }
            thread::sleep(self.rt, Duration::from_millis(1));
        }
        false
    }

    /// Waits until that number was said, or a later one, and answers whether it was.
    fn hears(&self, number: u64) -> bool {
        for _turn in 0..TURNS {
            if self.said() >= number {
                return true;
            }
            thread::sleep(self.rt, Duration::from_millis(1));
        }
        false
    }

    /// What was had, with the word.
    pub fn had(&self) -> Answer {
        match self.table.word(0) {
            Some(word) => Answer::HadAt(word),
            None => Answer::Had,
        }
    }

    /// Makes a look, at a lock that says this of itself.
    pub fn look(&self, what: Aside, locked: bool, alone: bool) -> Answer {
        match what {
            Aside::Locked => whether(locked),
            Aside::Alone => whether(alone),
            Aside::Word => match self.table.word(0) {
                Some(word) => Answer::Number(word),
                None => Answer::Unknown,
            },
            Aside::Comes(word) => whether(self.comes(word)),
            Aside::Says(number) => {
                self.said.store(number, Ordering::SeqCst);
                Answer::Done
            }
            Aside::Hears(number) => whether(self.hears(number)),
            Aside::Said => Answer::Number(self.said()),
        }
    }

    /// Reads the count, lets others run where the wait is short, and writes the next number, which it answers.
    pub fn count_up(&self, yields: bool) -> u64 {
        let next = self.said().wrapping_add(1);
        if yields {
            thread::yield_now();
        }
        self.said.store(next, Ordering::SeqCst);
        next
    }
}

/// Whether it is so, as an answer.
fn whether(so: bool) -> Answer {
    if so { Answer::Yes } else { Answer::No }
}
