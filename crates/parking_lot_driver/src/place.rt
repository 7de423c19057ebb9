//! The row that a call of a reader-writer lock runs on.
ghost use Rattle.std.specs.Prelude.{◌≡◌};
ghost use Rattle.parking_lot_driver.specs.Runs.{passes};

use crate::table::Row;
use lock_word::{Held, SharedWord};
use parking_lot_core::thread_yield;
use parking_lot_protocol::{Act, ActResult, word};
use std::alloc::Allocator;

/// A row, and the most readers that may be admitted there.
///
/// A call runs there with the rights that it has in hand: an act that changes the word is made where these allow it.
#[derive(Drop)]
pub struct Place<'r, 't, 'l, R, A: Allocator> {
    pub row: &'r Row<'t, 'l, R, A>,
    pub limit: u64,
}

impl<R, A: Allocator> Place<'_, '_, '_, R, A> {
    /// The lock's word. In a clause it is the name of the lock.
    #[inline(always)]
    pub(crate) fn word(&self) -> &SharedWord
        ensures { result.now ≡ self.now.row.now.shared.now.word }
    {
        self.row.shared().word()
    }

    /// Whether the act would admit a reader more than may be.
    pub(crate) fn is_full(&self, act: Act) -> bool
        ensures { result ≡ passes self.now.limit act }
    {
        match act {
            Act::Exchange(from, to) => {
                let readers = word::readers(to);
                word::readers(from) < readers && self.limit < readers
            }
            _ => false,
        }
    }

    /// Makes an act outside a section, and tells what it gave. One that the rights in hand don't allow isn't made, and
    /// gives nothing that a call is told of: it asks for it again. The acts of a section that are left, and the wakes
    /// after it, have been made by the lot.
    pub(crate) fn make(&self, act: Act, held: &mut Held) -> ActResult
        requires { held.old ≡ self.now.row.now.shared.now.word }
        ensures { held.new ≡ self.now.row.now.shared.now.word }
    {
        match act {
            Act::Load => ActResult::Word(self.word().look_by(held)),
            Act::Exchange(from, to) => self.exchange(from, to, held),
            Act::Add(by) => {
                let word = self.word().load();
                self.step(word, word.wrapping_add(by), held)
            }
            Act::FetchAnd(keep) => {
                let word = self.word().load();
                self.step(word, word & keep, held)
            }
            _ => ActResult::Made,
        }
    }

    /// Exchanges the word, and tells which it was.
    fn exchange(&self, from: u64, to: u64, held: &mut Held) -> ActResult
        requires { held.old ≡ self.now.row.now.shared.now.word }
        ensures { held.new ≡ self.now.row.now.shared.now.word }
    {
        match self.word().exchange_by(held, from, to) {
            Some(Ok(())) => ActResult::Exchanged,
            Some(Err(word)) => ActResult::Word(word),
            None => {
                thread_yield();
                ActResult::Made
            }
        }
    }

    /// Changes the word that was seen to another, and tells which it was, if nobody was faster.
    fn step(&self, word: u64, to: u64, held: &mut Held) -> ActResult
        requires { held.old ≡ self.now.row.now.shared.now.word }
        ensures { held.new ≡ self.now.row.now.shared.now.word }
    {
        match self.word().exchange_by(held, word, to) {
            Some(Ok(())) => ActResult::Before(word),
            Some(Err(_word)) => ActResult::Made,
            None => {
                thread_yield();
                ActResult::Made
            }
        }
    }
}
