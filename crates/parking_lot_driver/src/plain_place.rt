//! The row that a call of a further kind of lock runs on, by the row's plain word.

use crate::section::{SectionWord, sleep, wake_first, wake_in_order};
use crate::table::Row;
use crate::under_way::UnderWay;
use parking_lot_core::ThreadData;
use parking_lot_protocol::{Act, ActResult, SectionAct, WordChange};
use std::alloc::Allocator;
use std::sync::Wait;

/// A row, by the word that anybody may change.
#[derive(Drop)]
pub(crate) struct PlainPlace<'r, 't, 'l, R, A: Allocator> {
    pub row: &'r Row<'t, 'l, R, A>,
}

impl<R, A: Allocator> PlainPlace<'_, '_, '_, R, A> {
    /// Makes an act outside a section, and tells what it gave. The acts of a section that are left, and the wakes after
    /// it, have been made by the lot.
    pub fn make(&self, act: Act) -> ActResult {
        match act {
            Act::Load => ActResult::Word(self.row.load()),
            Act::Exchange(from, to) => match self.row.exchange(from, to) {
                Ok(()) => ActResult::Exchanged,
                Err(word) => ActResult::Word(word),
            },
            Act::Add(by) => ActResult::Before(self.row.add(by)),
            Act::FetchAnd(keep) => ActResult::Before(self.row.mask(keep)),
            _ => ActResult::Made,
        }
    }
}

impl<R: Wait, A: Allocator> PlainPlace<'_, '_, '_, R, A> {
    /// Goes through the section that the call enters: it sleeps if it is to, or wakes others.
    pub fn enter<U: UnderWay>(&self, run: &mut U, key: u8, party: &mut ThreadData<A>) {
        let key = self.row.key(key);
        match run.tell(ActResult::Entered) {
            Act::Section(SectionAct::Check) => sleep(self.row.lot(), key, self, run, party),
            Act::Section(SectionAct::TakeFirst) => wake_first(self.row.lot(), key, self, run),
            _ => wake_in_order(self.row.lot(), key, self, run),
        }
    }
}

impl<R: Wait, A: Allocator> SectionWord for PlainPlace<'_, '_, '_, R, A> {
    fn load(&self) -> u64 {
        self.row.load()
    }

    fn change(&self, change: WordChange) {
        let mut word = self.row.load();
        for _loss in self.row.lot().runtime().forever() {
            match self.row.exchange(word, change.of(word)) {
                Ok(()) => return,
                Err(seen) => word = seen,
            }
        }
        unreachable!()
    }

    fn clear(&self, bit: u64) {
        self.row.mask(!bit);
    }

    fn made(&self, act: Act) -> ActResult {
        self.make(act)
    }
}
