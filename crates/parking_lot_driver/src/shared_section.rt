//! The word of a reader-writer lock in a section. A call leaves what it has in hand in the second word as it enters one
//! in which others are woken: there a store picks it up, and leaves what there is then for those that are woken.
ghost use Rattle.std.specs.Prelude.{◌≡◌};

use crate::handed::Handed;
use crate::place::Place;
use crate::section::{SectionWord, sleep, wake_first, wake_in_order};
use crate::under_way::UnderWay;
use lock_word::{EXCLUSIVE, Held, PENDING};
use parking_lot_core::{ThreadData, UnparkToken};
use parking_lot_protocol::{Act, ActResult, SectionAct, WordChange};
use std::alloc::Allocator;
use std::cell::Cell;
use std::sync::Wait;

/// The word of a lock in a section, and what its call has left there.
#[derive(Drop)]
pub(crate) struct SharedSection<'p, 'r, 't, 'l, R, A: Allocator> {
    place: &'p Place<'r, 't, 'l, R, A>,
    /// The number of what it has left.
    share: u64,
    /// Whether a store took that.
    taken: Cell<bool>,
}

impl<'p, 'r, 't, 'l, R: Wait, A: Allocator> SharedSection<'p, 'r, 't, 'l, R, A> {
    /// The word of a call that has left so much.
    pub fn of(
        place: &'p Place<'r, 't, 'l, R, A>,
        share: u64,
    ) -> SharedSection<'p, 'r, 't, 'l, R, A> {
        SharedSection {
            place,
            share,
            taken: Cell::new(false),
        }
    }

    /// Changes the word that was seen to another, and answers whether it did.
    fn stores(&self, word: u64, to: u64) -> bool {
        if word / 4 == to / 4 {
            self.place.word().change(word, to).is_ok()
        } else {
            self.gives(word, to)
        }
    }

    /// The same where the number of rights changes: by what the call has left.
    fn gives(&self, word: u64, to: u64) -> bool {
        let mut held = self.place.pick_up(self.share);
        let is_done = matches!(
            self.place.word().exchange_by(&mut held, word, to),
            Some(Ok(()))
        );
        self.place.leave(held);
        if is_done {
            self.taken.set(true);
        }
        is_done
    }

    /// Keeps those of the two bits that are anybody's, and answers the word before.
    fn keeps(&self, keep: u64) -> u64 {
        for _loss in self.place.row.lot().runtime().forever() {
            let word = self.place.word().load();
            if self.stores(word, word & keep) {
                return word;
            }
        }
        unreachable!()
    }
}

impl<R: Wait, A: Allocator> SectionWord for SharedSection<'_, '_, '_, '_, R, A> {
    fn load(&self) -> u64 {
        self.place.word().load()
    }

    fn change(&self, change: WordChange) {
        for _loss in self.place.row.lot().runtime().forever() {
            let word = self.place.word().load();
            if self.stores(word, change.of(word)) {
                return;
            }
        }
        unreachable!()
    }

    fn clear(&self, bit: u64) {
        self.keeps(!bit);
    }

    fn made(&self, act: Act) -> ActResult {
        match act {
            Act::Load => ActResult::Word(self.load()),
            Act::FetchAnd(keep) => ActResult::Before(self.keeps(keep)),
            _ => ActResult::Made,
        }
    }
}

impl<R: Wait, A: Allocator> Place<'_, '_, '_, R, A> {
    /// Leaves what is in hand for other threads.
    pub(crate) fn leave(&self, held: Held)
        requires { held ≡ self.now.row.now.shared.now.word }
    {
        let mut kept = held;
        for _try in self.row.lot().runtime().forever() {
            match self.row.shared().leave_held(kept) {
                Ok(()) => return,
                Err(held) => kept = held,
            }
        }
        unreachable!()
    }

    /// Picks up so much of what was left.
    pub(crate) fn pick_up(&self, share: u64) -> Held
        ensures { result ≡ self.now.row.now.shared.now.word }
    {
        for _look in self.row.lot().runtime().forever() {
            if let Some(held) = self.row.shared().pick_up(share) {
                return held;
            }
        }
        unreachable!()
    }

    /// Picks up a writer's right, which lies there as one that waits for readers, or as one that needn't.
    fn pick_up_writer(&self) -> Held
        ensures { result ≡ self.now.row.now.shared.now.word }
    {
        for _look in self.row.lot().runtime().forever() {
            if let Some(held) = self.row.shared().pick_up(PENDING) {
                return held;
            }
            if let Some(held) = self.row.shared().pick_up(EXCLUSIVE) {
                return held;
            }
        }
        unreachable!()
    }

    /// What is in hand after a sleep: what was handed over, if the call had nothing.
    pub(crate) fn takes_up(&self, share: u64, held: Held) -> Held
        requires { held ≡ self.now.row.now.shared.now.word }
        ensures { result ≡ self.now.row.now.shared.now.word }
    {
        if share == 0 {
            return held;
        }
        match held.end() {
            Err(held) => held,
            Ok(()) if share == PENDING => self.pick_up_writer(),
            Ok(()) => self.pick_up(share),
        }
    }

    /// Goes through the section that the call enters: it sleeps if it is to, or wakes others.
    pub(crate) fn enter<U: UnderWay>(
        &self,
        run: &mut U,
        key: u8,
        held: Held,
        party: &mut ThreadData<A>,
    ) -> Held
        requires { held ≡ self.now.row.now.shared.now.word }
        ensures { result ≡ self.now.row.now.shared.now.word }
    {
        let key = self.row.key(key);
        match run.tell(ActResult::Entered) {
            Act::Section(SectionAct::Check) => {
                let at = SharedSection::of(self, 0);
                let mut call = Handed::of(*run);
                sleep(self.row.lot(), key, &at, &mut call, party);
                *run = call.run;
                self.takes_up(call.share(), held)
            }
            _ => self.wake(run, key, held),
        }
    }

    /// Goes through a section in which others are woken, from its first act on. What is in hand lies in the second word
    /// meanwhile, and stays there for them where it was handed over.
    pub(crate) fn wake<U: UnderWay>(&self, run: &mut U, key: usize, held: Held) -> Held
        requires { held ≡ self.now.row.now.shared.now.word }
        ensures { result ≡ self.now.row.now.shared.now.word }
    {
        let share = held.number();
        self.leave(held);
        let at = SharedSection::of(self, share);
        match run.act() {
            Act::Section(SectionAct::TakeFirst) => wake_first(self.row.lot(), key, &at, run),
            _ => wake_in_order(self.row.lot(), key, &at, run),
        }
        if at.taken.get() || run.wake_token() == UnparkToken(1) {
            self.word().nothing_held()
        } else {
            self.pick_up(share)
        }
    }
}
