//! The word of a mutex in a section. A call that gives the mutex up leaves the right in the second word as it enters:
//! there it is picked up for a word that is stored without bit 0, or stays for the thread that is to own the mutex.
ghost use Rattle.std.specs.Prelude.{◌≡◌};

use crate::raw_mutex::{PARKED, RawMutex};
use lock_word::{LockWord, Owner};
use parking_lot_driver::{Row, SectionWord};
use parking_lot_protocol::{Act, ActResult, WordChange};
use std::alloc::Allocator;
use std::sync::Wait;

/// Changes a word in one step, which leaves bit 0 as it is, and answers whether it did.
fn changes(at: &LockWord, from: u64, to: u64) -> bool {
    from % 2 == to % 2 && at.change(from, to).is_ok()
}

impl<R: Wait, A: Allocator> SectionWord for RawMutex<'_, '_, R, A> {
    fn load(&self) -> u64 {
        self.word().load()
    }

    fn change(&self, change: WordChange) {
        if change.of(self.word().load()) % 2 == 1 {
            self.stays_owned(change);
        } else {
            self.gives_back(change);
        }
    }

    fn clear(&self, bit: u64) {
        for _loss in self.row.lot().runtime().forever() {
            let word = self.word().load();
            if changes(self.word(), word, word & !bit) {
                return;
            }
        }
        unreachable!()
    }

    fn made(&self, act: Act) -> ActResult {
        match act {
            Act::Load => ActResult::Word(self.word().load()),
            _ => ActResult::Made,
        }
    }
}

impl<R: Wait, A: Allocator> RawMutex<'_, '_, R, A> {
    /// Changes the word and leaves bit 0 as it is: what lies in the second word is for the thread that is woken.
    fn stays_owned(&self, change: WordChange) {
        for _loss in self.row.lot().runtime().forever() {
            let word = self.word().load();
            if changes(self.word(), word, change.of(word)) {
                return;
            }
        }
        unreachable!()
    }

    /// Changes the word and clears bit 0: the right is picked up from the second word, and goes to the first.
    fn gives_back(&self, change: WordChange) {
        let mut owner = self.pick_up();
        for _loss in self.row.lot().runtime().forever() {
            let word = self.word().load();
            let to = change.of(word);
            if word % 2 == 1 && to % 2 == 0 {
                match self.word().release(owner, word, to) {
                    Ok(()) => return,
                    Err((kept, _word)) => owner = kept,
                }
            }
        }
        unreachable!()
    }

    /// Picks up the right that was left for whoever owns the mutex next.
    pub(crate) fn pick_up(&self) -> Owner
        ensures { result ≡ self.now.row.mutex.now.word }
    {
        for _look in self.row.lot().runtime().forever() {
            if let Some(owner) = self.row.mutex().pick_up() {
                return owner;
            }
        }
        unreachable!()
    }

    /// Leaves the right for whoever owns the mutex next.
    pub(crate) fn leave(&self, owner: Owner)
        requires { owner ≡ self.now.row.mutex.now.word }
    {
        let mut kept = owner;
        for _try in self.row.lot().runtime().forever() {
            match self.row.mutex().leave(kept) {
                Ok(()) => return,
                Err(owner) => kept = owner,
            }
        }
        unreachable!()
    }
}

/// Sets the parked bit of the word of a mutex that has this row, where it is locked or always, and answers whether it
/// is locked.
pub(crate) fn announce<R: Wait, A: Allocator>(row: &Row<'_, '_, R, A>, always: bool) -> bool {
    for _loss in row.lot().runtime().forever() {
        let word = row.mutex().word().load();
        let locked = word % 2 == 1;
        if !locked && !always {
            return false;
        }
        if changes(row.mutex().word(), word, word | PARKED) {
            return locked;
        }
    }
    unreachable!()
}
