//! What a call has in hand at its end.
ghost use Rattle.std.specs.Prelude.{◌≡◌};

use crate::place::Place;
use lock_word::{Exclusive, Held, Reader, Upgradable};
use std::alloc::Allocator;
use std::convert::Infallible;
use std::sync::Wait;

impl<R: Wait, A: Allocator> Place<'_, '_, '_, R, A> {
    /// Waits for ever: for what can't come about, since a call has in hand what its acts gave.
    fn stuck(&self, _held: Held) -> Infallible {
        for _turn in self.row.lot().runtime().forever() {}
        unreachable!()
    }

    /// That the lock is read, of a call that reads it at its end.
    pub fn reader(&self, held: Held) -> Reader
        ensures { result ≡ held }
    {
        match held.into_reader() {
            Ok(reader) => reader,
            Err(held) => match self.stuck(held) {},
        }
    }

    /// The right of an upgradable owner, of a call that has it at its end.
    pub fn upgradable(&self, held: Held) -> Upgradable
        ensures { result ≡ held }
    {
        match held.into_upgradable() {
            Ok(owner) => owner,
            Err(held) => match self.stuck(held) {},
        }
    }

    /// The right of an exclusive owner, of a call that has it at its end. It looks at the word once more: a call may
    /// have seen at a lost exchange, which leaves its rights as they are, that there are no readers left.
    pub fn exclusive(&self, held: Held) -> Exclusive
        requires { held ≡ self.now.row.now.shared.now.word }
        ensures { result ≡ held }
    {
        let mut has = held;
        let _word = self.word().look_by(&mut has);
        match has.into_exclusive() {
            Ok(owner) => owner,
            Err(held) => match self.stuck(held) {},
        }
    }

    /// Ends what a call has at its end that has given all up.
    pub fn end(&self, held: Held) {
        match held.end() {
            Ok(()) => {}
            Err(held) => match self.stuck(held) {},
        }
    }
}
