//! Whole calls of a reader-writer lock, with its rights in hand.
ghost use Rattle.std.specs.Prelude.{◌≡◌, ◌==◌, ℕ};
ghost use Rattle.parking_lot_driver.specs.Ends.{RwEnded};
ghost use Rattle.parking_lot_driver.specs.Runs.{Ended};
ghost use Rattle.parking_lot_protocol.specs.declared.act.CoreAnswer.{CoreAnswer};
ghost use Rattle.parking_lot_protocol.specs.declared.act.CoreAnswer.TheVariants.{Owned};
ghost use Rattle.parking_lot_protocol.specs.declared.rw_phase.LockMode.TheVariants as want;
ghost use Rattle.parking_lot_protocol.specs.declared.rw_phase.RwPhase.TheVariants.{Locking, UnlockingShared};
ghost use Rattle.parking_lot_protocol.specs.declared.rw_phase.RwPhase.TheVariants.{Downgrading};
ghost use Rattle.parking_lot_protocol.specs.declared.rw_phase.RwPhase.TheVariants.{BumpingShared, BumpingExclusive};

use crate::raw_rwlock::RawRwLock;
use lock_word::{Exclusive, Held, Reader};
use parking_lot_core::{ThreadData, thread_yield};
use parking_lot_driver::{
    BumpReader, BumpWriter, Call, Downgrade, Read, StopReading, Write, ended_by_sum,
};
use parking_lot_protocol::word::{READER, WRITER_PARKED};
use parking_lot_protocol::{ActResult, CoreAnswer};
use std::alloc::Allocator;
use std::sync::Wait;

impl<R: Wait, const RECURSIVE: u8, A: Allocator> RawRwLock<'_, '_, R, RECURSIVE, A> {
    /// Asks until the call ends with a hold, with what is in hand, and answers what is in hand then.
    pub(crate) fn own<K: Call>(&self, call: K, had: Held, party: &mut ThreadData<A>) -> Held
        requires { had ≡ self.now.row.shared.now.word }
        ensures name { result ≡ self.now.row.shared.now.word }
        ensures ended { Ended K.Core.told K.Core.asks K.begun Owned }
    {
        let mut held = had;
        for _call in self.row.lot().runtime().forever() {
            let (answer, has) = self.place().ask(call, held, party);
            if answer == CoreAnswer::Owned {
                return has;
            }
            held = has;
        }
        unreachable!()
    }

    /// Lets those that wait go before this reader.
    #[cold]
    #[inline(never)]
    pub(super) fn bump_reader_slowly(&self, reader: Reader, party: &mut ThreadData<A>) -> Reader
        requires { reader ≡ self.now.row.shared.now.word }
        ensures name { result ≡ self.now.row.shared.now.word }
        ensures ended { RwEnded BumpingShared Owned }
    {
        self.own_shared(BumpReader, reader.into_held(), party)
    }

    /// Lets those that wait go before this writer.
    #[cold]
    #[inline(never)]
    pub(super) fn bump_writer_slowly(
        &self,
        owner: Exclusive,
        party: &mut ThreadData<A>,
    ) -> Exclusive
        requires { owner ≡ self.now.row.shared.now.word }
        ensures name { result ≡ self.now.row.shared.now.word }
        ensures ended { RwEnded BumpingExclusive Owned }
    {
        self.place()
            .exclusive(self.own(BumpWriter, owner.into_held(), party))
    }

    /// Asks until a shared hold is owned. A fair writer may hand the lock over to more readers than there may be: then
    /// this one gives its hold back, and asks again.
    fn own_shared<K: Call>(&self, call: K, had: Held, party: &mut ThreadData<A>) -> Reader
        requires { had ≡ self.now.row.shared.now.word }
        ensures name { result ≡ self.now.row.shared.now.word }
        ensures ended { Ended K.Core.told K.Core.asks K.begun Owned }
    {
        let mut reader = self.place().reader(self.own(call, had, party));
        for _call in self.row.lot().runtime().forever() {
            if !self.is_overfull() {
                return reader;
            }
            self.stops_reading(reader);
            thread_yield();
            let held = self.own(Read::<RECURSIVE>, self.word().nothing_held(), party);
            reader = self.place().reader(held);
        }
        unreachable!()
    }

    /// Waits until the lock is read.
    pub(crate) fn reads(&self, party: &mut ThreadData<A>) -> Reader
        ensures name { result ≡ self.now.row.shared.now.word }
        ensures ended { RwEnded (Locking (want.Shared (RECURSIVE == 1))) Owned }
    {
        match self.reads_at_once() {
            Some(reader) => reader,
            None => self.read_slowly(party),
        }
    }

    /// Waits until the lock is written.
    pub(crate) fn writes(&self, party: &mut ThreadData<A>) -> Exclusive
        ensures name { result ≡ self.now.row.shared.now.word }
        ensures ended { RwEnded (Locking want.Exclusive) Owned }
    {
        match self.writes_at_once() {
            Some(owner) => owner,
            None => self.write_slowly(party),
        }
    }

    /// Asks to read where that isn't had at once.
    #[cold]
    #[inline(never)]
    pub(super) fn read_slowly(&self, party: &mut ThreadData<A>) -> Reader
        ensures name { result ≡ self.now.row.shared.now.word }
        ensures ended { RwEnded (Locking (want.Shared (RECURSIVE == 1))) Owned }
    {
        self.own_shared(Read::<RECURSIVE>, self.word().nothing_held(), party)
    }

    /// Asks to write where that isn't had at once.
    #[cold]
    #[inline(never)]
    pub(super) fn write_slowly(&self, party: &mut ThreadData<A>) -> Exclusive
        ensures name { result ≡ self.now.row.shared.now.word }
        ensures ended { RwEnded (Locking want.Exclusive) Owned }
    {
        self.place()
            .exclusive(self.own(Write, self.word().nothing_held(), party))
    }

    /// Stops reading.
    pub(crate) fn stops_reading(&self, reader: Reader)
        requires { reader ≡ self.now.row.shared.now.word }
        ensures { (answer : CoreAnswer) × RwEnded UnlockingShared answer }
    {
        let word = self.word().end_read(reader);
        if (word / WRITER_PARKED) % 2 == 0 {
            ended_by_sum(
                StopReading,
                READER.wrapping_neg(),
                word,
                CoreAnswer::Released,
            );
        } else {
            self.unread_slowly(word);
        }
    }

    /// A shared hold was taken off this word, and a writer may sleep until the readers have left: the core says whether
    /// to wake it.
    #[cold]
    #[inline(never)]
    pub(super) fn unread_slowly(&self, word: u64)
        ensures { (answer : CoreAnswer) × RwEnded UnlockingShared answer }
    {
        let first = ActResult::Before(word);
        let had = self.word().nothing_held();
        let (_answer, held) = self.place().give_up(StopReading, first, had);
        self.place().end(held);
    }

    /// Gives the exclusive hold up at this word, where threads may sleep.
    #[cold]
    #[inline(never)]
    pub(super) fn unwrite_slowly<K: Call>(&self, call: K, owner: Exclusive, word: u64)
        requires { owner ≡ self.now.row.shared.now.word }
        ensures { (answer : CoreAnswer) × Ended K.Core.told K.Core.asks K.begun answer }
    {
        let first = ActResult::Word(word);
        let (_answer, held) = self.place().give_up(call, first, owner.into_held());
        self.place().end(held);
    }

    /// The exclusive hold has become a shared one at this word, where threads may sleep: the core says whom to wake.
    #[cold]
    #[inline(never)]
    pub(super) fn downgrade_slowly(&self, reader: Reader, word: u64) -> Reader
        requires { reader ≡ self.now.row.shared.now.word }
        ensures name { result ≡ self.now.row.shared.now.word }
        ensures ended { (answer : CoreAnswer) × RwEnded Downgrading answer }
    {
        let first = ActResult::Before(word);
        let (_answer, held) = self.place().give_up(Downgrade, first, reader.into_held());
        self.place().reader(held)
    }
}
