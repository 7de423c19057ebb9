//! Calls of the raw reader-writer lock that may give up.
ghost use Rattle.std.specs.Prelude.{◌≡◌, ◌+◌, ◌*◌, ◌%◌, ◌^◌, ◌==◌, IfSome, IfOk, IfErr, MatchOption, MatchResult};
ghost use Rattle.parking_lot_driver.specs.Ends.{RwEnded, RwOwned, TimedRwEnded, UpgradeEnded, asking_in_time};
ghost use Rattle.parking_lot_driver.specs.Ends.{reading_in_time, upgrading_in_time, writing_in_time};
ghost use Rattle.parking_lot_driver.specs.Keys.{number_of};
ghost use Rattle.parking_lot_protocol.specs.declared.act.Act.TheVariants.{Done};
ghost use Rattle.parking_lot_protocol.specs.declared.act.CoreAnswer.TheVariants.{Owned};
ghost use Rattle.parking_lot_protocol.specs.declared.rw_phase.LockMode.TheVariants as want;
ghost use Rattle.parking_lot_protocol.specs.declared.rw_phase.RwPhase.TheVariants.{Locking};
ghost use Rattle.parking_lot_protocol.specs.declared.timed.timed_act.TimedAct.TheVariants.{Makes, GivesUp};
ghost use Rattle.parking_lot_protocol_rw.specs.declared.upgrade_phase.UpgradePhase.TheVariants as call;

use crate::raw_rwlock::RawRwLock;
use crate::token::{ExclusiveToken, SharedToken, UpgradableToken};
use lock_api_raw::{RawRwLock as _, RawRwLockTimed, RawRwLockUpgrade as _, RawRwLockUpgradeTimed};
use lock_word::{Exclusive, Pending, Reader, Upgradable};
use parking_lot_core::{ThreadData, thread_yield};
use parking_lot_driver::{
    AskUpgradablyInTime, Disown, ReadInTime, UpgradeInTime, WriteInTime, to_deadline,
};
use parking_lot_protocol::ActResult;
use std::alloc::Allocator;
use std::sync::Wait;
use std::time::{Clock, Duration, Instant};

impl<'t, 'l, R: Wait, const RECURSIVE: u8, A: Allocator> RawRwLock<'t, 'l, R, RECURSIVE, A> {
    /// Asks to read until the moment. A hold beyond the most readers is given back, and asked for again.
    #[cold]
    #[inline(never)]
    fn read_in_time<C: Clock>(
        &self,
        deadline: Instant,
        clock: &C,
        party: &mut ThreadData<A>,
    ) -> Option<Reader>
        ensures name { IfSome result (λ reader. reader ≡ self.now.row.shared.now.word) }
        ensures ended { MatchOption result (TimedRwEnded (reading_in_time RECURSIVE) GivesUp)
            (λ _. TimedRwEnded (reading_in_time RECURSIVE) (Makes (Done Owned))) }
    {
        for _call in self.row().lot().runtime().forever() {
            let call = ReadInTime::<RECURSIVE>;
            let had = self.word().nothing_held();
            let (owns, held) = self.place().own_in_time(call, had, deadline, clock, party);
            if !owns {
                self.place().end(held);
                return None;
            }
            let reader = self.place().reader(held);
            if !self.is_overfull() {
                return Some(reader);
            }
            self.stops_reading(reader);
            thread_yield();
        }
        unreachable!()
    }

    /// Asks for the upgradable hold until the moment. A hold beyond the most readers is given back, and asked for
    /// again.
    #[cold]
    #[inline(never)]
    fn own_upgradable_in_time<C: Clock>(
        &self,
        deadline: Instant,
        clock: &C,
        party: &mut ThreadData<A>,
    ) -> Option<Upgradable>
        ensures name { IfSome result (λ owner. owner ≡ self.now.row.shared.now.word) }
        ensures ended { MatchOption result (TimedRwEnded asking_in_time GivesUp)
            (λ _. TimedRwEnded asking_in_time (Makes (Done Owned))) }
    {
        for _call in self.row().lot().runtime().forever() {
            let call = AskUpgradablyInTime;
            let had = self.word().nothing_held();
            let (owns, held) = self.place().own_in_time(call, had, deadline, clock, party);
            if !owns {
                self.place().end(held);
                return None;
            }
            let owner = self.place().upgradable(held);
            if !self.is_overfull() {
                return Some(owner);
            }
            self.disowns_slowly(Disown, owner);
            thread_yield();
        }
        unreachable!()
    }

    /// Asks to write until the moment.
    fn write_in_time<C: Clock>(
        &self,
        deadline: Instant,
        clock: &C,
        party: &mut ThreadData<A>,
    ) -> Option<Exclusive>
        ensures name { IfSome result (λ owner. owner ≡ self.now.row.shared.now.word) }
        ensures ended { MatchOption result (TimedRwEnded writing_in_time GivesUp)
            (λ _. TimedRwEnded writing_in_time (Makes (Done Owned))) }
    {
        let had = self.word().nothing_held();
        let (owns, held) = self
            .place()
            .own_in_time(WriteInTime, had, deadline, clock, party);
        if owns {
            Some(self.place().exclusive(held))
        } else {
            self.place().end(held);
            None
        }
    }

    /// The upgradable hold has become one that waits for readers at this word: it waits until the moment, and is the
    /// upgradable one again where it gives up.
    fn upgrade_in_time<C: Clock>(
        &self,
        pending: Pending,
        word: u64,
        until: (Instant, &C),
        party: &mut ThreadData<A>,
    ) -> Result<Exclusive, Upgradable>
        requires { pending ≡ self.now.row.shared.now.word }
        ensures won { IfOk result (λ owner. owner ≡ self.now.row.shared.now.word) }
        ensures lost { IfErr result (λ owner. owner ≡ self.now.row.shared.now.word) }
        ensures ended { MatchResult result (λ _. TimedRwEnded upgrading_in_time (Makes (Done Owned)))
            (λ _. TimedRwEnded upgrading_in_time GivesUp) }
    {
        let (deadline, clock) = until;
        let first = ActResult::Before(word);
        let had = pending.into_held();
        let place = self.place();
        let (owns, held) = place.own_in_time_after(
            UpgradeInTime,
            first,
            had,
            deadline,
            clock,
            party,
        );
        if owns {
            Ok(place.exclusive(held))
        } else {
            Err(place.upgradable(held))
        }
    }

    /// Waits until a shared hold is owned, or until the moment by the clock that is handed in: then it is off the list,
    /// and `None` is the answer.
    ///
    /// The moment is looked at where the thread sleeps. So a lock that can be had at once is had, also where the moment
    /// is past.
    ///
    /// ```text
    /// if let Some(token) = raw.read_until(deadline, &rt, &mut me) { raw.unlock_shared(token); }
    /// ```
    #[inline(always)]
    pub fn read_until<C: Clock>(
        &self,
        deadline: Instant,
        clock: &C,
        party: &mut ThreadData<A>,
    ) -> Option<SharedToken>
        ensures name { IfSome result (λ token. token.0 ≡ self.now.row.shared.now.word) }
        ensures key { IfSome result
            (λ token. token.1 ≡ (self.now.row.table.now.first_key + 2 * self.now.row.number) % 2 ^ 64) }
        ensures call { MatchOption result (TimedRwEnded (reading_in_time RECURSIVE) GivesUp)
            (λ _. RwOwned (RwEnded (Locking (want.Shared (RECURSIVE == 1))) Owned) (reading_in_time RECURSIVE)) }
    {
        match self.reads_at_once() {
            Some(reader) => Some(self.shared_token(reader)),
            None => match self.read_in_time(deadline, clock, party) {
                Some(reader) => Some(self.shared_token(reader)),
                None => None,
            },
        }
    }

    /// As [`read_until`](RawRwLock::read_until), with the moment that lies `timeout` ahead. Where no moment can say
    /// that, it waits as long as it takes.
    ///
    /// ```text
    /// if let Some(token) = raw.read_for(Duration::from_millis(5), &rt, &mut me) { raw.unlock_shared(token); }
    /// ```
    pub fn read_for<C: Clock>(
        &self,
        timeout: Duration,
        clock: &C,
        party: &mut ThreadData<A>,
    ) -> Option<SharedToken>
        ensures name { IfSome result (λ token. token.0 ≡ self.now.row.shared.now.word) }
        ensures key { IfSome result
            (λ token. token.1 ≡ (self.now.row.table.now.first_key + 2 * self.now.row.number) % 2 ^ 64) }
        ensures call { MatchOption result (TimedRwEnded (reading_in_time RECURSIVE) GivesUp)
            (λ _. RwOwned (RwEnded (Locking (want.Shared (RECURSIVE == 1))) Owned) (reading_in_time RECURSIVE)) }
    {
        match to_deadline(clock, timeout) {
            Some(deadline) => self.read_until(deadline, clock, party),
            None => Some(self.shared_token(self.reads(party))),
        }
    }

    /// As [`read_until`](RawRwLock::read_until), of the exclusive hold. One that waits for readers to leave gives up
    /// there too: the lock is as if it had never asked, and those that it kept out are looked after.
    ///
    /// ```text
    /// if let Some(token) = raw.write_until(deadline, &rt, &mut me) { raw.unlock_exclusive(token); }
    /// ```
    #[inline(always)]
    pub fn write_until<C: Clock>(
        &self,
        deadline: Instant,
        clock: &C,
        party: &mut ThreadData<A>,
    ) -> Option<ExclusiveToken>
        ensures name { IfSome result (λ token. token.0 ≡ self.now.row.shared.now.word) }
        ensures key { IfSome result
            (λ token. token.1 ≡ (self.now.row.table.now.first_key + 2 * self.now.row.number) % 2 ^ 64) }
        ensures call { MatchOption result (TimedRwEnded writing_in_time GivesUp)
            (λ _. RwOwned (RwEnded (Locking want.Exclusive) Owned) writing_in_time) }
    {
        match self.writes_at_once() {
            Some(owner) => Some(self.exclusive_token(owner)),
            None => match self.write_in_time(deadline, clock, party) {
                Some(owner) => Some(self.exclusive_token(owner)),
                None => None,
            },
        }
    }

    /// As [`write_until`](RawRwLock::write_until), with the moment that lies `timeout` ahead.
    ///
    /// ```text
    /// if let Some(token) = raw.write_for(Duration::from_millis(5), &rt, &mut me) { raw.unlock_exclusive(token); }
    /// ```
    pub fn write_for<C: Clock>(
        &self,
        timeout: Duration,
        clock: &C,
        party: &mut ThreadData<A>,
    ) -> Option<ExclusiveToken>
        ensures name { IfSome result (λ token. token.0 ≡ self.now.row.shared.now.word) }
        ensures key { IfSome result
            (λ token. token.1 ≡ (self.now.row.table.now.first_key + 2 * self.now.row.number) % 2 ^ 64) }
        ensures call { MatchOption result (TimedRwEnded writing_in_time GivesUp)
            (λ _. RwOwned (RwEnded (Locking want.Exclusive) Owned) writing_in_time) }
    {
        match to_deadline(clock, timeout) {
            Some(deadline) => self.write_until(deadline, clock, party),
            None => Some(self.exclusive_token(self.writes(party))),
        }
    }

    /// As [`read_until`](RawRwLock::read_until), of the upgradable hold.
    ///
    /// ```text
    /// if let Some(token) = raw.upgradable_until(deadline, &rt, &mut me) { raw.unlock_upgradable(token); }
    /// ```
    #[inline(always)]
    pub fn upgradable_until<C: Clock>(
        &self,
        deadline: Instant,
        clock: &C,
        party: &mut ThreadData<A>,
    ) -> Option<UpgradableToken>
        ensures name { IfSome result (λ token. token.0 ≡ self.now.row.shared.now.word) }
        ensures key { IfSome result
            (λ token. token.1 ≡ (self.now.row.table.now.first_key + 2 * self.now.row.number) % 2 ^ 64) }
        ensures call { MatchOption result (TimedRwEnded asking_in_time GivesUp)
            (λ _. RwOwned (UpgradeEnded call.Locking Owned) asking_in_time) }
    {
        match self.upgradable_at_once() {
            Some(owner) => Some(self.upgradable_token(owner)),
            None => match self.own_upgradable_in_time(deadline, clock, party) {
                Some(owner) => Some(self.upgradable_token(owner)),
                None => None,
            },
        }
    }

    /// As [`upgradable_until`](RawRwLock::upgradable_until), with the moment that lies `timeout` ahead.
    ///
    /// ```text
    /// let soon = Duration::from_millis(5);
    /// if let Some(token) = raw.upgradable_for(soon, &rt, &mut me) { raw.unlock_upgradable(token); }
    /// ```
    pub fn upgradable_for<C: Clock>(
        &self,
        timeout: Duration,
        clock: &C,
        party: &mut ThreadData<A>,
    ) -> Option<UpgradableToken>
        ensures name { IfSome result (λ token. token.0 ≡ self.now.row.shared.now.word) }
        ensures key { IfSome result
            (λ token. token.1 ≡ (self.now.row.table.now.first_key + 2 * self.now.row.number) % 2 ^ 64) }
        ensures call { MatchOption result (TimedRwEnded asking_in_time GivesUp)
            (λ _. RwOwned (UpgradeEnded call.Locking Owned) asking_in_time) }
    {
        match to_deadline(clock, timeout) {
            Some(deadline) => self.upgradable_until(deadline, clock, party),
            None => Some(self.upgradable_token(self.owns_upgradably(party))),
        }
    }

    /// Makes the upgradable hold the exclusive one, or gives up at the moment: then it is the upgradable one again,
    /// with nobody exclusive in between, and the token comes back.
    ///
    /// ```text
    /// let upgradable = raw.lock_upgradable(&mut me);
    /// match raw.upgraded_until(upgradable, deadline, &rt, &mut me) {
    ///     Ok(writer) => raw.unlock_exclusive(writer),
    ///     Err(reader) => raw.unlock_upgradable(reader),
    /// }
    /// ```
    #[inline(always)]
    pub fn upgraded_until<C: Clock>(
        &self,
        guard: UpgradableToken,
        deadline: Instant,
        clock: &C,
        party: &mut ThreadData<A>,
    ) -> Result<ExclusiveToken, UpgradableToken>
        requires { number_of guard.0 guard.1 ≡ number_of self.now.row.shared.now.word
            ((self.now.row.table.now.first_key + 2 * self.now.row.number) % 2 ^ 64) }
        ensures token { MatchResult result (λ token. token ≡ guard) (λ token. token ≡ guard) }
        ensures call { MatchResult result (λ _. RwOwned (UpgradeEnded call.Upgrading Owned) upgrading_in_time)
            (λ _. TimedRwEnded upgrading_in_time GivesUp) }
    {
        let (owner, key) = self.upgradable_parts(guard);
        match self.upgrades_at_once(owner) {
            Ok(owner) => Ok(ExclusiveToken::of(owner, key)),
            Err((pending, word)) => {
                match self.upgrade_in_time(pending, word, (deadline, clock), party) {
                    Ok(owner) => Ok(ExclusiveToken::of(owner, key)),
                    Err(owner) => Err(UpgradableToken::of(owner, key)),
                }
            }
        }
    }

    /// As [`upgraded_until`](RawRwLock::upgraded_until), with the moment that lies `timeout` ahead.
    ///
    /// ```text
    /// let upgradable = raw.lock_upgradable(&mut me);
    /// match raw.upgraded_for(upgradable, Duration::from_millis(5), &rt, &mut me) {
    ///     Ok(writer) => raw.unlock_exclusive(writer),
    ///     Err(reader) => raw.unlock_upgradable(reader),
    /// }
    /// ```
    pub fn upgraded_for<C: Clock>(
        &self,
        guard: UpgradableToken,
        timeout: Duration,
        clock: &C,
        party: &mut ThreadData<A>,
    ) -> Result<ExclusiveToken, UpgradableToken>
        requires { number_of guard.0 guard.1 ≡ number_of self.now.row.shared.now.word
            ((self.now.row.table.now.first_key + 2 * self.now.row.number) % 2 ^ 64) }
        ensures token { MatchResult result (λ token. token ≡ guard) (λ token. token ≡ guard) }
        ensures call { MatchResult result (λ _. RwOwned (UpgradeEnded call.Upgrading Owned) upgrading_in_time)
            (λ _. TimedRwEnded upgrading_in_time GivesUp) }
    {
        match to_deadline(clock, timeout) {
            Some(deadline) => self.upgraded_until(guard, deadline, clock, party),
            None => Ok(self.upgraded(guard, party)),
        }
    }
}

impl<'t, 'l, R, const RECURSIVE: u8, A: Allocator> RawRwLockTimed
    for RawRwLock<'t, 'l, R, RECURSIVE, A> {
    type Duration = Duration;

    type Instant = Instant;

    ghost shared_locked_in_time = { λ answer. MatchOption answer (TimedRwEnded (reading_in_time RECURSIVE) GivesUp)
        (λ _. RwOwned (RwEnded (Locking (want.Shared (RECURSIVE == 1))) Owned) (reading_in_time RECURSIVE)) };

    ghost exclusive_locked_in_time = { λ answer. MatchOption answer (TimedRwEnded writing_in_time GivesUp)
        (λ _. RwOwned (RwEnded (Locking want.Exclusive) Owned) writing_in_time) };

    fn try_lock_shared_for<C: Clock>(
        &self,
        timeout: Duration,
        clock: &C,
        party: &mut ThreadData<A>,
    ) -> Option<SharedToken>
    where
        R: Wait,
    {
        self.read_for(timeout, clock, party)
    }

    #[inline(always)]
    fn try_lock_shared_until<C: Clock>(
        &self,
        deadline: Instant,
        clock: &C,
        party: &mut ThreadData<A>,
    ) -> Option<SharedToken>
    where
        R: Wait,
    {
        self.read_until(deadline, clock, party)
    }

    fn try_lock_exclusive_for<C: Clock>(
        &self,
        timeout: Duration,
        clock: &C,
        party: &mut ThreadData<A>,
    ) -> Option<ExclusiveToken>
    where
        R: Wait,
    {
        self.write_for(timeout, clock, party)
    }

    #[inline(always)]
    fn try_lock_exclusive_until<C: Clock>(
        &self,
        deadline: Instant,
        clock: &C,
        party: &mut ThreadData<A>,
    ) -> Option<ExclusiveToken>
    where
        R: Wait,
    {
        self.write_until(deadline, clock, party)
    }
}

impl<'t, 'l, R, const RECURSIVE: u8, A: Allocator> RawRwLockUpgradeTimed
    for RawRwLock<'t, 'l, R, RECURSIVE, A> {
    ghost upgradable_locked_in_time = { λ answer. MatchOption answer (TimedRwEnded asking_in_time GivesUp)
        (λ _. RwOwned (UpgradeEnded call.Locking Owned) asking_in_time) };

    ghost upgraded_in_time = { λ _ tried. MatchResult tried
        (λ _. RwOwned (UpgradeEnded call.Upgrading Owned) upgrading_in_time)
        (λ _. TimedRwEnded upgrading_in_time GivesUp) };

    fn try_lock_upgradable_for<C: Clock>(
        &self,
        timeout: Duration,
        clock: &C,
        party: &mut ThreadData<A>,
    ) -> Option<UpgradableToken>
    where
        R: Wait,
    {
        self.upgradable_for(timeout, clock, party)
    }

    fn try_upgrade_for<C: Clock>(
        &self,
        guard: UpgradableToken,
        timeout: Duration,
        clock: &C,
        party: &mut ThreadData<A>,
    ) -> Result<ExclusiveToken, UpgradableToken>
    where
        R: Wait,
    {
        self.upgraded_for(guard, timeout, clock, party)
    }

    #[inline(always)]
    fn try_lock_upgradable_until<C: Clock>(
        &self,
        deadline: Instant,
        clock: &C,
        party: &mut ThreadData<A>,
    ) -> Option<UpgradableToken>
    where
        R: Wait,
    {
        self.upgradable_until(deadline, clock, party)
    }

    #[inline(always)]
    fn try_upgrade_until<C: Clock>(
        &self,
        guard: UpgradableToken,
        deadline: Instant,
        clock: &C,
        party: &mut ThreadData<A>,
    ) -> Result<ExclusiveToken, UpgradableToken>
    where
        R: Wait,
    {
        self.upgraded_until(guard, deadline, clock, party)
    }
}
