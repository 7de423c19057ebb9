//! Where a call at a reader-writer lock goes on, by what its act gave.
ghost use Rattle.std.specs.Prelude.{◌≡◌, ◌+◌, ◌-◌, ◌<◌, ◌==◌, ◌&&◌, ◌||◌, if◌then◌else◌, true, is_some, Some};
ghost use Rattle.parking_lot_protocol.specs.declared.rw_phase.RwPhase.TheVariants.{Loads, Scans, DrainLoads, Appends};
ghost use Rattle.parking_lot_protocol.specs.declared.rw_phase.RwPhase.TheVariants.{Retreats, DrainAppends};
ghost use Rattle.parking_lot_protocol.specs.declared.rw_phase.RwPhase.TheVariants.{DrainRetreats, Ends};
ghost use Rattle.parking_lot_protocol.specs.declared.rw_phase.RwPhase.TheVariants.{EnterWakeSection, Leaves};
ghost use Rattle.parking_lot_protocol.specs.declared.act.ActResult.TheVariants as seen;
ghost use Rattle.parking_lot_protocol.specs.declared.rw_phase.Outcome.TheVariants as outcome;
ghost use Rattle.parking_lot_protocol.specs.RwTable.{admits, after, asks_again, begins, bumps, count_of, drains, gains};
ghost use Rattle.parking_lot_protocol.specs.RwTable.{goes_on, hands, has_readers, is_admitted, is_barred, is_parked};
ghost use Rattle.parking_lot_protocol.specs.RwTable.{is_tried, is_writer_parked, over, retries, scans, scans_for};
ghost use Rattle.parking_lot_protocol.specs.RwTable.{seeks, tries, unshares, wakes, with_taken};

use crate::act::{ActResult, HAND_OVER};
use crate::mutex_phase::{ROUNDS, TRIES};
use crate::rw_phase::{AfterWake, Draining, LockMode, Outcome, RwPhase, Scanning, Seeking};
use crate::word::{
    READER, UPGRADABLE, WRITER, has_readers, has_room, is_parked, is_upgradable, is_writer_parked,
    is_written, readers,
};
use parking_lot_core_model::{ParkToken, UnparkToken};

impl LockMode {
    /// Whether somebody is in its way who is to be waited for.
    fn is_barred(self, word: u64) -> bool
        ensures { result ≡ is_barred self word }
    {
        match self {
            LockMode::Shared(_) => is_written(word),
            LockMode::Exclusive => is_written(word) || is_upgradable(word),
        }
    }

    /// Whether it is admitted. On a recursive lock a reader passes a pending writer too, where there are readers.
    fn is_admitted(self, word: u64) -> bool
        ensures { result ≡ is_admitted self word }
    {
        match self {
            LockMode::Shared(recursive) => {
                has_room(word) && (!is_written(word) || (recursive && has_readers(word)))
            }
            LockMode::Exclusive => !(is_written(word) || is_upgradable(word)),
        }
    }

    /// Whether a try is admitted: a writer's only at 0.
    fn is_tried(self, word: u64) -> bool
        ensures { result ≡ is_tried self word }
    {
        match self {
            LockMode::Shared(_) => self.is_admitted(word),
            LockMode::Exclusive => word == 0,
        }
    }

    /// One that begins to ask, or was woken to ask again.
    fn begins(self, woken: bool) -> Seeking
        ensures { result ≡ begins self woken }
    {
        Seeking {
            want: self,
            woken,
            rounds: ROUNDS,
        }
    }

    /// One that was admitted: a writer waits for the readers to leave.
    fn admits(self, woken: bool) -> RwPhase
        ensures { result ≡ admits self woken }
    {
        match self {
            LockMode::Shared(_) => RwPhase::Ends(Outcome::Shared),
            LockMode::Exclusive => RwPhase::DrainLoads(Draining {
                woken,
                rounds: ROUNDS,
            }),
        }
    }

    /// What a try gives.
    fn gains(self) -> Outcome
        ensures { result ≡ gains self }
    {
        match self {
            LockMode::Shared(_) => Outcome::Shared,
            LockMode::Exclusive => Outcome::Exclusive,
        }
    }

    /// A try has seen the word, and may make so many exchanges after the next.
    fn tries(self, left: u8, word: u64) -> RwPhase
        ensures { result ≡ tries self left word }
    {
        if self.is_tried(word) {
            RwPhase::TryAdmits(self, word, left)
        } else {
            RwPhase::Refuses(self)
        }
    }

    /// A try has lost an exchange to this word, and may make so many more.
    fn retries(self, left: u8, word: u64) -> RwPhase
        ensures { result ≡ retries self left word }
    {
        if left > 0 {
            self.tries(left - 1, word)
        } else {
            RwPhase::Refuses(self)
        }
    }

    /// It has looked at the word in the section.
    fn checks(self, woken: bool, word: u64) -> RwPhase
        ensures { result ≡ (if is_barred self word && is_parked word then Appends self else Retreats self woken) }
    {
        if self.is_barred(word) && is_parked(word) {
            RwPhase::Appends(self)
        } else {
            RwPhase::Retreats(self, woken)
        }
    }

    /// It was woken: it is admitted where the lock was handed over, or begins to ask again.
    fn wakes(self, token: UnparkToken) -> RwPhase
        ensures { result ≡ (if token.0 == 1 then admits self true else Loads (begins self true)) }
    {
        if token.0 == HAND_OVER.0 {
            self.admits(true)
        } else {
            RwPhase::Loads(self.begins(true))
        }
    }

    /// A bump has seen the word: it gives the hold up where others wait.
    fn bumps(self, word: u64) -> RwPhase
        ensures { result ≡ bumps self word }
    {
        match self {
            LockMode::Shared(_) if is_written(word) => RwPhase::Unshares(AfterWake::AgainShared),
            LockMode::Shared(_) => RwPhase::Ends(Outcome::Shared),
            LockMode::Exclusive if is_parked(word) => RwPhase::Unlocks(
                true,
                AfterWake::AgainExclusive,
            ),
            LockMode::Exclusive => RwPhase::Ends(Outcome::Exclusive),
        }
    }
}

impl Seeking {
    /// It has seen the word: it is admitted, or spins a while where nobody sleeps, or goes to sleep. Where no reader
    /// more can be counted it looks again.
    fn seeks(self, word: u64) -> RwPhase
        ensures { result ≡ seeks self word }
    {
        if self.want.is_admitted(word) {
            RwPhase::Admits(self, word)
        } else if !self.want.is_barred(word) {
            RwPhase::Loads(self)
        } else if !(is_parked(word) || is_writer_parked(word)) && self.rounds > 0 {
            RwPhase::Spins(self)
        } else if is_parked(word) {
            RwPhase::Enters(self.want, self.woken)
        } else {
            RwPhase::SetParked(self, word)
        }
    }

    /// A round was spun, or there were enough.
    fn spun(self, spun: bool) -> RwPhase
        ensures { result ≡ Loads (record self { rounds = if spun then self.rounds - 1 else 0 }) }
    {
        let rounds = if spun {
            self.rounds.saturating_sub(1)
        } else {
            0
        };
        RwPhase::Loads(Seeking { rounds, ..self })
    }
}

impl Draining {
    /// It has seen the word: it is admitted where there are no readers, else it spins a while, or goes to sleep.
    fn drains(self, word: u64) -> RwPhase
        ensures { result ≡ drains self word }
    {
        if !has_readers(word) {
            RwPhase::Ends(Outcome::Exclusive)
        } else if self.rounds > 0 {
            RwPhase::DrainSpins(self)
        } else if is_writer_parked(word) {
            RwPhase::DrainEnters(self)
        } else {
            RwPhase::DrainSetParked(self, word)
        }
    }

    /// A round was spun, or there were enough.
    fn spun(self, spun: bool) -> RwPhase
        ensures { result ≡ DrainLoads (record self { rounds = if spun then self.rounds - 1 else 0 }) }
    {
        let rounds = if spun {
            self.rounds.saturating_sub(1)
        } else {
            0
        };
        RwPhase::DrainLoads(Draining { rounds, ..self })
    }

    /// It has looked at the word in the section.
    fn checks(self, word: u64) -> RwPhase
        ensures { result ≡ (if has_readers word && is_writer_parked word then DrainAppends self.rounds else
            DrainRetreats self) }
    {
        if has_readers(word) && is_writer_parked(word) {
            RwPhase::DrainAppends(self.rounds)
        } else {
            RwPhase::DrainRetreats(self)
        }
    }
}

impl AfterWake {
    /// What comes where nobody was to be woken.
    fn over(self) -> RwPhase
        ensures { result ≡ over self }
    {
        match self {
            AfterWake::FreedShared => RwPhase::Ends(Outcome::FreedShared),
            AfterWake::FreedExclusive => RwPhase::Ends(Outcome::FreedExclusive),
            AfterWake::Downgraded => RwPhase::Ends(Outcome::Downgraded),
            AfterWake::AgainShared => RwPhase::Relocks(LockMode::Shared(false)),
            AfterWake::AgainExclusive => RwPhase::Relocks(LockMode::Exclusive),
        }
    }

    /// All is done, and a bump asks again.
    fn finished(self) -> Option<RwPhase>
        ensures { result ≡ asks_again self }
    {
        match self {
            AfterWake::FreedShared | AfterWake::FreedExclusive | AfterWake::Downgraded => None,
            AfterWake::AgainShared => Some(RwPhase::Relocks(LockMode::Shared(false))),
            AfterWake::AgainExclusive => Some(RwPhase::Relocks(LockMode::Exclusive)),
        }
    }

    /// A shared hold was given up at this word: the last one owes the pending writer a look.
    fn unshares(self, word: u64) -> RwPhase
        ensures { result ≡ unshares self word }
    {
        if readers(word) == 1 && is_writer_parked(word) {
            RwPhase::EnterWriterWakeSection(self)
        } else {
            self.over()
        }
    }

    /// So many are to be woken.
    fn wakes(self, count: u64) -> RwPhase
        ensures { result ≡ wakes self count }
    {
        if count > 0 {
            RwPhase::Wakes(self, count)
        } else {
            RwPhase::Finishes(self)
        }
    }

    /// A scan that has taken nobody yet.
    fn scans(self, fair: bool) -> RwPhase
        ensures { result ≡ Scans (scans_for fair self) }
    {
        RwPhase::Scans(Scanning {
            fair,
            rest: self,
            shared: 0,
            upgradable: false,
            writer: false,
        })
    }
}

impl Scanning {
    /// It has taken one more, by its token.
    fn with(self, token: ParkToken) -> Option<Scanning>
        ensures { result ≡ with_taken self token }
    {
        if token.0 == READER as usize {
            let shared = self.shared.saturating_add(1);
            Some(Scanning { shared, ..self })
        } else if token.0 == WRITER as usize {
            Some(Scanning {
                writer: true,
                ..self
            })
        } else if token.0 == (READER + UPGRADABLE) as usize {
            Some(Scanning {
                upgradable: true,
                ..self
            })
        } else {
            None
        }
    }

    /// It goes on while waiters are left and no writer was taken.
    fn goes_on(self, left: bool) -> RwPhase
        ensures { result ≡ goes_on left self }
    {
        if left && !self.writer {
            RwPhase::Scans(self)
        } else {
            RwPhase::Stores(self, left)
        }
    }

    /// It has taken the next waiter, or there was none for it.
    fn scans(self, token: Option<ParkToken>, left: bool) -> Option<RwPhase>
        ensures { result ≡ scans self token left }
    {
        match token {
            None => Some(RwPhase::Stores(self, left)),
            Some(token) => Some(self.with(token)?.goes_on(left)),
        }
    }

    /// It has stored.
    fn stored(self, fair: bool) -> RwPhase
        ensures { result ≡ Leaves self.rest (count_of self) (hands self (self.fair || fair)) }
    {
        RwPhase::Leaves(self.rest, self.count(), self.hands(self.fair || fair))
    }
}

/// An exclusive hold has become a shared one, at this word: waiters are owed a look.
fn downgraded(word: u64) -> RwPhase
    ensures { result ≡ (if is_parked word then EnterWakeSection else Ends outcome.Downgraded) }
{
    if is_parked(word) {
        RwPhase::EnterWakeSection
    } else {
        RwPhase::Ends(Outcome::Downgraded)
    }
}

impl RwPhase {
    /// The phase that follows what the act of this one gave; `None` where the act can't give that.
    pub fn after(self, seen: ActResult) -> Option<RwPhase>
        ensures { result ≡ after self seen }
    {
        match seen {
            ActResult::Start => self.after_start(),
            ActResult::Word(word) => self.after_word(word),
            ActResult::Exchanged => self.after_exchange(),
            ActResult::Before(word) => self.after_change(word),
            ActResult::Spun(spun) => self.after_spin(spun),
            ActResult::Entered => self.after_entry(),
            ActResult::Took { token, left } => self.after_taking(token, left),
            ActResult::Stored { fair } => self.after_store(fair),
            ActResult::Made => self.after_act(),
            ActResult::Woken(token) => self.after_sleep(token),
        }
    }

    /// The call begins.
    fn after_start(self) -> Option<RwPhase>
        ensures { result ≡ after self seen.Start }
    {
        match self {
            RwPhase::Locking(want) => Some(RwPhase::Loads(want.begins(false))),
            RwPhase::Trying(want) => Some(RwPhase::TryLoads(want)),
            RwPhase::UnlockingShared => Some(RwPhase::Unshares(AfterWake::FreedShared)),
            RwPhase::UnlockingExclusive(fair) => Some(RwPhase::Unlocks(
                fair,
                AfterWake::FreedExclusive,
            )),
            RwPhase::Downgrading => Some(RwPhase::Downgrades),
            RwPhase::BumpingShared => Some(RwPhase::BumpLoads(LockMode::Shared(false))),
            RwPhase::BumpingExclusive => Some(RwPhase::BumpLoads(LockMode::Exclusive)),
            _ => None,
        }
    }

    /// A load or a check saw this word, or an exchange was lost to it.
    fn after_word(self, word: u64) -> Option<RwPhase>
        ensures { result ≡ after self (seen.Word word) }
    {
        match self {
            RwPhase::Loads(seeking) => Some(seeking.seeks(word)),
            RwPhase::Admits(seeking, _) => Some(seeking.seeks(word)),
            RwPhase::SetParked(seeking, _) => Some(seeking.seeks(word)),
            RwPhase::Checks(want, woken) => Some(want.checks(woken, word)),
            RwPhase::TryLoads(want) => Some(want.tries(TRIES - 1, word)),
            RwPhase::TryAdmits(want, _, left) => Some(want.retries(left, word)),
            RwPhase::BumpLoads(want) => Some(want.bumps(word)),
            RwPhase::Relocks(want) => Some(want.begins(false).seeks(word)),
            RwPhase::DrainLoads(draining) => Some(draining.drains(word)),
            RwPhase::DrainSetParked(draining, _) => Some(draining.drains(word)),
            RwPhase::DrainChecks(draining) => Some(draining.checks(word)),
            RwPhase::Unlocks(fair, rest) => Some(RwPhase::LooksExclusive(fair, rest)),
            RwPhase::Finishes(rest) => rest.finished(),
            _ => None,
        }
    }

    /// An exchange was won.
    fn after_exchange(self) -> Option<RwPhase>
        ensures { result ≡ after self seen.Exchanged }
    {
        match self {
            RwPhase::Admits(seeking, _) => Some(seeking.want.admits(false)),
            RwPhase::SetParked(seeking, _) => Some(RwPhase::Enters(seeking.want, seeking.woken)),
            RwPhase::TryAdmits(want, _, _) => Some(RwPhase::Ends(want.gains())),
            RwPhase::DrainSetParked(draining, _) => Some(RwPhase::DrainEnters(draining)),
            RwPhase::Unlocks(_, rest) => Some(rest.over()),
            _ => None,
        }
    }

    /// An add or a mask found this word.
    fn after_change(self, word: u64) -> Option<RwPhase>
        ensures { result ≡ after self (seen.Before word) }
    {
        match self {
            RwPhase::Unshares(rest) => Some(rest.unshares(word)),
            RwPhase::ClearWriterParked(rest, taken) => Some(RwPhase::LeaveWriterWakeSection(
                rest, taken,
            )),
            RwPhase::Downgrades => Some(downgraded(word)),
            _ => None,
        }
    }

    /// A round was spun, or there were enough.
    fn after_spin(self, spun: bool) -> Option<RwPhase>
        ensures { result ≡ after self (seen.Spun spun) }
    {
        match self {
            RwPhase::Spins(seeking) => Some(seeking.spun(spun)),
            RwPhase::DrainSpins(draining) => Some(draining.spun(spun)),
            _ => None,
        }
    }

    /// A section is entered.
    fn after_entry(self) -> Option<RwPhase>
        ensures { result ≡ after self seen.Entered }
    {
        match self {
            RwPhase::Enters(want, woken) => Some(RwPhase::Checks(want, woken)),
            RwPhase::DrainEnters(draining) => Some(RwPhase::DrainChecks(draining)),
            RwPhase::EnterWriterWakeSection(rest) => Some(RwPhase::TakeWriter(rest)),
            RwPhase::LooksExclusive(fair, rest) => Some(rest.scans(fair)),
            RwPhase::EnterWakeSection => Some(AfterWake::Downgraded.scans(false)),
            _ => None,
        }
    }

    /// The waiter with that token was taken, or there was none; and waiters are left or not.
    fn after_taking(self, token: Option<ParkToken>, left: bool) -> Option<RwPhase>
        ensures { result ≡ after self (seen.Took token left) }
    {
        match self {
            RwPhase::TakeWriter(rest) => Some(RwPhase::ClearWriterParked(rest, token.is_some())),
            RwPhase::Scans(scanning) => scanning.scans(token, left),
            _ => None,
        }
    }

    /// One of the two changes was made.
    fn after_store(self, fair: bool) -> Option<RwPhase>
        ensures { result ≡ after self (seen.Stored fair) }
    {
        match self {
            RwPhase::Stores(scanning, _) => Some(scanning.stored(fair)),
            _ => None,
        }
    }

    /// The act was made.
    fn after_act(self) -> Option<RwPhase>
        ensures { result ≡ after self seen.Made }
    {
        match self {
            RwPhase::Retreats(want, woken) => Some(RwPhase::Loads(want.begins(woken))),
            RwPhase::Appends(want) => Some(RwPhase::Rests(want)),
            RwPhase::Rests(want) => Some(RwPhase::Sleeps(want)),
            RwPhase::DrainRetreats(draining) => Some(RwPhase::DrainLoads(draining)),
            RwPhase::DrainAppends(rounds) => Some(RwPhase::DrainRests(rounds)),
            RwPhase::DrainRests(rounds) => Some(RwPhase::DrainSleeps(rounds)),
            RwPhase::LeaveWriterWakeSection(rest, taken) => Some(rest.wakes(u64::from(taken))),
            RwPhase::Leaves(rest, count, _) => Some(rest.wakes(count)),
            RwPhase::Wakes(rest, count) => Some(rest.wakes(count.saturating_sub(1))),
            _ => None,
        }
    }

    /// It was woken with that token. A pending writer looks at the word again, whatever the token.
    fn after_sleep(self, token: UnparkToken) -> Option<RwPhase>
        ensures { result ≡ after self (seen.Woken token) }
    {
        match self {
            RwPhase::Sleeps(want) => Some(want.wakes(token)),
            RwPhase::DrainSleeps(rounds) => Some(RwPhase::DrainLoads(Draining {
                woken: true,
                rounds,
            })),
            _ => None,
        }
    }
}
