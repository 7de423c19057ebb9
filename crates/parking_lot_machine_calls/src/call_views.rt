//! What a call says of its thread: how it owns the lock now, whether it is in debt, and whether it sleeps.
ghost use Rattle.std.specs.Prelude.{◌≡◌, ℕ, Bool, List, []};
ghost use Rattle.parking_lot_rules.specs.Roles.{Scans1};
ghost use Rattle.parking_lot_rules.specs.Debts as rw_debts;
ghost use Rattle.parking_lot_rules.specs.MutexDebts as mutex_debts;
ghost use Rattle.parking_lot_rules.specs.Owners.{Reading, owner_for_good, owner_of};
ghost use Rattle.parking_lot_protocol.specs.MutexRules as of_mutex;
ghost use Rattle.parking_lot_protocol.specs.RwRules as of_rw;
ghost use Rattle.parking_lot_protocol.specs.declared.rw_phase.RwPhase.TheVariants as phase;
ghost use Rattle.parking_lot_machine_calls.specs.CallViews.{HasSlept, IsInOrder, IsLateAsSlept, IsLateInOrder};
ghost use Rattle.parking_lot_machine_calls.specs.CallViews.{are_some, call_asleep, call_in_debt, call_looks, call_mode};
ghost use Rattle.parking_lot_machine_calls.specs.CallViews.{hold_mode, mode_of, mutex_mode, rw_mode, still_looks};
ghost use Rattle.parking_lot_machine_calls.specs.LateRoles.{late_rw_role, sleeper_role};
ghost use Rattle.parking_lot_machine_calls.specs.CallRoles.{late_does, late_role, mark_of, mutex_does, mutex_role};
ghost use Rattle.parking_lot_machine_calls.specs.CallRoles.{mutex_spot, rw_spot};

use crate::calls::{LockKind, OwnMode};
use crate::late_rw::{LateRwPhase, RwSleeper};
use crate::open_call::Call;
use crate::seat::{Core, Hold, LatePhase, QueuePosition, WakeResult};
use crate::upgrade_views::{upgrade_asleep, upgrade_in_debt, upgrade_looks, upgrade_mode};
use parking_lot_protocol::{AfterWake, CoreAnswer, LockMode, MutexPhase, Outcome, RwPhase};
use parking_lot_protocol_rw::UpgradePhase;

/// How one owns a lock that has so many shared holds of it.
fn readers_mode(holds: u8) -> Option<OwnMode>
    ensures { result ≡ mode_of (Reading holds) }
{
    if holds == 0 {
        None
    } else {
        Some(OwnMode::Shared)
    }
}

/// How one owns a mutex in such a phase.
fn mutex_mode(phase: MutexPhase, spot: QueuePosition) -> Option<OwnMode>
    ensures { (us : List ℕ) → result ≡ mutex_mode (mutex_role (mutex_spot spot) us phase) }
{
    match phase {
        MutexPhase::Unlocking(_) | MutexPhase::Bumping | MutexPhase::BumpLoads => {
            Some(OwnMode::Exclusive)
        }
        MutexPhase::Unlocks(_) | MutexPhase::Looks(_) | MutexPhase::Takes(_) => {
            Some(OwnMode::Exclusive)
        }
        MutexPhase::Stores(_, _, _) | MutexPhase::Ends(CoreAnswer::Owned) => {
            Some(OwnMode::Exclusive)
        }
        MutexPhase::Sleeps => match spot {
            QueuePosition::Off(_, WakeResult::HandedOver) => Some(OwnMode::Exclusive),
            _ => None,
        },
        _ => None,
    }
}

/// How one owns a lock that sleeps until it may have it.
fn sleeper_mode(want: LockMode, spot: QueuePosition, others: u8) -> Option<OwnMode>
    ensures { (us : List ℕ) → result ≡ rw_mode (of_rw.role others (rw_spot spot) us (phase.Sleeps want)) }
{
    match spot {
        QueuePosition::Off(_, WakeResult::HandedOver) => match want {
            LockMode::Shared(_) => Some(OwnMode::Shared),
            LockMode::Exclusive => Some(OwnMode::Pending),
        },
        _ => readers_mode(others),
    }
}

/// How one owns a lock that has stored in the section in which it gives it up or downgrades it.
fn rest_mode(rest: AfterWake, others: u8) -> Option<OwnMode>
    ensures { result ≡ mode_of (owner_for_good (of_rw.owned_at_last others rest)) }
{
    match rest {
        AfterWake::FreedShared | AfterWake::AgainShared => readers_mode(others),
        AfterWake::FreedExclusive | AfterWake::AgainExclusive => None,
        AfterWake::Downgraded => Some(OwnMode::Shared),
    }
}

/// How one owns a lock whose call ends so.
fn outcome_mode(outcome: Outcome, others: u8) -> Option<OwnMode>
    ensures { result ≡ mode_of (owner_for_good (of_rw.owned_after others outcome)) }
{
    match outcome {
        Outcome::Shared | Outcome::Downgraded => Some(OwnMode::Shared),
        Outcome::Exclusive => Some(OwnMode::Exclusive),
        Outcome::FreedShared => readers_mode(others),
        Outcome::FreedExclusive => None,
    }
}

/// How one owns a lock that is about to give it up or to change its hold.
fn asker_mode(want: LockMode) -> Option<OwnMode>
    ensures { (n : ℕ) → result ≡ mode_of (owner_for_good (of_rw.owned_by n want)) }
{
    match want {
        LockMode::Shared(_) => Some(OwnMode::Shared),
        LockMode::Exclusive => Some(OwnMode::Exclusive),
    }
}

/// How one owns a lock that has begun to go through the list.
fn giver_mode(rest: AfterWake) -> Option<OwnMode>
    ensures { (n : ℕ) (shared : ℕ) (upgradable writer : Bool) (us : List ℕ)
        → result ≡ mode_of
        (owner_of (of_rw.owned_at_last n rest) (Scans1 (of_rw.cause_of rest) shared upgradable writer us)) }
{
    match rest {
        AfterWake::FreedShared | AfterWake::FreedExclusive => Some(OwnMode::Exclusive),
        AfterWake::AgainShared | AfterWake::AgainExclusive => Some(OwnMode::Exclusive),
        AfterWake::Downgraded => Some(OwnMode::Shared),
    }
}

/// How one owns a reader-writer lock in such a phase.
fn rw_mode(phase: RwPhase, spot: QueuePosition, others: u8) -> Option<OwnMode>
    ensures { (us : List ℕ) → result ≡ rw_mode (of_rw.role others (rw_spot spot) us phase) }
{
    use RwPhase::*;
    match phase {
        UnlockingShared | BumpingShared | Unshares(_) | EnterWakeSection => Some(OwnMode::Shared),
        UnlockingExclusive(_) | BumpingExclusive | Downgrading => Some(OwnMode::Exclusive),
        Unlocks(_, _) | LooksExclusive(_, _) | Downgrades => Some(OwnMode::Exclusive),
        DrainLoads(_) | DrainSpins(_) | DrainSetParked(_, _) | DrainEnters(_) => Some(
            OwnMode::Pending,
        ),
        DrainChecks(_) | DrainRetreats(_) | DrainAppends(_) => Some(OwnMode::Pending),
        DrainRests(_) | DrainSleeps(_) => Some(OwnMode::Pending),
        BumpLoads(want) => asker_mode(want),
        Sleeps(want) => sleeper_mode(want, spot, others),
        Scans(scanning) | Stores(scanning, _) => giver_mode(scanning.rest),
        Leaves(rest, _, _) | Wakes(rest, _) | Finishes(rest) => rest_mode(rest, others),
        Ends(outcome) => outcome_mode(outcome, others),
        Locking(_) | Trying(_) | Loads(_) | Admits(_, _) | Spins(_) => readers_mode(others),
        SetParked(_, _) | Enters(_, _) | Checks(_, _) | Retreats(_, _) => readers_mode(others),
        Appends(_) | Rests(_) | TryLoads(_) | TryAdmits(_, _, _) => readers_mode(others),
        Refuses(_) | Relocks(_) | EnterWriterWakeSection(_) | TakeWriter(_) => readers_mode(others),
        ClearWriterParked(_, _) | LeaveWriterWakeSection(_, _) | Invalid => readers_mode(others),
    }
}

/// Whether one is in debt at a mutex in such a phase: it is inside a section, is still to wake another, as it is told,
/// or was woken to try again.
fn mutex_in_debt(phase: MutexPhase, wakes: bool) -> bool
    ensures { (at : of_mutex.QueuePosition) (us : List ℕ) → are_some us ≡ wakes
        → result ≡ mutex_debts.is_in_debt (mutex_does at us phase) }
{
    use MutexPhase::*;
    match phase {
        Loads(asking) | Locks(asking, _) | Spins(asking) | Parks(asking) => asking.woken,
        Enters(woken) => woken,
        Checks(_) | Retreats(_) | Appends | Rests => true,
        Takes(_) | Stores(_, _, _) | Leaves(_, _, _) => true,
        Wakes(_) => wakes,
        Sleeps => false,
        Locking | Trying | Unlocking(_) | Bumping => false,
        TryLoads | TryLocks(_, _) | Refuses | BumpLoads | Relocks => false,
        Unlocks(_) | Looks(_) | Finishes(_) | Ends(_) | Invalid => false,
    }
}

/// The same at a reader-writer lock.
pub(crate) fn rw_in_debt(phase: RwPhase, wakes: bool) -> bool
    ensures { (at : of_rw.QueuePosition) (us : List ℕ) → are_some us ≡ wakes
        → result ≡ rw_debts.is_in_debt (of_rw.does at us phase) }
{
    use RwPhase::*;
    match phase {
        Loads(seeking) | Admits(seeking, _) | Spins(seeking) | SetParked(seeking, _) =>
            seeking.woken,
        Enters(_, woken) => woken,
        DrainLoads(draining) | DrainSpins(draining) | DrainSetParked(draining, _) => draining.woken,
        DrainEnters(draining) => draining.woken,
        Checks(_, _) | Retreats(_, _) | Appends(_) | Rests(_) => true,
        DrainChecks(_) | DrainRetreats(_) | DrainAppends(_) | DrainRests(_) => true,
        EnterWriterWakeSection(_)
        | TakeWriter(_)
        | ClearWriterParked(_, _)
        | LeaveWriterWakeSection(_, _) => true,
        EnterWakeSection | Scans(_) | Stores(_, _) | Leaves(_, _, _) => true,
        Wakes(_, _) | Finishes(_) => wakes,
        Sleeps(_) => false,
        DrainSleeps(_) => false,
        Locking(_) | Trying(_) | UnlockingShared | UnlockingExclusive(_) => false,
        Downgrading | BumpingShared | BumpingExclusive => false,
        TryLoads(_) | TryAdmits(_, _, _) | Refuses(_) | BumpLoads(_) | Relocks(_) => false,
        Unshares(_) | Unlocks(_, _) | LooksExclusive(_, _) | Downgrades => false,
        Ends(_) | Invalid => false,
    }
}

/// How one owns a mutex whose moment has passed: as one that was handed it, or not.
fn late_mode(phase: LatePhase, spot: QueuePosition) -> Option<OwnMode>
    ensures { result ≡ mutex_mode (late_role (mutex_spot spot) phase) }
{
    match (phase, spot) {
        (LatePhase::Expires, QueuePosition::Off(_, WakeResult::HandedOver)) => {
            Some(OwnMode::Exclusive)
        }
        (LatePhase::WasTaken(_, true), _) => Some(OwnMode::Exclusive),
        _ => None,
    }
}

/// Whether one is in debt at a mutex whose moment has passed: it is inside a section, or was taken, and not handed the
/// mutex.
fn late_in_debt(phase: LatePhase, spot: QueuePosition) -> bool
    ensures { result ≡ mutex_debts.is_in_debt (late_does (mutex_spot spot) phase) }
{
    match (phase, spot) {
        (LatePhase::Expires, QueuePosition::Off(_, WakeResult::HandedOver)) => false,
        (LatePhase::Expires, QueuePosition::Off(_, _)) => true,
        (LatePhase::Expires, QueuePosition::Listed) | (LatePhase::GivesUp, _) => false,
        (LatePhase::Quits | LatePhase::Masks | LatePhase::Leaves, _) => true,
        (LatePhase::WasTaken(_, _), _) => true,
    }
}

/// How one owns a reader-writer lock that sleeps, or has slept, in its list or off it.
fn late_sleeper_mode(sleeper: RwSleeper, spot: QueuePosition, others: u8) -> Option<OwnMode>
    ensures { HasSlept sleeper → (us : List ℕ) → result ≡ rw_mode (sleeper_role others (rw_spot spot) us sleeper) }
{
    match sleeper {
        RwSleeper::Simple(core) => rw_mode(core.phase(), spot, others),
        RwSleeper::Upgradable(core) => upgrade_mode(core.phase(), spot),
    }
}

/// What one was told that was handed the lock, or is to try again.
fn told_as(handed: bool) -> WakeResult
    ensures { mark_of result ≡ of_mutex.mark_of handed }
{
    if handed {
        WakeResult::HandedOver
    } else {
        WakeResult::TryAgain
    }
}

/// How one owns a reader-writer lock whose moment has passed: as it did when it slept, or was taken, until it has left
/// its list.
fn late_rw_mode(phase: LateRwPhase, spot: QueuePosition, others: u8) -> Option<OwnMode>
    ensures { IsLateInOrder phase → (us : List ℕ) → result ≡ rw_mode (late_rw_role others (rw_spot spot) us phase) }
{
    match phase {
        LateRwPhase::Expires(sleeper) => late_sleeper_mode(sleeper, spot, others),
        LateRwPhase::Quits(sleeper) => late_sleeper_mode(sleeper, QueuePosition::Listed, others),
        LateRwPhase::LeavesPending(_) => Some(OwnMode::Pending),
        LateRwPhase::WasTaken(sleeper, by, handed) => late_sleeper_mode(
            sleeper,
            QueuePosition::Off(by, told_as(handed)),
            others,
        ),
        LateRwPhase::Masks | LateRwPhase::Leaves | LateRwPhase::GivesUp => None,
    }
}

/// Whether one that was taken, and handed the lock, is to look whether readers are left: only a writer is.
fn still_looks(sleeper: RwSleeper) -> bool
    ensures { result ≡ still_looks sleeper }
{
    match sleeper {
        RwSleeper::Simple(core) => match core.phase() {
            RwPhase::Sleeps(LockMode::Shared(_)) => false,
            _ => true,
        },
        RwSleeper::Upgradable(core) => match core.phase() {
            UpgradePhase::Drains(_) => true,
            _ => false,
        },
    }
}

/// Whether one is in debt at a reader-writer lock whose moment has passed: it is inside a section, or was taken and is
/// about to try.
fn late_rw_in_debt(phase: LateRwPhase, spot: QueuePosition) -> bool
    ensures { IsLateInOrder phase → (n : ℕ) (us : List ℕ)
        → result ≡ rw_debts.is_in_debt (late_rw_role n (rw_spot spot) us phase).does }
{
    match (phase, spot) {
        (LateRwPhase::Expires(_), QueuePosition::Listed) => false,
        (LateRwPhase::Expires(sleeper), QueuePosition::Off(_, WakeResult::HandedOver)) => {
            still_looks(sleeper)
        }
        (LateRwPhase::GivesUp, _) => false,
        _ => true,
    }
}

impl Hold {
    /// How a thread owns a lock of that kind that has such a hold of it, and is in no call there.
    pub fn mode(&self, kind: Option<LockKind>) -> Option<OwnMode>
        ensures { result ≡ hold_mode kind self.now }
    {
        match self {
            Hold::Excludes => Some(OwnMode::Exclusive),
            Hold::Upgrades => match kind {
                Some(LockKind::Mutex | LockKind::FairMutex) => None,
                _ => Some(OwnMode::Upgradable),
            },
            Hold::Shares(holds) => match kind {
                Some(LockKind::Mutex | LockKind::FairMutex) => None,
                _ if *holds > 0 => Some(OwnMode::Shared),
                _ => None,
            },
        }
    }
}

impl Call {
    /// How its thread owns the lock now. One that sleeps and was handed a hold owns it. Of an upgradable call it is
    /// said where the call is in order, as each is that a machine runs.
    pub fn owns(&self) -> Option<OwnMode>
        ensures { IsInOrder self.now.core → (us : List ℕ) → result ≡ call_mode us self.now }
    {
        match &self.core {
            Core::Mutex(core) => mutex_mode(core.phase(), self.spot),
            Core::Rw(core) => rw_mode(core.phase(), self.spot, self.others),
            Core::Late(phase) => late_mode(*phase, self.spot),
            Core::LateRw(phase) => late_rw_mode(*phase, self.spot, self.others),
            Core::Upgrade(core) => upgrade_mode(core.phase(), self.spot),
        }
    }

    /// Whether its thread is in debt at the lock: it is inside a section, is still to wake others, or was woken to try
    /// again. `wakes` says whether any of those that it has taken is still to be woken. Where its moment has passed, it
    /// slept.
    pub fn is_in_debt(&self, wakes: bool) -> bool
        ensures { IsLateAsSlept self.now.core → (us : List ℕ) → are_some us ≡ wakes
            → result ≡ call_in_debt us self.now }
    {
        match &self.core {
            Core::Mutex(core) => mutex_in_debt(core.phase(), wakes),
            Core::Rw(core) => rw_in_debt(core.phase(), wakes),
            Core::Late(phase) => late_in_debt(*phase, self.spot),
            Core::LateRw(phase) => late_rw_in_debt(*phase, self.spot),
            Core::Upgrade(core) => upgrade_in_debt(core.phase(), wakes),
        }
    }

    /// Whether its thread sleeps.
    pub fn is_asleep(&self) -> bool
        ensures { (us : List ℕ) → result ≡ call_asleep us self.now }
    {
        match &self.core {
            Core::Mutex(core) => match core.phase() {
                MutexPhase::Sleeps => true,
                _ => false,
            },
            Core::Rw(core) => match core.phase() {
                RwPhase::Sleeps(_) | RwPhase::DrainSleeps(_) => true,
                _ => false,
            },
            Core::Late(_) | Core::LateRw(_) => false,
            Core::Upgrade(core) => upgrade_asleep(core.phase()),
        }
    }

    /// Whether its thread owns the lock, has found that others wait, and enters a section next to give it up.
    pub fn looks(&self) -> bool
        ensures { result ≡ call_looks self.now.core }
    {
        match &self.core {
            Core::Mutex(core) => match core.phase() {
                MutexPhase::Looks(_) => true,
                _ => false,
            },
            Core::Rw(core) => match core.phase() {
                RwPhase::LooksExclusive(_, _) => true,
                _ => false,
            },
            Core::Late(_) | Core::LateRw(_) => false,
            Core::Upgrade(core) => upgrade_looks(core.phase()),
        }
    }
}
