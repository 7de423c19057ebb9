//! What a machine of locks keeps of each thread.
ghost use Rattle.std.specs.Prelude.{◌≡◌, ◌≤◌, ℕ};
ghost use Rattle.parking_lot_rules.specs.Classes.{bit};
ghost use Rattle.parking_lot_protocol.specs.MutexTable.{next_phase};
ghost use Rattle.parking_lot_protocol.specs.declared.act.ActResult.TheVariants as seen;
ghost use Rattle.parking_lot_protocol.specs.declared.mutex_phase.MutexPhase.TheVariants.{Invalid, Sleeps};
ghost use Rattle.parking_lot_protocol.specs.declared.rw_phase.RwPhase.TheVariants as rw_phase;
ghost use Rattle.parking_lot_protocol_rw.specs.declared.upgrade_phase.UpgradePhase.TheVariants.{YieldLoads};
ghost use Rattle.parking_lot_machine_calls.specs.LateCalls.{comes_late, found_as, is_back, is_handed, is_pending};
ghost use Rattle.parking_lot_machine_calls.specs.LateCalls.{late_of, sleeps_in_time};
ghost use Rattle.parking_lot_machine_calls.specs.Stances.{In, Takes, core_act, core_next, core_tells, late_act};
ghost use Rattle.parking_lot_machine_calls.specs.Stances.{late_next, late_rw_next, resumed_as, rw_stance, sign};
ghost use Rattle.parking_lot_machine_calls.specs.Stances.{sleeper_asleep, sleeper_told, stance, upgrade_stance};
ghost use Rattle.parking_lot_machine_calls.specs.Stances.{upgrade_tells};
ghost use Rattle.parking_lot_machine_calls.specs.CallActs.{hold_after, kept_hold, mutex_hold_after, upgrade_hold_after};
ghost use Rattle.parking_lot_machine_calls.specs.CallActs.{rw_hold_after, joins, settled_spot, told_of};

use crate::late_rw::{LateRwPhase, RwSleeper};
use crate::upgrade_views::{rw_asleep, upgrade_asleep};
use parking_lot_core_model::UnparkToken;
use parking_lot_protocol::{
    Act, ActResult, AfterWake, CoreAnswer, HAND_OVER, MutexCore, MutexPhase, Outcome, RwCore,
    RwPhase, SectionAct, TRY_AGAIN,
};
use parking_lot_protocol_rw::{UpgradeCore, UpgradePhase};

/// The bits of a mutex's word: it is locked, and threads wait for it.
const LOCKED: u64 = 1;

const PARKED: u64 = 2;

/// What a thread owns of a lock between its calls: so many shared holds, or the exclusive one, or the upgradable one.
#[derive(Clone, Copy, PartialEq, Eq, Debug)]
pub enum Hold {
    /// So many shared holds; with none it owns nothing.
    Shares(u8),
    /// The exclusive hold.
    Excludes,
    /// The upgradable hold.
    Upgrades,
}

/// What one that took a sleeper off its list has told it: nothing yet, that it is to try again, or that it has the
/// lock.
#[derive(Clone, Copy, PartialEq, Eq, Debug)]
pub enum WakeResult {
    /// Nothing yet.
    Nothing,
    /// That it is to try again.
    TryAgain,
    /// That it has the lock.
    HandedOver,
}

/// Where a thread that sleeps stands: in its list, or off it, taken by another.
#[derive(Clone, Copy, PartialEq, Eq, Debug)]
pub enum QueuePosition {
    /// In its list.
    Listed,
    /// Off it: who took it, and what that thread has told it.
    Off(usize, WakeResult),
}

/// Where a call at a mutex stands whose moment has passed as it slept.
#[derive(Clone, Copy, PartialEq, Eq, Debug)]
pub enum LatePhase {
    /// It comes back into the section of its list. It still stands there, or was taken in the meantime. Where its taker
    /// wakes it first it goes on from where it sleeps.
    Expires,
    /// It takes itself out of its list.
    Quits,
    /// As the last one there it masks the parked bit off the word.
    Masks,
    /// It leaves the section.
    Leaves,
    /// It has given up, and owns nothing.
    GivesUp,
    /// Back in the section it has found that it was taken: by that thread, and whether it was handed the mutex. It
    /// leaves the section, and goes on as one that was woken.
    WasTaken(usize, bool),
}

/// The core of a call, by the kind of its lock.
#[derive(Clone, Copy)]
pub enum Core {
    /// At a mutex.
    Mutex(MutexCore),
    /// At a reader-writer lock.
    Rw(RwCore),
    /// At a mutex, once its moment has passed.
    Late(LatePhase),
    /// At a reader-writer lock, for its upgradable hold.
    Upgrade(UpgradeCore),
    /// At a reader-writer lock, once its moment has passed.
    LateRw(LateRwPhase),
}

/// A thread that another has taken off its list and is still to wake.
#[derive(Clone, Copy, PartialEq, Eq, Debug)]
pub struct Wakeup {
    /// Who is to wake it.
    pub by: usize,
    /// The thread.
    pub thread: usize,
    /// The mark of the sleep that it was taken out of.
    pub mark: u64,
}

impl WakeResult {
    /// What sleepers are told by a token.
    pub fn by(token: UnparkToken) -> WakeResult
        ensures { result ≡ told_of token }
    {
        if token.0 == HAND_OVER.0 {
            WakeResult::HandedOver
        } else {
            WakeResult::TryAgain
        }
    }

    /// Whether it says that the lock was handed over.
    pub(crate) fn is_handed(self) -> bool
        ensures { result ≡ is_handed self }
    {
        match self {
            WakeResult::HandedOver => true,
            WakeResult::Nothing | WakeResult::TryAgain => false,
        }
    }
}

impl QueuePosition {
    /// The spot once a thread has told all whom it has taken.
    pub(crate) fn settled(self, by: usize, said: WakeResult) -> QueuePosition
        ensures { result ≡ settled_spot by said self }
    {
        match self {
            QueuePosition::Off(taker, WakeResult::Nothing) if taker == by => QueuePosition::Off(
                taker, said,
            ),
            spot => spot,
        }
    }
}

impl Core {
    /// Whether it sleeps, and its moment hasn't passed.
    pub fn sleeps_in_time(&self) -> bool
        ensures { result ≡ sleeps_in_time self.now }
    {
        match self {
            Core::Mutex(core) => match core.phase() {
                MutexPhase::Sleeps => true,
                _ => false,
            },
            Core::Rw(core) => rw_asleep(core.phase()),
            Core::Upgrade(core) => upgrade_asleep(core.phase()),
            Core::Late(_) | Core::LateRw(_) => false,
        }
    }

    /// The core of a sleeper whose moment passes.
    pub fn late(self) -> Core
        ensures { result ≡ late_of self }
    {
        match self {
            Core::Mutex(_) => Core::Late(LatePhase::Expires),
            Core::Rw(core) => Core::LateRw(LateRwPhase::Expires(RwSleeper::Simple(core))),
            Core::Upgrade(core) => Core::LateRw(LateRwPhase::Expires(RwSleeper::Upgradable(core))),
            late => late,
        }
    }

    /// The core of one whose moment has passed and that is back in its section, where it has found that a thread has
    /// taken it, and whether that one handed the lock over.
    pub(crate) fn found(self, by: usize, handed: bool) -> Core
        ensures { result ≡ found_as by handed self }
    {
        match self {
            Core::Late(_) => Core::Late(LatePhase::WasTaken(by, handed)),
            Core::LateRw(LateRwPhase::Expires(sleeper)) => Core::LateRw(LateRwPhase::WasTaken(
                sleeper, by, handed,
            )),
            other => other,
        }
    }

    /// Whether its moment has passed, and it is to come back into the section of its list.
    pub fn comes_late(&self) -> bool
        ensures { result ≡ comes_late self.now }
    {
        match self {
            Core::Late(LatePhase::Expires) | Core::LateRw(LateRwPhase::Expires(_)) => true,
            _ => false,
        }
    }

    /// Whether its moment has passed as it stood in the lock's second list.
    pub fn is_pending(&self) -> bool
        ensures { result ≡ is_pending self.now }
    {
        match self {
            Core::LateRw(phase) => phase.is_pending(),
            _ => false,
        }
    }

    /// The list of one whose moment has passed: 0 is the lock's first, 1 its second.
    pub fn late_list(&self) -> u8
        ensures { result ≡ bit (is_pending self.now) }
    {
        if self.is_pending() { 1 } else { 0 }
    }

    /// Whether its moment has passed, and it is back in the section of its list to take itself out.
    pub fn is_back(&self) -> bool
        ensures { result ≡ is_back self.now }
    {
        match self {
            Core::Late(LatePhase::Quits) | Core::LateRw(LateRwPhase::Quits(_)) => true,
            _ => false,
        }
    }

    /// What it has asked for.
    pub fn act(&self) -> Act
        ensures { result ≡ core_act self.now }
    {
        match self {
            Core::Mutex(core) => core.act(),
            Core::Rw(core) => core.act(),
            Core::Late(phase) => phase.act(),
            Core::LateRw(phase) => phase.act(),
            Core::Upgrade(core) => core.act(),
        }
    }

    /// The core once it is told what its act gave.
    pub(crate) fn told(self, seen: ActResult) -> Core
        ensures { result ≡ core_next self seen }
    {
        match self {
            Core::Mutex(mut core) => {
                core.next(seen);
                Core::Mutex(core)
            }
            Core::Rw(mut core) => {
                core.next(seen);
                Core::Rw(core)
            }
            Core::Late(phase) => phase.told(seen),
            Core::LateRw(phase) => late_rw_told(phase, seen),
            Core::Upgrade(mut core) => {
                core.next(seen);
                Core::Upgrade(core)
            }
        }
    }

    /// The token for those that its section took, once it has stored.
    pub fn wake_token(&self) -> UnparkToken
        ensures { result ≡ core_tells self.now }
    {
        match self {
            Core::Mutex(core) => core.wake_token(),
            Core::Rw(core) => core.wake_token(),
            Core::Late(_) | Core::LateRw(_) => TRY_AGAIN,
            Core::Upgrade(core) => upgrade_token(core.phase()),
        }
    }

    /// Whether it is about to join a list.
    pub fn joins(&self) -> bool
        ensures { result ≡ joins (stance self.now) }
    {
        match self.act() {
            Act::Section(SectionAct::Append(_)) => true,
            _ => false,
        }
    }

    /// The list at which it goes through waiters: 0 is the lock's first, 1 its second.
    pub fn list(&self) -> u8
        ensures { (k : ℕ) → stance self.now ≡ In k Takes → result ≡ k }
    {
        match self {
            Core::Rw(core) => rw_list(core.phase()),
            Core::Upgrade(core) => upgrade_list(core.phase()),
            Core::Mutex(_) | Core::Late(_) | Core::LateRw(_) => 0,
        }
    }

    /// What its thread owns where its call ends, with so many shared holds beside.
    pub fn hold_after(&self, others: u8) -> Hold
        requires few { others ≤ 254 }
        ensures { result ≡ hold_after others self.now }
    {
        match self {
            Core::Mutex(core) => mutex_hold_after(core.phase()),
            Core::Rw(core) => rw_hold_after(core.phase(), others),
            Core::Late(_) | Core::LateRw(_) => Hold::Shares(0),
            Core::Upgrade(core) => upgrade_hold_after(core.phase()),
        }
    }
}

impl LatePhase {
    /// What it asks for. It comes back, and takes itself out, by acts of its own.
    pub(crate) fn act(self) -> Act
        ensures { result ≡ late_act self }
    {
        match self {
            LatePhase::Expires | LatePhase::Quits => Act::Sleep,
            LatePhase::Masks => Act::FetchAnd(u64::MAX - PARKED),
            LatePhase::Leaves | LatePhase::WasTaken(_, _) => Act::Section(SectionAct::Leave),
            LatePhase::GivesUp => Act::Done(CoreAnswer::Refused),
        }
    }

    /// The core once it is told what its act gave.
    pub(crate) fn told(self, seen: ActResult) -> Core
        ensures { result ≡ late_next self seen }
    {
        match (self, seen) {
            (LatePhase::Expires, ActResult::Woken(token)) => Core::Mutex(woken_mutex(token)),
            (LatePhase::WasTaken(_, handed), ActResult::Made) => Core::Mutex(woken_mutex(token_of(
                handed,
            ))),
            (LatePhase::Expires, ActResult::Entered) => Core::Late(LatePhase::Quits),
            (LatePhase::Quits, ActResult::Took { token: _, left }) => Core::Late(if left {
                LatePhase::Leaves
            } else {
                LatePhase::Masks
            }),
            (LatePhase::Masks, ActResult::Before(_)) => Core::Late(LatePhase::Leaves),
            (LatePhase::Leaves, ActResult::Made) => Core::Late(LatePhase::GivesUp),
            _ => Core::Mutex(astray()),
        }
    }
}

/// The core of a call at a reader-writer lock whose moment has passed, once it is told what its act gave.
fn late_rw_told(phase: LateRwPhase, seen: ActResult) -> Core
    ensures { result ≡ late_rw_next phase seen }
{
    match (phase, seen) {
        (LateRwPhase::Expires(sleeper), ActResult::Woken(token)) => woken(sleeper, token),
        (LateRwPhase::Expires(sleeper), ActResult::Entered) => {
            Core::LateRw(LateRwPhase::Quits(sleeper))
        }
        (LateRwPhase::Quits(sleeper), ActResult::Took { token: _, left }) => Core::LateRw(
            LateRwPhase::quits(sleeper.pending_from(), left),
        ),
        (LateRwPhase::Masks, ActResult::Before(_)) => Core::LateRw(LateRwPhase::Leaves),
        (LateRwPhase::Leaves, ActResult::Made) => Core::LateRw(LateRwPhase::GivesUp),
        (LateRwPhase::LeavesPending(from), ActResult::Made) => Core::Upgrade(yielding(from)),
        (LateRwPhase::WasTaken(sleeper, _, handed), ActResult::Made) => resumed(sleeper, handed),
        _ => Core::Rw(astray_rw()),
    }
}

/// The token of one that was handed the lock, or is to try again.
fn token_of(handed: bool) -> UnparkToken
    ensures { result ≡ sign handed }
{
    if handed { HAND_OVER } else { TRY_AGAIN }
}

/// A mutex's core that slept and was woken with that token.
fn woken_mutex(token: UnparkToken) -> MutexCore
    ensures { result.phase ≡ next_phase Sleeps (seen.Woken token) }
{
    let mut core = sleeping_mutex();
    core.next(ActResult::Woken(token));
    core
}

/// A sleeper's core, woken after all.
fn woken(sleeper: RwSleeper, token: UnparkToken) -> Core
    ensures { result ≡ sleeper_told sleeper (seen.Woken token) }
{
    match sleeper {
        RwSleeper::Simple(mut core) => {
            core.next(ActResult::Woken(token));
            Core::Rw(core)
        }
        RwSleeper::Upgradable(mut core) => {
            core.next(ActResult::Woken(token));
            Core::Upgrade(core)
        }
    }
}

/// The core of a sleeper that was taken, and whether it was handed what it wants, as it goes on.
fn resumed(sleeper: RwSleeper, handed: bool) -> Core
    ensures { result ≡ resumed_as (sleeper_asleep sleeper) sleeper handed }
{
    if sleeper.is_asleep() {
        woken(sleeper, token_of(handed))
    } else {
        Core::Rw(astray_rw())
    }
}

/// The core of a pending writer that takes its bit back.
fn yielding(from: bool) -> UpgradeCore
    ensures { result.phase ≡ YieldLoads from }
{
    let mut core = UpgradeCore::give_up(from);
    core.next(ActResult::Start);
    core
}

/// A reader-writer lock's core that was told what doesn't fit.
fn astray_rw() -> RwCore
    ensures { result.phase ≡ rw_phase.Invalid }
{
    let mut core = RwCore::lock_shared(false);
    core.next(ActResult::Made);
    core
}

/// A mutex's core that sleeps: it was told all that leads there.
pub fn sleeping_mutex() -> MutexCore
    ensures { result.phase ≡ Sleeps }
{
    let mut core = MutexCore::lock();
    core.next(ActResult::Start);
    core.next(ActResult::Word(LOCKED | PARKED));
    core.next(ActResult::Entered);
    core.next(ActResult::Word(LOCKED | PARKED));
    core.next(ActResult::Made);
    core.next(ActResult::Made);
    core
}

/// A mutex's core that was told what doesn't fit.
fn astray() -> MutexCore
    ensures { result.phase ≡ Invalid }
{
    let mut core = MutexCore::lock();
    core.next(ActResult::Made);
    core
}

/// The token for those that the section of an upgradable call took.
fn upgrade_token(phase: UpgradePhase) -> UnparkToken
    ensures { result ≡ upgrade_tells phase }
{
    match phase {
        UpgradePhase::Plain(core) => core.wake_token(),
        UpgradePhase::Seeks(core) => core.wake_token(),
        UpgradePhase::Drains(core) => core.wake_token(),
        UpgradePhase::Frees(_, core) => core.wake_token(),
        UpgradePhase::Owes(_, _, core) => core.wake_token(),
        _ => TRY_AGAIN,
    }
}

/// The list at which a call of a reader-writer lock goes through waiters.
fn rw_list(phase: RwPhase) -> u8
    ensures { (k : ℕ) → rw_stance phase ≡ In k Takes → result ≡ k }
{
    match phase {
        RwPhase::TakeWriter(_) => 1,
        _ => 0,
    }
}

/// The list at which an upgradable call does.
fn upgrade_list(phase: UpgradePhase) -> u8
    ensures { (k : ℕ) → upgrade_stance phase ≡ In k Takes → result ≡ k }
{
    match phase {
        UpgradePhase::Plain(core) => rw_list(core.phase()),
        UpgradePhase::Seeks(core) => rw_list(core.phase()),
        UpgradePhase::Drains(core) => rw_list(core.phase()),
        UpgradePhase::Frees(_, core) => rw_list(core.phase()),
        UpgradePhase::Owes(_, _, core) => rw_list(core.phase()),
        _ => 0,
    }
}

/// What one owns that keeps such a hold.
fn kept_hold(kept: parking_lot_protocol_rw::Hold) -> Hold
    ensures { result ≡ kept_hold kept }
{
    match kept {
        parking_lot_protocol_rw::Hold::Nothing => Hold::Shares(0),
        parking_lot_protocol_rw::Hold::Shared => Hold::Shares(1),
        parking_lot_protocol_rw::Hold::Upgradable => Hold::Upgrades,
        parking_lot_protocol_rw::Hold::Exclusive => Hold::Excludes,
    }
}

/// What one owns whose upgradable call ends.
fn upgrade_hold_after(phase: UpgradePhase) -> Hold
    ensures { result ≡ upgrade_hold_after phase }
{
    match phase {
        UpgradePhase::Drains(_) => Hold::Excludes,
        UpgradePhase::Owes(kept, _, _) => kept_hold(kept),
        UpgradePhase::Ends(kept, _) => kept_hold(kept),
        _ => Hold::Shares(0),
    }
}

/// What one owns whose call at a mutex ends.
fn mutex_hold_after(phase: MutexPhase) -> Hold
    ensures { result ≡ mutex_hold_after phase }
{
    match phase {
        MutexPhase::Ends(CoreAnswer::Owned) => Hold::Excludes,
        _ => Hold::Shares(0),
    }
}

/// What one owns whose call at a reader-writer lock ends.
fn rw_hold_after(phase: RwPhase, others: u8) -> Hold
    requires few { others ≤ 254 }
    ensures { result ≡ rw_hold_after others phase }
{
    match phase {
        RwPhase::Finishes(AfterWake::FreedShared | AfterWake::AgainShared) => Hold::Shares(others),
        RwPhase::Finishes(AfterWake::FreedExclusive | AfterWake::AgainExclusive) => Hold::Shares(0),
        RwPhase::Finishes(AfterWake::Downgraded) | RwPhase::Ends(Outcome::Downgraded) =>
            Hold::Shares(1),
        RwPhase::Ends(Outcome::Shared) => Hold::Shares(others + 1),
        RwPhase::Ends(Outcome::Exclusive) => Hold::Excludes,
        RwPhase::Ends(Outcome::FreedExclusive) => Hold::Shares(0),
        _ => Hold::Shares(others),
    }
}
