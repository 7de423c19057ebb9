//! What threads ask of the locks, condition variables and onces of a world.
ghost use Rattle.std.specs.Prelude.{◌≡◌};
ghost use Rattle.parking_lot_world.specs.WorldCalls.{asked, is_once, is_variable, of_condvar, of_core, of_ended};
ghost use Rattle.parking_lot_world.specs.WorldCalls.{of_reply, of_timed, row_kind, said};

use parking_lot_machine::{Call, LockCall as RowCall, LockKind as RowKind};
use parking_lot_machine_sides::once::{OnceCall, OnceReply, OnceState};
use parking_lot_machine_waits::{CondvarCall, CondvarReply, Ended};
use parking_lot_protocol::CoreAnswer;

/// The kind of a lock.
#[derive(Clone, Copy, PartialEq, Eq, Debug)]
pub enum LockKind {
    /// One owner at a time.
    Mutex,
    /// One owner at a time, which hands the lock over to whoever waits longest.
    FairMutex,
    /// One writer, or readers.
    Rw,
    /// One writer, or readers, who may read again, also past a writer that waits.
    RwRecursive,
    /// A condition variable, which nobody owns.
    Condvar,
    /// A one-time initialization, which nobody owns.
    Once,
}

/// What a thread asks of a lock.
#[derive(Clone, Copy, PartialEq, Eq, Debug)]
pub enum LockCall {
    /// It locks a mutex, and waits for it.
    Lock,
    /// It locks a mutex, and doesn't wait.
    TryLock,
    /// It locks a mutex, and waits for it until its deadline.
    LockUntil,
    /// It gives a mutex up.
    Unlock,
    /// It wants a shared hold, and waits for it.
    Read,
    /// It wants a shared hold, and doesn't wait.
    TryRead,
    /// It gives its shared hold up.
    UnlockRead,
    /// It wants the exclusive hold, and waits for it.
    Write,
    /// It wants the exclusive hold, and doesn't wait.
    TryWrite,
    /// It gives its exclusive hold up.
    UnlockWrite,
    /// It makes its exclusive hold a shared one.
    Downgrade,
    /// It wants the upgradable hold, and waits for it.
    UpgradableRead,
    /// It wants the upgradable hold, and doesn't wait.
    TryUpgradableRead,
    /// It gives its upgradable hold up.
    UnlockUpgradable,
    /// It makes its upgradable hold the exclusive one, and waits until the readers have left.
    Upgrade,
    /// It makes its upgradable hold the exclusive one where nobody else reads, and doesn't wait. Where it is refused it
    /// keeps what it has.
    TryUpgrade,
    /// It makes its exclusive hold the upgradable one.
    DowngradeToUpgradable,
    /// It makes its upgradable hold a shared one.
    DowngradeUpgradable,
    /// It wants a shared hold, and waits for it until its deadline.
    ReadUntil,
    /// It wants the exclusive hold, and waits for it until its deadline.
    WriteUntil,
    /// It wants the upgradable hold, and waits for it until its deadline.
    UpgradableUntil,
    /// It makes its upgradable hold the exclusive one, and waits until its deadline for the readers to leave. Where it
    /// gives up it has the upgradable hold again.
    UpgradeUntil,
    /// At a condition variable: it gives the mutex of that number up, which it owns, waits until it is notified, and
    /// locks the mutex again. Where others wait with another mutex it is refused, and owns its mutex still.
    Wait(usize),
    /// The same, until its deadline. Where it comes before anybody has notified it, it locks the mutex again, too.
    WaitUntil(usize),
    /// It notifies the one that waits longest, if anybody waits.
    NotifyOne,
    /// It notifies all that wait.
    NotifyAll,
    /// At a once: it runs its closure where none has run, waits while one runs, and is refused where the last one has
    /// failed. This says whether its closure ends well, if it is run.
    CallOnce(bool),
    /// The same, but it runs its closure also where the last one has failed.
    CallOnceForce(bool),
    /// It waits until a closure has ended well, and is refused where the last one has failed.
    OnceWait,
    /// The same, but it waits on where the last closure has failed.
    OnceWaitForce,
}

/// A call, by what it is asked of: of a lock that is owned, of a condition variable, or of a once.
#[derive(Clone, Copy, PartialEq, Eq, Debug)]
pub enum Asked {
    /// Of a lock.
    OfLock(RowCall),
    /// Of a condition variable.
    OfVariable(CondvarCall),
    /// Of a once.
    OfOnce(OnceCall),
}

/// How a call ended.
#[derive(Clone, Copy, PartialEq, Eq, Debug)]
pub enum LockAnswer {
    /// The thread owns the lock as it asked for it; after a downgrade as a reader, or as the upgradable one. After a
    /// wait it owns its mutex again.
    Owned,
    /// A try found the lock taken; one to upgrade keeps its hold.
    Refused,
    /// The thread owns the lock no more.
    Released,
    /// The deadline came first, and the thread has given up. It owns nothing; after a timed upgrade it has its
    /// upgradable hold again, and after a wait its mutex.
    TimedOut,
    /// At a condition variable: others wait with another mutex. Nothing has changed, and the thread owns its mutex
    /// still.
    WrongMutex,
    /// Whether one that waited was notified.
    Flag(bool),
    /// How many were.
    Count(usize),
    /// At a once: its own closure ran and ended well; it was handed this state.
    Ran(OnceState),
    /// Its own closure ran and failed.
    Failed,
    /// The closure before had failed, and its own didn't run.
    Poisoned,
    /// A closure has ended well, and its own didn't run.
    Completed,
}

impl LockKind {
    /// Whether it is a once.
    pub(crate) fn is_once(&self) -> bool
        ensures { result ≡ is_once self.now }
    {
        match self {
            LockKind::Once => true,
            LockKind::Mutex | LockKind::FairMutex | LockKind::Condvar => false,
            LockKind::Rw | LockKind::RwRecursive => false,
        }
    }

    /// Whether it is a condition variable.
    pub(crate) fn is_variable(&self) -> bool
        ensures { result ≡ is_variable self.now }
    {
        match self {
            LockKind::Condvar => true,
            LockKind::Mutex | LockKind::FairMutex | LockKind::Once => false,
            LockKind::Rw | LockKind::RwRecursive => false,
        }
    }

    /// The row of a machine of locks that a lock of this kind has. At that of a condition variable and of a once nobody
    /// is ever in a call; that of a once is no mutex, so nobody waits with it.
    pub(crate) fn row(&self) -> RowKind
        ensures { result ≡ row_kind self.now }
    {
        match self {
            LockKind::Mutex | LockKind::Condvar => RowKind::Mutex,
            LockKind::FairMutex => RowKind::FairMutex,
            LockKind::Rw | LockKind::Once => RowKind::Rw,
            LockKind::RwRecursive => RowKind::RwRecursive,
        }
    }
}

impl LockCall {
    /// What it is asked of.
    pub fn asked(self) -> Asked
        ensures { result ≡ asked self }
    {
        match self {
            LockCall::Lock => Asked::OfLock(RowCall::Lock),
            LockCall::TryLock => Asked::OfLock(RowCall::TryLock),
            LockCall::LockUntil => Asked::OfLock(RowCall::LockUntil),
            LockCall::Unlock => Asked::OfLock(RowCall::Unlock),
            LockCall::Read => Asked::OfLock(RowCall::Read),
            LockCall::TryRead => Asked::OfLock(RowCall::TryRead),
            LockCall::UnlockRead => Asked::OfLock(RowCall::UnlockRead),
            LockCall::Write => Asked::OfLock(RowCall::Write),
            LockCall::TryWrite => Asked::OfLock(RowCall::TryWrite),
            LockCall::UnlockWrite => Asked::OfLock(RowCall::UnlockWrite),
            LockCall::Downgrade => Asked::OfLock(RowCall::Downgrade),
            LockCall::UpgradableRead => Asked::OfLock(RowCall::UpgradableRead),
            LockCall::TryUpgradableRead => Asked::OfLock(RowCall::TryUpgradableRead),
            LockCall::UnlockUpgradable => Asked::OfLock(RowCall::UnlockUpgradable),
            LockCall::Upgrade => Asked::OfLock(RowCall::Upgrade),
            LockCall::TryUpgrade => Asked::OfLock(RowCall::TryUpgrade),
            LockCall::DowngradeToUpgradable => Asked::OfLock(RowCall::DowngradeToUpgradable),
            LockCall::DowngradeUpgradable => Asked::OfLock(RowCall::DowngradeUpgradable),
            LockCall::ReadUntil => Asked::OfLock(RowCall::ReadUntil),
            LockCall::WriteUntil => Asked::OfLock(RowCall::WriteUntil),
            LockCall::UpgradableUntil => Asked::OfLock(RowCall::UpgradableUntil),
            LockCall::UpgradeUntil => Asked::OfLock(RowCall::UpgradeUntil),
            LockCall::Wait(mutex) => Asked::OfVariable(CondvarCall::Wait(mutex as u64)),
            LockCall::WaitUntil(mutex) => Asked::OfVariable(CondvarCall::WaitUntil(mutex as u64)),
            LockCall::NotifyOne => Asked::OfVariable(CondvarCall::NotifyOne),
            LockCall::NotifyAll => Asked::OfVariable(CondvarCall::NotifyAll),
            LockCall::CallOnce(well) => Asked::OfOnce(OnceCall::CallOnce(well)),
            LockCall::CallOnceForce(well) => Asked::OfOnce(OnceCall::CallOnceForce(well)),
            LockCall::OnceWait => Asked::OfOnce(OnceCall::OnceWait),
            LockCall::OnceWaitForce => Asked::OfOnce(OnceCall::OnceWaitForce),
        }
    }
}

impl LockAnswer {
    /// What a thread is answered whose call at a lock ends so.
    fn said(call: Option<Call>, answer: CoreAnswer) -> LockAnswer
        ensures { result ≡ said call answer }
    {
        match call {
            Some(call) if call.asked.is_timed() => LockAnswer::of_timed(answer),
            _ => LockAnswer::of_core(answer),
        }
    }

    /// What a thread is answered whose call with a deadline ends so: where it hasn't what it asked for, it has given
    /// up.
    fn of_timed(answer: CoreAnswer) -> LockAnswer
        ensures { result ≡ of_timed answer }
    {
        match answer {
            CoreAnswer::Owned => LockAnswer::Owned,
            CoreAnswer::Refused | CoreAnswer::Released => LockAnswer::TimedOut,
        }
    }

    /// What a thread is answered where its core at a lock says so.
    fn of_core(answer: CoreAnswer) -> LockAnswer
        ensures { result ≡ of_core answer }
    {
        match answer {
            CoreAnswer::Owned => LockAnswer::Owned,
            CoreAnswer::Refused => LockAnswer::Refused,
            CoreAnswer::Released => LockAnswer::Released,
        }
    }

    /// What a thread is answered where its call at a condition variable has ended so.
    fn of_condvar(reply: CondvarReply) -> LockAnswer
        ensures { result ≡ of_condvar reply }
    {
        match reply {
            CondvarReply::Woken => LockAnswer::Owned,
            CondvarReply::TimedOut => LockAnswer::TimedOut,
            CondvarReply::WrongMutex => LockAnswer::WrongMutex,
            CondvarReply::Flag(some) => LockAnswer::Flag(some),
            CondvarReply::Count(count) => LockAnswer::Count(count),
        }
    }

    /// What a thread is answered whose call at a lock or a condition variable ends so; one at a lock was in that call.
    pub(crate) fn of_ended(call: Option<Call>, ended: Ended) -> LockAnswer
        ensures { result ≡ of_ended call ended }
    {
        match ended {
            Ended::AtLock(answer) => LockAnswer::said(call, answer),
            Ended::AtVariable(reply) => LockAnswer::of_condvar(reply),
        }
    }

    /// What a thread is answered where its call at a once has ended so.
    pub(crate) fn of_reply(reply: OnceReply) -> LockAnswer
        ensures { result ≡ of_reply reply }
    {
        match reply {
            OnceReply::Ran(before) => LockAnswer::Ran(before),
            OnceReply::Failed => LockAnswer::Failed,
            OnceReply::Poisoned => LockAnswer::Poisoned,
            OnceReply::Completed => LockAnswer::Completed,
        }
    }
}
