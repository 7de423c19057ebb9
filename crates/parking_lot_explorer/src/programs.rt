//! What two threads call, and what has to come of it.

use parking_lot_world::{LockAnswer, LockCall, OwnMode};

/// The calls of a thread, one after another. Where one is refused, it calls no more.
pub type Program = [Option<LockCall>; 3];

/// How a program ends.
#[derive(Clone, Copy, PartialEq, Debug)]
pub enum End {
    /// Every call is answered, and none is refused.
    Served,
    /// Its try is refused, or its deadline came first.
    Refused,
    /// It sleeps, since the other keeps the lock.
    Waits,
}

/// How a thread owns the lock as it begins that call.
fn mode_before(call: LockCall) -> Option<OwnMode> {
    match call {
        LockCall::Unlock | LockCall::UnlockWrite => Some(OwnMode::Exclusive),
        LockCall::Downgrade | LockCall::DowngradeToUpgradable => Some(OwnMode::Exclusive),
        LockCall::UnlockRead => Some(OwnMode::Shared),
        LockCall::UnlockUpgradable | LockCall::DowngradeUpgradable => Some(OwnMode::Upgradable),
        LockCall::Upgrade | LockCall::TryUpgrade => Some(OwnMode::Upgradable),
        LockCall::UpgradeUntil => Some(OwnMode::Upgradable),
        _ => None,
    }
}

/// How a thread owns the lock once that call is answered, and isn't refused.
fn mode_behind(call: LockCall) -> Option<OwnMode> {
    match call {
        LockCall::Lock | LockCall::TryLock | LockCall::LockUntil => Some(OwnMode::Exclusive),
        LockCall::Write | LockCall::TryWrite | LockCall::WriteUntil => Some(OwnMode::Exclusive),
        LockCall::Upgrade | LockCall::TryUpgrade => Some(OwnMode::Exclusive),
        LockCall::UpgradeUntil => Some(OwnMode::Exclusive),
        LockCall::Read | LockCall::TryRead | LockCall::ReadUntil => Some(OwnMode::Shared),
        LockCall::Downgrade | LockCall::DowngradeUpgradable => Some(OwnMode::Shared),
        LockCall::UpgradableRead | LockCall::TryUpgradableRead => Some(OwnMode::Upgradable),
        LockCall::DowngradeToUpgradable | LockCall::UpgradableUntil => Some(OwnMode::Upgradable),
        _ => None,
    }
}

/// How many shared holds a thread has once that call is answered, and isn't refused, of so many before.
pub fn shares_behind(call: LockCall, shares: u8) -> u8 {
    match call {
        LockCall::Read | LockCall::TryRead | LockCall::ReadUntil => shares.saturating_add(1),
        LockCall::UnlockRead => shares.saturating_sub(1),
        LockCall::Downgrade | LockCall::DowngradeUpgradable => 1,
        _ => 0,
    }
}

/// How a thread owns the lock then.
pub fn owned_behind(call: LockCall, shares: u8) -> Option<OwnMode> {
    if shares_behind(call, shares) > 0 {
        Some(OwnMode::Shared)
    } else {
        mode_behind(call)
    }
}

/// How a thread with so many shared holds owns the lock as it begins that call.
pub fn owned_before(call: LockCall, shares: u8) -> Option<OwnMode> {
    if shares > 0 {
        Some(OwnMode::Shared)
    } else {
        mode_before(call)
    }
}

/// Whether a thread that had so many shared holds may own the lock so within that call. Only a writer that may sleep,
/// or an upgrade that may, is ever pending.
pub fn may_own(call: LockCall, shares: u8, mode: Option<OwnMode>) -> bool {
    mode == owned_before(call, shares)
        || mode == owned_behind(call, shares)
        || may_be_pending(call) && mode == Some(OwnMode::Pending)
}

/// Whether that call may own the lock as the next writer, which waits for the readers.
fn may_be_pending(call: LockCall) -> bool {
    matches!(call, LockCall::Write | LockCall::WriteUntil)
        || matches!(call, LockCall::Upgrade | LockCall::UpgradeUntil)
}

/// Whether that call may sleep until it owns the lock, or until its deadline.
pub fn may_sleep(call: LockCall) -> bool {
    match call {
        LockCall::Lock | LockCall::Read | LockCall::Write => true,
        LockCall::UpgradableRead | LockCall::Upgrade => true,
        _ => is_timed(call),
    }
}

/// Whether that call has a deadline.
pub fn is_timed(call: LockCall) -> bool {
    matches!(call, LockCall::LockUntil | LockCall::ReadUntil)
        || matches!(call, LockCall::WriteUntil | LockCall::UpgradableUntil)
        || call == LockCall::UpgradeUntil
}

/// Whether that call is refused where its thread can't own the lock so at once.
fn is_try(call: LockCall) -> bool {
    match call {
        LockCall::TryLock | LockCall::TryRead | LockCall::TryWrite => true,
        LockCall::TryUpgradableRead | LockCall::TryUpgrade => true,
        _ => false,
    }
}

/// Whether two threads may own the lock like this beside each other.
fn go_together(one: OwnMode, other: OwnMode) -> bool {
    match (one, other) {
        (OwnMode::Shared, OwnMode::Shared | OwnMode::Upgradable) => true,
        (OwnMode::Upgradable, OwnMode::Shared) => true,
        _ => false,
    }
}

/// Whether an owner like this keeps out whoever makes that call.
pub fn keeps_out(owner: OwnMode, call: LockCall) -> bool {
    match mode_behind(call) {
        Some(mode) => (is_try(call) || may_sleep(call)) && !go_together(mode, owner),
        None => false,
    }
}

/// Whether that call may be answered so.
pub fn may_answer(call: LockCall, answer: LockAnswer) -> bool {
    match answer {
        LockAnswer::Owned => mode_behind(call).is_some(),
        LockAnswer::Refused => is_try(call),
        LockAnswer::Released => mode_behind(call).is_none(),
        LockAnswer::TimedOut => is_timed(call),
        _ => false,
    }
}

/// How a thread owns the lock behind so many calls of the program.
fn owned_after(program: Program, calls: usize) -> Option<OwnMode> {
    let mut shares = 0u8;
    let mut owned = None;
    for call in program.iter().flatten().take(calls) {
        owned = owned_behind(*call, shares);
        shares = shares_behind(*call, shares);
    }
    owned
}

/// How it owns the lock at its end.
fn kept(program: Program) -> Option<OwnMode> {
    owned_after(program, program.len())
}

/// A call, and how its thread owns the lock as it begins it.
#[derive(Clone, Copy)]
struct Request {
    call: LockCall,
    owned: Option<OwnMode>,
}

/// That call of the program.
fn request_at(program: Program, at: usize) -> Option<Request> {
    let call = program.get(at).copied().flatten()?;
    let owned = owned_after(program, at);
    Some(Request { call, owned })
}

/// The calls of the program.
fn requests_of(program: Program) -> [Option<Request>; 3] {
    [
        request_at(program, 0),
        request_at(program, 1),
        request_at(program, 2),
    ]
}

impl Request {
    /// Whether it may find an owner like this, which keeps it out.
    fn meets(self, owner: OwnMode) -> bool {
        let is_beside = match self.owned {
            Some(mode) => go_together(mode, owner),
            None => true,
        };
        is_beside && keeps_out(owner, self.call)
    }

    /// Whether it may find one that owns the lock by that call, and keeps it out.
    fn meets_behind(self, done: LockCall) -> bool {
        match mode_behind(done) {
            Some(mode) => self.meets(mode),
            None => false,
        }
    }

    /// Whether it may find one that makes the program, and keeps it out.
    fn may_meet(self, other: Program) -> bool {
        other.iter().flatten().any(|done| self.meets_behind(*done))
    }

    /// Whether it may be told beside the program that its thread doesn't get the lock.
    fn may_lose(self, other: Program) -> bool {
        (is_try(self.call) || is_timed(self.call)) && self.may_meet(other)
    }

    /// Whether it may wait in a list beside the program.
    fn may_wait(self, other: Program) -> bool {
        may_sleep(self.call) && self.may_meet(other)
    }

    /// Whether it may wait for ever beside an owner like this.
    fn may_wait_for_ever(self, owner: OwnMode) -> bool {
        may_sleep(self.call) && !is_timed(self.call) && self.meets(owner)
    }
}

/// Whether that call gives up a hold that keeps out whoever makes the other call, and may hand it over.
fn may_hand_to(call: LockCall, asked: LockCall) -> bool {
    match call {
        LockCall::Unlock | LockCall::UnlockWrite => keeps_out(OwnMode::Exclusive, asked),
        LockCall::UnlockUpgradable => keeps_out(OwnMode::Upgradable, asked),
        _ => false,
    }
}

/// Whether the program may hand the lock over to one that waits by the first call of the other.
fn may_hand(program: Program, other: Program) -> bool {
    match other[0] {
        Some(asked) if may_sleep(asked) => program
            .iter()
            .flatten()
            .any(|call| may_hand_to(*call, asked)),
        _ => false,
    }
}

/// Two programs, of thread 0 and of thread 1.
#[derive(Clone, Copy, Debug)]
pub struct Pair(pub Program, pub Program);

impl Pair {
    /// The other way round.
    fn turned(self) -> Pair {
        Pair(self.1, self.0)
    }

    /// Whether the first may be served once the second is at its end.
    fn first_may_follow(self) -> bool {
        match kept(self.1) {
            Some(owner) => !self.0.iter().flatten().any(|call| keeps_out(owner, *call)),
            None => true,
        }
    }

    /// Whether a call of the first may be told beside the second that its thread doesn't get the lock.
    fn first_may_lose(self) -> bool {
        let asks = requests_of(self.0);
        asks.iter().flatten().any(|ask| ask.may_lose(self.1))
    }

    /// Whether the first may wait in a list.
    fn first_may_wait(self) -> bool {
        let asks = requests_of(self.0);
        asks.iter().flatten().any(|ask| ask.may_wait(self.1))
    }

    /// Whether the first may wait for ever once the second is at its end.
    fn first_may_wait_for_ever(self) -> bool {
        let asks = requests_of(self.0);
        match kept(self.1) {
            Some(owner) => asks
                .iter()
                .flatten()
                .any(|ask| ask.may_wait_for_ever(owner)),
            None => false,
        }
    }

    /// Whether the first may end so beside the second, which is served.
    fn first_may_end(self, end: End) -> bool {
        match end {
            End::Served => self.first_may_follow() || self.turned().first_may_follow(),
            End::Refused => self.first_may_lose(),
            End::Waits => self.first_may_wait_for_ever(),
        }
    }

    /// Whether there is a schedule by which the two end so. One of them is always served: who is refused or waits has
    /// met the other as an owner.
    pub fn may_end(self, first: End, second: End) -> bool {
        if second == End::Served {
            self.first_may_end(first)
        } else {
            first == End::Served && self.turned().first_may_end(second)
        }
    }

    /// Whether there is a schedule by which one of them waits in a list.
    pub fn may_wait(self) -> bool {
        self.first_may_wait() || self.turned().first_may_wait()
    }

    /// Whether there is a schedule by which one of them hands the lock over to the other.
    pub fn may_hand(self) -> bool {
        may_hand(self.0, self.1) || may_hand(self.1, self.0)
    }
}
