//! What a world shows of a state.

use crate::state::{LockShown, WorldState};
use parking_lot_world::{LockAnswer, LockKind, OwnMode};

/// What a world of two threads and one lock shows.
#[derive(Clone, Copy)]
pub struct Shown<'w> {
    pub kind: LockKind,
    pub world: &'w WorldState,
}

/// What an owner adds to the lock's word.
fn weight(kind: LockKind, mode: OwnMode) -> u64 {
    match (kind, mode) {
        (LockKind::Mutex | LockKind::FairMutex, _) => 1,
        (_, OwnMode::Exclusive | OwnMode::Pending) => 8,
        (_, OwnMode::Shared) => 16,
        (_, OwnMode::Upgradable) => 20,
    }
}

/// The bits of the word which say that the first list, and the second, may have somebody.
fn parked_bits(kind: LockKind) -> (u64, u64) {
    match kind {
        LockKind::Mutex | LockKind::FairMutex => (2, 0),
        LockKind::Rw | LockKind::RwRecursive => (1, 2),
        LockKind::Once => (8, 0),
        LockKind::Condvar => (0, 0),
    }
}

impl<'w> Shown<'w> {
    fn lock(self) -> &'w LockShown {
        let [lock, _, _] = &self.world.locks;
        lock
    }

    pub fn answer(self, thread: usize) -> Option<LockAnswer> {
        self.world.answer(thread)
    }

    /// How a thread owns the lock.
    pub fn mode(self, thread: usize) -> Option<OwnMode> {
        self.lock().mode(thread)
    }

    /// Whether a thread stands in the first list.
    pub fn waits_first(self, thread: usize) -> bool {
        self.lock().first.contains(&thread)
    }

    pub fn waits_second(self, thread: usize) -> bool {
        self.lock().second.contains(&thread)
    }

    /// Whether it stands in a list.
    pub fn waits(self, thread: usize) -> bool {
        self.waits_first(thread) || self.waits_second(thread)
    }

    pub fn has_waiters(self) -> bool {
        !self.lock().first.is_empty() || !self.lock().second.is_empty()
    }

    pub fn is_in_debt(self, thread: usize) -> bool {
        self.world.debts.contains(&thread)
    }

    pub fn has_debts(self) -> bool {
        !self.world.debts.is_empty()
    }

    /// How many own the lock so.
    fn count(self, mode: OwnMode) -> usize {
        self.lock()
            .owners
            .iter()
            .filter(|owner| owner.1 == mode)
            .count()
    }

    /// How many are the only owner, or are to be.
    fn excluding(self) -> usize {
        self.count(OwnMode::Exclusive)
            .saturating_add(self.count(OwnMode::Pending))
    }

    /// Owners are threads of the world, each named once, in order.
    pub fn has_each_owner_once(self) -> bool {
        match self.lock().owners.as_slice() {
            [] => true,
            [one] => one.0 < 2,
            [one, other] => one.0 == 0 && other.0 == 1,
            _ => false,
        }
    }

    /// So are those that are in debt.
    pub fn has_each_debtor_once(self) -> bool {
        matches!(self.world.debts.as_slice(), [] | [0 | 1] | [0, 1])
    }

    /// At most one excludes others or has the upgradable hold, and nobody reads beside one that excludes others
    /// already.
    pub fn owners_go_together(self) -> bool {
        self.excluding()
            .saturating_add(self.count(OwnMode::Upgradable))
            <= 1
            && (self.count(OwnMode::Exclusive) == 0 || self.count(OwnMode::Shared) == 0)
    }

    /// Whether each release hands the lock over, whatever the schedule says.
    pub fn is_fair(self) -> bool {
        self.kind == LockKind::FairMutex
    }

    /// How many holds readers have beside one each. Only a recursive lock counts such.
    fn more_holds(self) -> u64 {
        let readers = self.count(OwnMode::Shared) as u64;
        if self.kind == LockKind::RwRecursive && readers > 0 {
            self.shared_holds().saturating_sub(readers)
        } else {
            0
        }
    }

    /// How many shared holds the word counts beside the upgradable one, which it counts among them.
    fn shared_holds(self) -> u64 {
        (self.lock().word / 16).saturating_sub(self.count(OwnMode::Upgradable) as u64)
    }

    /// Whether the word counts so many shared holds, from the least to the most.
    pub fn counts_holds(self, least: u64, most: u64) -> bool {
        let holds = if self.is_mutex() {
            0
        } else {
            self.shared_holds()
        };
        least <= holds && holds <= most
    }

    fn is_mutex(self) -> bool {
        matches!(self.kind, LockKind::Mutex | LockKind::FairMutex)
    }

    /// What the owners make of the word.
    fn weight(self) -> u64 {
        let mut sum = self.more_holds().wrapping_mul(16);
        for (_, mode) in &self.lock().owners {
            sum = sum.wrapping_add(weight(self.kind, *mode));
        }
        sum
    }

    /// But for the parked bits, the word is what its owners make of it.
    pub fn has_word_of_owners(self) -> bool {
        let (first, second) = parked_bits(self.kind);
        self.lock().word & !(first | second) == self.weight()
    }

    /// A list that isn't empty has its parked bit.
    pub fn has_parked_bits(self) -> bool {
        let (first, second) = parked_bits(self.kind);
        (self.lock().first.is_empty() || self.lock().word & first != 0)
            && (self.lock().second.is_empty() || self.lock().word & second != 0)
    }

    /// Of two threads one at most waits, and it stands in one list, once.
    pub fn one_waits(self) -> bool {
        matches!(
            (self.lock().first.as_slice(), self.lock().second.as_slice()),
            ([], []) | ([_], []) | ([], [_])
        )
    }

    /// Only a pending writer waits in the second list.
    pub fn second_is_pending(self) -> bool {
        self.lock()
            .second
            .iter()
            .all(|thread| self.mode(*thread) == Some(OwnMode::Pending))
    }

    /// Whether one that waits might go on, whatever it waits to be: nobody excludes others or has the upgradable hold,
    /// or for a pending writer nobody reads.
    pub fn may_go_on(self) -> bool {
        let is_free = self.excluding() == 0 && self.count(OwnMode::Upgradable) == 0;
        !self.lock().first.is_empty() && is_free
            || !self.lock().second.is_empty() && self.count(OwnMode::Shared) == 0
    }

    /// Nobody is in debt, and the word is what its owners and those that wait make of it.
    pub fn is_at_rest(self) -> bool {
        let (first, second) = parked_bits(self.kind);
        let waiting_first = if self.lock().first.is_empty() {
            0
        } else {
            first
        };
        let waiting_second = if self.lock().second.is_empty() {
            0
        } else {
            second
        };
        self.world.debts.is_empty()
            && self.lock().word == self.weight().wrapping_add(waiting_first | waiting_second)
    }
}
