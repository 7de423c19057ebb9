//! Where the calls of threads stand.

use crate::sides::{AtOnce, AtVariable};
use crate::three::Three;
use crate::upgradable::{Tardy, Upgradable};
use parking_lot_core_model::{Place, Sleep, ThreadStatus};
use parking_lot_machine::{Call, Core, Hold, LatePhase, QueuePosition, Wakeup};
use parking_lot_protocol::{Giving, MutexPhase, RwPhase};
use parking_lot_world::{LockKind, World};

/// Where a call at a lock stands.
#[derive(Clone, Copy, PartialEq)]
enum Phase {
    Mutex(MutexPhase),
    Late(LatePhase),
    Rw(RwPhase),
    LateRw(Tardy),
    Upgrade(Upgradable),
}

impl Phase {
    fn of(core: Core) -> Phase {
        match core {
            Core::Mutex(core) => Phase::Mutex(core.phase()),
            Core::Rw(core) => Phase::Rw(core.phase()),
            Core::Late(phase) => Phase::Late(phase),
            Core::LateRw(phase) => Phase::LateRw(Tardy::of(phase)),
            Core::Upgrade(core) => Phase::Upgrade(Upgradable::of(core.phase())),
        }
    }

    /// Whether its next step is seen by nobody else.
    fn is_alone(self) -> bool {
        match self {
            Phase::Mutex(phase) => matches!(
                phase,
                MutexPhase::Spins(_)
                    | MutexPhase::Finishes(Giving { again: false, .. })
                    | MutexPhase::Ends(_)
            ),
            Phase::Late(phase) => phase == LatePhase::GivesUp,
            _ => false,
        }
    }

    /// A number that few others share.
    fn number(self) -> u64 {
        match self {
            Phase::Mutex(phase) => number_of(phase),
            _ => 1,
        }
    }
}

/// A number for where a call stands at a mutex, which few others share.
fn number_of(phase: MutexPhase) -> u64 {
    match phase {
        MutexPhase::Loads(asking) => u64::from(asking.rounds) + 2,
        MutexPhase::Spins(asking) => u64::from(asking.rounds) + 20,
        MutexPhase::Locks(asking, _) => u64::from(asking.rounds) + 40,
        MutexPhase::Parks(_) => 51,
        MutexPhase::Enters(_) => 52,
        MutexPhase::Checks(_) => 53,
        MutexPhase::Appends => 54,
        MutexPhase::Rests => 55,
        MutexPhase::Sleeps => 56,
        MutexPhase::Unlocks(_) => 57,
        MutexPhase::Looks(_) => 58,
        MutexPhase::Takes(_) => 59,
        MutexPhase::Stores(..) => 60,
        MutexPhase::Leaves(..) => 61,
        MutexPhase::Wakes(_) => 62,
        _ => 63,
    }
}

/// A call at a lock that isn't answered: which, where it stands, how many holds its thread has beside, where that is
/// while it sleeps, and whether its deadline may come.
#[derive(Clone, Copy, PartialEq)]
struct Standing {
    lock: usize,
    phase: Phase,
    others: u8,
    spot: QueuePosition,
    timed: bool,
}

impl Standing {
    fn of(call: Call) -> Standing {
        Standing {
            lock: call.lock,
            phase: Phase::of(call.core),
            others: call.others,
            spot: call.spot,
            timed: call.asked.is_timed(),
        }
    }
}

/// A sleep, by the mark that tells it from others only where that counts.
fn sleep_of(sleep: Sleep, counts: bool) -> Sleep {
    let mark = if counts { sleep.mark } else { 0 };
    Sleep { mark, ..sleep }
}

/// A place in the lot.
fn place_of(place: Place, counts: bool) -> Place {
    match place {
        Place::Running => Place::Running,
        Place::Waiting(key, sleep) => Place::Waiting(key, sleep_of(sleep, counts)),
        Place::Held(key, sleep) => Place::Held(key, sleep_of(sleep, counts)),
        Place::Taken(token, key, sleep, is_woken) => {
            Place::Taken(token, key, sleep_of(sleep, counts), is_woken)
        }
    }
}

/// What one of a thread's two numbers at the locks is told apart by.
#[derive(Clone, Copy, PartialEq)]
struct Number {
    standing: Option<Standing>,
    place: Option<Place>,
    status: Option<ThreadStatus>,
    holds: Three<Hold>,
}

impl Number {
    /// Of one of a thread's numbers. In a world of a once alone nobody is ever at a lock.
    fn of(world: &World, number: usize, counts: bool) -> Number {
        let rows = world.waits().rows();
        if world.kind(0) == Some(LockKind::Once) && world.kind(1).is_none() {
            return Number {
                standing: None,
                place: None,
                status: None,
                holds: Three(Hold::Shares(0), Hold::Shares(0), Hold::Shares(0)),
            };
        }
        Number {
            standing: rows.call(number).map(Standing::of),
            place: rows
                .lot()
                .place(number)
                .map(|place| place_of(place, counts)),
            status: rows.lot().status(number),
            holds: Three(
                rows.hold(number, 0),
                rows.hold(number, 1),
                rows.hold(number, 2),
            ),
        }
    }

    /// Whether its next step may store in the section in which it gives a mutex up.
    fn stores(&self) -> bool {
        match self.standing {
            Some(standing) => matches!(standing.phase, Phase::Mutex(MutexPhase::Stores(..))),
            None => false,
        }
    }

    fn is_alone(&self) -> bool {
        match self.standing {
            Some(standing) => standing.phase.is_alone(),
            None => false,
        }
    }

    fn number(&self) -> u64 {
        match self.standing {
            Some(standing) => standing.phase.number(),
            None => 0,
        }
    }
}

/// What a thread is told apart by.
#[derive(Clone, Copy, PartialEq)]
pub(crate) struct Seat {
    once: Option<AtOnce>,
    variable: Option<AtVariable>,
    /// Whether it waits with the second of its numbers.
    second: bool,
    front: Number,
    back: Number,
}

impl Seat {
    pub(crate) fn of(world: &World, thread: usize, counts: bool) -> Seat {
        let threads = world.waits().threads();
        Seat {
            once: AtOnce::of(world, thread),
            variable: AtVariable::of(world, thread),
            second: world.waits().seat(thread).second,
            front: Number::of(world, thread, counts),
            back: Number::of(world, thread.saturating_add(threads), counts),
        }
    }

    /// Whether its next step may store in the section in which it gives a mutex up.
    pub(crate) fn may_hand(&self) -> bool {
        self.front.stores() || self.back.stores()
    }

    /// Whether it was taken off the list of a once, and isn't woken yet.
    pub(crate) fn is_taken(&self) -> bool {
        match self.once {
            Some(once) => once.taker.is_some(),
            None => false,
        }
    }

    /// Whether its next step is seen by nobody else: it spins, ends, or looks at what others leave alone.
    pub(crate) fn is_alone(&self) -> bool {
        let at_once = match self.once {
            Some(once) => once.is_alone(),
            None => false,
        };
        let at_variable = match self.variable {
            Some(variable) => variable.is_alone(),
            None => false,
        };
        at_once || at_variable || self.front.is_alone() || self.back.is_alone()
    }

    /// A number that few others share.
    pub(crate) fn number(&self) -> u64 {
        let at_once = match self.once {
            Some(once) => once.number(),
            None => 0,
        };
        let at_variable = match self.variable {
            Some(variable) => variable.number(),
            None => 0,
        };
        at_once
            .wrapping_add(at_variable.wrapping_mul(4_099))
            .wrapping_add(self.front.number().wrapping_mul(67))
            .wrapping_add(self.back.number())
    }
}

/// One that is still to be woken: by whom, who, and by the mark of which sleep: where marks don't count, whether it is
/// the one in which it is now.
#[derive(Clone, Copy, PartialEq)]
pub(crate) struct Wake {
    pub(crate) by: usize,
    thread: usize,
    mark: u64,
}

fn mark_of(place: Option<Place>) -> Option<u64> {
    match place {
        Some(Place::Waiting(_, sleep) | Place::Held(_, sleep) | Place::Taken(_, _, sleep, _)) => {
            Some(sleep.mark)
        }
        Some(Place::Running) | None => None,
    }
}

impl Wake {
    pub(crate) fn of(world: &World, wakeup: Wakeup, counts: bool) -> Wake {
        let place = world.waits().rows().lot().place(wakeup.thread);
        let is_current = mark_of(place) == Some(wakeup.mark);
        Wake {
            by: wakeup.by,
            thread: wakeup.thread,
            mark: if counts {
                wakeup.mark
            } else {
                u64::from(is_current)
            },
        }
    }
}
