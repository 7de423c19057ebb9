//! What a call is told of acts that are made elsewhere.
ghost use Rattle.std.specs.Prelude.{◌≡◌};
ghost use Rattle.parking_lot_machine_sides.specs.Condvar.Outsides.{all_taken, is_whole, notify_fits, notify_hears};
ghost use Rattle.parking_lot_machine_sides.specs.Condvar.Outsides.{wait_fits, wait_hears};

use parking_lot_core_model::UnparkToken;
use parking_lot_protocol_waits::{NotifyPhase, NotifySeen, WaitPhase, WaitSeen};

/// What an act that isn't made at the variable gave: at the mutex, by the thread that wakes it, or by the clock.
#[derive(Clone, Copy, PartialEq, Eq, Debug)]
pub enum Outside {
    /// It was made: the mutex was given up or locked, its parked bit was set or masked off, its section was entered or
    /// left, or the one that was taken was woken.
    Made,
    /// One that was taken off the list was woken with that token.
    Woken(UnparkToken),
    /// Its deadline came as it slept.
    Expired,
    /// It has taken itself off the mutex's list, and whether it was the last there.
    Quit { last: bool },
    /// Another had taken it off the mutex's list before, and was to wake it with that token.
    WasTaken(UnparkToken),
    /// Whether the mutex was locked; then its parked bit is set now.
    Marked(bool),
    /// All were taken that are taken: how many of them to be woken, and how many were moved to the mutex's list.
    Moved { unparked: usize, requeued: usize },
}

impl Outside {
    /// What a wait's core is told.
    pub(crate) fn to_wait(self) -> WaitSeen
        ensures { result ≡ wait_hears self }
    {
        match self {
            Outside::Woken(token) => WaitSeen::Woken(token),
            Outside::Expired => WaitSeen::Expired,
            Outside::Quit { last } => WaitSeen::Quit { here: false, last },
            Outside::WasTaken(token) => WaitSeen::WasTaken(token),
            Outside::Made | Outside::Marked(_) | Outside::Moved { .. } => WaitSeen::Made,
        }
    }

    /// What a notification's core is told, while somebody is left in the list or nobody.
    pub(crate) fn to_notify(self, left: bool) -> NotifySeen
        ensures { result ≡ notify_hears left self }
    {
        match self {
            Outside::Marked(locked) => NotifySeen::Marked(locked),
            Outside::Moved { unparked, requeued } => NotifySeen::Moved {
                unparked,
                requeued,
                left,
            },
            _ => NotifySeen::Made,
        }
    }
}

/// Whether a wait may be told so: one in the list of its deadline alone, and one off it what comes of it at the mutex.
pub(crate) fn wait_fits(timed: bool, listed: bool, phase: WaitPhase, seen: Outside) -> bool
    ensures { result ≡ wait_fits timed listed phase seen }
{
    match (phase, seen) {
        (WaitPhase::Unlocks(_), Outside::Made) => true,
        (WaitPhase::Locks(_), Outside::Made) => true,
        (WaitPhase::Sleeps(_), Outside::Woken(_)) => !listed,
        (WaitPhase::Sleeps(_), Outside::Expired) => timed,
        (WaitPhase::Expires(_), Outside::Made) => !listed,
        (WaitPhase::Quits(_), Outside::Quit { .. }) => !listed,
        (WaitPhase::Quits(_), Outside::WasTaken(_)) => !listed,
        (WaitPhase::Masks, Outside::Made) => true,
        (WaitPhase::Leaves(here), Outside::Made) => !here,
        (WaitPhase::Resumes(_), Outside::Made) => true,
        _ => false,
    }
}

/// Whether a notification may be told so, that has taken so many, while somebody is left in the list or nobody.
pub(crate) fn notify_fits(taken: usize, left: bool, phase: NotifyPhase, seen: Outside) -> bool
    ensures { result ≡ notify_fits taken left phase seen }
{
    match (phase, seen) {
        (NotifyPhase::Marks(_), Outside::Marked(_)) => true,
        (NotifyPhase::Moves(all, locked), Outside::Moved { unparked, requeued }) => {
            all_taken(taken, left, all, locked, unparked, requeued)
        }
        (NotifyPhase::MarksRest(_), Outside::Made) => true,
        (NotifyPhase::Wakes(_), Outside::Made) => true,
        _ => false,
    }
}

/// Whether a notification that has taken so many, and woken and moved so many of them, has taken all that it takes: of
/// a mutex that is locked none is woken, and else the first alone.
fn all_taken(
    taken: usize,
    left: bool,
    all: bool,
    locked: bool,
    unparked: usize,
    requeued: usize,
) -> bool
    ensures { result ≡ all_taken taken left all locked unparked requeued }
{
    let woken = if locked || taken == 0 { 0 } else { 1 };
    is_whole(all, taken, left) && (unparked == woken && requeued == taken.saturating_sub(woken))
}

/// Whether it has taken all that it takes: of one the first, if there is one.
fn is_whole(all: bool, taken: usize, left: bool) -> bool
    ensures { result ≡ is_whole all taken left }
{
    if all {
        !left
    } else {
        taken < 2 && !(left && taken == 0)
    }
}
