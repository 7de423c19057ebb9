//! The call of a thread that waits on a condition variable.
ghost use Rattle.std.specs.Prelude.{◌≡◌, ◌+◌, ◌%◌, ◌^◌, ◌==◌, ◌||◌, if◌then◌else◌, IfSome};
ghost use Rattle.parking_lot_protocol_waits.specs.WaitRules.{Follows};
ghost use Rattle.parking_lot_protocol_waits.specs.WaitTable.{act_of, begins_again, next_phase, shown_by, Gives};
ghost use Rattle.parking_lot_protocol_waits.specs.WaitTable.{wait_asks, wait_told};
ghost use Rattle.parking_lot_protocol_waits.specs.declared.wait_act.WaitAnswer.TheVariants.{Woken, TimedOut};
ghost use Rattle.parking_lot_protocol_waits.specs.declared.wait_act.WaitAnswer.TheVariants.{WrongMutex, WrongLot};
ghost use Rattle.parking_lot_protocol_waits.specs.declared.wait_act.WaitSeen.TheVariants as seen;
ghost use Rattle.parking_lot_protocol_waits.specs.declared.wait_core.WaitPhase.TheVariants.{Waiting, Stranger};
ghost use Rattle.parking_lot_protocol_waits.specs.declared.wait_core.WaitPhase.TheVariants.{GivingWay, Appends};
ghost use Rattle.parking_lot_protocol_waits.specs.declared.wait_core.WaitPhase.TheVariants.{Retreats, Ends, Forgets};
ghost use Rattle.parking_lot_protocol_waits.specs.declared.wait_core.WaitPhase.TheVariants.{Masks, Leaves};

use crate::wait_act::{WaitAct, WaitAnswer, WaitSeen};
use parking_lot_core_model::UnparkToken;
use parking_lot_protocol::HAND_OVER;
use parking_lot_protocol::timed::CallCore;

/// Where a wait stands: it has asked for the act that the case names, and waits for what it gives. Where a number is
/// kept, it is the mutex's.
#[derive(Clone, Copy, PartialEq, Eq, Debug)]
pub enum WaitPhase {
    /// A wait, one with a mutex of another lot, and one of a thread that can't sleep here, before they begin.
    Waiting(u64),
    Stranger,
    GivingWay,
    /// With a mutex of another lot it looks at the word, and is refused.
    Looks,
    /// It enters the section and looks which mutex is shown; where that is another it leaves and is refused; else it
    /// joins the list, shows its mutex and leaves.
    Enters(u64),
    Checks(u64),
    Retreats,
    Appends(u64),
    Shows(u64),
    Rests(u64),
    /// It gives the mutex up and sleeps.
    Unlocks(u64),
    Sleeps(u64),
    /// Its moment has passed: it enters the section of the list in which it stands, and takes itself off that.
    Expires(u64),
    Quits(u64),
    /// It is off the list, and was the last there: the variable forgets the mutex, or the mutex's parked bit is masked
    /// off. It leaves.
    Forgets,
    Masks,
    Leaves(bool),
    /// Another had taken it before: it leaves, and goes on as if it were woken with that token.
    Resumes(UnparkToken),
    /// One that can't sleep gives the mutex up.
    Yields,
    /// It waits for the mutex again, and has timed out or not.
    Locks(bool),
    /// The call is over, or was told what its act can't give.
    Ends(WaitAnswer),
    Invalid,
}

/// The state of one wait on a condition variable. It is told what its last act gave, and answers the next one.
///
/// ```text
/// let mut core = WaitCore::wait(4);
/// assert_eq!(rt; core.next(WaitSeen::Start), WaitAct::Enter);
/// assert_eq!(rt; core.next(WaitSeen::Made), WaitAct::Check);
/// assert_eq!(rt; core.next(WaitSeen::Word(7)), WaitAct::Leave);
/// assert_eq!(rt; core.next(WaitSeen::Made), WaitAct::Done(WaitAnswer::WrongMutex));
/// ```
#[derive(Clone, Copy)]
pub struct WaitCore {
    phase: WaitPhase,
}

impl WaitCore {
    /// A wait with the mutex of that number.
    pub fn wait(mutex: u64) -> WaitCore
        ensures { result.phase ≡ Waiting mutex }
    {
        WaitCore {
            phase: WaitPhase::Waiting(mutex),
        }
    }

    /// A wait with a mutex of another lot, which is refused.
    pub fn wait_with_stranger() -> WaitCore
        ensures { result.phase ≡ Stranger }
    {
        WaitCore {
            phase: WaitPhase::Stranger,
        }
    }

    /// A wait of a thread that can't sleep here: it gives the mutex up and locks it again.
    pub fn give_way() -> WaitCore
        ensures { result.phase ≡ GivingWay }
    {
        WaitCore {
            phase: WaitPhase::GivingWay,
        }
    }

    /// Where it stands.
    pub fn phase(&self) -> WaitPhase
        ensures { result ≡ self.now.phase }
    {
        let WaitCore { phase } = *self;
        phase
    }

    /// The act that it has asked for.
    pub fn act(&self) -> WaitAct
        ensures { result ≡ act_of self.now.phase }
    {
        self.phase.act()
    }

    /// Is told what the last act gave, and answers the next. What doesn't fit the act is met by `Nothing`.
    pub fn next(&mut self, seen: WaitSeen) -> WaitAct
        ensures phase { self.new.phase ≡ next_phase self.old.phase seen }
        ensures act { result ≡ act_of self.new.phase }
        ensures rules { Follows self.old.phase seen }
    {
        self.phase = self.phase.after(seen);
        self.phase.act()
    }
}

/// The word that shows a mutex: its number and 1 more.
pub(crate) fn shown_by(mutex: u64) -> u64
    ensures { result ≡ shown_by mutex }
{
    mutex.wrapping_add(1)
}

/// A wait has looked which mutex is shown.
fn checks(mutex: u64, word: u64) -> WaitPhase
    ensures { result ≡ (if (word == 0) || (word == shown_by mutex) then Appends mutex else Retreats) }
{
    if word == 0 || word == shown_by(mutex) {
        WaitPhase::Appends(mutex)
    } else {
        WaitPhase::Retreats
    }
}

/// A wait was woken: where it was handed the mutex it owns it.
fn begins_again(token: UnparkToken) -> WaitPhase
    ensures { result ≡ begins_again token }
{
    if token.0 == HAND_OVER.0 {
        WaitPhase::Ends(WaitAnswer::Woken)
    } else {
        WaitPhase::Locks(false)
    }
}

impl WaitPhase {
    /// The act that it has asked for.
    fn act(self) -> WaitAct
        ensures { result ≡ act_of self }
    {
        match self {
            WaitPhase::Waiting(_) | WaitPhase::Stranger | WaitPhase::GivingWay => WaitAct::Nothing,
            WaitPhase::Looks => WaitAct::Load,
            WaitPhase::Enters(_) => WaitAct::Enter,
            WaitPhase::Checks(_) => WaitAct::Check,
            WaitPhase::Retreats | WaitPhase::Rests(_) => WaitAct::Leave,
            WaitPhase::Appends(_) => WaitAct::Append,
            WaitPhase::Shows(mutex) => WaitAct::Show(shown_by(mutex)),
            WaitPhase::Unlocks(_) | WaitPhase::Yields => WaitAct::UnlocksMutex,
            WaitPhase::Sleeps(_) => WaitAct::Sleep,
            WaitPhase::Expires(_) => WaitAct::Reenters,
            WaitPhase::Quits(_) => WaitAct::TakesItself,
            WaitPhase::Forgets => WaitAct::Forgets,
            WaitPhase::Masks => WaitAct::MasksMutex,
            WaitPhase::Leaves(_) | WaitPhase::Resumes(_) => WaitAct::Leave,
            WaitPhase::Locks(_) => WaitAct::LocksMutex,
            WaitPhase::Ends(answer) => WaitAct::Done(answer),
            WaitPhase::Invalid => WaitAct::Nothing,
        }
    }

    /// The phase that follows what its act gave.
    fn after(self, seen: WaitSeen) -> WaitPhase
        ensures { result ≡ next_phase self seen }
    {
        match (self, seen) {
            (WaitPhase::Waiting(mutex), WaitSeen::Start) => WaitPhase::Enters(mutex),
            (WaitPhase::Stranger, WaitSeen::Start) => WaitPhase::Looks,
            (WaitPhase::GivingWay, WaitSeen::Start) => WaitPhase::Yields,
            (WaitPhase::Looks, WaitSeen::Word(word)) => refused_at(word),
            (WaitPhase::Enters(mutex), WaitSeen::Made) => WaitPhase::Checks(mutex),
            (WaitPhase::Checks(mutex), WaitSeen::Word(word)) => checks(mutex, word),
            (WaitPhase::Retreats, WaitSeen::Made) => WaitPhase::Ends(WaitAnswer::WrongMutex),
            (WaitPhase::Appends(mutex), WaitSeen::Made) => WaitPhase::Shows(mutex),
            (WaitPhase::Shows(mutex), WaitSeen::Made) => WaitPhase::Rests(mutex),
            (WaitPhase::Rests(mutex), WaitSeen::Made) => WaitPhase::Unlocks(mutex),
            (WaitPhase::Unlocks(mutex), WaitSeen::Made) => WaitPhase::Sleeps(mutex),
            (WaitPhase::Sleeps(_), WaitSeen::Woken(token)) => begins_again(token),
            (WaitPhase::Sleeps(mutex), WaitSeen::Expired) => WaitPhase::Expires(mutex),
            (WaitPhase::Expires(mutex), WaitSeen::Made) => WaitPhase::Quits(mutex),
            (WaitPhase::Quits(_), WaitSeen::Quit { here, last }) => quits(here, last),
            (WaitPhase::Quits(_), WaitSeen::WasTaken(token)) => WaitPhase::Resumes(token),
            (WaitPhase::Forgets, WaitSeen::Made) => WaitPhase::Leaves(true),
            (WaitPhase::Masks, WaitSeen::Made) => WaitPhase::Leaves(false),
            (WaitPhase::Leaves(timed_out), WaitSeen::Made) => WaitPhase::Locks(timed_out),
            (WaitPhase::Resumes(token), WaitSeen::Made) => begins_again(token),
            (WaitPhase::Yields, WaitSeen::Made) => WaitPhase::Locks(false),
            (WaitPhase::Locks(timed_out), WaitSeen::Made) => ends(timed_out),
            _ => WaitPhase::Invalid,
        }
    }
}

/// A wait with a mutex of another lot has seen the word.
fn refused_at(word: u64) -> WaitPhase
    ensures { result ≡ (if word == 0 then Ends WrongLot else Ends WrongMutex) }
{
    if word == 0 {
        WaitPhase::Ends(WaitAnswer::WrongLot)
    } else {
        WaitPhase::Ends(WaitAnswer::WrongMutex)
    }
}

/// It has taken itself off the variable's list, or off the mutex's: then it has not timed out.
fn quits(here: bool, last: bool) -> WaitPhase
    ensures { result ≡ (if last then (if here then Forgets else Masks) else Leaves here) }
{
    if last {
        if here {
            WaitPhase::Forgets
        } else {
            WaitPhase::Masks
        }
    } else {
        WaitPhase::Leaves(here)
    }
}

/// It owns the mutex again.
fn ends(timed_out: bool) -> WaitPhase
    ensures { result ≡ (if timed_out then Ends TimedOut else Ends Woken) }
{
    if timed_out {
        WaitPhase::Ends(WaitAnswer::TimedOut)
    } else {
        WaitPhase::Ends(WaitAnswer::Woken)
    }
}

impl CallCore for WaitCore {
    type Act = WaitAct;

    type Seen = WaitSeen;

    ghost told = { wait_told };

    ghost asks = { wait_asks };

    ghost gives = { Gives };

    ghost start = { seen.Start };

    fn start() -> WaitSeen {
        WaitSeen::Start
    }

    fn act(&self) -> WaitAct {
        WaitCore::act(self)
    }

    fn giving(act: WaitAct, seen: WaitSeen) -> Option<u64> {
        match (act, seen) {
            (WaitAct::Load, WaitSeen::Word(word)) => Some(word),
            (WaitAct::Check, WaitSeen::Word(word)) => Some(word),
            (WaitAct::Enter, WaitSeen::Made) => Some(0),
            (WaitAct::Leave, WaitSeen::Made) => Some(0),
            (WaitAct::Append, WaitSeen::Made) => Some(0),
            (WaitAct::Show(_), WaitSeen::Made) => Some(0),
            (WaitAct::UnlocksMutex, WaitSeen::Made) => Some(0),
            (WaitAct::LocksMutex, WaitSeen::Made) => Some(0),
            (WaitAct::Sleep, WaitSeen::Woken(_)) => Some(0),
            (WaitAct::Sleep, WaitSeen::Expired) => Some(0),
            (WaitAct::Reenters, WaitSeen::Made) => Some(0),
            (WaitAct::TakesItself, WaitSeen::Quit { .. }) => Some(0),
            (WaitAct::TakesItself, WaitSeen::WasTaken(_)) => Some(0),
            (WaitAct::Forgets, WaitSeen::Made) => Some(0),
            (WaitAct::MasksMutex, WaitSeen::Made) => Some(0),
            _ => None,
        }
    }

    fn tell(&mut self, seen: WaitSeen) {
        self.next(seen);
    }
}
