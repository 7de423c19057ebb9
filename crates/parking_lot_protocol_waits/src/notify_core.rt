//! The call of a thread that notifies those that wait on a condition variable.
ghost use Rattle.std.specs.Prelude.{◌≡◌, ◌+◌, ◌%◌, ◌^◌, ◌==◌, ◌&&◌, nat_lt, not, true, false, if◌then◌else◌, IfSome};
ghost use Rattle.parking_lot_protocol_waits.specs.NotifyRules.{Follows};
ghost use Rattle.parking_lot_protocol_waits.specs.NotifyTable.{act_of, fits, forgets_or, moved_to, next_phase};
ghost use Rattle.parking_lot_protocol_waits.specs.NotifyTable.{operation, wakes_or, Gives, notify_asks, notify_told};
ghost use Rattle.parking_lot_protocol_waits.specs.declared.notify_act.NotifySeen.TheVariants as seen;
ghost use Rattle.parking_lot_protocol_waits.specs.declared.notify_act.NotifyAct.TheVariants as act;
ghost use Rattle.parking_lot_protocol_waits.specs.declared.notify_core.NotifyPhase.TheVariants.{Notifying, Enters};
ghost use Rattle.parking_lot_protocol_waits.specs.declared.notify_core.NotifyPhase.TheVariants.{Marks, Leaves, Ends};

use crate::notify_act::{NotifyAct, NotifySeen};
use parking_lot_core_model::RequeueOp;
use parking_lot_protocol::timed::CallCore;

/// What a notification has taken: how many; whether one of them is to be woken; and whether others are left.
#[derive(Clone, Copy, PartialEq, Eq, Debug)]
pub struct Notice {
    pub count: usize,
    pub wakes: bool,
    pub left: bool,
}

/// Where a notification stands: it has asked for the act that the case names, and waits for what it gives. `all` says
/// that it is of all waiters, and a number is the word that it has seen.
#[derive(Clone, Copy, PartialEq, Eq, Debug)]
pub enum NotifyPhase {
    /// Before it begins.
    Notifying(bool),
    /// It looks whether a mutex is shown; if so, it enters the section and looks whether it is shown still.
    Loads(bool),
    Enters(bool, u64),
    Checks(bool, u64),
    /// It announces to the mutex, if that is locked, that waiters come; takes waiters, knowing whether it is; and
    /// announces those that were moved behind one that is woken.
    Marks(bool),
    Moves(bool, bool),
    MarksRest(Notice),
    /// Nobody is left, so the variable forgets the mutex; it leaves, and wakes the one that was taken to be woken.
    Forgets(Notice),
    Leaves(Notice),
    Wakes(usize),
    /// The call is over, or was told what its act can't give.
    Ends(usize),
    Invalid,
}

/// The state of one notification. It is told what its last act gave, and answers the next one.
///
/// ```text
/// let mut core = NotifyCore::notify(false);
/// assert_eq!(rt; core.next(NotifySeen::Start), NotifyAct::Load);
/// assert_eq!(rt; core.next(NotifySeen::Word(5)), NotifyAct::Enter);
/// assert_eq!(rt; core.next(NotifySeen::Made), NotifyAct::Check);
/// assert_eq!(rt; core.next(NotifySeen::Word(5)), NotifyAct::MarksIfLocked);
/// assert_eq!(rt; core.next(NotifySeen::Marked(true)), NotifyAct::Moves(RequeueOp::RequeueOne));
/// ```
#[derive(Clone, Copy)]
pub struct NotifyCore {
    phase: NotifyPhase,
}

impl NotifyCore {
    /// A notification of all waiters, or of the first alone.
    pub fn notify(all: bool) -> NotifyCore
        ensures { result.phase ≡ Notifying all }
    {
        NotifyCore {
            phase: NotifyPhase::Notifying(all),
        }
    }

    /// Where it stands.
    pub fn phase(&self) -> NotifyPhase
        ensures { result ≡ self.now.phase }
    {
        let NotifyCore { phase } = *self;
        phase
    }

    /// The act that it has asked for.
    pub fn act(&self) -> NotifyAct
        ensures { result ≡ act_of self.now.phase }
    {
        self.phase.act()
    }

    /// Is told what the last act gave, and answers the next. What doesn't fit the act is met by `Nothing`.
    pub fn next(&mut self, seen: NotifySeen) -> NotifyAct
        ensures phase { self.new.phase ≡ next_phase self.old.phase seen }
        ensures act { result ≡ act_of self.new.phase }
        ensures rules { Follows self.old.phase seen }
    {
        self.phase = self.phase.after(seen);
        self.phase.act()
    }
}

/// What is done with the waiters: where the mutex is locked they are moved to its list, and else the first is woken and
/// the rest moved.
fn operation(all: bool, locked: bool) -> RequeueOp
    ensures { result ≡ operation all locked }
{
    if all {
        if locked {
            RequeueOp::RequeueAll
        } else {
            RequeueOp::UnparkOneRequeueRest
        }
    } else if locked {
        RequeueOp::RequeueOne
    } else {
        RequeueOp::UnparkOne
    }
}

/// Nobody is left, or somebody is.
fn forgets_or(notice: Notice) -> NotifyPhase
    ensures { result ≡ forgets_or notice }
{
    if notice.left {
        NotifyPhase::Leaves(notice)
    } else {
        NotifyPhase::Forgets(notice)
    }
}

/// Waiters were taken. Those that were moved behind one that is woken are still to be announced to the mutex.
fn moved_to(locked: bool, unparked: usize, requeued: usize, left: bool) -> NotifyPhase
    ensures { result ≡ moved_to locked unparked requeued left }
{
    let notice = Notice {
        count: unparked.wrapping_add(requeued),
        wakes: unparked > 0,
        left,
    };
    if !locked && requeued > 0 {
        NotifyPhase::MarksRest(notice)
    } else {
        forgets_or(notice)
    }
}

/// The section is left: one may be still to be woken.
fn wakes_or(notice: Notice) -> NotifyPhase
    ensures { result ≡ wakes_or notice }
{
    if notice.wakes {
        NotifyPhase::Wakes(notice.count)
    } else {
        NotifyPhase::Ends(notice.count)
    }
}

impl NotifyPhase {
    /// The act that it has asked for.
    fn act(self) -> NotifyAct
        ensures { result ≡ act_of self }
    {
        match self {
            NotifyPhase::Notifying(_) | NotifyPhase::Invalid => NotifyAct::Nothing,
            NotifyPhase::Loads(_) => NotifyAct::Load,
            NotifyPhase::Enters(_, _) => NotifyAct::Enter,
            NotifyPhase::Checks(_, _) => NotifyAct::Check,
            NotifyPhase::Marks(_) => NotifyAct::MarksIfLocked,
            NotifyPhase::Moves(all, locked) => NotifyAct::Moves(operation(all, locked)),
            NotifyPhase::MarksRest(_) => NotifyAct::Marks,
            NotifyPhase::Forgets(_) => NotifyAct::Forgets,
            NotifyPhase::Leaves(_) => NotifyAct::Leave,
            NotifyPhase::Wakes(_) => NotifyAct::Wake,
            NotifyPhase::Ends(count) => NotifyAct::Done(count),
        }
    }

    /// The phase that follows what its act gave.
    fn after(self, seen: NotifySeen) -> NotifyPhase
        ensures { result ≡ next_phase self seen }
    {
        match (self, seen) {
            (NotifyPhase::Notifying(all), NotifySeen::Start) => NotifyPhase::Loads(all),
            (NotifyPhase::Loads(all), NotifySeen::Word(word)) => looks(all, word),
            (NotifyPhase::Enters(all, word), NotifySeen::Made) => NotifyPhase::Checks(all, word),
            (NotifyPhase::Checks(all, word), NotifySeen::Word(now)) => checks(all, word, now),
            (NotifyPhase::Marks(all), NotifySeen::Marked(locked)) => NotifyPhase::Moves(
                all, locked,
            ),
            (
                NotifyPhase::Moves(_, locked),
                NotifySeen::Moved {
                    unparked,
                    requeued,
                    left,
                },
            ) => moved_to(locked, unparked, requeued, left),
            (NotifyPhase::MarksRest(notice), NotifySeen::Made) => forgets_or(notice),
            (NotifyPhase::Forgets(notice), NotifySeen::Made) => NotifyPhase::Leaves(notice),
            (NotifyPhase::Leaves(notice), NotifySeen::Made) => wakes_or(notice),
            (NotifyPhase::Wakes(count), NotifySeen::Made) => NotifyPhase::Ends(count),
            _ => NotifyPhase::Invalid,
        }
    }
}

/// It has looked whether a mutex is shown.
fn looks(all: bool, word: u64) -> NotifyPhase
    ensures { result ≡ (if word == 0 then Ends 0 else Enters all word) }
{
    if word == 0 {
        NotifyPhase::Ends(0)
    } else {
        NotifyPhase::Enters(all, word)
    }
}

/// It has looked in the section whether the same word is shown still.
fn checks(all: bool, word: u64, now: u64) -> NotifyPhase
    ensures { result ≡ (if now == word then Marks all else Leaves (record { count = 0; wakes = false; left = true })) }
{
    if now == word {
        NotifyPhase::Marks(all)
    } else {
        NotifyPhase::Leaves(Notice {
            count: 0,
            wakes: false,
            left: true,
        })
    }
}

impl CallCore for NotifyCore {
    type Act = NotifyAct;

    type Seen = NotifySeen;

    ghost told = { notify_told };

    ghost asks = { notify_asks };

    ghost gives = { Gives };

    ghost start = { seen.Start };

    fn start() -> NotifySeen {
        NotifySeen::Start
    }

    fn act(&self) -> NotifyAct {
        NotifyCore::act(self)
    }

    fn giving(act: NotifyAct, seen: NotifySeen) -> Option<u64> {
        match (act, seen) {
            (NotifyAct::Load, NotifySeen::Word(word)) => Some(word),
            (NotifyAct::Check, NotifySeen::Word(word)) => Some(word),
            (NotifyAct::Enter, NotifySeen::Made) => Some(0),
            (NotifyAct::Leave, NotifySeen::Made) => Some(0),
            (NotifyAct::MarksIfLocked, NotifySeen::Marked(_)) => Some(0),
            (
                NotifyAct::Moves(op),
                NotifySeen::Moved {
                    unparked,
                    requeued,
                    left,
                },
            ) => giving_moves(op, unparked, requeued, left),
            (NotifyAct::Marks, NotifySeen::Made) => Some(0),
            (NotifyAct::Forgets, NotifySeen::Made) => Some(0),
            (NotifyAct::Wake, NotifySeen::Made) => Some(0),
            _ => None,
        }
    }

    fn tell(&mut self, seen: NotifySeen) {
        self.next(seen);
    }
}

/// The same of an operation that took so many.
fn giving_moves(op: RequeueOp, unparked: usize, requeued: usize, left: bool) -> Option<u64>
    ensures { IfSome result (λ word. Gives (act.Moves op) word (seen.Moved unparked requeued left)) }
{
    if fits(op, unparked, requeued, left) {
        Some(0)
    } else {
        None
    }
}

/// Whether an operation can take so many.
fn fits(op: RequeueOp, unparked: usize, requeued: usize, left: bool) -> bool
    ensures { result ≡ fits op unparked requeued left }
{
    match op {
        RequeueOp::Abort => false,
        RequeueOp::UnparkOneRequeueRest => unparked < 2
            && !left
            && !(unparked == 0 && 0 < requeued),
        RequeueOp::RequeueAll => unparked == 0 && !left,
        RequeueOp::UnparkOne => unparked < 2 && requeued == 0,
        RequeueOp::RequeueOne => unparked == 0 && requeued < 2,
    }
}
