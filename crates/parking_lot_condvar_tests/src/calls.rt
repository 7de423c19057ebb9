//! Calls of a condition variable, told what they see.

use parking_lot_core::{RequeueOp, UnparkToken};
use parking_lot_protocol_waits::{
    NotifyAct, NotifyCore, NotifySeen, WaitAct, WaitAnswer, WaitCore, WaitSeen,
};
use std::process::Abort;

/// Tells a wait each of these, and looks whether it asks for what it must.
fn follow_wait(rt: &impl Abort, mut core: WaitCore, lines: &[(WaitSeen, WaitAct)]) -> WaitCore {
    for (at, (seen, act)) in lines.iter().enumerate() {
        let is_asked = core.next(*seen) == *act;
        assert!(rt; is_asked, "line {at}");
    }
    core
}

/// The same of a notification.
fn follow_notice(rt: &impl Abort, mut core: NotifyCore, lines: &[(NotifySeen, NotifyAct)]) {
    for (at, (seen, act)) in lines.iter().enumerate() {
        let is_asked = core.next(*seen) == *act;
        assert!(rt; is_asked, "line {at}");
    }
}

/// A wait with mutex 4 that has gone to sleep.
fn asleep(rt: &impl Abort, word: u64) -> WaitCore {
    follow_wait(
        rt,
        WaitCore::wait(4),
        &[
            (WaitSeen::Start, WaitAct::Enter),
            (WaitSeen::Made, WaitAct::Check),
            (WaitSeen::Word(word), WaitAct::Append),
            (WaitSeen::Made, WaitAct::Show(5)),
            (WaitSeen::Made, WaitAct::Leave),
            (WaitSeen::Made, WaitAct::UnlocksMutex),
            (WaitSeen::Made, WaitAct::Sleep),
        ],
    )
}

#[test]
fn a_waiter_sleeps_and_is_woken(rt: HostRuntime) {
    let first = asleep(&rt, 0);
    follow_wait(
        &rt,
        first,
        &[
            (WaitSeen::Woken(UnparkToken(0)), WaitAct::LocksMutex),
            (WaitSeen::Made, WaitAct::Done(WaitAnswer::Woken)),
        ],
    );
    let handed = (
        WaitSeen::Woken(UnparkToken(1)),
        WaitAct::Done(WaitAnswer::Woken),
    );
    follow_wait(&rt, asleep(&rt, 5), &[handed]);
}

#[test]
fn a_waiter_gives_up(rt: HostRuntime) {
    follow_wait(
        &rt,
        asleep(&rt, 0),
        &[
            (WaitSeen::Expired, WaitAct::Reenters),
            (WaitSeen::Made, WaitAct::TakesItself),
            (
                WaitSeen::Quit {
                    here: true,
                    last: true,
                },
                WaitAct::Forgets,
            ),
            (WaitSeen::Made, WaitAct::Leave),
            (WaitSeen::Made, WaitAct::LocksMutex),
            (WaitSeen::Made, WaitAct::Done(WaitAnswer::TimedOut)),
        ],
    );
    follow_wait(
        &rt,
        asleep(&rt, 0),
        &[
            (WaitSeen::Expired, WaitAct::Reenters),
            (WaitSeen::Made, WaitAct::TakesItself),
            (
                WaitSeen::Quit {
                    here: false,
                    last: true,
                },
                WaitAct::MasksMutex,
            ),
            (WaitSeen::Made, WaitAct::Leave),
            (WaitSeen::Made, WaitAct::LocksMutex),
            (WaitSeen::Made, WaitAct::Done(WaitAnswer::Woken)),
        ],
    );
}

#[test]
fn a_waiter_that_was_taken_goes_on(rt: HostRuntime) {
    follow_wait(
        &rt,
        asleep(&rt, 0),
        &[
            (WaitSeen::Expired, WaitAct::Reenters),
            (WaitSeen::Made, WaitAct::TakesItself),
            (WaitSeen::WasTaken(UnparkToken(1)), WaitAct::Leave),
            (WaitSeen::Made, WaitAct::Done(WaitAnswer::Woken)),
        ],
    );
}

#[test]
fn waits_are_refused(rt: HostRuntime) {
    follow_wait(
        &rt,
        WaitCore::wait(4),
        &[
            (WaitSeen::Start, WaitAct::Enter),
            (WaitSeen::Made, WaitAct::Check),
            (WaitSeen::Word(7), WaitAct::Leave),
            (WaitSeen::Made, WaitAct::Done(WaitAnswer::WrongMutex)),
        ],
    );
    for (word, answer) in [(0, WaitAnswer::WrongLot), (5, WaitAnswer::WrongMutex)] {
        follow_wait(
            &rt,
            WaitCore::wait_with_stranger(),
            &[
                (WaitSeen::Start, WaitAct::Load),
                (WaitSeen::Word(word), WaitAct::Done(answer)),
            ],
        );
    }
}

/// What a notification is told up to its section, and what it asks for.
const UP_TO_THE_SECTION: [(NotifySeen, NotifyAct); 4] = [
    (NotifySeen::Start, NotifyAct::Load),
    (NotifySeen::Word(5), NotifyAct::Enter),
    (NotifySeen::Made, NotifyAct::Check),
    (NotifySeen::Word(5), NotifyAct::MarksIfLocked),
];

/// A notification that takes so many, up to its answer.
fn takes(
    rt: &impl Abort,
    all: bool,
    locked: bool,
    op: RequeueOp,
    moved: NotifySeen,
    rest: &[NotifyAct],
) {
    let mut core = NotifyCore::notify(all);
    for (at, (seen, act)) in UP_TO_THE_SECTION.iter().enumerate() {
        let is_asked = core.next(*seen) == *act;
        assert!(rt; is_asked, "line {at}");
    }
    assert!(rt; core.next(NotifySeen::Marked(locked)) == NotifyAct::Moves(op));
    let mut seen = moved;
    for (at, act) in rest.iter().enumerate() {
        let is_asked = core.next(seen) == *act;
        assert!(rt; is_asked, "act {at}");
        seen = NotifySeen::Made;
    }
}

/// So many were taken to be woken, and so many moved.
fn moved(unparked: usize, requeued: usize, left: bool) -> NotifySeen {
    NotifySeen::Moved {
        unparked,
        requeued,
        left,
    }
}

#[test]
fn waiters_are_moved_to_a_locked_mutex(rt: HostRuntime) {
    let one = [NotifyAct::Leave, NotifyAct::Done(1)];
    takes(
        &rt,
        false,
        true,
        RequeueOp::RequeueOne,
        moved(0, 1, true),
        &one,
    );
    let last = [NotifyAct::Forgets, NotifyAct::Leave, NotifyAct::Done(1)];
    takes(
        &rt,
        false,
        true,
        RequeueOp::RequeueOne,
        moved(0, 1, false),
        &last,
    );
    let all = [NotifyAct::Forgets, NotifyAct::Leave, NotifyAct::Done(3)];
    takes(
        &rt,
        true,
        true,
        RequeueOp::RequeueAll,
        moved(0, 3, false),
        &all,
    );
}

#[test]
fn the_first_is_woken_at_a_free_mutex(rt: HostRuntime) {
    let one = [NotifyAct::Leave, NotifyAct::Wake, NotifyAct::Done(1)];
    takes(
        &rt,
        false,
        false,
        RequeueOp::UnparkOne,
        moved(1, 0, true),
        &one,
    );
    let op = RequeueOp::UnparkOneRequeueRest;
    let all = [
        NotifyAct::Marks,
        NotifyAct::Forgets,
        NotifyAct::Leave,
        NotifyAct::Wake,
        NotifyAct::Done(3),
    ];
    takes(&rt, true, false, op, moved(1, 2, false), &all);
}

#[test]
fn a_notification_of_nobody_ends(rt: HostRuntime) {
    follow_notice(
        &rt,
        NotifyCore::notify(false),
        &[
            (NotifySeen::Start, NotifyAct::Load),
            (NotifySeen::Word(0), NotifyAct::Done(0)),
        ],
    );
    follow_notice(
        &rt,
        NotifyCore::notify(true),
        &[
            (NotifySeen::Start, NotifyAct::Load),
            (NotifySeen::Word(5), NotifyAct::Enter),
            (NotifySeen::Made, NotifyAct::Check),
            (NotifySeen::Word(7), NotifyAct::Leave),
            (NotifySeen::Made, NotifyAct::Done(0)),
        ],
    );
}
