//! What has to hold whatever the schedule: of every state, of every step, and where no step is left.

use super::progress::{Moment, Progress, Stage, other};
use parking_lot_explorer::first_broken;
use parking_lot_explorer::programs::{keeps_out, may_own, may_sleep};
use parking_lot_explorer::shown::Shown;
use parking_lot_world::{OwnMode, WorldStep};

/// A rule of states that this one breaks.
pub fn broken_by_state(threads: [Progress; 2], shown: Shown<'_>) -> Option<&'static str> {
    broken_by_lock(shown)
        .or(broken_by_holds(threads, shown))
        .or(broken_by_thread(threads[0], 0, shown))
        .or(broken_by_thread(threads[1], 1, shown))
}

fn broken_by_lock(shown: Shown<'_>) -> Option<&'static str> {
    first_broken(&[
        (
            shown.has_each_owner_once(),
            "owners are threads of the world, each once",
        ),
        (
            shown.has_each_debtor_once(),
            "debtors are threads of the world, each once",
        ),
        (
            shown.owners_go_together(),
            "an owner that excludes others is alone",
        ),
        (
            shown.has_word_of_owners(),
            "the word is made of its owners and parked bits",
        ),
        (
            shown.has_parked_bits(),
            "a list that isn't empty has its parked bit",
        ),
        (shown.one_waits(), "of two threads one at most waits"),
        (
            shown.second_is_pending(),
            "only a pending writer waits in the second list",
        ),
        (
            shown.has_debts() || !shown.may_go_on(),
            "somebody is in debt where one that waits might go on",
        ),
    ])
}

/// The word counts the shared holds that threads have by their calls so far, and of a call that isn't answered what it
/// adds or takes, or not yet.
fn broken_by_holds(threads: [Progress; 2], shown: Shown<'_>) -> Option<&'static str> {
    let [first, second] = threads;
    let (least, most) = first.holds();
    let (less, more) = second.holds();
    first_broken(&[(
        shown.counts_holds(least.saturating_add(less), most.saturating_add(more)),
        "the word counts the shared holds",
    )])
}

fn broken_by_thread(at: Progress, thread: usize, shown: Shown<'_>) -> Option<&'static str> {
    let answer = shown.answer(thread);
    let mode = shown.mode(thread);
    match at.stage {
        Stage::Between(owned) => first_broken(&[
            (mode == owned, "between calls a thread owns what they say"),
            (
                !shown.waits(thread) && !shown.is_in_debt(thread),
                "between calls nobody waits or is in debt",
            ),
        ]),
        Stage::Within(open) => first_broken(&[
            (
                may_own(open.call, open.shares, mode),
                "in a call a thread owns what it had or asks for",
            ),
            (answer.is_none(), "a call that goes on isn't answered"),
            (
                may_sleep(open.call) || !shown.waits(thread),
                "only a call that may sleep waits",
            ),
            (
                shown.has_debts() || shown.waits(thread) || !open.is_due(mode),
                "somebody is in debt where one was taken out of a list and isn't an owner yet",
            ),
        ]),
    }
}

/// Whether a step makes the other thread an owner.
pub fn hands_over(step: WorldStep, before: Moment<'_>, behind: Moment<'_>) -> bool {
    let other = other(step.thread());
    before.shown.mode(other).is_none() && behind.shown.mode(other).is_some()
}

/// Whether a step takes its thread's hold.
fn gives_up(thread: usize, before: Moment<'_>, behind: Moment<'_>) -> bool {
    before.shown.mode(thread).is_some() && behind.shown.mode(thread).is_none()
}

/// A rule of steps that this one breaks.
pub fn broken_by_step(
    step: WorldStep,
    before: Moment<'_>,
    behind: Moment<'_>,
) -> Option<&'static str> {
    let thread = step.thread();
    let other = other(thread);
    let at = before.progress(thread);
    let is_handed = hands_over(step, before, behind);
    first_broken(&[
        (at.may_make(step), "a thread goes on only in a call"),
        (
            at.may_be_answered(behind.shown.answer(thread)),
            "a call is answered as fits it, and refused only beside an owner",
        ),
        (
            before.shown.answer(other) == behind.shown.answer(other),
            "a step of one thread answers no other",
        ),
        (
            is_handed || before.shown.mode(other) == behind.shown.mode(other),
            "a step of one thread takes nothing from another",
        ),
        (
            !is_handed || step == WorldStep::Go(thread, true) || before.shown.is_fair(),
            "only a fair step hands the lock over to another",
        ),
        (
            is_handed || !gives_up(thread, before, behind) || !before.must_hand(thread),
            "a fair lock goes to whoever waits",
        ),
    ])
}

/// A rule of states without a further step that this one breaks.
pub fn broken_by_end(threads: [Progress; 2], shown: Shown<'_>) -> Option<&'static str> {
    first_broken(&[
        (shown.is_at_rest(), "at the end nothing is left to be done"),
        (
            has_ended(threads[0], 0, shown) && has_ended(threads[1], 1, shown),
            "at the end only those sleep that the other keeps out",
        ),
    ])
}

/// A thread without a further step has made all its calls, or waits for what the other keeps from it.
fn has_ended(at: Progress, thread: usize, shown: Shown<'_>) -> bool {
    match (at.stage, shown.mode(other(thread))) {
        (Stage::Between(_), _) => at.rest[0].is_none(),
        (Stage::Within(open), Some(owner)) => shown.waits(thread) && keeps_out(owner, open.call),
        (Stage::Within(_), None) => false,
    }
}
