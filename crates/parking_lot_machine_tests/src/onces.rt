//! Calls at a once after one another, and one that waits for another, with the words between.

use parking_lot_machine_sides::once::{OnceCall, OnceMachine, OnceReply, OnceState};
use std::process::Abort;
use std::test::Fail;

/// What a machine of one once does, or what is seen of it.
#[derive(Clone, Copy)]
enum Line {
    /// A thread makes a call, which comes to that.
    Asks(usize, OnceCall, Option<OnceReply>),
    /// It goes on, and comes to that.
    Goes(usize, Option<OnceReply>),
    Word(u64),
    Queue(&'static [usize]),
    Sleeps(usize, bool),
    InDebt(usize, bool),
}

/// A thread steps until it is answered or can't move.
fn goes(machine: &mut OnceMachine, thread: usize) -> Option<OnceReply> {
    for _ in 0..200 {
        if !machine.can_move(thread) {
            return None;
        }
        if let Some(reply) = machine.step(thread) {
            return Some(reply);
        }
    }
    None
}

/// A thread asks the once so, if it may, and goes on.
fn asks(machine: &mut OnceMachine, thread: usize, call: OnceCall) -> Option<OnceReply> {
    if machine.may_begin(thread, 0) {
        machine.begin(thread, 0, call);
    }
    goes(machine, thread)
}

fn holds(machine: &mut OnceMachine, line: Line) -> bool {
    match line {
        Line::Asks(thread, call, reply) => asks(machine, thread, call) == reply,
        Line::Goes(thread, reply) => goes(machine, thread) == reply,
        Line::Word(word) => machine.word(0) == word,
        Line::Queue(threads) => match machine.queue(0) {
            Ok(found) => found.as_slice() == threads,
            Err(_) => false,
        },
        Line::Sleeps(thread, asleep) => machine.is_asleep(thread) == asleep,
        Line::InDebt(thread, in_debt) => machine.is_in_debt(thread) == in_debt,
    }
}

/// Goes through the lines in a new machine of one once.
fn follow(rt: &(impl AllocGlobal + Abort), threads: usize, script: &[Line]) -> Result<(), Fail> {
    let mut machine = OnceMachine::new(&rt.alloc(), threads, 1)?;
    for (at, line) in script.iter().enumerate() {
        let is_so = holds(&mut machine, *line);
        assert!(rt; is_so, "line {at}");
    }
    Ok(())
}

const COMPLETED: Option<OnceReply> = Some(OnceReply::Completed);

const POISONED: Option<OnceReply> = Some(OnceReply::Poisoned);

#[test]
fn one_after_another(rt: HostRuntime) -> Result<(), Fail> {
    let forced = Some(OnceReply::Ran(OnceState::Poisoned));
    let script = [
        Line::Word(0),
        Line::Asks(0, OnceCall::CallOnce(false), Some(OnceReply::Failed)),
        Line::Word(2),
        Line::Asks(0, OnceCall::CallOnce(true), POISONED),
        Line::Asks(0, OnceCall::OnceWait, POISONED),
        Line::Word(2),
        Line::Asks(0, OnceCall::CallOnceForce(true), forced),
        Line::Word(1),
        Line::Asks(0, OnceCall::OnceWait, COMPLETED),
        Line::Asks(0, OnceCall::OnceWaitForce, COMPLETED),
        Line::Asks(0, OnceCall::CallOnce(true), COMPLETED),
        Line::Word(1),
    ];
    follow(&rt, 1, &script)
}

#[test]
fn one_waits_for_another(rt: HostRuntime) -> Result<(), Fail> {
    let ran = Some(OnceReply::Ran(OnceState::New));
    let script = [
        Line::Asks(0, OnceCall::OnceWait, None),
        Line::Sleeps(0, true),
        Line::Word(8),
        Line::Queue(&[0]),
        Line::InDebt(0, false),
        Line::InDebt(1, false),
        Line::Asks(1, OnceCall::CallOnce(true), ran),
        Line::Word(1),
        Line::Queue(&[]),
        Line::Sleeps(0, false),
        Line::InDebt(0, true),
        Line::InDebt(1, false),
        Line::Goes(0, COMPLETED),
        Line::InDebt(0, false),
    ];
    follow(&rt, 2, &script)
}

/// A thread waits at a once until it is inside of a section of its bucket. Answers whether it comes there.
fn enters(machine: &mut OnceMachine, thread: usize, once: usize) -> bool {
    if machine.may_begin(thread, once) {
        machine.begin(thread, once, OnceCall::OnceWait);
    }
    for _ in 0..50 {
        if machine.inside(once) == Some(thread) {
            return true;
        }
        if machine.can_move(thread) {
            let _ = machine.step(thread);
        }
    }
    false
}

/// Three threads have 16 buckets: once 8 has the key 16, and is of the bucket of once 0.
#[test]
fn sections_keep_out_those_of_their_buckets(rt: HostRuntime) -> Result<(), Fail> {
    let mut machine = OnceMachine::new(&rt.alloc(), 3, 9)?;
    assert!(rt; enters(&mut machine, 0, 0), "the first one's is open");
    assert!(rt;
        enters(&mut machine, 1, 1),
        "and the second one's beside it"
    );
    assert!(rt; !enters(&mut machine, 2, 8), "the last one's isn't");
    assert!(rt;
        goes(&mut machine, 0).is_none(),
        "the first thread leaves it"
    );
    assert!(rt; machine.is_asleep(0), "and sleeps");
    assert!(rt; enters(&mut machine, 2, 8), "now the last one's is");
    assert!(rt; machine.inside(1) == Some(1), "beside the second one's");
    Ok(())
}
