//! Calls on a lot as data: each stands beside what it must answer.

use parking_lot_core::{
    DEFAULT_UNPARK_TOKEN, FilterOp, Lot, LotFault, ParkResult, ParkToken, RequeueOp, ThreadStatus,
    UnparkResult, UnparkToken,
};
use std::alloc::Global;
use std::process::Abort;
use std::test::Fail;

/// A call on a lot. Threads and keys go by their numbers, and each thread parks with its own number as its token.
#[derive(Clone, Copy)]
pub enum Call {
    Register,
    Retire(usize),
    Acquire(usize, usize),
    Release(usize, usize),
    /// Parks a thread under a key.
    Park(usize, usize),
    /// The same with a deadline.
    ParkTimed(usize, usize),
    /// Parks it with a validation that answers false.
    ParkInvalid(usize, usize),
    Deadline(usize),
    /// Resumes a thread, and says what its deadline tells.
    Resume(usize),
    /// A thread comes back into the section of its key, by itself, and takes itself off its list there.
    ComeBack(usize, usize),
    Quit(usize),
    /// Wakes a thread out of the sleep from which it was taken first, or second.
    Wake(usize, usize),
    Enter(usize, usize),
    Check(usize, bool),
    /// Appends a thread, with a deadline where this says so.
    Append(usize, bool),
    TakeNext(usize),
    /// Skips the next waiter, and takes the one behind it.
    TakeBehindOne(usize),
    /// Says that a section's word is stored, with a token.
    Store(usize, usize),
    Leave(usize),
    /// Unparks the first of a key, with a token.
    UnparkOne(usize, usize),
    UnparkAll(usize, usize),
    /// Unparks those of a key that the filter wants: it skips thread 0, takes 1, and stops at any other.
    UnparkFilter(usize, usize),
    /// Unparks those of a key by a filter that stops at once, and counts whom it is shown.
    UnparkStopping(usize),
    /// Unparks the first of a key, and counts the callbacks that are told what the call answers.
    UnparkCounting(usize),
    Requeue(usize, usize, RequeueOp),
    /// The same, and counts the callbacks.
    RequeueCounting(usize, usize, RequeueOp),
    Status(usize),
    /// How many buckets there are.
    Buckets,
    /// Whether the threads of a key's list are these.
    IsQueue(usize, &'static [usize]),
    /// Whether the recorded resources of a thread are these.
    AreResources(usize, &'static [usize]),
}

/// What a call answers.
#[derive(Clone, Copy, PartialEq, Eq)]
pub enum Answer {
    Done,
    Refused(LotFault),
    Number(usize),
    Is(bool),
    Ended(Option<ParkResult>),
    Taken(Option<usize>),
    /// What an unpark answers, and how often a closure was called, where that is counted.
    Counted(UnparkResult, usize),
    /// How a park has ended, and what its deadline told.
    Resumed(ParkResult, Option<(usize, bool)>),
    Left(Option<UnparkToken>),
    Stands(Option<ThreadStatus>),
}

/// A call, and what it must answer.
pub type Line = (Call, Answer);

/// The thread sleeps.
pub const WAITS: Answer = Answer::Ended(None);

pub const IS: Answer = Answer::Is(true);

pub const IS_NOT: Answer = Answer::Is(false);

/// All numbers are given out.
pub const FULL: Answer = Answer::Refused(LotFault::TooManyThreads);

/// Refused, since the call doesn't fit where the thread stands.
pub const WRONG: Answer = Answer::Refused(LotFault::WrongStatus);

/// Refused, since another has entered a section of the key's bucket.
pub const BUSY: Answer = Answer::Refused(LotFault::Busy);

/// What an unpark answers that took so many, moved so many, and left some or none.
macro_rules! outcome {
    ($unparked:expr, $requeued:expr, $more:expr) => {
        parking_lot_core::UnparkResult {
            unparked_threads: $unparked,
            requeued_threads: $requeued,
            have_more_threads: $more,
            be_fair: false,
        }
    };
}

/// The same as an answer.
macro_rules! took {
    ($unparked:expr, $requeued:expr, $more:expr) => {
        crate::script::Answer::Counted(crate::script::outcome!($unparked, $requeued, $more), 0)
    };
}

/// The thread was unparked with that token, and its deadline told nothing.
macro_rules! woken {
    ($token:expr) => {
        crate::script::Answer::Resumed(
            parking_lot_core::ParkResult::Unparked(parking_lot_core::UnparkToken($token)),
            None,
        )
    };
}

/// The thread stands there.
macro_rules! stands {
    ($($status:tt)+) => {
        crate::script::Answer::Stands(Some(parking_lot_core::ThreadStatus::$($status)+))
    };
}

pub(crate) use outcome;
pub(crate) use stands;
pub(crate) use took;
pub(crate) use woken;

fn done(answered: Result<(), LotFault>) -> Answer {
    match answered {
        Ok(()) => Answer::Done,
        Err(fault) => Answer::Refused(fault),
    }
}

fn number(answered: Result<usize, LotFault>) -> Answer {
    match answered {
        Ok(number) => Answer::Number(number),
        Err(fault) => Answer::Refused(fault),
    }
}

fn ended(answered: Result<Option<ParkResult>, LotFault>) -> Answer {
    match answered {
        Ok(end) => Answer::Ended(end),
        Err(fault) => Answer::Refused(fault),
    }
}

fn counted(answered: Result<UnparkResult, LotFault>, count: usize) -> Answer {
    match answered {
        Ok(outcome) => Answer::Counted(outcome, count),
        Err(fault) => Answer::Refused(fault),
    }
}

fn are(answered: Result<Vec<usize>, LotFault>, numbers: &[usize]) -> Answer {
    match answered {
        Ok(found) => Answer::Is(found.as_slice() == numbers),
        Err(fault) => Answer::Refused(fault),
    }
}

fn by_thread(token: ParkToken) -> FilterOp {
    match token.0 {
        0 => FilterOp::Skip,
        1 => FilterOp::Unpark,
        _ => FilterOp::Stop,
    }
}

/// Parks a thread with its number as the token.
fn park(lot: &mut Lot, thread: usize, key: usize, valid: bool, timed: bool) -> Answer {
    ended(lot.park(thread, key, || valid, ParkToken(thread), timed))
}

/// Resumes a thread, and says what its deadline tells.
fn resumed(lot: &mut Lot, thread: usize) -> Answer {
    let mut told = None;
    match lot.resume(thread, |key, last| told = Some((key, last))) {
        Ok(end) => Answer::Resumed(end, told),
        Err(fault) => Answer::Refused(fault),
    }
}

/// The first waiter that a section hasn't passed, or the one behind it, whose sleep is marked.
fn next_taken(lot: &mut Lot, marks: &mut Marks, thread: usize, skips: bool) -> Answer {
    let mut skips = skips;
    let taken = lot.take_next(thread, |_| {
        let op = if skips {
            FilterOp::Skip
        } else {
            FilterOp::Unpark
        };
        skips = false;
        op
    });
    match taken {
        Ok(Some(taking)) => {
            *marks = Marks(marks.1, taking.mark);
            Answer::Taken(Some(taking.thread))
        }
        Ok(None) => Answer::Taken(None),
        Err(fault) => Answer::Refused(fault),
    }
}

fn stopped(lot: &mut Lot, key: usize) -> Answer {
    let mut shown = 0usize;
    let filter = |_: ParkToken| {
        shown = shown.saturating_add(1);
        FilterOp::Stop
    };
    let answered = lot.unpark_filter(key, filter, |_| DEFAULT_UNPARK_TOKEN);
    counted(answered, shown)
}

fn unparked_counting(lot: &mut Lot, key: usize) -> Answer {
    let mut seen = None;
    let callback = |told| {
        seen = Some(told);
        DEFAULT_UNPARK_TOKEN
    };
    let answered = lot.unpark_one(key, callback);
    let is_told = seen.is_some() && seen == answered.ok();
    counted(answered, usize::from(is_told))
}

fn requeued_counting(lot: &mut Lot, from: usize, to: usize, op: RequeueOp) -> Answer {
    let mut calls = 0usize;
    let callback = |_, _| {
        calls = calls.saturating_add(1);
        DEFAULT_UNPARK_TOKEN
    };
    let answered = lot.unpark_requeue(from, to, || op, callback);
    counted(answered, calls)
}

/// Makes a call that unparks.
fn unpark_call(lot: &mut Lot, call: Call) -> Answer {
    match call {
        Call::UnparkOne(key, token) => counted(lot.unpark_one(key, |_| UnparkToken(token)), 0),
        Call::UnparkAll(key, token) => number(lot.unpark_all(key, UnparkToken(token))),
        Call::UnparkFilter(key, token) => {
            counted(lot.unpark_filter(key, by_thread, |_| UnparkToken(token)), 0)
        }
        Call::UnparkStopping(key) => stopped(lot, key),
        Call::UnparkCounting(key) => unparked_counting(lot, key),
        Call::Requeue(from, to, op) => {
            counted(
                lot.unpark_requeue(from, to, || op, |_, _| DEFAULT_UNPARK_TOKEN),
                0,
            )
        }
        Call::RequeueCounting(from, to, op) => requeued_counting(lot, from, to, op),
        _ => Answer::Done,
    }
}

/// Makes a call of a section.
fn section_call(lot: &mut Lot, marks: &mut Marks, call: Call) -> Answer {
    match call {
        Call::Enter(thread, key) => done(lot.enter(thread, key)),
        Call::Check(thread, valid) => match lot.check(thread, valid) {
            Ok(valid) => Answer::Is(valid),
            Err(fault) => Answer::Refused(fault),
        },
        Call::Append(thread, timed) => done(lot.append(thread, ParkToken(thread), timed)),
        Call::TakeNext(thread) => next_taken(lot, marks, thread, false),
        Call::TakeBehindOne(thread) => next_taken(lot, marks, thread, true),
        Call::Wake(thread, nth) => Answer::Is(lot.wake(thread, marks.of(nth))),
        Call::Store(thread, token) => done(lot.store_done(thread, UnparkToken(token))),
        Call::Leave(thread) => done(lot.leave(thread)),
        call => unpark_call(lot, call),
    }
}

/// Makes a call of a thread.
fn thread_call(lot: &mut Lot, marks: &mut Marks, call: Call) -> Answer {
    match call {
        Call::Park(thread, key) => park(lot, thread, key, true, false),
        Call::ParkTimed(thread, key) => park(lot, thread, key, true, true),
        Call::ParkInvalid(thread, key) => park(lot, thread, key, false, false),
        Call::Deadline(thread) => done(lot.deadline(thread)),
        Call::Resume(thread) => resumed(lot, thread),
        Call::ComeBack(thread, key) => done(lot.come_back(thread, key)),
        Call::Quit(thread) => match lot.quit(thread) {
            Ok(token) => Answer::Left(token),
            Err(fault) => Answer::Refused(fault),
        },
        call => section_call(lot, marks, call),
    }
}

/// Makes a call, and says what it answers.
fn make_call(lot: &mut Lot, marks: &mut Marks, call: Call) -> Answer {
    match call {
        Call::Register => number(lot.register()),
        Call::Retire(thread) => done(lot.retire(thread)),
        Call::Acquire(thread, key) => done(lot.acquire_resource(thread, key)),
        Call::Release(thread, key) => done(lot.release_resource(thread, key)),
        Call::AreResources(thread, keys) => are(lot.resources(thread), keys),
        Call::Status(thread) => Answer::Stands(lot.status(thread)),
        Call::Buckets => Answer::Number(lot.buckets()),
        Call::IsQueue(key, threads) => are(lot.queue(key), threads),
        call => thread_call(lot, marks, call),
    }
}

/// The marks of the last two sleeps from which a waiter was taken.
#[derive(Clone, Copy)]
struct Marks(u64, u64);

impl Marks {
    /// That of the last but one, or of the last.
    fn of(&self, nth: usize) -> u64 {
        if nth == 0 { self.0 } else { self.1 }
    }
}

/// Makes each call, and answers the first line that is answered otherwise.
fn wrong_line(lot: &mut Lot, before: &[Line], script: &[Line]) -> Option<usize> {
    let mut marks = Marks(u64::MAX, u64::MAX);
    for (at, (call, must)) in before.iter().chain(script.iter()).enumerate() {
        if make_call(lot, &mut marks, *call) != *must {
            return Some(at);
        }
    }
    None
}

/// A lot's greatest number of threads, how many of them are registered, numbered from 0, the calls that are made before,
/// and then those that are made.
pub type Play = (&'static str, usize, usize, &'static [Line], &'static [Line]);

/// Makes a play's calls on a new lot, and answers the first line that is answered otherwise.
fn follow(alloc: Global, play: &Play) -> Result<Option<usize>, Fail> {
    let (_name, most, threads, before, script) = *play;
    let mut lot = Lot::new(alloc, most, 7)?;
    for _thread in 0..threads {
        lot.register()?;
    }
    Ok(wrong_line(&mut lot, before, script))
}

/// Looks whether each call of the plays answers as it must.
pub fn follow_each(rt: &(impl AllocGlobal + Abort), plays: &[Play]) -> Result<(), Fail> {
    for play in plays {
        if let Some(line) = follow(rt.alloc(), play)? {
            let name = play.0;
            assert!(rt; false, "{name}: line {line}");
        }
    }
    Ok(())
}
