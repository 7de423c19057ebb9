//! The sleep of a call that may give up.

use crate::section::SectionWord;
use parking_lot_core::{ParkResult, ParkToken, ParkingLot, ThreadData, park, thread_yield};
use parking_lot_protocol::timed::{TimedAct, TimedSeen};
use parking_lot_protocol::{Act, ActResult, SectionAct};
use std::alloc::Allocator;
use std::cell::Cell;
use std::sync::Wait;
use std::time::{Clock, Instant};

/// A call that may give up, as its sleep sees it.
pub trait InTime: Copy {
    /// The bit of its row's word that is set where threads may sleep.
    fn parked(&self) -> u64;

    /// Is told what its act gave, and answers the next. What the act can't give isn't told: then it asks for the same
    /// again.
    fn told(&mut self, seen: TimedSeen) -> TimedAct;
}

/// Tells a call what an act of a call that waits gave.
fn tell<T: InTime>(call: &mut T, seen: ActResult) -> TimedAct {
    call.told(TimedSeen::Plain(seen))
}

/// Whether a call joins the list where its check sees this word.
fn joins<T: InTime>(mut call: T, word: u64) -> bool {
    let act = tell(&mut call, ActResult::Word(word));
    matches!(act, TimedAct::Makes(Act::Section(SectionAct::Append(_))))
}

/// Tells a call that it has joined the list, has left the section, and has taken itself off the list again as its
/// moment passed.
fn quits<T: InTime>(call: &mut T, last: bool) -> TimedAct {
    tell(call, ActResult::Made);
    tell(call, ActResult::Made);
    call.told(TimedSeen::Expired);
    call.told(TimedSeen::Reentered);
    call.told(TimedSeen::Quit { last })
}

/// Whether a call whose check saw this word masks the parked bit once it has taken itself off the list.
fn masks<T: InTime>(mut call: T, word: u64, last: bool) -> bool {
    tell(&mut call, ActResult::Word(word));
    quits(&mut call, last) == TimedAct::Masks
}

/// Tells a call how its stay in the section, or its sleep, ended.
fn after_sleep<T: InTime>(call: &mut T, ended: ParkResult, last: bool) {
    match ended {
        ParkResult::Unparked(token) => {
            tell(call, ActResult::Made);
            tell(call, ActResult::Made);
            tell(call, ActResult::Woken(token));
        }
        ParkResult::TimedOut => {
            if quits(call, last) == TimedAct::Masks {
                call.told(TimedSeen::Masked);
            }
            call.told(TimedSeen::Left);
        }
        ParkResult::Invalid => {
            tell(call, ActResult::Made);
        }
    }
}

/// Sleeps until it is woken or its moment passes, unless the word tells it not to. Where that is seen before the
/// section, it isn't entered.
pub fn sleep_in_time<R: Wait, A: Allocator, W: SectionWord, T: InTime, C: Clock>(
    lot: &ParkingLot<R, A>,
    key: usize,
    at: &W,
    call: &mut T,
    until: (Instant, &C),
    party: &mut ThreadData<A>,
) {
    let word = at.load();
    let mut ahead = *call;
    match tell(&mut ahead, ActResult::Word(word)) {
        TimedAct::Makes(Act::Section(SectionAct::Append(token))) => {
            park_in_time(lot, key, at, call, token, until, party);
        }
        _ => *call = ahead,
    }
}

/// Parks until the moment at the latest, unless the word tells it not to. A participant of another lot can't sleep
/// here: it lets other threads run, and the call is to look again, as if the word had been free.
fn park_in_time<R: Wait, A: Allocator, W: SectionWord, T: InTime, C: Clock>(
    lot: &ParkingLot<R, A>,
    key: usize,
    at: &W,
    call: &mut T,
    token: ParkToken,
    until: (Instant, &C),
    party: &mut ThreadData<A>,
) {
    if !lot.same_lot(party) {
        thread_yield();
        tell(call, ActResult::Word(0));
        return;
    }
    let before = *call;
    let parked = before.parked();
    let word = Cell::new(0);
    let was_last = Cell::new(false);
    let ended = park(
        lot,
        party,
        key,
        || {
            word.set(at.load());
            joins(before, word.get())
        },
        || {},
        |_key, last| {
            was_last.set(last);
            if masks(before, word.get(), last) {
                at.clear(parked);
            }
        },
        token,
        Some(until),
    );
    tell(call, ActResult::Word(word.get()));
    after_sleep(call, ended, was_last.get());
}
