//! The sections of a call: a thread goes to sleep in one, or wakes others.

use crate::clock::StillClock;
use crate::looking::Looking;
use crate::under_way::UnderWay;
use parking_lot_core::{
    DEFAULT_PARK_TOKEN, ParkResult, ParkToken, ParkingLot, ThreadData, UnparkToken, park,
    thread_yield, unpark_filter, unpark_one,
};
use parking_lot_protocol::{Act, ActResult, SectionAct, WordChange};
use std::alloc::Allocator;
use std::cell::Cell;
use std::sync::Wait;
use std::time::Instant;

/// The word of a lock, as sections see it.
pub trait SectionWord {
    /// Loads the word.
    fn load(&self) -> u64;

    /// Changes the word in one step.
    fn change(&self, change: WordChange);

    /// Clears a bit that says that threads may sleep.
    fn clear(&self, bit: u64);

    /// Makes an act of a section that isn't a store, and tells what it gave. What isn't one on the word, the lot has
    /// made.
    fn made(&self, act: Act) -> ActResult;
}

/// Sleeps until it is woken, unless the word tells it not to. Where it is seen so before the section, that isn't
/// entered.
pub fn sleep<R: Wait, A: Allocator, W: SectionWord, U: UnderWay>(
    lot: &ParkingLot<R, A>,
    key: usize,
    at: &W,
    run: &mut U,
    party: &mut ThreadData<A>,
) {
    let word = at.load();
    let mut ahead = *run;
    match ahead.tell(ActResult::Word(word)) {
        Act::Section(SectionAct::Append(token)) => parks(lot, key, at, run, party, token),
        _ => *run = ahead,
    }
}

/// Parks, unless the word tells it not to. A participant of another lot can't sleep here: it lets other threads run,
/// and the call is to look again, as if the word had been free.
fn parks<R: Wait, A: Allocator, W: SectionWord, U: UnderWay>(
    lot: &ParkingLot<R, A>,
    key: usize,
    at: &W,
    run: &mut U,
    party: &mut ThreadData<A>,
    token: ParkToken,
) {
    if !lot.same_lot(party) {
        thread_yield();
        run.tell(ActResult::Word(0));
        return;
    }
    let checks = Cell::new(*run);
    let ended = park(
        lot,
        party,
        key,
        || {
            let mut now = checks.get();
            let act = now.tell(ActResult::Word(at.load()));
            checks.set(now);
            matches!(act, Act::Section(SectionAct::Append(_)))
        },
        || {},
        |_, _| {},
        token,
        None::<(Instant, &StillClock)>,
    );
    *run = checks.get();
    match ended {
        ParkResult::Unparked(token) => woken(run, token),
        ParkResult::Invalid | ParkResult::TimedOut => {
            run.tell(ActResult::Made);
        }
    }
}

/// Tells the call that it has joined the list, has left the section, and was woken with that token.
fn woken<U: UnderWay>(run: &mut U, token: UnparkToken) {
    run.tell(ActResult::Made);
    run.tell(ActResult::Made);
    run.tell(ActResult::Woken(token));
}

/// Takes the first waiter of a key and wakes it.
pub fn wake_first<R: Wait, A: Allocator, W: SectionWord, U: UnderWay>(
    lot: &ParkingLot<R, A>,
    key: usize,
    at: &W,
    run: &mut U,
) {
    let takes = Cell::new(*run);
    unpark_one(lot, key, |done| {
        let mut now = takes.get();
        let token = if done.unparked_threads > 0 {
            Some(DEFAULT_PARK_TOKEN)
        } else {
            None
        };
        now.tell(ActResult::Took {
            token,
            left: done.have_more_threads,
        });
        store(at, &mut now, done.be_fair);
        takes.set(now);
        now.wake_token()
    });
    *run = takes.get();
}

/// Takes the waiters of a key in order, as far as the call lets them go, and wakes them.
pub(crate) fn wake_in_order<R: Wait, A: Allocator, W: SectionWord, U: UnderWay>(
    lot: &ParkingLot<R, A>,
    key: usize,
    at: &W,
    run: &mut U,
) {
    let looks = Cell::new(Looking {
        run: *run,
        taken: None,
    });
    unpark_filter(
        lot,
        key,
        |token| {
            let mut now = looks.get();
            let op = now.shown(token);
            looks.set(now);
            op
        },
        |done| {
            let mut now = looks.get();
            now.ended(done.have_more_threads);
            store(at, &mut now.run, done.be_fair);
            looks.set(now);
            now.run.wake_token()
        },
    );
    *run = looks.get().run;
}

/// Changes the word in a section: by one of the two stores, or by a mask.
fn store<W: SectionWord, U: UnderWay>(at: &W, run: &mut U, be_fair: bool) {
    match run.act() {
        Act::Section(SectionAct::Store { plain, fair }) => {
            at.change(if be_fair { fair } else { plain });
            run.tell(ActResult::Stored { fair: be_fair });
        }
        act => {
            run.tell(at.made(act));
        }
    }
}
