//! The lot for threads, as one or two threads use it.

use crate::sleepers;
use crate::trials::{Trial, goes_well};
use parking_lot_core::{
    DEFAULT_PARK_TOKEN, DEFAULT_UNPARK_TOKEN, LotFault, ParkResult, ParkingLot, RequeueOp,
    SizeFault, SpinWait, ThreadData, UnparkResult, UnparkToken, WordLock, deadlock, park,
    unpark_all, unpark_one, unpark_requeue,
};
use std::alloc::Allocator;
use std::sync::Wait;
use std::sync::atomic::AtomicUsize;
use std::test::Fail;
use std::thread;
use std::thread::Threads;
use std::time::{Clock, Instant};

#[test]
fn sizes_of_lots_for_threads_are_limited(rt: HostRuntime) {
    for size in &[0, 65_537] {
        let made = ParkingLot::new(rt, rt.alloc(), *size, 7).err();
        assert!(rt; made == Some(SizeFault::BadSize), "{size} threads");
    }
}

/// The number of a new participant.
pub fn admitted<R: Wait, A: Allocator + Clone + Drop>(
    lot: &ParkingLot<R, A>,
) -> Result<usize, LotFault> {
    match lot.thread_data() {
        Ok(me) => Ok(me.thread_number()),
        Err(fault) => Err(fault),
    }
}

/// Whether a second participant has the next number, a third is refused, and a number is given out again.
pub fn are_counted<R: Wait>(lot: &ParkingLot<R>) -> Option<bool> {
    let first = lot.thread_data().ok()?;
    let second = lot.thread_data().ok()?;
    let is_second = (second.lot_number() == 7) & (second.thread_number() == 1);
    let is_full = admitted(lot) == Err(LotFault::TooManyThreads);
    let is_own = lot.same_lot(&first);
    lot.retire(first);
    Some(is_second & is_full & is_own & (admitted(lot) == Ok(0)))
}

/// A park of a thread that is alone: whether its validation says yes, whether it unparks itself right before it sleeps,
/// and whether its moment is past.
#[derive(Clone, Copy)]
pub struct Alone(bool, bool, bool);

/// How such a park ended, whether it was about to sleep, and what it was told of its moment.
#[derive(Clone, Copy, PartialEq)]
pub struct ParkEnd(Option<ParkResult>, bool, Option<(usize, bool)>);

/// Parks a thread under key 3.
fn parked<R: Wait + Clock>(
    lot: &ParkingLot<R>,
    me: &mut ThreadData,
    timeout: Option<(Instant, &R)>,
    how: Alone,
) -> ParkEnd {
    if !lot.same_lot(me) {
        return ParkEnd(None, false, None);
    }
    let Alone(valid, unparks, _) = how;
    let mut slept = false;
    let mut told = None;
    let ended = park(
        lot,
        me,
        3,
        || valid,
        || {
            slept = true;
            if unparks {
                unpark_one(lot, 3, |_| UnparkToken(42));
            }
        },
        |key, last| told = Some((key, last)),
        DEFAULT_PARK_TOKEN,
        timeout,
    );
    ParkEnd(Some(ended), slept, told)
}

/// Whether a thread that parks so ends so.
pub fn parks<R: Wait + Clock>(
    rt: &R,
    lot: &ParkingLot<R>,
    how: Alone,
    must: ParkEnd,
) -> Option<bool> {
    let mut me = lot.thread_data().ok()?;
    let timeout = if how.2 {
        Some((Instant::now(rt).ok()?, rt))
    } else {
        None
    };
    Some(parked(lot, &mut me, timeout, how) == must)
}

/// One unparks itself before it sleeps; an invalid park runs nothing else; and a moment that is past ends a park.
const ALONE: [(Alone, ParkEnd); 3] = [
    (
        Alone(true, true, false),
        ParkEnd(Some(ParkResult::Unparked(UnparkToken(42))), true, None),
    ),
    (
        Alone(false, false, false),
        ParkEnd(Some(ParkResult::Invalid), false, None),
    ),
    (
        Alone(true, false, true),
        ParkEnd(Some(ParkResult::TimedOut), true, Some((3, true))),
    ),
];

/// Whether an aborted requeue does nothing, and keys are claimed behind one another.
pub fn is_aborted<R: Wait>(lot: &ParkingLot<R>) -> bool {
    let result = unpark_requeue(lot, 1, 2, || RequeueOp::Abort, |_, _| DEFAULT_UNPARK_TOKEN);
    let woken = unpark_all(lot, 1, DEFAULT_UNPARK_TOKEN);
    let first = lot.claim_keys(4);
    let second = lot.claim_keys(1);
    (result == UnparkResult::default()) & (woken == 0) & (first == 0) & (second == 4)
}

/// Whether a participant's resources are those that were acquired once more than released.
pub fn records<R: Wait>(lot: &ParkingLot<R>) -> Result<bool, LotFault> {
    let mut me = lot.thread_data()?;
    deadlock::acquire_resource(&mut me, 9)?;
    deadlock::acquire_resource(&mut me, 9)?;
    deadlock::release_resource(&mut me, 9);
    deadlock::release_resource(&mut me, 4);
    Ok(deadlock::resources(&me)?.as_slice() == [9].as_slice())
}

#[test]
fn spins_are_counted(rt: HostRuntime) {
    let mut spin = SpinWait::new();
    let mut spins = true;
    for _round in 0..10 {
        spins = spin.spin() & spins;
    }
    let spins_on = spin.spin();
    spin.spin_no_yield();
    spin.reset();
    assert!(rt; spins & !spins_on & spin.spin());
}

#[test]
fn a_word_lock_is_locked_again(rt: HostRuntime) {
    let lock = WordLock::new();
    for _turn in 0..2 {
        let pass = lock.lock(&rt);
        lock.unlock(pass);
    }
    assert!(rt; SpinWait::default().spin());
}

/// Whether a thread's park ends by another's unpark.
pub fn is_unparked<R: Wait + Threads + Clock + Sync>(rt: &R, lot: &ParkingLot<R>) -> Option<bool> {
    let mut me = lot.thread_data().ok()?;
    let over = AtomicUsize::new(0);
    let (ended, woke) = thread::join(
        rt,
        || sleepers::parked(lot, &mut me, 3, DEFAULT_PARK_TOKEN, &over),
        || sleepers::unparked(lot, 3, 42),
    );
    Some(woke & (ended == Some(ParkResult::Unparked(UnparkToken(42)))))
}

const TRIALS: &[(&'static str, Trial)] = &[
    ("counts", Trial::Counts),
    ("each 64th unpark is fair", Trial::FairUnparks),
    ("an aborted requeue", Trial::Aborts),
    ("resources", Trial::Records),
    ("one unparks another", Trial::Unparks),
];

#[test]
fn one_thread_or_two_use_a_lot(rt: HostRuntime) -> Result<(), Fail> {
    for (name, trial) in TRIALS {
        assert!(rt; goes_well(rt, rt.alloc(), 2, *trial)?, "{name}");
    }
    for (at, (how, must)) in ALONE.iter().enumerate() {
        let well = goes_well(rt, rt.alloc(), 2, Trial::Parks(*how, *must))?;
        assert!(rt; well, "park {at} alone");
    }
    Ok(())
}
