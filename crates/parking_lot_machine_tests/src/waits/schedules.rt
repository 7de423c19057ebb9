//! Many schedules: threads that wait until something is so, and one that makes it so and notifies.

use super::{MUTEX, VARIABLE, expires, machine};
use parking_lot_machine_waits::{CondvarCall, Ended, LockCall, WaitMachine};
use std::test::Fail;

/// What a thread does next in its program.
#[derive(Clone, Copy, PartialEq, Eq)]
enum At {
    /// It locks the mutex.
    Locks,
    /// It owns the mutex, and looks.
    Looks,
    /// It gives the mutex up.
    Unlocks,
    /// It notifies.
    Notifies,
    /// It is done.
    Done,
}

/// A run of one schedule.
#[derive(Drop)]
struct Run {
    machine: WaitMachine,
    /// Where each thread stands in its program.
    at: Vec<At>,
    /// Who is in a call.
    busy: Vec<bool>,
    /// The last thread notifies, with the mutex or without it.
    beside: bool,
    /// Whether the waiters have what they wait for.
    ready: bool,
    /// Whether nothing went wrong.
    right: bool,
    random: u64,
}

impl Run {
    /// A number that looks like chance.
    fn next(&mut self) -> u64 {
        self.random = self
            .random
            .wrapping_mul(6_364_136_223_846_793_005)
            .wrapping_add(1_442_695_040_888_963_407);
        self.random >> 33
    }

    fn at(&self, thread: usize) -> At {
        self.at.get(thread).copied().unwrap_or(At::Done)
    }

    fn is_busy(&self, thread: usize) -> bool {
        self.busy.get(thread).copied().unwrap_or(false)
    }

    fn is_notifier(&self, thread: usize) -> bool {
        thread.wrapping_add(1) == self.machine.threads()
    }

    fn set(&mut self, thread: usize, at: At, busy: bool) {
        if let Some(place) = self.at.get_mut(thread) {
            *place = at;
        }
        if let Some(place) = self.busy.get_mut(thread) {
            *place = busy;
        }
    }

    /// A thread asks for a lock, which it may.
    fn asks(&mut self, thread: usize, call: LockCall, then: At) {
        if self.machine.may_ask(thread, MUTEX, call) {
            self.machine.ask(thread, MUTEX, call);
            self.set(thread, then, true);
        } else {
            self.right = false;
        }
    }

    /// A thread asks at the variable, which it may.
    fn calls(&mut self, thread: usize, call: CondvarCall, then: At) {
        if self.machine.may_call_at(thread, VARIABLE, call) {
            self.machine.call(thread, VARIABLE, call);
            self.set(thread, then, true);
        } else {
            self.right = false;
        }
    }

    /// A thread in no call begins its next.
    fn begins(&mut self, thread: usize) {
        let notifies = self.is_notifier(thread);
        match self.at(thread) {
            At::Locks => self.asks(thread, LockCall::Lock, At::Looks),
            At::Looks if notifies => {
                self.ready = true;
                let then = if self.beside {
                    At::Notifies
                } else {
                    At::Unlocks
                };
                self.set(thread, then, false);
            }
            At::Looks if self.ready => self.asks(thread, LockCall::Unlock, At::Done),
            At::Looks if thread == 0 => self.calls(thread, CondvarCall::WaitUntil(0), At::Looks),
            At::Looks => self.calls(thread, CondvarCall::Wait(0), At::Looks),
            At::Unlocks if self.beside => self.asks(thread, LockCall::Unlock, At::Done),
            At::Unlocks => self.asks(thread, LockCall::Unlock, At::Notifies),
            At::Notifies if self.beside => {
                self.calls(thread, CondvarCall::NotifyAll, At::Unlocks);
            }
            At::Notifies => self.calls(thread, CondvarCall::NotifyAll, At::Done),
            At::Done => (),
        }
    }

    /// A thread does something, if it can.
    fn moves(&mut self, thread: usize) {
        let chance = self.next();
        if !self.is_busy(thread) {
            self.begins(thread);
        } else if self.machine.may_go(thread) {
            if self.machine.step(thread, chance % 2 == 1).is_some() {
                let at = self.at(thread);
                self.set(thread, at, false);
            }
        } else if chance % 4 == 0 {
            expires(&mut self.machine, thread);
        }
        self.looks();
    }

    /// Two never own the mutex at once.
    fn looks(&mut self) {
        let mut owners: u64 = 0;
        for thread in 0..self.machine.threads() {
            if self.machine.owner(thread, MUTEX).is_some() {
                owners = owners.wrapping_add(1);
            }
        }
        self.right = self.right & (owners < 2);
    }

    /// Whether all are done, and nobody is left anywhere.
    fn is_over(&self) -> bool {
        self.at.iter().all(|at| *at == At::Done)
            && self.busy.iter().all(|busy| !*busy)
            && self.machine.word(MUTEX) == 0
            && self.machine.word(VARIABLE) == 0
    }

    /// So many moves of threads by chance. Answers whether all came to their end.
    fn goes(&mut self, moves: u32) -> bool {
        for _ in 0..moves {
            let threads = self.machine.threads() as u64;
            let thread = if threads == 0 {
                0
            } else {
                self.next() % threads
            };
            self.moves(thread as usize);
            if self.is_over() {
                break;
            }
        }
        self.right && self.is_over()
    }
}

/// So many schedules of so many threads. Answers how many went wrong.
fn schedules(rt: HostRuntime, threads: usize, beside: bool, count: u64) -> Result<u64, Fail> {
    let mut wrong: u64 = 0;
    for seed in 0..count {
        let mut run = Run {
            machine: machine(rt.alloc(), threads)?,
            at: vec![in rt.alloc(); At::Locks; threads]?,
            busy: vec![in rt.alloc(); false; threads]?,
            beside,
            ready: false,
            right: true,
            random: seed.wrapping_mul(7_919).wrapping_add(13),
        };
        if !run.goes(4_000) {
            wrong = wrong.wrapping_add(1);
        }
    }
    Ok(wrong)
}

#[test]
fn nobody_of_two_is_lost(rt: HostRuntime) -> Result<(), Fail> {
    assert!(rt; schedules(rt, 2, true, 300)? == 0);
    assert!(rt; schedules(rt, 2, false, 300)? == 0);
    Ok(())
}

#[test]
fn nobody_of_three_is_lost(rt: HostRuntime) -> Result<(), Fail> {
    assert!(rt; schedules(rt, 3, true, 300)? == 0);
    assert!(rt; schedules(rt, 3, false, 300)? == 0);
    Ok(())
}
