//! A sleeper comes back by itself, and takes itself out of its list.
ghost use Rattle.std.specs.Prelude.{◌≡◌, ◌&&◌, Some, None, IsTrue, false, if◌then◌else◌};
ghost use Rattle.std.specs.Option.{option_map_or};
ghost use Rattle.parking_lot_core_model.specs.Places.{place_at, has_joined, has_slept, taken_with};
ghost use Rattle.parking_lot_core_model.specs.Machine.{machine, section_of, return_fault, quit_fault, returned};
ghost use Rattle.parking_lot_core_model.specs.Machine.{resumed, quitted, Quits, Does, Makes};

use crate::fault::LotFault;
use crate::lot::Lot;
use crate::parking::{DEFAULT_UNPARK_TOKEN, UnparkToken};
use crate::place::{Phase, Place, Section};
use crate::places::put;
use std::alloc::Allocator;

impl<A: Allocator> Lot<A> {
    /// Opens a section of the key of a thread that sleeps there, as where its moment has passed: it may have been taken
    /// in the meantime, but not woken. It then [quits](Lot::quit), or leaves and sleeps on.
    pub fn come_back(&mut self, thread: usize, key: usize) -> Result<(), LotFault>
        ensures { Does (λ m. return_fault m thread key) (Makes (λ m. returned m thread key)) (machine self.old) result
            (machine self.new) }
    {
        if let Some(fault) = self.return_fault(thread, key) {
            return Err(fault);
        }
        self.reopen(thread, key);
        Ok(())
    }

    /// Why the thread can't come back now.
    fn return_fault(&self, thread: usize, key: usize) -> Option<LotFault>
        ensures { result ≡ return_fault (machine self.now) thread key }
    {
        match self.place(thread) {
            Some(place) if place.may_return(key) => self.busy(key),
            _ => Some(LotFault::WrongStatus),
        }
    }

    /// Opens a section of a thread that stands in the list.
    fn reopen(&mut self, thread: usize, key: usize)
        requires { return_fault (machine self.old) thread key ≡ None }
        ensures { machine self.new ≡ returned (machine self.old) thread key }
    {
        self.buckets.put(
            key,
            Some(Section {
                thread: Some(thread),
                key,
                phase: Phase::Joined,
                token: DEFAULT_UNPARK_TOKEN,
            }),
        );
        self.buckets.seat(thread, Some(key));
    }

    /// Has a thread that came back take itself out of its list. Where it was taken before it finds its token instead,
    /// and is answered it. Both ways it runs from here on, nobody is to wake it, and its section takes nobody.
    /// [`has_waiters`](Lot::has_waiters) says whether it was the last.
    pub fn quit(&mut self, thread: usize) -> Result<Option<UnparkToken>, LotFault>
        ensures { Does (λ m. quit_fault m thread) (Quits thread) (machine self.old) result (machine self.new) }
    {
        if let Some(fault) = self.quit_fault(thread) {
            return Err(fault);
        }
        let Some(section) = self.section_of(thread) else {
            return Err(LotFault::WrongStatus);
        };
        let token = self.place(thread).and_then(|place| place.taken_with());
        self.go_on(thread);
        self.set_phase(section.key, Phase::Ended);
        Ok(token)
    }

    /// Why the thread can't quit now.
    fn quit_fault(&self, thread: usize) -> Option<LotFault>
        ensures { result ≡ quit_fault (machine self.now) thread }
    {
        if self.stands_in_list(thread) && self.has_slept(thread) {
            None
        } else {
            Some(LotFault::WrongStatus)
        }
    }

    /// Whether the thread is in a section in which it stands in the list.
    fn stands_in_list(&self, thread: usize) -> bool
        ensures { result ≡ option_map_or (λ s. has_joined s.phase) (section_of (machine self.now) thread) false }
    {
        match self.section_of(thread) {
            Some(section) => section.phase.has_joined(),
            None => false,
        }
    }

    /// Whether the thread fell asleep, and doesn't run again yet.
    fn has_slept(&self, thread: usize) -> bool
        ensures { result ≡ option_map_or has_slept (place_at (machine self.now).places thread) false }
    {
        match self.place(thread) {
            Some(place) => place.has_slept(),
            None => false,
        }
    }

    /// Has a thread run from its place on, off its list.
    fn go_on(&mut self, thread: usize)
        ensures { machine self.new ≡ resumed (machine self.old) thread (place_at (machine self.old).places thread) }
    {
        match self.place(thread) {
            Some(Place::Waiting(key, _)) => self.give_up(thread, key),
            Some(Place::Taken(_, _, _, _)) => put(&mut self.places, thread, Some(Place::Running)),
            _ => {}
        }
    }
}
