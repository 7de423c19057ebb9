//! Which steps a world allows.
ghost use Rattle.std.specs.Prelude.{◌≡◌};
ghost use Rattle.parking_lot_world.specs.Worlds.{goes, is_in_once, is_once_at, is_variable_at, may_ask};
ghost use Rattle.parking_lot_world.specs.Worlds.{may_go, may_make, once_enters, once_side, shuts_out, wait_side};

use crate::calls::Asked;
use crate::step::WorldStep;
use crate::world::World;
use parking_lot_protocol::Act;
use std::alloc::Allocator;

impl<A: Allocator> World<A> {
    /// Whether a lock is a once.
    pub(crate) fn is_once(&self, lock: usize) -> bool
        ensures { result ≡ is_once_at self.now lock }
    {
        match self.kinds.get(lock) {
            Some(kind) => kind.is_once(),
            None => false,
        }
    }

    /// Whether a lock is a condition variable.
    pub(crate) fn is_variable(&self, lock: usize) -> bool
        ensures { result ≡ is_variable_at self.now lock }
    {
        match self.kinds.get(lock) {
            Some(kind) => kind.is_variable(),
            None => false,
        }
    }

    /// Whether a thread is in a call at a once.
    pub(crate) fn is_in_once(&self, thread: usize) -> bool
        ensures { result ≡ is_in_once self.now thread }
    {
        self.onces.call(thread).is_some()
    }

    /// The bucket of the section that a thread's call at a once is before.
    fn once_enters(&self, thread: usize) -> Option<usize>
        ensures { result ≡ once_enters self.now.onces thread }
    {
        match self.onces.call(thread) {
            Some(call) => match call.core.act() {
                Act::Enter(_) => Some(self.onces.bucket(call.once)),
                _ => None,
            },
            None => None,
        }
    }

    /// Whether a section of a once is open in a bucket.
    fn onces_shut(&self, bucket: Option<usize>) -> bool
        ensures { result ≡ shuts_out (once_side self.now.onces) bucket }
    {
        match bucket {
            Some(bucket) => self.onces.entered(bucket).is_some(),
            None => false,
        }
    }

    /// Whether one of a lock or a condition variable is.
    fn waits_shut(&self, bucket: Option<usize>) -> bool
        ensures { result ≡ shuts_out (wait_side self.now.waits) bucket }
    {
        match bucket {
            Some(bucket) => self.waits.is_shut(bucket),
            None => false,
        }
    }

    /// Whether a thread may make a step of its call at a lock or a condition variable.
    fn wait_goes(&self, thread: usize) -> bool
        ensures { result ≡ goes (wait_side self.now.waits) (once_side self.now.onces) thread }
    {
        self.waits.may_go(thread)
            && !(self.onces_shut(self.waits.enters_beside(thread))
                || self.onces_shut(self.waits.enters(thread)))
    }

    /// Whether a thread may make a step of its call at a once.
    fn once_goes(&self, thread: usize) -> bool
        ensures { result ≡ goes (once_side self.now.onces) (wait_side self.now.waits) thread }
    {
        self.onces.can_move(thread) && !self.waits_shut(self.once_enters(thread))
    }

    /// Whether a thread may begin a call now.
    fn may_ask(&self, thread: usize, lock: usize, call: Asked) -> bool
        ensures { result ≡ may_ask self.now thread lock call }
    {
        match call {
            Asked::OfLock(call) => {
                !self.is_once(lock)
                    && self.onces.call(thread).is_none()
                    && self.waits.may_ask(thread, lock, call)
            }
            Asked::OfVariable(call) => {
                self.onces.call(thread).is_none() && self.waits.may_call_at(thread, lock, call)
            }
            Asked::OfOnce(_) => {
                self.is_once(lock)
                    && !self.waits.is_busy(thread)
                    && self.onces.may_begin(thread, lock)
            }
        }
    }

    /// Whether a thread may make a step of its call now.
    fn may_go(&self, thread: usize) -> bool
        ensures { result ≡ may_go self.now thread }
    {
        if self.is_in_once(thread) {
            self.once_goes(thread)
        } else {
            self.wait_goes(thread)
        }
    }

    /// Whether a thread may make that step now.
    pub(crate) fn may_make(&self, step: WorldStep) -> bool
        ensures { result ≡ may_make self.now step }
    {
        match step {
            WorldStep::Begin(thread, lock, call) => self.may_ask(thread, lock, call.asked()),
            WorldStep::Go(thread, _) => self.may_go(thread),
            WorldStep::Deadline(thread) => self.waits.may_expire(thread),
        }
    }
}
