//! What each act of a call does to the machine whose moment has passed as it slept.
ghost use Rattle.std.specs.Prelude.{◌≡◌, ◌≤◌, ◌^◌, true, None, Some};
ghost use Rattle.std.specs.List.{position, position_or_len};
ghost use Rattle.parking_lot_machine_calls.specs.declared.seat.QueuePosition.TheVariants as spot;
ghost use Rattle.parking_lot_machine.specs.LateActs.{expired, found, quitted, returned};
ghost use Rattle.parking_lot_machine_calls.specs.LateCalls.{comes_late, is_back, late_key, sleeps_in_time};
ghost use Rattle.parking_lot_machine.specs.Rows.{call_at, is_for, open_at, state};

use crate::lot_calls;
use crate::row_machine::RowMachine;
use parking_lot_machine_calls::{Call, WakeResult, Wakeup};
use parking_lot_protocol::ActResult;
use std::alloc::Allocator;

/// Where the one stands in the list of those to wake; behind the last, where it doesn't.
fn first_for(wakes: &[Wakeup], thread: usize) -> usize
    ensures { result ≡ position_or_len (is_for thread) wakes.now }
{
    place_for(wakes, thread).unwrap_or(wakes.len())
}

/// The same; `None` where it doesn't.
fn place_for(wakes: &[Wakeup], thread: usize) -> Option<usize>
    ensures { result ≡ position (is_for thread) wakes.now }
{
    wakes.iter().position(|wakeup| wakeup.thread == thread)
}

impl<A: Allocator> RowMachine<A> {
    /// Its moment passes as it sleeps.
    pub(crate) fn expire(&mut self, thread: usize, call: Call)
        requires here { call_at (state self.old) thread ≡ Some call }
        requires asleep { sleeps_in_time call.core ≡ true }
        ensures { state self.new ≡ expired (state self.old) thread call }
    {
        self.calls[thread] = Some(Call {
            core: call.core.late(),
            ..call
        });
    }

    /// It comes back into the section of its list, where nobody is in one of the same bucket and it still stands there.
    pub(crate) fn come_back(&mut self, thread: usize, call: Call)
        requires here { call_at (state self.old) thread ≡ Some call }
        requires late { comes_late call.core ≡ true }
        requires listed { call.spot ≡ spot.Listed }
        requires free { open_at (state self.old) (late_key call) ≡ None }
        requires small { call.lock ≤ 2 ^ 62 }
        ensures { state self.new ≡ returned (state self.old) thread call }
    {
        lot_calls::come_back(&mut self.lot, thread, call.key(call.core.late_list()));
        self.calls[thread] = Some(call.told(ActResult::Entered));
    }

    /// It comes back, where nobody is in a section of its list's bucket, and finds that a thread has taken it. From
    /// then on nobody is to wake it.
    pub(crate) fn find(&mut self, thread: usize, call: Call, by: usize, said: WakeResult)
        requires here { call_at (state self.old) thread ≡ Some call }
        requires late { comes_late call.core ≡ true }
        requires off { call.spot ≡ spot.Off by said }
        requires free { open_at (state self.old) (late_key call) ≡ None }
        requires small { call.lock ≤ 2 ^ 62 }
        ensures { state self.new ≡ found (state self.old) thread call by said }
    {
        let at = first_for(&self.wakes, thread);
        let _ = self.wakes.remove(at);
        lot_calls::find(&mut self.lot, thread, call.key(call.core.late_list()));
        self.calls[thread] = Some(call.found(by, said));
    }

    /// It takes itself out of its list.
    pub(crate) fn quit(&mut self, thread: usize, call: Call)
        requires here { call_at (state self.old) thread ≡ Some call }
        requires late { is_back call.core ≡ true }
        requires small { call.lock ≤ 2 ^ 62 }
        ensures { state self.new ≡ quitted (state self.old) thread call }
    {
        let key = call.key(call.core.late_list());
        let left = lot_calls::quit(&mut self.lot, thread, key, call.core.is_pending());
        self.calls[thread] = Some(call.told(ActResult::Took { token: None, left }));
    }
}
