//! Steps that take a call's end and its beginning along.
ghost use Rattle.std.specs.Prelude.{◌≡◌, true};
ghost use Rattle.parking_lot_machine.specs.Machines.{can_move, may_begin, IsAdvanced, IsStarted};
ghost use Rattle.parking_lot_machine.specs.Rows.{state};

use crate::row_machine::RowMachine;
use parking_lot_machine_calls::LockCall;
use parking_lot_protocol::CoreAnswer;
use std::alloc::Allocator;

impl<A: Allocator> RowMachine<A> {
    /// A thread makes one [step](RowMachine::step), and where that leaves nothing of its call but the answer, the call
    /// is answered too. The answer changes no word, no list and no other thread, so for whoever watches those this is
    /// one step.
    pub fn advance(&mut self, thread: usize, fair: bool) -> Option<CoreAnswer>
        requires can { can_move (state self.old) thread ≡ true }
        ensures { IsAdvanced thread fair result (state self.old) (state self.new) }
    {
        let first = self.step(thread, fair);
        if first.is_some() {
            return first;
        }
        match self.ended(thread) {
            Some(_) => self.step(thread, false),
            None => None,
        }
    }

    /// A thread [begins](RowMachine::begin) a call at a lock and makes its first step with it. The beginning changes no
    /// word, no list and no other thread.
    pub fn start(
        &mut self,
        thread: usize,
        lock: usize,
        call: LockCall,
        fair: bool,
    ) -> Option<CoreAnswer>
        requires may { may_begin (state self.old) thread lock call ≡ true }
        ensures { IsStarted thread lock call fair result (state self.old) (state self.new) }
    {
        self.begin(thread, lock, call);
        self.advance(thread, fair)
    }
}
