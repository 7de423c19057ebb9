//! A call that a thread is in.
ghost use Rattle.std.specs.Prelude.{◌≡◌, ◌≤◌, ◌^◌};
ghost use Rattle.parking_lot_protocol.specs.declared.act.ActResult.TheVariants as seen;
ghost use Rattle.parking_lot_machine_calls.specs.declared.seat.QueuePosition.TheVariants as spot;
ghost use Rattle.parking_lot_machine_calls.specs.LateCalls.{found_as, is_handed};
ghost use Rattle.parking_lot_machine_calls.specs.CallActs.{hears, key_of, off_list, settled};

use crate::calls::LockCall;
use crate::seat::{Core, QueuePosition, WakeResult};
use parking_lot_core_model::UnparkToken;
use parking_lot_protocol::ActResult;

/// A call that isn't answered yet.
#[derive(Clone, Copy)]
pub struct Call {
    /// The lock's number.
    pub lock: usize,
    /// How many shared holds of the lock the thread has beside the one that the call is about.
    pub others: u8,
    /// What it has asked for, and waits for.
    pub core: Core,
    /// Where it stands, while it sleeps.
    pub spot: QueuePosition,
    /// What it was begun as, whatever has become of it since.
    pub asked: LockCall,
}

impl Call {
    /// The call once it is told what its act gave.
    pub fn told(self, seen: ActResult) -> Call
        ensures { result ≡ hears self seen }
    {
        Call {
            core: self.core.told(seen),
            ..self
        }
    }

    /// The call once it has joined a list.
    pub fn listed(self) -> Call
        ensures { result ≡ record (hears self seen.Made) { spot = spot.Listed } }
    {
        Call {
            spot: QueuePosition::Listed,
            ..self.told(ActResult::Made)
        }
    }

    /// The call of a sleeper once it is woken.
    pub fn woken(self, token: UnparkToken) -> Call
        ensures { result ≡ record (hears self (seen.Woken token)) { spot = spot.Listed } }
    {
        Call {
            spot: QueuePosition::Listed,
            ..self.told(ActResult::Woken(token))
        }
    }

    /// The lot's key of the lock's first list, or of its second.
    pub fn key(&self, which: u8) -> usize
        requires small { self.now.lock ≤ 2 ^ 62 }
        ensures { result ≡ key_of self.now which }
    {
        2 * self.lock + usize::from(which)
    }

    /// The call of a sleeper once a thread has taken it off its list.
    pub fn off_list(self, by: usize) -> Call
        ensures { result ≡ off_list by self }
    {
        Call {
            spot: QueuePosition::Off(by, WakeResult::Nothing),
            ..self
        }
    }

    /// The call of a sleeper whose moment has passed and that is back in its section, where it has found that a thread
    /// has taken it.
    pub fn found(self, by: usize, said: WakeResult) -> Call
        ensures { result ≡ record self { core = found_as by (is_handed said) self.core; spot = spot.Listed } }
    {
        Call {
            core: self.core.found(by, said.is_handed()),
            spot: QueuePosition::Listed,
            ..self
        }
    }

    /// The call once a thread has told all whom it has taken.
    pub fn settled(self, by: usize, said: WakeResult) -> Call
        ensures { result ≡ settled by said self }
    {
        Call {
            spot: self.spot.settled(by, said),
            ..self
        }
    }
}
