//! A call of a mutex in a section.
ghost use Rattle.parking_lot_mutex.specs.Owning.{IsOwnedAtEnd};

use parking_lot_core::UnparkToken;
use parking_lot_driver::{Call, Run, UnderWay};
use parking_lot_protocol::{Act, ActResult, MutexCore};
use std::alloc::AllocError;

/// A call in a section: the right isn't in hand unless the call is over and owns the mutex.
#[derive(Copy)]
pub(crate) struct Resting<K: Call<Core = MutexCore>> {
    pub run: Run<K, MutexCore>,
    pub ghost at_end: { IsOwnedAtEnd run.1.phase },
}

impl<K: Call<Core = MutexCore>> Clone for Resting<K> {
    fn clone(&self) -> Result<Resting<K>, AllocError> {
        Ok(*self)
    }
}

impl<K: Call<Core = MutexCore>> UnderWay for Resting<K> {
    fn act(&self) -> Act {
        self.run.act()
    }

    fn tell(&mut self, seen: ActResult) -> Act {
        if seen == ActResult::Start {
            return self.run.act();
        }
        let mut run = self.run;
        let act = run.tell(seen);
        *self = Resting { run };
        act
    }

    fn wake_token(&self) -> UnparkToken {
        self.run.wake_token()
    }
}
