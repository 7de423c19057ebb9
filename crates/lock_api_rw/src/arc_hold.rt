//! Holds that own an Arc of their lock. Each is taken by the clone, which is made first.
ghost use Rattle.std.specs.Prelude.{◌≡◌, IfOk, IfSome, OnErr};
ghost use Rattle.std.specs.Arc.{arc_value};
ghost use Rattle.lock_api_rw.specs.Holds.{Tried};

use crate::mode::{Mode, TimedMode};
use crate::raw_hold::{HasRaw, RawHold};
use lock_api_raw::NoMemory;
use std::alloc::Allocator;
use std::rt::Clock;
use std::sync::{Arc, Wait};

impl<L: HasRaw + Drop, A: Allocator, M: Mode<L::Raw>> RawHold<Arc<L, A>, M> {
    /// Clones the Arc, and then waits for a hold. A refused clone takes no lock.
    pub fn wait_by_clone(
        this: &Arc<L, A>,
        party: &mut M::Party,
    ) -> Result<RawHold<Arc<L, A>, M>, NoMemory>
    where
        M::Runtime: Wait,
        ensures lock { IfOk result (λ hold. arc_value hold.place ≡ arc_value this.now) }
        ensures call { IfOk result (λ hold. M.locked hold.token) }
        ensures refused { OnErr result (party.new ≡ party.old) }
    {
        Ok(RawHold::wait(Arc::try_clone(this)?, party))
    }

    /// Clones the Arc, and then tries. A refused clone takes no lock.
    pub fn at_once_by_clone(this: &Arc<L, A>) -> Result<Option<RawHold<Arc<L, A>, M>>, NoMemory>
        ensures lock { IfOk result (λ found. IfSome found (λ hold. arc_value hold.place ≡ arc_value this.now)) }
        ensures call { IfOk result
            (λ found. Tried (M.tried (L.raw_of (arc_value this.now))) found (λ hold. hold.token)) }
    {
        Ok(RawHold::at_once(Arc::try_clone(this)?))
    }
}

impl<L: HasRaw + Drop, A: Allocator, M: TimedMode<L::Raw>> RawHold<Arc<L, A>, M>
where
    M::Runtime: Wait,
{
    /// Clones the Arc, and then waits: None if the wait is given up after the length of time.
    pub fn wait_by_clone_for<C: Clock>(
        this: &Arc<L, A>,
        timeout: M::Duration,
        clock: &C,
        party: &mut M::Party,
    ) -> Result<Option<RawHold<Arc<L, A>, M>>, NoMemory>
    where
        M::Duration: Drop,
        ensures lock { IfOk result (λ found. IfSome found (λ hold. arc_value hold.place ≡ arc_value this.now)) }
        ensures call { IfOk result (λ found. Tried M.locked_in_time found (λ hold. hold.token)) }
        ensures refused { OnErr result (party.new ≡ party.old) }
    {
        Ok(RawHold::wait_for(Arc::try_clone(this)?, timeout, clock, party))
    }

    /// Clones the Arc, and then waits: None if the wait is given up at the moment.
    pub fn wait_by_clone_until<C: Clock>(
        this: &Arc<L, A>,
        deadline: M::Instant,
        clock: &C,
        party: &mut M::Party,
    ) -> Result<Option<RawHold<Arc<L, A>, M>>, NoMemory>
    where
        M::Instant: Drop,
        ensures lock { IfOk result (λ found. IfSome found (λ hold. arc_value hold.place ≡ arc_value this.now)) }
        ensures call { IfOk result (λ found. Tried M.locked_in_time found (λ hold. hold.token)) }
        ensures refused { OnErr result (party.new ≡ party.old) }
    {
        Ok(RawHold::wait_until(Arc::try_clone(this)?, deadline, clock, party))
    }
}
